//! Numbers, byte strings, lists and the entries of a record as bytes, both ways.
#![tactic(auto)]

mod body;
mod entry;
mod error;
mod laws;
mod reader;
mod writer;

pub use body::{read_entries, write_entries};
pub use entry::{Entries, Entry, Key};
pub use error::DecodeError;
pub use laws::{body_both_ways, fields_again, fields_found};
pub use reader::{Reader, Short};
pub use writer::Writer;
