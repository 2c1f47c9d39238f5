//! Numbers as bytes, both ways, and the values that accounts store so far.
#![tactic(auto)]

mod kind;
mod laws;
mod reading;
mod value;
mod writing;

pub use cad_wire::DecodeError;
pub use kind::{kind_byte, kind_of};
pub use laws::one_spelling;
pub use reading::{decode, number_of, parts_of};
pub use value::Value;
pub use writing::{encode, write_number};
