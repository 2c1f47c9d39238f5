//! What comes from outside the program: an input, an output and three tapes, which one trace of events tells of.
#![tactic(auto)]

mod call;
mod faults;
mod file_host;
mod folder;
mod host;
mod laws;
mod memory;
mod record;
mod replay;
mod schedule;
mod sure;
mod tapes;

pub use file_host::FileHost;
pub use host::{Failed, Host, Tape};
pub use laws::{
    after_a_failure, after_a_sync, each_leaves_the_other, inside_a_write, no_shorter_than_synced,
    reading_is_an_image,
};
pub use memory::MemHost;
pub use sure::SureHost;
