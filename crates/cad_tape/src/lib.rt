//! Records behind a gate on three tapes: written so that a crash at any moment leaves what was there or what is to be
//! there, and read again.
#![tactic(auto)]

mod commit;
mod laws;
mod scanning;
mod stop;
mod window;

pub use commit::{append, checkpoint, frame};
pub use laws::{opens, order_matters, records_both_ways};
pub use scanning::{Records, scan};
pub use stop::ScanStop;
