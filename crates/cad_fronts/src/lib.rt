//! Codes of which it is known whether they are accepted, as the front end of runs.
#![tactic(auto)]

mod asking;
mod codes;
mod laws;
mod learning;

pub use codes::{Verdicts, discard_verdicts, no_verdicts};
pub use laws::one_verdict;
pub use learning::learn;

// What the crates above use of the ones below.
pub use cad_loading::{check_text, deployed_of, no_stop_of_accepted, one_acceptance, one_stop};
