//! Contracts whose codes are read and checked again.
#![tactic(auto)]

mod deployed;
mod held;
mod kept;
mod laws;
mod loading;
mod meeting;
mod passes;
mod progress;

pub use deployed::{deployed_of, deployed_with};
pub use kept::{Programs, discard_kept, load_kept, nothing_kept};
pub use laws::one_loading;
pub use progress::discard_programs;

// What the crates above use of the ones below.
pub use cad_check::{check_text, no_stop_of_accepted, one_acceptance, one_stop};
