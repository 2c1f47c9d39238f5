//! JSON to values.
#![tactic(auto)]

mod importing;
mod laws;

pub use importing::import;
pub use laws::one_value;
