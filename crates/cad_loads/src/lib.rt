//! Contracts that were deployed one after another. Definitions in specs/.
#![tactic(auto)]

mod sources;

pub use sources::Source;
