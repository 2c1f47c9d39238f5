//! Which programs are accepted, and where each other one is refused first. Definitions in specs/, and laws.
#![tactic(auto)]

pub mod laws;
