//! The tables of a program, or where its names are refused.
#![tactic(auto)]

mod building;
mod contract_points;
mod deployed;
mod import_points;
mod program_points;

pub use building::build;
pub use deployed::{deployed_kinds, no_contracts, with_contract};
