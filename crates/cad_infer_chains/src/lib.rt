//! The types of chains, and of forced optionals as places.
#![tactic(auto)]

mod chains;

pub use chains::{base_of_chain, chain_call, chain_value, forced_base};
