//! Built-in members of values, by what they are used on.
#![tactic(auto)]

mod members;

pub use members::member;

// What the crates above use of the ones below.
pub use cad_containers::{Pair, array, dictionary, discard_pairs, elements};
pub use cad_services::contracts_account;
