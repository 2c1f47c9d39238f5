//! Keys of dictionaries: when two are the same, and lists of keys that are found by their hashes.
#![tactic(auto)]

mod hashes;
mod index;
mod keys;
mod same;

pub use keys::Keys;
pub use same::{is_same_case, is_same_number, same_key};
