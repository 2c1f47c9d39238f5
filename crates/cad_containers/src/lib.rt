//! Arrays and dictionaries: literals and built-in members.
#![tactic(auto)]

mod aims;
mod array_changes;
mod arrays;
mod concat;
mod copies;
mod dictionaries;
mod dictionary_changes;
mod literals;
mod members;
mod parts;
mod reads;

pub use literals::{Pair, array, dictionary, discard_pairs, elements};
pub use members::container_member;
