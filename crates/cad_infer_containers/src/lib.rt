//! Arrays, dictionaries and arguments: their types and elaborated trees, by those of their parts.
#![tactic(auto)]

mod appended;
mod arguments;
mod containers;
mod terms;

pub use arguments::{Next, argument, expected_argument, may_end, next_parameter};
pub use containers::{
    array_typed, dictionary_typed, element, expected_element, expected_key, expected_value,
};
// For the crates above alone, which let no tree go by themselves.
pub use appended::{paired, push_argument, push_pair, push_typing};
pub use terms::{discard_pairs, discard_typings};
