//! What operators and the built-in members of numbers make of values, without the state of a run: each gives the action's value,
//! or says why there is none.
#![tactic(auto)]

mod heads;
mod kinds;
pub mod laws;
mod leaves;
mod numbers;
mod operators;
mod order;
mod pairs;
mod sameness;
mod truths;
mod words;

pub use cad_keys::same_key;
pub use leaves::{bool_tree, nil_tree, number_in, number_tree, plain_tree, plain_value, truth_in};
pub use numbers::{
    Operation, converted, count_tree, greatest, integer_in, least, negated, on_numbers,
};
pub use operators::{binary, is_comparison};
pub use order::less;
pub use pairs::{calculate_numbers, compare_numbers};
pub use sameness::same;
pub use truths::{denied, truth_only};

// For the crates above alone: parts of trees, and the bits of numbers.
pub use leaves::{is_array, parts, wrapped};
pub use words::twos_complement;
