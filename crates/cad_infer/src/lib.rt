//! The types of expressions, and their elaborated trees.
#![tactic(auto)]

mod expression;
mod flat;
mod operators;
mod places;
mod rows;
mod typed;

pub use typed::{infer, infer_place};
// For the crates above alone: what stands before `.` and `[`, and arguments, by the definitions that the recursion follows.
pub use places::based;
pub use rows::infer_arguments;
