//! How high the expressions of a program are: what goes down a tree takes stack by it.
#![tactic(auto)]

mod bodies;
mod declarations;
mod expressions;

pub use declarations::is_too_high;
