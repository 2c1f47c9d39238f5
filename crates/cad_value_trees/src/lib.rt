//! Values as trees of a run, and trees as values, as the definition of a run has them. Each goes as deep as the value is high.
#![tactic(auto)]

mod trees;
mod values;

pub use trees::tree_from_value;
pub use values::value_from_tree;
