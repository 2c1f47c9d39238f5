//! Values on the heap.
#![tactic(auto)]

mod boxes;

pub use boxes::{boxed, discard_boxed, unboxed};
