//! The elaborated bodies of all that a program declares, or where it is ill-typed.
#![tactic(auto)]

mod program;

pub use program::pieces;
