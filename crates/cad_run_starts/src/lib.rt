//! The state in which a program begins.
#![tactic(auto)]

mod start;

pub use start::begin;
