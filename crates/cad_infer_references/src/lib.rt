//! References and casts: their types and elaborated trees.
#![tactic(auto)]

mod references;

pub use references::{borrowed, cast_failable, cast_forced, cast_static, dereferenced};
