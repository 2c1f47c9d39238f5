//! Literals: their types and elaborated trees.
#![tactic(auto)]

mod literals;

pub use literals::{
    bool_literal, fixed_literal, nil_literal, path_literal, signed_fixed, signed_whole,
    text_literal, whole_literal,
};
