//! Forms of expressions that are made of their parts, each with its type.
#![tactic(auto)]

mod terms;

pub use terms::{
    array_term, borrow_term, cast_typed, coalesce_typed, conditional_typed, destroy_typed,
    dictionary_term, force_typed, into_term, nil_term, of_bool, of_left_type, unary_typed,
};
