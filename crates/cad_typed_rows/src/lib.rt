//! Rows of elaborated trees, and how they are let go: for the crates above, which drop none of these types themselves.
#![tactic(auto)]

mod bodies;
mod discard;
mod push;

pub use bodies::{
    discard_bodies, discard_body, discard_destroyed, discard_function, discard_maybe_destroyed,
    discard_maybe_function, discard_maybe_transaction, discard_member, discard_members,
    discard_transaction, discard_type_bodies, discard_type_body, discard_variables,
};
pub use discard::{
    discard_argument, discard_before, discard_befores, discard_blocks, discard_case, discard_cases,
    discard_condition, discard_conditions, discard_maybe_block, discard_maybe_term,
    discard_maybe_variable, discard_statements, discard_terms,
};
pub use push::{
    push_before, push_block, push_case, push_condition, push_member, push_statement, push_term,
    push_type_body, push_variable,
};
