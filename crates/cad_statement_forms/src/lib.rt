//! The forms of statements, with the types of their expressions: what a statement makes of its own parts, but the statements in
//! it.
#![tactic(auto)]

mod branches;
mod found;
mod leaves;
mod loops;
mod simple;
mod switches;
mod variables;

pub use branches::{infer_test, test_typing};
// For cad_statements alone, which finds the statements inside.
pub use found::{for_found, if_found, next_number, switch_found, while_found};
pub use leaves::{
    type_assignment, type_break, type_continue, type_emit, type_expression, type_return, type_swap,
    type_variable,
};
pub use loops::for_typing;
pub use switches::switch_typing;

// What the crates above use of the ones below.
pub use cad_infer_targets::{infer, infer_event};
