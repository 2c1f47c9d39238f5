//! Expressions: what they mean, over what is called.
#![tactic(auto)]

mod ends;
mod entries;
mod expressions;
mod makes;
mod members;
mod nesting;
mod operands;
mod place_forms;
mod places;
mod row_forms;
mod rows;
mod terms;
mod uses;
mod value_forms;

pub use expressions::{eval, eval_arguments, eval_place};

// What the crates above use of the ones below.
pub use cad_expression_leaves::{
    Callee, Callees, Quiet, Standing, boxed, discard_boxed, location, open, truth_at_once, unboxed,
};
