//! Statements: what they mean, over what is called.
#![tactic(auto)]

mod chosen;
mod leaves;
mod places;
mod plain;
mod statements;

pub use leaves::{come, emit_event};
pub use statements::exec_block;

// What the crates above use of the ones below.
pub use cad_expressions::{
    Callee, Callees, Quiet, boxed, discard_boxed, eval, eval_arguments, unboxed,
};
pub use cad_statement_leaves::Flow;
