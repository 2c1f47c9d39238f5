//! Reading of expressions.
#![tactic(auto)]

mod closing;
mod cursor;
mod leaf;
mod made;
mod reader;
mod tail;
mod word;

pub use cursor::{Cursor, MAX_NESTING, one_tree, parse_expr, parse_type};

// For the crates above alone: what is read is told by the definitions that the code follows.
pub use reader::{expression, expression_at};
