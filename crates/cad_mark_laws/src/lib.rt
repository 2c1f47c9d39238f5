//! Laws of marks: a body whose lives are right has them, and a loop's hold before each turn.
#![tactic(auto)]

mod laws;

pub use laws::{
    functions_have_marks, linear_has_marks, loops_are_stable, set_fields_have_marks,
    transactions_have_marks,
};
