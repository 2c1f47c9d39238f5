//! Functions, initializers and the events of resources: elaborated, or where they are ill-typed.
#![tactic(auto)]

mod destroyed;
mod function;

pub use destroyed::destroyed_event;
pub use function::{
    parameter_locals, type_body, type_function, type_initializer, type_top_function,
};

// What the crates above use of the ones below.
pub use cad_statements::{
    Surroundings, count_all, entries_of, is_var_word, type_conditions, values_at_entry,
};
