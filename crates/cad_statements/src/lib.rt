//! The elaborated trees of statements, or the first that is ill-typed.
#![tactic(auto)]

mod conditions;
mod statements;

pub use cad_statement_parts::{
    Surroundings, count_all, entries_of, entry_of, is_var_word, locals_from, next_local,
};
pub use cad_statement_trees::{ForTyping, StatementTyping, SwitchTyping, TestTyping};
pub use conditions::{condition, type_conditions, values_at_entry};
pub use statements::{type_block, type_statement};

// What the crates above use of the ones below.
pub use cad_statement_forms::infer;
