//! Laws of tables: what a program's tables rest on.
#![tactic(auto)]

mod laws;

pub use laws::{
    adding_changes_nothing, imports_are_enough, members_are_met, others_do_not_count,
    reached_are_closed,
};
