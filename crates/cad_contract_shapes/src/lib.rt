//! What contracts and programs declare, where values are judged and told.
#![tactic(auto)]

mod built_in;
mod contracts;
mod entries;
mod programs;
mod telling;

pub use contracts::shapes_of_contracts;
pub use programs::shapes_of_tables;
pub use telling::sorts_of_contracts;
