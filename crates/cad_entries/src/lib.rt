//! The entries of tables, by what the names of a program are looked up in.
#![tactic(auto)]

mod heads;
mod known;
mod mappings;
mod members;
mod tables;
mod types;

pub use known::{Known, look_up, scope};
pub use tables::{linked_types, made_tables};
