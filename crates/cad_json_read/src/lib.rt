//! Which value a JSON text stands for where a type is expected.
#![tactic(auto)]

mod composite;
mod expected;
mod form;
mod object;
mod plain;
mod reading;

pub use reading::read;
