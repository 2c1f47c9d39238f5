//! What view functions and conditions may do, and whether each field is set once and before it is used.
#![tactic(auto)]

mod bodies;
mod fields;
mod initialisation;
mod places;
mod statements;
mod tables;
mod terms;

pub use bodies::{impurity, is_pure_event};
pub use fields::{lacks_initializer, rules_in};
pub use initialisation::initialised;
