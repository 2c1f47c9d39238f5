//! Functions and initializers that are called, with their conditions.
#![tactic(auto)]

mod apart;
mod conditions;
mod events;
mod functions;
mod level;
mod pieces;
mod unlabelled;

pub use cad_installations::FrontEnd;
pub use conditions::{keep_values, test_conditions};
pub use functions::{Own, run, value_of_flow};
pub use level::{Level, call_with};
pub use unlabelled::is_unnamed;

// What the crates above use of the ones below.
pub use cad_execution::{Callee, Callees, Flow, exec_block, unboxed};
