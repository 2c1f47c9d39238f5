//! What calls take, and whether a value is met as its owner: what the typing of calls and of other forms shares.
#![tactic(auto)]

mod owned;
mod parameter;

pub use owned::is_owned;
pub use parameter::{Count, Parameter, Takes, discard_parameters};
