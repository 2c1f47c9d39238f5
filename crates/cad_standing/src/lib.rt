//! Places of expressions: what they lead to, and what is done there.
#![tactic(auto)]

mod casting;
mod elements;
mod fields;
pub mod laws;
mod leaves;
mod optionals;
mod receivers;
mod references;
mod standing;
mod values;

pub use casting::cast_place;
pub use elements::element_of;
pub use fields::field_of;
pub use optionals::{content_of, is_nil};
pub use receivers::{chain_receiver, receiver};
pub use references::borrow;
pub use standing::{
    Standing, discard_standing, here_contract, here_variable, is_nowhere, led_by, own_self,
};
pub use values::{copy, location, take};
