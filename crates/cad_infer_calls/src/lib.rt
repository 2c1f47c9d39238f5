//! The types of calls.
#![tactic(auto)]

mod arguments;
mod call;
mod constructors;
mod methods;
mod parameters;
mod type_arguments;

pub use arguments::call_typed;
pub use call::{
    Call, Callee, Invocation, Method, discard_call, discard_callee, discard_invocation,
    discard_method,
};
pub use constructors::{call_constructor, call_head, initializer_parameters, is_event};
pub use methods::{before_call, call_member, create_call, invoke};
pub use type_arguments::has_no_types;
