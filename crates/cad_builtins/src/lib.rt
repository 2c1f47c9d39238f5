//! The built-in members of types: which a type has, what they take and give, and what a reference needs for them.
#![tactic(auto)]

mod comparable;
mod entitlements;
mod forms;
mod members;
mod names;
mod numbers;
mod parameter;
mod results;
mod rights;
mod rule;

pub use comparable::{is_comparable, is_primitive_basic};
pub use entitlements::{may_replace_elements, needed};
pub use members::{builtin_call_of_type, builtin_function, builtin_member, builtin_member_of_type};
pub use numbers::{is_integer, is_sized};
pub use parameter::{BuiltinParameter, BuiltinParameters, ParameterForm, parameters_of};
pub use results::{own_account, result_of};
pub use rights::{is_read, last_may_be_absent, needs_reference, takes_more};
pub use rule::{TypeRule, type_rule};
