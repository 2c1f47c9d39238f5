//! The heads of what a program declares: which of them are right, and what they say of what stands in them.
#![tactic(auto)]

mod declared;
mod head;
mod names;
mod results;
mod routine;
mod transaction;

pub use declared::{
    composite_is_right, contract_is_right, enum_is_right, event_is_right, interface_is_right,
};
pub use head::{annotated_type, parameter_types, result_entry, scope_in};
pub use names::{below, of_initializer, one_name, one_word, word};
pub use results::{counted, head_is_right, is_entry, is_main, number_behind, result_local};
pub use routine::{Routine, function_routine, initializer_routine, written};
pub use transaction::{
    are_signers, declaration_is_right, option_parameters, own_count, signed_count,
    signer_parameters,
};
