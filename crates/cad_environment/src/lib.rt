//! What typing knows where an expression stands, and what names stand for.
#![tactic(auto)]

mod access;
mod base;
mod entry;
mod environment;
mod forms;
mod known;
mod local;
mod names;
mod trees;
mod typing;
mod variables;

pub use access::{
    image_of, is_being_made, is_front, is_granted, is_in_contract, is_initializer, is_inside,
    is_own_place, mapped, may_write, rights, rights_by, stands_in, stands_in_account,
    stands_in_contract,
};
pub use base::{
    Base, Hidden, Receiver, beside, closed, held, held_at, of_contract, owned, receiver_at,
    receiver_in, through,
};
// For the crates above, which let nothing with a tree in it go in another way.
pub use base::{discard_base, discard_hidden, discard_receiver};
pub use entry::{at_entry, befores, behind, is_before, named_variables};
pub use environment::{
    Environment, Part, is_interface, local_named, more, result_in, type_of_self,
};
pub use forms::{is_nil, is_path, is_path_of_chain, is_place, is_self};
pub use known::Known;
pub use local::{Local, Scopes, find_local, local_in};
pub use names::{Head, function_named, head_named, is_contract_sort, type_inside};
pub use trees::{
    contract_place, copy_term, hold_term, self_place, take_term, target_place, variable_place,
};
pub use typing::{Position, Typing, discard_typing, typed};
pub use variables::{
    base_of_head, is_condition, is_contract_type, is_postcondition, may_be_named, may_leave,
    self_base, self_owned, self_type, self_value, stands_in_interface, transaction_field,
    value_of_head, variable_base, variable_value,
};
