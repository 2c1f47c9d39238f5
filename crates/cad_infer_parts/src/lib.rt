//! The parts of the recursion that types expressions: forms that hold no expression, and what is done with what was found.
#![tactic(auto)]

mod chained;
mod family;
mod leaf;
mod then;

// For the crates above alone: what is done is told by the definitions that the recursion follows.
pub use chained::{chain_call_then, chain_place_then, chain_then, force_place_then};
pub use family::{Family, operator_family};
pub use leaf::{
    alone, arguments_environment, behind_argument, behind_entry, index_environment, named_base,
    named_call, parameter_for,
};
pub use then::{
    array_then, borrow_then, call_then, cast_expected, cast_position, cast_then, chosen_then,
    coalesced_then, dictionary_then, flat, force_then, index_place_then, index_then, joined_then,
    literal_of, member_call_then, member_place_then, member_then, nil_then, operand_expected,
    operand_position, operands_then, received, unary_then,
};
