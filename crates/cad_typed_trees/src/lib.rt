//! Places, uses and forms of expressions, one function for each; and the type of what is read through a reference.
#![tactic(auto)]

mod readings;
mod trees;

pub use readings::read_through;
pub use trees::{
    before_term, builtin_call_use, builtin_field_use, builtin_term, case_term, chain_term,
    constant_term, construct_term, content_place, create_term, element_place, field_place,
    field_use, function_term, index_term, meta_term, method_use, on_term,
};
