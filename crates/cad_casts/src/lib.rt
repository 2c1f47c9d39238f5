//! Own types of values in a state, what they are compared with, and casts.
#![tactic(auto)]

mod below;
mod casts;
mod own_types;

pub use below::is_instance;
// For the crates above alone: a cast by a type that is told, by the definitions that the code follows.
pub use casts::{cast_from, own_cast};
pub use own_types::{
    check_row, check_type, find_node, is_controller, own_type_of, settle_type, type_here,
};
