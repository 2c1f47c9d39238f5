//! The types of members and elements.
#![tactic(auto)]

mod found;
mod index;
mod members;

pub use found::{
    Found, Reading, discard_reading, found_member, read_found, read_member, result_through, serves,
};
pub use index::{expected_index, index_base, index_value, indexed_type};
pub use members::{base_of_member, closed_typed, value_of_member};
