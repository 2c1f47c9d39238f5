//! What is read of what a member is used on, and what stands in a place as that.
#![tactic(auto)]

mod arrivals;
mod fields;
mod indices;
mod readings;
mod trees;

pub use arrivals::receive;
pub use fields::{get, position_of};
pub use indices::index;
pub use readings::{copied, gives_reference};
