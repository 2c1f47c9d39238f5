//! What is done where a value stands in the state of a run: it is taken out, put in, assigned, exchanged and swapped.
#![tactic(auto)]

mod asking;
mod assigning;
mod clearing;
mod entering;
mod filling;
mod opened;
mod same_places;
mod swapping;
mod taking;

pub use assigning::{assign, exchange, force_assign};
pub use filling::fill;
pub use swapping::swap;
pub use taking::take;
