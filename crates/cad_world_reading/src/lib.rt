//! The World for which registers stand.
#![tactic(auto)]

mod contracts;
mod laws;
mod part;
mod reading;

pub use laws::one_world;
pub use part::known_part;
pub use reading::{known_world, read_world};

// What the crates above use of the ones below.
pub use cad_loading::{Programs, discard_kept, nothing_kept};
