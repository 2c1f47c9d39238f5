//! Values behind the sign of a move, what is assigned to, and events that are emitted: what statements do with expressions.
#![tactic(auto)]

mod emission;
mod moved;
mod target;

pub use emission::{Emission, discard_emission, infer_event};
pub use moved::{infer_declared, infer_moved, infer_returned};
pub use target::{Target, discard_target, infer_target, infer_variable};

// What the crates above use of the ones below.
pub use cad_infer::infer;
