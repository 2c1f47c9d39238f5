//! What people are told of a program that is refused: the place in its text, found by a walk over its tokens, and the line.
#![tactic(auto)]

mod declarations;
mod groups;
mod places;
mod positions;
mod statements;
mod telling;
mod tokens;

pub use places::place;
pub use positions::{Position, position_at};
pub use telling::diagnostic;
