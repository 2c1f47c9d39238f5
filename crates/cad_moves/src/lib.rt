//! Whether each resource is spent once on every path, and else the first misuse.
#![tactic(auto)]

mod bodies;
mod body;
mod check;
mod leaf;
mod letters;
mod misuse;
mod reading;
mod state;
mod statements;
mod table;

pub use body::{Body, Item};
pub use check::moves;
pub use misuse::{Misuse, MoveStop};
pub use reading::Reading;
pub use state::Rules;

// For the crates above alone: the search, which initialisation shares.
pub mod search;

// For the crates above alone: the letters of bodies, and their rows.
pub use bodies::{has_no_block, inner_letters, part_letters};
pub use body::{block, push_declaration, push_last, skip};
pub use leaf::is_self;
pub use statements::position;
