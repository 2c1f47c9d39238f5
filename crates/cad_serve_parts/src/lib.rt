//! What `serve` stands on that answers no command: the words that it is given, the line that comes in, and what a store tells of its
//! World to a run, and takes of what the run leaves.
#![tactic(auto)]

mod line;
mod parts;
mod reach;
mod words;
mod worlds;

// For the crates above alone.
pub use line::{LONGEST, Line};
pub use parts::{part_changes_to, part_in};
pub use reach::{Reach, first_reach, reach_out};
pub use words::{is_run, transfers_asked};
pub use worlds::{Worlds, changes_to, run_changes_to, world_for, world_in};

// What the crates above use of the ones below.
pub use cad_world_reading::{Programs, discard_kept, nothing_kept, one_world};
