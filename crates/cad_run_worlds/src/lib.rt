//! Worlds over which programs run, their arguments and signers, and replies that need no value.
#![tactic(auto)]

mod arguments;
mod reply;
mod run_worlds;
mod signers;

pub use reply::{ScriptReply, Unfinished};
pub use run_worlds::{RunWorld, discard_run_world, of_part, of_world};
pub use signers::has_account;

// For the crates above alone: states in which runs begin, rows of arguments, signers, and what is told of stops.
pub use arguments::{row_for, row_of};
pub use reply::{reply_to_stop, why_unfinished};
pub use run_worlds::begin_over;
pub use signers::are_signers;
