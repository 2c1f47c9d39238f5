//! What a command is answered over a World, and what World it leads to.
#![tactic(auto)]

mod attempts;
mod commands;
mod deploys;
mod judging;
mod laws;
mod making;
mod outcome;
mod ready;
mod reply;
mod scripts;
mod settling;
mod transactions;

pub use laws::{
    failures_leave_the_world, one_reply, scripts_leave_the_world, sound_world_becomes_itself,
};

// For the crates above alone: replies, and commands that are answered over a store.
pub use ready::{Prepared, prepare};
pub use reply::{Reply, reply_line};
pub use settling::{Settled, settle};
