//! `serve`: command lines come in over a host, and one reply line goes out for each.
#![tactic(auto)]

mod counting;
mod generating;
mod laws;
mod serving;
mod session_laws;
mod status;

pub use cad_answers::{
    failures_leave_the_world, one_reply, scripts_leave_the_world, sound_world_becomes_itself,
};
pub use laws::{one_state_a_disk, reply_before_commit};
pub use serving::serve;
pub use session_laws::{one_counts_line, one_session};
pub use status::Status;
