//! What a line asks for: an account, a deploy, a transaction, a script, or nothing that can run.
#![tactic(auto)]

mod field;
mod kinds;
mod laws;
mod line;
mod run;

pub use kinds::Command;
pub use laws::limits_are_bounded;
pub use line::command;
