//! What an action of a program comes to: its value, or why it has none.
#![tactic(auto)]

mod error;
mod stop;

pub use error::RunError;
pub use stop::Stop;
