//! The lines of a generated session: accounts, a token, and transfers between them.
#![tactic(auto)]

mod lines;
mod numbers;
mod programs;
mod requests;

pub use lines::{first_lines, generate_lines, transfer_of};
pub use numbers::next_number;
