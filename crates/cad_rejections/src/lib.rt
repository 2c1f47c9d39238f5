//! How a rejection is written as JSON.
#![tactic(auto)]

mod text;

pub use text::rejected_text;
