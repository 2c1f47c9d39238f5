//! Reading of statements.
#![tactic(auto)]

mod parts;
mod reader;
mod simple;
mod words;

// For the crates above alone: what is read is told by the definitions that the code follows.
pub use parts::maybe_annotated;
pub use reader::{block, statements};
pub use words::{begins_plainly, parted, variable_word};
