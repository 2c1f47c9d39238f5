//! Reading of types, and the tests on tokens that all readers share.
#![tactic(auto)]

mod marks;
mod names;
mod reader;
mod spot;
mod types;

// For the crates above alone: what is read is told by the definitions that the code follows.
pub use marks::{question, questions};
pub use names::{dotted, dotted_list, entitled};
pub use reader::{annotation, annotation_at, arguments_at, type_at};
pub use spot::Spot;
