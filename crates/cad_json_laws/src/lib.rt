//! That JSON and values go both ways.
#![tactic(auto)]

mod laws;

pub use laws::{import_text, import_told, told_stands};
