//! Values to their JSON.
#![tactic(auto)]

mod form;
mod text;
mod word;
mod writing;

pub use writing::export;
