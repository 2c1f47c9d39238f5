//! What authorizations grant, and their images under mappings.
#![tactic(auto)]

mod grant;
pub mod laws;
mod mapping;

pub use grant::{grants, weaker};
pub use mapping::{Mapping, image};
