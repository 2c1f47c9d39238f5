//! Whether values are of a type, and which can be stored.
#![tactic(auto)]

mod fit;
mod held;
mod keys;
mod part;
mod storable;
mod table;

pub use fit::{fits, fits_contract};
pub use storable::is_storable;
