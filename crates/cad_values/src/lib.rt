//! Values: their equality, sizes and own types.
#![tactic(auto)]

mod equal;
mod own_type;
mod parts;
mod size;
mod value;

pub use equal::{same, same_key};
pub use own_type::type_of_value;
pub use parts::has_no_reference;
pub use size::{height, identities, weight};
pub use value::{Cap, CompositeField, DictionaryEntry, Reference, Target, Value};
