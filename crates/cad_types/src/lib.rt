//! The order of types, and their classes.
#![tactic(auto)]

mod builtin;
mod classes;
mod declared;
mod declared_types;
pub mod laws;
mod marks;
mod places;
mod settle;
mod subtype;
mod table;

pub use builtin::Builtin;
pub use classes::{is_exportable, is_importable, is_storable};
pub use declared::{Declared, Sort, is_closed};
pub use declared_types::DeclaredTypes;
pub use places::{Places, places_of};
pub use subtype::{is_resource, is_subtype};
