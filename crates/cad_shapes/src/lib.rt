//! The shapes of declared types, and which types are well formed.
#![tactic(auto)]

mod shape;
mod shapes;
mod well_formed;

pub use shape::{Shape, ShapeField, all_names_differ, are_closed};
pub use shapes::DeclaredShapes;
pub use well_formed::{is_key_type, is_lent_type, is_reference_type, is_type};
