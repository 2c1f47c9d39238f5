//! The paths of a body, and what follows from them: moves, initialisation, purity and definite return. Definitions in specs/,
//! and laws.
#![tactic(auto)]

pub mod laws;
mod letter;

pub use letter::{BodyPart, FieldRule, Letter, MoveKind, NumberedField, Position, Way};
