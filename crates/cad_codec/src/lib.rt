//! Values and types as bytes, both ways.
#![tactic(auto)]

mod distinct;
mod form;
mod laws;
mod reading;
mod reading_types;
mod writing;
mod writing_types;

pub use cad_wire::DecodeError;
pub use laws::one_spelling;
pub use reading::{decode, decode_type};
pub use writing::{encode, encode_type};
