//! Texts by their characters: length, order, parts and hexadecimal forms.
#![tactic(auto)]

mod error;
mod hexadecimal;
mod normal;
mod parts;

pub use error::TextError;
pub use hexadecimal::{decode_hex, encode_hex};
pub use normal::{compare, equal};
pub use parts::{concat, length, slice};
