//! Exact arithmetic and decimal texts of the numbers of every kind.
#![tactic(auto)]

mod arithmetic;
mod bitwise;
mod decimal;
mod error;
mod exact;
mod fit;
mod kinds;
mod saturation;

pub use arithmetic::{add, compare, convert, div, mul, neg, rem, sub};
pub use bitwise::{BitOp, bits};
pub use decimal::{read_decimal, write_decimal};
pub use error::NumError;
pub use fit::{greatest, least};
pub use saturation::{Op, saturate};
