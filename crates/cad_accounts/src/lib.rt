//! Registers: bytes by key, in memory and as records fold to them.
#![tactic(auto)]

mod block;
mod folding;
mod registers;
mod row;
mod sifting;

pub use block::Block;
pub use folding::fold_records;
pub use registers::{MapRegisters, Registers};
pub use row::{Changes, Row};
