//! Worlds between commands, as registers.
#![tactic(auto)]

mod kept;
mod keys;
mod known_changes;
mod laws;
mod merging;
mod part;
mod row_list;
mod rows;
mod selection;
mod spans;
mod writing;

pub use kept::{World, discard_world};
pub use known_changes::part_changes;
pub use laws::{one_world, registers_rise, rows_are_registers};
pub use merging::changes;
pub use part::{WorldPart, discard_part};
pub use row_list::RowList;
pub use writing::{contract_registers, head_registers, registers_of};

// For the crates above alone: the registers of some accounts.
pub use selection::part_rows;
