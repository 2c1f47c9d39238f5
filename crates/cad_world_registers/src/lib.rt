//! What registers say of a World, told without the programs of its contracts.
#![tactic(auto)]

mod comparing;
mod counting;
mod fields;
mod listing;
mod making;
mod part_draft;
mod parts;
mod rising;
mod saying;
mod selection;

// For the crates above alone: what registers make, and whether they stand for it, by the definitions that the code follows.
pub use comparing::stand_for;
pub use making::make;
pub use part_draft::{PartDraft, make_part};
pub use parts::{Parts, discard_contract_parts, discard_parts};
