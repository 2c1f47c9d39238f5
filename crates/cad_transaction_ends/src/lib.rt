//! The two ends of a transaction, where none of its code runs: its signers, the judgement of what stands in accounts, and what it
//! leaves there.
#![tactic(auto)]

mod left;
mod signers;
mod sorting;
mod storable;
mod values;

pub use left::{Left, discard_left, left_accounts};
pub use signers::with_signers;
pub use storable::judge_stored;
