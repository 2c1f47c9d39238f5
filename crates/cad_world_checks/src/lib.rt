//! What is tested of Worlds between commands: whether they are sound, and whether their values have bytes of their own.
#![tactic(auto)]

mod bytes;
mod contracts;
mod identities;
mod of_values;
mod part_bytes;
mod part_soundness;
mod part_summary;
mod sound;

pub use identities::live_identities;
pub use part_bytes::part_has_bytes;
pub use part_soundness::stays_sound;
pub use part_summary::{PartSummary, part_identities, summary_of};
pub use sound::is_sound;
