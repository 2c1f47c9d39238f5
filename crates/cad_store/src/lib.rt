//! Registers that survive on three tapes.
#![tactic(auto)]

mod commit;
mod judging;
mod laws;
mod opening;
mod place;
mod sizes;
mod stops;
mod store;

pub use judging::Judge;
pub use laws::{one_map_a_disk, quiet_images};
pub use opening::open;
pub use stops::{OpenStop, ReadyStop};
pub use store::{Commit, Store};
