//! Where a value stands in the state of a run: what is read there, and named.
#![tactic(auto)]

mod contract_places;
mod location;
mod lookup;
mod naming;
mod places;
mod reading;

pub use location::{Location, discard_location};
pub use naming::name;
pub use reading::{Seen, read, settle};

// For the crates above alone: the place at a location as it is now, its error where it is empty, and which place of a row it is.
pub use lookup::{SeenSlot, element_slot, entry_slot, part_slot, seen, slot_at};
pub use places::{element_place, entry_place, place_of};
pub use reading::{empty_stop, locate};
