//! What the accounts of a run hold: found by addresses, identifiers and numbers, and changed there. Where the run doesn't have an
//! account, memory fails.
#![tactic(auto)]

mod changes;
mod controllers;
mod find;
mod home_search;
mod names;
mod publications;
mod stored;

pub use controllers::{controller, issue, next_controller, remove_controller, retarget, set_tag};
pub use find::{is_account, know};
pub use home_search::home;
pub use publications::{publish, published, unpublish};
pub use stored::{name_stored, store, stored_slot, take_stored};
