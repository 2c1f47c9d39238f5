//! Capabilities: published in accounts, issued and led by controllers, and what they lend.
#![tactic(auto)]

mod arguments;
mod controllers;
mod getting;
mod issuing;
mod lending;
mod publishing;
mod trees;
mod values;

pub use controllers::{
    ControllerId, controller_in, delete, get_controller, read_borrow_type, read_controller_number,
    read_tag, read_target, retarget, set_tag,
};
pub use getting::{borrow_published, exists, get};
pub use issuing::issue;
pub use lending::{lend, lends};
pub use publishing::{publish, unpublish};
pub use values::{capability_of, read_home, read_number};
