//! What a member is used on: what that is settled to and what it is now, casts of it, and whether a member may be used.
#![tactic(auto)]

mod casts;
mod looks;
mod receivers;
mod settle;
mod stored;
mod trees;
mod uses;

pub use casts::cast;
pub use looks::look;
pub use receivers::{Receiver, Settled, Spot, discard_receiver};
pub use settle::{settle_receiver, settle_reference};
pub use uses::{aim, check_callable, check_use, uuid};

// For the crates above alone: parts of trees, and rights that are let go.
pub use receivers::discard_rights;
pub use trees::{optionals, shape};
