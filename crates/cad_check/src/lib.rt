//! Whether a program is accepted, and else where it is refused first.
#![tactic(auto)]

mod checking;
mod front;
mod laws;
mod phases;
mod refusals;
mod text;

pub use checking::check;
pub use front::{Front, FrontEnd};
pub use laws::{no_stop_of_accepted, one_acceptance, one_stop};
pub use text::{check_text, first_stop};
