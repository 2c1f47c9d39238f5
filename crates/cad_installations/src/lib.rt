//! Contracts that are added to accounts: what a front end is asked, the arguments of initializers, and the installation.
#![tactic(auto)]

mod adding;
mod beginning;
mod finishing;
mod fitting;
mod front_end;
mod initializers;
mod installing;
mod kinds;

pub use adding::{add, is_contract_of, is_taken, new_contract};
pub use fitting::initializer_parameters;
pub use front_end::FrontEnd;
pub use initializers::Initializers;
pub use installing::install;
