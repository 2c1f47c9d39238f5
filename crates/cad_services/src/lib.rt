//! Built-in members of accounts, storage, capabilities and controllers.
#![tactic(auto)]

mod accounts;
mod capabilities;
mod controllers;
mod groups;
mod services;
mod spots;
mod storage;
mod types;
mod values;

pub use accounts::contracts_account;
pub use services::service;
