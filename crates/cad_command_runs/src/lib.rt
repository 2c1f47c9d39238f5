//! The runs of scripts, transactions and deployments.
#![tactic(auto)]

mod calling;
mod deploying;
mod entries;
mod script;
mod stages;

pub use deploying::run_deploy;
pub use script::run_script;
pub use stages::run_transaction;

// What the crates above use of the ones below.
pub use cad_installations::{
    FrontEnd, initializer_parameters, is_contract_of, is_taken, new_contract,
};
