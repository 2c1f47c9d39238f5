//! What checked scripts, transactions and deployments come to over a World.
#![tactic(auto)]

mod deployment;
mod deployment_arguments;
mod deployment_running;
mod laws;
mod main_function;
mod script;
mod script_running;
mod transaction;
mod transaction_running;

pub use deployment::deploy;
pub use laws::{
    answers_extend, deployments_extend, one_answer, one_deployment, one_outcome, outcomes_extend,
};
pub use script::answer_over;
pub use transaction::transact_over;

// What the crates above use of the ones below.
pub use cad_command_runs::is_taken;
