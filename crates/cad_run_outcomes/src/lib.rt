//! What runs of transactions and deployments come to: receipts, with events as JSON, and the World that is left.
#![tactic(auto)]

mod ended;
mod events;
mod left;
mod outcome;

pub use events::push_item;
pub use outcome::{Receipt, RunOutcome, TransactionOutcome};

// For the crates above alone: what a run comes to that ended in a state, or stopped there.
pub use ended::{outcome_of_run, whole_outcome};
