//! The state of a run, and the nodes that are found in it by their labels.
#![tactic(auto)]

mod discard;
mod hints;
mod known;
mod locate;
mod state;
mod units;
mod variables;

pub use discard::{
    discard_account, discard_accounts, discard_call, discard_calls, discard_contract,
    discard_contracts, discard_known, discard_run_accounts, discard_shared, discard_state,
    discard_unknown, discard_value, discard_values, unknown_of,
};
pub use hints::{Hints, Root, Way};
pub use known::{known_account, known_place};
pub use state::{
    Account, Accounts, Call, Contract, Controller, Known, Publication, Question, RunState, Unknown,
};
