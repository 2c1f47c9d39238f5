//! Nodes of the state of a run that are changed where they are found by their labels.
#![tactic(auto)]

mod changes;
mod edit;
mod exchange;

pub use changes::{
    add_in, add_key, clear_in, cut_in, drop_key, exchange_in, find, join_in, name_in, put_in,
    wedge_in,
};
