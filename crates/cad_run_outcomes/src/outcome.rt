// What transactions come to.
use cad_run_worlds::{RunWorld, ScriptReply};
use cad_syntax::{Numbers, Text};
use cad_worlds::World;

/// What is told of a transaction that took effect.
#[derive(Debug, Drop)]
pub struct Receipt {
    /// The identities that it made, in order.
    pub made: Numbers,
    /// The identities that it destroyed, in order.
    pub destroyed: Numbers,
    /// Its events: the compact JSON of a list.
    pub events: Text,
}

/// What a run over a whole World comes to: a reply, or a receipt and the World that it leaves.
pub enum TransactionOutcome {
    Stays(ScriptReply),
    Leads(Receipt, World),
}

/// What a run comes to over a World of which some accounts may not be known: a reply, or a receipt and the World that it leaves, of
/// which the same may not be known.
pub enum RunOutcome {
    Stays(ScriptReply),
    Leads(Receipt, RunWorld),
}
