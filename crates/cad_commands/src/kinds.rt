// The kinds of commands.
use cad_syntax::{Address, Text};
use serde_json::Value;

/// What a line asks for. A limit is the units that a run may take, from 1 to 1,000,000.
#[derive(Drop)]
pub enum Command {
    Account,
    Deploy {
        address: Address,
        name: Text,
        code: Text,
        arguments: Vec<Value>,
        limit: u64,
    },
    Transaction {
        code: Text,
        arguments: Vec<Value>,
        signers: Vec<Address>,
        limit: u64,
    },
    Script {
        code: Text,
        arguments: Vec<Value>,
        limit: u64,
    },
    /// Nothing that can run: the number of the refusal.
    Refused(u16),
}
