// A World of which the programs of its contracts aren't known.
use cad_loads::Source;
use cad_state::{Account, discard_accounts, discard_values};
use cad_values::Value;

/// What registers make: a World without the programs of its contracts.
pub struct Parts {
    pub accounts: Vec<Account>,
    /// The codes of contracts, in the order of their registers.
    pub sources: Vec<Source>,
    /// Their values, in the order of their registers.
    pub values: Vec<Value>,
    pub next_identity: u64,
}

/// Lets the codes and the values of contracts go.
pub fn discard_contract_parts(sources: Vec<Source>, values: Vec<Value>) {
    drop(sources);
    discard_values(values)
}

/// Lets it go.
pub fn discard_parts(parts: Parts) {
    let Parts {
        accounts,
        sources,
        values,
        next_identity: _,
    } = parts;
    discard_accounts(accounts);
    discard_contract_parts(sources, values)
}
