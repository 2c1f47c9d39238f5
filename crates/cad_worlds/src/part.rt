// A World of which some accounts are known.
use cad_state::{Contract, Known, discard_contracts, discard_known};

/// A World of which some accounts are known.
pub struct WorldPart {
    /// How many accounts there are.
    pub count: u64,
    /// Those that are known.
    pub known: Vec<Known>,
    /// By their addresses, and at one address by their names. No initializer runs.
    pub contracts: Vec<Contract>,
    /// The identity of the next resource.
    pub next_identity: u64,
}

/// Lets what is known of a World go.
pub fn discard_part(part: WorldPart) {
    let WorldPart {
        count: _,
        known,
        contracts,
        next_identity: _,
    } = part;
    discard_known(known);
    discard_contracts(contracts)
}
