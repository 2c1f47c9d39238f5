// A World as it stands between commands.
use cad_state::{Account, Contract, discard_accounts, discard_contracts};

/// A World.
pub struct World {
    /// By their addresses, from 1 on.
    pub accounts: Vec<Account>,
    /// By their addresses, and at one address by their names. No initializer runs.
    pub contracts: Vec<Contract>,
    /// The identity of the next resource.
    pub next_identity: u64,
}

/// Lets a World go.
pub fn discard_world(world: World) {
    let World {
        accounts,
        contracts,
        next_identity: _,
    } = world;
    discard_accounts(accounts);
    discard_contracts(contracts)
}
