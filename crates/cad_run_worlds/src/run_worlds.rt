// Worlds over which programs run.
ghost use Rattle.std.specs.Prelude.{◌≡◌, List};
ghost use Rattle.cad_run_worlds.specs.Worlds.{run_world};
ghost use Rattle.cad_state.specs.Views.{program_of, state_over};
ghost use Rattle.cad_world.specs.Begin.{begun};
ghost use Rattle.cad_world.specs.State.{Account};
ghost use Rattle.cad_worlds.specs.Parts.{world_over};
ghost use Rattle.cad_worlds.specs.Standing.{world_of};

use cad_declarations::Checked;
use cad_run_starts::begin;
use cad_state::{Accounts, Contract, RunState, discard_contracts, discard_run_accounts};
use cad_worlds::{World, WorldPart};
use std::alloc::Global;
use std::rc::Rc;

/// A World over which a program runs: all of it, or what is known of it.
pub struct RunWorld {
    pub accounts: Accounts,
    /// By their addresses, and at one address by their names. No initializer runs.
    pub contracts: Vec<Contract>,
    /// The identity of the next resource.
    pub next_identity: u64,
}

/// All of a World.
#[tactic(auto, unfolding(cad_state::specs::Views::accounts_over))]
pub fn of_world(world: World) -> RunWorld
    ensures { (base : List Account) → run_world base result ≡ world_of world }
{
    let World {
        accounts,
        contracts,
        next_identity,
    } = world;
    RunWorld {
        accounts: Accounts::All(accounts),
        contracts,
        next_identity,
    }
}

/// What is known of a World.
#[tactic(auto, unfolding(cad_state::specs::Views::accounts_over))]
pub fn of_part(part: WorldPart) -> RunWorld
    ensures { (base : List Account) → run_world base result ≡ world_over base part }
{
    let WorldPart {
        count,
        known,
        contracts,
        next_identity,
    } = part;
    RunWorld {
        accounts: Accounts::Part { count, known },
        contracts,
        next_identity,
    }
}

/// The state in which a program begins over a World, with so many units. It takes no memory.
pub fn begin_over(alloc: Global, checked: Rc<Checked>, world: RunWorld, units: u64) -> RunState
    ensures { (base : List Account) → state_over base result ≡ begun (program_of checked.value) units (run_world base world) }
{
    let RunWorld {
        accounts,
        contracts,
        next_identity,
    } = world;
    begin(alloc, checked, accounts, contracts, next_identity, units)
}

/// Lets go of it.
pub fn discard_run_world(world: RunWorld) {
    let RunWorld {
        accounts,
        contracts,
        next_identity: _,
    } = world;
    discard_run_accounts(accounts);
    discard_contracts(contracts)
}
