// The state in which a program begins.
ghost use Rattle.std.specs.Prelude.{◌≡◌, List, map};
ghost use Rattle.cad_state.specs.Views.{accounts_over, contract_of, program_of, state_over};
ghost use Rattle.cad_world.specs.Begin.{begun};
ghost use Rattle.cad_world.specs.State.{Account, World};

use cad_declarations::Checked;
use cad_rows::Place;
use cad_state::{Accounts, Call, Contract, Hints, RunState};
use cad_syntax::{Numbers, TypeIds};
use cad_values::Value;
use std::alloc::Global;
use std::rc::Rc;

/// The state in which a program begins, over these accounts (those that it doesn't know stay as they are) and beside these contracts,
/// with so many units. It takes no memory.
pub fn begin(
    alloc: Global,
    checked: Rc<Checked>,
    accounts: Accounts,
    contracts: Vec<Contract>,
    next_identity: u64,
    units: u64,
) -> RunState
    ensures { (base : List Account) (w : World) → w.accounts ≡ accounts_over base accounts → w.contracts ≡ map contract_of contracts.items → w.next_identity ≡ next_identity → state_over base result ≡ begun (program_of checked.value) units w }
{
    RunState {
        calls: Vec::<Call>::new(alloc),
        making: Vec::<Place>::new(alloc),
        accounts,
        contracts,
        checked,
        events: Vec::<Value>::new(alloc),
        made: Numbers::new(alloc),
        destroyed: Numbers::new(alloc),
        added: TypeIds::new(alloc),
        next_label: 0,
        next_identity,
        units,
        depth: 0,
        hints: Hints::new(alloc),
        asked: None,
        wanted: None,
    }
}
