// A contract is deployed.
ghost use Rattle.cad_command_runs.specs.Code.Deployments as parts;
ghost use Rattle.cad_evaluation.specs.Evaluation.{calls_to};
ghost use Rattle.cad_outcomes.specs.Outcomes.{no_value};
ghost use Rattle.cad_rows.specs.Views.{pure_row, pure_tree};
ghost use Rattle.cad_runs.specs.Run as spec;
ghost use Rattle.cad_state.specs.Views.{FindsAndCarriesOut, contract_of};
ghost use Rattle.cad_transaction_ends.specs.OverStorable.{CarriesOutOverStorable, FindsAndCarriesOutOverStorable};

use crate::calling::call;
use cad_calls::{FrontEnd, Level};
use cad_installations::{Initializers, install};
use cad_making::let_go;
use cad_outcomes::Stop;
use cad_rows::{Place, Tree, discard_row};
use cad_state::{Contract, RunState, discard_contract};
use cad_transaction_ends::judge_stored;

/// The unit of an entry, and a contract is installed.
fn install_entry<I: Initializers>(
    by: &I,
    contract: Contract,
    arguments: Vec<Place>,
    state: &mut RunState,
) -> Result<Tree, Stop>
    requires { I.is_ready by.now }
    ensures { FindsAndCarriesOut pure_tree (parts.entered (I.calls by.now) (contract_of contract) (pure_row arguments.items)) state.old state.new result }
{
    match state.tick() {
        Ok(()) => install(by, contract, arguments, state),
        Err(stop) => {
            discard_contract(contract);
            discard_row(arguments);
            Err(stop)
        }
    }
}

/// What an installation gave goes, and what stands in accounts is judged.
fn end_deploy(tree: Tree, state: &mut RunState) -> Result<(), Stop>
    ensures { CarriesOutOverStorable no_value (parts.deploy_ended (pure_tree tree)) state.old state.new result }
{
    match let_go(tree) {
        Ok(()) => judge_stored(state),
        Err(stop) => Err(stop),
    }
}

/// A contract is deployed by what runs its initializer.
fn deploy<I: Initializers>(
    by: &I,
    contract: Contract,
    arguments: Vec<Place>,
    state: &mut RunState,
) -> Result<(), Stop>
    requires { I.is_ready by.now }
    ensures { FindsAndCarriesOutOverStorable no_value (spec.run_deploy (I.calls by.now) (contract_of contract) (pure_row arguments.items)) state.old state.new result }
{
    match install_entry(by, contract, arguments, state) {
        Ok(tree) => end_deploy(tree, state),
        Err(stop) => Err(stop),
    }
}

/// A contract is deployed on the arguments of its initializer, which is an entry also where none is written: a unit, its run, and
/// then what stands in accounts is judged. Errors are those of the initializer, 133 where a value in an account can't be stored, and
/// 123 where one is too high. No memory of arguments of which a node has a label, and where an account is needed that the run
/// doesn't have.
pub fn run_deploy<E: FrontEnd>(
    fuel: u64,
    end: &E,
    contract: Contract,
    arguments: Vec<Place>,
    state: &mut RunState,
) -> Result<(), Stop>
    ensures { FindsAndCarriesOutOverStorable no_value (spec.run_deploy (calls_to (E.front end.now) fuel) (contract_of contract) (pure_row arguments.items)) state.old state.new result }
{
    let level = Level {
        fuel,
        end,
        run: call,
    };
    deploy(&level, contract, arguments, state)
}
