// A contract is installed: its initializer runs, and then it is the account's.
ghost use Rattle.std.specs.Prelude.{◌≡◌, option_map};
ghost use Rattle.std.specs.Option.{is_some};
ghost use Rattle.cad_access.specs.RunContracts.{run_of};
ghost use Rattle.cad_evaluation.specs.Adding as spec;
ghost use Rattle.cad_evaluation.specs.Making.{initializer_of};
ghost use Rattle.cad_installations.specs.Code.Steps as code;
ghost use Rattle.cad_outcomes.specs.Outcomes.{no_value};
ghost use Rattle.cad_rows.specs.Views.{pure_row, pure_tree};
ghost use Rattle.cad_state.specs.Views.{FindsAndCarriesOut, contract_of};
ghost use Rattle.cad_world.specs.Declared.{bodies_of as bodies_in};

use crate::beginning::begin_contract;
use crate::finishing::finish_contract;
use crate::initializers::Initializers;
use cad_access::bodies_of;
use cad_outcomes::Stop;
use cad_rows::{Place, Tree, discard_row, discard_tree};
use cad_state::{Contract, RunState, discard_contract};
use cad_syntax::TypeId;

/// Whether a type has a written initializer.
fn has_initializer(state: &RunState, id: &TypeId) -> bool
    ensures { result ≡ is_some (initializer_of (bodies_in (run_of state.now) id.now)) }
{
    match bodies_of(state, id) {
        Some(bodies) => bodies.initializer.is_some(),
        None => false,
    }
}

/// The written initializer of a contract runs, and gives nothing.
fn run_initializer<I: Initializers>(
    by: &I,
    id: &TypeId,
    label: u64,
    arguments: Vec<Place>,
    state: &mut RunState,
) -> Result<(), Stop>
    requires { I.is_ready by.now }
    ensures { FindsAndCarriesOut no_value (code.initializer_run (I.calls by.now) id.now label (pure_row arguments.items)) state.old state.new result }
{
    match by.initialize(state, id, label, arguments) {
        Ok(tree) => {
            discard_tree(tree);
            Ok(())
        }
        Err(stop) => Err(stop),
    }
}

/// The initializer of a contract runs, where one is written.
fn initialize_contract<I: Initializers>(
    by: &I,
    id: &TypeId,
    label: u64,
    arguments: Vec<Place>,
    state: &mut RunState,
) -> Result<(), Stop>
    requires { I.is_ready by.now }
    ensures { FindsAndCarriesOut no_value (spec.initialize_contract (I.calls by.now) id.now (pure_row arguments.items) label) state.old state.new result }
{
    if has_initializer(state, id) {
        return run_initializer(by, id, label, arguments, state);
    }
    discard_row(arguments);
    Ok(())
}

/// A contract begins, and its initializer runs.
fn begin_and_run<I: Initializers>(
    by: &I,
    id: &TypeId,
    contract: Contract,
    arguments: Vec<Place>,
    state: &mut RunState,
) -> Result<(), Stop>
    requires { I.is_ready by.now }
    ensures { id.now ≡ contract.id → FindsAndCarriesOut no_value (code.begun_and_run (I.calls by.now) (contract_of contract) (pure_row arguments.items)) state.old state.new result }
{
    match begin_contract(state, contract) {
        Ok(label) => initialize_contract(by, id, label, arguments, state),
        Err(stop) => {
            discard_row(arguments);
            Err(stop)
        }
    }
}

/// The same, and the contract is the account's.
fn install_as<I: Initializers>(
    by: &I,
    id: &TypeId,
    contract: Contract,
    arguments: Vec<Place>,
    state: &mut RunState,
) -> Result<Tree, Stop>
    requires { I.is_ready by.now }
    ensures { id.now ≡ contract.id → FindsAndCarriesOut pure_tree (spec.install (I.calls by.now) (contract_of contract) (pure_row arguments.items)) state.old state.new result }
{
    match begin_and_run(by, id, contract, arguments, state) {
        Ok(()) => finish_contract(state, id),
        Err(stop) => Err(stop),
    }
}

/// A contract is installed on arguments that have come to the parameters of its initializer: that runs, and then the contract is
/// the account's. Errors are those of the initializer; IllTyped where it leaves a field unset. The value that the contract had is
/// let go.
pub fn install<I: Initializers>(
    by: &I,
    contract: Contract,
    arguments: Vec<Place>,
    state: &mut RunState,
) -> Result<Tree, Stop>
    requires { I.is_ready by.now }
    ensures { FindsAndCarriesOut pure_tree (spec.install (I.calls by.now) (contract_of contract) (pure_row arguments.items)) state.old state.new result }
{
    match contract.id.clone() {
        Ok(id) => install_as(by, &id, contract, arguments, state),
        Err(_) => {
            discard_contract(contract);
            discard_row(arguments);
            Err(Stop::Memory)
        }
    }
}
