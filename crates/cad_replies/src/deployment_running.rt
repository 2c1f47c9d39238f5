// The run of a deployment over a World.
ghost use Rattle.std.specs.Prelude.{◌≡◌, ◌≢◌, ◌≤◌, IfOk};
ghost use Rattle.cad_replies.specs.Deployments as spec;
ghost use Rattle.cad_command_runs.specs.Passed.{new_contract};
ghost use Rattle.cad_rows.specs.Views.{pure_row};
ghost use Rattle.cad_runs.specs.Commands.{failed};
ghost use Rattle.cad_state.specs.Views.{contract_of, program_of};
ghost use Rattle.cad_run_outcomes.specs.Outcomes.{Outcome, stays};
ghost use Rattle.cad_run_outcomes.specs.Views.{Tells};
ghost use Rattle.cad_world.specs.Begin.{IsKept};
ghost use Rattle.cad_worlds.specs.Standing.{world_of};

use cad_command_runs::{FrontEnd, new_contract, run_deploy};
use cad_declarations::Checked;
use cad_discards::hold;
use cad_rows::{Place, discard_row};
use cad_run_outcomes::{TransactionOutcome, outcome_of_run, whole_outcome};
use cad_run_worlds::{Unfinished, begin_over, of_world};
use cad_state::{Contract, discard_contract};
use cad_syntax::{Bytes, TypeId};
use cad_worlds::{World, discard_world};
use std::alloc::{AllocError, Global};
use std::rc::Rc;

/// What the installation of a contract comes to over a World, on a row of arguments.
fn run_over<E: FrontEnd>(
    alloc: Global,
    end: &E,
    checked: Rc<Checked>,
    contract: Contract,
    world: World,
    row: Vec<Place>,
    limit: u64,
) -> Result<TransactionOutcome, Unfinished>
    requires { limit ≤ 1000000 }
    ensures { IsKept (world_of world) → IfOk result (λ it. (o : Outcome) × spec.Ran (E.front end.now) (world_of world) (program_of checked.value) (contract_of contract) (pure_row row.items) limit o × (o ≢ stays (failed 0)) × Tells it o) }
{
    let all = of_world(world);
    let mut state = begin_over(alloc, checked, all, limit);
    let run = run_deploy(2 * limit + 2, end, contract, row, &mut state);
    match outcome_of_run(alloc, state, run) {
        Ok(outcome) => whole_outcome(outcome),
        Err(why) => Err(why),
    }
}

/// What the deployment of a contract comes to over a World, on a row of arguments.
fn outcome_of_contract<E: FrontEnd>(
    alloc: Global,
    end: &E,
    checked: &Rc<Checked>,
    contract: Contract,
    world: World,
    row: Vec<Place>,
    limit: u64,
) -> Result<TransactionOutcome, Unfinished>
    requires units { limit ≤ 1000000 }
    requires kept { IsKept (world_of world) }
    ensures { IfOk result (λ it. (o : Outcome) × spec.Ran (E.front end.now) (world_of world) (program_of checked.now.value) (contract_of contract) (pure_row row.items) limit o × (o ≢ stays (failed 0)) × Tells it o) }
{
    match hold(checked) {
        Ok(shared) => run_over(alloc, end, shared, contract, world, row, limit),
        Err(_) => {
            discard_contract(contract);
            discard_row(row);
            discard_world(world);
            Err(Unfinished::Memory)
        }
    }
}

/// A contract of a program that others may hold, before its initializer runs.
fn shared_contract(
    alloc: Global,
    checked: &Rc<Checked>,
    id: TypeId,
    code: Bytes,
) -> Result<Contract, AllocError>
    ensures { IfOk result (λ c. contract_of c ≡ new_contract id code (program_of checked.now.value)) }
{
    let shared = hold(checked)?;
    new_contract(alloc, id, code, shared)
}

/// What the deployment of a code comes to over a World, on a row of arguments.
pub(crate) fn outcome_of_row<E: FrontEnd>(
    alloc: Global,
    end: &E,
    checked: &Rc<Checked>,
    id: TypeId,
    code: Bytes,
    world: World,
    row: Vec<Place>,
    limit: u64,
) -> Result<TransactionOutcome, Unfinished>
    requires units { limit ≤ 1000000 }
    requires kept { IsKept (world_of world) }
    ensures { IfOk result (λ it. (o : Outcome) × spec.Ran (E.front end.now) (world_of world) (program_of checked.now.value) (new_contract id code (program_of checked.now.value)) (pure_row row.items) limit o × (o ≢ stays (failed 0)) × Tells it o) }
{
    match shared_contract(alloc, checked, id, code) {
        Ok(contract) => outcome_of_contract(alloc, end, checked, contract, world, row, limit),
        Err(_) => {
            discard_row(row);
            discard_world(world);
            Err(Unfinished::Memory)
        }
    }
}
