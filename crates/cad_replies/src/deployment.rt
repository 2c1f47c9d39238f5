// What a deployment comes to.
ghost use Rattle.std.specs.Prelude.{◌≡◌, ◌≢◌, ◌≤◌, IfOk, Ok, map, true};
ghost use Rattle.serde_json.specs.View.{view};
ghost use Rattle.cad_replies.specs.Deployments.{Comes};
ghost use Rattle.cad_command_runs.specs.Passed as deploys;
ghost use Rattle.cad_runs.specs.Commands.{failed};
ghost use Rattle.cad_state.specs.Views.{program_of};
ghost use Rattle.cad_run_outcomes.specs.Outcomes.{Outcome, stays};
ghost use Rattle.cad_run_outcomes.specs.Views.{Tells};
ghost use Rattle.cad_world.specs.Begin.{IsKept};
ghost use Rattle.cad_worlds.specs.Standing.{world_of};

use crate::deployment_arguments::initializer_row;
use crate::deployment_running::outcome_of_row;
use cad_command_runs::{FrontEnd, is_contract_of};
use cad_declarations::Checked;
use cad_discards::discard_checked;
use cad_run_outcomes::TransactionOutcome;
use cad_run_worlds::{ScriptReply, Unfinished};
use cad_state::discard_shared;
use cad_syntax::{Bytes, TypeId};
use cad_worlds::{World, discard_world};
use serde_json::Value as Json;
use std::alloc::Global;
use std::rc::Rc;

/// An error by its number, without a run. The World is let go.
fn fail(world: World, number: u16) -> Result<TransactionOutcome, Unfinished>
    ensures { result ≡ Ok (TransactionOutcome.Stays (ScriptReply.Failed number)) }
{
    discard_world(world);
    Ok(TransactionOutcome::Stays(ScriptReply::Failed(number)))
}

/// What the deployment of the contract of this name comes to: 125 where the arguments aren't those of its initializer, else what its run
/// comes to.
fn outcome_of_arguments<E: FrontEnd>(
    alloc: Global,
    end: &E,
    checked: &Rc<Checked>,
    id: TypeId,
    code: Bytes,
    world: World,
    arguments: &[Json],
    limit: u64,
) -> Result<TransactionOutcome, Unfinished>
    requires units { limit ≤ 1000000 }
    requires kept { IsKept (world_of world) }
    requires named { deploys.is_contract_of id (program_of checked.now.value) ≡ true }
    ensures { IfOk result (λ it. (o : Outcome) × Comes (E.front end.now) (world_of world) (program_of checked.now.value) id code (map view arguments.now) limit o × (o ≢ stays (failed 0)) × Tells it o) }
{
    match initializer_row(alloc, checked, &id, arguments) {
        Ok(Some(row)) => outcome_of_row(alloc, end, checked, id, code, world, row, limit),
        Ok(None) => fail(world, 125),
        Err(_) => {
            discard_world(world);
            Err(Unfinished::Memory)
        }
    }
}

/// What the deployment of a program that others may hold comes to.
fn outcome_of_shared<E: FrontEnd>(
    alloc: Global,
    end: &E,
    checked: &Rc<Checked>,
    id: TypeId,
    code: Bytes,
    world: World,
    arguments: &[Json],
    limit: u64,
) -> Result<TransactionOutcome, Unfinished>
    requires units { limit ≤ 1000000 }
    requires kept { IsKept (world_of world) }
    ensures { IfOk result (λ it. (o : Outcome) × Comes (E.front end.now) (world_of world) (program_of checked.now.value) id code (map view arguments.now) limit o × (o ≢ stays (failed 0)) × Tells it o) }
{
    if !is_contract_of(&id, checked) {
        return fail(world, 120);
    }
    outcome_of_arguments(alloc, end, checked, id, code, world, arguments, limit)
}

/// What a program that a code was accepted as comes to as the contract of an address and name over a World, with JSON as its arguments
/// and so many units, under a front end that is asked of the codes that its initializer adds. Failed 120 where it isn't one contract of
/// that name, 125 where the arguments are more or fewer than the parameters of its initializer or aren't of their types; else the number
/// of its error, that the units were too few, or its receipt and the World that it leaves. Unknown where the run asked of a code of which
/// the front end says nothing.
pub fn deploy<E: FrontEnd>(
    alloc: Global,
    end: &E,
    checked: Checked,
    world: World,
    id: TypeId,
    code: Bytes,
    arguments: &[Json],
    limit: u64,
) -> Result<TransactionOutcome, Unfinished>
    requires units { limit ≤ 1000000 }
    requires kept { IsKept (world_of world) }
    ensures { IfOk result (λ it. (o : Outcome) × Comes (E.front end.now) (world_of world) (program_of checked) id code (map view arguments.now) limit o × (o ≢ stays (failed 0)) × Tells it o) }
{
    match Rc::new(alloc, checked) {
        Ok(shared) => {
            let outcome = outcome_of_shared(alloc, end, &shared, id, code, world, arguments, limit);
            discard_shared(shared);
            outcome
        }
        Err(refused) => {
            discard_checked(refused.value);
            discard_world(world);
            Err(Unfinished::Memory)
        }
    }
}
