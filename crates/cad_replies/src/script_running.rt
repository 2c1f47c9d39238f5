// The run of a script's `main`, and what is told of it.
ghost use Rattle.std.specs.Prelude.{◌≡◌, ◌≢◌, ◌≤◌, IfOk, Ok, Some, map};
ghost use Rattle.serde_json.specs.Data.{Data};
ghost use Rattle.cad_rows.specs.Views.{pure_row};
ghost use Rattle.cad_runs.specs.Commands.{Reply, failed};
ghost use Rattle.cad_run_worlds.specs.Replies.{told_value};
ghost use Rattle.cad_replies.specs.Code.{told_of};
ghost use Rattle.cad_replies.specs.Scripts as spec;
ghost use Rattle.cad_run_worlds.specs.Views.{Tells};
ghost use Rattle.cad_run_worlds.specs.Worlds.{run_world};
ghost use Rattle.cad_state.specs.Views.{contract_of, program_of};
ghost use Rattle.cad_types.specs.Views.{declarations as types_of};
ghost use Rattle.cad_values.specs.Shapes.{declarations};
ghost use Rattle.cad_values.specs.Values.{pure_value};
ghost use Rattle.cad_world.specs.Begin.{IsKept};
ghost use Rattle.cad_world.specs.Shapes.{shapes};
ghost use Rattle.cad_world.specs.State.{World};

use cad_command_runs::{FrontEnd, run_script};
use cad_contract_shapes::sorts_of_contracts;
use cad_declarations::Checked;
use cad_discards::hold;
use cad_json_export::export;
use cad_outcomes::Stop;
use cad_rows::{Place, discard_row};
use cad_run_worlds::{
    RunWorld, ScriptReply, Unfinished, begin_over, discard_run_world, reply_to_stop, why_unfinished,
};
use cad_state::{Contract, RunState, discard_state, discard_value};
use cad_types::DeclaredTypes;
use cad_values::Value;
use std::alloc::{AllocError, Global};
use std::rc::Rc;

/// A value as a reply: its JSON, or 134 where a part of it has no form.
fn reply_by(alloc: Global, types: &DeclaredTypes, value: Value) -> Result<ScriptReply, AllocError>
    ensures { IfOk result (λ it. Tells it (told_value (types_of types.now) (pure_value value))) }
{
    let text = export(alloc, types, &value);
    discard_value(value);
    match text? {
        Some(text) => Ok(ScriptReply::Result(text)),
        None => Ok(ScriptReply::Failed(134)),
    }
}

/// A value as a reply, by what contracts declare.
fn reply_to_value(
    alloc: Global,
    contracts: &[Contract],
    value: Value,
) -> Result<ScriptReply, AllocError>
    ensures { IfOk result (λ it. Tells it (told_value (declarations (shapes (map contract_of contracts.now))) (pure_value value))) }
{
    match sorts_of_contracts(alloc, contracts) {
        Ok(types) => reply_by(alloc, &types, value),
        Err(error) => {
            discard_value(value);
            Err(error)
        }
    }
}

/// What a run came to as a reply, by what contracts declare.
fn reply_to(
    alloc: Global,
    contracts: &[Contract],
    outcome: Result<Value, Stop>,
) -> Result<ScriptReply, AllocError>
    ensures { IfOk result (λ it. (reply : Reply Data) × (told_of (declarations (shapes (map contract_of contracts.now))) outcome ≡ Some reply) × Tells it reply) }
{
    match outcome {
        Ok(value) => reply_to_value(alloc, contracts, value),
        Err(stop) => reply_to_stop(stop),
    }
}

/// A reply to a run that ended in a state, which is let go; without one why there is none.
fn reply_over(
    state: RunState,
    reply: Result<ScriptReply, AllocError>,
) -> Result<ScriptReply, Unfinished>
    ensures { IfOk result (λ it. reply ≡ Ok it) }
{
    match reply {
        Ok(told) => {
            discard_state(state);
            Ok(told)
        }
        Err(_) => Err(why_unfinished(state)),
    }
}

/// What `main` of a script answers over a World to a row of arguments, with so many units.
fn run_main<E: FrontEnd>(
    alloc: Global,
    end: &E,
    checked: Rc<Checked>,
    world: RunWorld,
    row: Vec<Place>,
    limit: u64,
) -> Result<ScriptReply, Unfinished>
    requires { limit ≤ 1000000 }
    ensures { (w : World) → run_world w.accounts world ≡ w → IsKept w → IfOk result (λ it. (reply : Reply Data) × spec.Ran (E.front end.now) w (program_of checked.value) (pure_row row.items) limit reply × (reply ≢ failed 0) × Tells it reply) }
{
    let mut state = begin_over(alloc, checked, world, limit);
    let outcome = run_script(2 * limit + 2, end, row, &mut state);
    let reply = reply_to(alloc, state.contracts.as_slice(), outcome);
    reply_over(state, reply)
}

/// What a script answers over a World to a row of arguments, with so many units.
pub fn answer_row<E: FrontEnd>(
    alloc: Global,
    end: &E,
    checked: &Rc<Checked>,
    world: RunWorld,
    row: Vec<Place>,
    limit: u64,
) -> Result<ScriptReply, Unfinished>
    requires { limit ≤ 1000000 }
    ensures { (w : World) → run_world w.accounts world ≡ w → IsKept w → IfOk result (λ it. (reply : Reply Data) × spec.Ran (E.front end.now) w (program_of checked.now.value) (pure_row row.items) limit reply × (reply ≢ failed 0) × Tells it reply) }
{
    match hold(checked) {
        Ok(shared) => run_main(alloc, end, shared, world, row, limit),
        Err(_) => {
            discard_row(row);
            discard_run_world(world);
            Err(Unfinished::Memory)
        }
    }
}
