// What a script answers.
ghost use Rattle.std.specs.Prelude.{◌≡◌, ◌≢◌, ◌≤◌, IfOk, Some, length, map};
ghost use Rattle.serde_json.specs.Data.{Data};
ghost use Rattle.serde_json.specs.View.{view};
ghost use Rattle.cad_declarations.specs.Views.{function_of};
ghost use Rattle.cad_runs.specs.Commands.{Reply, failed};
ghost use Rattle.cad_runs.specs.Commands as runs;
ghost use Rattle.cad_runs.specs.Run as run;
ghost use Rattle.cad_replies.specs.Scripts.{Answers};
ghost use Rattle.cad_run_worlds.specs.Views.{Tells};
ghost use Rattle.cad_run_worlds.specs.Worlds.{run_world};
ghost use Rattle.cad_state.specs.Views.{program_of};
ghost use Rattle.cad_world.specs.Begin.{IsKept};
ghost use Rattle.cad_world.specs.State as s;

use crate::main_function::{main_name, main_of};
use crate::script_running::answer_row;
use cad_command_runs::FrontEnd;
use cad_declarations::{Checked, TypedFunction};
use cad_run_worlds::{RunWorld, ScriptReply, Unfinished, discard_run_world, row_for};
use cad_syntax::Name;
use serde_json::Value as Json;
use std::alloc::Global;
use std::rc::Rc;

/// A reply that comes without a run. The World is let go.
fn refuse(
    world: RunWorld,
    reply: Result<ScriptReply, Unfinished>,
) -> Result<ScriptReply, Unfinished>
    ensures { result ≡ reply }
{
    discard_run_world(world);
    reply
}

/// What a script with this `main` answers to as many arguments as it has parameters: bad 24 where they aren't of their types, else
/// what its run comes to.
fn answer_arguments<E: FrontEnd>(
    alloc: Global,
    end: &E,
    checked: &Rc<Checked>,
    main: &TypedFunction,
    world: RunWorld,
    arguments: &[Json],
    limit: u64,
) -> Result<ScriptReply, Unfinished>
    requires units { limit ≤ 1000000 }
    requires counted { length arguments.now ≡ length main.now.parameters.items }
    ensures { (w : s.World) → run_world w.accounts world ≡ w → IsKept w → runs.main_of (program_of checked.now.value) ≡ Some (function_of main.now) → IfOk result (λ it. (reply : Reply Data) × Answers (E.front end.now) w (program_of checked.now.value) (map view arguments.now) limit reply × (reply ≢ failed 0) × Tells it reply) }
{
    match row_for(
        alloc,
        &checked.tables,
        main.parameters.as_slice(),
        arguments,
    ) {
        Ok(Some(row)) => answer_row(alloc, end, checked, world, row, limit),
        Ok(None) => refuse(world, Ok(ScriptReply::Bad(24))),
        Err(_) => refuse(world, Err(Unfinished::Memory)),
    }
}

/// What a script with this `main` answers: bad 25 where the arguments are more or fewer than its parameters, 24 where they aren't
/// of their types, else what its run comes to.
fn answer_main<E: FrontEnd>(
    alloc: Global,
    end: &E,
    checked: &Rc<Checked>,
    main: &TypedFunction,
    world: RunWorld,
    arguments: &[Json],
    limit: u64,
) -> Result<ScriptReply, Unfinished>
    requires { limit ≤ 1000000 }
    ensures { (w : s.World) → run_world w.accounts world ≡ w → IsKept w → runs.main_of (program_of checked.now.value) ≡ Some (function_of main.now) → IfOk result (λ it. (reply : Reply Data) × Answers (E.front end.now) w (program_of checked.now.value) (map view arguments.now) limit reply × (reply ≢ failed 0) × Tells it reply) }
{
    if arguments.len() != main.parameters.len() {
        return refuse(world, Ok(ScriptReply::Bad(25)));
    }
    answer_arguments(alloc, end, checked, main, world, arguments, limit)
}

/// What a program answers whose `main` has this name.
fn answer_named<E: FrontEnd>(
    alloc: Global,
    end: &E,
    checked: &Rc<Checked>,
    name: &Name,
    world: RunWorld,
    arguments: &[Json],
    limit: u64,
) -> Result<ScriptReply, Unfinished>
    requires units { limit ≤ 1000000 }
    requires named { name.now ≡ run.main_name }
    ensures { (w : s.World) → run_world w.accounts world ≡ w → IsKept w → IfOk result (λ it. (reply : Reply Data) × Answers (E.front end.now) w (program_of checked.now.value) (map view arguments.now) limit reply × (reply ≢ failed 0) × Tells it reply) }
{
    match main_of(checked, name) {
        Some(main) => answer_main(alloc, end, checked, main, world, arguments, limit),
        None => refuse(world, Ok(ScriptReply::Bad(26))),
    }
}

/// What a script that others may hold answers over a World, of which some accounts may not be known, to JSON as its arguments, with so
/// many units, under a front end that is asked of the codes that it adds. Bad 26 where it has no `main` that everybody may call, 25 where
/// the arguments are more or fewer than its parameters, 24 where they aren't of their types; else its result, the number of its error, or
/// that the units were too few. Unknown where the run asked of a code of which the front end says nothing, Lacks where it lacked an
/// account.
pub fn answer_over<E: FrontEnd>(
    alloc: Global,
    end: &E,
    checked: &Rc<Checked>,
    world: RunWorld,
    arguments: &[Json],
    limit: u64,
) -> Result<ScriptReply, Unfinished>
    requires { limit ≤ 1000000 }
    ensures { (w : s.World) → run_world w.accounts world ≡ w → IsKept w → IfOk result (λ it. (reply : Reply Data) × Answers (E.front end.now) w (program_of checked.now.value) (map view arguments.now) limit reply × (reply ≢ failed 0) × Tells it reply) }
{
    match main_name(alloc) {
        Ok(name) => answer_named(alloc, end, checked, &name, world, arguments, limit),
        Err(_) => refuse(world, Err(Unfinished::Memory)),
    }
}
