// Scripts that run.
ghost use Rattle.std.specs.Prelude.{◌≡◌, ◌≤◌, IfOk, List, ℕ, map};
ghost use Rattle.serde_json.specs.Data.{Data};
ghost use Rattle.serde_json.specs.View.{view};
ghost use Rattle.cad_accounts.specs.Registers.{Map};
ghost use Rattle.cad_fronts.specs.Views.{front_of};
ghost use Rattle.cad_loads.specs.Fronts.{IsRight};
ghost use Rattle.cad_runs.specs.Commands as runs;
ghost use Rattle.cad_run_worlds.specs.Views as script;
ghost use Rattle.cad_world.specs.State as definition;
ghost use Rattle.cad_worlds.specs.Standing.{StandsFor};
ghost use Rattle.cad_answers.specs.Code.Outcomes.{Comes};
ghost use Rattle.cad_answers.specs.Code.Programs.{IsProgram, IsToldOf};
ghost use Rattle.cad_answers.specs.Code.Views.{Tells};

use crate::outcome::Outcome;
use crate::reply::Reply;
use cad_declarations::Checked;
use cad_fronts::Verdicts;
use cad_replies::answer_over;
use cad_run_worlds::{RunWorld, ScriptReply, Unfinished};
use serde_json::Value as Json;
use std::alloc::Global;
use std::rc::Rc;

/// The reply to what a script replies, or a transaction that leaves the World.
pub fn reply_of(reply: ScriptReply) -> Reply
    ensures { (r : runs.Reply Data) → script.Tells reply r → Tells result r }
{
    match reply {
        ScriptReply::Result(text) => Reply::Result(text),
        ScriptReply::Failed(number) => Reply::Failed(number),
        ScriptReply::Limit => Reply::Limit,
        ScriptReply::Bad(number) => Reply::Bad(number),
        ScriptReply::IllTyped => Reply::IllTyped,
    }
}

/// What a script whose code is this program comes to over a World or a part of it, by verdicts that are known. Unknown where it asked
/// for another verdict, Lacks where it lacked an account.
pub fn script_outcome(
    alloc: Global,
    verdicts: &Verdicts,
    checked: &Rc<Checked>,
    world: RunWorld,
    arguments: &[Json],
    limit: u64,
) -> Result<Outcome, Unfinished>
    requires units { limit ≤ 1000000 }
    requires right { IsRight (front_of verdicts.now) }
    ensures { IfOk result (λ o. (m : Map) (code : List ℕ) → IsToldOf m world → IsProgram m code checked.now.value → (w : definition.World) → StandsFor m w
        → Comes o m w (runs.script code (map view arguments.now) limit)) }
{
    let reply = answer_over(alloc, verdicts, checked, world, arguments, limit)?;
    Ok(Outcome::Stays(reply_of(reply)))
}
