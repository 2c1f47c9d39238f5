// Transactions that run.
ghost use Rattle.std.specs.Prelude.{◌≡◌, ◌≤◌, IfOk, List, ℕ, map};
ghost use Rattle.serde_json.specs.View.{view};
ghost use Rattle.cad_fronts.specs.Views.{front_of};
ghost use Rattle.cad_loads.specs.Fronts.{IsRight};
ghost use Rattle.cad_runs.specs.Commands as runs;
ghost use Rattle.cad_store.specs.Stores.{held};
ghost use Rattle.cad_run_outcomes.specs.Outcomes as spec;
ghost use Rattle.cad_run_outcomes.specs.Views as told;
ghost use Rattle.cad_world.specs.State as definition;
ghost use Rattle.cad_worlds.specs.Standing.{StandsFor};
ghost use Rattle.cad_answers.specs.Code.Outcomes.{Comes, ComesBy};
ghost use Rattle.cad_answers.specs.Code.Programs.{IsProgram, IsToldOf};

use crate::outcome::Outcome;
use crate::reply::Reply;
use crate::scripts::reply_of;
use cad_declarations::Checked;
use cad_fronts::Verdicts;
use cad_replies::transact_over;
use cad_run_outcomes::{RunOutcome, TransactionOutcome};
use cad_run_worlds::{RunWorld, Unfinished};
use cad_serve_parts::{Programs, changes_to, run_changes_to};
use cad_store::Store;
use cad_syntax::Address;
use serde_json::Value as Json;
use std::alloc::Global;
use std::rc::Rc;

/// What a deploy comes to, with the registers that it changes.
pub fn with_changes(
    alloc: Global,
    programs: &mut Programs,
    store: &Store,
    comes: TransactionOutcome,
) -> Result<Outcome, Unfinished>
    ensures { (o : spec.Outcome) → told.Tells comes o → IfOk result (λ it. ComesBy it (held store.now) (λ x. x ≡ o)) }
{
    match comes {
        TransactionOutcome::Stays(reply) => Ok(Outcome::Stays(reply_of(reply))),
        TransactionOutcome::Leads(receipt, world) => {
            let changes = changes_to(alloc, programs, store, world)?;
            Ok(Outcome::Leads(Reply::Ran(receipt), changes))
        }
    }
}

// What a transaction comes to, with the registers that it changes. Whole where it knew some accounts and added contracts.
fn with_run_changes(
    alloc: Global,
    programs: &mut Programs,
    store: &Store,
    comes: RunOutcome,
) -> Result<Outcome, Unfinished>
    ensures { IfOk result (λ it. (w : definition.World) (o : spec.Outcome) → StandsFor (held store.now) w → told.TellsOver w.accounts comes o → ComesBy it (held store.now) (λ x. x ≡ o)) }
{
    match comes {
        RunOutcome::Stays(reply) => Ok(Outcome::Stays(reply_of(reply))),
        RunOutcome::Leads(receipt, world) => {
            let changes = run_changes_to(alloc, programs, store, world)?;
            Ok(Outcome::Leads(Reply::Ran(receipt), changes))
        }
    }
}

/// What a transaction whose code is this program comes to over a World or a part of it, by verdicts that are known. Unknown where it
/// asked for another verdict, Lacks where it lacked an account, Whole where it knew some and added contracts.
pub fn transaction_outcome(
    alloc: Global,
    programs: &mut Programs,
    store: &Store,
    verdicts: &Verdicts,
    checked: &Rc<Checked>,
    world: RunWorld,
    arguments: &[Json],
    signers: &[Address],
    limit: u64,
) -> Result<Outcome, Unfinished>
    requires units { limit ≤ 1000000 }
    requires right { IsRight (front_of verdicts.now) }
    requires told { IsToldOf (held store.now) world }
    ensures { IfOk result (λ o. (code : List ℕ) → IsProgram (held store.now) code checked.now.value → (w : definition.World) → StandsFor (held store.now) w
        → Comes o (held store.now) w (runs.transaction code (map view arguments.now) signers.now limit)) }
{
    let comes = transact_over(alloc, verdicts, checked, world, arguments, signers, limit)?;
    with_run_changes(alloc, programs, store, comes)
}
