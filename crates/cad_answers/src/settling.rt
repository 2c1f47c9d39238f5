// What is ready to be replied or written in answer to a command.
ghost use Rattle.std.specs.Prelude.{◌≡◌, List, ℕ, IfOk};
ghost use Rattle.serde_json.specs.Data.{Data};
ghost use Rattle.cad_host.specs.Disk.{Event};
ghost use Rattle.cad_accounts.specs.Registers.{Map, Leads};
ghost use Rattle.cad_world.specs.State.{World};
ghost use Rattle.cad_worlds.specs.Standing.{StandsFor, Becomes};
ghost use Rattle.cad_serve_parts.specs.Code.Worlds.{AreSound};
ghost use Rattle.cad_runs.specs.Commands as runs;
ghost use Rattle.cad_store.specs.Stores.{held, room_of, IsOn};
ghost use Rattle.cad_run_outcomes.specs.Outcomes as spec;
ghost use Rattle.cad_answers.specs.Answer.{Does, Commits, most_bytes};
ghost use Rattle.cad_answers.specs.Code.Views.{Tells};
ghost use Rattle.cad_answers.specs.Code.Outcomes.{IsSettled, Comes, RunsTo};

use crate::commands::outcome_of;
use crate::outcome::Outcome;
use crate::reply::Reply;
use cad_accounts::Changes;
use cad_commands::command;
use cad_serve_parts::Programs;
use cad_store::{Commit, ReadyStop, Store};
use std::alloc::{AllocError, Global};

/// A reply, and a commit where it has to be written before.
pub enum Settled {
    Reply(Reply),
    Commit(Commit, Reply),
}

// Makes the changes of a command ready. They take effect where the World isn't too large then.
fn commit_of(store: &mut Store, reply: Reply, changes: Changes) -> Result<Settled, AllocError>
    requires leads { (new : Map) × Leads (held store.old) new changes }
    requires room { room_of store.old ≡ most_bytes }
    ensures settled { IfOk result (λ s. (a : runs.Reply Data) (w v u : World) (new : Map) → Tells reply a → StandsFor (held store.old) w → Leads (held store.old) new changes → StandsFor new u
        → Becomes v u → IsSettled s store.new (Commits w (spec.leads a v))) }
    ensures held { held store.new ≡ held store.old }
    ensures room { room_of store.new ≡ room_of store.old }
    ensures on { (m : List Event) → IsOn m store.old → IsOn m store.new }
{
    let unchanged = changes.is_empty();
    match store.ready(changes) {
        Ok(commit) => {
            if unchanged {
                store.discard(commit);
                return Ok(Settled::Reply(reply));
            }
            Ok(Settled::Commit(commit, reply))
        }
        Err(ReadyStop::Full) => Ok(Settled::Reply(Reply::Failed(130))),
        Err(ReadyStop::Memory) => Err(AllocError),
    }
}

// Makes what a command comes to ready.
fn answer_of(store: &mut Store, outcome: Outcome) -> Result<Settled, AllocError>
    requires comes { (w : World) × (command : runs.Command Data) × Comes outcome (held store.old) w command }
    requires room { room_of store.old ≡ most_bytes }
    ensures settled { IfOk result (λ s. (w : World) (command : runs.Command Data) → StandsFor (held store.old) w → Comes outcome (held store.old) w command
        → IsSettled s store.new (λ a v. (o : spec.Outcome) × Does w command o × Commits w o a v)) }
    ensures held { held store.new ≡ held store.old }
    ensures room { room_of store.new ≡ room_of store.old }
    ensures on { (m : List Event) → IsOn m store.old → IsOn m store.new }
{
    match outcome {
        Outcome::Stays(reply) => Ok(Settled::Reply(reply)),
        Outcome::Leads(reply, changes) => commit_of(store, reply, changes),
    }
}

/// Runs a line that isn't too long, and makes its answer ready. Nothing is written.
pub fn settle(
    alloc: Global,
    programs: &mut Programs,
    store: &mut Store,
    line: &[u8],
) -> Result<Settled, AllocError>
    requires sound { AreSound (held store.old) }
    requires room { room_of store.old ≡ most_bytes }
    ensures settled { IfOk result (λ s. (w : World) → StandsFor (held store.old) w → IsSettled s store.new (RunsTo w line.now)) }
    ensures held { held store.new ≡ held store.old }
    ensures room { room_of store.new ≡ room_of store.old }
    ensures on { (m : List Event) → IsOn m store.old → IsOn m store.new }
{
    let command = command(alloc, line)?;
    let outcome = outcome_of(alloc, programs, store, &command)?;
    answer_of(store, outcome)
}
