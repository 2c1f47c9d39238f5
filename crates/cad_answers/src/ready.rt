// What is ready to be put or written in answer to a line.
ghost use Rattle.std.specs.Prelude.{◌≡◌, List, ℕ, IfOk};
ghost use Rattle.cad_host.specs.Disk.{Event};
ghost use Rattle.cad_world.specs.State.{World};
ghost use Rattle.cad_worlds.specs.Standing.{StandsFor};
ghost use Rattle.cad_serve_parts.specs.Code.Worlds.{AreSound};
ghost use Rattle.cad_store.specs.Stores.{held, room_of, IsOn};
ghost use Rattle.cad_serve_parts.specs.Code.Held.{Holds};
ghost use Rattle.cad_answers.specs.Answer.{Answers, most_bytes};
ghost use Rattle.cad_answers.specs.Code.Outcomes.{IsReady, IsSettled, RunsTo};

use crate::reply::{Reply, reply_line};
use crate::settling::{Settled, settle};
use cad_serve_parts::{Line, Programs};
use cad_store::{Commit, Store};
use cad_syntax::Text;
use std::alloc::{AllocError, Global};

/// A reply line, and a commit where it has to be written before the line is put.
pub enum Prepared {
    Reply(Text),
    Commit(Commit, Text),
}

// Makes the line of what is ready. Where memory runs out, a commit isn't wanted any more.
fn with_line(alloc: Global, store: &mut Store, settled: Settled) -> Result<Prepared, AllocError>
    ensures ready { IfOk result (λ p. (w : World) (line : List ℕ) → IsSettled settled store.old (RunsTo w line) → IsReady p store.new (RunsTo w line)) }
    ensures held { held store.new ≡ held store.old }
    ensures room { room_of store.new ≡ room_of store.old }
    ensures on { (m : List Event) → IsOn m store.old → IsOn m store.new }
{
    match settled {
        Settled::Reply(reply) => {
            let text = reply_line(alloc, reply)?;
            Ok(Prepared::Reply(text))
        }
        Settled::Commit(commit, reply) => match reply_line(alloc, reply) {
            Ok(text) => Ok(Prepared::Commit(commit, text)),
            Err(error) => {
                store.discard(commit);
                Err(error)
            }
        },
    }
}

/// Makes the answer to a line ready.
pub fn prepare(
    alloc: Global,
    programs: &mut Programs,
    store: &mut Store,
    line: &Line,
) -> Result<Prepared, AllocError>
    requires sound { AreSound (held store.old) }
    requires room { room_of store.old ≡ most_bytes }
    ensures ready { IfOk result (λ p. (w : World) → StandsFor (held store.old) w → IsReady p store.new (λ a v. (pending : List ℕ) → Holds line.now pending → Answers w pending a v)) }
    ensures held { held store.new ≡ held store.old }
    ensures room { room_of store.new ≡ room_of store.old }
    ensures on { (m : List Event) → IsOn m store.old → IsOn m store.new }
{
    if line.long {
        let text = reply_line(alloc, Reply::Bad(27))?;
        return Ok(Prepared::Reply(text));
    }
    let settled = settle(alloc, programs, store, &line.held)?;
    with_line(alloc, store, settled)
}
