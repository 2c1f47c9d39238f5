// A generated session, which is run in memory.
ghost use Rattle.std.specs.Prelude.{◌≡◌, ◌≢◌, ◌++◌, ◌∷◌, [], List, ℕ, length, IfOk, OnOk};
ghost use Rattle.serde_json.specs.Data.{Data};
ghost use Rattle.cad_generation.specs.Lines.{generated, transfers};
ghost use Rattle.cad_host.specs.Disk.{put, BreaksPut};
ghost use Rattle.cad_host.specs.Faults.{Rose};
ghost use Rattle.cad_runs.specs.Commands as runs;
ghost use Rattle.cad_store.specs.Stores.{held, room_of, IsOn};
ghost use Rattle.cad_world.specs.Begin.{empty_world};
ghost use Rattle.cad_world.specs.Live.{live};
ghost use Rattle.cad_world.specs.State.{World};
ghost use Rattle.cad_worlds.specs.Standing.{StandsFor};
ghost use Rattle.cad_answers.specs.Answer.{Answers, most_bytes};
ghost use Rattle.cad_serve.specs.Code.Counted.{HasRunAll};
ghost use Rattle.cad_answers.specs.Code.Outcomes.{IsSettled, RunsTo};
ghost use Rattle.cad_answers.specs.Code.Views.{Tells};
ghost use Rattle.cad_serve_parts.specs.Code.Worlds.{AreSound};
ghost use Rattle.cad_serve.specs.Generated.{IsCountsLine, EndsGenerated};
ghost use Rattle.cad_serve.specs.declared.status.Status.TheVariants as status;
ghost use Rattle.cad_serve.specs.declared.status.Status.{Status};

use crate::counting::Counts;
use crate::status::Status;
use cad_answers::{Reply, Settled, settle};
use cad_generation::{first_lines, next_number, transfer_of};
use cad_host::{Host, SureHost};
use cad_serve_parts::{LONGEST, Programs, Worlds, discard_kept, nothing_kept, one_world, world_in};
use cad_store::{Store, open};
use cad_syntax::Text;
use cad_world_checks::live_identities;
use cad_worlds::discard_world;
use std::alloc::{AllocError, Global};

// ---- one line

// Writes what is settled, and answers the reply.
fn keep<H: Host>(host: &mut H, store: &mut Store, settled: Settled) -> Result<Reply, AllocError>
    requires settled { (w : World) × (line : List ℕ) × IsSettled settled store.old (RunsTo w line) }
    requires on { H.tells → IsOn (H.trace host.old) store.old }
    ensures reply { IfOk result (λ reply. (w : World) (line : List ℕ) → IsSettled settled store.old (RunsTo w line)
        → (a : runs.Reply Data) × (v : World) × RunsTo w line a v × Tells reply a × StandsFor (held store.new) v) }
    ensures on { OnOk result (H.tells → IsOn (H.trace host.new) store.new) }
    ensures room { room_of store.new ≡ room_of store.old }
{
    match settled {
        Settled::Reply(reply) => Ok(reply),
        Settled::Commit(commit, reply) => match store.commit(host, commit) {
            Ok(()) => Ok(reply),
            Err(_) => Err(AllocError),
        },
    }
}

// Runs a line as a command, and answers the reply.
fn run_line<H: Host>(
    alloc: Global,
    host: &mut H,
    programs: &mut Programs,
    store: &mut Store,
    line: &[u8],
) -> Result<Reply, AllocError>
    requires sound { AreSound (held store.old) }
    requires room { room_of store.old ≡ most_bytes }
    requires on { H.tells → IsOn (H.trace host.old) store.old }
    ensures reply { IfOk result (λ reply. (w : World) → StandsFor (held store.old) w
        → (a : runs.Reply Data) × (v : World) × Answers w line.now a v × Tells reply a × StandsFor (held store.new) v) }
    ensures on { OnOk result (H.tells → IsOn (H.trace host.new) store.new) }
    ensures room { room_of store.new ≡ room_of store.old }
{
    let long = line.len() > LONGEST;
    if long {
        return Ok(Reply::Bad(27));
    }
    let settled = settle(alloc, programs, store, line)?;
    keep(host, store, settled)
}

// ---- many lines

// Runs a line and counts its reply.
fn add_line<H: Host>(
    alloc: Global,
    host: &mut H,
    programs: &mut Programs,
    store: &mut Store,
    counts: &mut Counts,
    line: &Text,
) -> Result<(), AllocError>
    requires sound { AreSound (held store.old) }
    requires room { room_of store.old ≡ most_bytes }
    requires on { H.tells → IsOn (H.trace host.old) store.old }
    ensures ran { OnOk result ((w : World) (before : List (List ℕ)) → HasRunAll w before counts.old store.old → HasRunAll w (before ++ line.now ∷ []) counts.new store.new) }
    ensures sound { OnOk result (AreSound (held store.new)) }
    ensures on { OnOk result (H.tells → IsOn (H.trace host.new) store.new) }
    ensures room { room_of store.new ≡ room_of store.old }
{
    let reply = run_line(alloc, host, programs, store, line.as_bytes())?;
    let more = counts.with(&reply)?;
    *counts = more;
    Ok(())
}

// Runs lines, one after another.
fn add_lines<H: Host>(
    alloc: Global,
    host: &mut H,
    programs: &mut Programs,
    store: &mut Store,
    counts: &mut Counts,
    lines: &[Text],
) -> Result<(), AllocError>
    requires sound { AreSound (held store.old) }
    requires room { room_of store.old ≡ most_bytes }
    requires on { H.tells → IsOn (H.trace host.old) store.old }
    ensures ran { OnOk result ((w : World) (before : List (List ℕ)) → HasRunAll w before counts.old store.old → HasRunAll w (before ++ lines.now) counts.new store.new) }
    ensures sound { OnOk result (AreSound (held store.new)) }
    ensures on { OnOk result (H.tells → IsOn (H.trace host.new) store.new) }
    ensures room { room_of store.new ≡ room_of store.old }
{
    for line in lines {
        add_line(alloc, host, programs, store, counts, line)?;
    }
    Ok(())
}

// Runs as many transfers as it says, which the numbers behind it tell.
fn add_transfers<H: Host>(
    alloc: Global,
    host: &mut H,
    programs: &mut Programs,
    store: &mut Store,
    counts: &mut Counts,
    n: u64,
) -> Result<(), AllocError>
    requires sound { AreSound (held store.old) }
    requires room { room_of store.old ≡ most_bytes }
    requires on { H.tells → IsOn (H.trace host.old) store.old }
    ensures ran { OnOk result ((w : World) (before : List (List ℕ)) → HasRunAll w before counts.old store.old → HasRunAll w (before ++ transfers n n) counts.new store.new) }
    ensures sound { OnOk result (AreSound (held store.new)) }
    ensures on { OnOk result (H.tells → IsOn (H.trace host.new) store.new) }
    ensures room { room_of store.new ≡ room_of store.old }
{
    let mut x = n;
    for _ in 0..n {
        x = next_number(x);
        let line = transfer_of(alloc, x)?;
        add_line(alloc, host, programs, store, counts, &line)?;
    }
    Ok(())
}

// Runs all lines over a store that was opened.
fn add_all<H: Host>(
    alloc: Global,
    host: &mut H,
    programs: &mut Programs,
    store: &mut Store,
    n: u64,
) -> Result<Counts, AllocError>
    requires sound { AreSound (held store.old) }
    requires room { room_of store.old ≡ most_bytes }
    requires on { H.tells → IsOn (H.trace host.old) store.old }
    ensures ran { IfOk result (λ counts. (w : World) → StandsFor (held store.old) w → HasRunAll w (generated n) counts store.new) }
    ensures sound { OnOk result (AreSound (held store.new)) }
{
    let first = first_lines(alloc)?;
    let mut counts = Counts::new();
    add_lines(alloc, host, programs, store, &mut counts, first.as_slice())?;
    add_transfers(alloc, host, programs, store, &mut counts, n)?;
    Ok(counts)
}

// ---- the session

/// How many bytes a World may have.
const ROOM: u64 = 1 << 30;

// A store on tapes in memory, which are empty.
fn empty_store(alloc: Global, host: &mut SureHost) -> Result<Store, AllocError>
    requires { ⟦<SureHost as Host>⟧.trace host.old ≡ [] }
    ensures stands { IfOk result (λ store. StandsFor (held store) empty_world) }
    ensures room { IfOk result (λ store. room_of store ≡ most_bytes) }
    ensures on { IfOk result (λ store. IsOn (⟦<SureHost as Host>⟧.trace host.new) store) }
{
    match open(alloc, host, &Worlds, ROOM) {
        Ok(store) => Ok(store),
        Err(_) => Err(AllocError),
    }
}

// How many identities live in the World that a store holds.
fn live_in(alloc: Global, programs: &mut Programs, store: &Store) -> Result<u64, AllocError>
    requires { AreSound (held store.now) }
    ensures { IfOk result (λ count. (w : World) → StandsFor (held store.now) w → count ≡ length (live w)) }
{
    one_world();
    let world = world_in(alloc, programs, store)?;
    match live_identities(alloc, &world) {
        Ok(found) => {
            discard_world(world);
            Ok(found.len() as u64)
        }
        Err(error) => {
            discard_world(world);
            Err(error)
        }
    }
}

// The line of the counts of a session that is generated and run.
fn session_line(alloc: Global, programs: &mut Programs, n: u64) -> Result<Text, AllocError>
    ensures { IfOk result (λ line. IsCountsLine n line) }
{
    let mut host = SureHost::new(alloc, &[])?;
    let mut store = empty_store(alloc, &mut host)?;
    let counts = add_all(alloc, &mut host, programs, &mut store, n)?;
    let live = live_in(alloc, programs, &store)?;
    counts.line(alloc, live)
}

// The line of the counts of a generated session. The programs of its contracts are kept from one command to the next.
fn counts_line(alloc: Global, n: u64) -> Result<Text, AllocError>
    ensures { IfOk result (λ line. IsCountsLine n line) }
{
    let mut programs = nothing_kept(alloc);
    let line = session_line(alloc, &mut programs, n);
    discard_kept(programs);
    line
}

/// Runs the lines of a generated session in memory, from no accounts on, and puts the line of its counts. Of the host nothing
/// else is asked.
pub fn generate<H: Host>(alloc: Global, host: &mut H, n: u64) -> Status
    ensures done { H.tells → result ≡ Status.Done → (line : List ℕ) × IsCountsLine n line × (H.trace host.new ≡ put line ∷ H.trace host.old) }
    ensures write_fault { H.tells → result ≡ Status.WriteFault → (line : List ℕ) × IsCountsLine n line × BreaksPut line (H.trace host.old) (H.trace host.new) }
    ensures memory { H.tells → result ≡ Status.Memory → H.trace host.new ≡ H.trace host.old }
    ensures ends { EndsGenerated result }
    ensures left { H.tells → H.left host.new ≡ H.left host.old }
    ensures cause { result ≡ Status.WriteFault → Rose (H.output_faults host.old) (H.output_faults host.new) }
    ensures steady { result ≢ Status.WriteFault → H.output_faults host.new ≡ H.output_faults host.old }
    ensures input { H.input_faults host.new ≡ H.input_faults host.old }
    ensures disk { H.disk_faults host.new ≡ H.disk_faults host.old }
{
    let Ok(line) = counts_line(alloc, n) else {
        return Status::Memory;
    };
    match host.put(line.as_bytes()) {
        Ok(()) => Status::Done,
        Err(_) => Status::WriteFault,
    }
}
