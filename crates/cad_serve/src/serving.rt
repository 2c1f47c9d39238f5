// The run: lines come in, and a reply goes out for each command.
ghost use Rattle.std.specs.Prelude.{◌≡◌, ◌≢◌, ◌≤◌, ◌<◌, ◌+◌, ◌^◌, ◌++◌, ◌↔◌, ◌⊎◌, [], ◌∷◌, List, ℕ, length, take, IfOk, IfErr, OnOk, OnErr, Ok};
ghost use Rattle.cad_host.specs.declared.host.Tape.TheVariants.{Pick};
ghost use Rattle.cad_host.specs.Disk.{Event, output, put, taken, reads, Puts, Takes, BreaksPut, FailsTake, FailsLook};
ghost use Rattle.cad_host.specs.Faults.{Rose, IsCaused};
ghost use Rattle.cad_wire.specs.declared.entry.Entry.{Entry};
ghost use Rattle.cad_accounts.specs.Registers.{applied, Leads};
ghost use Rattle.cad_world.specs.State.{World};
ghost use Rattle.cad_worlds.specs.Standing.{StandsFor};
ghost use Rattle.cad_serve_parts.specs.Code.Worlds.{AreSound};
ghost use Rattle.cad_store.specs.Opening.{in_use, opened, BreaksOpening};
ghost use Rattle.cad_store.specs.Stores.{held, room_of, IsOn, IsOut};
ghost use Rattle.cad_serve_parts.specs.Lines.{commands, commands_among};
ghost use Rattle.cad_serve_parts.specs.Code.Held.{Holds};
ghost use Rattle.cad_serve.specs.Generated.{IsCountsLine, EndsGenerated};
ghost use Rattle.cad_serve_parts.specs.Words.{IsRun, IsGenerate};
ghost use Rattle.serde_json.specs.Data.{Data};
ghost use Rattle.cad_runs.specs.Commands.{Reply};
ghost use Rattle.cad_answers.specs.Answer.{Answers, answer_line, most_bytes};
ghost use Rattle.cad_serve.specs.Served.{Served, ServedSome, Broken, Begun, Finished};
ghost use Rattle.cad_serve.specs.Writing.{Wrote, WroteSome, WroteBroken, WroteStopped};
ghost use Rattle.cad_serve.specs.Crashes.{DiskStands, Survives};
ghost use Rattle.cad_serve.specs.Ending.{HasRun};
ghost use Rattle.cad_serve.specs.Code.Ending.{Ends, EndsOpening, HasCause, StopCause, IsCausedBy, input_bound, status_of};
ghost use Rattle.cad_serve.specs.Code.Progress.{Said, Halted, Going, Between, Goes, Stops};
ghost use Rattle.cad_serve.specs.declared.status.Status.TheVariants as status;
ghost use Rattle.cad_serve.specs.declared.status.Status.{Status};

use crate::generating::generate;
use crate::status::Status;
use cad_answers::{Prepared, prepare};
use cad_host::{Failed, Host};
use cad_serve_parts::{
    Line, Programs, Worlds, discard_kept, is_run, nothing_kept, one_world, transfers_asked,
};
use cad_store::{Commit, OpenStop, Store, open};
use cad_syntax::Text;
use std::alloc::Global;

/// How many bytes of input the program reads.
pub const INPUT_BOUND: u64 = 1 << 40;

// Puts the reply to a command that took effect.
fn tell<H: Host>(host: &mut H, text: &Text) -> Result<(), Status>
    ensures puts { H.tells → Puts text.now result (H.trace host.old) (H.trace host.new) }
    ensures cause { IfErr result (λ s. (s ≡ Status.WriteFault) × Rose (H.output_faults host.old) (H.output_faults host.new)) }
    ensures steady { OnOk result (H.output_faults host.new ≡ H.output_faults host.old) }
    ensures takes { OnOk result (H.tells → taken (H.trace host.new) ≡ taken (H.trace host.old)) }
    ensures left { H.tells → H.left host.new ≡ H.left host.old }
    ensures input { H.input_faults host.new ≡ H.input_faults host.old }
    ensures disk { H.disk_faults host.new ≡ H.disk_faults host.old }
{
    match host.put(text.as_bytes()) {
        Ok(()) => Ok(()),
        Err(_) => Err(Status::WriteFault),
    }
}

// Writes a commit, and then puts the reply.
fn write_and_tell<H: Host>(
    host: &mut H,
    store: &mut Store,
    commit: Commit,
    text: &Text,
) -> Result<(), Status>
    requires out { (changes : List Entry) × IsOut store.old commit changes }
    requires on { H.tells → IsOn (H.trace host.old) store.old }
    ensures said { H.tells → (base : List Event) (w v : World) (c : List ℕ) (a : Reply Data) (changes : List Entry) → StandsFor (held store.old) w → Answers w c a v → text.now ≡ answer_line a
        → IsOut store.old commit changes → StandsFor (applied changes (held store.old)) v
        → Leads (held store.old) (applied changes (held store.old)) changes → changes ≢ []
        → OnOk result (Said base w (c ∷ []) (H.trace host.old) (H.trace host.new) store.new) }
    ensures stops { H.tells → (base : List Event) (w v : World) (c : List ℕ) (a : Reply Data) (changes : List Entry) → StandsFor (held store.old) w → Answers w c a v → text.now ≡ answer_line a
        → IsOut store.old commit changes → StandsFor (applied changes (held store.old)) v
        → Leads (held store.old) (applied changes (held store.old)) changes → changes ≢ []
        → IfErr result (λ s. Halted s base w (c ∷ []) (H.trace host.old) (H.trace host.new)) }
    ensures held { OnOk result ((changes : List Entry) → IsOut store.old commit changes → ((key : List ℕ) → held store.new key ≡ applied changes (held store.old) key)) }
    ensures on { OnOk result (H.tells → IsOn (H.trace host.new) store.new) }
    ensures room { room_of store.new ≡ room_of store.old }
    ensures cause { IfErr result (λ s. StopCause s (H.output_faults host.old) (H.output_faults host.new) (H.disk_faults host.old) (H.disk_faults host.new)) }
    ensures steady { OnOk result ((H.output_faults host.new ≡ H.output_faults host.old) × (H.disk_faults host.new ≡ H.disk_faults host.old)) }
    ensures takes { OnOk result (H.tells → taken (H.trace host.new) ≡ taken (H.trace host.old)) }
    ensures left { H.tells → H.left host.new ≡ H.left host.old }
    ensures input { H.input_faults host.new ≡ H.input_faults host.old }
{
    match store.commit(host, commit) {
        Ok(()) => tell(host, text),
        Err(_) => Err(Status::DiskFault),
    }
}

// Answers the line that has ended, which is a command: what it changes is written before its reply is put.
fn answer<H: Host>(
    alloc: Global,
    host: &mut H,
    programs: &mut Programs,
    store: &mut Store,
    line: &Line,
) -> Result<(), Status>
    requires sound { AreSound (held store.old) }
    requires room { room_of store.old ≡ most_bytes }
    requires on { H.tells → IsOn (H.trace host.old) store.old }
    ensures said { H.tells → (base : List Event) (pending : List ℕ) → Holds line.now pending → (w : World) → StandsFor (held store.old) w
        → OnOk result (Said base w (pending ∷ []) (H.trace host.old) (H.trace host.new) store.new) }
    ensures stops { H.tells → (base : List Event) (pending : List ℕ) → Holds line.now pending → (w : World) → StandsFor (held store.old) w
        → IfErr result (λ s. Halted s base w (pending ∷ []) (H.trace host.old) (H.trace host.new)) }
    ensures sound { OnOk result (AreSound (held store.new)) }
    ensures on { OnOk result (H.tells → IsOn (H.trace host.new) store.new) }
    ensures room { room_of store.new ≡ room_of store.old }
    ensures cause { IfErr result (λ s. StopCause s (H.output_faults host.old) (H.output_faults host.new) (H.disk_faults host.old) (H.disk_faults host.new)) }
    ensures steady { OnOk result ((H.output_faults host.new ≡ H.output_faults host.old) × (H.disk_faults host.new ≡ H.disk_faults host.old)) }
    ensures takes { OnOk result (H.tells → taken (H.trace host.new) ≡ taken (H.trace host.old)) }
    ensures left { H.tells → H.left host.new ≡ H.left host.old }
    ensures input { H.input_faults host.new ≡ H.input_faults host.old }
{
    one_world();
    let Ok(prepared) = prepare(alloc, programs, store, line) else {
        return Err(Status::Memory);
    };
    match prepared {
        Prepared::Reply(text) => tell(host, &text),
        Prepared::Commit(commit, text) => write_and_tell(host, store, commit, &text),
    }
}

// Answers the line that has ended, where it is a command.
fn say<H: Host>(
    alloc: Global,
    host: &mut H,
    programs: &mut Programs,
    store: &mut Store,
    line: &Line,
) -> Result<(), Status>
    requires sound { AreSound (held store.old) }
    requires room { room_of store.old ≡ most_bytes }
    requires on { H.tells → IsOn (H.trace host.old) store.old }
    ensures said { H.tells → (base : List Event) (pending : List ℕ) → Holds line.now pending → (w : World) → StandsFor (held store.old) w
        → OnOk result (Said base w (commands_among (pending ∷ [])) (H.trace host.old) (H.trace host.new) store.new) }
    ensures stops { H.tells → (base : List Event) (pending : List ℕ) → Holds line.now pending → (w : World) → StandsFor (held store.old) w
        → IfErr result (λ s. Halted s base w (commands_among (pending ∷ [])) (H.trace host.old) (H.trace host.new)) }
    ensures sound { OnOk result (AreSound (held store.new)) }
    ensures on { OnOk result (H.tells → IsOn (H.trace host.new) store.new) }
    ensures room { room_of store.new ≡ room_of store.old }
    ensures cause { IfErr result (λ s. StopCause s (H.output_faults host.old) (H.output_faults host.new) (H.disk_faults host.old) (H.disk_faults host.new)) }
    ensures steady { OnOk result ((H.output_faults host.new ≡ H.output_faults host.old) × (H.disk_faults host.new ≡ H.disk_faults host.old)) }
    ensures takes { OnOk result (H.tells → taken (H.trace host.new) ≡ taken (H.trace host.old)) }
    ensures left { H.tells → H.left host.new ≡ H.left host.old }
    ensures input { H.input_faults host.new ≡ H.input_faults host.old }
{
    if line.blank {
        return Ok(());
    }
    answer(alloc, host, programs, store, line)
}

// Takes one byte of the input.
fn feed_byte<H: Host>(
    alloc: Global,
    host: &mut H,
    programs: &mut Programs,
    store: &mut Store,
    line: &mut Line,
    byte: u8,
) -> Result<(), Status>
    requires sound { AreSound (held store.old) }
    requires room { room_of store.old ≡ most_bytes }
    requires on { H.tells → IsOn (H.trace host.old) store.old }
    ensures goes { H.tells → OnOk result (Goes line.old store.old line.new store.new (byte ∷ []) (H.trace host.old) (H.trace host.new)) }
    ensures stops { H.tells → IfErr result (λ s. (more : List ℕ) → Stops s line.old store.old (byte ∷ more) (H.trace host.old) (H.trace host.new)) }
    ensures sound { OnOk result (AreSound (held store.new)) }
    ensures on { OnOk result (H.tells → IsOn (H.trace host.new) store.new) }
    ensures room { room_of store.new ≡ room_of store.old }
    ensures cause { IfErr result (λ s. StopCause s (H.output_faults host.old) (H.output_faults host.new) (H.disk_faults host.old) (H.disk_faults host.new)) }
    ensures steady { OnOk result ((H.output_faults host.new ≡ H.output_faults host.old) × (H.disk_faults host.new ≡ H.disk_faults host.old)) }
    ensures takes { OnOk result (H.tells → taken (H.trace host.new) ≡ taken (H.trace host.old)) }
    ensures left { H.tells → H.left host.new ≡ H.left host.old }
    ensures input { H.input_faults host.new ≡ H.input_faults host.old }
{
    if byte == b'\n' {
        if let Err(stop) = say(alloc, host, programs, store, line) {
            return Err(stop);
        }
        line.clear();
        return Ok(());
    }
    match line.push(byte) {
        Ok(()) => Ok(()),
        Err(_) => Err(Status::Memory),
    }
}

// Takes the next bytes of the input.
fn feed<H: Host>(
    alloc: Global,
    host: &mut H,
    programs: &mut Programs,
    store: &mut Store,
    line: &mut Line,
    bytes: &[u8],
) -> Result<(), Status>
    requires sound { AreSound (held store.old) }
    requires room { room_of store.old ≡ most_bytes }
    requires on { H.tells → IsOn (H.trace host.old) store.old }
    ensures goes { H.tells → OnOk result (Goes line.old store.old line.new store.new bytes.now (H.trace host.old) (H.trace host.new)) }
    ensures stops { H.tells → IfErr result (λ s. Stops s line.old store.old bytes.now (H.trace host.old) (H.trace host.new)) }
    ensures sound { OnOk result (AreSound (held store.new)) }
    ensures on { OnOk result (H.tells → IsOn (H.trace host.new) store.new) }
    ensures room { room_of store.new ≡ room_of store.old }
    ensures cause { IfErr result (λ s. StopCause s (H.output_faults host.old) (H.output_faults host.new) (H.disk_faults host.old) (H.disk_faults host.new)) }
    ensures steady { OnOk result ((H.output_faults host.new ≡ H.output_faults host.old) × (H.disk_faults host.new ≡ H.disk_faults host.old)) }
    ensures takes { OnOk result (H.tells → taken (H.trace host.new) ≡ taken (H.trace host.old)) }
    ensures left { H.tells → H.left host.new ≡ H.left host.old }
    ensures input { H.input_faults host.new ≡ H.input_faults host.old }
{
    for byte in bytes {
        if let Err(stop) = feed_byte(alloc, host, programs, store, line, *byte) {
            return Err(stop);
        }
    }
    Ok(())
}

// Takes the next bytes of the input into the front of a buffer, at most as many as there is room for.
fn take_some<H: Host>(host: &mut H, buffer: &mut [u8], room: usize) -> Result<usize, Failed>
    requires { room ≤ length buffer.old }
    ensures count { IfOk result (λ n. n ≤ room) }
    ensures bytes { H.tells → IfOk result (λ n. H.left host.old ≡ take n buffer.new ++ H.left host.new) }
    ensures end { H.tells → result ≡ Ok 0 → 0 < room → H.left host.old ≡ [] }
    ensures failed { H.tells → OnErr result (H.left host.new ≡ H.left host.old) }
    ensures story { H.tells → Takes result buffer.new (H.trace host.old) (H.trace host.new) }
    ensures cause { IsCaused result (H.input_faults host.old) (H.input_faults host.new) }
    ensures output { H.output_faults host.new ≡ H.output_faults host.old }
    ensures disk { H.disk_faults host.new ≡ H.disk_faults host.old }
{
    host.take(&mut buffer[..room])
}

// Takes bytes of the input, at most as many as there is room for, and goes over them. 0 is the end of the input.
fn turn<H: Host>(
    alloc: Global,
    host: &mut H,
    buffer: &mut [u8],
    programs: &mut Programs,
    store: &mut Store,
    line: &mut Line,
    room: usize,
) -> Result<usize, Status>
    requires some { 0 < room }
    requires fits { room ≤ length buffer.old }
    requires sound { AreSound (held store.old) }
    requires bytes { room_of store.old ≡ most_bytes }
    requires on { H.tells → IsOn (H.trace host.old) store.old }
    ensures count { IfOk result (λ n. n ≤ room) }
    ensures going { H.tells → (w : World) (input : List ℕ) (base : List Event) → Between line.old store.old w input base (H.left host.old) (H.trace host.old) →
        OnOk result (Between line.new store.new w input base (H.left host.new) (H.trace host.new)) }
    ensures left { H.tells → IfOk result (λ n. length (H.left host.old) ≡ n + length (H.left host.new)) }
    ensures end { H.tells → result ≡ Ok 0 → H.left host.new ≡ [] }
    ensures ends { H.tells → (w : World) (input : List ℕ) (base : List Event) → Between line.old store.old w input base (H.left host.old) (H.trace host.old) →
        IfErr result (λ s. Ends s w input (H.left host.new) base (H.trace host.new)) }
    ensures sound { OnOk result (AreSound (held store.new)) }
    ensures on { OnOk result (H.tells → IsOn (H.trace host.new) store.new) }
    ensures room { room_of store.new ≡ room_of store.old }
    ensures cause { IfErr result (λ s. HasCause s (H.input_faults host.old) (H.input_faults host.new) (H.output_faults host.old) (H.output_faults host.new) (H.disk_faults host.old) (H.disk_faults host.new)) }
    ensures steady { OnOk result ((H.input_faults host.new ≡ H.input_faults host.old) × (H.output_faults host.new ≡ H.output_faults host.old) × (H.disk_faults host.new ≡ H.disk_faults host.old)) }
{
    let Ok(count) = take_some(host, buffer, room) else {
        return Err(Status::ReadFault);
    };
    if let Err(stop) = feed(alloc, host, programs, store, line, &buffer[..count]) {
        return Err(stop);
    }
    Ok(count)
}

// Replies to the line that the end of the input ends.
fn finish<H: Host>(
    alloc: Global,
    host: &mut H,
    programs: &mut Programs,
    store: &mut Store,
    line: &Line,
) -> Status
    requires sound { AreSound (held store.old) }
    requires room { room_of store.old ≡ most_bytes }
    requires on { H.tells → IsOn (H.trace host.old) store.old }
    ensures ends { H.tells → (w : World) (input : List ℕ) (base : List Event) → length input ≤ input_bound → H.left host.old ≡ [] → Going line.now store.old w input base [] (H.trace host.old) →
        Ends result w input (H.left host.new) base (H.trace host.new) }
    ensures cause { HasCause result (H.input_faults host.old) (H.input_faults host.new) (H.output_faults host.old) (H.output_faults host.new) (H.disk_faults host.old) (H.disk_faults host.new) }
{
    match say(alloc, host, programs, store, line) {
        Ok(()) => Status::Done,
        Err(stop) => stop,
    }
}

// How many bytes may be taken before the bound on the input, at most as many as a buffer holds.
fn room_for(taken: u64, held: usize) -> usize
    requires below { taken < input_bound }
    requires some { 0 < held }
    ensures some { 0 < result }
    ensures fits { result ≤ held }
    ensures bound { taken + result ≤ input_bound }
{
    let room = INPUT_BOUND - taken;
    if room < held as u64 {
        room as usize
    } else {
        held
    }
}

// One more byte after the bound on the input.
fn past_bound<H: Host>(
    alloc: Global,
    host: &mut H,
    buffer: &mut [u8],
    programs: &mut Programs,
    store: &mut Store,
    line: &Line,
) -> Status
    requires some { 0 < length buffer.old }
    requires sound { AreSound (held store.old) }
    requires room { room_of store.old ≡ most_bytes }
    requires on { H.tells → IsOn (H.trace host.old) store.old }
    ensures ends { H.tells → (w : World) (input : List ℕ) (base : List Event) → length input ≡ input_bound + length (H.left host.old) →
        Between line.now store.old w input base (H.left host.old) (H.trace host.old) → Ends result w input (H.left host.new) base (H.trace host.new) }
    ensures cause { HasCause result (H.input_faults host.old) (H.input_faults host.new) (H.output_faults host.old) (H.output_faults host.new) (H.disk_faults host.old) (H.disk_faults host.new) }
{
    match take_some(host, buffer, 1) {
        Err(_) => Status::ReadFault,
        Ok(0) => finish(alloc, host, programs, store, line),
        Ok(_) => Status::InputBound,
    }
}

// Reads the input and replies to its commands.
fn read_lines<H: Host>(
    alloc: Global,
    host: &mut H,
    buffer: &mut [u8],
    programs: &mut Programs,
    store: &mut Store,
    line: &mut Line,
) -> Status
    requires some { 0 < length buffer.old }
    requires fresh { Holds line.old [] }
    requires sound { AreSound (held store.old) }
    requires room { room_of store.old ≡ most_bytes }
    requires on { H.tells → IsOn (H.trace host.old) store.old }
    ensures ends { H.tells → (w : World) → StandsFor (held store.old) w → Ends result w (H.left host.old) (H.left host.new) (H.trace host.old) (H.trace host.new) }
    ensures cause { HasCause result (H.input_faults host.old) (H.input_faults host.new) (H.output_faults host.old) (H.output_faults host.new) (H.disk_faults host.old) (H.disk_faults host.new) }
{
    let mut taken = 0u64;
    while taken < INPUT_BOUND {
        let room = room_for(taken, buffer.len());
        match turn(alloc, host, buffer, programs, store, line, room) {
            Err(stop) => return stop,
            Ok(0) => return finish(alloc, host, programs, store, line),
            Ok(count) => taken += count as u64,
        }
    }
    past_bound(alloc, host, buffer, programs, store, line)
}

// How many bytes are asked for at once.
const BUFFER: usize = 1 << 16;

// Makes the buffer and reads the input.
fn run<H: Host>(alloc: Global, host: &mut H, programs: &mut Programs, store: &mut Store) -> Status
    requires sound { AreSound (held store.old) }
    requires room { room_of store.old ≡ most_bytes }
    requires on { H.tells → IsOn (H.trace host.old) store.old }
    ensures ends { H.tells → (w : World) → StandsFor (held store.old) w → Ends result w (H.left host.old) (H.left host.new) (H.trace host.old) (H.trace host.new) }
    ensures cause { HasCause result (H.input_faults host.old) (H.input_faults host.new) (H.output_faults host.old) (H.output_faults host.new) (H.disk_faults host.old) (H.disk_faults host.new) }
{
    let Ok(mut buffer) = vec![in alloc; 0u8; BUFFER] else {
        return Status::Memory;
    };
    let mut line = Line::new(alloc);
    read_lines(alloc, host, &mut buffer, programs, store, &mut line)
}

/// How many bytes a World may have: those of a record of all its registers, with the gate behind it.
const ROOM: u64 = 1 << 30;

fn stop_of(stop: OpenStop) -> Status
    ensures { result ≡ status_of stop }
{
    match stop {
        OpenStop::Failed => Status::DiskFault,
        OpenStop::BadStore => Status::BadStore,
        OpenStop::Memory => Status::Memory,
    }
}

// Opens the World and reads the input. The programs of its contracts are kept from one command to the next.
fn open_and_run<H: Host>(alloc: Global, host: &mut H) -> Status
    ensures ends { H.tells → (w : World) → DiskStands (reads (H.trace host.old)) w
        → EndsOpening result (H.left host.old) (H.left host.new) (H.trace host.old) (H.trace host.new)
        ⊎ Ends result w (H.left host.old) (H.left host.new) (opened (H.trace host.old)) (H.trace host.new) }
    ensures survives { H.tells → (w : World) → DiskStands (reads (H.trace host.old)) w
        → Survives w (commands (H.left host.old)) (H.trace host.old) (H.trace host.new) }
    ensures bad { H.tells → result ≡ Status.BadStore → (w : World) → DiskStands (reads (H.trace host.old)) w → ⊥ }
    ensures unopened { H.tells → ((w : World) → DiskStands (reads (H.trace host.old)) w → ⊥) → (H.left host.new ≡ H.left host.old)
        × (FailsLook Pick (H.trace host.old) (H.trace host.new) ⊎ FailsLook (in_use (H.trace host.old)) (H.trace host.old) (H.trace host.new)) }
    ensures opened { H.tells → HasRun result → (w : World) × DiskStands (reads (H.trace host.old)) w }
    ensures run { result ≢ Status.Usage }
    ensures cause { IsCausedBy result (H.input_faults host.old) (H.input_faults host.new) (H.output_faults host.old) (H.output_faults host.new) (H.disk_faults host.old) (H.disk_faults host.new) }
{
    match open(alloc, host, &Worlds, ROOM) {
        Ok(mut store) => {
            let mut programs = nothing_kept(alloc);
            let status = run(alloc, host, &mut programs, &mut store);
            discard_kept(programs);
            status
        }
        Err(stop) => stop_of(stop),
    }
}

// Generates a session where the words ask for one, and refuses all others.
fn generate_or_refuse<H: Host>(alloc: Global, words: &[Text], host: &mut H) -> Status
    ensures usage { (result ≡ Status.Usage) ↔ ((n : ℕ) → IsGenerate words.now n → ⊥) }
    ensures idle { result ≡ Status.Usage → host.new ≡ host.old }
    ensures done { H.tells → result ≡ Status.Done → (n : ℕ) → IsGenerate words.now n
        → (line : List ℕ) × IsCountsLine n line × (H.trace host.new ≡ put line ∷ H.trace host.old) }
    ensures write_fault { H.tells → result ≡ Status.WriteFault → (n : ℕ) → IsGenerate words.now n
        → (line : List ℕ) × IsCountsLine n line × BreaksPut line (H.trace host.old) (H.trace host.new) }
    ensures memory { H.tells → result ≡ Status.Memory → H.trace host.new ≡ H.trace host.old }
    ensures ends { (n : ℕ) → IsGenerate words.now n → EndsGenerated result }
    ensures left { H.tells → H.left host.new ≡ H.left host.old }
    ensures cause { result ≡ Status.WriteFault → Rose (H.output_faults host.old) (H.output_faults host.new) }
    ensures steady { result ≢ Status.WriteFault → H.output_faults host.new ≡ H.output_faults host.old }
    ensures no_read_fault { result ≢ Status.ReadFault }
    ensures no_disk_fault { result ≢ Status.DiskFault }
    ensures input { H.input_faults host.new ≡ H.input_faults host.old }
    ensures disk { H.disk_faults host.new ≡ H.disk_faults host.old }
{
    match transfers_asked(words) {
        Some(n) => generate(alloc, host, n),
        None => Status::Usage,
    }
}

/// All that the program does. With the words `run FOLDER` it opens the World that the tapes stand for, which writes
/// nothing and syncs what was read, and reads the input: lines that end with a line feed or with the input. A line of spaces, tabs and carriage
/// returns alone is no command and has no reply; any other line is a command. What it changes is written, and then its reply
/// line is put. With the words `generate N` it runs the lines of a generated session in memory, from no accounts on, and puts
/// the line of their counts; it takes nothing, and asks nothing of the tapes.
///
/// The status is Usage exactly where the words are others. BadStore comes exactly where the tapes stand for no World,
/// unless a disk fault or want of memory ended the opening. ReadFault, WriteFault and DiskFault come only where the host's
/// input, output or disk failed, InputBound where the input has more than 2^40 bytes, and Memory where memory ran out.
pub fn serve<H: Host>(alloc: Global, words: &[Text], host: &mut H) -> Status
    // Usage comes exactly where the words are of neither form, and the host isn't asked then. No memory is taken for it.
    ensures usage { (result ≡ Status.Usage) ↔ ((¬ IsRun words.now) × ((n : ℕ) → ¬ IsGenerate words.now n)) }
    ensures idle { result ≡ Status.Usage → host.new ≡ host.old }

    // The words `run FOLDER`, up to `survives`. BadStore: the tapes stand for no World. Where they stand for none, nothing is taken, written, synced or put, whatever
    // the status (a look at a tape may fail), and it is none of those that a run over a World ends with but DiskFault and Memory.
    ensures bad_store { H.tells → IsRun words.now → result ≡ Status.BadStore → (w : World) → DiskStands (reads (H.trace host.old)) w → ⊥ }
    ensures unopened { H.tells → IsRun words.now → ((w : World) → DiskStands (reads (H.trace host.old)) w → ⊥) → (H.left host.new ≡ H.left host.old)
        × (FailsLook Pick (H.trace host.old) (H.trace host.new) ⊎ FailsLook (in_use (H.trace host.old)) (H.trace host.old) (H.trace host.new)) }
    ensures opened { H.tells → IsRun words.now → HasRun result → (w : World) × DiskStands (reads (H.trace host.old)) w }

    // Done: the input was read to its end, the output grew by the reply lines of all commands, in order, and the tapes stand
    // for the World that the commands lead to. The calls are told in their order: the opening synced `pick` and the tape in
    // use; a command that changes no register wrote nothing, and any other wrote one record, of exactly the registers that
    // differ, before its reply was put; and whenever input was taken, each command that a line feed had ended had its reply.
    // No call failed, and nothing else was written. So it is under each other status of the commands that were replied to.
    ensures done { H.tells → IsRun words.now → result ≡ Status.Done → (w : World) → DiskStands (reads (H.trace host.old)) w
        → (v : World) × (H.left host.new ≡ []) × Served w (commands (H.left host.old)) (output (H.trace host.old)) (output (H.trace host.new)) v
        × DiskStands (reads (H.trace host.new)) v × Wrote (opened (H.trace host.old)) w (commands (H.left host.old)) (opened (H.trace host.old)) (H.trace host.new) v }

    // Under every status the output grew by a prefix of the bytes of these lines.
    ensures begun { H.tells → IsRun words.now → (w : World) → DiskStands (reads (H.trace host.old)) w
        → Begun w (commands (H.left host.old)) (output (H.trace host.old)) (output (H.trace host.new)) }

    // Memory: nothing was done, or the tapes stand for the World after exactly the commands that were replied to. DiskFault: a
    // disk call of the opening failed, and nothing was taken, written or put; or one of a commit failed, and neither was its
    // command replied to nor anything taken or begun behind it. WriteFault: the command whose line broke took effect, and what
    // it changes was written before. So the first call that fails is the last.
    ensures memory { H.tells → IsRun words.now → result ≡ Status.Memory → (w : World) → DiskStands (reads (H.trace host.old)) w
        → ((H.left host.new ≡ H.left host.old) × (H.trace host.new ≡ H.trace host.old))
        ⊎ ((v : World) × ServedSome w (commands (H.left host.old)) (output (H.trace host.old)) (output (H.trace host.new)) v
        × DiskStands (reads (H.trace host.new)) v × WroteSome (opened (H.trace host.old)) w (commands (H.left host.old)) (opened (H.trace host.old)) (H.trace host.new) v) }
    ensures disk_fault { H.tells → IsRun words.now → result ≡ Status.DiskFault → (w : World) → DiskStands (reads (H.trace host.old)) w
        → ((H.left host.new ≡ H.left host.old) × BreaksOpening (H.trace host.old) (H.trace host.new))
        ⊎ ((v : World) × ServedSome w (commands (H.left host.old)) (output (H.trace host.old)) (output (H.trace host.new)) v
        × WroteStopped (opened (H.trace host.old)) w (commands (H.left host.old)) (opened (H.trace host.old)) (H.trace host.new) v) }
    ensures write_fault { H.tells → IsRun words.now → result ≡ Status.WriteFault → (w : World) → DiskStands (reads (H.trace host.old)) w
        → (v : World) × Broken w (commands (H.left host.old)) (output (H.trace host.old)) (output (H.trace host.new)) v
        × DiskStands (reads (H.trace host.new)) v × WroteBroken (opened (H.trace host.old)) w (commands (H.left host.old)) (opened (H.trace host.old)) (H.trace host.new) v }

    // ReadFault: each command whose line feed was taken has its reply, an unfinished line has none and isn't run, and then a
    // take failed.
    ensures read_fault { H.tells → IsRun words.now → result ≡ Status.ReadFault → (w : World) → DiskStands (reads (H.trace host.old)) w
        → (v : World) × (taken : List ℕ) × (told : List Event) × (H.left host.old ≡ taken ++ H.left host.new)
        × Finished (opened (H.trace host.old)) w taken (opened (H.trace host.old)) told v × FailsTake told (H.trace host.new) × DiskStands (reads (H.trace host.new)) v }

    // InputBound: so of the first 2^40 bytes, and one more was taken. Under Done there were no more than these.
    ensures bound { H.tells → IsRun words.now → result ≡ Status.InputBound → (w : World) → DiskStands (reads (H.trace host.old)) w
        → (v : World) × (taken : List ℕ) × (byte : ℕ) × (length taken ≡ 2 ^ 40) × (H.left host.old ≡ taken ++ byte ∷ H.left host.new)
        × Finished (opened (H.trace host.old)) w taken (opened (H.trace host.old)) (H.trace host.new) v × DiskStands (reads (H.trace host.new)) v }
    ensures within { H.tells → IsRun words.now → result ≡ Status.Done → length (H.left host.old) ≤ 2 ^ 40 }

    // A crash at any moment of the opening leaves what one might have left when the call began, and from the end of the opening
    // on tapes that stand for the World after the first of the commands: each whose reply line was put, and at most one
    // more. What was pending when the call began makes no difference.
    ensures survives { H.tells → IsRun words.now → (w : World) → DiskStands (reads (H.trace host.old)) w
        → Survives w (commands (H.left host.old)) (H.trace host.old) (H.trace host.new) }

    // The words `generate N`. Done: the line of the counts was put, with no take, write or sync, and no call that failed.
    // WriteFault: the put of it failed, and so of all else. Memory: nothing was done. There is no other status.
    ensures generated { H.tells → result ≡ Status.Done → (n : ℕ) → IsGenerate words.now n
        → (line : List ℕ) × IsCountsLine n line × (H.trace host.new ≡ put line ∷ H.trace host.old) }
    ensures generated_fault { H.tells → result ≡ Status.WriteFault → (n : ℕ) → IsGenerate words.now n
        → (line : List ℕ) × IsCountsLine n line × BreaksPut line (H.trace host.old) (H.trace host.new) }
    ensures generated_memory { H.tells → result ≡ Status.Memory → (n : ℕ) → IsGenerate words.now n → H.trace host.new ≡ H.trace host.old }
    ensures generated_status { (n : ℕ) → IsGenerate words.now n → EndsGenerated result }
    ensures generated_left { H.tells → (n : ℕ) → IsGenerate words.now n → H.left host.new ≡ H.left host.old }

    // A fault is answered only where the count of its kind rose, and a count rose only where its fault is answered.
    ensures input_cause { result ≡ Status.ReadFault → Rose (H.input_faults host.old) (H.input_faults host.new) }
    ensures output_cause { result ≡ Status.WriteFault → Rose (H.output_faults host.old) (H.output_faults host.new) }
    ensures disk_cause { result ≡ Status.DiskFault → Rose (H.disk_faults host.old) (H.disk_faults host.new) }
    ensures no_input_fault { result ≢ Status.ReadFault → H.input_faults host.new ≡ H.input_faults host.old }
    ensures no_output_fault { result ≢ Status.WriteFault → H.output_faults host.new ≡ H.output_faults host.old }
    ensures no_disk_fault { result ≢ Status.DiskFault → H.disk_faults host.new ≡ H.disk_faults host.old }
{
    if is_run(words) {
        return open_and_run(alloc, host);
    }
    generate_or_refuse(alloc, words, host)
}
