// Calls that change a host in memory, each with its entry in the record of calls. Room is made before anything changes.
ghost use Rattle.std.specs.Prelude.{◌≡◌, ◌⊎◌, ◌≤◌, ◌<◌, ◌^◌, ◌++◌, ◌∷◌, List, ℕ, length, OnOk, OnErr, if◌then◌else◌, vec_len, vec_capacity};
ghost use Rattle.cad_host.specs.Disk.{overwritten, same_tape, reads, output, wrote, synced, broke, filled, put, put_part, took, BreaksWrite, BreaksSync, FailsTake, FailsLook};
ghost use Rattle.cad_host.specs.Record.{event_of, half_written, trace_of};
ghost use Rattle.cad_host.specs.Memory.{WritesHalf, SyncsNothing};
ghost use Rattle.cad_host.specs.Code.Tapes.{bytes_on};
ghost use Rattle.cad_host.specs.declared.host.Tape.{Tape};

use crate::Tape;
use crate::call::Call;
use crate::tapes::Tapes;
use std::alloc::{AllocError, Global};

/// Adds a call to the record. It fails only where there is no room and no memory for more.
#[tactic(auto, using(crate::proofs::Recorded::trace_push))]
fn push(calls: &mut Vec<Call>, call: Call) -> Result<(), AllocError>
    ensures ok { OnOk result (trace_of calls.new.items ≡ event_of call (trace_of calls.old.items) ∷ trace_of calls.old.items) }
    ensures err { OnErr result (trace_of calls.new.items ≡ trace_of calls.old.items) }
    ensures full { OnErr result (vec_capacity calls.old ≤ vec_len calls.old) }
{
    Ok(calls.push(call)?)
}

/// Writes to a tape, and records it.
pub fn write(
    alloc: Global,
    calls: &mut Vec<Call>,
    tapes: &mut Tapes,
    tape: Tape,
    at: u64,
    bytes: &[u8],
) -> Result<(), AllocError>
    requires { at ≤ length (bytes_on tapes.old tape) }
    ensures trace { OnOk result (trace_of calls.new.items ≡ wrote tape at bytes.now ∷ trace_of calls.old.items) }
    ensures tapes { OnOk result ((t : Tape) → bytes_on tapes.new t
        ≡ (if same_tape tape t then overwritten (bytes_on tapes.old tape) at bytes.now else bytes_on tapes.old t)) }
    ensures fits { length (bytes_on tapes.new tape) < 2 ^ 64 }
    ensures err_trace { OnErr result (trace_of calls.new.items ≡ trace_of calls.old.items) }
    ensures err_tapes { OnErr result ((t : Tape) → bytes_on tapes.new t ≡ bytes_on tapes.old t) }
{
    let call = Call::Wrote(tape, at, bytes.to_vec(alloc)?);
    calls.reserve(1)?;
    tapes.overwrite(tape, at as usize, bytes)?;
    push(calls, call)
}

fn try_break_write(
    alloc: Global,
    calls: &mut Vec<Call>,
    tapes: &mut Tapes,
    tape: Tape,
    at: u64,
    bytes: &[u8],
) -> Result<(), AllocError>
    requires place { at ≤ length (bytes_on tapes.old tape) }
    requires reads { bytes_on tapes.old tape ≡ reads (trace_of calls.old.items) tape }
    ensures trace { OnOk result (trace_of calls.new.items
        ≡ broke tape at (length bytes.now) (half_written (reads (trace_of calls.old.items) tape) at bytes.now) ∷ trace_of calls.old.items) }
    ensures tapes { OnOk result ((t : Tape) → bytes_on tapes.new t
        ≡ (if same_tape tape t then half_written (bytes_on tapes.old tape) at bytes.now else bytes_on tapes.old t)) }
    ensures err_trace { OnErr result (trace_of calls.new.items ≡ trace_of calls.old.items) }
    ensures err_tapes { OnErr result ((t : Tape) → bytes_on tapes.new t ≡ bytes_on tapes.old t) }
{
    let call = Call::BrokeWrite(tape, at, bytes.to_vec(alloc)?);
    calls.reserve(1)?;
    tapes.overwrite(tape, at as usize, &bytes[..bytes.len() / 2])?;
    push(calls, call)
}

/// Writes the first half of the bytes to a tape, and records a write that failed; or nothing, where no memory is found.
pub fn break_write(
    alloc: Global,
    calls: &mut Vec<Call>,
    tapes: &mut Tapes,
    tape: Tape,
    at: u64,
    bytes: &[u8],
)
    requires place { at ≤ length (bytes_on tapes.old tape) }
    requires reads { (t : Tape) → bytes_on tapes.old t ≡ reads (trace_of calls.old.items) t }
    ensures half { WritesHalf tape at bytes.now (trace_of calls.old.items) (trace_of calls.new.items) }
    ensures breaks { BreaksWrite tape at bytes.now (trace_of calls.old.items) (trace_of calls.new.items) }
    ensures reads { (t : Tape) → bytes_on tapes.new t ≡ reads (trace_of calls.new.items) t }
    ensures output { output (trace_of calls.new.items) ≡ output (trace_of calls.old.items) }
{
    match try_break_write(alloc, calls, tapes, tape, at, bytes) {
        Ok(()) => {}
        Err(_) => {}
    }
}

/// Records a sync that failed, or nothing, where no memory is found.
pub fn break_sync(calls: &mut Vec<Call>, tape: Tape)
    ensures nothing { SyncsNothing tape (trace_of calls.old.items) (trace_of calls.new.items) }
    ensures breaks { BreaksSync tape (trace_of calls.old.items) (trace_of calls.new.items) }
    ensures reads { (t : Tape) → reads (trace_of calls.new.items) t ≡ reads (trace_of calls.old.items) t }
    ensures output { output (trace_of calls.new.items) ≡ output (trace_of calls.old.items) }
{
    match push(calls, Call::BrokeSync(tape)) {
        Ok(()) => {}
        Err(_) => {}
    }
}

/// Records a take that failed, or nothing, where no memory is found.
pub fn fail_take(calls: &mut Vec<Call>)
    ensures fails { FailsTake (trace_of calls.old.items) (trace_of calls.new.items) }
    ensures reads { (t : Tape) → reads (trace_of calls.new.items) t ≡ reads (trace_of calls.old.items) t }
    ensures output { output (trace_of calls.new.items) ≡ output (trace_of calls.old.items) }
{
    match push(calls, Call::TakeFailed) {
        Ok(()) => {}
        Err(_) => {}
    }
}

/// Records a look at a tape that failed, or nothing, where no memory is found.
pub fn fail_look(calls: &mut Vec<Call>, tape: Tape)
    ensures fails { FailsLook tape (trace_of calls.old.items) (trace_of calls.new.items) }
    ensures reads { (t : Tape) → reads (trace_of calls.new.items) t ≡ reads (trace_of calls.old.items) t }
    ensures output { output (trace_of calls.new.items) ≡ output (trace_of calls.old.items) }
{
    match push(calls, Call::LookFailed(tape)) {
        Ok(()) => {}
        Err(_) => {}
    }
}

/// Records a take of these bytes.
pub fn took(alloc: Global, calls: &mut Vec<Call>, bytes: &[u8]) -> Result<(), AllocError>
    ensures trace { OnOk result (trace_of calls.new.items ≡ took bytes.now ∷ trace_of calls.old.items) }
    ensures err_trace { OnErr result (trace_of calls.new.items ≡ trace_of calls.old.items) }
{
    push(calls, Call::Took(bytes.to_vec(alloc)?))
}

/// Records a sync.
pub fn sync(calls: &mut Vec<Call>, tape: Tape) -> Result<(), AllocError>
    ensures trace { OnOk result (trace_of calls.new.items ≡ synced tape ∷ trace_of calls.old.items) }
    ensures err_trace { OnErr result (trace_of calls.new.items ≡ trace_of calls.old.items) }
{
    push(calls, Call::Synced(tape))
}

/// Sets what a tape reads, and records it.
pub fn fill(
    alloc: Global,
    calls: &mut Vec<Call>,
    tapes: &mut Tapes,
    tape: Tape,
    bytes: &[u8],
) -> Result<(), AllocError>
    ensures trace { OnOk result (trace_of calls.new.items ≡ filled tape bytes.now ∷ trace_of calls.old.items) }
    ensures tapes { OnOk result ((t : Tape) → bytes_on tapes.new t ≡ (if same_tape tape t then bytes.now else bytes_on tapes.old t)) }
    ensures err_trace { OnErr result (trace_of calls.new.items ≡ trace_of calls.old.items) }
    ensures err_tapes { OnErr result ((t : Tape) → bytes_on tapes.new t ≡ bytes_on tapes.old t) }
{
    let held = bytes.to_vec(alloc)?;
    push(calls, Call::Filled(tape, bytes.to_vec(alloc)?))?;
    tapes.replace(tape, held);
    Ok(())
}

/// Appends to the output, and records it as a put, or as one that failed.
pub fn put(
    alloc: Global,
    calls: &mut Vec<Call>,
    written: &mut Vec<u8>,
    bytes: &[u8],
    fails: bool,
) -> Result<(), AllocError>
    ensures trace { OnOk result (trace_of calls.new.items ≡ (if fails then put_part bytes.now else put bytes.now) ∷ trace_of calls.old.items) }
    ensures written { OnOk result (written.new.items ≡ written.old.items ++ bytes.now) }
    ensures err_trace { OnErr result (trace_of calls.new.items ≡ trace_of calls.old.items) }
    ensures err_written { OnErr result (written.new.items ≡ written.old.items) }
{
    let held = bytes.to_vec(alloc)?;
    let call = if fails {
        Call::PutPart(held)
    } else {
        Call::Put(held)
    };
    calls.reserve(1)?;
    written.extend_from_slice(bytes)?;
    push(calls, call)
}
