// Writing a record.
ghost use Rattle.std.specs.Prelude.{◌≡◌, ◌+◌, ◌-◌, ◌^◌, ◌++◌, [], ◌∷◌, List, ℕ, min, length, OnOk, OnErr, IfOk};
ghost use Rattle.cad_host.specs.declared.host.Tape.TheVariants.{Pick};
ghost use Rattle.cad_host.specs.Disk.{output, Ran};
ghost use Rattle.cad_host.specs.Faults.{IsCaused};
ghost use Rattle.cad_tape.specs.Framing.{framed};
ghost use Rattle.cad_tape.specs.Reading.{stored, IsPlaced, IsFree, IsQuiet, pick_of, Leaves, four_calls, BreaksFour};

use cad_host::{Failed, Host, Tape};
use cad_syntax::{Bytes, Items};
use std::alloc::{AllocError, Global};

/// A record with this body: the open gate, the length of the body, the body and a closed gate behind it. So a checkpoint
/// has it whole, and an append all but its first byte.
pub fn frame(alloc: Global, body: &[u8]) -> Result<Bytes, AllocError>
    ensures { IfOk result (λ bytes. bytes ≡ 1 ∷ framed body.now) }
{
    let mut bytes = Vec::new(alloc);
    bytes.push(1)?;
    bytes.extend_from_slice(&(body.len() as u64).to_be_bytes())?;
    bytes.extend_from_slice(body)?;
    bytes.push(0)?;
    Ok(Items::from_vec(bytes))
}

/// Adds a record behind the closed gate at `at` of the tape in use, and then opens the gate: four disk calls. The bytes are
/// the length of the record's body, the body and a closed gate. Answers the place of that gate; one over 2^64-1 is taken as
/// 2^64-1. Failed only where the disk failed.
pub fn append<H: Host>(host: &mut H, tape: Tape, at: u64, bytes: &[u8]) -> Result<u64, Failed>
    requires placed { H.tells → IsPlaced (H.trace host.old) tape at }
    requires form { (body : List ℕ) × (bytes.now ≡ framed body) }

    // Where nothing was pending, a crash at any moment leaves the records from before, with the new one or without.
    ensures moments { H.tells → IsQuiet (H.trace host.old) → (body : List ℕ) → bytes.now ≡ framed body →
        Ran (H.trace host.old) (H.trace host.new)
        (Leaves (H.trace host.old) (stored (H.trace host.old)) (stored (H.trace host.old) ++ body ∷ [])) }

    // At Ok it is on the disk.
    ensures ok { IfOk result (λ next. H.tells → (body : List ℕ) → bytes.now ≡ framed body →
        IsPlaced (H.trace host.new) tape next × (stored (H.trace host.new) ≡ stored (H.trace host.old) ++ body ∷ [])) }
    ensures quiet { OnOk result (H.tells → IsQuiet (H.trace host.old) → IsQuiet (H.trace host.new)) }
    ensures order { OnOk result (H.tells →
        H.trace host.new ≡ four_calls tape (at + 1) bytes.now tape at (1 ∷ []) (H.trace host.old)) }
    ensures breaks { OnErr result (H.tells → BreaksFour tape (at + 1) bytes.now tape at (1 ∷ []) (H.trace host.old) (H.trace host.new)) }
    ensures next { IfOk result (λ next. next ≡ min (at + length bytes.now) (2 ^ 64 - 1)) }

    ensures says { H.tells → output (H.trace host.new) ≡ output (H.trace host.old) }
    ensures cause { IsCaused result (H.disk_faults host.old) (H.disk_faults host.new) }
    ensures stays { H.tells → H.left host.new ≡ H.left host.old }
    ensures input { H.input_faults host.new ≡ H.input_faults host.old }
    ensures output { H.output_faults host.new ≡ H.output_faults host.old }
{
    let next = at.saturating_add(bytes.len() as u64);
    host.write(tape, at.saturating_add(1), bytes)?;
    host.sync(tape)?;
    host.write(tape, at, &[1])?;
    host.sync(tape)?;
    Ok(next)
}

fn pick_byte(tape: Tape) -> u8
    ensures { result ≡ pick_of tape }
{
    match tape {
        Tape::A => 1,
        _ => 0,
    }
}

/// Writes one record with an open gate onto the tape that isn't in use, and then takes that tape into use: four disk calls.
/// The bytes are an open gate, the length of the record's body, the body and a closed gate. Answers the place of that gate.
/// Failed only where the disk failed.
pub fn checkpoint<H: Host>(host: &mut H, onto: Tape, bytes: &[u8]) -> Result<u64, Failed>
    requires free { H.tells → IsFree (H.trace host.old) onto }
    requires form { (body : List ℕ) × (bytes.now ≡ 1 ∷ framed body) }

    // Where nothing was pending, a crash at any moment leaves the records from before, or the new one alone.
    ensures moments { H.tells → IsQuiet (H.trace host.old) → (body : List ℕ) → bytes.now ≡ 1 ∷ framed body →
        Ran (H.trace host.old) (H.trace host.new) (Leaves (H.trace host.old) (stored (H.trace host.old)) (body ∷ [])) }

    // At Ok it is on the disk.
    ensures ok { IfOk result (λ next. H.tells → (body : List ℕ) → bytes.now ≡ 1 ∷ framed body →
        IsPlaced (H.trace host.new) onto next × (stored (H.trace host.new) ≡ body ∷ [])) }
    ensures quiet { OnOk result (H.tells → IsQuiet (H.trace host.new)) }
    ensures order { OnOk result (H.tells →
        H.trace host.new ≡ four_calls onto 0 bytes.now Pick 0 (pick_of onto ∷ []) (H.trace host.old)) }
    ensures breaks { OnErr result (H.tells → BreaksFour onto 0 bytes.now Pick 0 (pick_of onto ∷ []) (H.trace host.old) (H.trace host.new)) }
    ensures next { IfOk result (λ next. next + 1 ≡ length bytes.now) }

    ensures says { H.tells → output (H.trace host.new) ≡ output (H.trace host.old) }
    ensures cause { IsCaused result (H.disk_faults host.old) (H.disk_faults host.new) }
    ensures stays { H.tells → H.left host.new ≡ H.left host.old }
    ensures input { H.input_faults host.new ≡ H.input_faults host.old }
    ensures output { H.output_faults host.new ≡ H.output_faults host.old }
{
    let next = (bytes.len() as u64).saturating_sub(1);
    host.write(onto, 0, bytes)?;
    host.sync(onto)?;
    host.write(Tape::Pick, 0, &[pick_byte(onto)])?;
    host.sync(Tape::Pick)?;
    Ok(next)
}
