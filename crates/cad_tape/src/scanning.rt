// Reading a tape.
ghost use Rattle.std.specs.Prelude.{◌≡◌, ◌<◌, ◌≤◌, ◌-◌, ◌+◌, ◌^◌, List, ℕ, Some, None, length, drop, vec_len, MatchResult, IfOk, IfSome};
ghost use Rattle.cad_host.specs.Disk.{reads};
ghost use Rattle.cad_wire.specs.Fields.{AreBytes};
ghost use Rattle.cad_tape.specs.Framing.{framing, Ends};
ghost use Rattle.cad_tape.specs.Reading.{tape_reading, ending, or_none};
ghost use Rattle.cad_tape.specs.Code.Scanning.{IsAlong, header_at, Takes};
ghost use Rattle.cad_tape.specs.Stops.{Blames, Looked};

use crate::stop::ScanStop;
use crate::window::{Window, fill};
use cad_host::{Host, Tape};
use cad_syntax::Items;
use cad_wire::{Entries, Reader, Short, read_entries};
use std::alloc::Global;

/// The entries of each record of a tape, in their order, and the place of the gate that ends them: 0 on an empty tape.
#[derive(Debug, Drop, PartialEq, Eq)]
pub struct Records {
    pub records: Items<Entries>,
    pub ending: u64,
}

/// A record's gate and the length of its body.
const HEADER: usize = 9;

fn header(bytes: &[u8]) -> Result<Option<u64>, Short>
    ensures value { MatchResult result (λ length. header_at bytes.now ≡ Some length) (λ _. header_at bytes.now ≡ None) }
    ensures are_bytes { AreBytes bytes.now }
{
    match bytes {
        [] => Err(Short),
        [1, rest @ ..] => Ok(Some(Reader::new(rest).number()?)),
        _ => Ok(None),
    }
}

/// Takes the record at the front; None where its gate is closed.
fn next_record<H: Host>(
    alloc: Global,
    host: &mut H,
    window: &mut Window,
) -> Result<Option<Entries>, ScanStop>
    ensures is { H.tells → (bytes : List ℕ) → bytes ≡ reads (H.trace host.old) window.old.tape
        → IsAlong bytes (drop window.old.from window.old.bytes.items) window.old.place window.old.end
        → Takes result bytes window.old.place window.new.place }
    ensures along { IfOk result (λ _. H.tells → (bytes : List ℕ) → bytes ≡ reads (H.trace host.old) window.old.tape
        → IsAlong bytes (drop window.old.from window.old.bytes.items) window.old.place window.old.end
        → IsAlong bytes (drop window.new.from window.new.bytes.items) window.new.place window.new.end) }
    ensures further { IfOk result (λ taken. IfSome taken (λ _. window.old.place < window.new.place)) }
    ensures tape { window.new.tape ≡ window.old.tape }
    ensures end { window.new.end ≡ window.old.end }
    ensures cause { Blames result (H.disk_faults host.old) (H.disk_faults host.new) }
    ensures story { H.tells → Looked window.old.tape result (H.trace host.old) (H.trace host.new) }
    ensures stays { H.tells → H.left host.new ≡ H.left host.old }
    ensures input { H.input_faults host.new ≡ H.input_faults host.old }
    ensures output { H.output_faults host.new ≡ H.output_faults host.old }
{
    fill(alloc, host, window, HEADER)?;
    let Ok(gate) = header(window.unread()) else {
        return Err(ScanStop::Damaged);
    };
    let Some(length) = gate else {
        return Ok(None);
    };
    if length > (window.end - window.place).saturating_sub(HEADER as u64) {
        return Err(ScanStop::Damaged);
    }
    let need = HEADER + length as usize;
    fill(alloc, host, window, need)?;
    if window.unread().len() < need {
        return Err(ScanStop::Damaged);
    }
    let entries = read_entries(alloc, &window.unread()[HEADER..need])?;
    window.take(need);
    Ok(Some(entries))
}

/// Reads a tape: its length first, and then at most as many bytes. Failed only where the disk failed. Damaged exactly where
/// the tape's bytes aren't those of records, or no gate ends them.
pub fn scan<H: Host>(alloc: Global, host: &mut H, tape: Tape) -> Result<Records, ScanStop>
    ensures records { H.tells → IfOk result (λ r. tape_reading (reads (H.trace host.old) tape) ≡ Some r.records) }
    ensures ending { H.tells → IfOk result (λ r. r.ending ≡ ending (reads (H.trace host.old) tape)) }
    // A run can begin behind them.
    ensures ends { H.tells → IfOk result (λ r. 0 < length (reads (H.trace host.old) tape)
        → Ends (reads (H.trace host.old) tape) (or_none (framing (reads (H.trace host.old) tape))) r.ending) }
    ensures fits { H.tells → IfOk result (λ _. length (reads (H.trace host.old) tape) < 2 ^ 64) }

    ensures damaged { H.tells → result ≡ Err ScanStop.Damaged → tape_reading (reads (H.trace host.old) tape) ≡ None }
    ensures cause { Blames result (H.disk_faults host.old) (H.disk_faults host.new) }
    ensures story { H.tells → Looked tape result (H.trace host.old) (H.trace host.new) }
    ensures stays { H.tells → H.left host.new ≡ H.left host.old }
    ensures input { H.input_faults host.new ≡ H.input_faults host.old }
    ensures output { H.output_faults host.new ≡ H.output_faults host.old }
{
    let end = host.length(tape)?;
    let mut records = Items::new(alloc);
    if end == 0 {
        return Ok(Records { records, ending: 0 });
    }
    let mut window = Window::new(alloc, tape, end);
    'records: while let Some(entries) = next_record(alloc, host, &mut window)? {
        records.push(entries)?;
    }
    Ok(Records {
        records,
        ending: window.place,
    })
}
