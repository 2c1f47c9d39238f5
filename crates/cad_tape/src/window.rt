// The bytes of a tape from its front on, read in pieces.
ghost use Rattle.std.specs.Prelude.{◌≡◌, ◌≢◌, ◌≤◌, ◌-◌, ◌+◌, List, ℕ, [], length, take, drop, vec_len, IfOk, IfErr, OnOk};
ghost use Rattle.cad_host.specs.Disk.{reads};
ghost use Rattle.cad_tape.specs.Code.Scanning.{IsAlong, HasEnough};
ghost use Rattle.cad_tape.specs.Stops.{Blames, Looked};

use crate::stop::ScanStop;
use cad_host::{Host, Tape};
use std::alloc::Global;

/// How many bytes are read at once, at the most.
const PIECE: u64 = 0x4_0000;

/// Bytes that were read of a tape and aren't taken yet, at their place on it. Those before `from` are taken. Nothing is read
/// from `end` on.
#[derive(Drop)]
pub struct Window {
    pub tape: Tape,
    pub bytes: Vec<u8>,
    pub from: usize,
    pub place: u64,
    pub end: u64,
    pub ghost taken: { from ≤ vec_len bytes },
    pub ghost within: { place + (vec_len bytes - from) ≤ end },
}

impl Window {
    /// Nothing was read yet.
    pub fn new(alloc: Global, tape: Tape, end: u64) -> Window
        ensures tape { result.tape ≡ tape }
        ensures unread { drop result.from result.bytes.items ≡ [] }
        ensures place { result.place ≡ 0 }
        ensures end { result.end ≡ end }
    {
        Window {
            tape,
            bytes: Vec::new(alloc),
            from: 0,
            place: 0,
            end,
        }
    }

    /// The bytes that aren't taken yet.
    pub fn unread(&self) -> &[u8]
        ensures value { result.now ≡ drop self.now.from self.now.bytes.items }
        ensures len { length result.now ≡ vec_len self.now.bytes - self.now.from }
    {
        &self.bytes[self.from..]
    }

    /// Takes bytes from the front.
    pub fn take(&mut self, n: usize)
        requires { n ≤ vec_len self.old.bytes - self.old.from }
        ensures unread { drop self.new.from self.new.bytes.items ≡ drop n (drop self.old.from self.old.bytes.items) }
        ensures place { self.new.place ≡ self.old.place + n }
        ensures end { self.new.end ≡ self.old.end }
        ensures tape { self.new.tape ≡ self.old.tape }
    {
        self.from += n;
        self.place += n as u64;
    }
}

fn read_piece<H: Host>(
    alloc: Global,
    host: &mut H,
    tape: Tape,
    at: u64,
    room: usize,
) -> Result<Vec<u8>, ScanStop>
    ensures few { IfOk result (λ piece. vec_len piece ≤ room) }
    ensures is { IfOk result (λ piece. H.tells → piece.items ≡ take room (drop at (reads (H.trace host.old) tape))) }
    ensures not_damaged { IfErr result (λ stop. stop ≢ ScanStop.Damaged) }
    ensures cause { Blames result (H.disk_faults host.old) (H.disk_faults host.new) }
    ensures story { H.tells → Looked tape result (H.trace host.old) (H.trace host.new) }
    ensures stays { H.tells → H.left host.new ≡ H.left host.old }
    ensures input { H.input_faults host.new ≡ H.input_faults host.old }
    ensures output { H.output_faults host.new ≡ H.output_faults host.old }
{
    let mut piece = vec![in alloc; 0; room]?;
    let count = host.read(tape, at, &mut piece)?;
    piece.truncate(count);
    Ok(piece)
}

/// Reads until at least `need` bytes aren't taken, or up to the end of the tape.
pub fn fill<H: Host>(
    alloc: Global,
    host: &mut H,
    window: &mut Window,
    need: usize,
) -> Result<(), ScanStop>
    ensures along { OnOk result (H.tells → (bytes : List ℕ) → bytes ≡ reads (H.trace host.old) window.old.tape
        → IsAlong bytes (drop window.old.from window.old.bytes.items) window.old.place window.old.end
        → IsAlong bytes (drop window.new.from window.new.bytes.items) window.old.place window.old.end) }
    ensures enough { OnOk result (H.tells → (bytes : List ℕ) → bytes ≡ reads (H.trace host.old) window.old.tape
        → IsAlong bytes (drop window.old.from window.old.bytes.items) window.old.place window.old.end
        → HasEnough bytes (drop window.new.from window.new.bytes.items) window.old.place need) }
    ensures not_damaged { IfErr result (λ stop. stop ≢ ScanStop.Damaged) }
    ensures tape { window.new.tape ≡ window.old.tape }
    ensures place { window.new.place ≡ window.old.place }
    ensures end { window.new.end ≡ window.old.end }
    ensures cause { Blames result (H.disk_faults host.old) (H.disk_faults host.new) }
    ensures story { H.tells → Looked window.old.tape result (H.trace host.old) (H.trace host.new) }
    ensures stays { H.tells → H.left host.new ≡ H.left host.old }
    ensures input { H.input_faults host.new ≡ H.input_faults host.old }
    ensures output { H.output_faults host.new ≡ H.output_faults host.old }
{
    if window.unread().len() >= need {
        return Ok(());
    }
    let mut bytes = Vec::from_slice(alloc, window.unread())?;
    bytes.reserve(need.saturating_add(PIECE as usize))?;
    'pieces: while bytes.len() < need {
        let at = window.place + bytes.len() as u64;
        if at >= window.end {
            break;
        }
        let room = (window.end - at).min(PIECE) as usize;
        let piece = read_piece(alloc, host, window.tape, at, room)?;
        if piece.is_empty() {
            break;
        }
        bytes.extend_from_slice(&piece)?;
    }
    window.bytes = bytes;
    window.from = 0;
    Ok(())
}
