// A store of registers, and changes that are ready for it.
ghost use Rattle.std.specs.Prelude.{◌≡◌, ◌+◌, ◌-◌, ◌<◌, ◌≤◌, ◌^◌, ◌↔◌, min, ◌∷◌, List, ℕ, true, IsTrue, IfSome, IfOk, OnOk, Err};
ghost use Rattle.cad_host.specs.Disk.{Event};
ghost use Rattle.cad_wire.specs.Body.{body_bytes, FewEnough};
ghost use Rattle.cad_tape.specs.Framing.{framed};
ghost use Rattle.cad_accounts.specs.declared.row.Row.{Row};
ghost use Rattle.cad_accounts.specs.Memory.{rows_in_blocks};
ghost use Rattle.cad_accounts.specs.Registers.{Map, at, applied, are_rising, size_of, Leads};
ghost use Rattle.cad_store.specs.Code.Sizes.{added, replaced};
ghost use Rattle.cad_store.specs.Stores.{rows_in, held, room_of, IsOn, IsOut};

use crate::place::Place;
use crate::sizes::{size_added, size_replaced};
use crate::stops::ReadyStop;
use cad_accounts::{Block, Changes, MapRegisters, Registers};
use cad_syntax::Bytes;
use cad_tape::frame;
use cad_wire::{Entry, Key, write_entries};
use std::alloc::{AllocError, Global};

/// Registers in memory as three tapes hold them.
#[derive(Drop)]
pub struct Store {
    pub(crate) registers: MapRegisters,
    pub(crate) place: Place,
    pub(crate) room: u64,
    pub(crate) alloc: Global,
}

/// Changes that are built as a record. It is spent by `commit` or `discard`.
pub struct Commit {
    pub(crate) changes: Changes,
    pub(crate) bytes: Bytes,
}

impl Registers for Store {
    ghost rows = { rows_in };

    ghost rising = { λ it. it.registers.ascending };

    fn get(&self, key: &Key) -> Option<&[u8]> {
        self.registers.get(key)
    }
}

fn built(alloc: Global, changes: &[Entry]) -> Result<Bytes, AllocError>
    ensures bytes { IfOk result (λ bytes. bytes ≡ 1 ∷ framed (body_bytes changes.now)) }
    ensures few { OnOk result (FewEnough changes.now) }
{
    let body = write_entries(alloc, changes)?;
    frame(alloc, body.as_slice())
}

impl Store {
    /// The registers in blocks, in byte order of their keys.
    pub fn blocks(&self) -> &[Block]
        ensures rows { rows_in_blocks result.now ≡ rows_in self.now }
        ensures rising { are_rising (rows_in_blocks result.now) ≡ true }
    {
        self.registers.blocks()
    }

    /// How many bytes a record of all registers has, with the gate behind it: at most 2^64-1 are told.
    pub fn size(&self) -> u64
        ensures { result ≡ min (size_of (rows_in self.now)) (2 ^ 64 - 1) }
    {
        self.registers.size()
    }

    // Whether the registers with these changes are within the room; None where their size is over 2^64-1.
    fn has_room(&self, changes: &[Entry]) -> Option<bool>
        ensures { IfSome result (λ b. IsTrue b ↔
            (size_of (rows_in self.now) + added changes.now ≤ room_of self.now + replaced (held self.now) changes.now)) }
    {
        let size = self.registers.size();
        if size == u64::MAX {
            return None;
        }
        let grown = size.checked_add(size_added(changes)?)?;
        let most = self
            .room
            .checked_add(size_replaced(&self.registers, changes)?)?;
        Some(grown <= most)
    }

    /// Builds the record of these changes, and reserves memory for them, so that `commit` takes none. Full exactly where the
    /// registers that they lead to have a size over the store's room. Memory where memory runs out; where the changes, or a key
    /// or value of them, are 2^32 or more; and where a size is over 2^64-1. Nothing changes in the store, whatever it answers.
    pub fn ready(&mut self, changes: Changes) -> Result<Commit, ReadyStop>
        requires { (new : Map) × Leads (held self.old) new changes }
        ensures commit { IfOk result (λ commit. IsOut self.new commit changes) }
        ensures full { result ≡ Err ReadyStop.Full → (rows : List Row) → are_rising rows ≡ true
            → ((key : List ℕ) → at rows key ≡ applied changes (held self.old) key) → room_of self.old < size_of rows }
        ensures fits { OnOk result ((rows : List Row) → are_rising rows ≡ true
            → ((key : List ℕ) → at rows key ≡ applied changes (held self.old) key) → size_of rows ≤ room_of self.old) }
        ensures held { held self.new ≡ held self.old }
        ensures room { room_of self.new ≡ room_of self.old }
        ensures on { (m : List Event) → IsOn m self.old → IsOn m self.new }
    {
        match self.has_room(changes.as_slice()) {
            None => return Err(ReadyStop::Memory),
            Some(false) => return Err(ReadyStop::Full),
            Some(true) => {}
        }
        let Ok(bytes) = built(self.alloc, changes.as_slice()) else {
            return Err(ReadyStop::Memory);
        };
        match self.registers.reserve(changes.as_slice()) {
            Ok(()) => Ok(Commit { changes, bytes }),
            Err(_) => Err(ReadyStop::Memory),
        }
    }

    /// Ends a commit that isn't wanted. The store is as it was.
    pub fn discard(&mut self, commit: Commit)
        ensures { self.new ≡ self.old }
    {
        let Commit {
            changes: _changes,
            bytes: _bytes,
        } = commit;
    }
}
