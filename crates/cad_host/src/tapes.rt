// Three tapes as plain vectors.
ghost use Rattle.std.specs.Prelude.{◌≡◌, ◌≤◌, ◌<◌, ◌-◌, ◌^◌, ◌++◌, [], List, ℕ, length, take, drop, min, IfOk, OnOk, OnErr, if◌then◌else◌};
ghost use Rattle.cad_host.specs.Disk.{overwritten, same_tape};
ghost use Rattle.cad_host.specs.declared.host.Tape.{Tape};

use crate::Tape;
use std::alloc::{AllocError, Global};

#[derive(Drop)]
pub struct Tapes {
    a: Vec<u8>,
    b: Vec<u8>,
    pick: Vec<u8>,
}

impl Tapes {
    ghost use Rattle.cad_host.specs.Code.Tapes.{bytes_on};

    /// Three empty tapes.
    pub fn new(alloc: Global) -> Self
        ensures { (t : Tape) → bytes_on result t ≡ [] }
    {
        Tapes {
            a: Vec::new(alloc),
            b: Vec::new(alloc),
            pick: Vec::new(alloc),
        }
    }

    pub fn bytes(&self, tape: Tape) -> &[u8]
        ensures { result.now ≡ bytes_on self.now tape }
    {
        match tape {
            Tape::A => &self.a,
            Tape::B => &self.b,
            Tape::Pick => &self.pick,
        }
    }

    /// Puts the bytes at `at`, over what is there and past the end.
    pub fn overwrite(&mut self, tape: Tape, at: usize, bytes: &[u8]) -> Result<(), AllocError>
        requires { at ≤ length (bytes_on self.old tape) }
        ensures ok { OnOk result ((t : Tape) → bytes_on self.new t
            ≡ (if same_tape tape t then overwritten (bytes_on self.old tape) at bytes.now else bytes_on self.old t)) }
        ensures err { OnErr result ((t : Tape) → bytes_on self.new t ≡ bytes_on self.old t) }
        ensures fits { length (bytes_on self.new tape) < 2 ^ 64 }
    {
        match tape {
            Tape::A => overwrite(&mut self.a, at, bytes),
            Tape::B => overwrite(&mut self.b, at, bytes),
            Tape::Pick => overwrite(&mut self.pick, at, bytes),
        }
    }

    /// Sets what a tape holds.
    pub fn replace(&mut self, tape: Tape, bytes: Vec<u8>)
        ensures { (t : Tape) → bytes_on self.new t ≡ (if same_tape tape t then bytes.items else bytes_on self.old t) }
    {
        match tape {
            Tape::A => self.a = bytes,
            Tape::B => self.b = bytes,
            Tape::Pick => self.pick = bytes,
        }
    }
}

/// Puts the bytes at `at` in place. The cost is that of the bytes, and not of what is held.
pub fn overwrite(held: &mut Vec<u8>, at: usize, bytes: &[u8]) -> Result<(), AllocError>
    requires { at ≤ length held.old.items }
    ensures ok { OnOk result (held.new.items ≡ overwritten held.old.items at bytes.now) }
    ensures err { OnErr result (held.new.items ≡ held.old.items) }
    ensures fits { length held.new.items < 2 ^ 64 }
{
    let over = bytes.len().min(held.len() - at);
    held.extend_from_slice(&bytes[over..])?;
    held[at..at + over].copy_from_slice(&bytes[..over]);
    Ok(())
}

/// Copies the bytes from `at` on, as many as there are and as there is room for.
pub fn read_at(bytes: &[u8], at: usize, into: &mut [u8]) -> usize
    ensures count { result ≡ min (length into.old) (length bytes.now - at) }
    ensures bytes { into.new ≡ take result (drop at bytes.now) ++ drop result into.old }
{
    if at >= bytes.len() {
        return 0;
    }
    let rest = &bytes[at..];
    let count = rest.len().min(into.len());
    into[..count].copy_from_slice(&rest[..count]);
    count
}
