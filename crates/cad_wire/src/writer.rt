// Writing fields.
ghost use Rattle.std.specs.Prelude.{◌≡◌, ◌<◌, ◌^◌, ◌++◌, [], ◌∷◌, length, OnOk, OnErr};
ghost use Rattle.cad_wire.specs.Fields.{number_field, length_field, bytes_field};

use cad_syntax::{Bytes, Items};
use std::alloc::{AllocError, Global};
use std::marker::Model;

/// Bytes that are written field by field, which contracts see as the list of those so far. After want of memory it is
/// as it was.
#[derive(Debug, Drop)]
pub struct Writer {
    written: Vec<u8>,
}

impl Model for Writer {
    ghost use Rattle.std.specs.Prelude.{List, ℕ};

    ghost Value = { List ℕ };

    ghost view = { λ w. w.written.items };
}

impl Writer {
    /// Nothing is written yet. It takes no memory.
    pub fn new(alloc: Global) -> Writer
        ensures { result ≡ [] }
    {
        Writer {
            written: Vec::new(alloc),
        }
    }

    /// Appends a byte.
    pub fn byte(&mut self, b: u8) -> Result<(), AllocError>
        ensures ok { OnOk result (self.new ≡ self.old ++ b ∷ []) }
        ensures err { OnErr result (self.new ≡ self.old) }
    {
        self.written.push(b)?;
        Ok(())
    }

    /// Appends a number: 8 bytes, the highest first.
    pub fn number(&mut self, n: u64) -> Result<(), AllocError>
        ensures ok { OnOk result (self.new ≡ self.old ++ number_field n) }
        ensures err { OnErr result (self.new ≡ self.old) }
    {
        self.written.extend_from_slice(&n.to_be_bytes())
    }

    /// Appends a list's length: 4 bytes, the highest first.
    pub fn length(&mut self, n: u32) -> Result<(), AllocError>
        ensures ok { OnOk result (self.new ≡ self.old ++ length_field n) }
        ensures err { OnErr result (self.new ≡ self.old) }
    {
        self.written.extend_from_slice(&n.to_be_bytes())
    }

    /// Appends a byte string: its length and its bytes.
    pub fn bytes(&mut self, b: &[u8]) -> Result<(), AllocError>
        requires { length b.now < 2 ^ 32 }
        ensures ok { OnOk result (self.new ≡ self.old ++ bytes_field b.now) }
        ensures err { OnErr result (self.new ≡ self.old) }
    {
        let length = (b.len() as u32).to_be_bytes();
        self.written.reserve(length.len().saturating_add(b.len()))?;
        self.written.extend_from_slice(&length)?;
        self.written.extend_from_slice(b)
    }

    /// What was written.
    pub fn finish(self) -> Bytes
        ensures { result ≡ self }
    {
        let Writer { written } = self;
        Items::from_vec(written)
    }
}
