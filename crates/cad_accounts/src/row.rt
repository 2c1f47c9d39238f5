// A register, and changes of registers.
use cad_syntax::Bytes;
use cad_wire::{Entries, Key};

/// A register that is there: its key and its bytes.
#[derive(Debug, Drop, PartialEq, Eq)]
pub struct Row {
    pub key: Key,
    pub value: Bytes,
}

/// The registers that differ, in byte order of their keys, each with its new bytes or None where it was removed.
pub type Changes = Entries;
