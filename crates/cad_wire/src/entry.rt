// Entries of a record.
use cad_syntax::{Bytes, Items};

/// The key of a register.
#[derive(Debug, Drop, PartialEq, Eq)]
pub struct Key(pub Bytes);

/// A register's new value, or None where it is removed.
#[derive(Debug, Drop, PartialEq, Eq)]
pub struct Entry {
    pub key: Key,
    pub value: Option<Bytes>,
}

pub type Entries = Items<Entry>;
