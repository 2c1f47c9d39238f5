// A part of the registers in memory.
ghost use Rattle.std.specs.Prelude.{◌≡◌, true};
ghost use Rattle.cad_accounts.specs.Registers.{are_rising};
ghost use Rattle.cad_accounts.specs.Code.Places.{IsPlace};
ghost use Rattle.cad_accounts.specs.KeyOrder.{row_key};

use crate::row::Row;
use cad_wire::Key;
use std::alloc::{AllocError, Global};
use std::cmp::Ordering;

// The place of a key's row, or where it belongs, by halving.
fn search(rows: &[Row], key: &[u8]) -> Result<usize, usize>
    requires { are_rising rows.now ≡ true }
    ensures { IsPlace row_key key.now rows.now result }
{
    rows.binary_search_by(|row| row.key.0.as_slice().cmp(key))
}

// The place of a key's row, or where it belongs. The last row is looked at before others, since rows are mostly added behind
// it.
fn place_of(rows: &[Row], key: &[u8]) -> Result<usize, usize>
    requires { are_rising rows.now ≡ true }
    ensures { IsPlace row_key key.now rows.now result }
{
    let count = rows.len();
    if count == 0 {
        return Err(0);
    }
    match rows[count - 1].key.0.as_slice().cmp(key) {
        Ordering::Less => Err(count),
        Ordering::Equal => Ok(count - 1),
        Ordering::Greater => search(rows, key),
    }
}

/// Registers that stand one behind the other, from a key on.
#[derive(Debug, Drop)]
pub struct Block {
    pub(crate) from: Key,
    pub(crate) rows: Vec<Row>,
    ghost ascending: { are_rising rows.items ≡ true },
}

impl Block {
    ghost use Rattle.std.specs.Prelude.{◌≡◌, ◌+◌, ◌<◌, ◌≤◌, [], length, take, drop, slice_set, slice_index_or, option_map, IfOk, OnOk, OnErr};
    ghost use Rattle.std.specs.List.{insert, remove};
    ghost use Rattle.cad_accounts.specs.Registers.{at};
    ghost use Rattle.cad_accounts.specs.Memory.{block_rows, spare};
    ghost use Rattle.cad_accounts.specs.Code.Blocks.{block_from, Cuts};
    ghost use Rattle.cad_accounts.specs.Code.Places.{BelongsAt, StandsAt};
    ghost use Rattle.cad_accounts.specs.KeyOrder.{before};

    /// A block without rows. It takes no memory.
    pub(crate) fn new(alloc: Global, from: Key) -> Block
        ensures from { block_from result ≡ from.0 }
        ensures rows { block_rows result ≡ [] }
    {
        Block {
            from,
            rows: Vec::new(alloc),
        }
    }

    /// Its registers, in byte order of their keys.
    pub fn rows(&self) -> &[Row]
        ensures rows { result.now ≡ block_rows self.now }
        ensures rising { are_rising (block_rows self.now) ≡ true }
    {
        self.rows.as_slice()
    }

    /// The place of a key's row, or where it belongs.
    pub(crate) fn find(&self, key: &[u8]) -> Result<usize, usize>
        ensures { IsPlace row_key key.now (block_rows self.now) result }
    {
        place_of(self.rows.as_slice(), key)
    }

    /// The bytes of a register, None exactly where it isn't there.
    pub(crate) fn get(&self, key: &[u8]) -> Option<&[u8]>
        ensures { option_map (λ bytes. bytes.now) result ≡ at (block_rows self.entry.now) key.now }
    {
        match self.find(key) {
            Ok(i) => Some(self.rows[i].value.as_slice()),
            Err(_) => None,
        }
    }

    /// Whether it begins before a key.
    pub(crate) fn begins_before(&self, key: &[u8]) -> bool
        ensures { result ≡ before (block_from self.now) key.now }
    {
        self.from.0.as_slice().cmp(key).is_lt()
    }

    /// How many of its rows stand before a key.
    pub(crate) fn cut_at(&self, key: &[u8]) -> usize
        ensures { Cuts key.now (block_rows self.now) result }
    {
        match self.find(key) {
            Ok(i) => i,
            Err(i) => i,
        }
    }

    /// Puts a row where it belongs. It takes no memory.
    pub(crate) fn insert(&mut self, i: usize, row: Row)
        requires fitting { BelongsAt row_key row.key.0 (block_rows self.old) i }
        requires room { 1 ≤ spare self.old }
        ensures from { block_from self.new ≡ block_from self.old }
        ensures rows { block_rows self.new ≡ insert (block_rows self.old) i row }
        ensures room { spare self.old ≤ spare self.new + 1 }
    {
        let _ = self.rows.insert(i, row);
    }

    /// Puts a row in the place of one with the same key, which it answers.
    pub(crate) fn replace(&mut self, i: usize, row: Row) -> Row
        requires { StandsAt row_key row.key.0 (block_rows self.old) i }
        ensures was { result ≡ slice_index_or (block_rows self.old) i result }
        ensures from { block_from self.new ≡ block_from self.old }
        ensures rows { block_rows self.new ≡ slice_set (block_rows self.old) i row }
        ensures room { spare self.old ≤ spare self.new }
    {
        std::mem::replace(&mut self.rows[i], row)
    }

    /// Takes a row out.
    pub(crate) fn remove(&mut self, i: usize) -> Row
        requires { i < length (block_rows self.old) }
        ensures was { result ≡ slice_index_or (block_rows self.old) i result }
        ensures from { block_from self.new ≡ block_from self.old }
        ensures rows { block_rows self.new ≡ remove (block_rows self.old) i }
        ensures room { spare self.old ≤ spare self.new }
    {
        self.rows.remove(i)
    }

    /// Takes the rows from a place on into a block of their own, which begins at this key. After want of memory it is as it was.
    pub(crate) fn split(&mut self, i: usize, from: Key) -> Result<Block, AllocError>
        requires { i ≤ length (block_rows self.old) }
        ensures from { block_from self.new ≡ block_from self.old }
        ensures front { OnOk result (block_rows self.new ≡ take i (block_rows self.old)) }
        ensures start { IfOk result (λ b. block_from b ≡ from.0) }
        ensures back { IfOk result (λ b. block_rows b ≡ drop i (block_rows self.old)) }
        ensures err { OnErr result (block_rows self.new ≡ block_rows self.old) }
        ensures room { OnOk result (spare self.old ≤ spare self.new) }
    {
        let rows = self.rows.split_off(i)?;
        Ok(Block { from, rows })
    }

    /// Makes room for so many rows. AllocError where memory runs out.
    pub(crate) fn reserve(&mut self, more: usize) -> Result<(), AllocError>
        ensures from { block_from self.new ≡ block_from self.old }
        ensures rows { block_rows self.new ≡ block_rows self.old }
        ensures ok { OnOk result (more ≤ spare self.new) }
        ensures room { spare self.old ≤ spare self.new }
    {
        self.rows.reserve(more)
    }
}
