// Registers in memory, and the interface to any.
ghost use Rattle.std.specs.Prelude.{◌≡◌, ◌⊎◌, ◌==◌, if◌then◌else◌, IfOk, IfSome, ◌+◌, ◌<◌, ◌≤◌, ◌^◌, ◌-◌, min, [], ◌∷◌, List, ℕ, true, length, option_map, sum_by, OnOk, OnErr, Some, IsTrue, ◌↔◌};
ghost use Rattle.cad_wire.specs.declared.entry.Entry.{Entry};
ghost use Rattle.cad_wire.specs.Body.{Fits, are_ascending};
ghost use Rattle.cad_accounts.specs.declared.row.Row.{Row};
ghost use Rattle.cad_accounts.specs.Registers.{at, are_rising, changed, size_of};
ghost use Rattle.cad_accounts.specs.Memory.{rows_in_blocks, block_at};
ghost use Rattle.cad_accounts.specs.Code.Blocks.{block_from, are_parted, are_whole};
ghost use Rattle.cad_accounts.specs.Code.Rows.{row_size, are_short, is_short};
ghost use Rattle.cad_accounts.specs.Code.Places.{IsPlace};
ghost use Rattle.cad_accounts.specs.KeyOrder.{row_key, before, rise};

use crate::block::Block;
use crate::row::Row;
use cad_syntax::{Bytes, Items};
use cad_wire::{Entry, Key};
use std::alloc::{AllocError, Global};
use std::cmp::Ordering;

// A block with this many rows is split where more come.
const FULL: usize = 512;

// A block to which is appended ends with this many, so that some of them can be changed without more memory.
const ENOUGH: usize = 480;

/// A finite map from keys to bytes, with its keys in byte order.
pub trait Registers {
    /// The registers that are there.
    ghost rows: { Self → List Row };

    /// They are in byte order, each key once.
    ghost rising: { (it : Self) → are_rising (rows it) ≡ true };

    /// The bytes of a register, None exactly where it isn't there.
    fn get(&self, key: &Key) -> Option<&[u8]>
        ensures { option_map (λ bytes. bytes.now) result ≡ at (rows self.entry.now) key.now.0 };
}

// Where a block begins at a key, or where one would belong, by halving.
fn search(blocks: &[Block], key: &[u8]) -> Result<usize, usize>
    requires { rise block_from blocks.now ≡ true }
    ensures { IsPlace block_from key.now blocks.now result }
{
    blocks.binary_search_by(|block| block.from.0.as_slice().cmp(key))
}

// Where a block begins at a key, or where one would belong. The last block is looked at before others.
fn place_of(blocks: &[Block], key: &[u8]) -> Result<usize, usize>
    requires { rise block_from blocks.now ≡ true }
    ensures { IsPlace block_from key.now blocks.now result }
{
    let count = blocks.len();
    if count == 0 {
        return Err(0);
    }
    match blocks[count - 1].from.0.as_slice().cmp(key) {
        Ordering::Less => Err(count),
        Ordering::Equal => Ok(count - 1),
        Ordering::Greater => search(blocks, key),
    }
}

// The index of the block that a key falls to.
fn block_of(blocks: &[Block], key: &[u8]) -> usize
    requires { rise block_from blocks.now ≡ true }
    ensures { result ≡ block_at blocks.now key.now }
{
    match place_of(blocks, key) {
        Ok(i) => i,
        Err(i) => i.saturating_sub(1),
    }
}

// The key at which a block with these rows is split for a key, where it is full: the key itself, where it stands behind all rows
// and they are enough; and else the middle one, where it stands behind the last key that was taken.
fn seam_in<'a>(rows: &'a [Row], last: &[u8], key: &'a Key, promised: usize) -> Option<&'a Key>
    ensures { IfSome result (λ seam. (before last.now seam.now.0 ≡ true) ⊎ (seam.now.0 ≡ key.now.0)) }
{
    let count = rows.len();
    if count < ENOUGH && promised < FULL {
        return None;
    }
    if count == 0
        || rows[count - 1]
            .key
            .0
            .as_slice()
            .cmp(key.0.as_slice())
            .is_lt()
    {
        return Some(key);
    }
    if count < FULL && promised < FULL {
        return None;
    }
    let middle = &rows[count / 2].key;
    if last.cmp(middle.0.as_slice()).is_lt() {
        Some(middle)
    } else {
        Some(key)
    }
}

// How many rows are promised in a block, with one more.
fn promised_in(block: usize, at: usize, promised: usize) -> Result<usize, AllocError>
    ensures { IfOk result (λ more. more ≡ (if block == at then promised + 1 else 1)) }
{
    if block != at {
        return Ok(1);
    }
    match promised.checked_add(1) {
        Some(more) => Ok(more),
        None => Err(AllocError),
    }
}

// How many bytes the entry of a row has.
fn size_of_row(row: &Row) -> u128
    ensures { result ≡ row_size row.now }
{
    9 + (row.key.0.len() as u128 + row.value.len() as u128)
}

// Whether 4 bytes can tell the lengths of its key and its bytes.
fn can_be_told(entry: &Entry) -> bool
    ensures { IsTrue result ↔ Fits entry.now }
{
    if entry.key.0.len() > u32::MAX as usize {
        return false;
    }
    match &entry.value {
        None => true,
        Some(value) => value.len() <= u32::MAX as usize,
    }
}

/// Registers in memory: fewer than 2^32, each with a key and bytes shorter than 2^32.
#[derive(Debug, Drop)]
pub struct MapRegisters {
    blocks: Vec<Block>,
    count: usize,
    size: u128,
    ghost ascending: { are_rising (rows_in_blocks blocks.items) ≡ true },
    ghost short: { are_short (rows_in_blocks blocks.items) ≡ true },
    ghost few: { length (rows_in_blocks blocks.items) < 2 ^ 32 },
    ghost counted: { count ≡ length (rows_in_blocks blocks.items) },
    ghost sized: { size ≡ sum_by row_size (rows_in_blocks blocks.items) },
    ghost parted: { are_parted blocks.items ≡ true },
    ghost whole: { are_whole blocks.items ≡ true },
}

impl Registers for MapRegisters {
    ghost rows = { λ m. rows_in_blocks m.blocks.items };

    ghost rising = { λ m. m.ascending };

    fn get(&self, key: &Key) -> Option<&[u8]> {
        if self.blocks.is_empty() {
            return None;
        }
        let block = self.block_of(key.0.as_slice());
        self.blocks[block].get(key.0.as_slice())
    }
}

impl MapRegisters {
    ghost use Rattle.std.specs.Prelude.{slice_set, take, vec_len, vec_capacity};
    ghost use Rattle.std.specs.List.{insert, remove};
    ghost use Rattle.cad_accounts.specs.Memory.{spare_at, falling};
    ghost use Rattle.cad_accounts.specs.Room.{rows_of, HasRoom};
    ghost use Rattle.cad_accounts.specs.Code.Blocks.{rows_at, Spends, Keeps, Parts, Widens, Steps};
    ghost use Rattle.cad_accounts.specs.Code.Places.{past, BelongsAt, StandsAt};

    // The block that a key falls to.
    fn block_of(&self, key: &[u8]) -> usize
        ensures { result ≡ block_at self.now.blocks.items key.now }
    {
        block_of(self.blocks.as_slice(), key)
    }

    // The place of a key's row in a block, or where it belongs there.
    fn find(&self, block: usize, key: &[u8]) -> Result<usize, usize>
        requires { block < length self.now.blocks.items }
        ensures { IsPlace row_key key.now (rows_at self.now.blocks.items block) result }
    {
        self.blocks[block].find(key)
    }

    fn remove_at(&mut self, block: usize, i: usize)
        requires block { block < length self.old.blocks.items }
        requires row { i < length (rows_at self.old.blocks.items block) }
        ensures rows { rows_of self.new ≡ remove (rows_of self.old) (past (rows_in_blocks (take block self.old.blocks.items)) i) }
        ensures room { Spends block self.old.blocks.items self.new.blocks.items }
    {
        let row = self.blocks[block].remove(i);
        self.count -= 1;
        self.size -= size_of_row(&row);
    }

    fn replace_at(&mut self, block: usize, i: usize, row: Row)
        requires block { block < length self.old.blocks.items }
        requires same { StandsAt row_key row.key.0 (rows_at self.old.blocks.items block) i }
        requires short { is_short row ≡ true }
        ensures rows { rows_of self.new ≡ slice_set (rows_of self.old) (past (rows_in_blocks (take block self.old.blocks.items)) i) row }
        ensures room { Spends block self.old.blocks.items self.new.blocks.items }
    {
        let size = size_of_row(&row);
        let was = self.blocks[block].replace(i, row);
        self.size -= size_of_row(&was);
        self.size += size;
    }

    fn insert_at(&mut self, block: usize, i: usize, row: Row)
        requires block { block < length self.old.blocks.items }
        requires place { block ≡ block_at self.old.blocks.items row.key.0 }
        requires fitting { BelongsAt row_key row.key.0 (rows_at self.old.blocks.items block) i }
        requires short { is_short row ≡ true }
        requires room { 1 ≤ spare_at self.old.blocks.items block }
        requires few { length (rows_of self.old) + 1 < 2 ^ 32 }
        ensures rows { rows_of self.new ≡ insert (rows_of self.old) (past (rows_in_blocks (take block self.old.blocks.items)) i) row }
        ensures room { Spends block self.old.blocks.items self.new.blocks.items }
    {
        self.size += size_of_row(&row);
        self.count += 1;
        self.blocks[block].insert(i, row);
    }

    /// No registers. It takes no memory.
    pub fn new(alloc: Global) -> MapRegisters
        ensures { rows_of result ≡ [] }
    {
        MapRegisters {
            blocks: Vec::new(alloc),
            count: 0,
            size: 0,
        }
    }

    /// How many registers are there.
    pub fn len(&self) -> usize
        ensures { result ≡ length (rows_of self.now) }
    {
        self.count
    }

    /// The registers in blocks, in byte order of their keys.
    pub fn blocks(&self) -> &[Block]
        ensures { rows_in_blocks result.now ≡ rows_of self.now }
    {
        self.blocks.as_slice()
    }

    /// How many bytes a record of all of them has, with the gate behind it: at most 2^64-1 are told.
    pub fn size(&self) -> u64
        ensures { result ≡ min (size_of (rows_of self.now)) (2 ^ 64 - 1) }
    {
        let size = self.size.saturating_add(15);
        if size > u64::MAX as u128 {
            u64::MAX
        } else {
            size as u64
        }
    }

    // Makes a first block where there is none, and room for one more.
    fn begin(&mut self) -> Result<(), AllocError>
        ensures rows { rows_of self.new ≡ rows_of self.old }
        ensures ok { OnOk result (0 < length self.new.blocks.items) }
    {
        if !self.blocks.is_empty() {
            return Ok(());
        }
        let alloc = *self.blocks.allocator();
        let first = Block::new(alloc, Key(Items::new(alloc)));
        self.blocks.push(first)?;
        Ok(())
    }

    // Makes room for one more block.
    fn reserve_block(&mut self) -> Result<(), AllocError>
        ensures blocks { self.new.blocks.items ≡ self.old.blocks.items }
        ensures ok { OnOk result (vec_len self.new.blocks < vec_capacity self.new.blocks) }
    {
        self.blocks.reserve(1)
    }

    // Splits a block at a key that falls to it.
    fn split_block(&mut self, block: usize, key: Key) -> Result<(), AllocError>
        requires inside { block < length self.old.blocks.items }
        requires place { block ≡ block_at self.old.blocks.items key.0 }
        requires room { vec_len self.old.blocks < vec_capacity self.old.blocks }
        ensures rows { rows_of self.new ≡ rows_of self.old }
        ensures some { 0 < length self.new.blocks.items }
        ensures ok { OnOk result (Keeps key.0 self.old.blocks.items self.new.blocks.items) }
    {
        if self.blocks[block].begins_before(key.0.as_slice()) {
            let i = self.blocks[block].cut_at(key.0.as_slice());
            let tail = self.blocks[block].split(i, key)?;
            let _ = self.blocks.insert(block + 1, tail);
        }
        Ok(())
    }

    // Has a block begin at a key, with the rows of the block it falls to from there on. AllocError where memory runs out.
    fn split_at(&mut self, key: Key) -> Result<(), AllocError>
        requires some { 0 < length self.old.blocks.items }
        requires room { vec_len self.old.blocks < vec_capacity self.old.blocks }
        ensures rows { rows_of self.new ≡ rows_of self.old }
        ensures some { 0 < length self.new.blocks.items }
        ensures ok { OnOk result (Keeps key.0 self.old.blocks.items self.new.blocks.items) }
    {
        let block = self.block_of(key.0.as_slice());
        self.split_block(block, key)
    }

    // The key at which the block of a key is split, where it is full.
    fn seam(&self, last: &[u8], key: &Key, promised: usize) -> Result<Option<Key>, AllocError>
        requires { 0 < length self.now.blocks.items }
        ensures { IfOk result (λ o. IfSome o (λ seam. (before last.now seam.0 ≡ true) ⊎ (seam.0 ≡ key.now.0))) }
    {
        let rows = self.blocks[self.block_of(key.0.as_slice())].rows();
        let Some(seam) = seam_in(rows, last, key, promised) else {
            return Ok(None);
        };
        let alloc = *self.blocks.allocator();
        let bytes = Items::from_slice(alloc, seam.0.as_slice())?;
        Ok(Some(Key(bytes)))
    }

    // Splits the block of a key where it is full.
    fn part(&mut self, last: &[u8], key: &Key, promised: usize) -> Result<(), AllocError>
        requires { 0 < length self.old.blocks.items }
        ensures rows { rows_of self.new ≡ rows_of self.old }
        ensures some { 0 < length self.new.blocks.items }
        ensures ok { OnOk result (Parts last.now key.now.0 self.old.blocks.items self.new.blocks.items) }
    {
        match self.seam(last, key, promised)? {
            None => Ok(()),
            Some(seam) => {
                self.reserve_block()?;
                self.split_at(seam)
            }
        }
    }

    // Makes room for so many rows in a block.
    fn widen(&mut self, block: usize, more: usize) -> Result<(), AllocError>
        requires { block < length self.old.blocks.items }
        ensures rows { rows_of self.new ≡ rows_of self.old }
        ensures some { 0 < length self.new.blocks.items }
        ensures ok { OnOk result (Widens block more self.old.blocks.items self.new.blocks.items) }
    {
        self.blocks[block].reserve(more)
    }

    // Makes room for one change more, and tells its block and how many are promised there.
    fn promise_one(
        &mut self,
        last: &[u8],
        key: &Key,
        at: usize,
        promised: usize,
    ) -> Result<(usize, usize), AllocError>
        requires { 0 < length self.old.blocks.items }
        ensures rows { rows_of self.new ≡ rows_of self.old }
        ensures some { 0 < length self.new.blocks.items }
        ensures ok { IfOk result (λ r. Steps last.now key.now.0 at promised r.0 r.1 self.old.blocks.items self.new.blocks.items) }
    {
        self.part(last, key, promised)?;
        let block = self.block_of(key.0.as_slice());
        let more = promised_in(block, at, promised)?;
        self.widen(block, more)?;
        Ok((block, more))
    }

    // Makes room for the changes, one after another.
    fn promise(&mut self, changes: &[Entry]) -> Result<(), AllocError>
        requires ascending { are_ascending changes.now ≡ true }
        requires some { 0 < length self.old.blocks.items }
        ensures rows { rows_of self.new ≡ rows_of self.old }
        ensures ok { OnOk result ((i : ℕ) → falling self.new.blocks.items i changes.now ≤ spare_at self.new.blocks.items i) }
    {
        let mut last: &[u8] = &[];
        let mut at = 0;
        let mut promised = 0;
        for change in changes {
            let (block, more) = self.promise_one(last, &change.key, at, promised)?;
            at = block;
            promised = more;
            last = change.key.0.as_slice();
        }
        Ok(())
    }

    /// Makes room for changes, so that `change` takes no memory for them. AllocError where memory runs out, or where there would
    /// be 2^32 registers or more.
    pub fn reserve(&mut self, changes: &[Entry]) -> Result<(), AllocError>
        requires { are_ascending changes.now ≡ true }
        ensures rows { rows_of self.new ≡ rows_of self.old }
        ensures ok { OnOk result (HasRoom changes.now self.new) }
    {
        if changes.len() > u32::MAX as usize - self.count {
            return Err(AllocError);
        }
        self.begin()?;
        self.promise(changes)
    }

    /// Changes a register to an entry's value. One that is removed needn't be there. It takes no memory.
    pub fn change(&mut self, entry: Entry)
        requires room { HasRoom (entry ∷ []) self.old }
        requires fits { Fits entry }
        ensures is { (key : List ℕ) → at (rows_of self.new) key ≡ changed entry.key.0 entry.value (at (rows_of self.old)) key }
        ensures room { (changes : List Entry) → HasRoom (entry ∷ changes) self.old → HasRoom changes self.new }
    {
        let Entry { key, value } = entry;
        let block = self.block_of(key.0.as_slice());
        match (self.find(block, key.0.as_slice()), value) {
            (Ok(i), Some(value)) => self.replace_at(block, i, Row { key, value }),
            (Ok(i), None) => self.remove_at(block, i),
            (Err(i), Some(value)) => self.insert_at(block, i, Row { key, value }),
            (Err(_), None) => {}
        }
    }

    /// Changes a register to an entry's value. AllocError where memory runs out, or where there would be 2^32 registers or
    /// more, or where the key or the bytes are 2^32 bytes long or more: then all is as it was.
    pub fn apply(&mut self, entry: Entry) -> Result<(), AllocError>
        ensures ok { OnOk result ((key : List ℕ) → at (rows_of self.new) key ≡ changed entry.key.0 entry.value (at (rows_of self.old)) key) }
        ensures err { OnErr result (rows_of self.new ≡ rows_of self.old) }
    {
        if !can_be_told(&entry) {
            return Err(AllocError);
        }
        self.reserve(std::slice::from_ref(&entry))?;
        self.change(entry);
        Ok(())
    }

    /// Gives a register these bytes, as `apply` does.
    pub fn set(&mut self, key: Key, value: Bytes) -> Result<(), AllocError>
        ensures ok { OnOk result ((k : List ℕ) → at (rows_of self.new) k ≡ changed key.0 (Some value) (at (rows_of self.old)) k) }
        ensures err { OnErr result (rows_of self.new ≡ rows_of self.old) }
    {
        self.apply(Entry {
            key,
            value: Some(value),
        })
    }
}
