// The entries that lead from registers to others.
ghost use Rattle.std.specs.Prelude.{◌≡◌, ◌≤◌, ◌++◌, ◌∷◌, [], true, List, length, drop, map, IfOk, OnOk, option_map};
ghost use Rattle.cad_accounts.specs.KeyOrder as order;
ghost use Rattle.cad_accounts.specs.Memory.{rows_in_blocks};
ghost use Rattle.cad_accounts.specs.Registers.{Leads, at, are_rising};
ghost use Rattle.cad_accounts.specs.declared.row.Row as r;
ghost use Rattle.cad_worlds.specs.Merging as spec;
ghost use Rattle.cad_worlds.specs.RowLists.{rows_at};

use crate::keys::is_of_part;
use cad_accounts::{Block, Row};
use cad_state::Known;
use cad_syntax::Items;
use cad_wire::{Entries, Entry, Key};
use std::alloc::{AllocError, Global};

/// Whether a row stands before a key.
fn is_before(row: &Row, key: &[u8]) -> bool
    ensures { result ≡ order.before row.now.key.0 key.now }
{
    row.key.0.as_slice().cmp(key).is_lt()
}

/// Adds that a row is removed.
fn push_removal(alloc: Global, row: &Row, changes: &mut Entries) -> Result<(), AllocError>
    ensures { OnOk result (changes.new ≡ changes.old ++ spec.removal row.now ∷ []) }
{
    let key = Items::from_slice(alloc, row.key.0.as_slice())?;
    changes.push(Entry {
        key: Key(key),
        value: None,
    })
}

/// Whether a row is compared: each, or those of a part of a World of which these accounts are known.
fn is_compared(known: Option<&[Known]>, row: &Row) -> bool
    ensures { result ≡ spec.is_compared (option_map (λ k. k.now) known.entry) row.now.key.0 }
{
    match known {
        None => true,
        Some(known) => is_of_part(known, row.key.0.as_slice()),
    }
}

/// Adds that all rows are removed that are compared.
fn remove_all(
    alloc: Global,
    known: Option<&[Known]>,
    rows: &[&Row],
    changes: &mut Entries,
) -> Result<(), AllocError>
    ensures { OnOk result (changes.new ≡ changes.old ++ map spec.removal (spec.chosen (spec.is_compared (option_map (λ k. k.now) known.entry)) (rows_at rows.now))) }
{
    for row in rows {
        if is_compared(known, row) {
            push_removal(alloc, row, changes)?;
        }
    }
    Ok(())
}

/// The rows from one on.
fn rows_from<'s, 'r>(rows: &'s [&'r Row], i: usize) -> &'s [&'r Row]
    requires { i ≤ length rows.now }
    ensures { result.now ≡ drop i rows.now }
{
    &rows[i..]
}

/// Adds that the first rows are removed that are compared and whose keys stand before this one. How many rows it went over is handed
/// back.
fn remove_before(
    alloc: Global,
    known: Option<&[Known]>,
    rows: &[&Row],
    key: &[u8],
    changes: &mut Entries,
) -> Result<usize, AllocError>
    ensures few { IfOk result (λ gone. gone ≤ length rows.now) }
    ensures left { IfOk result (λ gone. drop gone (rows_at rows.now) ≡ spec.left_from (spec.is_compared (option_map (λ k. k.now) known.entry)) key.now (rows_at rows.now)) }
    ensures changes { OnOk result (changes.new ≡ changes.old ++ map spec.removal (spec.in_front key.now (spec.chosen (spec.is_compared (option_map (λ k. k.now) known.entry)) (rows_at rows.now)))) }
{
    for i in 0..rows.len() {
        let row = &rows[i];
        if is_compared(known, row) {
            if !is_before(row, key) {
                return Ok(i);
            }
            push_removal(alloc, row, changes)?;
        }
    }
    Ok(rows.len())
}

/// Whether a row is the first of these.
fn is_first(rows: &[&Row], row: &Row) -> bool
    ensures { result ≡ spec.is_first (rows_at rows.now) row.now }
{
    match rows {
        [] => false,
        [first, ..] => {
            first.key.0.as_slice() == row.key.0.as_slice()
                && first.value.as_slice() == row.value.as_slice()
        }
    }
}

/// How many rows at the front have a key, which is one or none.
fn count_of(rows: &[&Row], key: &[u8]) -> usize
    ensures few { result ≤ length rows.now }
    ensures behind { drop result (rows_at rows.now) ≡ spec.behind key.now (rows_at rows.now) }
{
    match rows {
        [] => 0,
        [first, ..] => { if first.key.0.as_slice() == key { 1 } else { 0 } }
    }
}

/// Adds that a row comes, unless it is the first of those that are there.
fn push_row(there: &[&Row], row: Row, changes: &mut Entries) -> Result<(), AllocError>
    ensures { OnOk result (changes.new ≡ changes.old ++ spec.own (rows_at there.now) row) }
{
    if is_first(there, &row) {
        return Ok(());
    }
    let Row { key, value } = row;
    changes.push(Entry {
        key,
        value: Some(value),
    })
}

/// Adds what leads to one row more: the removals of the rows before it, and itself, unless it is there. How many rows it went over
/// is handed back.
fn take_row(
    alloc: Global,
    known: Option<&[Known]>,
    rows: &[&Row],
    row: Row,
    changes: &mut Entries,
) -> Result<usize, AllocError>
    ensures few { IfOk result (λ gone. gone ≤ length rows.now) }
    ensures left { IfOk result (λ gone. drop gone (rows_at rows.now) ≡ spec.behind row.key.0 (spec.left_from (spec.is_compared (option_map (λ k. k.now) known.entry)) row.key.0 (rows_at rows.now))) }
    ensures changes { OnOk result (changes.new ≡ changes.old ++ (map spec.removal (spec.in_front row.key.0 (spec.chosen (spec.is_compared (option_map (λ k. k.now) known.entry)) (rows_at rows.now))) ++ spec.own (spec.left_from (spec.is_compared (option_map (λ k. k.now) known.entry)) row.key.0 (rows_at rows.now)) row)) }
{
    let gone = remove_before(alloc, known, rows, row.key.0.as_slice(), changes)?;
    let there = rows_from(rows, gone);
    let count = count_of(there, row.key.0.as_slice());
    push_row(there, row, changes)?;
    Ok(gone + count)
}

/// Adds what leads from the one rows, where they are compared, to the others, but for the removal of those behind the last of
/// these. How many rows it went over is handed back.
fn take_rows(
    alloc: Global,
    known: Option<&[Known]>,
    old: &[&Row],
    new: Vec<Row>,
    changes: &mut Entries,
) -> Result<usize, AllocError>
    ensures few { IfOk result (λ gone. gone ≤ length old.now) }
    ensures changes { IfOk result (λ gone. (rest : List r.Row) → changes.new ++ spec.merged (spec.chosen (spec.is_compared (option_map (λ k. k.now) known.entry)) (drop gone (rows_at old.now))) rest ≡ changes.old ++ spec.merged (spec.chosen (spec.is_compared (option_map (λ k. k.now) known.entry)) (rows_at old.now)) (new.items ++ rest)) }
{
    let mut gone = 0;
    for row in new {
        let more = take_row(alloc, known, rows_from(old, gone), row, changes)?;
        gone += more;
    }
    Ok(gone)
}

/// What leads from the one rows, where they are compared, to the others, by going once over both.
pub(crate) fn merge(
    alloc: Global,
    known: Option<&[Known]>,
    old: &[&Row],
    new: Vec<Row>,
) -> Result<Entries, AllocError>
    ensures { IfOk result (λ changes. changes ≡ spec.merged (spec.chosen (spec.is_compared (option_map (λ k. k.now) known.entry)) (rows_at old.now)) new.items) }
{
    let mut changes = Items::new(alloc);
    let gone = take_rows(alloc, known, old, new, &mut changes)?;
    remove_all(alloc, known, rows_from(old, gone), &mut changes)?;
    Ok(changes)
}

/// Appends rows.
fn push_all<'r>(rows: &'r [Row], all: &mut Vec<&'r Row>) -> Result<(), AllocError>
    ensures { OnOk result (rows_at all.new.items ≡ rows_at all.old.items ++ rows.now) }
{
    for row in rows {
        all.push(row)?;
    }
    Ok(())
}

/// The rows of blocks.
fn all_rows(alloc: Global, blocks: &[Block]) -> Result<Vec<&Row>, AllocError>
    ensures { IfOk result (λ rows. rows_at rows.items ≡ rows_in_blocks blocks.now) }
{
    let mut all = Vec::new(alloc);
    for block in blocks {
        push_all(block.rows(), &mut all)?;
    }
    Ok(all)
}

/// The entries that lead from registers to others, both in byte order of their keys: exactly those that differ, in that order.
pub fn changes(alloc: Global, old: &[Block], new: Vec<Row>) -> Result<Entries, AllocError>
    requires old { are_rising (rows_in_blocks old.now) ≡ true }
    requires new { are_rising new.items ≡ true }
    ensures { IfOk result (λ changes. Leads (at (rows_in_blocks old.now)) (at new.items) changes) }
{
    let rows = all_rows(alloc, old)?;
    let entries = merge(alloc, None, rows.as_slice(), new)?;
    Ok(entries)
}
