// The rows of some accounts, and those of no account. Rows of other accounts are passed over by halving: as keys stand in order, the
// first and the last of a front tell whether it has any of these accounts.
ghost use Rattle.std.specs.Prelude.{◌≡◌, ◌<◌, ◌≤◌, ◌++◌, [], List, length, take, drop, IfOk, OnOk};
ghost use Rattle.cad_accounts.specs.Memory.{rows_in_blocks};
ghost use Rattle.cad_accounts.specs.declared.row.Row as r;
ghost use Rattle.cad_worlds.specs.Code.Passing as spec;
ghost use Rattle.cad_worlds.specs.RowLists.{rows_at};

use crate::rows::{CONTROLLER, NEXT, PUBLISHED, STORED};
use crate::spans::{Span, is_between, span_in, span_of};
use cad_accounts::{Block, Row};
use std::alloc::{AllocError, Global};

// ---- what is passed over

/// Whether registers of a kind are of one account each.
fn is_of_account(kind: u8) -> bool
    ensures { result ≡ spec.is_of_account kind }
{
    kind == NEXT || kind == STORED || kind == PUBLISHED || kind == CONTROLLER
}

/// Whether one of these accounts is between two addresses.
fn has_between(indexes: &[u64], least: u64, most: u64) -> bool
    ensures { result ≡ spec.has_between indexes.now least most }
{
    indexes.iter().any(|index| is_between(*index, least, most))
}

/// Whether all keys between two addresses are of other accounts.
fn is_passed(indexes: &[u64], span: Option<Span>) -> bool
    ensures { result ≡ spec.is_passed indexes.now span }
{
    match span {
        None => false,
        Some(span) => { is_of_account(span.kind) && !has_between(indexes, span.least, span.most) }
    }
}

/// Which of some that stand in order is looked at next, where those before one are passed over, and those up to another aren't: the
/// first of all, else the middle.
fn next_look(passed: usize, end: usize) -> usize
    requires { passed < end }
    ensures behind { passed ≤ result }
    ensures inside { result < end }
{
    if passed == 0 {
        return 0;
    }
    passed + (end - passed) / 2
}

// ---- rows

/// How many rows at the front are passed over together.
fn passed_rows(indexes: &[u64], rows: &[Row]) -> usize
    ensures few { result ≤ length rows.now }
    ensures others { spec.LeavesOut indexes.now [] (take result rows.now) }
{
    let mut passed = 0;
    let mut end = rows.len();
    while passed < end {
        let look = next_look(passed, end);
        if is_passed(indexes, span_of(&rows[..look + 1])) {
            passed = look + 1;
        } else {
            end = look;
        }
    }
    passed
}

/// The rows from one on.
fn rows_from(rows: &[Row], i: usize) -> &[Row]
    requires { i ≤ length rows.now }
    ensures { result.now ≡ drop i rows.now }
{
    &rows[i..]
}

/// Appends rows, but for some of other accounts.
fn push_rows<'r>(
    indexes: &[u64],
    rows: &'r [Row],
    found: &mut Vec<&'r Row>,
) -> Result<(), AllocError>
    ensures { OnOk result ((behind all : List r.Row) → spec.GoesOn indexes.now (rows_at found.old.items) (rows.now ++ behind) all → spec.GoesOn indexes.now (rows_at found.new.items) behind all) }
{
    let mut i = 0;
    while i < rows.len() {
        let passed = passed_rows(indexes, rows_from(rows, i));
        if passed == 0 {
            found.push(&rows[i])?;
            i += 1;
        } else {
            i += passed;
        }
    }
    Ok(())
}

// ---- blocks

/// How many blocks at the front are passed over together.
fn passed_blocks(indexes: &[u64], blocks: &[Block]) -> usize
    ensures few { result ≤ length blocks.now }
    ensures others { spec.LeavesOut indexes.now [] (rows_in_blocks (take result blocks.now)) }
{
    let mut passed = 0;
    let mut end = blocks.len();
    while passed < end {
        let look = next_look(passed, end);
        if is_passed(indexes, span_in(&blocks[..look + 1])) {
            passed = look + 1;
        } else {
            end = look;
        }
    }
    passed
}

/// The blocks from one on.
fn blocks_from(blocks: &[Block], i: usize) -> &[Block]
    requires { i ≤ length blocks.now }
    ensures { result.now ≡ drop i blocks.now }
{
    &blocks[i..]
}

/// The rows of blocks, but for some of accounts at other indexes than these.
pub fn part_rows<'r>(
    alloc: Global,
    indexes: &[u64],
    blocks: &'r [Block],
) -> Result<Vec<&'r Row>, AllocError>
    ensures { IfOk result (λ rows. spec.LeavesOut indexes.now (rows_at rows.items) (rows_in_blocks blocks.now)) }
{
    let mut found = Vec::new(alloc);
    let mut at = 0;
    while at < blocks.len() {
        let passed = passed_blocks(indexes, blocks_from(blocks, at));
        if passed == 0 {
            push_rows(indexes, blocks[at].rows(), &mut found)?;
            at += 1;
        } else {
            at += passed;
        }
    }
    Ok(found)
}
