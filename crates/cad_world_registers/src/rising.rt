// Whether rows in parts are in byte order of their keys.
ghost use Rattle.std.specs.Prelude.{◌≡◌, ◌↔◌, ◌++◌, [], List, false, true, IsTrue, IfSome, MatchOption};
ghost use Rattle.std.specs.List.{AllByRecursion};
ghost use Rattle.cad_accounts.specs.KeyOrder.{before};
ghost use Rattle.cad_accounts.specs.Memory.{rows_in_blocks};
ghost use Rattle.cad_accounts.specs.declared.row.Row as r;
ghost use Rattle.cad_wire.specs.Fields.{AreBytes};
ghost use Rattle.cad_world_registers.specs.Exact.{RowFits};
ghost use Rattle.cad_world_registers.specs.Listed as spec;
ghost use Rattle.cad_worlds.specs.RowLists.{rows_listed};

use cad_accounts::{Block, Row};
use cad_worlds::RowList;

/// Whether a key stands before another.
fn is_before(key: &[u8], other: &[u8]) -> bool
    ensures { result ≡ before key.now other.now }
{
    key.cmp(other).is_lt()
}

/// The same bytes.
fn as_bytes(bytes: &[u8]) -> &[u8]
    ensures is { result.now ≡ bytes.now }
    ensures fits { AreBytes bytes.now }
{
    bytes
}

/// The key of a row, of which it is known that it and the row's value are bytes.
fn key_of(row: &Row) -> &[u8]
    ensures is { result.now ≡ row.now.key.0 }
    ensures fits { RowFits row.now }
{
    let key = as_bytes(row.key.0.as_slice());
    let _value = as_bytes(row.value.as_slice());
    key
}

/// The last of some keys that rise behind another: that one where there is none. None where they don't rise.
fn last_key<'r>(key: &'r [u8], rows: &'r [Row]) -> Option<&'r [u8]>
    ensures rise { MatchOption result ((behind : List r.Row) → spec.rise_behind key.now (rows.now ++ behind) ≡ false) (λ last. (behind : List r.Row) → spec.rise_behind key.now (rows.now ++ behind) ≡ spec.rise_behind last.now behind) }
    ensures fit { IfSome result (λ last. AllByRecursion RowFits rows.now) }
{
    let mut last = key;
    for row in rows {
        let next = key_of(row);
        if !is_before(last, next) {
            return None;
        }
        last = next;
    }
    Some(last)
}

/// Whether the keys of rows in blocks rise behind another.
fn blocks_rise(key: &[u8], blocks: &[Block]) -> bool
    ensures rise { IsTrue result ↔ (spec.rise_behind key.now (rows_in_blocks blocks.now) ≡ true) }
    ensures fit { IsTrue result → AllByRecursion RowFits (rows_in_blocks blocks.now) }
{
    let mut last = key;
    for block in blocks {
        match last_key(last, block.rows()) {
            Some(next) => last = next,
            None => return false,
        }
    }
    true
}

/// Whether the keys of rows in parts rise, the first one from one that isn't empty on.
pub(crate) fn are_in_order(list: RowList<'_>) -> bool
    ensures rise { IsTrue result ↔ (spec.rise_behind [] (rows_listed list.entry) ≡ true) }
    ensures fit { IsTrue result → AllByRecursion RowFits (rows_listed list.entry) }
{
    match last_key(&[], list.rows) {
        Some(last) => blocks_rise(last, list.blocks),
        None => false,
    }
}
