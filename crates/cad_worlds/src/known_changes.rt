// The registers of a part of a World, and what leads to them.
ghost use Rattle.std.specs.Prelude.{◌≡◌, ◌++◌, ◌<◌, ◌≤◌, ℕ, List, map, flat_map, true, length, IfOk, OnOk, IsTrue};
ghost use Rattle.cad_accounts.specs.Memory.{rows_in_blocks};
ghost use Rattle.cad_accounts.specs.Registers.{Leads, at, are_rising};
ghost use Rattle.cad_world.specs.Registers.{map_of};
ghost use Rattle.cad_world.specs.State as s;
ghost use Rattle.cad_worlds.specs.Code.KnownRegisters as spec;
ghost use Rattle.cad_worlds.specs.Code.Passing.{AreTold, LeavesOut};
ghost use Rattle.cad_worlds.specs.Merging.{chosen, merged};
ghost use Rattle.cad_worlds.specs.Parts.{world_over};
ghost use Rattle.cad_worlds.specs.RowLists.{rows_at};
ghost use Rattle.cad_worlds.specs.Standing.{coding, register_of, IsSoundButCode};

use crate::keys::{are_in_order, are_known};
use crate::merging::merge;
use crate::part::WorldPart;
use crate::selection::part_rows;
use crate::writing::{Section, head_rows, push_account, push_codes, push_values};
use cad_accounts::{Block, Row};
use cad_state::Known;
use cad_wire::Entries;
use std::alloc::{AllocError, Global};

/// Appends the registers of a known account, of one kind.
fn push_known_account(
    alloc: Global,
    section: Section,
    one: &Known,
    rows: &mut Vec<Row>,
) -> Result<(), AllocError>
    ensures { OnOk result (map register_of rows.new.items ≡ map register_of rows.old.items ++ spec.known_section section one.now) }
{
    match one.index.checked_add(1) {
        Some(address) => push_account(alloc, section, address, &one.account, rows),
        None => Err(AllocError),
    }
}

/// Appends the registers of known accounts, of one kind.
fn push_known(
    alloc: Global,
    section: Section,
    known: &[Known],
    rows: &mut Vec<Row>,
) -> Result<(), AllocError>
    ensures { OnOk result (map register_of rows.new.items ≡ map register_of rows.old.items ++ flat_map (spec.known_section section) known.now) }
{
    for one in known {
        push_known_account(alloc, section, one, rows)?;
    }
    Ok(())
}

/// The registers that are known with a part of a World, kind by kind.
fn part_registers(alloc: Global, part: &WorldPart) -> Result<Vec<Row>, AllocError>
    ensures { IfOk result (λ rows. map register_of rows.items ≡ spec.part_registers part.now) }
{
    let known = part.known.as_slice();
    let contracts = part.contracts.as_slice();
    let mut rows = head_rows(alloc, part.count, part.next_identity)?;
    push_known(alloc, Section::Next, known, &mut rows)?;
    push_codes(alloc, contracts, &mut rows)?;
    push_values(alloc, contracts, &mut rows)?;
    push_known(alloc, Section::Stored, known, &mut rows)?;
    push_known(alloc, Section::Published, known, &mut rows)?;
    push_known(alloc, Section::Controllers, known, &mut rows)?;
    Ok(rows)
}

/// Whether known accounts stand in order, and those from a number on are all known.
fn is_whole_part(before: u64, part: &WorldPart) -> bool
    ensures order { IsTrue result → spec.StandBetween 0 part.now.count part.now.known.items }
    ensures no_fewer { IsTrue result → before ≤ part.now.count }
    ensures known { IsTrue result → (i : ℕ) → before ≤ i → i < part.now.count → spec.has_index part.now.known.items i ≡ true }
{
    let known = part.known.as_slice();
    before <= part.count && are_in_order(known, part.count) && are_known(known, before, part.count)
}

// ---- what they are compared with

/// Where known accounts stand among all.
fn indexes_of(alloc: Global, known: &[Known]) -> Result<Vec<u64>, AllocError>
    ensures { IfOk result (λ indexes. indexes.items ≡ spec.indexes_of known.now) }
{
    let mut indexes = Vec::new(alloc);
    for one in known {
        indexes.push(one.index)?;
    }
    Ok(indexes)
}

/// The rows of blocks, but for some of accounts that aren't known.
fn known_rows<'r>(
    alloc: Global,
    known: &[Known],
    blocks: &'r [Block],
) -> Result<Vec<&'r Row>, AllocError>
    ensures { IfOk result (λ rows. LeavesOut (spec.indexes_of known.now) (rows_at rows.items) (rows_in_blocks blocks.now)) }
{
    let indexes = indexes_of(alloc, known)?;
    part_rows(alloc, indexes.as_slice(), blocks)
}

/// What leads from the registers of a World, as far as they are known with a part, to others.
fn merge_part(
    alloc: Global,
    known: &[Known],
    blocks: &[Block],
    new: Vec<Row>,
) -> Result<Entries, AllocError>
    ensures { IfOk result (λ changes. AreTold (rows_in_blocks blocks.now) → are_rising (rows_in_blocks blocks.now) ≡ true → changes ≡ merged (chosen (spec.is_of_part known.now) (rows_in_blocks blocks.now)) new.items) }
{
    let old = known_rows(alloc, known, blocks)?;
    let entries = merge(alloc, Some(known), old.as_slice(), new)?;
    Ok(entries)
}

/// What leads from blocks of rows that stand for a World of so many accounts to the registers of what is known after a run, where
/// this is sound: exactly the entries that differ, in byte order of their keys. AllocError where memory runs out, where a value
/// holds a reference, and where a text or a list has 2^32 items or more; also where known accounts don't stand in order, each once,
/// where there are fewer accounts than before, or where one that was added isn't known.
pub fn part_changes(
    alloc: Global,
    blocks: &[Block],
    before: u64,
    part: &WorldPart,
) -> Result<Entries, AllocError>
    requires { are_rising (rows_in_blocks blocks.now) ≡ true }
    ensures { IfOk result (λ changes. (w : s.World) → ((key : List ℕ) → at (rows_in_blocks blocks.now) key ≡ map_of coding w key) → before ≡ length w.accounts
        → IsSoundButCode (world_over w.accounts part.now) → Leads (at (rows_in_blocks blocks.now)) (map_of coding (world_over w.accounts part.now)) changes) }
{
    if !is_whole_part(before, part) {
        return Err(AllocError);
    }
    let new = part_registers(alloc, part)?;
    let entries = merge_part(alloc, part.known.as_slice(), blocks, new)?;
    Ok(entries)
}
