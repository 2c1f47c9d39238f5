// The World for which registers stand.
ghost use Rattle.std.specs.Prelude.{◌≡◌, ◌↔◌, Some, true, IsTrue, IfOk, IfSome, length, map, option_map};
ghost use Rattle.cad_accounts.specs.Memory.{rows_in_blocks};
ghost use Rattle.cad_accounts.specs.Registers.{at, are_rising};
ghost use Rattle.cad_loading.specs.Views.{programs_of};
ghost use Rattle.cad_loads.specs.Loads.{Loads, loaded_of};
ghost use Rattle.cad_world.specs.State as s;
ghost use Rattle.cad_world_registers.specs.Exact.{AreMade, IsMadeOf};
ghost use Rattle.cad_world_registers.specs.Meaning.{Stands, parts_of};
ghost use Rattle.cad_worlds.specs.Items as items;
ghost use Rattle.cad_worlds.specs.RowLists.{rows_listed};
ghost use Rattle.cad_worlds.specs.Standing.{IsSound, StandsFor, world_of};

use crate::contracts::{load_contracts, world_from};
use cad_accounts::Block;
use cad_codec::DecodeError;
use cad_declarations::Checked;
use cad_loading::{Programs, load_kept, one_loading};
use cad_state::discard_accounts;
use cad_world_registers::{Parts, discard_parts, make, stand_for};
use cad_worlds::{RowList, World, discard_world};
use std::alloc::{AllocError, Global};
use std::rc::Rc;

/// A World, where rows stand for it; else it is let go.
fn kept(alloc: Global, world: World, list: RowList<'_>) -> Result<Option<World>, AllocError>
    requires { IsMadeOf (rows_listed list) (world_of world) }
    ensures found { IfOk result (λ o. IfSome o (λ w. (world_of w ≡ world_of world) × Stands (rows_listed list.entry) (world_of w))) }
    ensures only { Stands (rows_listed list.entry) (world_of world) → IfOk result (λ o. option_map world_of o ≡ Some (world_of world)) }
{
    match stand_for(alloc, &world, list) {
        Ok(true) => Ok(Some(world)),
        Ok(false) => {
            discard_world(world);
            Ok(None)
        }
        Err(error) => {
            discard_world(world);
            Err(error)
        }
    }
}

/// The World of what registers made and of the programs of its contracts, where rows stand for it.
fn with_programs(
    alloc: Global,
    parts: Parts,
    programs: Vec<Rc<Checked>>,
    list: RowList<'_>,
) -> Result<Option<World>, AllocError>
    requires programs { length programs.items ≡ length parts.sources.items }
    requires values { length parts.values.items ≡ length parts.sources.items }
    requires made { AreMade (rows_listed list) parts }
    ensures found { IfOk result (λ o. IfSome o (λ w. (world_of w ≡ items.world_from (parts_of parts) (programs_of programs)) × Stands (rows_listed list.entry) (world_of w))) }
    ensures only { Stands (rows_listed list.entry) (items.world_from (parts_of parts) (programs_of programs)) → IfOk result (λ o. option_map world_of o ≡ Some (items.world_from (parts_of parts) (programs_of programs))) }
{
    match world_from(alloc, parts, programs) {
        Ok(world) => kept(alloc, world, list),
        Err(error) => Err(error),
    }
}

/// Whether there are as many values as codes.
fn are_as_many(parts: &Parts) -> bool
    ensures { IsTrue result ↔ (length parts.now.values.items ≡ length parts.now.sources.items) }
{
    parts.values.len() == parts.sources.len()
}

/// The World of what registers made, where its contracts were deployed one after another, and rows stand for it.
fn loaded(
    alloc: Global,
    known: &mut Programs,
    parts: Parts,
    list: RowList<'_>,
) -> Result<Option<World>, AllocError>
    requires { AreMade (rows_listed list) parts }
    ensures found { IfOk result (λ o. IfSome o (λ w. Stands (rows_listed list.entry) (world_of w) × Loads (map loaded_of (world_of w).contracts))) }
    ensures only { (v : s.World) → parts_of parts ≡ items.draft_of v → IsSound v → Stands (rows_listed list.entry) v → IfOk result (λ o. option_map world_of o ≡ Some v) }
{
    one_loading();
    if !are_as_many(&parts) {
        discard_parts(parts);
        return Ok(None);
    }
    match load_kept(alloc, known, parts.sources.as_slice()) {
        Ok(Some(programs)) => with_programs(alloc, parts, programs, list),
        Ok(None) => {
            discard_parts(parts);
            Ok(None)
        }
        Err(error) => {
            discard_parts(parts);
            Err(error)
        }
    }
}

/// The World for which rows stand; None where they stand for none. Its contracts are read and checked again, one after another,
/// where their programs aren't kept; then they are (`load_kept`).
/// AllocError where memory runs out; also where the contracts declare two fields of a type by one name, or lack an interface of an interface
/// that a type has: of contracts that were accepted one beside the other neither is so, which isn't proved here.
pub fn read_world(
    alloc: Global,
    known: &mut Programs,
    list: RowList<'_>,
) -> Result<Option<World>, AllocError>
    // Where a World is read, the rows are in byte order of their keys.
    ensures rising { IfOk result (λ o. IfSome o (λ _. are_rising (rows_listed list.entry) ≡ true)) }

    // What is read stands there.
    ensures found { IfOk result (λ o. IfSome o (λ w. StandsFor (at (rows_listed list.entry)) (world_of w))) }

    // What stands there is read, of rows in that order.
    ensures only { are_rising (rows_listed list.entry) ≡ true → (v : s.World) → StandsFor (at (rows_listed list.entry)) v → IfOk result (λ o. option_map world_of o ≡ Some v) }
{
    match make(alloc, list) {
        Ok(parts) => loaded(alloc, known, parts, list),
        Err(DecodeError::Damaged) => Ok(None),
        Err(DecodeError::Memory) => Err(AllocError),
    }
}

/// The World of which registers made this. AllocError also where there is none.
fn made_of(alloc: Global, known: &mut Programs, parts: Parts) -> Result<World, AllocError>
    ensures { (v : s.World) → parts_of parts ≡ items.draft_of v → IsSound v → IfOk result (λ w. world_of w ≡ v) }
{
    let Parts {
        accounts,
        sources,
        values,
        next_identity,
    } = parts;
    match load_contracts(alloc, known, sources, values) {
        Ok(contracts) => Ok(World {
            accounts,
            contracts,
            next_identity,
        }),
        Err(error) => {
            discard_accounts(accounts);
            Err(error)
        }
    }
}

/// The World for which the rows of blocks stand, of which it is known that they stand for one: what was read isn't written and tested
/// again.
/// A contract is checked again where its program isn't kept; then it is (`load_kept`).
pub fn known_world(
    alloc: Global,
    known: &mut Programs,
    blocks: &[Block],
) -> Result<World, AllocError>
    requires rising { are_rising (rows_in_blocks blocks.now) ≡ true }
    requires stands { (v : s.World) × StandsFor (at (rows_in_blocks blocks.now)) v }
    ensures { IfOk result (λ w. StandsFor (at (rows_in_blocks blocks.now)) (world_of w)) }
{
    match make(alloc, RowList::of_blocks(blocks)) {
        Ok(parts) => made_of(alloc, known, parts),
        Err(_) => Err(AllocError),
    }
}
