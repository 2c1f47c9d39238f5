// Whether registers are those of a World.
ghost use Rattle.std.specs.Prelude.{◌≡◌, ◌↔◌, IsTrue, IfOk, length};
ghost use Rattle.cad_world_registers.specs.Exact.{IsMadeOf, counted};
ghost use Rattle.cad_world_registers.specs.Meaning.{Stands};
ghost use Rattle.cad_worlds.specs.RowLists.{rows_listed};
ghost use Rattle.cad_worlds.specs.Standing.{IsSoundButCode, world_of};

use crate::counting::{count_registers, count_rows};
use crate::listing::behind_front;
use crate::rising::are_in_order;
use cad_contract_shapes::shapes_of_contracts;
use cad_world_checks::is_sound;
use cad_worlds::{RowList, World};
use std::alloc::{AllocError, Global};

/// Whether there are as many rows as accounts have registers of what they store, publish and control.
fn are_as_many(world: &World, list: RowList<'_>) -> Result<bool, AllocError>
    ensures { IfOk result (λ b. IsTrue b ↔ (length (rows_listed list.entry) ≡ counted (world_of world.now).accounts)) }
{
    let rows = count_rows(list)?;
    let own = count_registers(world.accounts.as_slice())?;
    Ok(rows == own)
}

/// Whether rows are the registers of the sound World that was made of them: whether they are in order, begin with those in front and
/// are as many. Each row says one of its registers, so none of the others is written again.
fn are_registers(alloc: Global, world: &World, list: RowList<'_>) -> Result<bool, AllocError>
    requires made { IsMadeOf (rows_listed list) (world_of world.now) }
    requires sound { IsSoundButCode (world_of world.now) }
    ensures { IfOk result (λ b. IsTrue b ↔ Stands (rows_listed list.entry) (world_of world.now)) }
{
    if !are_in_order(list) {
        return Ok(false);
    }
    match behind_front(alloc, world, list) {
        Ok(Some(left)) => are_as_many(world, left),
        Ok(None) => Ok(false),
        Err(error) => Err(error),
    }
}

/// Whether a World is sound, whatever programs the codes of its contracts are: judged by what these programs declare.
fn is_sound_world(alloc: Global, world: &World) -> Result<bool, AllocError>
    ensures { IfOk result (λ b. IsTrue b ↔ IsSoundButCode (world_of world.now)) }
{
    let shapes = shapes_of_contracts(alloc, world.contracts.as_slice())?;
    let sound = is_sound(alloc, &shapes, world);
    drop(shapes);
    sound
}

/// Whether rows are the registers of the World that was made of them, which is sound but for its codes, and whose values have bytes
/// of their own.
pub fn stand_for(alloc: Global, world: &World, list: RowList<'_>) -> Result<bool, AllocError>
    requires { IsMadeOf (rows_listed list) (world_of world.now) }
    ensures { IfOk result (λ b. IsTrue b ↔ Stands (rows_listed list.entry) (world_of world.now)) }
{
    if !is_sound_world(alloc, world)? {
        return Ok(false);
    }
    are_registers(alloc, world, list)
}
