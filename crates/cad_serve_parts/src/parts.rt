// Parts of Worlds, as a store holds them.
ghost use Rattle.std.specs.Prelude.{◌≡◌, IfOk, IsTrue, OnOk, length, map};
ghost use Rattle.std.specs.Cmp.Lexicographic.{pointwise};
ghost use Rattle.cad_accounts.specs.Registers.{Leads};
ghost use Rattle.cad_world_reading.specs.Passed.{same_source};
ghost use Rattle.cad_loads.specs.Loads.{loaded_of, source_of};
ghost use Rattle.cad_state.specs.Views.{contract_of};
ghost use Rattle.cad_store.specs.Stores.{held};
ghost use Rattle.cad_world.specs.Registers.{map_of};
ghost use Rattle.cad_world.specs.Shapes.{shapes};
ghost use Rattle.cad_world.specs.State as definition;
ghost use Rattle.cad_world_reading.specs.Wanted.{IsPartOf};
ghost use Rattle.cad_worlds.specs.Parts.{world_over};
ghost use Rattle.cad_worlds.specs.Standing.{StandsFor, coding};
ghost use Rattle.cad_serve_parts.specs.Code.Parts.{StaysStanding, one_source, with_program, with_programs};
ghost use Rattle.cad_serve_parts.specs.Code.Worlds.{LeadsOn};

use cad_accounts::Changes;
use cad_contract_shapes::shapes_of_contracts;
use cad_discards::hold;
use cad_run_worlds::Unfinished;
use cad_state::{Contract, discard_shared};
use cad_store::Store;
use cad_syntax::Numbers;
use cad_world_checks::{PartSummary, part_has_bytes, stays_sound, summary_of};
use cad_world_reading::{Programs, known_part};
use cad_worlds::{WorldPart, discard_part, part_changes};
use std::alloc::{AllocError, Global};
use std::mem::replace;

/// What a store tells of its World, where the accounts with these indexes are wanted. The code of a contract is checked where its
/// program isn't kept; then it is.
pub fn part_in(
    alloc: Global,
    programs: &mut Programs,
    store: &Store,
    wanted: &[u64],
) -> Result<WorldPart, AllocError>
    ensures { IfOk result (λ part. (w : definition.World) → StandsFor (held store.now) w → IsPartOf wanted.now w part) }
{
    known_part(alloc, programs, store.blocks(), wanted)
}

// ---- the contracts after a run

// Whether two contracts have one identifier and one code.
fn is_same(a: &Contract, b: &Contract) -> bool
    ensures { result ≡ same_source (one_source a.now) (one_source b.now) }
{
    a.id.same(&b.id) && a.code.as_slice() == b.code.as_slice()
}

// Whether contracts have the identifiers and the codes of others, one by one.
fn are_same(all: &[Contract], others: &[Contract]) -> bool
    ensures { result ≡ pointwise same_source (map one_source all.now) (map one_source others.now) }
{
    let mut left = all;
    for other in others {
        match left.split_first() {
            Some((first, rest)) => {
                if !is_same(first, other) {
                    return false;
                }
                left = rest;
            }
            None => return false,
        }
    }
    left.is_empty()
}

// A contract takes the program of another.
fn take_program(contract: &mut Contract, other: &Contract) -> Result<(), AllocError>
    ensures { OnOk result (contract_of contract.new ≡ with_program (contract_of contract.old) (contract_of other.now)) }
{
    let checked = hold(&other.checked)?;
    discard_shared(replace(&mut contract.checked, checked));
    Ok(())
}

// Contracts take the programs of as many others, one by one.
fn take_programs(contracts: &mut Vec<Contract>, others: &[Contract]) -> Result<(), AllocError>
    requires { length contracts.old.items ≡ length others.now }
    ensures { OnOk result (map contract_of contracts.new.items ≡ with_programs (length others.now) (map contract_of contracts.old.items) (map contract_of others.now)) }
{
    for i in 0..others.len() {
        take_program(&mut contracts[i], &others[i])?;
    }
    Ok(())
}

// ---- changes

// Whether a World of which something was known before a run stands for registers with what is known after it, where its contracts
// declare what they declared.
fn stays_standing(alloc: Global, before: &WorldPart, after: &WorldPart) -> Result<bool, AllocError>
    ensures { IfOk result (λ b. IsTrue b → StaysStanding before.now after.now) }
{
    let summary = summary_of(alloc, before)?;
    let contracts = after.contracts.as_slice();
    let shapes = shapes_of_contracts(alloc, contracts)?;
    let is_sound = stays_sound(alloc, &shapes, &summary, after)?;
    if !is_sound {
        return Ok(false);
    }
    part_has_bytes(alloc, after)
}

// What leads from a store's registers to those of what is known after a run, whose contracts have the programs that they had
// before. AllocError too where these stand for no sound World.
fn sound_changes(
    alloc: Global,
    store: &Store,
    before: &WorldPart,
    after: &WorldPart,
) -> Result<Changes, AllocError>
    ensures { IfOk result (λ changes. (w : definition.World) → StandsFor (held store.now) w → world_over w.accounts before.now ≡ w
        → map loaded_of (map contract_of after.now.contracts.items) ≡ map loaded_of w.contracts → LeadsOn (held store.now) (world_over w.accounts after.now) changes) }
{
    if !stays_standing(alloc, before, after)? {
        return Err(AllocError);
    }
    part_changes(alloc, store.blocks(), before.count, after)
}

// The same of contracts whose programs aren't known. Whole where they aren't those that were there before.
fn changes_from(
    alloc: Global,
    store: &Store,
    before: &WorldPart,
    after: &mut WorldPart,
) -> Result<Changes, Unfinished>
    ensures { IfOk result (λ changes. (w : definition.World) → StandsFor (held store.now) w → world_over w.accounts before.now ≡ w → LeadsOn (held store.now) (world_over w.accounts after.old) changes) }
{
    let contracts = before.contracts.as_slice();
    if !are_same(after.contracts.as_slice(), contracts) {
        return Err(Unfinished::Whole);
    }
    take_programs(&mut after.contracts, contracts)?;
    let changes = sound_changes(alloc, store, before, after)?;
    Ok(changes)
}

// The indexes of the accounts that are known after a run.
fn indexes_of(alloc: Global, after: &WorldPart) -> Result<Numbers, AllocError> {
    let known = after.known.as_slice();
    let mut indexes = Numbers::new(alloc);
    for one in known {
        indexes.push(one.index)?;
    }
    Ok(indexes)
}

// What a store tells of the accounts that are known after a run.
fn part_before(
    alloc: Global,
    programs: &mut Programs,
    store: &Store,
    after: &WorldPart,
) -> Result<WorldPart, AllocError>
    ensures { IfOk result (λ before. (w : definition.World) → StandsFor (held store.now) w → world_over w.accounts before ≡ w) }
{
    let indexes = indexes_of(alloc, after)?;
    part_in(alloc, programs, store, indexes.as_slice())
}

/// What leads from a store's registers to those of what is known after a run. Whole where it added contracts. AllocError too where
/// the registers stand for no sound World: no run is known to leave such registers, but where a value has bytes that another has too.
pub fn part_changes_to(
    alloc: Global,
    programs: &mut Programs,
    store: &Store,
    after: WorldPart,
) -> Result<Changes, Unfinished>
    ensures { IfOk result (λ changes. (w : definition.World) → StandsFor (held store.now) w → LeadsOn (held store.now) (world_over w.accounts after) changes) }
{
    match part_before(alloc, programs, store, &after) {
        Ok(before) => {
            let mut left = after;
            let changes = changes_from(alloc, store, &before, &mut left);
            discard_part(before);
            discard_part(left);
            changes
        }
        Err(_) => {
            discard_part(after);
            Err(Unfinished::Memory)
        }
    }
}
