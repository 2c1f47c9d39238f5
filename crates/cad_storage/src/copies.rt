// `copy`: a copy of what is stored.
ghost use Rattle.std.specs.Prelude.{◌≡◌, IfOk};
ghost use Rattle.cad_evaluation.specs.Storage as spec;
ghost use Rattle.cad_outcomes.specs.Outcomes.{Gives, no_value};
ghost use Rattle.cad_rows.specs.Places.{pure_slot};
ghost use Rattle.cad_rows.specs.Views.{pure_row, pure_tree};
ghost use Rattle.cad_state.specs.Views.{CarriesOut, FindsAndCarriesOut};
ghost use Rattle.cad_storage.specs.Code as code;
ghost use Rattle.cad_syntax.specs.Types.{pure_type};
ghost use Rattle.cad_world.specs.Rows.{bare_tree};
ghost use Rattle.cad_world.specs.Trees.{wrapped};

use crate::arguments::identifier_at;
use crate::typed::is_there;
use crate::units::{pay_stored, wrap};
use cad_operators::nil_tree;
use cad_outcomes::Stop;
use cad_rows::{Place, Slot, Tree, copy_tree, owns};
use cad_run_accounts::stored_slot;
use cad_state::RunState;
use cad_syntax::{Address, CadType, Name};
use std::alloc::{AllocError, Global};

/// Whether a resource stands in a place.
fn slot_owns(slot: Slot<'_>) -> bool
    ensures { result ≡ code.slot_owns (pure_slot slot.entry) }
{
    match slot {
        Slot::Full(tree) => owns(tree),
        _ => false,
    }
}

/// IllTyped where there is a resource in what stands in a place.
fn check_slot(slot: Slot<'_>) -> Result<(), Stop>
    ensures { Gives no_value (code.copyable (pure_slot slot.entry)) result }
{
    if slot_owns(slot) {
        return Err(Stop::IllTyped);
    }
    Ok(())
}

/// IllTyped where there is a resource in what an account stores under an identifier.
fn check_copyable(state: &RunState, address: Address, name: &Name) -> Result<(), Stop>
    ensures { CarriesOut no_value (code.at_stored code.copyable address name.now) state.now state.now result }
{
    match stored_slot(state, address, name) {
        Ok(slot) => check_slot(slot),
        Err(_) => Err(Stop::Memory),
    }
}

/// A copy of a value, in an optional.
fn copy_whole(alloc: Global, tree: &Tree) -> Result<Tree, AllocError>
    ensures { IfOk result (λ t. pure_tree t ≡ wrapped (bare_tree (pure_tree tree.now))) }
{
    let copy = copy_tree(alloc, tree)?;
    wrap(copy)
}

/// A copy of what stands in a place, in an optional.
fn copy_slot(alloc: Global, slot: Slot<'_>) -> Result<Tree, Stop>
    ensures { Gives pure_tree (code.of_full code.copied_whole (pure_slot slot.entry)) result }
{
    match slot {
        Slot::Full(tree) => match copy_whole(alloc, tree) {
            Ok(copy) => Ok(copy),
            Err(_) => Err(Stop::Memory),
        },
        _ => Err(Stop::IllTyped),
    }
}

/// A copy of what an account stores under an identifier, in an optional.
fn copy_stored(state: &RunState, address: Address, name: &Name) -> Result<Tree, Stop>
    ensures { CarriesOut pure_tree (code.at_stored (code.of_full code.copied_whole) address name.now) state.now state.now result }
{
    match stored_slot(state, address, name) {
        Ok(slot) => copy_slot(*state.making.allocator(), slot),
        Err(_) => Err(Stop::Memory),
    }
}

/// The same, and its parts are paid before.
fn pay_and_copy(state: &mut RunState, address: Address, name: &Name) -> Result<Tree, Stop>
    ensures { CarriesOut pure_tree (code.at_stored (code.of_full code.paid_and_copied) address name.now) state.old state.new result }
{
    match pay_stored(state, address, name) {
        Ok(()) => copy_stored(state, address, name),
        Err(stop) => Err(stop),
    }
}

/// The same where there is no resource in it. IllTyped where there is.
fn check_and_copy(state: &mut RunState, address: Address, name: &Name) -> Result<Tree, Stop>
    ensures { CarriesOut pure_tree (code.at_stored (code.of_full code.copied_if) address name.now) state.old state.new result }
{
    match check_copyable(state, address, name) {
        Ok(()) => pay_and_copy(state, address, name),
        Err(stop) => Err(stop),
    }
}

/// A copy of what an account stores under an identifier if it is of the type; nil where nothing is stored.
fn copy_at(
    state: &mut RunState,
    wanted: &CadType,
    address: Address,
    name: &Name,
) -> Result<Tree, Stop>
    ensures { FindsAndCarriesOut pure_tree (code.at_stored (spec.copy_of (pure_type wanted.now)) address name.now) state.old state.new result }
{
    match is_there(state, wanted, address, name) {
        Ok(true) => check_and_copy(state, address, name),
        Ok(false) => Ok(nil_tree(*state.making.allocator())),
        Err(stop) => Err(stop),
    }
}

/// A copy of what an account stores under the path that the argument is, in an optional, with a unit for each part of it but the first;
/// nil where nothing is stored. StoredTypeMismatch where it isn't of the type, ReferenceInvalid where it is a reference to what is gone,
/// Limit where so many units aren't left, IllTyped where there is a resource in it, or the argument is no path into storage.
pub fn copy(
    state: &mut RunState,
    wanted: &CadType,
    row: &[Place],
    address: Address,
) -> Result<Tree, Stop>
    ensures { FindsAndCarriesOut pure_tree (spec.copy (pure_type wanted.now) (pure_row row.now) address) state.old state.new result }
{
    match identifier_at(row, 0) {
        Some(name) => copy_at(state, wanted, address, name),
        None => Err(Stop::IllTyped),
    }
}
