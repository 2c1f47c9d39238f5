// `save`: a value comes to a place in storage.
ghost use Rattle.std.specs.Prelude.{◌≡◌, option_and_then, IfOk};
ghost use Rattle.cad_evaluation.specs.Arguments.{argument, identifier_in, with_argument, with_identifier};
ghost use Rattle.cad_evaluation.specs.Containers as containers;
ghost use Rattle.cad_evaluation.specs.Storage as spec;
ghost use Rattle.cad_outcomes.specs.Outcomes.{Gives, no_value};
ghost use Rattle.cad_rows.specs.Places.{pure_slot};
ghost use Rattle.cad_rows.specs.Views.{pure_row, pure_tree};
ghost use Rattle.cad_state.specs.Views.{CarriesOut};
ghost use Rattle.cad_storage.specs.Code as code;
ghost use Rattle.cad_syntax.specs.declared.address.Domain.TheVariants as d;

use crate::arguments::{identifier_at, take_first};
use crate::units::pay;
use cad_operators::plain_tree;
use cad_outcomes::{RunError, Stop};
use cad_rows::{Place, Slot, Tree, discard_row, discard_tree};
use cad_run_accounts::{is_account, store, stored_slot};
use cad_state::RunState;
use cad_syntax::{Address, Name};
use cad_values::Value;
use std::alloc::{AllocError, Global};

/// PathOccupied where something stands in a place.
fn check_slot(slot: Slot<'_>) -> Result<(), Stop>
    ensures { Gives no_value (code.vacant (pure_slot slot.entry)) result }
{
    match slot {
        Slot::Full(_) => Err(Stop::Failed(RunError::PathOccupied)),
        Slot::Out => Ok(()),
        Slot::Free => Err(Stop::IllTyped),
    }
}

/// PathOccupied where an account stores something under an identifier.
fn check_vacant(state: &RunState, address: Address, name: &Name) -> Result<(), Stop>
    ensures { CarriesOut no_value (code.at_stored code.vacant address name.now) state.now state.now result }
{
    match stored_slot(state, address, name) {
        Ok(slot) => check_slot(slot),
        Err(_) => Err(Stop::Memory),
    }
}

/// The value of what gives none.
fn void_tree(alloc: Global) -> Tree
    ensures { pure_tree result ≡ containers.void_tree }
{
    plain_tree(alloc, Value::Void)
}

/// An account stores a value under an identifier that it lacks.
fn put(state: &mut RunState, address: Address, name: Name, tree: Tree) -> Result<Tree, Stop>
    ensures { CarriesOut pure_tree (code.stored address name (pure_tree tree)) state.old state.new result }
{
    match store(state, address, name, tree) {
        Ok(()) => Ok(void_tree(*state.making.allocator())),
        Err(_) => Err(Stop::Memory),
    }
}

/// The same, and the parts of the value are paid before.
fn pay_and_put(state: &mut RunState, address: Address, name: Name, tree: Tree) -> Result<Tree, Stop>
    ensures { CarriesOut pure_tree (code.paid_and_stored address name (pure_tree tree)) state.old state.new result }
{
    match pay(state, &tree) {
        Ok(()) => put(state, address, name, tree),
        Err(stop) => {
            discard_tree(tree);
            Err(stop)
        }
    }
}

/// An account stores a value under an identifier. PathOccupied where it stores something there.
fn save_value(state: &mut RunState, address: Address, name: Name, tree: Tree) -> Result<Tree, Stop>
    ensures { CarriesOut pure_tree (code.at_stored (spec.saved address name (pure_tree tree)) address name) state.old state.new result }
{
    match check_vacant(state, address, &name) {
        Ok(()) => pay_and_put(state, address, name, tree),
        Err(stop) => {
            discard_tree(tree);
            Err(stop)
        }
    }
}

/// An account stores the first argument under an identifier; IllTyped where there is none.
fn save_first(
    state: &mut RunState,
    address: Address,
    name: Name,
    row: Vec<Place>,
) -> Result<Tree, Stop>
    ensures { CarriesOut pure_tree (with_argument (pure_row row.items) (λ t. code.at_stored (spec.saved address name t) address name)) state.old state.new result }
{
    match take_first(row) {
        Some(tree) => save_value(state, address, name, tree),
        None => Err(Stop::IllTyped),
    }
}

/// The identifier of the path into storage that the second argument is.
fn identifier(row: &[Place]) -> Result<Option<Name>, AllocError>
    ensures { IfOk result (λ o. o ≡ option_and_then (identifier_in d.Storage) (argument 1 (pure_row row.now))) }
{
    match identifier_at(row, 1) {
        Some(name) => Ok(Some(name.clone()?)),
        None => Ok(None),
    }
}

/// An account stores the first argument under the path that the second is.
fn save_arguments(state: &mut RunState, address: Address, row: Vec<Place>) -> Result<Tree, Stop>
    ensures { CarriesOut pure_tree (with_argument (pure_row row.items) (λ t. with_identifier d.Storage 1 (pure_row row.items) (λ name. code.at_stored (spec.saved address name t) address name))) state.old state.new result }
{
    match identifier(row.as_slice()) {
        Ok(Some(name)) => save_first(state, address, name, row),
        Ok(None) => {
            discard_row(row);
            Err(Stop::IllTyped)
        }
        Err(_) => {
            discard_row(row);
            Err(Stop::Memory)
        }
    }
}

/// An account stores the first argument under the path that the second is, with a unit for each part of it but the first.
/// PathOccupied where something is stored there, Limit where so many units aren't left, IllTyped where there is no such account, or
/// the second argument is no path into storage. A value that isn't stored is let go.
pub fn save(state: &mut RunState, address: Address, row: Vec<Place>) -> Result<Tree, Stop>
    ensures { CarriesOut pure_tree (spec.save (pure_row row.items) address) state.old state.new result }
{
    if is_account(state, address) {
        return save_arguments(state, address, row);
    }
    discard_row(row);
    Err(Stop::IllTyped)
}
