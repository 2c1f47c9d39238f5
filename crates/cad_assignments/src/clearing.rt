// An old value goes before a new one comes.
ghost use Rattle.std.specs.Prelude.{◌≡◌};
ghost use Rattle.cad_outcomes.specs.Outcomes.{Gives, no_value};
ghost use Rattle.cad_rows.specs.Owned.{is_resource};
ghost use Rattle.cad_rows.specs.Views.{pure_shape};
ghost use Rattle.cad_state.specs.Views.{FindsAndCarriesOut};
ghost use Rattle.cad_world.specs.Rows.{tree_owns};
ghost use Rattle.cad_assignments.specs.Code.Changes as code;
ghost use Rattle.cad_locations.specs.Views.{location_of, tree_seen};

use crate::opened::is_nil;
use crate::taking::empty;
use cad_locations::{Location, Seen, SeenSlot, empty_stop, locate, slot_at};
use cad_outcomes::{RunError, Stop};
use cad_rows::{Shape, discard_tree, row_owns};
use cad_state::RunState;

/// Whether a shape is that of a resource.
fn is_resource(shape: &Shape) -> bool
    ensures { result ≡ is_resource (pure_shape shape.now) }
{
    match shape {
        Shape::Composite { identity, .. } => *identity != 0,
        _ => false,
    }
}

/// Whether a value is a resource, or has one in it.
#[tactic(auto, using(crate::proofs::Changes::owned_so))]
fn holds_resource(node: Seen<'_>) -> bool
    ensures { result ≡ tree_owns (tree_seen node.entry) }
{
    is_resource(node.shape) || row_owns(node.parts)
}

/// What stands in a place goes.
fn drop_old(state: &mut RunState, location: &Location) -> Result<(), Stop>
    ensures { FindsAndCarriesOut no_value (code.gone (location_of location.now)) state.old state.new result }
{
    match empty(state, location) {
        Ok(Some(tree)) => {
            discard_tree(tree);
            Ok(())
        }
        Ok(None) => Ok(()),
        Err(stop) => Err(stop),
    }
}

/// An old value goes, where the node was found; IllTyped where there is a resource in it.
fn clear_old_found(state: &mut RunState, location: &Location) -> Result<(), Stop>
    ensures { FindsAndCarriesOut no_value (code.old_cleared (location_of location.now)) state.old state.new result }
{
    match slot_at(state, location) {
        Ok(SeenSlot::Full(node)) => {
            if holds_resource(node) {
                return Err(Stop::IllTyped);
            }
            drop_old(state, location)
        }
        Ok(SeenSlot::Free) => Ok(()),
        Ok(SeenSlot::Out) => Ok(()),
        Err(stop) => Err(stop),
    }
}

/// An old value goes; IllTyped where there is a resource in it.
pub(crate) fn clear_old(state: &mut RunState, location: &Location) -> Result<(), Stop>
    ensures { FindsAndCarriesOut no_value (code.old_cleared (location_of location.now)) state.old state.new result }
{
    match locate(state, location) {
        Ok(()) => clear_old_found(state, location),
        Err(stop) => Err(stop),
    }
}

/// A value is nil: 115 of another optional, IllTyped of what is none.
fn expect_nil(node: Seen<'_>) -> Result<(), Stop>
    ensures { Gives no_value (code.nil_in (tree_seen node.entry)) result }
{
    if node.optionals > 0 {
        return Err(Stop::Failed(RunError::ForceAssignOccupied));
    }
    if is_nil(node.shape) {
        return Ok(());
    }
    Err(Stop::IllTyped)
}

/// What is read at a location is nil: 115 of another optional, and so of what stands under a key; IllTyped of what is none.
fn expect_nil_read(location: &Location, node: Seen<'_>) -> Result<(), Stop>
    ensures { Gives no_value (code.nil_read (location_of location.now) (tree_seen node.entry)) result }
{
    match location {
        Location::Entry(_, _) => Err(Stop::Failed(RunError::ForceAssignOccupied)),
        _ => expect_nil(node),
    }
}

/// There is no such place: nothing has to go under a key that a dictionary lacks.
fn nothing_to_clear(location: &Location) -> Result<(), Stop>
    ensures { Gives no_value (code.nothing_cleared (location_of location.now)) result }
{
    match location {
        Location::Entry(_, _) => Ok(()),
        _ => Err(Stop::IllTyped),
    }
}

/// Nil goes, where the node was found.
fn clear_nil_found(state: &mut RunState, location: &Location) -> Result<(), Stop>
    ensures { FindsAndCarriesOut no_value (code.nil_cleared (location_of location.now)) state.old state.new result }
{
    match slot_at(state, location) {
        Ok(SeenSlot::Full(node)) => match expect_nil_read(location, node) {
            Ok(()) => drop_old(state, location),
            Err(stop) => Err(stop),
        },
        Ok(SeenSlot::Free) => Err(empty_stop(location)),
        Ok(SeenSlot::Out) => nothing_to_clear(location),
        Err(stop) => Err(stop),
    }
}

/// Nil goes: 115 where another optional stands there.
pub(crate) fn clear_nil(state: &mut RunState, location: &Location) -> Result<(), Stop>
    ensures { FindsAndCarriesOut no_value (code.nil_cleared (location_of location.now)) state.old state.new result }
{
    match locate(state, location) {
        Ok(()) => clear_nil_found(state, location),
        Err(stop) => Err(stop),
    }
}
