// The values in places: copied, and taken out.
ghost use Rattle.std.specs.Prelude.{◌≡◌, false, None, MatchOption};
ghost use Rattle.cad_evaluation.specs.Reading.{copied};
ghost use Rattle.cad_evaluation.specs.Standing as spec;
ghost use Rattle.cad_locations.specs.Views.{location_of};
ghost use Rattle.cad_outcomes.specs.Outcomes.{Gives};
ghost use Rattle.cad_receivers.specs.Views.{at_spot, settled_of};
ghost use Rattle.cad_rows.specs.Views.{pure_shape, pure_tree};
ghost use Rattle.cad_standing.specs.Actions.{and_then};
ghost use Rattle.cad_standing.specs.Views.{standing_of};
ghost use Rattle.cad_state.specs.Views.{FindsAndCarriesOut};
ghost use Rattle.cad_world.specs.Locations as locations;
ghost use Rattle.cad_world.specs.Receivers as receivers;
ghost use Rattle.cad_world.specs.State.{guard};
ghost use Rattle.cad_evaluation.specs.Changing as changing;

use crate::leaves::{copy_lent, leads, memory, optionals_left, shape};
use crate::standing::{Standing, discard_rights};
use cad_locations::{Location, discard_location, read, settle};
use cad_operators::nil_tree;
use cad_outcomes::Stop;
use cad_receivers::{Settled, look, settle_reference};
use cad_rows::{Shape, Tree, discard_tree};
use cad_state::RunState;

/// A copy of the value in a place. IllTyped where a resource is in it, and where no value stands there.
pub fn copy(state: &mut RunState, place: Standing) -> Result<Tree, Stop>
    ensures { FindsAndCarriesOut pure_tree (and_then (spec.value_at (standing_of place)) copied) state.old state.new result }
{
    match place {
        Standing::Here {
            rights,
            location,
            inside,
        } => {
            discard_rights(rights);
            let value = copy_here(state, &location, inside);
            discard_location(location);
            value
        }
        Standing::LedBy(reference) => {
            let value = copy_led(state, &reference);
            discard_tree(reference);
            value
        }
        Standing::Nowhere => Err(Stop::IllTyped),
    }
}

/// A copy of the value at a location, without so many of its optionals.
fn copy_here(state: &mut RunState, location: &Location, inside: u64) -> Result<Tree, Stop>
    ensures { FindsAndCarriesOut pure_tree (and_then (spec.value_at (spec.here None (location_of location.now) inside)) copied) state.old state.new result }
{
    match settle(state, location) {
        Ok(()) => copy_settled(state, location, inside),
        Err(stop) => Err(stop),
    }
}

/// The same at a location that was settled.
fn copy_settled(state: &RunState, location: &Location, inside: u64) -> Result<Tree, Stop>
    ensures { FindsAndCarriesOut pure_tree (and_then (spec.value_at (spec.here None (location_of location.now) inside)) copied) state.now state.now result }
{
    match read(state, location) {
        Ok(Some(seen)) => copy_lent(
            memory(state),
            optionals_left(seen.optionals, inside),
            seen.shape,
            seen.parts,
        ),
        Ok(None) => Ok(nil_tree(memory(state))),
        Err(stop) => Err(stop),
    }
}

/// A copy of the value to which a reference leads that was settled.
fn copy_receiver(state: &RunState, receiver: Settled<'_>) -> Result<Tree, Stop>
    ensures { FindsAndCarriesOut pure_tree (at_spot (settled_of receiver.entry) (λ spot. copied spot.tree)) state.now state.now result }
{
    match look(state, receiver) {
        Ok(spot) => copy_lent(memory(state), spot.optionals, spot.shape, spot.parts),
        Err(stop) => Err(stop),
    }
}

/// A copy of the value to which a reference of this shape leads.
fn copy_target(state: &mut RunState, shape: &Shape) -> Result<Tree, Stop>
    ensures { FindsAndCarriesOut pure_tree (and_then (receivers.deref (pure_shape shape.now)) (λ spot. copied spot.tree)) state.old state.new result }
{
    match settle_reference(state, shape) {
        Ok(settled) => copy_receiver(state, settled),
        Err(stop) => Err(stop),
    }
}

/// A copy of the value to which a reference leads.
fn copy_led(state: &mut RunState, reference: &Tree) -> Result<Tree, Stop>
    ensures { FindsAndCarriesOut pure_tree (and_then (spec.value_at (spec.led_by (pure_tree reference.now))) copied) state.old state.new result }
{
    if !leads(reference) {
        return Err(Stop::IllTyped);
    }
    copy_target(state, shape(reference))
}

/// The value leaves a place, which is that of a variable. IllTyped of any other.
pub fn take(state: &mut RunState, place: Standing) -> Result<Tree, Stop>
    ensures { FindsAndCarriesOut pure_tree (spec.taken_from (standing_of place)) state.old state.new result }
{
    match location(place) {
        Ok(found) => {
            let value = take_variable(state, &found);
            discard_location(found);
            value
        }
        Err(stop) => Err(stop),
    }
}

/// The variable that a location is, if it is one.
pub(crate) fn variable_at(location: &Location) -> Option<usize>
    ensures { MatchOption result (spec.is_variable (location_of location.now) ≡ false) (λ x. location_of location.now ≡ locations.variable x) }
{
    match location {
        Location::Variable(x) => Some(*x),
        _ => None,
    }
}

/// The value leaves a location, which is that of a variable.
fn take_variable(state: &mut RunState, location: &Location) -> Result<Tree, Stop>
    ensures { FindsAndCarriesOut pure_tree (guard (spec.is_variable (location_of location.now)) (changing.take (location_of location.now))) state.old state.new result }
{
    match variable_at(location) {
        Some(x) => state.take_variable(x),
        None => Err(Stop::IllTyped),
    }
}

/// Where a value is assigned. IllTyped of a place that is led by a reference, or inside an optional.
pub fn location(place: Standing) -> Result<Location, Stop>
    ensures { Gives location_of (spec.location_of (standing_of place)) result }
{
    match place {
        Standing::Here {
            rights,
            location,
            inside,
        } => {
            discard_rights(rights);
            if inside == 0 {
                return Ok(location);
            }
            discard_location(location);
            Err(Stop::IllTyped)
        }
        Standing::LedBy(reference) => {
            discard_tree(reference);
            Err(Stop::IllTyped)
        }
        Standing::Nowhere => Err(Stop::IllTyped),
    }
}
