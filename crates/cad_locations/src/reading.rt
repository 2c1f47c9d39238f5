// What stands at a location.
ghost use Rattle.std.specs.Prelude.{◌≡◌, None, option_map};
ghost use Rattle.cad_outcomes.specs.Outcomes.{Gives, no_value};
ghost use Rattle.cad_state.specs.Views.{FindsAndCarriesOut};
ghost use Rattle.cad_world.specs.Locations as spec;
ghost use Rattle.cad_world.specs.State.{ok};
ghost use Rattle.cad_locations.specs.Code.Errors as errors;
ghost use Rattle.cad_locations.specs.Code.Slots.{node_there, slot_seen};
ghost use Rattle.cad_locations.specs.Views.{location_of, looked_up, tree_seen};

use crate::location::Location;
use crate::lookup::{SeenSlot, slot_at};
use cad_nodes::find;
use cad_outcomes::{RunError, Stop};
use cad_rows::{Place, Shape};
use cad_state::RunState;

/// A value that is lent where it stands: how many optionals it is in, its shape, and the row of its own places.
#[derive(Clone, Copy)]
pub struct Seen<'a> {
    pub optionals: u64,
    pub shape: &'a Shape,
    pub parts: &'a [Place],
}

/// The node of a location is found. 113 where it is gone.
pub fn locate(state: &mut RunState, location: &Location) -> Result<(), Stop>
    ensures { FindsAndCarriesOut no_value (node_there (location_of location.now)) state.old state.new result }
{
    match location {
        Location::Variable(_) => Ok(()),
        Location::Contract(_) => Ok(()),
        Location::Receiver(label) => find(state, *label),
        Location::Part(label, _) => find(state, *label),
        Location::Element(label, _) => find(state, *label),
        Location::Entry(label, _) => find(state, *label),
    }
}

/// Looks a location up; `read` finds what stands there from then on. 113 where its node is gone, 104 where there is no such
/// element, IllTyped where the node isn't of its kind.
pub fn settle(state: &mut RunState, location: &Location) -> Result<(), Stop>
    ensures { FindsAndCarriesOut no_value (looked_up (location_of location.now)) state.old state.new result }
{
    match locate(state, location) {
        Ok(()) => look(state, location),
        Err(stop) => Err(stop),
    }
}

/// Looks a location up whose node was found.
fn look(state: &RunState, location: &Location) -> Result<(), Stop>
    ensures { FindsAndCarriesOut no_value (looked_up (location_of location.now)) state.now state.now result }
{
    match slot_at(state, location) {
        Ok(_) => Ok(()),
        Err(stop) => Err(stop),
    }
}

/// The error of an empty place.
pub fn empty_stop(location: &Location) -> Stop
    ensures { result ≡ errors.empty_stop (location_of location.now) }
{
    match location {
        Location::Part(_, _) => Stop::Failed(RunError::ContractUnset),
        Location::Element(_, _) => Stop::Failed(RunError::ReferenceInvalid),
        Location::Entry(_, _) => Stop::Failed(RunError::ReferenceInvalid),
        _ => Stop::IllTyped,
    }
}

/// What is read of a value that stands there: under a key it is the content of an optional.
fn as_read<'a>(location: &Location, seen: Seen<'a>) -> Result<Seen<'a>, Stop>
    ensures { Gives tree_seen (λ s. ok (spec.as_read (location_of location.now) (tree_seen seen.entry)) s) result }
{
    match location {
        Location::Entry(_, _) => {
            if seen.optionals == u64::MAX {
                return Err(Stop::Memory);
            }
            Ok(Seen {
                optionals: seen.optionals + 1,
                shape: seen.shape,
                parts: seen.parts,
            })
        }
        _ => Ok(seen),
    }
}

/// What is read where there is no such place: nothing under a key that a dictionary lacks.
fn absent(location: &Location) -> Result<(), Stop>
    ensures { Gives (λ _. None) (spec.absent (location_of location.now)) result }
{
    match location {
        Location::Entry(_, _) => Ok(()),
        _ => Err(Stop::IllTyped),
    }
}

/// What is read in a place.
fn read_slot<'a>(location: &Location, slot: SeenSlot<'a>) -> Result<Option<Seen<'a>>, Stop>
    ensures { Gives (option_map tree_seen) (spec.read_slot (location_of location.now) (slot_seen slot.entry)) result }
{
    match slot {
        SeenSlot::Full(seen) => match as_read(location, seen) {
            Ok(value) => Ok(Some(value)),
            Err(stop) => Err(stop),
        },
        SeenSlot::Free => Err(empty_stop(location)),
        SeenSlot::Out => match absent(location) {
            Ok(()) => Ok(None),
            Err(stop) => Err(stop),
        },
    }
}

/// What stands at a location that was settled; None where a dictionary lacks the key. 113 where its node is gone or a swap has
/// taken out what stood there, 104 where there is no such element, 132 where a field isn't set, IllTyped where the location
/// isn't one of its node; want of memory where it wasn't settled.
pub fn read<'a>(state: &'a RunState, location: &Location) -> Result<Option<Seen<'a>>, Stop>
    ensures { FindsAndCarriesOut (option_map tree_seen) (spec.read (location_of location.now)) state.now state.now result }
{
    match slot_at(state, location) {
        Ok(slot) => read_slot(location, slot),
        Err(stop) => Err(stop),
    }
}
