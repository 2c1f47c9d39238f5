// What stands in a place, as what a member is used on.
ghost use Rattle.std.specs.Prelude.{Option, Some, option_map};
ghost use Rattle.cad_locations.specs.Views.{location_of, tree_seen};
ghost use Rattle.cad_selections.specs.Code.Arrivals.{arrival_of, stood};
ghost use Rattle.cad_selections.specs.Code.Readings.{Leaves, FindsAndLeaves};
ghost use Rattle.cad_selections.specs.Views.{received};
ghost use Rattle.cad_receivers.specs.Views.{receiver_of};
ghost use Rattle.cad_state.specs.Views.{FindsAndCarriesOut};
ghost use Rattle.cad_syntax.specs.declared.types.Authorization as rights_of;
ghost use Rattle.cad_world.specs.Locations as locations;
ghost use Rattle.cad_world.specs.Receivers as spec;
ghost use Rattle.cad_world.specs.State.{State};
ghost use Rattle.cad_evaluation.specs.Standing.{without};

use cad_access::is_reference;
use cad_locations::{Location, Seen, name, read, settle};
use cad_outcomes::Stop;
use cad_receivers::{Receiver, discard_rights};
use cad_rows::{Shape, copy_shape};
use cad_state::RunState;
use cad_syntax::Authorization;
use cad_values::Value;
use std::alloc::Global;

/// What a value in a place is as what a member is used on, before its node is named.
pub(crate) enum Arrival {
    /// What a reference leads to.
    Through(Shape),
    /// The node itself, seen in so many optionals.
    Here(u64),
    /// Nothing is there.
    Nil,
}

/// What a value that is seen in a place is, without so many of its optionals.
fn arrival_of_value(alloc: Global, seen: Seen<'_>, sees: u64) -> Result<Arrival, Stop>
    ensures { (rights : Option rights_of.Authorization) (x : locations.Location) (s : State) → Leaves (arrival_of rights x) (spec.receiver_with rights x (without sees (Some (tree_seen seen.entry)))) s result }
{
    let optionals = seen.optionals.saturating_sub(sees);
    if is_reference(optionals, seen.shape) {
        match copy_shape(alloc, seen.shape) {
            Ok(shape) => Ok(Arrival::Through(shape)),
            Err(_) => Err(Stop::Memory),
        }
    } else {
        Ok(Arrival::Here(optionals))
    }
}

/// What stands in a place that is seen, without so many of its optionals.
fn arrival_of_seen(alloc: Global, seen: Option<Seen<'_>>, sees: u64) -> Result<Arrival, Stop>
    ensures { (rights : Option rights_of.Authorization) (x : locations.Location) (s : State) → Leaves (arrival_of rights x) (spec.receiver_with rights x (without sees (option_map tree_seen seen.entry))) s result }
{
    match seen {
        Some(value) => arrival_of_value(alloc, value, sees),
        None => Ok(Arrival::Nil),
    }
}

/// What stands in a place that was settled, without so many of its optionals.
fn arrival_at(state: &RunState, location: &Location, sees: u64) -> Result<Arrival, Stop>
    ensures { (rights : Option rights_of.Authorization) → FindsAndLeaves (arrival_of rights (location_of location.now)) (received rights (location_of location.now) sees) state.now result }
{
    match read(state, location) {
        Ok(seen) => arrival_of_seen(*state.making.allocator(), seen, sees),
        Err(stop) => Err(stop),
    }
}

/// The node in a place as a receiver; it gets one label more.
fn stand(
    state: &mut RunState,
    rights: Option<Authorization>,
    location: &Location,
    sees: u64,
) -> Result<Receiver, Stop>
    ensures { FindsAndCarriesOut receiver_of (stood rights (location_of location.now) sees) state.old state.new result }
{
    match name(state, location) {
        Ok(label) => Ok(Receiver::Standing {
            rights,
            label,
            sees,
        }),
        Err(stop) => {
            discard_rights(rights);
            Err(stop)
        }
    }
}

/// What was found out becomes a receiver.
fn arrive(
    state: &mut RunState,
    rights: Option<Authorization>,
    location: &Location,
    arrival: Arrival,
) -> Result<Receiver, Stop>
    ensures { FindsAndCarriesOut receiver_of (arrival_of rights (location_of location.now) arrival) state.old state.new result }
{
    match arrival {
        Arrival::Here(sees) => stand(state, rights, location, sees),
        Arrival::Through(shape) => {
            discard_rights(rights);
            Ok(Receiver::Through(shape))
        }
        Arrival::Nil => {
            discard_rights(rights);
            Ok(Receiver::Absent(Shape::Plain(Value::Nil)))
        }
    }
}

/// The value in a place that was settled, as a receiver.
fn receive_settled(
    state: &mut RunState,
    rights: Option<Authorization>,
    location: &Location,
    sees: u64,
) -> Result<Receiver, Stop>
    ensures { FindsAndCarriesOut receiver_of (received rights (location_of location.now) sees) state.old state.new result }
{
    match arrival_at(state, location, sees) {
        Ok(arrival) => arrive(state, rights, location, arrival),
        Err(stop) => {
            discard_rights(rights);
            Err(stop)
        }
    }
}

/// The value in a place without so many of its optionals, as what a member is used on: what a reference leads to, or the node
/// itself, which gets a label more, or nil where a dictionary lacks the key. The errors are those of reading the place.
pub fn receive(
    state: &mut RunState,
    rights: Option<Authorization>,
    location: &Location,
    sees: u64,
) -> Result<Receiver, Stop>
    ensures { FindsAndCarriesOut receiver_of (received rights (location_of location.now) sees) state.old state.new result }
{
    match settle(state, location) {
        Ok(()) => receive_settled(state, rights, location, sees),
        Err(stop) => {
            discard_rights(rights);
            Err(stop)
        }
    }
}
