// Places that statements change.
ghost use Rattle.std.specs.Prelude.{Bool};
ghost use Rattle.cad_declarations.specs.Views.{place_of};
ghost use Rattle.cad_expressions.specs.Passed.{standing_of};
ghost use Rattle.cad_locations.specs.Views.{location_of};
ghost use Rattle.cad_state.specs.Views.{FindsAndCarriesOut};
ghost use Rattle.cad_statement_leaves.specs.Code.Parts as parts;

use cad_declarations::Place;
use cad_expressions::{Callees, Standing, eval_place, location};
use cad_locations::Location;
use cad_outcomes::Stop;
use cad_state::RunState;

/// What a place leads to, after the unit of its statement. Errors are those of the place.
#[inline(never)]
pub(crate) fn first_place<C: Callees>(
    place: &Place,
    writes: bool,
    callees: &C,
    state: &mut RunState,
) -> Result<Standing, Stop>
    requires { C.is_ready callees.now }
    ensures { FindsAndCarriesOut standing_of (parts.place_of (C.front callees.now) (C.calls callees.now) (place_of place.now) writes) state.old state.new result }
{
    match state.tick() {
        Ok(()) => eval_place(place, writes, callees, state),
        Err(stop) => Err(stop),
    }
}

/// Where a place stands that is written. Errors are those of the place.
#[inline(never)]
pub(crate) fn locate<C: Callees>(
    place: &Place,
    callees: &C,
    state: &mut RunState,
) -> Result<Location, Stop>
    requires { C.is_ready callees.now }
    ensures { FindsAndCarriesOut location_of (parts.location (C.front callees.now) (C.calls callees.now) (place_of place.now)) state.old state.new result }
{
    match eval_place(place, true, callees, state) {
        Ok(found) => location(found),
        Err(stop) => Err(stop),
    }
}

/// The same, after the unit of the statement.
#[inline(never)]
pub(crate) fn first_location<C: Callees>(
    place: &Place,
    callees: &C,
    state: &mut RunState,
) -> Result<Location, Stop>
    requires { C.is_ready callees.now }
    ensures { FindsAndCarriesOut location_of (parts.first_location (C.front callees.now) (C.calls callees.now) (place_of place.now)) state.old state.new result }
{
    match first_place(place, true, callees, state) {
        Ok(found) => location(found),
        Err(stop) => Err(stop),
    }
}
