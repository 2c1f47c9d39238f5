// Optionals in places.
ghost use Rattle.std.specs.Prelude.{◌≡◌};
ghost use Rattle.cad_evaluation.specs.Changing as changing;
ghost use Rattle.cad_evaluation.specs.Standing as spec;
ghost use Rattle.cad_evaluation.specs.Uses.{nil_of, nil_told, turned_if};
ghost use Rattle.cad_locations.specs.Views.{location_of};
ghost use Rattle.cad_outcomes.specs.Outcomes.{Gives};
ghost use Rattle.cad_receivers.specs.Views.{at_spot, settled_of};
ghost use Rattle.cad_rows.specs.Views.{pure_shape, pure_tree};
ghost use Rattle.cad_standing.specs.Code.Plans.{content_if, nil_there as told_nil};
ghost use Rattle.cad_standing.specs.Actions.{and_then};
ghost use Rattle.cad_standing.specs.Views.{standing_of};
ghost use Rattle.cad_state.specs.Views.{FindsAndCarriesOut};
ghost use Rattle.cad_values.specs.Values.{pure_value};
ghost use Rattle.cad_world.specs.Receivers as receivers;
ghost use Rattle.cad_world.specs.Rows.{Row};

use crate::leaves::{leads, memory, optionals_left, shape};
use crate::standing::{Standing, discard_rights};
use cad_locations::{Location, discard_location, read, settle};
use cad_operators::bool_tree;
use cad_outcomes::{RunError, Stop};
use cad_receivers::{Settled, look, settle_reference};
use cad_rows::{Shape, Tree, discard_tree};
use cad_state::RunState;
use cad_syntax::Authorization;
use cad_values::Value;

/// Whether a value without optionals is nil. IllTyped of any other: it is no optional.
fn nil_of_value(value: &Value) -> Result<bool, Stop>
    ensures { Gives (λ b. b) (nil_of (changing.content_in_value (pure_value value.now))) result }
{
    match value {
        Value::Nil => Ok(true),
        _ => Err(Stop::IllTyped),
    }
}

/// Whether a node without optionals is nil. IllTyped of any other.
fn nil_of_shape(shape: &Shape) -> Result<bool, Stop>
    ensures { Gives (λ b. b) (nil_of (changing.content_in_shape (pure_shape shape.now))) result }
{
    match shape {
        Shape::Plain(value) => nil_of_value(value),
        _ => Err(Stop::IllTyped),
    }
}

/// Whether an optional is nil, whatever its parts. IllTyped of what is no optional.
#[tactic(auto, using(crate::proofs::NilLaws::nil_in_some))]
pub(crate) fn nil_of_lent(optionals: u64, shape: &Shape) -> Result<bool, Stop>
    ensures { (parts : Row) → Gives (λ b. b) (nil_of (changing.content_of (record { optionals = optionals; shape = pure_shape shape.now; parts = parts }))) result }
{
    if optionals != 0 {
        return Ok(false);
    }
    nil_of_shape(shape)
}

/// Whether the optional at a location that was settled is nil, without so many optionals round it.
fn nil_settled(state: &RunState, location: &Location, inside: u64) -> Result<bool, Stop>
    ensures { FindsAndCarriesOut (λ b. b) (told_nil (location_of location.now) inside) state.now state.now result }
{
    match read(state, location) {
        Ok(Some(seen)) => nil_of_lent(optionals_left(seen.optionals, inside), seen.shape),
        Ok(None) => Ok(true),
        Err(stop) => Err(stop),
    }
}

/// Whether the optional at a location is nil, without so many optionals round it. IllTyped of what is no optional.
fn nil_there(state: &mut RunState, location: &Location, inside: u64) -> Result<bool, Stop>
    ensures { FindsAndCarriesOut (λ b. b) (told_nil (location_of location.now) inside) state.old state.new result }
{
    match settle(state, location) {
        Ok(()) => nil_settled(state, location, inside),
        Err(stop) => Err(stop),
    }
}

/// The end of a chain, but ForceNil where the optional is forced.
fn nil_at(forces: bool) -> Result<Standing, Stop>
    ensures { Gives standing_of (spec.nil_at forces) result }
{
    if forces {
        Err(Stop::Failed(RunError::ForceNil))
    } else {
        Ok(Standing::Nowhere)
    }
}

/// The place of the content of an optional that is nil or isn't.
fn content_by(
    rights: Option<Authorization>,
    location: Location,
    inside: u64,
    forces: bool,
    is_nil: bool,
) -> Result<Standing, Stop>
    ensures { Gives standing_of (content_if forces rights (location_of location) inside is_nil) result }
{
    if is_nil {
        discard_rights(rights);
        discard_location(location);
        return nil_at(forces);
    }
    if inside == u64::MAX {
        discard_rights(rights);
        discard_location(location);
        return Err(Stop::Memory);
    }
    Ok(Standing::Here {
        rights,
        location,
        inside: inside + 1,
    })
}

/// The place of the content of the optional at a location.
fn content_here(
    state: &mut RunState,
    rights: Option<Authorization>,
    location: Location,
    inside: u64,
    forces: bool,
) -> Result<Standing, Stop>
    ensures { FindsAndCarriesOut standing_of (spec.content_at forces (spec.here rights (location_of location) inside)) state.old state.new result }
{
    match nil_there(state, &location, inside) {
        Ok(is_nil) => content_by(rights, location, inside, forces, is_nil),
        Err(stop) => {
            discard_rights(rights);
            discard_location(location);
            Err(stop)
        }
    }
}

/// The place of the content of the optional in a place; nowhere, where that is nil, but ForceNil where it is forced. IllTyped
/// of what is no optional, and of what a reference leads to.
pub fn content_of(state: &mut RunState, place: Standing, forces: bool) -> Result<Standing, Stop>
    ensures { FindsAndCarriesOut standing_of (spec.onward (spec.content_at forces) (standing_of place)) state.old state.new result }
{
    match place {
        Standing::Here {
            rights,
            location,
            inside,
        } => content_here(state, rights, location, inside, forces),
        Standing::LedBy(reference) => {
            discard_tree(reference);
            Err(Stop::IllTyped)
        }
        Standing::Nowhere => Ok(Standing::Nowhere),
    }
}

/// Whether the optional to which a reference leads that was settled is nil.
fn nil_of_receiver(state: &RunState, receiver: Settled<'_>) -> Result<bool, Stop>
    ensures { FindsAndCarriesOut (λ b. b) (at_spot (settled_of receiver.entry) (λ spot. nil_of (changing.content_of spot.tree))) state.now state.now result }
{
    match look(state, receiver) {
        Ok(spot) => nil_of_lent(spot.optionals, spot.shape),
        Err(stop) => Err(stop),
    }
}

/// Whether the optional to which a reference of this shape leads is nil.
fn nil_target(state: &mut RunState, shape: &Shape) -> Result<bool, Stop>
    ensures { FindsAndCarriesOut (λ b. b) (and_then (receivers.deref (pure_shape shape.now)) (λ spot. nil_of (changing.content_of spot.tree))) state.old state.new result }
{
    match settle_reference(state, shape) {
        Ok(settled) => nil_of_receiver(state, settled),
        Err(stop) => Err(stop),
    }
}

/// Whether the optional to which a reference leads is nil.
fn nil_led(state: &mut RunState, reference: &Tree) -> Result<bool, Stop>
    ensures { FindsAndCarriesOut (λ b. b) (and_then (spec.value_at (spec.led_by (pure_tree reference.now))) (λ t. nil_of (changing.content_of t))) state.old state.new result }
{
    if !leads(reference) {
        return Err(Stop::IllTyped);
    }
    nil_target(state, shape(reference))
}

/// Whether the optional in a place is nil.
fn nil_in(state: &mut RunState, place: Standing) -> Result<bool, Stop>
    ensures { FindsAndCarriesOut (λ b. b) (and_then (spec.value_at (standing_of place)) (λ t. nil_of (changing.content_of t))) state.old state.new result }
{
    match place {
        Standing::Here {
            rights,
            location,
            inside,
        } => {
            discard_rights(rights);
            let told = nil_there(state, &location, inside);
            discard_location(location);
            told
        }
        Standing::LedBy(reference) => {
            let told = nil_led(state, &reference);
            discard_tree(reference);
            told
        }
        Standing::Nowhere => Err(Stop::IllTyped),
    }
}

/// A truth, or the other one.
fn turned(negated: bool, truth: bool) -> bool
    ensures { result ≡ turned_if negated truth }
{
    if negated { !truth } else { truth }
}

/// Whether the optional in a place is nil, or whether it isn't. IllTyped of what is no optional.
pub fn is_nil(state: &mut RunState, place: Standing, negated: bool) -> Result<Tree, Stop>
    ensures { FindsAndCarriesOut pure_tree (and_then (spec.value_at (standing_of place)) (nil_told negated)) state.old state.new result }
{
    match nil_in(state, place) {
        Ok(told) => Ok(bool_tree(memory(state), turned(negated, told))),
        Err(stop) => Err(stop),
    }
}
