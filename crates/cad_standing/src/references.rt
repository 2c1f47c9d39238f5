// References to what stands in places.
ghost use Rattle.std.specs.Prelude.{◌≡◌, true, Some};
ghost use Rattle.cad_evaluation.specs.Casts as casts;
ghost use Rattle.cad_evaluation.specs.Changing.{content_of};
ghost use Rattle.cad_evaluation.specs.Standing as spec;
ghost use Rattle.cad_evaluation.specs.Uses as uses;
ghost use Rattle.cad_locations.specs.Views.{location_of};
ghost use Rattle.cad_outcomes.specs.Outcomes.{Gives};
ghost use Rattle.cad_rows.specs.Views.{pure_shape, pure_tree};
ghost use Rattle.cad_standing.specs.Code.Plans.{Plans, PlansAnywhere, reference_by as by_plan};
ghost use Rattle.cad_standing.specs.Actions.{and_then};
ghost use Rattle.cad_standing.specs.Views.{standing_of};
ghost use Rattle.cad_state.specs.Views.{FindsAndCarriesOut};
ghost use Rattle.cad_syntax.specs.declared.types.Authorization.{Authorization};
ghost use Rattle.cad_world.specs.Locations as locations;
ghost use Rattle.cad_world.specs.Rows.{Row};
ghost use Rattle.cad_world.specs.State.{give};

use crate::leaves::{memory, optionals_left, wrapped};
use crate::optionals::nil_of_lent;
use crate::standing::{Standing, discard_rights};
use cad_access::is_reference_shape;
use cad_locations::{Location, discard_location, name, read, settle};
use cad_operators::nil_tree;
use cad_outcomes::{RunError, Stop};
use cad_rows::{Shape, Tree, discard_tree};
use cad_state::RunState;
use cad_syntax::Authorization;
use std::alloc::Global;

/// How many optionals are left where one may be taken off.
fn one_less(one: bool, n: u64) -> u64
    ensures { result ≡ casts.one_less one n }
{
    if one { n.saturating_sub(1) } else { n }
}

/// Nil, or how many optionals a reference to a value sees; IllTyped where the result is an optional and the value none.
fn sees_in_optional(optionals: u64, shape: &Shape, one: bool) -> Result<Option<u64>, Stop>
    ensures { (a : Authorization) (x : locations.Location) (parts : Row) → PlansAnywhere (by_plan a x true) (casts.refer_optional a x one (content_of (record { optionals = optionals; shape = pure_shape shape.now; parts = parts })) (record { optionals = optionals; shape = pure_shape shape.now; parts = parts })) result }
{
    match nil_of_lent(optionals, shape) {
        Ok(is_nil) => {
            if is_nil {
                return Ok(None);
            }
            Ok(Some(one_less(one, optionals)))
        }
        Err(stop) => Err(stop),
    }
}

/// Nil, or how many optionals a reference to a value sees. CastFailed of a reference.
fn sees_of(optionals: u64, shape: &Shape, one: bool, wraps: bool) -> Result<Option<u64>, Stop>
    ensures { (a : Authorization) (x : locations.Location) (parts : Row) → PlansAnywhere (by_plan a x wraps) (casts.borrowed a x one wraps (Some (record { optionals = optionals; shape = pure_shape shape.now; parts = parts }))) result }
{
    if is_reference_shape(shape) {
        return Err(Stop::Failed(RunError::CastFailed));
    }
    if wraps {
        return sees_in_optional(optionals, shape, one);
    }
    Ok(Some(one_less(one, optionals)))
}

/// Nil where the result is an optional.
fn sees_nothing(wraps: bool) -> Result<Option<u64>, Stop>
    ensures { (a : Authorization) (x : locations.Location) → PlansAnywhere (by_plan a x wraps) (casts.nil_if wraps) result }
{
    if wraps { Ok(None) } else { Err(Stop::IllTyped) }
}

/// Nil, or how many optionals a reference sees to what stands at a location that was settled, without so many optionals.
fn sees_settled(
    state: &RunState,
    location: &Location,
    inside: u64,
    one: bool,
    wraps: bool,
) -> Result<Option<u64>, Stop>
    ensures { (a : Authorization) → Plans (by_plan a (location_of location.now) wraps) (and_then (locations.read (location_of location.now)) (λ t. casts.borrowed a (location_of location.now) one wraps (spec.without inside t))) state.now result }
{
    match read(state, location) {
        Ok(Some(seen)) => sees_of(
            optionals_left(seen.optionals, inside),
            seen.shape,
            one,
            wraps,
        ),
        Ok(None) => sees_nothing(wraps),
        Err(stop) => Err(stop),
    }
}

/// A reference to a node by its label.
fn link_tree(
    alloc: Global,
    authorization: &Authorization,
    label: u64,
    sees: u64,
) -> Result<Tree, Stop>
    ensures { Gives pure_tree (give (casts.link_tree authorization.now label sees)) result }
{
    match authorization.clone() {
        Ok(own) => Ok(Tree {
            optionals: 0,
            shape: Shape::Link {
                authorization: own,
                label,
                sees,
            },
            parts: Vec::new(alloc),
        }),
        Err(_) => Err(Stop::Memory),
    }
}

/// A reference to what stands at a location, which is named.
fn refer(
    state: &mut RunState,
    location: &Location,
    authorization: &Authorization,
    sees: u64,
) -> Result<Tree, Stop>
    ensures { FindsAndCarriesOut pure_tree (casts.refer authorization.now (location_of location.now) sees) state.old state.new result }
{
    match name(state, location) {
        Ok(label) => link_tree(memory(state), authorization, label, sees),
        Err(stop) => Err(stop),
    }
}

/// A reference, as an optional where that is wanted.
fn wrapped_if(wraps: bool, reference: Tree) -> Result<Tree, Stop>
    ensures { Gives pure_tree (give (uses.wrapped_if wraps (pure_tree reference))) result }
{
    if wraps {
        return wrapped(reference);
    }
    Ok(reference)
}

/// Nil, or a reference that sees so many optionals.
fn reference_by(
    state: &mut RunState,
    location: &Location,
    authorization: &Authorization,
    wraps: bool,
    sees: Option<u64>,
) -> Result<Tree, Stop>
    ensures { FindsAndCarriesOut pure_tree (by_plan authorization.now (location_of location.now) wraps sees) state.old state.new result }
{
    match sees {
        Some(n) => match refer(state, location, authorization, n) {
            Ok(reference) => wrapped_if(wraps, reference),
            Err(stop) => Err(stop),
        },
        None => Ok(nil_tree(memory(state))),
    }
}

/// A reference to what stands at a location that was settled.
fn borrow_settled(
    state: &mut RunState,
    location: &Location,
    inside: u64,
    authorization: &Authorization,
    one: bool,
    wraps: bool,
) -> Result<Tree, Stop>
    ensures { FindsAndCarriesOut pure_tree (and_then (locations.read (location_of location.now)) (λ t. casts.borrowed authorization.now (location_of location.now) one wraps (spec.without inside t))) state.old state.new result }
{
    match sees_settled(state, location, inside, one, wraps) {
        Ok(sees) => reference_by(state, location, authorization, wraps, sees),
        Err(stop) => Err(stop),
    }
}

/// A reference to what stands at a location.
fn borrow_here(
    state: &mut RunState,
    location: &Location,
    inside: u64,
    authorization: &Authorization,
    one: bool,
    wraps: bool,
) -> Result<Tree, Stop>
    ensures { FindsAndCarriesOut pure_tree (and_then (locations.read (location_of location.now)) (λ t. casts.borrowed authorization.now (location_of location.now) one wraps (spec.without inside t))) state.old state.new result }
{
    match settle(state, location) {
        Ok(()) => borrow_settled(state, location, inside, authorization, one, wraps),
        Err(stop) => Err(stop),
    }
}

/// Whether what is met with these rights is owned.
fn is_owned(rights: Option<Authorization>) -> bool
    ensures { result ≡ spec.is_owned rights }
{
    match rights {
        Some(own) => {
            discard_rights(Some(own));
            false
        }
        None => true,
    }
}

/// A reference with an authorization to what stands in a place, told whether one optional is taken off that, and whether the
/// result is an optional: nil of nil then. CastFailed of a reference, IllTyped of what isn't owned.
pub fn borrow(
    state: &mut RunState,
    place: Standing,
    authorization: &Authorization,
    one: bool,
    wraps: bool,
) -> Result<Tree, Stop>
    ensures { FindsAndCarriesOut pure_tree (spec.referred_to authorization.now one wraps (standing_of place)) state.old state.new result }
{
    match place {
        Standing::Here {
            rights,
            location,
            inside,
        } => {
            if !is_owned(rights) {
                discard_location(location);
                return Err(Stop::IllTyped);
            }
            let reference = borrow_here(state, &location, inside, authorization, one, wraps);
            discard_location(location);
            reference
        }
        Standing::LedBy(reference) => {
            discard_tree(reference);
            Err(Stop::IllTyped)
        }
        Standing::Nowhere => Err(Stop::IllTyped),
    }
}
