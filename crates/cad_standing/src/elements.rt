// Elements of containers as places.
ghost use Rattle.std.specs.Prelude.{◌≡◌, List, option_map};
ghost use Rattle.cad_evaluation.specs.Standing as spec;
ghost use Rattle.cad_locations.specs.Views.{location_of};
ghost use Rattle.cad_outcomes.specs.Outcomes.{Gives};
ghost use Rattle.cad_receivers.specs.Views.{at_spot, receiver_of, settled_of, spot_of};
ghost use Rattle.cad_rows.specs.Views.{pure_shape, pure_tree};
ghost use Rattle.cad_standing.specs.Actions.{and_then};
ghost use Rattle.cad_standing.specs.Views.{standing_of};
ghost use Rattle.cad_state.specs.Views.{FindsAndCarriesOut};
ghost use Rattle.cad_world.specs.Receivers.{look_at};
ghost use Rattle.cad_world.specs.Rows.{array, dictionary};
ghost use Rattle.cad_world.specs.State.{give};
ghost use Rattle.cad_syntax.specs.Types.{PureType};
ghost use Rattle.cad_values.specs.Values.{PureValue};

use crate::leaves::memory;
use crate::standing::{Standing, standing_in};
use cad_builtins::may_replace_elements;
use cad_locations::Location;
use cad_operators::integer_in;
use cad_outcomes::Stop;
use cad_receivers::{Receiver, Settled, Spot, look, settle_receiver};
use cad_rows::{Shape, Tree};
use cad_state::RunState;
use cad_syntax::Authorization;
use cad_value_trees::value_from_tree;
use std::alloc::Global;

/// Whether elements may be met with these rights, told whether they are written.
fn may_replace(writes: bool, rights: Option<&Authorization>) -> bool
    ensures { result ≡ spec.may_replace writes (option_map (λ own. own.now) rights.entry) }
{
    match rights {
        Some(own) => !writes || may_replace_elements(own),
        None => true,
    }
}

/// The location of an element of an array. IllTyped of an index that is no whole number.
fn element_location(index: &Tree, label: u64) -> Result<Location, Stop>
    ensures { (type : PureType) → Gives location_of (spec.element_at (pure_tree index.now) label (array type)) result }
{
    match integer_in(index) {
        Some(i) => Ok(Location::Element(label, i)),
        None => Err(Stop::IllTyped),
    }
}

/// The location of what stands under a key.
fn entry_location(alloc: Global, index: &Tree, label: u64) -> Result<Location, Stop>
    ensures { (key value : PureType) (ks : List PureValue) → Gives location_of (spec.element_at (pure_tree index.now) label (dictionary key value ks)) result }
{
    match value_from_tree(alloc, index) {
        Ok(key) => Ok(Location::Entry(label, key)),
        Err(_) => Err(Stop::Memory),
    }
}

/// The location of an element of a container of this shape. IllTyped of what is no container.
fn location_in(alloc: Global, index: &Tree, label: u64, shape: &Shape) -> Result<Location, Stop>
    ensures { Gives location_of (spec.element_at (pure_tree index.now) label (pure_shape shape.now)) result }
{
    match shape {
        Shape::Array(_) => element_location(index, label),
        Shape::Dictionary { .. } => entry_location(alloc, index, label),
        _ => Err(Stop::IllTyped),
    }
}

/// The place of an element of a container with this label, met with these rights.
fn element_in(
    alloc: Global,
    rights: Option<&Authorization>,
    index: &Tree,
    label: u64,
    shape: &Shape,
) -> Result<Standing, Stop>
    ensures { Gives standing_of (and_then (spec.element_at (pure_tree index.now) label (pure_shape shape.now)) (λ x. give (spec.here (spec.inner_rights (option_map (λ own. own.now) rights.entry)) x 0))) result }
{
    match location_in(alloc, index, label, shape) {
        Ok(location) => Ok(standing_in(rights, location)),
        Err(stop) => Err(stop),
    }
}

/// The place of an element of what a receiver is now.
fn element_of_spot(
    alloc: Global,
    spot: Spot<'_>,
    index: &Tree,
    writes: bool,
) -> Result<Standing, Stop>
    ensures { Gives standing_of (spec.element_of writes (pure_tree index.now) (spot_of spot.entry)) result }
{
    if !may_replace(writes, spot.rights) || spot.optionals != 0 {
        return Err(Stop::IllTyped);
    }
    match spot.label {
        Some(label) => element_in(alloc, spot.rights, index, label, spot.shape),
        None => Err(Stop::IllTyped),
    }
}

/// The place of an element of what a receiver is now that was settled.
fn element_of_receiver(
    state: &RunState,
    base: Settled<'_>,
    index: &Tree,
    writes: bool,
) -> Result<Standing, Stop>
    ensures { FindsAndCarriesOut standing_of (at_spot (settled_of base.entry) (spec.element_of writes (pure_tree index.now))) state.now state.now result }
{
    match look(state, base) {
        Ok(spot) => element_of_spot(memory(state), spot, index, writes),
        Err(stop) => Err(stop),
    }
}

/// The place of an element of what the base is now, or of the value under a key, told whether it is written. ReferenceInvalid
/// and DereferenceFailed where a reference leads to nothing, IllTyped of what has no elements, of what is no index of them, and
/// where it is written through a reference that may not replace elements.
pub fn element_of(
    state: &mut RunState,
    base: &Receiver,
    index: &Tree,
    writes: bool,
) -> Result<Standing, Stop>
    ensures { FindsAndCarriesOut standing_of (and_then (look_at (receiver_of base.now)) (spec.element_of writes (pure_tree index.now))) state.old state.new result }
{
    match settle_receiver(state, base) {
        Ok(settled) => element_of_receiver(state, settled, index, writes),
        Err(stop) => Err(stop),
    }
}
