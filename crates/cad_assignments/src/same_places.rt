// Whether two locations are one place.
ghost use Rattle.std.specs.Prelude.{◌≡◌};
ghost use Rattle.cad_evaluation.specs.Changing.{same_location};
ghost use Rattle.cad_num.specs.Numbers.{value_of};
ghost use Rattle.cad_state.specs.Views.{FindsAndCarriesOut};
ghost use Rattle.cad_values.specs.Values.{pure_value};
ghost use Rattle.cad_world.specs.Locations.{element, entry, part, variable};
ghost use Rattle.cad_world.specs.State.{State};
ghost use Rattle.cad_assignments.specs.Code.Changes as code;
ghost use Rattle.cad_locations.specs.Views.{location_of};

use cad_locations::Location;
use cad_operators::same_key;
use cad_outcomes::Stop;
use cad_rows::holds_label;
use cad_state::RunState;
use cad_syntax::Num;
use cad_values::Value;

/// Whether a label is one of the node with another, whose hint leads there. Want of memory where it doesn't.
fn has_label(state: &RunState, label: u64, other: u64) -> Result<bool, Stop>
    ensures { FindsAndCarriesOut (λ b. b) (code.same_node_asked label other) state.now state.now result }
{
    match state.node(label) {
        Some(node) => Ok(holds_label(node.labels, other)),
        None => Err(Stop::Memory),
    }
}

/// Whether two labels are of one node.
fn are_of_one_node(state: &mut RunState, label: u64, other: u64) -> Result<bool, Stop>
    ensures { FindsAndCarriesOut (λ b. b) (code.same_node_asked label other) state.old state.new result }
{
    match state.locate(label) {
        Ok(true) => has_label(state, label, other),
        Ok(false) => Ok(false),
        Err(_) => Err(Stop::Memory),
    }
}

/// Whether a location is this variable.
fn is_variable(x: usize, location: &Location) -> bool
    ensures { (s : State) → result ≡ same_location s (variable x) (location_of location.now) }
{
    match location {
        Location::Variable(y) => x == *y,
        _ => false,
    }
}

/// Whether a location is this field.
fn is_part(state: &mut RunState, label: u64, i: usize, location: &Location) -> Result<bool, Stop>
    ensures { FindsAndCarriesOut (λ b. b) (code.same_asked (part label i) (location_of location.now)) state.old state.new result }
{
    match location {
        Location::Part(other, j) => {
            if i != *j {
                return Ok(false);
            }
            are_of_one_node(state, label, *other)
        }
        _ => Ok(false),
    }
}

/// Whether two numbers are one index.
fn is_same_index(n: &Num, other: &Num) -> bool
    ensures { result ≡ code.is_same_index (value_of n.now) (value_of other.now) }
{
    if n.negative {
        return false;
    }
    if other.negative {
        return false;
    }
    n.magnitude == other.magnitude
}

/// Whether a location is this element.
fn is_element(state: &mut RunState, label: u64, n: &Num, location: &Location) -> Result<bool, Stop>
    ensures { FindsAndCarriesOut (λ b. b) (code.same_asked (element label (value_of n.now)) (location_of location.now)) state.old state.new result }
{
    match location {
        Location::Element(other, m) => {
            if !is_same_index(n, m) {
                return Ok(false);
            }
            are_of_one_node(state, label, *other)
        }
        _ => Ok(false),
    }
}

/// Whether a location is what stands under this key.
fn is_entry(
    state: &mut RunState,
    label: u64,
    key: &Value,
    location: &Location,
) -> Result<bool, Stop>
    ensures { FindsAndCarriesOut (λ b. b) (code.same_asked (entry label (pure_value key.now)) (location_of location.now)) state.old state.new result }
{
    match location {
        Location::Entry(other, with) => match same_key(*state.making.allocator(), key, with) {
            Ok(true) => are_of_one_node(state, label, *other),
            Ok(false) => Ok(false),
            Err(_) => Err(Stop::Memory),
        },
        _ => Ok(false),
    }
}

/// Whether two locations are one place. Only want of memory stops it.
pub(crate) fn are_same(
    state: &mut RunState,
    first: &Location,
    second: &Location,
) -> Result<bool, Stop>
    ensures { FindsAndCarriesOut (λ b. b) (code.same_asked (location_of first.now) (location_of second.now)) state.old state.new result }
{
    match first {
        Location::Variable(x) => Ok(is_variable(*x, second)),
        Location::Part(label, i) => is_part(state, *label, *i, second),
        Location::Element(label, n) => is_element(state, *label, n, second),
        Location::Entry(label, key) => is_entry(state, *label, key, second),
        _ => Ok(false),
    }
}
