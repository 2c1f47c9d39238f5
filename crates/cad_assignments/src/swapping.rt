// Two values change their places.
ghost use Rattle.cad_evaluation.specs.Changing as spec;
ghost use Rattle.cad_labels.specs.Laws.{HasNone};
ghost use Rattle.cad_outcomes.specs.Outcomes.{no_value};
ghost use Rattle.cad_rows.specs.Views.{pure_tree};
ghost use Rattle.cad_state.specs.Views.{FindsAndCarriesOut};
ghost use Rattle.cad_syntax.specs.Types.{pure_type};
ghost use Rattle.cad_assignments.specs.Code.Changes as code;
ghost use Rattle.cad_locations.specs.Views.{location_of};

use crate::assigning::take_over;
use crate::filling::fill;
use crate::same_places::are_same;
use cad_locations::{Location, locate, read};
use cad_nodes::find;
use cad_outcomes::Stop;
use cad_rows::{Tree, discard_tree};
use cad_state::RunState;
use cad_syntax::CadType;

/// The node of a place is looked up again.
fn still_there(state: &mut RunState, location: &Location) -> Result<(), Stop>
    ensures { FindsAndCarriesOut no_value (spec.still_there (location_of location.now)) state.old state.new result }
{
    match location {
        Location::Part(label, _) => find(state, *label),
        Location::Element(label, _) => find(state, *label),
        Location::Entry(label, _) => find(state, *label),
        Location::Variable(_) => Ok(()),
        Location::Contract(_) => Ok(()),
        Location::Receiver(_) => Ok(()),
    }
}

/// The nodes of two places are looked up again.
fn both_there(state: &mut RunState, first: &Location, second: &Location) -> Result<(), Stop>
    ensures { FindsAndCarriesOut no_value (code.both_there (location_of first.now) (location_of second.now)) state.old state.new result }
{
    match still_there(state, first) {
        Ok(()) => still_there(state, second),
        Err(stop) => Err(stop),
    }
}

/// A value comes to the first of two places that are looked up again.
fn fill_first(
    state: &mut RunState,
    first: &Location,
    second: &Location,
    tree: Tree,
) -> Result<(), Stop>
    ensures { FindsAndCarriesOut no_value (code.first_filled (location_of first.now) (location_of second.now) (pure_tree tree)) state.old state.new result }
{
    match both_there(state, first, second) {
        Ok(()) => fill(state, first, tree),
        Err(stop) => {
            discard_tree(tree);
            Err(stop)
        }
    }
}

/// Two values come to two places.
fn fill_both(
    state: &mut RunState,
    first: &Location,
    second: &Location,
    tree: Tree,
    other: Tree,
) -> Result<(), Stop>
    ensures { HasNone (pure_tree tree) → FindsAndCarriesOut no_value (code.both_filled (location_of first.now) (location_of second.now) (pure_tree tree) (pure_tree other)) state.old state.new result }
{
    match fill_first(state, first, second, tree) {
        Ok(()) => fill(state, second, other),
        Err(stop) => {
            discard_tree(other);
            Err(stop)
        }
    }
}

/// The other value leaves its place, and both come to the places.
fn swap_second(
    state: &mut RunState,
    first: &Location,
    first_type: &CadType,
    second: &Location,
    tree: Tree,
) -> Result<(), Stop>
    ensures { FindsAndCarriesOut no_value (code.second_swapped (location_of first.now) (pure_type first_type.now) (location_of second.now) (pure_tree tree)) state.old state.new result }
{
    match take_over(state, second, first_type) {
        Ok(other) => fill_both(state, first, second, other, tree),
        Err(stop) => {
            discard_tree(tree);
            Err(stop)
        }
    }
}

/// The values of two places change their places.
fn swap_both(
    state: &mut RunState,
    first: &Location,
    first_type: &CadType,
    second: &Location,
    second_type: &CadType,
) -> Result<(), Stop>
    ensures { FindsAndCarriesOut no_value (spec.both_swapped (location_of first.now) (pure_type first_type.now) (location_of second.now) (pure_type second_type.now)) state.old state.new result }
{
    match take_over(state, first, second_type) {
        Ok(tree) => swap_second(state, first, first_type, second, tree),
        Err(stop) => Err(stop),
    }
}

/// What stands in a place whose node was found is read, and nothing more.
fn read_found(state: &RunState, location: &Location) -> Result<(), Stop>
    ensures { FindsAndCarriesOut no_value (code.read_only (location_of location.now)) state.now state.now result }
{
    match read(state, location) {
        Ok(_) => Ok(()),
        Err(stop) => Err(stop),
    }
}

/// What stands in a place is read, and nothing more.
fn read_only(state: &mut RunState, location: &Location) -> Result<(), Stop>
    ensures { FindsAndCarriesOut no_value (code.read_only (location_of location.now)) state.old state.new result }
{
    match locate(state, location) {
        Ok(()) => read_found(state, location),
        Err(stop) => Err(stop),
    }
}

/// `x <-> y`, each told with its type: one place with itself stays as it is. Errors as `take` and `fill` have them; 123 and the
/// limit where the values are handed over.
pub fn swap(
    state: &mut RunState,
    first: &Location,
    first_type: &CadType,
    second: &Location,
    second_type: &CadType,
) -> Result<(), Stop>
    ensures { FindsAndCarriesOut no_value (spec.swapped (location_of first.now) (pure_type first_type.now) (location_of second.now) (pure_type second_type.now)) state.old state.new result }
{
    match are_same(state, first, second) {
        Ok(true) => read_only(state, first),
        Ok(false) => swap_both(state, first, first_type, second, second_type),
        Err(stop) => Err(stop),
    }
}
