// A value leaves its place.
ghost use Rattle.std.specs.Prelude.{option_map};
ghost use Rattle.cad_evaluation.specs.Changing as spec;
ghost use Rattle.cad_outcomes.specs.Outcomes.{Gives};
ghost use Rattle.cad_rows.specs.Views.{pure_tree};
ghost use Rattle.cad_state.specs.Views.{FindsAndCarriesOut};
ghost use Rattle.cad_world.specs.Locations.{as_read};
ghost use Rattle.cad_world.specs.State.{ok};
ghost use Rattle.cad_assignments.specs.Code.Emptied.{emptied};
ghost use Rattle.cad_assignments.specs.Code.Emptied.{taken_out};
ghost use Rattle.cad_locations.specs.Views.{location_of};

use cad_locations::{Location, SeenSlot, empty_stop, locate, place_of, slot_at};
use cad_nodes::clear_in;
use cad_operators::nil_tree;
use cad_outcomes::Stop;
use cad_rows::{Tree, discard_tree};
use cad_state::RunState;

/// A place of a node that was found becomes empty.
fn empty_place(state: &mut RunState, location: &Location) -> Result<Option<Tree>, Stop>
    ensures { FindsAndCarriesOut (λ o. option_map pure_tree o) (emptied (location_of location.now)) state.old state.new result }
{
    match place_of(state, location) {
        Ok(Some((label, i))) => clear_in(state, label, i),
        Ok(None) => Err(Stop::Memory),
        Err(_) => Err(Stop::Memory),
    }
}

/// A place becomes empty, whose node was found. What stood there comes out without labels. Memory fails of a contract and of a
/// receiver, whose values stay.
pub(crate) fn empty(state: &mut RunState, location: &Location) -> Result<Option<Tree>, Stop>
    ensures { FindsAndCarriesOut (λ o. option_map pure_tree o) (emptied (location_of location.now)) state.old state.new result }
{
    match location {
        Location::Variable(x) => Ok(state.clear_variable(*x)),
        Location::Contract(_) => Err(Stop::Memory),
        Location::Receiver(_) => Err(Stop::Memory),
        _ => empty_place(state, location),
    }
}

/// What is taken of a value that stood there: under a key it is the content of an optional.
fn as_taken(location: &Location, tree: Tree) -> Result<Tree, Stop>
    ensures { Gives pure_tree (λ s. ok (as_read (location_of location.now) (pure_tree tree)) s) result }
{
    match location {
        Location::Entry(_, _) => {
            let mut own = tree;
            if own.optionals == u64::MAX {
                discard_tree(own);
                return Err(Stop::Memory);
            }
            own.optionals += 1;
            Ok(own)
        }
        _ => Ok(tree),
    }
}

/// What is taken where there is no such place: nil under a key that a dictionary lacks.
fn nothing_there(state: &RunState, location: &Location) -> Result<Tree, Stop>
    ensures { Gives pure_tree (spec.nothing_there (location_of location.now)) result }
{
    match location {
        Location::Entry(_, _) => Ok(nil_tree(*state.making.allocator())),
        _ => Err(Stop::IllTyped),
    }
}

/// What stands in a place leaves it.
fn take_out(state: &mut RunState, location: &Location) -> Result<Tree, Stop>
    ensures { FindsAndCarriesOut pure_tree (taken_out (location_of location.now)) state.old state.new result }
{
    match empty(state, location) {
        Ok(Some(tree)) => as_taken(location, tree),
        Ok(None) => Err(Stop::IllTyped),
        Err(stop) => Err(stop),
    }
}

/// The value leaves its place, whose node was found.
fn take_found(state: &mut RunState, location: &Location) -> Result<Tree, Stop>
    ensures { FindsAndCarriesOut pure_tree (spec.take (location_of location.now)) state.old state.new result }
{
    match slot_at(state, location) {
        Ok(SeenSlot::Full(_)) => take_out(state, location),
        Ok(SeenSlot::Free) => Err(empty_stop(location)),
        Ok(SeenSlot::Out) => nothing_there(state, location),
        Err(stop) => Err(stop),
    }
}

/// The value leaves its place, which is empty then; nil where a dictionary lacks the key. 104, 113 and 132 as `read` has them,
/// IllTyped where there is nothing else.
pub fn take(state: &mut RunState, location: &Location) -> Result<Tree, Stop>
    ensures { FindsAndCarriesOut pure_tree (spec.take (location_of location.now)) state.old state.new result }
{
    match locate(state, location) {
        Ok(()) => take_found(state, location),
        Err(stop) => Err(stop),
    }
}
