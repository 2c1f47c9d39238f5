// Assignment, and what is exchanged for a new value.
ghost use Rattle.cad_evaluation.specs.Changing as spec;
ghost use Rattle.cad_outcomes.specs.Outcomes.{no_value};
ghost use Rattle.cad_rows.specs.Views.{pure_tree};
ghost use Rattle.cad_state.specs.Views.{FindsAndCarriesOut};
ghost use Rattle.cad_syntax.specs.Types.{pure_type};
ghost use Rattle.cad_assignments.specs.Code.Changes as code;
ghost use Rattle.cad_locations.specs.Views.{location_of};

use crate::clearing::{clear_nil, clear_old};
use crate::filling::fill;
use crate::taking::take;
use cad_locations::Location;
use cad_outcomes::Stop;
use cad_rows::{Tree, discard_tree};
use cad_state::RunState;
use cad_syntax::CadType;

/// A new value takes the place of an old one, that goes.
fn assign_place(state: &mut RunState, location: &Location, tree: Tree) -> Result<(), Stop>
    ensures { FindsAndCarriesOut no_value (spec.assigned (location_of location.now) (pure_tree tree)) state.old state.new result }
{
    match clear_old(state, location) {
        Ok(()) => fill(state, location, tree),
        Err(stop) => {
            discard_tree(tree);
            Err(stop)
        }
    }
}

/// `x = v`: the old value goes. IllTyped where a resource stands there; 104, 113, 123 and 129 as `fill` has them.
pub fn assign(state: &mut RunState, location: &Location, tree: Tree) -> Result<(), Stop>
    ensures { FindsAndCarriesOut no_value (spec.assigned (location_of location.now) (pure_tree tree)) state.old state.new result }
{
    match location {
        Location::Variable(x) => state.assign_variable(*x, tree),
        _ => assign_place(state, location, tree),
    }
}

/// `x <-! v`: 115 where the place isn't nil; 132 where a field isn't set; 104, 113, 123 and 129 as `fill` has them.
pub fn force_assign(state: &mut RunState, location: &Location, tree: Tree) -> Result<(), Stop>
    ensures { FindsAndCarriesOut no_value (spec.force_assigned (location_of location.now) (pure_tree tree)) state.old state.new result }
{
    match clear_nil(state, location) {
        Ok(()) => fill(state, location, tree),
        Err(stop) => {
            discard_tree(tree);
            Err(stop)
        }
    }
}

/// A value leaves its place and comes to a place of a type.
pub(crate) fn take_over(
    state: &mut RunState,
    location: &Location,
    declared: &CadType,
) -> Result<Tree, Stop>
    ensures { FindsAndCarriesOut pure_tree (code.taken_over (location_of location.now) (pure_type declared.now)) state.old state.new result }
{
    match take(state, location) {
        Ok(tree) => state.transfer(tree, declared),
        Err(stop) => Err(stop),
    }
}

/// A value comes to an empty place, and what stood there before is given.
fn fill_for(state: &mut RunState, location: &Location, tree: Tree, old: Tree) -> Result<Tree, Stop>
    ensures { FindsAndCarriesOut pure_tree (code.filled_for (location_of location.now) (pure_tree tree) (pure_tree old)) state.old state.new result }
{
    match fill(state, location, tree) {
        Ok(()) => Ok(old),
        Err(stop) => {
            discard_tree(old);
            Err(stop)
        }
    }
}

/// `let old <- x <- v`: what stood there, come to the type of the variable. Errors as `take` and `fill` have them; 123 and the
/// limit where what stood there is handed over.
pub fn exchange(
    state: &mut RunState,
    location: &Location,
    variable_type: &CadType,
    tree: Tree,
) -> Result<Tree, Stop>
    ensures { FindsAndCarriesOut pure_tree (spec.exchanged (location_of location.now) (pure_type variable_type.now) (pure_tree tree)) state.old state.new result }
{
    match take_over(state, location, variable_type) {
        Ok(old) => fill_for(state, location, tree, old),
        Err(stop) => {
            discard_tree(tree);
            Err(stop)
        }
    }
}
