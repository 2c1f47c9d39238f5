// A value comes to an empty place.
ghost use Rattle.cad_evaluation.specs.Changing as spec;
ghost use Rattle.cad_num.specs.Numbers.{value_of};
ghost use Rattle.cad_outcomes.specs.Outcomes.{no_value};
ghost use Rattle.cad_rows.specs.Views.{pure_tree};
ghost use Rattle.cad_state.specs.Views.{FindsAndCarriesOut};
ghost use Rattle.cad_world.specs.Locations.{element, part};
ghost use Rattle.cad_assignments.specs.Code.Fills as code;
ghost use Rattle.cad_locations.specs.Views.{location_of};

use crate::asking::{Inner, ask};
use crate::entering::fill_entry;
use cad_locations::{Location, SeenSlot, element_place, element_slot, part_slot};
use cad_nodes::{find, put_in};
use cad_outcomes::{RunError, Stop};
use cad_rows::{Tree, discard_tree};
use cad_state::RunState;
use cad_syntax::Num;

/// A value comes to a field of a node that was found.
fn fill_part_found(state: &mut RunState, label: u64, i: usize, tree: Tree) -> Result<(), Stop>
    ensures { FindsAndCarriesOut no_value (spec.fill (part label i) (pure_tree tree)) state.old state.new result }
{
    match part_slot(state, label, i) {
        Ok(SeenSlot::Free) => put_in(state, label, i, tree),
        Ok(SeenSlot::Full(_)) => {
            discard_tree(tree);
            Err(Stop::Failed(RunError::ReferenceInvalid))
        }
        Ok(SeenSlot::Out) => {
            discard_tree(tree);
            Err(Stop::IllTyped)
        }
        Err(stop) => {
            discard_tree(tree);
            Err(stop)
        }
    }
}

/// A value comes to a field.
fn fill_part(state: &mut RunState, label: u64, i: usize, tree: Tree) -> Result<(), Stop>
    ensures { FindsAndCarriesOut no_value (spec.fill (part label i) (pure_tree tree)) state.old state.new result }
{
    match find(state, label) {
        Ok(()) => fill_part_found(state, label, i, tree),
        Err(stop) => {
            discard_tree(tree);
            Err(stop)
        }
    }
}

/// A value comes to an element's place, that is empty.
fn put_element(state: &mut RunState, label: u64, n: &Num, tree: Tree) -> Result<(), Stop>
    ensures { FindsAndCarriesOut no_value (spec.put_at (element label (value_of n.now)) (pure_tree tree)) state.old state.new result }
{
    match element_place(state, label, n) {
        Some(i) => put_in(state, label, i, tree),
        None => {
            discard_tree(tree);
            Err(Stop::Memory)
        }
    }
}

/// A value comes to an element's place, that is empty, once its type was asked.
fn set_element(state: &mut RunState, label: u64, n: &Num, tree: Tree) -> Result<(), Stop>
    ensures { FindsAndCarriesOut no_value (code.element_set label (value_of n.now) (pure_tree tree)) state.old state.new result }
{
    match ask(state, Inner::Elements, label, &tree) {
        Ok(()) => put_element(state, label, n, tree),
        Err(stop) => {
            discard_tree(tree);
            Err(stop)
        }
    }
}

/// A value comes to an element's place of a node that was found.
fn fill_element_found(state: &mut RunState, label: u64, n: &Num, tree: Tree) -> Result<(), Stop>
    ensures { FindsAndCarriesOut no_value (spec.fill (element label (value_of n.now)) (pure_tree tree)) state.old state.new result }
{
    match element_slot(state, label, n) {
        Ok(SeenSlot::Free) => set_element(state, label, n, tree),
        Ok(SeenSlot::Full(_)) => {
            discard_tree(tree);
            Err(Stop::Failed(RunError::ReferenceInvalid))
        }
        Ok(SeenSlot::Out) => {
            discard_tree(tree);
            Err(Stop::Failed(RunError::IndexOutOfBounds))
        }
        Err(stop) => {
            discard_tree(tree);
            Err(stop)
        }
    }
}

/// A value comes to an element's place.
fn fill_element(state: &mut RunState, label: u64, n: &Num, tree: Tree) -> Result<(), Stop>
    ensures { FindsAndCarriesOut no_value (spec.fill (element label (value_of n.now)) (pure_tree tree)) state.old state.new result }
{
    match find(state, label) {
        Ok(()) => fill_element_found(state, label, n, tree),
        Err(stop) => {
            discard_tree(tree);
            Err(stop)
        }
    }
}

/// A value comes to an empty place; under a key of a dictionary its content does, and nil takes the key away. 113 where the node
/// is gone or the place was filled meanwhile, 104 where there is no such element, 129 by the container's own type, 123 by its
/// size, IllTyped where the location isn't one of its node.
pub fn fill(state: &mut RunState, location: &Location, tree: Tree) -> Result<(), Stop>
    ensures { FindsAndCarriesOut no_value (spec.fill (location_of location.now) (pure_tree tree)) state.old state.new result }
{
    match location {
        Location::Variable(x) => state.fill_variable(*x, tree),
        Location::Part(label, i) => fill_part(state, *label, *i, tree),
        Location::Element(label, n) => fill_element(state, *label, n, tree),
        Location::Entry(label, key) => fill_entry(state, *label, key, tree),
        _ => {
            discard_tree(tree);
            Err(Stop::IllTyped)
        }
    }
}
