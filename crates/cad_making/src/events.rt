// Events.
ghost use Rattle.std.specs.Prelude.{◌≡◌, IfOk};
ghost use Rattle.cad_evaluation.specs.Ending as spec;
ghost use Rattle.cad_outcomes.specs.Outcomes.{no_value};
ghost use Rattle.cad_rows.specs.Views.{pure_row, pure_tree};
ghost use Rattle.cad_state.specs.Views.{CarriesOut};
ghost use Rattle.cad_values.specs.Values.{pure_value};
ghost use Rattle.cad_world.specs.Rows as rows;
ghost use Rattle.cad_world.specs.Trees.{value_of, whole};
ghost use Rattle.cad_making.specs.Code.Events.{told_of};

use crate::fields::declared_names;
use crate::making::composite;
use crate::told::is_told;
use cad_outcomes::{RunError, Stop};
use cad_rows::{Place, Tree, discard_row, discard_tree};
use cad_state::{RunState, discard_value};
use cad_syntax::{Names, TypeId};
use cad_value_trees::value_from_tree;
use cad_values::Value;
use std::alloc::{AllocError, Global};

/// A composite without identity with these names and fields. Where memory fails, the fields are let go.
fn event_with(id: &TypeId, names: Names, row: Vec<Place>) -> Result<Tree, AllocError>
    ensures { IfOk result (λ t. pure_tree t ≡ whole (rows.composite id.now 0 names) (pure_row row.items)) }
{
    match id.clone() {
        Ok(own) => Ok(composite(own, 0, names, row)),
        Err(error) => {
            discard_row(row);
            Err(error)
        }
    }
}

/// The event of a type, with these fields in order; IllTyped where the type isn't declared.
pub fn event(state: &RunState, id: &TypeId, row: Vec<Place>) -> Result<Tree, Stop>
    ensures { CarriesOut pure_tree (spec.event_of id.now (pure_row row.items)) state.now state.now result }
{
    match declared_names(state, id) {
        Ok(names) => match event_with(id, names, row) {
            Ok(tree) => Ok(tree),
            Err(_) => Err(Stop::Memory),
        },
        Err(stop) => {
            discard_row(row);
            Err(stop)
        }
    }
}

/// The value that a tree is. The tree is let go.
fn value_of_tree(alloc: Global, tree: Tree) -> Result<Value, AllocError>
    ensures { IfOk result (λ v. pure_value v ≡ value_of (pure_tree tree)) }
{
    let value = value_from_tree(alloc, &tree);
    discard_tree(tree);
    value
}

/// A value joins the events; 134 where a part of it has no form outside.
fn add_event(state: &mut RunState, value: Value) -> Result<(), Stop>
    ensures { CarriesOut no_value (told_of (pure_value value)) state.old state.new result }
{
    if !is_told(&value) {
        discard_value(value);
        return Err(Stop::Failed(RunError::NotExportable));
    }
    match state.events.push(value) {
        Ok(()) => Ok(()),
        Err(refused) => {
            discard_value(refused.value);
            Err(Stop::Memory)
        }
    }
}

/// An event joins the events; 134 where a part of it has no form outside.
pub fn emit(state: &mut RunState, tree: Tree) -> Result<(), Stop>
    ensures { CarriesOut no_value (spec.emitted (pure_tree tree)) state.old state.new result }
{
    match value_of_tree(*state.making.allocator(), tree) {
        Ok(value) => add_event(state, value),
        Err(_) => Err(Stop::Memory),
    }
}
