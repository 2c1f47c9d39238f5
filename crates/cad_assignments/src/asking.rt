// Whether a value may come to a container.
ghost use Rattle.cad_outcomes.specs.Outcomes.{Gives, no_value};
ghost use Rattle.cad_rows.specs.Views.{pure_tree};
ghost use Rattle.cad_state.specs.Views.{FindsAndCarriesOut};
ghost use Rattle.cad_syntax.specs.Types.{pure_type};
ghost use Rattle.cad_values.specs.Values.{pure_value};
ghost use Rattle.cad_world.specs.State.{give, with_some};
ghost use Rattle.cad_world.specs.Trees.{tree_of};
ghost use Rattle.cad_assignments.specs.Code.Fills as code;
ghost use Rattle.cad_assignments.specs.declared.asking.Inner.TheVariants.{Elements, Keys, Values};
ghost use Rattle.cad_locations.specs.Views.{tree_seen};

use cad_casts::check_type;
use cad_locations::{Seen, seen};
use cad_outcomes::Stop;
use cad_rows::{Shape, Tree, discard_shape, discard_tree};
use cad_state::RunState;
use cad_syntax::CadType;
use cad_value_trees::tree_from_value;
use cad_values::Value;

/// What is in a container: elements of an array, or keys or values of a dictionary.
#[derive(Clone, Copy, Debug, PartialEq, Eq)]
pub(crate) enum Inner {
    Elements,
    Keys,
    Values,
}

/// Lets a type go.
fn discard_type(declared: CadType) {
    discard_shape(Shape::Array(declared))
}

/// A copy of a type.
fn copy_type(declared: &CadType) -> Result<CadType, Stop>
    ensures { Gives pure_type (give (pure_type declared.now)) result }
{
    match declared.clone() {
        Ok(copy) => Ok(copy),
        Err(_) => Err(Stop::Memory),
    }
}

/// The type of the elements of an array.
fn element_type(node: Seen<'_>) -> Result<CadType, Stop>
    ensures { Gives pure_type (with_some (code.type_within Elements (tree_seen node.entry).shape) (λ type. give type)) result }
{
    match node.shape {
        Shape::Array(element) => copy_type(element),
        _ => Err(Stop::IllTyped),
    }
}

/// The type of the keys of a dictionary.
fn key_type(node: Seen<'_>) -> Result<CadType, Stop>
    ensures { Gives pure_type (with_some (code.type_within Keys (tree_seen node.entry).shape) (λ type. give type)) result }
{
    match node.shape {
        Shape::Dictionary { key, .. } => copy_type(key),
        _ => Err(Stop::IllTyped),
    }
}

/// The type of the values of a dictionary.
fn value_type(node: Seen<'_>) -> Result<CadType, Stop>
    ensures { Gives pure_type (with_some (code.type_within Values (tree_seen node.entry).shape) (λ type. give type)) result }
{
    match node.shape {
        Shape::Dictionary { value, .. } => copy_type(value),
        _ => Err(Stop::IllTyped),
    }
}

/// The type of what is in a container; IllTyped of what is none.
fn type_within(inner: Inner, node: Seen<'_>) -> Result<CadType, Stop>
    ensures { Gives pure_type (with_some (code.type_within inner (tree_seen node.entry).shape) (λ type. give type)) result }
{
    match inner {
        Inner::Elements => element_type(node),
        Inner::Keys => key_type(node),
        Inner::Values => value_type(node),
    }
}

/// The type of what is in the container with a label that was found.
fn type_in(state: &RunState, inner: Inner, label: u64) -> Result<CadType, Stop>
    ensures { FindsAndCarriesOut pure_type (code.type_in inner label) state.now state.now result }
{
    match state.node(label) {
        Some(node) => type_within(inner, seen(node.tree)),
        None => Err(Stop::Memory),
    }
}

/// A value may come to the container with a label that was found: 129 by its type, 113 of a reference to what is gone.
pub(crate) fn ask(state: &mut RunState, inner: Inner, label: u64, tree: &Tree) -> Result<(), Stop>
    ensures { FindsAndCarriesOut no_value (code.asked inner label (pure_tree tree.now)) state.old state.new result }
{
    match type_in(state, inner, label) {
        Ok(declared) => {
            let answer = check_type(state, &declared, tree);
            discard_type(declared);
            answer
        }
        Err(stop) => Err(stop),
    }
}

/// The same of a key of a dictionary.
pub(crate) fn ask_key(state: &mut RunState, label: u64, key: &Value) -> Result<(), Stop>
    ensures { FindsAndCarriesOut no_value (code.asked Keys label (tree_of (pure_value key.now))) state.old state.new result }
{
    match tree_from_value(*state.making.allocator(), key) {
        Ok(tree) => {
            let answer = ask(state, Inner::Keys, label, &tree);
            discard_tree(tree);
            answer
        }
        Err(_) => Err(Stop::Memory),
    }
}
