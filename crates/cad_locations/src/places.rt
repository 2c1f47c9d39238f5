// Locations that are places of a node's row.
ghost use Rattle.std.specs.Prelude.{List, IfOk, IfSome};
ghost use Rattle.cad_num.specs.Numbers.{value_of};
ghost use Rattle.cad_rows.specs.Views.{pure_tree};
ghost use Rattle.cad_state.specs.Views.{IsReady, state_over};
ghost use Rattle.cad_values.specs.Values.{pure_value};
ghost use Rattle.cad_world.specs.Locations as spec;
ghost use Rattle.cad_world.specs.State.{Account};
ghost use Rattle.cad_locations.specs.Code.Spots.{IsElement, IsKey, IsPlace};
ghost use Rattle.cad_locations.specs.Views.{location_of, tree_seen};

use crate::location::Location;
use crate::lookup::{index_in, seen};
use crate::reading::Seen;
use cad_rows::{Shape, Tree};
use cad_state::RunState;
use cad_syntax::Num;
use cad_values::Value;
use std::alloc::{AllocError, Global};

/// The place of an element in the row of an array; None where there is no such element, and of what is no array.
fn place_of_element(node: Seen<'_>, n: &Num) -> Option<usize>
    ensures { IfSome result (λ i. IsElement (value_of n.now) i (tree_seen node.entry)) }
{
    match node.shape {
        Shape::Array(_) => match index_in(node.parts, n) {
            Some(i) => Some(i),
            None => None,
        },
        _ => None,
    }
}

/// The place of what stands under a key in the row of a dictionary; None where it lacks the key, and of what is no dictionary.
fn place_of_key(alloc: Global, tree: &Tree, key: &Value) -> Result<Option<usize>, AllocError>
    ensures { IfOk result (λ o. IfSome o (λ i. IsKey (pure_value key.now) i (pure_tree tree.now))) }
{
    match &tree.shape {
        Shape::Dictionary { keys, .. } => keys.position(alloc, key),
        _ => Ok(None),
    }
}

/// The place that an element of the node with a label is; None where it is none, and where the node wasn't found.
pub fn element_place(state: &RunState, label: u64, n: &Num) -> Option<usize>
    ensures { IfSome result (λ i. (accounts : List Account) → IsReady accounts state.now → IsPlace (spec.element label (value_of n.now)) label i (state_over accounts state.now)) }
{
    match state.node(label) {
        Some(node) => match place_of_element(seen(node.tree), n) {
            Some(i) => Some(i),
            None => None,
        },
        None => None,
    }
}

/// The place that what stands under a key of the node with a label is; None where it is none, and where the node wasn't found.
pub fn entry_place(state: &RunState, label: u64, key: &Value) -> Result<Option<usize>, AllocError>
    ensures { IfOk result (λ o. IfSome o (λ i. (accounts : List Account) → IsReady accounts state.now → IsPlace (spec.entry label (pure_value key.now)) label i (state_over accounts state.now))) }
{
    match state.node(label) {
        Some(node) => place_of_key(*state.making.allocator(), node.tree, key),
        None => Ok(None),
    }
}

/// The node, by its label, and the place in its row that a location is; None where it is none, and where its node wasn't found.
pub fn place_of(state: &RunState, location: &Location) -> Result<Option<(u64, usize)>, AllocError>
    ensures { IfOk result (λ o. IfSome o (λ p. (accounts : List Account) → IsReady accounts state.now → IsPlace (location_of location.now) p.0 p.1 (state_over accounts state.now))) }
{
    match location {
        Location::Part(label, i) => Ok(Some((*label, *i))),
        Location::Element(label, n) => match element_place(state, *label, n) {
            Some(i) => Ok(Some((*label, i))),
            None => Ok(None),
        },
        Location::Entry(label, key) => match entry_place(state, *label, key) {
            Ok(Some(i)) => Ok(Some((*label, i))),
            Ok(None) => Ok(None),
            Err(error) => Err(error),
        },
        _ => Ok(None),
    }
}
