// What is used of arrays and dictionaries, and of the arguments of members.
ghost use Rattle.std.specs.Prelude.{◌≡◌, ◌+◌, suc, map, nat_le, option_map, IfOk};
ghost use Rattle.cad_containers.specs.Code.Parts.{AreElements, AreEntries, is_array};
ghost use Rattle.cad_evaluation.specs.Arguments.{argument, in_slot};
ghost use Rattle.cad_evaluation.specs.Containers.{elements_in};
ghost use Rattle.cad_rows.specs.Places.{pure_slot, slot_in};
ghost use Rattle.cad_rows.specs.Views.{pure_place, pure_row, pure_shape, pure_tree};
ghost use Rattle.cad_values.specs.Fits.{most_elements};
ghost use Rattle.cad_syntax.specs.Types.{pure_type};
ghost use Rattle.cad_world.specs.Rows.{array};
ghost use Rattle.cad_world.specs.Trees as trees;

use cad_rows::{Keys, Place, Shape, Slot, Tree, discard_row, discard_shape, discard_tree, tree_at};
use cad_syntax::{CadType, Numbers};
use std::alloc::AllocError;
use std::mem::replace;

/// How many elements a container may have.
const MOST_ELEMENTS: usize = 65_536;

/// The type of an array's elements, and the elements.
#[derive(Clone, Copy)]
pub(crate) struct Elements<'a> {
    pub element: &'a CadType,
    pub parts: &'a [Place],
}

/// The types of a dictionary, its keys and what stands under them.
#[derive(Clone, Copy)]
pub(crate) struct Entries<'a> {
    pub key: &'a CadType,
    pub value: &'a CadType,
    pub keys: &'a Keys,
    pub parts: &'a [Place],
}

/// Whether a container may have so many elements.
pub(crate) fn has_room(count: usize) -> bool
    ensures { result ≡ nat_le count most_elements }
{
    count <= MOST_ELEMENTS
}

/// Whether a container of so many elements may have one more.
pub(crate) fn has_room_for_one(count: usize) -> bool
    ensures { result ≡ nat_le (suc count) most_elements }
{
    count < MOST_ELEMENTS
}

/// Whether a container of so many elements may have as many more.
pub(crate) fn has_room_for(count: usize, more: usize) -> bool
    ensures { result ≡ nat_le (count + more) most_elements }
{
    more <= MOST_ELEMENTS && count <= MOST_ELEMENTS - more
}

/// What an array is; none of what isn't one, or is in optionals.
pub(crate) fn elements_of<'a>(
    optionals: u64,
    shape: &'a Shape,
    parts: &'a [Place],
) -> Option<Elements<'a>>
    ensures { AreElements optionals (pure_shape shape.now) (pure_row parts.now) result }
{
    if optionals != 0 {
        return None;
    }
    match shape {
        Shape::Array(element) => Some(Elements { element, parts }),
        _ => None,
    }
}

/// What a dictionary is; none of what isn't one, or is in optionals.
pub(crate) fn entries_of<'a>(
    optionals: u64,
    shape: &'a Shape,
    parts: &'a [Place],
) -> Option<Entries<'a>>
    ensures { AreEntries optionals (pure_shape shape.now) (pure_row parts.now) result }
{
    if optionals != 0 {
        return None;
    }
    match shape {
        Shape::Dictionary { key, value, keys } => Some(Entries {
            key,
            value,
            keys,
            parts,
        }),
        _ => None,
    }
}

/// Whether a shape is that of an array.
pub(crate) fn is_array_shape(shape: &Shape) -> bool
    ensures { result ≡ is_array (pure_shape shape.now) }
{
    matches!(shape, Shape::Array(_))
}

/// The places of a tree.
pub(crate) fn parts_of(tree: &Tree) -> &[Place]
    ensures { pure_row result.now ≡ (pure_tree tree.now).parts }
{
    tree.parts.as_slice()
}

/// The elements of a tree that is an array.
pub(crate) fn array_parts(tree: &Tree) -> Option<&[Place]>
    ensures { option_map (λ parts. pure_row parts.now) result ≡ elements_in (pure_tree tree.now) }
{
    if tree.optionals == 0 && is_array_shape(&tree.shape) {
        return Some(tree.parts.as_slice());
    }
    None
}

/// An array of these places.
pub(crate) fn array_tree(element: CadType, parts: Vec<Place>) -> Tree
    ensures { pure_tree result ≡ trees.whole (array (pure_type element)) (pure_row parts.items) }
{
    Tree {
        optionals: 0,
        shape: Shape::Array(element),
        parts,
    }
}

/// The argument at a place.
pub(crate) fn argument_at(arguments: &[Place], i: usize) -> Option<&Tree>
    ensures { option_map (λ t. pure_tree t.now) result ≡ argument i (pure_row arguments.now) }
{
    match tree_at(arguments, i) {
        Slot::Full(tree) => Some(tree),
        _ => None,
    }
}

/// The node of a place that is taken apart.
fn node_of(place: Place) -> Option<Tree>
    ensures { option_map pure_tree result ≡ in_slot (slot_in (pure_place place)) }
{
    match place {
        Place::Empty => None,
        Place::Full(labels, tree) => {
            discard_labels(labels);
            Some(tree)
        }
    }
}

/// Lets labels go.
fn discard_labels(labels: Numbers) {
    drop(labels)
}

/// The argument at a place, taken out of the row.
#[tactic(auto, using(crate::proofs::Places::argument_there, crate::proofs::Places::argument_nowhere))]
pub(crate) fn take_argument(arguments: Vec<Place>, i: usize) -> Option<Tree>
    ensures { option_map pure_tree result ≡ argument i (pure_row arguments.items) }
{
    let mut left = arguments;
    if i < left.len() {
        let place = replace(&mut left[i], Place::Empty);
        discard_row(left);
        return node_of(place);
    }
    discard_row(left);
    None
}

/// The second argument, taken out of its place; the first stays.
#[tactic(auto, using(crate::proofs::Places::argument_there, crate::proofs::Places::argument_nowhere, crate::proofs::Places::first_stays))]
pub(crate) fn take_second(arguments: &mut Vec<Place>) -> Option<Tree>
    ensures second { option_map pure_tree result ≡ argument 1 (pure_row arguments.old.items) }
    ensures first { argument 0 (pure_row arguments.new.items) ≡ argument 0 (pure_row arguments.old.items) }
{
    if 1 < arguments.len() {
        let place = replace(&mut arguments[1], Place::Empty);
        return node_of(place);
    }
    None
}

/// A value in one optional more. What is in 2^64 optionals has no room in memory.
pub(crate) fn wrapped(tree: Tree) -> Result<Tree, AllocError>
    ensures { IfOk result (λ t. pure_tree t ≡ trees.wrapped (pure_tree tree)) }
{
    let mut all = tree;
    match all.optionals.checked_add(1) {
        Some(more) => {
            all.optionals = more;
            Ok(all)
        }
        None => {
            discard_tree(all);
            Err(AllocError)
        }
    }
}

/// Lets a type go.
pub(crate) fn discard_type(t: CadType) {
    discard_shape(Shape::Array(t))
}
