// A value comes under a key of a dictionary.
ghost use Rattle.cad_evaluation.specs.Changing as spec;
ghost use Rattle.cad_outcomes.specs.Outcomes.{Gives, no_value};
ghost use Rattle.cad_rows.specs.Views.{pure_tree};
ghost use Rattle.cad_state.specs.Views.{FindsAndCarriesOut};
ghost use Rattle.cad_values.specs.Values.{pure_value};
ghost use Rattle.cad_world.specs.Locations.{entry};
ghost use Rattle.cad_assignments.specs.Code.Fills as code;
ghost use Rattle.cad_locations.specs.Views.{tree_seen};

use crate::asking::{Inner, ask, ask_key};
use crate::opened::{Opened, open_optional};
use cad_locations::{Seen, SeenSlot, entry_place, entry_slot, seen};
use cad_nodes::{add_key, drop_key, find, put_in};
use cad_outcomes::{RunError, Stop};
use cad_rows::{Shape, Tree, copy_value, count_places, discard_tree};
use cad_state::RunState;
use cad_values::Value;
use std::alloc::Global;

/// Where a key stands in a dictionary; IllTyped of what is none.
fn position_in(alloc: Global, node: Seen<'_>, key: &Value) -> Result<Option<usize>, Stop>
    ensures { Gives (λ o. o) (code.position_in (pure_value key.now) (tree_seen node.entry).shape) result }
{
    match node.shape {
        Shape::Dictionary { keys, .. } => match keys.position(alloc, key) {
            Ok(place) => Ok(place),
            Err(_) => Err(Stop::Memory),
        },
        _ => Err(Stop::IllTyped),
    }
}

/// Where a key stands in the dictionary with a label that was found.
fn position_at(state: &RunState, label: u64, key: &Value) -> Result<Option<usize>, Stop>
    ensures { FindsAndCarriesOut (λ o. o) (code.position_at label (pure_value key.now)) state.now state.now result }
{
    match state.node(label) {
        Some(node) => position_in(*state.making.allocator(), seen(node.tree), key),
        None => Err(Stop::Memory),
    }
}

/// A key that is there goes, and what stood under it.
fn drop_at(state: &mut RunState, label: u64, i: usize) -> Result<(), Stop>
    ensures { FindsAndCarriesOut no_value (code.key_gone label i) state.old state.new result }
{
    match drop_key(state, label, i) {
        Ok(Some(tree)) => {
            discard_tree(tree);
            Ok(())
        }
        Ok(None) => Ok(()),
        Err(stop) => Err(stop),
    }
}

/// A key goes, if it is there.
fn remove_key(state: &mut RunState, label: u64, key: &Value) -> Result<(), Stop>
    ensures { FindsAndCarriesOut no_value (code.dropped label (pure_value key.now)) state.old state.new result }
{
    match position_at(state, label, key) {
        Ok(Some(i)) => drop_at(state, label, i),
        Ok(None) => Ok(()),
        Err(stop) => Err(stop),
    }
}

/// A value comes to the place of its key, that is empty.
fn put_under(state: &mut RunState, label: u64, key: &Value, tree: Tree) -> Result<(), Stop>
    ensures { FindsAndCarriesOut no_value (spec.put_at (entry label (pure_value key.now)) (pure_tree tree)) state.old state.new result }
{
    match entry_place(state, label, key) {
        Ok(Some(i)) => put_in(state, label, i, tree),
        Ok(None) => {
            discard_tree(tree);
            Err(Stop::Memory)
        }
        Err(_) => {
            discard_tree(tree);
            Err(Stop::Memory)
        }
    }
}

/// A value comes to the place of its key, if that is empty.
fn fill_under(state: &mut RunState, label: u64, key: &Value, tree: Tree) -> Result<(), Stop>
    ensures { FindsAndCarriesOut no_value (code.filled_under label (pure_value key.now) (pure_tree tree)) state.old state.new result }
{
    match entry_slot(state, label, key) {
        Ok(SeenSlot::Free) => put_under(state, label, key, tree),
        Ok(SeenSlot::Full(_)) => {
            discard_tree(tree);
            Err(Stop::Failed(RunError::ReferenceInvalid))
        }
        Ok(SeenSlot::Out) => {
            discard_tree(tree);
            Err(Stop::IllTyped)
        }
        Err(stop) => {
            discard_tree(tree);
            Err(stop)
        }
    }
}

/// Whether there is room for one more in the node with a label that was found: 123 where there is none.
fn has_room(state: &RunState, label: u64) -> Result<(), Stop>
    ensures { FindsAndCarriesOut no_value (code.has_room label) state.now state.now result }
{
    match state.node(label) {
        Some(node) => room_in(seen(node.tree)),
        None => Err(Stop::Memory),
    }
}

/// Whether there is room for one more in a container.
fn room_in(node: Seen<'_>) -> Result<(), Stop>
    ensures { Gives no_value (code.room_in (tree_seen node.entry).parts) result }
{
    if count_places(node.parts) < 65536 {
        return Ok(());
    }
    Err(Stop::Failed(RunError::TooLarge))
}

/// A copy of a key comes last, with a value under it.
fn add_copy(state: &mut RunState, label: u64, key: &Value, tree: Tree) -> Result<(), Stop>
    ensures { FindsAndCarriesOut no_value (code.key_added label (pure_value key.now) (pure_tree tree)) state.old state.new result }
{
    match copy_value(*state.making.allocator(), key) {
        Ok(copy) => add_key(state, label, copy, tree),
        Err(_) => {
            discard_tree(tree);
            Err(Stop::Memory)
        }
    }
}

/// A new key comes last, with a value under it.
fn add_entry(state: &mut RunState, label: u64, key: &Value, tree: Tree) -> Result<(), Stop>
    ensures { FindsAndCarriesOut no_value (code.added label (pure_value key.now) (pure_tree tree)) state.old state.new result }
{
    match has_room(state, label) {
        Ok(()) => add_copy(state, label, key, tree),
        Err(stop) => {
            discard_tree(tree);
            Err(stop)
        }
    }
}

/// A value comes under a key.
fn place_value(state: &mut RunState, label: u64, key: &Value, tree: Tree) -> Result<(), Stop>
    ensures { FindsAndCarriesOut no_value (code.placed label (pure_value key.now) (pure_tree tree)) state.old state.new result }
{
    match position_at(state, label, key) {
        Ok(Some(_)) => fill_under(state, label, key, tree),
        Ok(None) => add_entry(state, label, key, tree),
        Err(stop) => {
            discard_tree(tree);
            Err(stop)
        }
    }
}

/// A value comes under a key, once its type was asked.
fn set_value(state: &mut RunState, label: u64, key: &Value, tree: Tree) -> Result<(), Stop>
    ensures { FindsAndCarriesOut no_value (code.value_set label (pure_value key.now) (pure_tree tree)) state.old state.new result }
{
    match ask(state, Inner::Values, label, &tree) {
        Ok(()) => place_value(state, label, key, tree),
        Err(stop) => {
            discard_tree(tree);
            Err(stop)
        }
    }
}

/// A value comes under a key, once the types of both were asked.
fn set_entry(state: &mut RunState, label: u64, key: &Value, tree: Tree) -> Result<(), Stop>
    ensures { FindsAndCarriesOut no_value (code.set_under label (pure_value key.now) (pure_tree tree)) state.old state.new result }
{
    match ask_key(state, label, key) {
        Ok(()) => set_value(state, label, key, tree),
        Err(stop) => {
            discard_tree(tree);
            Err(stop)
        }
    }
}

/// What comes to a dictionary is no optional: IllTyped.
fn refuse(state: &RunState, label: u64) -> Result<(), Stop>
    ensures { FindsAndCarriesOut no_value (code.refused label) state.now state.now result }
{
    match state.node(label) {
        Some(_) => Err(Stop::IllTyped),
        None => Err(Stop::Memory),
    }
}

/// The content of an optional comes under a key of a node that was found, or nil takes the key away.
fn fill_entry_found(state: &mut RunState, label: u64, key: &Value, tree: Tree) -> Result<(), Stop>
    ensures { FindsAndCarriesOut no_value (spec.fill (entry label (pure_value key.now)) (pure_tree tree)) state.old state.new result }
{
    match open_optional(tree) {
        Opened::Nothing => remove_key(state, label, key),
        Opened::Content(content) => set_entry(state, label, key, content),
        Opened::NoOptional => refuse(state, label),
    }
}

/// The content of an optional comes under a key, or nil takes the key away.
pub(crate) fn fill_entry(
    state: &mut RunState,
    label: u64,
    key: &Value,
    tree: Tree,
) -> Result<(), Stop>
    ensures { FindsAndCarriesOut no_value (spec.fill (entry label (pure_value key.now)) (pure_tree tree)) state.old state.new result }
{
    match find(state, label) {
        Ok(()) => fill_entry_found(state, label, key, tree),
        Err(stop) => {
            discard_tree(tree);
            Err(stop)
        }
    }
}
