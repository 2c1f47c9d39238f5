// What is read at an index or under a key.
ghost use Rattle.std.specs.Prelude.{◌≡◌, ◌≤◌, ◌<◌, suc, false, length, map, option_map, IfOk, IsTrue};
ghost use Rattle.cad_num.specs.Numbers.{value_of};
ghost use Rattle.cad_rows.specs.Places.{pure_slot};
ghost use Rattle.cad_rows.specs.Views.{pure_row, pure_tree};
ghost use Rattle.cad_state.specs.Views.{FindsAndCarriesOut};
ghost use Rattle.cad_syntax.specs.Types.{pure_type};
ghost use Rattle.cad_syntax.specs.declared.types.Authorization.TheVariants.{Unauthorized};
ghost use Rattle.cad_values.specs.Values.{pure_value};
ghost use Rattle.cad_world.specs.Locations as locations;
ghost use Rattle.cad_world.specs.State.{State};
ghost use Rattle.cad_world.specs.Trees as trees;
ghost use Rattle.cad_evaluation.specs.Reading as spec;
ghost use Rattle.cad_selections.specs.Code.Indices.{read_at_integer, read_at_index};
ghost use Rattle.cad_selections.specs.Code.Readings.{Leaves, FindsAndLeaves, linked, reading_of, read_as, read_inside, copied_inside};
ghost use Rattle.cad_receivers.specs.Views.{at_spot, receiver_of, settled_of, spot_of};

use crate::readings::{Reading, copied, copy_of, lends, read_out};
use crate::trees::wrap;
use cad_locations::Location;
use cad_operators::{integer_in, nil_tree};
use cad_outcomes::{RunError, Stop};
use cad_receivers::{Receiver, Settled, Spot, look, optionals, settle_receiver};
use cad_rows::{Keys, Place, Shape, Slot, Tree, tree_at};
use cad_state::{RunState, discard_value};
use cad_syntax::{Authorization, CadType, Num};
use cad_value_trees::value_from_tree;
use cad_values::Value;
use std::alloc::{AllocError, Global};

/// Whether a row has no place of this index.
fn is_beyond(row: &[Place], index: u128) -> bool
    ensures told { IsTrue result → length row.now ≤ index }
    ensures small { result ≡ false → index < length row.now }
{
    (row.len() as u128) <= index
}

/// What stands at an integer; out where that is no index.
#[tactic(auto, using(crate::proofs::Handing::below_all, crate::proofs::Handing::beyond_all))]
fn element_at(row: &[Place], x: Num) -> Slot<'_>
    ensures { pure_slot result ≡ locations.element_slot (value_of x) (pure_row row.now) }
{
    if x.negative {
        return Slot::Out;
    }
    if is_beyond(row, x.magnitude) {
        return Slot::Out;
    }
    tree_at(row, x.magnitude as usize)
}

/// What is read of an element that stands there.
fn read_present(
    alloc: Global,
    is_lent: bool,
    label: u64,
    x: Num,
    tree: &Tree,
) -> Result<Reading, Stop>
    ensures { (s : State) → Leaves reading_of (read_as is_lent Unauthorized (locations.element label (value_of x)) (pure_tree tree.now)) s result }
{
    if is_lent {
        Ok(Reading::Link {
            authorization: Authorization::Unauthorized,
            location: Location::Element(label, x),
            optionals: optionals(tree),
        })
    } else {
        copy_of(alloc, tree)
    }
}

/// What is read at an integer of an array with elements of this type.
fn read_element(
    alloc: Global,
    spot: Spot<'_>,
    element: &CadType,
    label: u64,
    x: Num,
) -> Result<Reading, Stop>
    ensures { (s : State) → Leaves reading_of (read_at_integer (spot_of spot.entry).rights (pure_type element.now) label (value_of x) (spot_of spot.entry).tree.parts) s result }
{
    match element_at(spot.parts, x) {
        Slot::Full(tree) => {
            let is_lent = lends(spot.rights, element, tree);
            read_present(alloc, is_lent, label, x, tree)
        }
        Slot::Free => Err(Stop::Failed(RunError::ReferenceInvalid)),
        Slot::Out => Err(Stop::Failed(RunError::IndexOutOfBounds)),
    }
}

/// What is read at an index of an array with elements of this type.
fn read_in_array(
    alloc: Global,
    spot: Spot<'_>,
    element: &CadType,
    label: u64,
    index: &Tree,
) -> Result<Reading, Stop>
    ensures { (s : State) → Leaves reading_of (read_at_index (spot_of spot.entry).rights (pure_type element.now) label (pure_tree index.now) (spot_of spot.entry).tree.parts) s result }
{
    match integer_in(index) {
        Some(x) => read_element(alloc, spot, element, label, x),
        None => Err(Stop::IllTyped),
    }
}

/// What stands under a key; out where that is lacking.
fn slot_under<'a>(
    alloc: Global,
    key: &Value,
    keys: &Keys,
    row: &'a [Place],
) -> Result<Slot<'a>, AllocError>
    ensures { IfOk result (λ x. pure_slot x ≡ locations.slot_at (locations.key_position (pure_value key.now) (map pure_value keys.now)) (pure_row row.now)) }
{
    match keys.position(alloc, key)? {
        Some(i) => Ok(tree_at(row, i)),
        None => Ok(Slot::Out),
    }
}

/// A reference to what stands under a key, in one optional more than that.
fn link_to_entry(label: u64, key: Value, optionals: u64) -> Result<Reading, Stop>
    ensures { (s : State) → Leaves reading_of (linked Unauthorized (locations.entry label (pure_value key)) (suc optionals)) s result }
{
    match optionals.checked_add(1) {
        Some(more) => Ok(Reading::Link {
            authorization: Authorization::Unauthorized,
            location: Location::Entry(label, key),
            optionals: more,
        }),
        None => {
            discard_value(key);
            Err(Stop::Memory)
        }
    }
}

/// A copy in one optional more.
fn copy_inside(alloc: Global, tree: &Tree) -> Result<Reading, Stop>
    ensures { (s : State) → Leaves reading_of (copied_inside (pure_tree tree.now)) s result }
{
    match copied(alloc, tree) {
        Ok(copy) => match wrap(copy) {
            Ok(wrapped) => Ok(Reading::Copy(wrapped)),
            Err(_) => Err(Stop::Memory),
        },
        Err(stop) => Err(stop),
    }
}

/// What is read of an entry that stands there.
fn read_entry(
    alloc: Global,
    is_lent: bool,
    label: u64,
    key: Value,
    tree: &Tree,
) -> Result<Reading, Stop>
    ensures { (s : State) → Leaves reading_of (read_inside is_lent Unauthorized (locations.entry label (pure_value key)) (pure_tree tree.now)) s result }
{
    if is_lent {
        link_to_entry(label, key, optionals(tree))
    } else {
        discard_value(key);
        copy_inside(alloc, tree)
    }
}

/// What is read under a key of a dictionary with values of this type, told what stands there.
fn read_slot(
    alloc: Global,
    rights: Option<&Authorization>,
    declared: &CadType,
    label: u64,
    key: Value,
    slot: Slot<'_>,
) -> Result<Reading, Stop>
    ensures { (s : State) → Leaves reading_of (spec.read_entry (option_map (λ own. own.now) rights.entry) (pure_type declared.now) (locations.entry label (pure_value key)) (pure_slot slot.entry)) s result }
{
    match slot {
        Slot::Full(tree) => {
            let is_lent = lends(rights, declared, tree);
            read_entry(alloc, is_lent, label, key, tree)
        }
        Slot::Free => {
            discard_value(key);
            Err(Stop::Failed(RunError::ReferenceInvalid))
        }
        Slot::Out => {
            discard_value(key);
            Ok(Reading::Copy(nil_tree(alloc)))
        }
    }
}

/// What is read under a key of a dictionary with values of this type.
fn read_under(
    alloc: Global,
    spot: Spot<'_>,
    declared: &CadType,
    label: u64,
    keys: &Keys,
    key: Value,
) -> Result<Reading, Stop>
    ensures { (s : State) → Leaves reading_of (spec.read_entry (spot_of spot.entry).rights (pure_type declared.now) (locations.entry label (pure_value key)) (locations.slot_at (locations.key_position (pure_value key) (map pure_value keys.now)) (spot_of spot.entry).tree.parts)) s result }
{
    match slot_under(alloc, &key, keys, spot.parts) {
        Ok(slot) => read_slot(alloc, spot.rights, declared, label, key, slot),
        Err(_) => {
            discard_value(key);
            Err(Stop::Memory)
        }
    }
}

/// What is read under an index of a dictionary with values of this type.
fn read_in_dictionary(
    alloc: Global,
    spot: Spot<'_>,
    declared: &CadType,
    label: u64,
    keys: &Keys,
    index: &Tree,
) -> Result<Reading, Stop>
    ensures { (s : State) → Leaves reading_of (spec.read_entry (spot_of spot.entry).rights (pure_type declared.now) (locations.entry label (trees.value_of (pure_tree index.now))) (locations.slot_at (locations.key_position (trees.value_of (pure_tree index.now)) (map pure_value keys.now)) (spot_of spot.entry).tree.parts)) s result }
{
    match value_from_tree(alloc, index) {
        Ok(key) => read_under(alloc, spot, declared, label, keys, key),
        Err(_) => Err(Stop::Memory),
    }
}

/// What is read at an index of a container with a label.
fn read_in(alloc: Global, spot: Spot<'_>, label: u64, index: &Tree) -> Result<Reading, Stop>
    ensures { (s : State) → Leaves reading_of (spec.read_index_at (pure_tree index.now) (spot_of spot.entry).rights label (spot_of spot.entry).tree.shape (spot_of spot.entry).tree.parts) s result }
{
    match spot.shape {
        Shape::Array(element) => read_in_array(alloc, spot, element, label, index),
        Shape::Dictionary { value, keys, .. } => {
            read_in_dictionary(alloc, spot, value, label, keys, index)
        }
        _ => Err(Stop::IllTyped),
    }
}

/// What is read at an index of a spot.
fn read_index(alloc: Global, spot: Spot<'_>, index: &Tree) -> Result<Reading, Stop>
    ensures { (s : State) → Leaves reading_of (spec.read_index (pure_tree index.now) (spot_of spot.entry)) s result }
{
    if spot.optionals != 0 {
        return Err(Stop::IllTyped);
    }
    match spot.label {
        Some(label) => read_in(alloc, spot, label, index),
        None => Err(Stop::IllTyped),
    }
}

/// What is read at an index of a receiver that was settled.
fn index_reading(state: &RunState, receiver: Settled<'_>, index: &Tree) -> Result<Reading, Stop>
    ensures { FindsAndLeaves reading_of (at_spot (settled_of receiver.entry) (spec.read_index (pure_tree index.now))) state.now result }
{
    match look(state, receiver) {
        Ok(spot) => read_index(*state.making.allocator(), spot, index),
        Err(stop) => Err(stop),
    }
}

/// What stands at an index of a receiver that was settled.
fn index_settled(state: &mut RunState, receiver: Settled<'_>, index: &Tree) -> Result<Tree, Stop>
    ensures { FindsAndCarriesOut pure_tree (at_spot (settled_of receiver.entry) (spec.read_index (pure_tree index.now))) state.old state.new result }
{
    match index_reading(state, receiver, index) {
        Ok(reading) => read_out(state, reading),
        Err(stop) => Err(stop),
    }
}

/// The element of what a receiver is now, or what stands under a key in one optional more, nil where the key is lacking: of an
/// owner a copy, through a reference a reference where the elements are of a composite or container. ReferenceInvalid where
/// the receiver is gone or a swap has taken out what stood there, IndexOutOfBounds where there is no such element, IllTyped
/// where the receiver is no container, the index doesn't fit it or what stands there has a resource in it.
pub fn index(state: &mut RunState, receiver: &Receiver, index: &Tree) -> Result<Tree, Stop>
    ensures { FindsAndCarriesOut pure_tree (at_spot (receiver_of receiver.now) (spec.read_index (pure_tree index.now))) state.old state.new result }
{
    match settle_receiver(state, receiver) {
        Ok(settled) => index_settled(state, settled, index),
        Err(stop) => Err(stop),
    }
}
