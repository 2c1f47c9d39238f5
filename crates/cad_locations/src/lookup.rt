// The place at a location, as it is now.
ghost use Rattle.std.specs.Prelude.{◌≡◌, ◌<◌, MatchOption, length, pos};
ghost use Rattle.cad_num.specs.Numbers.{value_of};
ghost use Rattle.cad_outcomes.specs.Outcomes.{Gives};
ghost use Rattle.cad_rows.specs.Places.{pure_slot};
ghost use Rattle.cad_rows.specs.Views.{pure_row, pure_tree};
ghost use Rattle.cad_state.specs.Views.{FindsAndCarriesOut, contract_of};
ghost use Rattle.cad_syntax.specs.declared.type_id.TypeId.{TypeId};
ghost use Rattle.cad_values.specs.Values.{pure_value};
ghost use Rattle.cad_world.specs.Labels as labels;
ghost use Rattle.cad_world.specs.Locations as spec;
ghost use Rattle.cad_world.specs.Rows as rows;
ghost use Rattle.cad_access.specs.RunContracts.{contracts_of};
ghost use Rattle.cad_locations.specs.Code.Slots.{slot_seen};
ghost use Rattle.cad_locations.specs.Views.{location_of, tree_seen};

use crate::location::Location;
use crate::reading::Seen;
use cad_access::contract_in;
use cad_outcomes::{RunError, Stop};
use cad_rows::{Place, Shape, Slot, Tree, tree_at};
use cad_state::RunState;
use cad_syntax::{Num, TypeId};
use cad_values::Value;
use std::alloc::Global;

/// What stands in a place, lent: there is no such place, it is empty, or a node stands in it.
#[derive(Clone, Copy)]
pub enum SeenSlot<'a> {
    Out,
    Free,
    Full(Seen<'a>),
}

/// A node that is lent.
pub fn seen(tree: &Tree) -> Seen<'_>
    ensures { tree_seen result ≡ pure_tree tree.now }
{
    Seen {
        optionals: tree.optionals,
        shape: &tree.shape,
        parts: tree.parts.as_slice(),
    }
}

/// What stands in a place that is lent.
fn seen_slot(slot: Slot<'_>) -> SeenSlot<'_>
    ensures { slot_seen result ≡ pure_slot slot.entry }
{
    match slot {
        Slot::Out => SeenSlot::Out,
        Slot::Free => SeenSlot::Free,
        Slot::Full(tree) => SeenSlot::Full(seen(tree)),
    }
}

/// The index that a number is; None where no place of the row has it.
#[tactic(auto, using(crate::proofs::Slots::below_all, crate::proofs::Slots::beyond_all, crate::proofs::Slots::index_of))]
pub(crate) fn index_in(row: &[Place], n: &Num) -> Option<usize>
    ensures { MatchOption result (spec.element_slot (value_of n.now) (pure_row row.now) ≡ rows.out) (λ i. (value_of n.now ≡ pos i) × (i < length row.now)) }
{
    if n.negative {
        return None;
    }
    if row.len() as u128 <= n.magnitude {
        return None;
    }
    Some(n.magnitude as usize)
}

/// What stands at the index that a number is.
fn place_in<'a>(row: &'a [Place], n: &Num) -> Slot<'a>
    ensures { pure_slot result ≡ spec.element_slot (value_of n.now) (pure_row row.now) }
{
    match index_in(row, n) {
        Some(i) => tree_at(row, i),
        None => Slot::Out,
    }
}

/// What stands at an index of an array; 104 where there is no such element, IllTyped of what is no array.
fn element_in<'a>(tree: &'a Tree, n: &Num) -> Result<SeenSlot<'a>, Stop>
    ensures { Gives slot_seen (spec.element_of (value_of n.now) (pure_tree tree.now).shape (pure_tree tree.now).parts) result }
{
    match &tree.shape {
        Shape::Array(_) => match seen_slot(place_in(tree.parts.as_slice(), n)) {
            SeenSlot::Out => Err(Stop::Failed(RunError::IndexOutOfBounds)),
            slot => Ok(slot),
        },
        _ => Err(Stop::IllTyped),
    }
}

/// What stands under a key of a dictionary; IllTyped of what is no dictionary.
fn entry_in<'a>(alloc: Global, tree: &'a Tree, key: &Value) -> Result<SeenSlot<'a>, Stop>
    ensures { Gives slot_seen (spec.entry_of_key (pure_value key.now) (pure_tree tree.now).shape (pure_tree tree.now).parts) result }
{
    match &tree.shape {
        Shape::Dictionary { keys, .. } => match keys.position(alloc, key) {
            Ok(Some(i)) => Ok(seen_slot(tree_at(tree.parts.as_slice(), i))),
            Ok(None) => Ok(SeenSlot::Out),
            Err(_) => Err(Stop::Memory),
        },
        _ => Err(Stop::IllTyped),
    }
}

/// What stands in a contract's value.
#[tactic(auto, using(crate::proofs::Looks::value_there, crate::proofs::Looks::value_nowhere))]
fn value_slot<'a>(state: &'a RunState, id: &TypeId) -> SeenSlot<'a>
    ensures { slot_seen result ≡ labels.value_in (contracts_of state.now.contracts.items) id.now }
{
    match contract_in(state.contracts.as_slice(), id) {
        Some(contract) => seen_slot(tree_at(contract.value.as_slice(), 0)),
        None => SeenSlot::Out,
    }
}

/// The node with a label, without its optionals.
fn receiver_slot(state: &RunState, label: u64) -> Result<SeenSlot<'_>, Stop>
    ensures { FindsAndCarriesOut slot_seen (spec.slot_of (spec.receiver label)) state.now state.now result }
{
    match state.node(label) {
        Some(node) => Ok(SeenSlot::Full(Seen {
            optionals: 0,
            shape: &node.tree.shape,
            parts: node.tree.parts.as_slice(),
        })),
        None => Err(Stop::Memory),
    }
}

/// A field of the node with a label.
pub fn part_slot(state: &RunState, label: u64, i: usize) -> Result<SeenSlot<'_>, Stop>
    ensures { FindsAndCarriesOut slot_seen (spec.slot_of (spec.part label i)) state.now state.now result }
{
    match state.node(label) {
        Some(node) => Ok(seen_slot(tree_at(node.tree.parts.as_slice(), i))),
        None => Err(Stop::Memory),
    }
}

/// An element of the node with a label.
pub fn element_slot<'a>(state: &'a RunState, label: u64, n: &Num) -> Result<SeenSlot<'a>, Stop>
    ensures { FindsAndCarriesOut slot_seen (spec.slot_of (spec.element label (value_of n.now))) state.now state.now result }
{
    match state.node(label) {
        Some(node) => element_in(node.tree, n),
        None => Err(Stop::Memory),
    }
}

/// What stands under a key of the node with a label.
pub fn entry_slot<'a>(state: &'a RunState, label: u64, key: &Value) -> Result<SeenSlot<'a>, Stop>
    ensures { FindsAndCarriesOut slot_seen (spec.slot_of (spec.entry label (pure_value key.now))) state.now state.now result }
{
    match state.node(label) {
        Some(node) => entry_in(*state.making.allocator(), node.tree, key),
        None => Err(Stop::Memory),
    }
}

/// The place at a location that was settled, as it is now. Errors as `settle` has them.
pub fn slot_at<'a>(state: &'a RunState, location: &Location) -> Result<SeenSlot<'a>, Stop>
    ensures { FindsAndCarriesOut slot_seen (spec.slot_of (location_of location.now)) state.now state.now result }
{
    match location {
        Location::Variable(x) => Ok(seen_slot(state.variable(*x))),
        Location::Contract(id) => Ok(value_slot(state, id)),
        Location::Receiver(label) => receiver_slot(state, *label),
        Location::Part(label, i) => part_slot(state, *label, *i),
        Location::Element(label, n) => element_slot(state, *label, n),
        Location::Entry(label, key) => entry_slot(state, *label, key),
    }
}
