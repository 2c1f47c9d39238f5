// Own types of what is stored, and `type`, which tells them. Where a reference to a node is stored, the node is found first, so that the
// type is told of what stands in storage without a copy.
ghost use Rattle.std.specs.Prelude.{◌≡◌, List, IfOk, Some, option_map};
ghost use Rattle.cad_evaluation.specs.Casts.{with_type};
ghost use Rattle.cad_evaluation.specs.Storage as spec;
ghost use Rattle.cad_outcomes.specs.Outcomes.{no_value};
ghost use Rattle.cad_rows.specs.Places.{pure_slot};
ghost use Rattle.cad_rows.specs.Views.{pure_row, pure_shape, pure_tree};
ghost use Rattle.cad_casts.specs.Settled as settled;
ghost use Rattle.cad_state.specs.Views.{FindsAndCarriesOut, state_over};
ghost use Rattle.cad_storage.specs.Code as code;
ghost use Rattle.cad_syntax.specs.Types.{pure_type};
ghost use Rattle.cad_world.specs.Labels as labels;
ghost use Rattle.cad_world.specs.State.{Account, give};

use crate::arguments::identifier_at;
use cad_casts::{find_node, type_here};
use cad_operators::nil_tree;
use cad_outcomes::Stop;
use cad_rows::{Place, Shape, Slot, Tree};
use cad_run_accounts::stored_slot;
use cad_state::RunState;
use cad_syntax::{Address, CadType, Name};
use cad_values::Value;
use std::alloc::{AllocError, Global};

/// The label of the node to which a reference of this shape leads.
fn label_in(shape: &Shape) -> Option<u64>
    ensures { result ≡ settled.label_in (pure_shape shape.now) }
{
    match shape {
        Shape::Link { label, .. } => Some(*label),
        _ => None,
    }
}

/// How many optionals a tree is in.
fn optionals(tree: &Tree) -> u64
    ensures { result ≡ (pure_tree tree.now).optionals }
{
    tree.optionals
}

/// The shape of a tree.
fn shape(tree: &Tree) -> &Shape
    ensures { pure_shape result.now ≡ (pure_tree tree.now).shape }
{
    &tree.shape
}

/// The label of the node to which what stands in a place refers.
fn label_of(slot: Slot<'_>) -> Option<u64>
    ensures { result ≡ code.slot_label (pure_slot slot.entry) }
{
    match slot {
        Slot::Full(tree) => label_in(shape(tree)),
        _ => None,
    }
}

/// The label of the node to which what is stored refers.
fn label_at(state: &RunState, address: Address, name: &Name) -> Result<Option<u64>, AllocError>
    ensures { IfOk result (λ label. (accounts : List Account) → label ≡ code.slot_label (labels.stored_slot (state_over accounts state.now) address.0 name.now)) }
{
    let slot = stored_slot(state, address, name)?;
    Ok(label_of(slot))
}

/// The node to which what is stored refers is found, so that its type can be told. ReferenceInvalid where it is gone.
fn settle(state: &mut RunState, address: Address, name: &Name) -> Result<(), Stop>
    ensures { FindsAndCarriesOut no_value (code.at_stored code.settled_slot address name.now) state.old state.new result }
{
    match label_at(state, address, name) {
        Ok(Some(label)) => find_node(state, label),
        Ok(None) => Ok(()),
        Err(_) => Err(Stop::Memory),
    }
}

/// The own type of a value, where it was settled.
fn tree_type(state: &RunState, tree: &Tree) -> Result<CadType, Stop>
    ensures { FindsAndCarriesOut pure_type (with_type (pure_tree tree.now) (λ own. give own)) state.now state.now result }
{
    type_here(state, optionals(tree), shape(tree))
}

/// The own type of what stands in a place, where it was settled.
fn slot_type(state: &RunState, slot: Slot<'_>) -> Result<Option<CadType>, Stop>
    ensures { FindsAndCarriesOut (option_map pure_type) (code.slot_type (pure_slot slot.entry)) state.now state.now result }
{
    match slot {
        Slot::Full(tree) => match tree_type(state, tree) {
            Ok(own) => Ok(Some(own)),
            Err(stop) => Err(stop),
        },
        Slot::Out => Ok(None),
        Slot::Free => Err(Stop::IllTyped),
    }
}

/// The own type of what is stored, where it was settled.
fn settled_type(state: &RunState, address: Address, name: &Name) -> Result<Option<CadType>, Stop>
    ensures { FindsAndCarriesOut (option_map pure_type) (code.at_stored code.slot_type address name.now) state.now state.now result }
{
    match stored_slot(state, address, name) {
        Ok(slot) => slot_type(state, slot),
        Err(_) => Err(Stop::Memory),
    }
}

/// The own type of what an account stores under an identifier; none where nothing is stored. ReferenceInvalid of a reference to what is
/// gone.
pub(crate) fn stored_type(
    state: &mut RunState,
    address: Address,
    name: &Name,
) -> Result<Option<CadType>, Stop>
    ensures { FindsAndCarriesOut (option_map pure_type) (code.at_stored code.slot_type address name.now) state.old state.new result }
{
    match settle(state, address, name) {
        Ok(()) => settled_type(state, address, name),
        Err(stop) => Err(stop),
    }
}

/// A type as a value in an optional.
fn type_tree(alloc: Global, own: CadType) -> Tree
    ensures { pure_tree result ≡ code.told (Some (pure_type own)) }
{
    Tree {
        optionals: 1,
        shape: Shape::Plain(Value::Meta(own)),
        parts: Vec::new(alloc),
    }
}

/// A type as a value in an optional, or nil.
fn told(alloc: Global, own: Option<CadType>) -> Tree
    ensures { pure_tree result ≡ code.told (option_map pure_type own) }
{
    match own {
        Some(stored) => type_tree(alloc, stored),
        None => nil_tree(alloc),
    }
}

/// The type of what an account stores under an identifier, as a value.
fn type_told(state: &mut RunState, address: Address, name: &Name) -> Result<Tree, Stop>
    ensures { FindsAndCarriesOut pure_tree (code.at_stored spec.type_of_stored address name.now) state.old state.new result }
{
    match stored_type(state, address, name) {
        Ok(own) => Ok(told(*state.making.allocator(), own)),
        Err(stop) => Err(stop),
    }
}

/// The type of what an account stores under the path that the argument is, in an optional; nil where nothing is stored.
/// ReferenceInvalid where a reference to what is gone is stored, IllTyped where the argument is no path into storage.
pub fn type_at(state: &mut RunState, row: &[Place], address: Address) -> Result<Tree, Stop>
    ensures { FindsAndCarriesOut pure_tree (spec.type_at (pure_row row.now) address) state.old state.new result }
{
    match identifier_at(row, 0) {
        Some(name) => type_told(state, address, name),
        None => Err(Stop::IllTyped),
    }
}
