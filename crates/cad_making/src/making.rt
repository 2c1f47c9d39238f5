// Structs and resources that are made.
ghost use Rattle.std.specs.Prelude.{◌≡◌, ℕ, ◌∷◌, [], length, IfOk, OnOk};
ghost use Rattle.cad_evaluation.specs.Making as spec;
ghost use Rattle.cad_rows.specs.Views.{before, pure_place, pure_row, pure_tree, taken, vacant};
ghost use Rattle.cad_state.specs.Views.{CarriesOut};
ghost use Rattle.cad_world.specs.Rows as rows;
ghost use Rattle.cad_making.specs.Making.{begun};
ghost use Rattle.cad_making.specs.Code.Fields.{is_set, unset as unset_tree};

use crate::fields::declared_names;
use cad_outcomes::{RunError, Stop};
use cad_rows::{Place, Shape, Slot, Tree, cut, discard_place, discard_row, is_full, tree_at};
use cad_state::RunState;
use cad_syntax::{Names, Numbers, TypeId};
use std::alloc::{AllocError, Global};

/// An empty place.
fn empty() -> Place
    ensures { pure_place result ≡ vacant }
{
    Place::Empty
}

/// Adds as many empty places.
#[tactic(auto, using(crate::proofs::Names::one_gap))]
fn fill_empty(row: &mut Vec<Place>, count: usize) -> Result<(), AllocError>
    requires { pure_row row.old.items ≡ rows.stop }
    ensures { OnOk result (pure_row row.new.items ≡ rows.empty_places count) }
{
    for _ in 0..count {
        match row.push(empty()) {
            Ok(()) => {}
            Err(refused) => {
                discard_place(refused.value);
                return Err(AllocError);
            }
        }
    }
    Ok(())
}

/// As many empty places.
fn empty_row(alloc: Global, count: usize) -> Result<Vec<Place>, AllocError>
    ensures { IfOk result (λ row. pure_row row.items ≡ rows.empty_places count) }
{
    let mut row = Vec::new(alloc);
    match fill_empty(&mut row, count) {
        Ok(()) => Ok(row),
        Err(error) => {
            discard_row(row);
            Err(error)
        }
    }
}

/// A composite without optionals over these parts.
pub(crate) fn composite(id: TypeId, identity: u64, fields: Names, parts: Vec<Place>) -> Tree
    ensures { pure_tree result ≡ (record { optionals = 0; shape = rows.composite id identity fields; parts = pure_row parts.items }) }
{
    Tree {
        optionals: 0,
        shape: Shape::Composite {
            id,
            identity,
            fields,
        },
        parts,
    }
}

/// A composite whose fields are still empty.
fn unset(alloc: Global, id: &TypeId, identity: u64, names: Names) -> Result<Tree, AllocError>
    ensures { IfOk result (λ t. pure_tree t ≡ unset_tree id.now identity names) }
{
    let id = id.clone()?;
    let parts = empty_row(alloc, names.len())?;
    Ok(composite(id, identity, names, parts))
}

/// A place comes before all others. Where memory fails, what stands in it is let go.
pub(crate) fn push_first(row: &mut Vec<Place>, place: Place) -> Result<(), AllocError>
    ensures { OnOk result (pure_row row.new.items ≡ before (pure_place place) (pure_row row.old.items)) }
{
    match row.insert(0, place) {
        Ok(()) => Ok(()),
        Err(refused) => {
            discard_place(refused.value);
            Err(AllocError)
        }
    }
}

/// The place of a composite with this label, whose fields are still empty.
pub fn unset_place(
    alloc: Global,
    id: &TypeId,
    identity: u64,
    names: Names,
    label: u64,
) -> Result<Place, AllocError>
    ensures { IfOk result (λ p. pure_place p ≡ taken (label ∷ []) (unset_tree id.now identity names)) }
{
    let mut labels = Numbers::new(alloc);
    match labels.push(label) {
        Ok(()) => match unset(alloc, id, identity, names) {
            Ok(tree) => Ok(Place::Full(labels, tree)),
            Err(error) => Err(error),
        },
        Err(error) => Err(error),
    }
}

/// A composite with these fields, still empty, stands first among what is made; its label.
fn begin_fields(state: &mut RunState, id: &TypeId, identity: u64, names: Names) -> Result<u64, Stop>
    ensures { CarriesOut (λ (label : ℕ). label) (spec.begin id.now identity names) state.old state.new result }
{
    let label = state.next_label;
    if label == u64::MAX {
        return Err(Stop::Memory);
    }
    match unset_place(*state.making.allocator(), id, identity, names, label) {
        Ok(place) => match push_first(&mut state.making, place) {
            Ok(()) => {
                state.next_label = label + 1;
                Ok(label)
            }
            Err(_) => Err(Stop::Memory),
        },
        Err(_) => Err(Stop::Memory),
    }
}

/// A composite with this identity, whose fields are still empty, stands first among what is made; its label. IllTyped where
/// the type isn't declared.
pub fn begin(state: &mut RunState, id: &TypeId, identity: u64) -> Result<u64, Stop>
    ensures { CarriesOut (λ (label : ℕ). label) (begun id.now identity) state.old state.new result }
{
    match declared_names(state, id) {
        Ok(names) => begin_fields(state, id, identity, names),
        Err(stop) => Err(stop),
    }
}

/// Whether a composite stands first in a row whose fields are all set.
fn is_first_set(row: &[Place]) -> bool
    ensures { result ≡ is_set (rows.slot 0 (pure_row row.now)) }
{
    match tree_at(row, 0) {
        Slot::Full(tree) => is_full(tree.parts.as_slice()),
        _ => false,
    }
}

/// What was made last leaves its place; IllTyped where a field is still empty.
pub fn finish(state: &mut RunState) -> Result<Tree, Stop>
    ensures { CarriesOut pure_tree spec.finish state.old state.new result }
{
    if !is_first_set(state.making.as_slice()) {
        return Err(Stop::IllTyped);
    }
    match cut(&mut state.making, 0) {
        Some(tree) => Ok(tree),
        None => Err(Stop::IllTyped),
    }
}

/// The identity of a new resource; 128 where none is left.
pub fn draw_identity(state: &mut RunState) -> Result<u64, Stop>
    ensures { CarriesOut (λ (identity : ℕ). identity) spec.draw_identity state.old state.new result }
{
    let identity = state.next_identity;
    if identity == u64::MAX {
        return Err(Stop::Failed(RunError::IdentitiesSpent));
    }
    match state.made.push(identity) {
        Ok(()) => {
            state.next_identity = identity + 1;
            Ok(identity)
        }
        Err(_) => Err(Stop::Memory),
    }
}
