// The nodes whose end is told by events: their types, and their labels. Each walk goes as deep as the tree is high.
ghost use Rattle.std.specs.Prelude.{◌≡◌, ◌++◌, ◌+◌, ◌∷◌, [], length, IfOk, OnOk};
ghost use Rattle.cad_evaluation.specs.Ending as spec;
ghost use Rattle.cad_rows.specs.Views.{as_row, pure_place, pure_row, pure_shape, pure_tree};
ghost use Rattle.cad_world.specs.Rows as rows;
ghost use Rattle.cad_world.specs.Declared.{bodies_of as bodies_declared};
ghost use Rattle.cad_access.specs.RunContracts.{run_of};
ghost use Rattle.cad_making.specs.Code.Ends.{count_of, numbered_place, numbered_tree, told_in};

use cad_access::bodies_of;
use cad_rows::{Place, Shape, Tree};
use cad_state::RunState;
use cad_syntax::{Numbers, TypeId, TypeIds};
use std::alloc::AllocError;

/// Whether the end of a type's resources is told.
fn has_event(state: &RunState, id: &TypeId) -> bool
    ensures { result ≡ spec.has_event (bodies_declared (run_of state.now) id.now) }
{
    match bodies_of(state, id) {
        Some(bodies) => bodies.destroyed.is_some(),
        None => false,
    }
}

/// Whether the end of a node is told.
fn is_told_of(state: &RunState, shape: &Shape) -> bool
    ensures { result ≡ told_in state.now (pure_shape shape.now) }
{
    match shape {
        Shape::Composite { id, identity, .. } => *identity != 0 && has_event(state, id),
        _ => false,
    }
}

/// Appends the type of a node whose end is told.
fn push_told(state: &RunState, shape: &Shape, types: &mut TypeIds) -> Result<(), AllocError>
    ensures { OnOk result (types.new ≡ types.old ++ spec.type_if (told_in state.now (pure_shape shape.now)) (pure_shape shape.now)) }
{
    if !is_told_of(state, shape) {
        return Ok(());
    }
    match shape {
        Shape::Composite { id, .. } => types.push(id.clone()?),
        _ => Ok(()),
    }
}

/// Appends the types of the nodes of a tree whose end is told: an outer node before those inside.
#[tactic(auto, using(crate::proofs::Passing::tree_types))]
#[cycle(types)]
fn add_tree_types(state: &RunState, tree: &Tree, types: &mut TypeIds) -> Result<(), AllocError>
    ensures { OnOk result (types.new ≡ types.old ++ spec.passing (told_in state.now) (rows.alone (pure_tree tree.now))) }
{
    push_told(state, &tree.shape, types)?;
    add_row_types(state, tree.parts.as_slice(), types)
}

/// Appends those of a place.
#[cycle(types)]
pub(crate) fn add_place_types(
    state: &RunState,
    place: &Place,
    types: &mut TypeIds,
) -> Result<(), AllocError>
    ensures { OnOk result (types.new ≡ types.old ++ spec.passing (told_in state.now) (as_row (pure_place place.now ∷ []))) }
{
    match place {
        Place::Empty => Ok(()),
        Place::Full(_, tree) => add_tree_types(state, tree, types),
    }
}

/// Appends those of a row.
#[tactic(auto, using(crate::proofs::Passing::row_types))]
#[cycle(types)]
fn add_row_types(state: &RunState, row: &[Place], types: &mut TypeIds) -> Result<(), AllocError>
    ensures { OnOk result (types.new ≡ types.old ++ spec.passing (told_in state.now) (pure_row row.now)) }
{
    for place in row {
        add_place_types(state, place, types)?;
    }
    Ok(())
}

/// A node whose end is told gets a label more; the next label.
fn name_node(
    state: &RunState,
    shape: &Shape,
    next: u64,
    labels: &mut Numbers,
) -> Result<u64, AllocError>
    ensures labels { OnOk result (labels.new ≡ spec.label_if (told_in state.now (pure_shape shape.now)) next labels.old) }
    ensures next { IfOk result (λ n. n ≡ next + spec.one_if (told_in state.now (pure_shape shape.now))) }
{
    if !is_told_of(state, shape) {
        return Ok(next);
    }
    if next == u64::MAX {
        return Err(AllocError);
    }
    labels.push(next)?;
    Ok(next + 1)
}

/// The nodes inside a node whose end is told get labels in order, from one on; the next label.
#[cycle(names)]
fn name_parts(state: &RunState, tree: &mut Tree, next: u64) -> Result<u64, AllocError>
    ensures tree { OnOk result (pure_tree tree.new ≡ numbered_tree (told_in state.now) next (pure_tree tree.old)) }
    ensures next { IfOk result (λ n. n ≡ next + length (spec.passing (told_in state.now) (pure_tree tree.old).parts)) }
{
    name_row(state, &mut tree.parts, next)
}

/// The nodes of a place whose end is told get labels.
#[tactic(auto, using(crate::proofs::Passing::counted_node))]
#[cycle(names)]
pub(crate) fn name_place(state: &RunState, place: &mut Place, next: u64) -> Result<u64, AllocError>
    ensures place { OnOk result (pure_place place.new ≡ numbered_place (told_in state.now) next (pure_place place.old)) }
    ensures next { IfOk result (λ n. n ≡ next + count_of (told_in state.now) (pure_place place.old)) }
{
    match place {
        Place::Empty => Ok(next),
        Place::Full(labels, tree) => {
            let inside = name_node(state, &tree.shape, next, labels)?;
            name_parts(state, tree, inside)
        }
    }
}

/// Those of a row get labels.
#[tactic(auto, using(crate::proofs::Passing::numbered_turn, crate::proofs::Passing::count_turn, crate::proofs::Passing::numbered_all, crate::proofs::Passing::told_tells))]
#[cycle(names)]
fn name_row(state: &RunState, row: &mut Vec<Place>, next: u64) -> Result<u64, AllocError>
    ensures row { OnOk result (pure_row row.new.items ≡ spec.numbered (told_in state.now) next (pure_row row.old.items)) }
    ensures next { IfOk result (λ n. n ≡ next + length (spec.passing (told_in state.now) (pure_row row.old.items))) }
{
    let mut following = next;
    for i in 0..row.len() {
        following = name_place(state, &mut row[i], following)?;
    }
    Ok(following)
}
