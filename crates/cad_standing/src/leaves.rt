// What trees and values that are lent tell.
ghost use Rattle.std.specs.Prelude.{◌≡◌, ◌-◌, IfOk};
ghost use Rattle.cad_evaluation.specs.Reading.{copied};
ghost use Rattle.cad_outcomes.specs.Outcomes.{Gives};
ghost use Rattle.cad_rows.specs.Owned as owned;
ghost use Rattle.cad_rows.specs.Views.{pure_row, pure_shape, pure_tree};
ghost use Rattle.cad_world.specs.Receivers as receivers;
ghost use Rattle.cad_world.specs.Rows as rows;
ghost use Rattle.cad_world.specs.State.{give};
ghost use Rattle.cad_world.specs.Trees as trees;

use cad_access::is_reference;
use cad_outcomes::Stop;
use cad_rows::{
    Place, Shape, Tree, copy_row, copy_shape, discard_row, discard_shape, discard_tree, row_owns,
};
use cad_state::RunState;
use std::alloc::{AllocError, Global};

/// Where the memory of a run comes from.
pub(crate) fn memory(state: &RunState) -> Global {
    *state.making.allocator()
}

/// How many optionals are left without so many.
pub(crate) fn optionals_left(optionals: u64, inside: u64) -> u64
    ensures { result ≡ optionals - inside }
{
    optionals.saturating_sub(inside)
}

/// The shape of a tree.
pub(crate) fn shape(tree: &Tree) -> &Shape
    ensures { pure_shape result.now ≡ (pure_tree tree.now).shape }
{
    &tree.shape
}

/// How many optionals a tree is in.
fn optionals(tree: &Tree) -> u64
    ensures { result ≡ (pure_tree tree.now).optionals }
{
    tree.optionals
}

/// Whether a tree is a reference, without optionals round it.
pub(crate) fn leads(tree: &Tree) -> bool
    ensures { result ≡ receivers.is_reference (pure_tree tree.now) }
{
    is_reference(optionals(tree), shape(tree))
}

/// Whether a shape is that of a resource.
fn is_resource(shape: &Shape) -> bool
    ensures { result ≡ owned.is_resource (pure_shape shape.now) }
{
    match shape {
        Shape::Composite { identity, .. } => *identity != 0,
        _ => false,
    }
}

/// Whether there is a resource in a value that is lent.
#[tactic(auto, using(crate::proofs::Owned::lent_owned))]
fn lent_owns(optionals: u64, shape: &Shape, parts: &[Place]) -> bool
    ensures { result ≡ rows.tree_owns (record { optionals = optionals; shape = pure_shape shape.now; parts = pure_row parts.now }) }
{
    is_resource(shape) || row_owns(parts)
}

/// A copy of a value that is lent, without labels.
fn copy_parts(
    alloc: Global,
    optionals: u64,
    shape: &Shape,
    parts: &[Place],
) -> Result<Tree, AllocError>
    ensures { IfOk result (λ t. pure_tree t ≡ rows.bare_tree (record { optionals = optionals; shape = pure_shape shape.now; parts = pure_row parts.now })) }
{
    let own = copy_shape(alloc, shape)?;
    match copy_row(alloc, parts) {
        Ok(row) => Ok(Tree {
            optionals,
            shape: own,
            parts: row,
        }),
        Err(error) => {
            discard_shape(own);
            Err(error)
        }
    }
}

/// A copy of a value that is lent. IllTyped where a resource is in it.
pub(crate) fn copy_lent(
    alloc: Global,
    optionals: u64,
    shape: &Shape,
    parts: &[Place],
) -> Result<Tree, Stop>
    ensures { Gives pure_tree (copied (record { optionals = optionals; shape = pure_shape shape.now; parts = pure_row parts.now })) result }
{
    if lent_owns(optionals, shape, parts) {
        return Err(Stop::IllTyped);
    }
    match copy_parts(alloc, optionals, shape, parts) {
        Ok(tree) => Ok(tree),
        Err(_) => Err(Stop::Memory),
    }
}

/// A value in one optional more. What is in 2^64 optionals has no room in memory.
pub(crate) fn wrapped(tree: Tree) -> Result<Tree, Stop>
    ensures { Gives pure_tree (give (trees.wrapped (pure_tree tree))) result }
{
    if tree.optionals == u64::MAX {
        discard_tree(tree);
        return Err(Stop::Memory);
    }
    let Tree {
        optionals,
        shape,
        parts,
    } = tree;
    Ok(Tree {
        optionals: optionals + 1,
        shape,
        parts,
    })
}

/// The shape of a tree whose parts are let go.
pub(crate) fn into_shape(tree: Tree) -> Shape
    ensures { pure_shape result ≡ (pure_tree tree).shape }
{
    let Tree {
        optionals: _,
        shape,
        parts,
    } = tree;
    discard_row(parts);
    shape
}
