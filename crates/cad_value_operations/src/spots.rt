// Members of what a receiver is now.
ghost use Rattle.std.specs.Prelude.{◌≡◌, IfOk};
ghost use Rattle.cad_evaluation.specs.Builtins as builtins;
ghost use Rattle.cad_evaluation.specs.Reading as reading;
ghost use Rattle.cad_outcomes.specs.Outcomes.{Gives};
ghost use Rattle.cad_receivers.specs.Views.{at_spot, settled_of, spot_of};
ghost use Rattle.cad_rows.specs.Views.{pure_row, pure_tree};
ghost use Rattle.cad_state.specs.Views.{FindsAndCarriesOut};
ghost use Rattle.cad_value_operations.specs.Code.Members as spec;
ghost use Rattle.cad_world.specs.Rows.{bare_tree};

use crate::arguments::argument;
use crate::groups::Group;
use crate::leaves::leaf;
use crate::types::{instance_at, type_at};
use cad_access::composite_in;
use cad_outcomes::Stop;
use cad_receivers::{Settled, Spot, look};
use cad_rows::{
    Place, Tree, copy_row, copy_shape, copy_tree, discard_shape, discard_tree, owns, row_weight,
};
use cad_state::RunState;
use std::alloc::{AllocError, Global};

/// What a receiver is now, without its parts.
pub(crate) fn leaf_of(alloc: Global, spot: Spot<'_>) -> Result<Tree, AllocError>
    ensures { IfOk result (λ t. pure_tree t ≡ spec.leaf_of (spot_of spot.entry).tree) }
{
    let shape = copy_shape(alloc, spot.shape)?;
    Ok(Tree {
        optionals: spot.optionals,
        shape,
        parts: Vec::new(alloc),
    })
}

/// A copy of what a receiver is now, without labels.
pub(crate) fn whole_of(alloc: Global, spot: Spot<'_>) -> Result<Tree, AllocError>
    ensures { IfOk result (λ t. pure_tree t ≡ bare_tree (spot_of spot.entry).tree) }
{
    let shape = copy_shape(alloc, spot.shape)?;
    match copy_row(alloc, spot.parts) {
        Ok(parts) => Ok(Tree {
            optionals: spot.optionals,
            shape,
            parts,
        }),
        Err(error) => {
            discard_shape(shape);
            Err(error)
        }
    }
}

/// A member of what a receiver without parts is.
fn leaf_member(alloc: Global, group: Group, spot: Spot<'_>, row: &[Place]) -> Result<Tree, Stop>
    ensures { Gives pure_tree (spec.leaf_member group (spot_of spot.entry).tree (pure_row row.now)) result }
{
    match leaf_of(alloc, spot) {
        Ok(tree) => {
            let given = leaf(alloc, group, &tree, row);
            discard_tree(tree);
            given
        }
        Err(_) => Err(Stop::Memory),
    }
}

/// A copy of a value; IllTyped where a resource is in it.
fn copied(alloc: Global, tree: &Tree) -> Result<Tree, Stop>
    ensures { Gives pure_tree (reading.copied (pure_tree tree.now)) result }
{
    if owns(tree) {
        return Err(Stop::IllTyped);
    }
    match copy_tree(alloc, tree) {
        Ok(copy) => Ok(copy),
        Err(_) => Err(Stop::Memory),
    }
}

/// The number of the case that a receiver is now.
fn raw_value(alloc: Global, spot: Spot<'_>) -> Result<Tree, Stop>
    ensures { Gives pure_tree (builtins.raw_value (spot_of spot.entry)) result }
{
    match composite_in(spot.optionals, spot.shape) {
        Some(_) => match argument(spot.parts, 0) {
            Some(tree) => copied(alloc, tree),
            None => Err(Stop::IllTyped),
        },
        None => Err(Stop::IllTyped),
    }
}

/// A member of what a receiver is now, that tells nothing of its type.
fn spot_member(alloc: Global, group: Group, spot: Spot<'_>, row: &[Place]) -> Result<Tree, Stop>
    ensures { ¬ (group ≡ Group.OwnType) → ¬ (group ≡ Group.Instance) → Gives pure_tree (spec.spot_member group (spot_of spot.entry) (pure_row row.now)) result }
{
    match group {
        Group::RawValue => raw_value(alloc, spot),
        _ => leaf_member(alloc, group, spot, row),
    }
}

/// A member of what a receiver is now that was settled, that tells nothing of its type.
fn member_here(
    state: &RunState,
    group: Group,
    receiver: Settled<'_>,
    row: &[Place],
) -> Result<Tree, Stop>
    ensures { ¬ (group ≡ Group.OwnType) → ¬ (group ≡ Group.Instance) → FindsAndCarriesOut pure_tree (at_spot (settled_of receiver.entry) (λ spot. spec.spot_member group spot (pure_row row.now))) state.now state.now result }
{
    match look(state, receiver) {
        Ok(spot) => spot_member(*state.making.allocator(), group, spot, row),
        Err(stop) => Err(stop),
    }
}

/// A member of what a receiver is now that was settled, without its charge. Nothing is changed.
pub fn read_member(
    state: &mut RunState,
    group: Group,
    receiver: Settled<'_>,
    row: &[Place],
) -> Result<Tree, Stop>
    ensures { FindsAndCarriesOut pure_tree (at_spot (settled_of receiver.entry) (λ spot. spec.spot_member group spot (pure_row row.now))) state.old state.new result }
{
    match group {
        Group::OwnType => type_at(state, receiver),
        Group::Instance => instance_at(state, receiver, row),
        _ => member_here(state, group, receiver, row),
    }
}

/// How much a search through a row costs beside its result.
fn cost_of(spot: Spot<'_>) -> Result<u64, Stop>
    ensures { Gives (λ n. n) (spec.search_cost (spot_of spot.entry)) result }
{
    let cost = row_weight(spot.parts);
    if cost == u64::MAX {
        Err(Stop::Memory)
    } else {
        Ok(cost)
    }
}

/// How much a search through what a receiver is now that was settled costs beside its result.
pub fn search_cost(state: &RunState, receiver: Settled<'_>) -> Result<u64, Stop>
    ensures { FindsAndCarriesOut (λ n. n) (at_spot (settled_of receiver.entry) spec.search_cost) state.now state.now result }
{
    match look(state, receiver) {
        Ok(spot) => cost_of(spot),
        Err(stop) => Err(stop),
    }
}
