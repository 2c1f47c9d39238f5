// What is read of arrays. Nothing of it touches the state.
ghost use Rattle.std.specs.Prelude.{◌≡◌, ◌≤◌, ◌-◌, IfOk, MatchOption, Ok, length, pos};
ghost use Rattle.cad_containers.specs.Code.Members.{array_read};
ghost use Rattle.cad_containers.specs.Code.Parts.{AreBounds, equal_there, IsNegative};
ghost use Rattle.cad_evaluation.specs.Containers as spec;
ghost use Rattle.cad_evaluation.specs.Texts.{given_int, int_tree, optional_tree};
ghost use Rattle.cad_num.specs.Numbers.{value_of as integer_of};
ghost use Rattle.cad_outcomes.specs.Outcomes.{Gives};
ghost use Rattle.cad_rows.specs.Views.{pure_place, pure_row, pure_tree};
ghost use Rattle.cad_syntax.specs.Types.{pure_type};
ghost use Rattle.cad_world.specs.Rows as rows;
ghost use Rattle.cad_world.specs.State.{give};
ghost use Rattle.cad_world.specs.Trees.{value_of};

use crate::copies::{array_copy, array_reverse};
use crate::parts::{Elements, argument_at, wrapped};
use cad_operators::{bool_tree, count_tree, integer_in, nil_tree, same};
use cad_outcomes::{RunError, Stop};
use cad_rows::{Place, Tree, count_places};
use cad_syntax::{CadType, Num};
use cad_types::Builtin;
use std::alloc::{AllocError, Global};

/// How many places a row has, as an Int.
pub(crate) fn length(alloc: Global, parts: &[Place]) -> Tree
    ensures { Gives pure_tree (given_int (rows.count_places (pure_row parts.now))) (Ok result) }
{
    count_tree(alloc, count_places(parts) as u64)
}

/// Whether what stands in a place is the same as a value.
fn is_same_there(alloc: Global, value: &Tree, place: &Place) -> Result<bool, AllocError>
    ensures { IfOk result (λ is. is ≡ equal_there (value_of (pure_tree value.now)) (pure_place place.now)) }
{
    match place {
        Place::Empty => Ok(false),
        Place::Full(_, tree) => same(alloc, value, tree),
    }
}

/// The first place in which the same stands as a value.
#[tactic(auto, using(crate::proofs::Rows::found_turn, crate::proofs::Rows::found_stop, crate::proofs::Rows::found_end))]
fn place_of(alloc: Global, value: &Tree, parts: &[Place]) -> Result<Option<usize>, AllocError>
    ensures { IfOk result (λ o. o ≡ spec.equal_place (value_of (pure_tree value.now)) 0 (pure_row parts.now)) }
{
    for i in 0..parts.len() {
        if is_same_there(alloc, value, &parts[i])? {
            return Ok(Some(i));
        }
    }
    Ok(None)
}

/// Whether the same stands in an array as a value.
fn contains(alloc: Global, parts: &[Place], value: &Tree) -> Result<Tree, Stop>
    ensures { Gives pure_tree (spec.array_contains (pure_row parts.now) (pure_tree value.now)) result }
{
    match place_of(alloc, value, parts) {
        Ok(Some(_)) => Ok(bool_tree(alloc, true)),
        Ok(None) => Ok(bool_tree(alloc, false)),
        Err(_) => Err(Stop::Memory),
    }
}

/// An index as an optional Int.
fn found_index(alloc: Global, i: usize) -> Result<Tree, Stop>
    ensures { Gives pure_tree (give (optional_tree (int_tree i))) result }
{
    match wrapped(count_tree(alloc, i as u64)) {
        Ok(tree) => Ok(tree),
        Err(_) => Err(Stop::Memory),
    }
}

/// The index of the first element that is the same as a value, or nil.
fn first_index(alloc: Global, parts: &[Place], value: &Tree) -> Result<Tree, Stop>
    ensures { Gives pure_tree (spec.array_first_index (pure_row parts.now) (pure_tree value.now)) result }
{
    match place_of(alloc, value, parts) {
        Ok(Some(i)) => found_index(alloc, i),
        Ok(None) => Ok(nil_tree(alloc)),
        Err(_) => Err(Stop::Memory),
    }
}

/// The magnitude of a number that isn't negative.
pub(crate) fn natural(x: Num) -> Option<u128>
    ensures { MatchOption result (IsNegative (integer_of x)) (λ n. integer_of x ≡ pos n) }
{
    if x.negative && x.magnitude != 0 {
        return None;
    }
    Some(x.magnitude)
}

/// Two places of a row, in order.
#[derive(Clone, Copy, Debug, PartialEq, Eq)]
struct Bounds {
    from: usize,
    up_to: usize,
}

/// Two numbers as places of a row of this length, in order.
fn bounds_of(x: Num, y: Num, count: usize) -> Option<Bounds>
    ensures { AreBounds (integer_of x) (integer_of y) count result }
{
    match natural(x) {
        None => None,
        Some(from) => match natural(y) {
            None => None,
            Some(up_to) => {
                if from <= up_to && up_to <= count as u128 {
                    return Some(Bounds {
                        from: from as usize,
                        up_to: up_to as usize,
                    });
                }
                None
            }
        },
    }
}

/// The places from one to before another, which are in order.
#[tactic(auto, using(crate::proofs::Rows::stretch_list))]
fn between(parts: &[Place], bounds: Bounds) -> &[Place]
    requires order { bounds.from ≤ bounds.up_to }
    requires inside { bounds.up_to ≤ length parts.now }
    ensures { pure_row result.now ≡ rows.front (bounds.up_to - bounds.from) (rows.back bounds.from (pure_row parts.now)) }
{
    &parts[bounds.from..bounds.up_to]
}

/// Copies of the elements from one place to before another, which are in order.
fn stretch(alloc: Global, element: &CadType, parts: &[Place], bounds: Bounds) -> Result<Tree, Stop>
    requires order { bounds.from ≤ bounds.up_to }
    requires inside { bounds.up_to ≤ length parts.now }
    ensures { Gives pure_tree (spec.array_copy (pure_type element.now) (rows.front (bounds.up_to - bounds.from) (rows.back bounds.from (pure_row parts.now)))) result }
{
    array_copy(alloc, element, between(parts, bounds))
}

/// Copies of the elements between two numbers. SliceOutOfBounds where these aren't places in order, IllTyped of what is no whole
/// number and where there is a resource among them.
fn slice(alloc: Global, array: Elements<'_>, from: &Tree, up_to: &Tree) -> Result<Tree, Stop>
    ensures { Gives pure_tree (spec.array_slice (pure_type array.entry.element.now) (pure_row array.entry.parts.now) (pure_tree from.now) (pure_tree up_to.now)) result }
{
    match integer_in(from) {
        None => Err(Stop::IllTyped),
        Some(x) => match integer_in(up_to) {
            None => Err(Stop::IllTyped),
            Some(y) => match bounds_of(x, y, array.parts.len()) {
                None => Err(Stop::Failed(RunError::SliceOutOfBounds)),
                Some(bounds) => stretch(alloc, array.element, array.parts, bounds),
            },
        },
    }
}

/// What is read of an array, over the arguments: `length`, `contains`, `firstIndex`, `slice` and `reverse`. IllTyped of all other
/// members, and where an argument is lacking.
pub(crate) fn read_array(
    alloc: Global,
    member: Builtin,
    array: Elements<'_>,
    arguments: &[Place],
) -> Result<Tree, Stop>
    ensures { Gives pure_tree (array_read member (pure_row arguments.now) (pure_type array.entry.element.now) (pure_row array.entry.parts.now)) result }
{
    match member {
        Builtin::ArrayLength => Ok(length(alloc, array.parts)),
        Builtin::ArrayContains => match argument_at(arguments, 0) {
            Some(value) => contains(alloc, array.parts, value),
            None => Err(Stop::IllTyped),
        },
        Builtin::ArrayFirstIndex => match argument_at(arguments, 0) {
            Some(value) => first_index(alloc, array.parts, value),
            None => Err(Stop::IllTyped),
        },
        Builtin::ArraySlice => match argument_at(arguments, 0) {
            Some(from) => match argument_at(arguments, 1) {
                Some(up_to) => slice(alloc, array, from, up_to),
                None => Err(Stop::IllTyped),
            },
            None => Err(Stop::IllTyped),
        },
        Builtin::ArrayReverse => array_reverse(alloc, array.element, array.parts),
        _ => Err(Stop::IllTyped),
    }
}
