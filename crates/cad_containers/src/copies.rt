// Arrays of copies.
ghost use Rattle.std.specs.Prelude.{◌≡◌, IfOk, false};
ghost use Rattle.cad_evaluation.specs.Containers as spec;
ghost use Rattle.cad_outcomes.specs.Outcomes.{Gives};
ghost use Rattle.cad_rows.specs.Views.{pure_row, pure_tree};
ghost use Rattle.cad_syntax.specs.Types.{pure_type};
ghost use Rattle.cad_world.specs.Rows as rows;
ghost use Rattle.cad_world.specs.Trees as trees;

use crate::parts::array_tree;
use cad_outcomes::Stop;
use cad_rows::{Place, Tree, copy_row, discard_row, row_owns};
use cad_syntax::CadType;
use std::alloc::{AllocError, Global};

/// An array of these places, with a copy of the type of its elements.
pub(crate) fn array_with(element: &CadType, parts: Vec<Place>) -> Result<Tree, AllocError>
    ensures { IfOk result (λ t. pure_tree t ≡ trees.whole (rows.array (pure_type element.now)) (pure_row parts.items)) }
{
    match element.clone() {
        Ok(t) => Ok(array_tree(t, parts)),
        Err(error) => {
            discard_row(parts);
            Err(error)
        }
    }
}

/// An array of what was copied, where memory didn't fail.
fn array_from(element: &CadType, copies: Result<Vec<Place>, AllocError>) -> Result<Tree, Stop>
    ensures { (row : rows.Row) → rows.owns row ≡ false → IfOk copies (λ parts. pure_row parts.items ≡ rows.bare row) → Gives pure_tree (spec.array_copy (pure_type element.now) row) result }
{
    match copies {
        Ok(parts) => match array_with(element, parts) {
            Ok(tree) => Ok(tree),
            Err(_) => Err(Stop::Memory),
        },
        Err(_) => Err(Stop::Memory),
    }
}

/// An array of copies. IllTyped where there is a resource among them.
pub(crate) fn array_copy(alloc: Global, element: &CadType, parts: &[Place]) -> Result<Tree, Stop>
    ensures { Gives pure_tree (spec.array_copy (pure_type element.now) (pure_row parts.now)) result }
{
    if row_owns(parts) {
        return Err(Stop::IllTyped);
    }
    array_from(element, copy_row(alloc, parts))
}

/// Copies of places, the last first.
#[tactic(auto, using(crate::proofs::Rows::reversed))]
fn reversed(alloc: Global, parts: &[Place]) -> Result<Vec<Place>, AllocError>
    ensures { IfOk result (λ row. pure_row row.items ≡ rows.bare (spec.turned (pure_row parts.now) rows.stop)) }
{
    match copy_row(alloc, parts) {
        Ok(row) => {
            let mut copies = row;
            copies.reverse();
            Ok(copies)
        }
        Err(error) => Err(error),
    }
}

/// An array of copies, the last first. IllTyped where there is a resource among them.
pub(crate) fn array_reverse(alloc: Global, element: &CadType, parts: &[Place]) -> Result<Tree, Stop>
    ensures { Gives pure_tree (spec.array_reverse (pure_type element.now) (pure_row parts.now)) result }
{
    if row_owns(parts) {
        return Err(Stop::IllTyped);
    }
    array_from(element, reversed(alloc, parts))
}

/// One row behind the other.
#[tactic(auto, using(crate::proofs::Rows::joined))]
fn join(row: Vec<Place>, more: Vec<Place>) -> Result<Vec<Place>, AllocError>
    ensures { IfOk result (λ all. pure_row all.items ≡ rows.join (pure_row row.items) (pure_row more.items)) }
{
    let mut all = row;
    let mut left = more;
    let done = all.append(&mut left);
    discard_row(left);
    match done {
        Ok(()) => Ok(all),
        Err(error) => {
            discard_row(all);
            Err(error)
        }
    }
}

/// Copies of places, and of others behind them.
#[tactic(auto, using(crate::proofs::Rows::bare_joined))]
fn joined(alloc: Global, parts: &[Place], more: &[Place]) -> Result<Vec<Place>, AllocError>
    ensures { IfOk result (λ row. pure_row row.items ≡ rows.bare (rows.join (pure_row parts.now) (pure_row more.now))) }
{
    match copy_row(alloc, parts) {
        Ok(row) => match copy_row(alloc, more) {
            Ok(behind) => join(row, behind),
            Err(error) => {
                discard_row(row);
                Err(error)
            }
        },
        Err(error) => Err(error),
    }
}

/// Whether there is a resource in one of two rows.
fn one_owns(parts: &[Place], more: &[Place]) -> bool
    ensures { result ≡ rows.owns (rows.join (pure_row parts.now) (pure_row more.now)) }
{
    if row_owns(parts) {
        return true;
    }
    row_owns(more)
}

/// An array of copies of places, and of others behind them. IllTyped where there is a resource among them.
pub(crate) fn array_joined(
    alloc: Global,
    element: &CadType,
    parts: &[Place],
    more: &[Place],
) -> Result<Tree, Stop>
    ensures { Gives pure_tree (spec.array_copy (pure_type element.now) (rows.join (pure_row parts.now) (pure_row more.now))) result }
{
    if one_owns(parts, more) {
        return Err(Stop::IllTyped);
    }
    array_from(element, joined(alloc, parts, more))
}
