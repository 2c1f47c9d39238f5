// The first and the last places of a row.
ghost use Rattle.std.specs.Prelude.{◌≡◌};
ghost use Rattle.cad_rows.specs.Views.{pure_row, pure_tree};
ghost use Rattle.cad_outcomes.specs.Outcomes.{Gives};
ghost use Rattle.cad_evaluation.specs.Arguments.{in_slot};
ghost use Rattle.cad_evaluation.specs.Reading as reading;
ghost use Rattle.cad_world.specs.Rows as spec;
ghost use Rattle.cad_world.specs.State.{with_some};

use cad_outcomes::Stop;
use cad_rows::{Place, Slot, Tree, copy_tree, discard_place, owns, row_owns, tree_at};

/// The places from an index on go.
#[tactic(auto, using(crate::proofs::Fronts::front_turn, crate::proofs::Fronts::front_all))]
pub(crate) fn keep_front(row: &mut Vec<Place>, n: usize)
    ensures { pure_row row.new.items ≡ spec.front n (pure_row row.old.items) }
{
    while n < row.len() {
        match row.pop() {
            Some(place) => discard_place(place),
            None => {}
        }
    }
}

/// The places before an index go.
#[tactic(auto, using(crate::proofs::Fronts::back_turn, crate::proofs::Fronts::back_none))]
pub(crate) fn keep_back(row: &mut Vec<Place>, n: usize)
    ensures { pure_row row.new.items ≡ spec.back n (pure_row row.old.items) }
{
    for _ in 0..n {
        let left = row.len();
        if left == 0 {
            return;
        }
        let place = row.remove(0);
        discard_place(place);
    }
}

/// Whether there is a resource in the places from an index on.
#[tactic(auto, using(crate::proofs::Fronts::rest_taken, crate::proofs::Fronts::back_beyond))]
pub(crate) fn owns_behind(row: &[Place], n: usize) -> bool
    ensures { result ≡ spec.owns (spec.back n (pure_row row.now)) }
{
    if row.len() <= n {
        return false;
    }
    row_owns(&row[n..])
}

/// A copy of a value; IllTyped where a resource is in it.
fn copied(tree: &Tree) -> Result<Tree, Stop>
    ensures { Gives pure_tree (reading.copied (pure_tree tree.now)) result }
{
    if owns(tree) {
        return Err(Stop::IllTyped);
    }
    match copy_tree(*tree.parts.allocator(), tree) {
        Ok(copy) => Ok(copy),
        Err(_) => Err(Stop::Memory),
    }
}

/// A copy of what stands at an index; IllTyped where nothing does, or where a resource is in it.
pub(crate) fn copy_at(row: &[Place], n: usize) -> Result<Tree, Stop>
    ensures { Gives pure_tree (with_some (in_slot (spec.slot n (pure_row row.now))) reading.copied) result }
{
    match tree_at(row, n) {
        Slot::Full(tree) => copied(tree),
        _ => Err(Stop::IllTyped),
    }
}
