// Rows and pairs that grow by the values of parts.
ghost use Rattle.cad_expression_leaves.specs.Code.Steps as steps;
ghost use Rattle.cad_expression_leaves.specs.Code.Steps.{GoesOn};
ghost use Rattle.cad_expression_leaves.specs.Views.{pairs_of, tree_in};
ghost use Rattle.cad_labels.specs.Laws.{HasNone};
ghost use Rattle.cad_outcomes.specs.Outcomes.{Gives};
ghost use Rattle.cad_rows.specs.Views.{pure_row, pure_tree};
ghost use Rattle.cad_state.specs.Views.{CarriesOut};
ghost use Rattle.cad_syntax.specs.Types.{pure_type};

use cad_boxed_trees::unboxed;
use cad_members::Pair;
use cad_outcomes::Stop;
use cad_rows::{Place, Tree, add_last, discard_tree};
use cad_state::RunState;
use cad_syntax::CadType;

/// Appends a value, as what comes to a place of a type.
#[inline(never)]
pub fn push_value(
    state: &mut RunState,
    declared: &CadType,
    value: Result<Box<Tree>, Stop>,
    row: &mut Vec<Place>,
) -> Result<(), Stop>
    ensures { GoesOn HasNone tree_in (λ _. pure_row row.new.items) (steps.row_with (pure_type declared.now) (pure_row row.old.items)) value state.old state.new result }
{
    match value {
        Ok(found) => push_own(state, declared, unboxed(found), row),
        Err(stop) => Err(stop),
    }
}

/// Appends a value in hand.
fn push_own(
    state: &mut RunState,
    declared: &CadType,
    value: Tree,
    row: &mut Vec<Place>,
) -> Result<(), Stop>
    ensures { CarriesOut (λ _. pure_row row.new.items) (steps.row_with (pure_type declared.now) (pure_row row.old.items) (pure_tree value)) state.old state.new result }
{
    match state.transfer(value, declared) {
        Ok(own) => match add_last(row, own) {
            Ok(()) => Ok(()),
            Err(_) => Err(Stop::Memory),
        },
        Err(stop) => Err(stop),
    }
}

/// Appends a key and the value under it.
#[inline(never)]
pub fn push_pair(pairs: &mut Vec<Pair>, key: Box<Tree>, value: Box<Tree>) -> Result<(), Stop>
    ensures { Gives (λ _. pairs_of pairs.new) (steps.pair_of (tree_in key) (pairs_of pairs.old) (tree_in value)) result }
{
    let own_key = unboxed(key);
    let own_value = unboxed(value);
    match pairs.push(Pair {
        key: own_key,
        value: own_value,
    }) {
        Ok(()) => Ok(()),
        Err(refused) => {
            let Pair { key, value } = refused.value;
            discard_tree(key);
            discard_tree(value);
            Err(Stop::Memory)
        }
    }
}
