// Keys and values of dictionary literals, in the recursion over expressions.
ghost use Rattle.std.specs.Prelude.{map};
ghost use Rattle.cad_declarations.specs.Typed.{entries_of};
ghost use Rattle.cad_declarations.specs.Views.{pair_of, term_of};
ghost use Rattle.cad_expression_leaves.specs.Code.Steps as steps;
ghost use Rattle.cad_expression_leaves.specs.Code.Steps.{GoesOn};
ghost use Rattle.cad_expression_leaves.specs.Views.{pairs_of, tree_in};
ghost use Rattle.cad_labels.specs.Laws.{HasNone};
ghost use Rattle.cad_state.specs.Views.{FindsAndCarriesOut};
ghost use Rattle.cad_syntax.specs.Types.{pure_type};

use cad_declarations::{Term, TermEntry};
use cad_expression_leaves::{
    Evaluator, Pair, discard_boxed, discard_pairs, hand_over, memory, push_pair,
};
use cad_outcomes::Stop;
use cad_rows::Tree;
use cad_state::RunState;
use cad_syntax::CadType;

/// Keys and values, each come to its type: of each entry the key first.
pub(crate) fn evaluate_entries<E: Evaluator>(
    all: &[TermEntry],
    evaluator: &E,
    state: &mut RunState,
    key: &CadType,
    value: &CadType,
) -> Result<Vec<Pair>, Stop>
    requires { E.is_ready evaluator.now }
    ensures { FindsAndCarriesOut pairs_of (steps.entries (E.front evaluator.now) (E.calls evaluator.now) (pure_type key.now) (pure_type value.now) (entries_of (map pair_of all.now))) state.old state.new result }
{
    let mut pairs = Vec::new(memory(state));
    match push_entries(all, evaluator, state, key, value, &mut pairs) {
        Ok(()) => Ok(pairs),
        Err(stop) => {
            discard_pairs(pairs);
            Err(stop)
        }
    }
}

/// Appends keys and values, each come to its type.
fn push_entries<E: Evaluator>(
    all: &[TermEntry],
    evaluator: &E,
    state: &mut RunState,
    key: &CadType,
    value: &CadType,
    pairs: &mut Vec<Pair>,
) -> Result<(), Stop>
    requires { E.is_ready evaluator.now }
    ensures { FindsAndCarriesOut (λ _. pairs_of pairs.new) (steps.after (pairs_of pairs.old) (steps.entries (E.front evaluator.now) (E.calls evaluator.now) (pure_type key.now) (pure_type value.now) (entries_of (map pair_of all.now)))) state.old state.new result }
{
    for a in all {
        let own = evaluate_typed(&a.key, evaluator, state, key);
        match push_entry(&a.value, evaluator, state, value, own, pairs) {
            Ok(()) => {}
            Err(stop) => return Err(stop),
        }
    }
    Ok(())
}

/// The value of an expression, as what comes to a place of a type.
fn evaluate_typed<E: Evaluator>(
    term: &Term,
    evaluator: &E,
    state: &mut RunState,
    declared: &CadType,
) -> Result<Box<Tree>, Stop>
    requires { E.is_ready evaluator.now }
    ensures { FindsAndCarriesOut tree_in (steps.typed (E.front evaluator.now) (E.calls evaluator.now) (pure_type declared.now) (term_of term.now)) state.old state.new result }
{
    let found = evaluator.value(state, term);
    hand_over(state, declared, found)
}

/// Appends a key and the value under it, which is evaluated behind the key.
fn push_entry<E: Evaluator>(
    term: &Term,
    evaluator: &E,
    state: &mut RunState,
    declared: &CadType,
    key: Result<Box<Tree>, Stop>,
    pairs: &mut Vec<Pair>,
) -> Result<(), Stop>
    requires { E.is_ready evaluator.now }
    ensures { GoesOn HasNone tree_in (λ _. pairs_of pairs.new) (steps.pair_with (E.front evaluator.now) (E.calls evaluator.now) (pure_type declared.now) (term_of term.now) (pairs_of pairs.old)) key state.old state.new result }
{
    match key {
        Ok(own) => push_under(term, evaluator, state, declared, own, pairs),
        Err(stop) => Err(stop),
    }
}

/// Appends a key in hand and the value under it.
fn push_under<E: Evaluator>(
    term: &Term,
    evaluator: &E,
    state: &mut RunState,
    declared: &CadType,
    key: Box<Tree>,
    pairs: &mut Vec<Pair>,
) -> Result<(), Stop>
    requires { E.is_ready evaluator.now }
    ensures { FindsAndCarriesOut (λ _. pairs_of pairs.new) (steps.pair_with (E.front evaluator.now) (E.calls evaluator.now) (pure_type declared.now) (term_of term.now) (pairs_of pairs.old) (tree_in key)) state.old state.new result }
{
    match evaluate_typed(term, evaluator, state, declared) {
        Ok(value) => push_pair(pairs, key, value),
        Err(stop) => {
            discard_boxed(key);
            Err(stop)
        }
    }
}
