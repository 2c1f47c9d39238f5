// Forms over a row of values, in the recursion over expressions. Each is a function by itself, so that a form takes room on the
// stack for its own values alone.
ghost use Rattle.std.specs.Prelude.{Bool, map};
ghost use Rattle.cad_declarations.specs.Typed as e;
ghost use Rattle.cad_declarations.specs.Views.{argument_of, pair_of, term_of};
ghost use Rattle.cad_expression_leaves.specs.Code.Steps as steps;
ghost use Rattle.cad_expression_leaves.specs.Views.{tree_in};
ghost use Rattle.cad_state.specs.Views.{FindsAndCarriesOut};
ghost use Rattle.cad_syntax.specs.Types.{pure_type};

use crate::entries::evaluate_entries;
use crate::makes::{construct_with, create_with};
use crate::rows::{evaluate_arguments, evaluate_terms};
use crate::uses::{builtin_with, call_with};
use cad_declarations::{Argument, Term, TermEntry};
use cad_expression_leaves::{Evaluator, array_with, dictionary_with};
use cad_outcomes::Stop;
use cad_rows::Tree;
use cad_state::RunState;
use cad_syntax::{CadType, Name, TypeId};
use cad_types::Builtin;

/// An array literal.
#[inline(never)]
pub(crate) fn array_form<E: Evaluator>(
    element: &CadType,
    items: &[Term],
    evaluator: &E,
    state: &mut RunState,
) -> Result<Box<Tree>, Stop>
    requires { E.is_ready evaluator.now }
    ensures { FindsAndCarriesOut tree_in (steps.evaluated (E.front evaluator.now) (E.calls evaluator.now) (e.array (pure_type element.now) (e.terms_of (map term_of items.now)))) state.old state.new result }
{
    let row = evaluate_terms(items, evaluator, state, element);
    array_with(element, row)
}

/// A dictionary literal.
#[inline(never)]
pub(crate) fn dictionary_form<E: Evaluator>(
    key: &CadType,
    value: &CadType,
    entries: &[TermEntry],
    evaluator: &E,
    state: &mut RunState,
) -> Result<Box<Tree>, Stop>
    requires { E.is_ready evaluator.now }
    ensures { FindsAndCarriesOut tree_in (steps.evaluated (E.front evaluator.now) (E.calls evaluator.now) (e.dictionary (pure_type key.now) (pure_type value.now) (e.entries_of (map pair_of entries.now)))) state.old state.new result }
{
    let pairs = evaluate_entries(entries, evaluator, state, key, value);
    dictionary_with(state, key, value, pairs)
}

/// A structure is made.
#[inline(never)]
pub(crate) fn construct_form<E: Evaluator>(
    id: &TypeId,
    arguments: &[Argument],
    evaluator: &E,
    state: &mut RunState,
) -> Result<Box<Tree>, Stop>
    requires { E.is_ready evaluator.now }
    ensures { FindsAndCarriesOut tree_in (steps.evaluated (E.front evaluator.now) (E.calls evaluator.now) (e.construct id.now (e.arguments_of (map argument_of arguments.now)))) state.old state.new result }
{
    let row = evaluate_arguments(arguments, evaluator, state);
    construct_with(evaluator, state, id, row)
}

/// A resource is made.
#[inline(never)]
pub(crate) fn create_form<E: Evaluator>(
    id: &TypeId,
    arguments: &[Argument],
    evaluator: &E,
    state: &mut RunState,
) -> Result<Box<Tree>, Stop>
    requires { E.is_ready evaluator.now }
    ensures { FindsAndCarriesOut tree_in (steps.evaluated (E.front evaluator.now) (E.calls evaluator.now) (e.create id.now (e.arguments_of (map argument_of arguments.now)))) state.old state.new result }
{
    let row = evaluate_arguments(arguments, evaluator, state);
    create_with(evaluator, state, id, row)
}

/// A function outside contracts is called.
#[inline(never)]
pub(crate) fn call_form<E: Evaluator>(
    function: &Name,
    arguments: &[Argument],
    evaluator: &E,
    state: &mut RunState,
) -> Result<Box<Tree>, Stop>
    requires { E.is_ready evaluator.now }
    ensures { (view never : Bool) → FindsAndCarriesOut tree_in (steps.evaluated (E.front evaluator.now) (E.calls evaluator.now) (e.call function.now view never (e.arguments_of (map argument_of arguments.now)))) state.old state.new result }
{
    let row = evaluate_arguments(arguments, evaluator, state);
    call_with(evaluator, state, function, row)
}

/// A built-in function is called, or a built-in member of a type.
#[inline(never)]
pub(crate) fn builtin_form<E: Evaluator>(
    member: Builtin,
    types: &[CadType],
    arguments: &[Argument],
    evaluator: &E,
    state: &mut RunState,
) -> Result<Box<Tree>, Stop>
    requires { E.is_ready evaluator.now }
    ensures { FindsAndCarriesOut tree_in (steps.evaluated (E.front evaluator.now) (E.calls evaluator.now) (e.builtin member (map pure_type types.now) (e.arguments_of (map argument_of arguments.now)))) state.old state.new result }
{
    let row = evaluate_arguments(arguments, evaluator, state);
    builtin_with(state, member, types, row)
}
