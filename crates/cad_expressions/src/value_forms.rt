// Forms over values, in the recursion over expressions. Each is a function by itself, so that a form takes room on the stack for its
// own values alone.
ghost use Rattle.cad_declarations.specs.Typed as e;
ghost use Rattle.cad_declarations.specs.Views.{term_of};
ghost use Rattle.cad_expression_leaves.specs.Code.Steps as steps;
ghost use Rattle.cad_expression_leaves.specs.Views.{tree_in};
ghost use Rattle.cad_state.specs.Views.{FindsAndCarriesOut};
ghost use Rattle.cad_syntax.specs.Types.{PureType, pure_type};

use crate::ends::destroy_found;
use crate::operands::{choose_branch, coalesce, combine, evaluate_behind};
use cad_declarations::Term;
use cad_expression_leaves::{
    Evaluator, binary_at_once, cast_of, force_of, put_aside, take_down, truth_of, unary_of,
};
use cad_grammar::{BinaryOperator, CastKind, UnaryOperator};
use cad_outcomes::Stop;
use cad_rows::Tree;
use cad_state::RunState;
use cad_syntax::CadType;

/// An expression over a value that a hidden variable holds.
#[inline(never)]
pub(crate) fn hold_form<E: Evaluator>(
    number: u32,
    value: &Term,
    body: &Term,
    evaluator: &E,
    state: &mut RunState,
) -> Result<Box<Tree>, Stop>
    requires { E.is_ready evaluator.now }
    ensures { (type : PureType) → FindsAndCarriesOut tree_in (steps.evaluated (E.front evaluator.now) (E.calls evaluator.now) (e.hold number type (term_of value.now) (term_of body.now))) state.old state.new result }
{
    let held = evaluator.value(state, value);
    let aside = put_aside(state, number, held);
    let found = evaluate_behind(body, evaluator, state, aside);
    take_down(state, number, found)
}

/// A resource ends.
#[inline(never)]
pub(crate) fn destroy_form<E: Evaluator>(
    value: &Term,
    evaluator: &E,
    state: &mut RunState,
) -> Result<Box<Tree>, Stop>
    requires { E.is_ready evaluator.now }
    ensures { FindsAndCarriesOut tree_in (steps.evaluated (E.front evaluator.now) (E.calls evaluator.now) (e.destroy (term_of value.now))) state.old state.new result }
{
    let found = evaluator.value(state, value);
    destroy_found(evaluator, state, found)
}

/// What an operator makes of a value.
#[inline(never)]
pub(crate) fn unary_form<E: Evaluator>(
    operator: UnaryOperator,
    value: &Term,
    evaluator: &E,
    state: &mut RunState,
) -> Result<Box<Tree>, Stop>
    requires { E.is_ready evaluator.now }
    ensures { FindsAndCarriesOut tree_in (steps.evaluated (E.front evaluator.now) (E.calls evaluator.now) (e.unary operator (term_of value.now))) state.old state.new result }
{
    let found = evaluator.value(state, value);
    unary_of(state, operator, found)
}

/// The content of an optional.
#[inline(never)]
pub(crate) fn force_form<E: Evaluator>(
    value: &Term,
    evaluator: &E,
    state: &mut RunState,
) -> Result<Box<Tree>, Stop>
    requires { E.is_ready evaluator.now }
    ensures { FindsAndCarriesOut tree_in (steps.evaluated (E.front evaluator.now) (E.calls evaluator.now) (e.force (term_of value.now))) state.old state.new result }
{
    let found = evaluator.value(state, value);
    force_of(found)
}

/// A value as one of another type.
#[inline(never)]
pub(crate) fn cast_form<E: Evaluator>(
    kind: CastKind,
    value: &Term,
    declared: &CadType,
    evaluator: &E,
    state: &mut RunState,
) -> Result<Box<Tree>, Stop>
    requires { E.is_ready evaluator.now }
    ensures { FindsAndCarriesOut tree_in (steps.evaluated (E.front evaluator.now) (E.calls evaluator.now) (e.cast kind (term_of value.now) (pure_type declared.now))) state.old state.new result }
{
    let found = evaluator.value(state, value);
    cast_of(state, kind, declared, found)
}

/// What an operator makes of two operands.
#[inline(never)]
pub(crate) fn binary_form<E: Evaluator>(
    operator: BinaryOperator,
    left: &Term,
    right: &Term,
    evaluator: &E,
    state: &mut RunState,
) -> Result<Box<Tree>, Stop>
    requires { E.is_ready evaluator.now }
    ensures { FindsAndCarriesOut tree_in (steps.evaluated (E.front evaluator.now) (E.calls evaluator.now) (e.binary operator (term_of left.now) (term_of right.now))) state.old state.new result }
{
    match binary_at_once(operator, left, right, state) {
        Some(told) => told,
        None => {
            let found = evaluator.value(state, left);
            combine(right, evaluator, state, operator, found)
        }
    }
}

/// The content of a value, or what comes in place of nil.
#[inline(never)]
pub(crate) fn coalesce_form<E: Evaluator>(
    left: &Term,
    right: &Term,
    takes_off: bool,
    declared: &CadType,
    evaluator: &E,
    state: &mut RunState,
) -> Result<Box<Tree>, Stop>
    requires { E.is_ready evaluator.now }
    ensures { FindsAndCarriesOut tree_in (steps.evaluated (E.front evaluator.now) (E.calls evaluator.now) (e.coalesce (term_of left.now) (term_of right.now) takes_off (pure_type declared.now))) state.old state.new result }
{
    let found = evaluator.value(state, left);
    coalesce(right, evaluator, state, takes_off, declared, found)
}

/// One of two expressions, by a third.
#[inline(never)]
pub(crate) fn conditional_form<E: Evaluator>(
    test: &Term,
    yes: &Term,
    no: &Term,
    evaluator: &E,
    state: &mut RunState,
) -> Result<Box<Tree>, Stop>
    requires { E.is_ready evaluator.now }
    ensures { FindsAndCarriesOut tree_in (steps.evaluated (E.front evaluator.now) (E.calls evaluator.now) (e.conditional (term_of test.now) (term_of yes.now) (term_of no.now))) state.old state.new result }
{
    let found = evaluator.value(state, test);
    let truth = truth_of(found);
    choose_branch(yes, no, evaluator, state, truth)
}
