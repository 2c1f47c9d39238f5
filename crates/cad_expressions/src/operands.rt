// What is done with the value of a first part by a second one, in the recursion over expressions.
ghost use Rattle.std.specs.Prelude.{Bool, option_map};
ghost use Rattle.cad_declarations.specs.Views.{term_of, use_of};
ghost use Rattle.cad_expression_leaves.specs.Code.Steps as steps;
ghost use Rattle.cad_expression_leaves.specs.Code.Steps.{GoesOn};
ghost use Rattle.cad_expression_leaves.specs.Views.{tree_in};
ghost use Rattle.cad_labels.specs.Laws.{AnyOne, HasNone};
ghost use Rattle.cad_outcomes.specs.Outcomes.{no_value};
ghost use Rattle.cad_expression_leaves.specs.Passed.{receiver_of};
ghost use Rattle.cad_state.specs.Views.{FindsAndCarriesOut};
ghost use Rattle.cad_syntax.specs.Types.{pure_type};

use crate::members::evaluate_use;
use cad_declarations::{Term, Use};
use cad_expression_leaves::{
    Evaluator, Receiver, binary_of, boxed_nil, boxed_truth, content_or_whole, discard_receiver,
    read_index, round_to, truth_of, truth_only_of, wrap_if,
};
use cad_grammar::BinaryOperator;
use cad_outcomes::Stop;
use cad_rows::Tree;
use cad_state::RunState;
use cad_syntax::CadType;

/// An expression behind what was done.
pub(crate) fn evaluate_behind<E: Evaluator>(
    term: &Term,
    evaluator: &E,
    state: &mut RunState,
    before: Result<(), Stop>,
) -> Result<Box<Tree>, Stop>
    requires { E.is_ready evaluator.now }
    ensures { GoesOn AnyOne no_value tree_in (λ _. steps.evaluated (E.front evaluator.now) (E.calls evaluator.now) (term_of term.now)) before state.old state.new result }
{
    match before {
        Ok(()) => evaluator.value(state, term),
        Err(stop) => Err(stop),
    }
}

/// What is done with a receiver.
pub(crate) fn use_on<E: Evaluator>(
    member: &Use,
    evaluator: &E,
    state: &mut RunState,
    receiver: Result<Receiver, Stop>,
) -> Result<Box<Tree>, Stop>
    requires { E.is_ready evaluator.now }
    ensures { GoesOn AnyOne receiver_of tree_in (steps.used (E.front evaluator.now) (E.calls evaluator.now) (use_of member.now)) receiver state.old state.new result }
{
    match receiver {
        Ok(own) => {
            let found = evaluate_use(member, evaluator, state, &own);
            discard_receiver(own);
            found
        }
        Err(stop) => Err(stop),
    }
}

/// What is done with the receiver of a chain: nil where there is none.
pub(crate) fn use_in_chain<E: Evaluator>(
    member: &Use,
    evaluator: &E,
    state: &mut RunState,
    wraps: bool,
    receiver: Result<Option<Receiver>, Stop>,
) -> Result<Box<Tree>, Stop>
    requires { E.is_ready evaluator.now }
    ensures { GoesOn AnyOne (option_map receiver_of) tree_in (steps.chained_use (E.front evaluator.now) (E.calls evaluator.now) (use_of member.now) wraps) receiver state.old state.new result }
{
    match receiver {
        Ok(Some(own)) => {
            let found = evaluate_use(member, evaluator, state, &own);
            discard_receiver(own);
            wrap_if(wraps, found)
        }
        Ok(None) => boxed_nil(state),
        Err(stop) => Err(stop),
    }
}

/// What stands in a receiver at an index, which is evaluated first.
pub(crate) fn index_on<E: Evaluator>(
    index: &Term,
    evaluator: &E,
    state: &mut RunState,
    receiver: Result<Receiver, Stop>,
) -> Result<Box<Tree>, Stop>
    requires { E.is_ready evaluator.now }
    ensures { GoesOn AnyOne receiver_of tree_in (steps.index_read (E.front evaluator.now) (E.calls evaluator.now) (term_of index.now)) receiver state.old state.new result }
{
    match receiver {
        Ok(own) => {
            let at = evaluator.value(state, index);
            let found = read_index(state, &own, at);
            discard_receiver(own);
            found
        }
        Err(stop) => Err(stop),
    }
}

/// What an operator makes of a left operand and a right one, which is evaluated where the operator asks for it.
pub(crate) fn combine<E: Evaluator>(
    right: &Term,
    evaluator: &E,
    state: &mut RunState,
    operator: BinaryOperator,
    left: Result<Box<Tree>, Stop>,
) -> Result<Box<Tree>, Stop>
    requires { E.is_ready evaluator.now }
    ensures { GoesOn HasNone tree_in tree_in (steps.combined_with (E.front evaluator.now) (E.calls evaluator.now) operator (term_of right.now)) left state.old state.new result }
{
    match operator {
        BinaryOperator::And => conjoin_values(right, evaluator, state, left),
        BinaryOperator::Or => disjoin_values(right, evaluator, state, left),
        _ => apply(right, evaluator, state, operator, left),
    }
}

/// What an operator makes of a left operand and a right one, which is evaluated in any case.
#[inline(never)]
fn apply<E: Evaluator>(
    right: &Term,
    evaluator: &E,
    state: &mut RunState,
    operator: BinaryOperator,
    left: Result<Box<Tree>, Stop>,
) -> Result<Box<Tree>, Stop>
    requires { E.is_ready evaluator.now }
    ensures { GoesOn HasNone tree_in tree_in (steps.applied (E.front evaluator.now) (E.calls evaluator.now) operator (term_of right.now)) left state.old state.new result }
{
    match left {
        Ok(x) => {
            let y = evaluator.value(state, right);
            binary_of(state, operator, x, y)
        }
        Err(stop) => Err(stop),
    }
}

/// `&&`, with its left operand.
#[inline(never)]
fn conjoin_values<E: Evaluator>(
    right: &Term,
    evaluator: &E,
    state: &mut RunState,
    left: Result<Box<Tree>, Stop>,
) -> Result<Box<Tree>, Stop>
    requires { E.is_ready evaluator.now }
    ensures { GoesOn HasNone tree_in tree_in (steps.combined_with (E.front evaluator.now) (E.calls evaluator.now) BinaryOperator.And (term_of right.now)) left state.old state.new result }
{
    let truth = truth_of(left);
    conjoin(right, evaluator, state, truth)
}

/// `||`, with its left operand.
#[inline(never)]
fn disjoin_values<E: Evaluator>(
    right: &Term,
    evaluator: &E,
    state: &mut RunState,
    left: Result<Box<Tree>, Stop>,
) -> Result<Box<Tree>, Stop>
    requires { E.is_ready evaluator.now }
    ensures { GoesOn HasNone tree_in tree_in (steps.combined_with (E.front evaluator.now) (E.calls evaluator.now) BinaryOperator.Or (term_of right.now)) left state.old state.new result }
{
    let truth = truth_of(left);
    disjoin(right, evaluator, state, truth)
}

/// `&&`, with the truth of its left operand.
fn conjoin<E: Evaluator>(
    right: &Term,
    evaluator: &E,
    state: &mut RunState,
    left: Result<bool, Stop>,
) -> Result<Box<Tree>, Stop>
    requires { E.is_ready evaluator.now }
    ensures { GoesOn AnyOne (λ (b : Bool). b) tree_in (steps.conjoined (E.front evaluator.now) (E.calls evaluator.now) (term_of right.now)) left state.old state.new result }
{
    match left {
        Ok(true) => {
            let y = evaluator.value(state, right);
            truth_only_of(state, y)
        }
        Ok(false) => boxed_truth(state, false),
        Err(stop) => Err(stop),
    }
}

/// `||`, with the truth of its left operand.
fn disjoin<E: Evaluator>(
    right: &Term,
    evaluator: &E,
    state: &mut RunState,
    left: Result<bool, Stop>,
) -> Result<Box<Tree>, Stop>
    requires { E.is_ready evaluator.now }
    ensures { GoesOn AnyOne (λ (b : Bool). b) tree_in (steps.disjoined (E.front evaluator.now) (E.calls evaluator.now) (term_of right.now)) left state.old state.new result }
{
    match left {
        Ok(true) => boxed_truth(state, true),
        Ok(false) => {
            let y = evaluator.value(state, right);
            truth_only_of(state, y)
        }
        Err(stop) => Err(stop),
    }
}

/// `a ?? b`: the content of a, or a itself, or what b comes to.
pub(crate) fn coalesce<E: Evaluator>(
    right: &Term,
    evaluator: &E,
    state: &mut RunState,
    takes_off: bool,
    declared: &CadType,
    left: Result<Box<Tree>, Stop>,
) -> Result<Box<Tree>, Stop>
    requires { E.is_ready evaluator.now }
    ensures { GoesOn HasNone tree_in tree_in (steps.coalesced_with (E.front evaluator.now) (E.calls evaluator.now) takes_off (pure_type declared.now) (term_of right.now)) left state.old state.new result }
{
    let found = content_or_whole(takes_off, left);
    fill_nil(right, evaluator, state, declared, found)
}

/// The content that was found, or what comes in place of nil.
#[inline(never)]
fn fill_nil<E: Evaluator>(
    right: &Term,
    evaluator: &E,
    state: &mut RunState,
    declared: &CadType,
    left: Result<Option<Box<Tree>>, Stop>,
) -> Result<Box<Tree>, Stop>
    requires { E.is_ready evaluator.now }
    ensures { GoesOn AnyOne (λ o. option_map (λ t. tree_in t) o) tree_in (steps.filled_by (E.front evaluator.now) (E.calls evaluator.now) (pure_type declared.now) (term_of right.now)) left state.old state.new result }
{
    match left {
        Ok(Some(found)) => Ok(found),
        Ok(None) => {
            let y = evaluator.value(state, right);
            round_to(declared, y)
        }
        Err(stop) => Err(stop),
    }
}

/// One of two expressions, by a truth.
pub(crate) fn choose_branch<E: Evaluator>(
    yes: &Term,
    no: &Term,
    evaluator: &E,
    state: &mut RunState,
    truth: Result<bool, Stop>,
) -> Result<Box<Tree>, Stop>
    requires { E.is_ready evaluator.now }
    ensures { GoesOn AnyOne (λ (b : Bool). b) tree_in (steps.chosen (E.front evaluator.now) (E.calls evaluator.now) (term_of yes.now) (term_of no.now)) truth state.old state.new result }
{
    match truth {
        Ok(true) => evaluator.value(state, yes),
        Ok(false) => evaluator.value(state, no),
        Err(stop) => Err(stop),
    }
}
