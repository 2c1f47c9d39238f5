// Conditions, and the values of `before`.
ghost use Rattle.std.specs.Prelude.{ℕ, Some, map, option_map};
ghost use Rattle.cad_calls.specs.Code.Parts as parts;
ghost use Rattle.cad_declarations.specs.Typed as e;
ghost use Rattle.cad_declarations.specs.Views.{before_of, condition_of, targeted, term_of};
ghost use Rattle.cad_evaluation.specs.Bodies as spec;
ghost use Rattle.cad_execution.specs.Passed.{tree_in};
ghost use Rattle.cad_outcomes.specs.Outcomes.{no_value};
ghost use Rattle.cad_state.specs.Views.{FindsAndCarriesOut};

use crate::apart::keep_before;
use cad_declarations::{Argument, Term, TypedBefore, TypedCondition};
use cad_execution::{Callees, discard_boxed, emit_event, eval};
use cad_operators::truth_in;
use cad_outcomes::{RunError, Stop};
use cad_rows::Tree;
use cad_state::RunState;
use cad_syntax::TypeId;

/// A message is evaluated.
fn evaluate<C: Callees>(message: &Term, callees: &C, state: &mut RunState) -> Result<(), Stop>
    requires { C.is_ready callees.now }
    ensures { FindsAndCarriesOut no_value (spec.message_of (C.front callees.now) (C.calls callees.now) (Some (term_of message.now))) state.old state.new result }
{
    match eval(message, callees, state) {
        Ok(value) => {
            discard_boxed(value);
            Ok(())
        }
        Err(stop) => Err(stop),
    }
}

/// The message of a condition that fails is evaluated, where there is one.
fn evaluate_message<C: Callees>(
    message: &Option<Term>,
    callees: &C,
    state: &mut RunState,
) -> Result<(), Stop>
    requires { C.is_ready callees.now }
    ensures { FindsAndCarriesOut no_value (spec.message_of (C.front callees.now) (C.calls callees.now) (option_map term_of message.now)) state.old state.new result }
{
    match message {
        Some(message) => evaluate(message, callees, state),
        None => Ok(()),
    }
}

/// The value of a test, after the unit of its condition.
fn test_value<C: Callees>(test: &Term, callees: &C, state: &mut RunState) -> Result<Box<Tree>, Stop>
    requires { C.is_ready callees.now }
    ensures { FindsAndCarriesOut tree_in (parts.value_of (C.front callees.now) (C.calls callees.now) (term_of test.now)) state.old state.new result }
{
    match state.tick() {
        Ok(()) => eval(test, callees, state),
        Err(stop) => Err(stop),
    }
}

/// The message of a test that doesn't hold is evaluated, and then that is 108.
fn fail_test<C: Callees>(
    message: &Option<Term>,
    callees: &C,
    state: &mut RunState,
) -> Result<(), Stop>
    requires { C.is_ready callees.now }
    ensures { FindsAndCarriesOut no_value (parts.failed_test (C.front callees.now) (C.calls callees.now) (option_map term_of message.now)) state.old state.new result }
{
    match evaluate_message(message, callees, state) {
        Ok(()) => Err(Stop::Failed(RunError::Condition)),
        Err(stop) => Err(stop),
    }
}

/// What a test with this value comes to; IllTyped where that is no truth.
#[inline(never)]
fn judge<C: Callees>(
    value: Box<Tree>,
    message: &Option<Term>,
    callees: &C,
    state: &mut RunState,
) -> Result<(), Stop>
    requires { C.is_ready callees.now }
    ensures { FindsAndCarriesOut no_value (parts.judged (C.front callees.now) (C.calls callees.now) (option_map term_of message.now) (tree_in value)) state.old state.new result }
{
    let found = truth_in(&value);
    discard_boxed(value);
    match found {
        Some(holds) => {
            if holds {
                Ok(())
            } else {
                fail_test(message, callees, state)
            }
        }
        None => Err(Stop::IllTyped),
    }
}

/// A test; where it doesn't hold its message is evaluated, and then that is 108.
fn test<C: Callees>(
    tested: &Term,
    message: &Option<Term>,
    callees: &C,
    state: &mut RunState,
) -> Result<(), Stop>
    requires { C.is_ready callees.now }
    ensures { (at : ℕ) → FindsAndCarriesOut no_value (spec.tested (C.front callees.now) (C.calls callees.now) (e.test at (term_of tested.now) (option_map term_of message.now))) state.old state.new result }
{
    match test_value(tested, callees, state) {
        Ok(value) => judge(value, message, callees, state),
        Err(stop) => Err(stop),
    }
}

/// An event that joins the events where its condition stands.
fn emit<C: Callees>(
    event: &TypeId,
    arguments: &[Argument],
    callees: &C,
    state: &mut RunState,
) -> Result<(), Stop>
    requires { C.is_ready callees.now }
    ensures { (at : ℕ) → FindsAndCarriesOut no_value (spec.tested (C.front callees.now) (C.calls callees.now) (e.emitted at event.now (targeted arguments.now))) state.old state.new result }
{
    match state.tick() {
        Ok(()) => emit_event(event, arguments, callees, state),
        Err(stop) => Err(stop),
    }
}

/// A condition. It counts as a statement.
#[inline(never)]
fn condition<C: Callees>(
    condition: &TypedCondition,
    callees: &C,
    state: &mut RunState,
) -> Result<(), Stop>
    requires { C.is_ready callees.now }
    ensures { FindsAndCarriesOut no_value (spec.tested (C.front callees.now) (C.calls callees.now) (condition_of condition.now)) state.old state.new result }
{
    match condition {
        TypedCondition::Test {
            at: _,
            test: tested,
            message,
        } => test(tested, message, callees, state),
        TypedCondition::Emit {
            at: _,
            event,
            arguments,
        } => emit(event, arguments.as_slice(), callees, state),
    }
}

/// Conditions in their order, each after a unit. Errors are those of what they evaluate, and 108 where one doesn't hold.
#[inline(never)]
pub fn test_conditions<C: Callees>(
    all: &[TypedCondition],
    callees: &C,
    state: &mut RunState,
) -> Result<(), Stop>
    requires { C.is_ready callees.now }
    ensures { FindsAndCarriesOut no_value (spec.all_tested (C.front callees.now) (C.calls callees.now) (map condition_of all.now)) state.old state.new result }
{
    for one in all {
        match condition(one, callees, state) {
            Ok(()) => {}
            Err(stop) => return Err(stop),
        }
    }
    Ok(())
}

/// A value of `before` is kept.
#[inline(never)]
fn keep_value<C: Callees>(value: &Term, callees: &C, state: &mut RunState) -> Result<(), Stop>
    requires { C.is_ready callees.now }
    ensures { FindsAndCarriesOut no_value (parts.value_kept (C.front callees.now) (C.calls callees.now) (term_of value.now)) state.old state.new result }
{
    match eval(value, callees, state) {
        Ok(tree) => keep_before(state, tree),
        Err(stop) => Err(stop),
    }
}

/// The values of `before` are kept, in their order. Errors are those of their evaluation.
#[inline(never)]
pub fn keep_values<C: Callees>(
    all: &[TypedBefore],
    callees: &C,
    state: &mut RunState,
) -> Result<(), Stop>
    requires { C.is_ready callees.now }
    ensures { FindsAndCarriesOut no_value (spec.values_before (C.front callees.now) (C.calls callees.now) (map before_of all.now)) state.old state.new result }
{
    for before in all {
        match keep_value(&before.value, callees, state) {
            Ok(()) => {}
            Err(stop) => return Err(stop),
        }
    }
    Ok(())
}
