// What is done with a receiver, in the recursion over expressions.
ghost use Rattle.std.specs.Prelude.{Bool, map};
ghost use Rattle.cad_declarations.specs.Typed as e;
ghost use Rattle.cad_declarations.specs.Typed.{arguments_of};
ghost use Rattle.cad_declarations.specs.Views.{argument_of, use_of};
ghost use Rattle.cad_evaluation.specs.Reading.{read_field};
ghost use Rattle.cad_expression_leaves.specs.Code.Steps as steps;
ghost use Rattle.cad_expression_leaves.specs.Code.Steps.{GoesOn};
ghost use Rattle.cad_expression_leaves.specs.Views.{items_row, tree_in};
ghost use Rattle.cad_labels.specs.Laws.{AnyOne};
ghost use Rattle.cad_outcomes.specs.Outcomes.{no_value};
ghost use Rattle.cad_expression_leaves.specs.Passed.{at_spot, receiver_of};
ghost use Rattle.cad_state.specs.Views.{FindsAndCarriesOut};
ghost use Rattle.cad_syntax.specs.Types.{pure_type};

use crate::rows::evaluate_arguments;
use crate::uses::{call_member, call_method};
use cad_declarations::{Argument, Use};
use cad_expression_leaves::{
    Evaluator, Receiver, boxed, check_callable, check_use, get, read_member,
};
use cad_outcomes::Stop;
use cad_rows::{Place, Tree};
use cad_state::RunState;
use cad_syntax::{Authorization, CadType, Name};
use cad_types::Builtin;

/// What is done with a receiver: it is looked at before the arguments, and again after them.
pub(crate) fn evaluate_use<E: Evaluator>(
    member: &Use,
    evaluator: &E,
    state: &mut RunState,
    receiver: &Receiver,
) -> Result<Box<Tree>, Stop>
    requires { E.is_ready evaluator.now }
    ensures { FindsAndCarriesOut tree_in (steps.used (E.front evaluator.now) (E.calls evaluator.now) (use_of member.now) (receiver_of receiver.now)) state.old state.new result }
{
    match member {
        Use::Field {
            name,
            authorization,
        } => get_boxed(state, receiver, name, authorization),
        Use::Method {
            name,
            is_view: _,
            is_never: _,
            arguments,
        } => method_use(name, arguments.as_slice(), evaluator, state, receiver),
        Use::BuiltinField(own) => read_member(state, *own, receiver),
        Use::BuiltinCall {
            member: own,
            types,
            arguments,
        } => builtin_use(
            *own,
            types.as_slice(),
            arguments.as_slice(),
            evaluator,
            state,
            receiver,
        ),
    }
}

/// A field of a receiver is read.
#[inline(never)]
fn get_boxed(
    state: &mut RunState,
    receiver: &Receiver,
    name: &Name,
    authorization: &Authorization,
) -> Result<Box<Tree>, Stop>
    ensures { FindsAndCarriesOut tree_in (at_spot (receiver_of receiver.now) (read_field name.now authorization.now)) state.old state.new result }
{
    boxed(get(state, receiver, name, authorization))
}

/// A function of a receiver is called.
#[inline(never)]
fn method_use<E: Evaluator>(
    name: &Name,
    arguments: &[Argument],
    evaluator: &E,
    state: &mut RunState,
    receiver: &Receiver,
) -> Result<Box<Tree>, Stop>
    requires { E.is_ready evaluator.now }
    ensures { (view never : Bool) → FindsAndCarriesOut tree_in (steps.used (E.front evaluator.now) (E.calls evaluator.now) (e.method name.now view never (arguments_of (map argument_of arguments.now))) (receiver_of receiver.now)) state.old state.new result }
{
    let ready = check_callable(state, receiver, name);
    let row = arguments_behind(arguments, evaluator, state, ready);
    call_method(evaluator, state, name, receiver, row)
}

/// A built-in member of a receiver is called.
#[inline(never)]
fn builtin_use<E: Evaluator>(
    builtin: Builtin,
    types: &[CadType],
    arguments: &[Argument],
    evaluator: &E,
    state: &mut RunState,
    receiver: &Receiver,
) -> Result<Box<Tree>, Stop>
    requires { E.is_ready evaluator.now }
    ensures { FindsAndCarriesOut tree_in (steps.used (E.front evaluator.now) (E.calls evaluator.now) (e.builtin_call builtin (map pure_type types.now) (arguments_of (map argument_of arguments.now))) (receiver_of receiver.now)) state.old state.new result }
{
    let ready = check_use(state, receiver, builtin);
    let row = arguments_behind(arguments, evaluator, state, ready);
    call_member(evaluator, state, builtin, types, receiver, row)
}

/// Arguments behind what was done.
fn arguments_behind<E: Evaluator>(
    all: &[Argument],
    evaluator: &E,
    state: &mut RunState,
    before: Result<(), Stop>,
) -> Result<Vec<Place>, Stop>
    requires { E.is_ready evaluator.now }
    ensures { GoesOn AnyOne no_value items_row (λ _. steps.arguments (E.front evaluator.now) (E.calls evaluator.now) (arguments_of (map argument_of all.now))) before state.old state.new result }
{
    match before {
        Ok(()) => evaluate_arguments(all, evaluator, state),
        Err(stop) => Err(stop),
    }
}
