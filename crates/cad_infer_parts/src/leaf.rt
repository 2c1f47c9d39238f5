// Forms that hold no expression, and where the parts of the others stand.
ghost use Rattle.std.specs.Prelude.{◌≡◌, IfOk, option_map, map};
ghost use Rattle.cad_grammar.specs.Trees as s;
ghost use Rattle.cad_grammar.specs.Views.{expr_of, annotation_of, entry_of};
ghost use Rattle.cad_grammar.specs.Views as grammar;
ghost use Rattle.cad_typing.specs.Befores as befores;
ghost use Rattle.cad_typing.specs.Calls as calls;
ghost use Rattle.cad_typing.specs.Containers as containers;
ghost use Rattle.cad_typing.specs.Environments.{◌>=>◌};
ghost use Rattle.cad_typing.specs.Names as names;
ghost use Rattle.cad_typing.specs.Receivers as receivers;
ghost use Rattle.cad_environment.specs.Views.{environment_of, position_of, typing_of, base_of, receiver_of, hidden_of};
ghost use Rattle.cad_infer_calls.specs.Views.{call_view};
ghost use Rattle.cad_parameters.specs.Views.{count_view, parameter_view};
ghost use Rattle.cad_infer_containers.specs.Views.{next_of};
ghost use Rattle.cad_infer_parts.specs.Code.Rows as rows;
ghost use Rattle.cad_infer_parts.specs.Code.Steps as steps;
ghost use Rattle.cad_infer_parts.specs.Views.{expected_of};

use cad_declarations::discard_type;
use cad_environment::{
    Base, Environment, Head, Hidden, Position, Receiver, Typing, at_entry, base_of_head, behind,
    beside, head_named, is_before, is_postcondition, self_value, value_of_head,
};
use cad_grammar::{Argument, Entry, Expr, TypeAnnotation};
use cad_infer_calls::{Call, Callee, before_call, call_head};
use cad_infer_containers::{Next, next_parameter};
use cad_infer_literals::{
    bool_literal, fixed_literal, nil_literal, path_literal, text_literal, whole_literal,
};
use cad_parameters::{Count, Parameter};
use cad_syntax::{CadType, Name};
use std::alloc::{AllocError, Global};

/// A form that holds no expression: None of any other form, and in it None where it has no type.
#[tactic(auto, unfolding(crate::specs::Code::Steps::alone_form))]
pub fn alone(
    alloc: Global,
    env: Environment<'_>,
    position: Position,
    expected: Option<&CadType>,
    e: &Expr,
) -> Result<Option<Option<Typing>>, AllocError>
    ensures { IfOk result (λ o. option_map (option_map typing_of) o ≡ steps.alone_form (environment_of env.entry) (position_of position) (expected_of expected.entry) (expr_of e.now)) }
{
    match e {
        Expr::Whole { value, hexadecimal } => {
            Ok(Some(whole_literal(expected, *value, *hexadecimal)))
        }
        Expr::Fixed(value) => Ok(Some(fixed_literal(expected, *value))),
        Expr::Text(text) => Ok(Some(text_literal(expected, text)?)),
        Expr::Bool(value) => Ok(Some(bool_literal(*value))),
        Expr::Nil => Ok(Some(nil_literal(alloc)?)),
        Expr::Self_ => Ok(Some(self_value(alloc, env)?)),
        Expr::Name(name) => Ok(Some(named_value(alloc, env, position, name)?)),
        Expr::Path(path) => Ok(Some(path_literal(path)?)),
        _ => Ok(None),
    }
}

/// The value of what a name stands for. None where it has none.
fn named_value(
    alloc: Global,
    env: Environment<'_>,
    position: Position,
    name: &Name,
) -> Result<Option<Typing>, AllocError>
    ensures { IfOk result (λ o. option_map typing_of o ≡ (names.head (environment_of env.entry) name.now >=> names.value_of_head (environment_of env.entry) (position_of position))) }
{
    let Some(found) = head_named(env, name)? else {
        return Ok(None);
    };
    let value = value_of_head(alloc, env, position, &found);
    discard_head(found);
    value
}

/// Lets go what a name stands for.
fn discard_head(head: Head<'_>) {
    match head {
        Head::Type(declared) => discard_type(declared),
        Head::Local(_) | Head::Function(_) | Head::Contract(_) | Head::Builtin(_) => {}
    }
}

/// Where what a name stands for is. None where it is nowhere.
#[tactic(auto, unfolding(crate::specs::Code::Steps::place))]
pub fn named_base(
    alloc: Global,
    env: Environment<'_>,
    name: &Name,
) -> Result<Option<Base>, AllocError>
    ensures { IfOk result (λ o. option_map base_of o ≡ steps.place (environment_of env.entry) (s.name name.now)) }
{
    let Some(found) = head_named(env, name)? else {
        return Ok(None);
    };
    base_of_head(alloc, env, found)
}

/// What a name stands for, as what is called.
fn named_head_call(
    alloc: Global,
    env: Environment<'_>,
    types: &[TypeAnnotation],
    name: &Name,
) -> Result<Option<Call>, AllocError>
    ensures { IfOk result (λ o. option_map call_view o ≡ (names.head (environment_of env.entry) name.now >=> calls.call_head (environment_of env.entry) (s.annotations_of (map annotation_of types.now)))) }
{
    let Some(found) = head_named(env, name)? else {
        return Ok(None);
    };
    call_head(alloc, env, types, found)
}

/// A name that is called: `before` in postconditions alone, else what the name stands for.
#[tactic(auto, unfolding(crate::specs::Code::Steps::named_call))]
pub fn named_call(
    alloc: Global,
    env: Environment<'_>,
    types: &[TypeAnnotation],
    f: &Expr,
    name: &Name,
) -> Result<Option<Call>, AllocError>
    ensures { IfOk result (λ o. option_map call_view o ≡ steps.named_call (environment_of env.entry) (s.annotations_of (map annotation_of types.now)) (expr_of f.now) name.now) }
{
    if is_postcondition(env.part) && is_before(f) {
        before_call(alloc, env, types)
    } else {
        named_head_call(alloc, env, types, name)
    }
}

/// Where the arguments of a call stand: behind what is called, and under `before` at entry.
#[tactic(auto, unfolding(crate::specs::Code::Steps::arguments_environment))]
pub fn arguments_environment<'a>(
    alloc: Global,
    env: Environment<'a>,
    f: &Expr,
    call: &Call,
) -> Result<Environment<'a>, AllocError>
    ensures { IfOk result (λ r. environment_of r ≡ steps.arguments_environment (environment_of env.entry) (expr_of f.now) (call_view call.now)) }
{
    match &call.callee {
        Callee::Before(_) => at_entry(env),
        _ => beside_behind(alloc, env, f, &call.hidden),
    }
}

/// Where an index stands: behind what it is an index of, beside its hidden variable.
#[tactic(auto, unfolding(crate::specs::Code::Steps::index_environment))]
pub fn index_environment<'a>(
    alloc: Global,
    env: Environment<'a>,
    a: &Expr,
    r: &Receiver,
) -> Result<Environment<'a>, AllocError>
    ensures { IfOk result (λ e. environment_of e ≡ receivers.beside (receiver_of r.now).hidden (befores.behind (expr_of a.now) (environment_of env.entry))) }
{
    beside_behind(alloc, env, a, &r.hidden)
}

/// Behind an expression, beside a hidden variable, if there is one.
fn beside_behind<'a>(
    alloc: Global,
    env: Environment<'a>,
    a: &Expr,
    hidden: &Option<Hidden>,
) -> Result<Environment<'a>, AllocError>
    ensures { IfOk result (λ e. environment_of e ≡ receivers.beside (option_map hidden_of hidden.now) (befores.behind (expr_of a.now) (environment_of env.entry))) }
{
    let inner = behind(alloc, a, env)?;
    beside(hidden, inner)
}

/// Behind both parts of an entry.
pub fn behind_entry<'a>(
    alloc: Global,
    entry: &Entry,
    env: Environment<'a>,
) -> Result<Environment<'a>, AllocError>
    ensures { IfOk result (λ e. environment_of e ≡ rows.behind_entry (entry_of entry.now) (environment_of env.entry)) }
{
    let inner = behind(alloc, &entry.key, env)?;
    behind(alloc, &entry.value, inner)
}

/// Behind an argument.
pub fn behind_argument<'a>(
    alloc: Global,
    argument: &Argument,
    env: Environment<'a>,
) -> Result<Environment<'a>, AllocError>
    ensures { IfOk result (λ e. environment_of e ≡ befores.behind (grammar.argument_of argument.now).value (environment_of env.entry)) }
{
    behind(alloc, &argument.value, env)
}

/// The parameter for an argument, and those behind it. None where none is left, or the label is another.
pub fn parameter_for<'a>(
    count: Count,
    left: &'a [Parameter],
    argument: &Argument,
) -> Option<Next<'a>>
    ensures { option_map next_of result ≡ containers.next_parameter (count_view count) (map parameter_view left.now) (grammar.argument_of argument.now).label }
{
    next_parameter(count, left, argument.label.as_ref())
}
