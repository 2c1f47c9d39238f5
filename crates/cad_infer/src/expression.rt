// The type of an expression, and its elaborated tree: one recursion over the trees of the grammar, of which all forms and calls
// stand here.
ghost use Rattle.std.specs.Prelude.{◌≡◌, IfOk, option_map, map};
ghost use Rattle.cad_grammar.specs.Trees as s;
ghost use Rattle.cad_grammar.specs.Views.{expr_of, annotation_of};
ghost use Rattle.cad_grammar.specs.Views as grammar;
ghost use Rattle.cad_declarations.specs.Typed as tree;
ghost use Rattle.cad_declarations.specs.Views.{argument_of};
ghost use Rattle.cad_typing.specs.Environments.{ordinary};
ghost use Rattle.cad_environment.specs.Views.{environment_of, position_of, typing_of};
ghost use Rattle.cad_infer_calls.specs.Views.{call_view};
ghost use Rattle.cad_parameters.specs.Views.{count_view, parameter_view};
ghost use Rattle.cad_infer.specs.Code.Forms as forms;
ghost use Rattle.cad_infer_parts.specs.Code.Steps as steps;
ghost use Rattle.cad_infer_parts.specs.Views.{expected_of};

use crate::flat::flat_call;
use crate::operators::{binary, cast, conditional, unary};
use crate::places::{based, based_in_chain, index, reference};
use crate::rows::{infer_arguments, infer_elements, infer_entries};
use cad_declarations::Argument as Transferred;
use cad_environment::{Environment, Position, Typing};
use cad_grammar::{Argument, Expr, TypeAnnotation};
use cad_infer_calls::{Call, create_call, discard_call};
use cad_infer_containers::{expected_element, expected_key, expected_value};
use cad_infer_parts::{
    alone, arguments_environment, array_then, call_then, chain_call_then, chain_then,
    dictionary_then, flat, force_then, member_call_then, member_then, named_call, received,
};
use cad_syntax::{CadType, Name};
use std::alloc::{AllocError, Global};

/// The elaborated tree of an expression and its type.
#[cycle(infer)]
#[tactic(auto, using(crate::proofs::Arms::forms))]
pub(crate) fn typing(
    e: &Expr,
    alloc: Global,
    env: Environment<'_>,
    position: Position,
    expected: Option<&CadType>,
) -> Result<Option<Typing>, AllocError>
    ensures { IfOk result (λ o. option_map typing_of o ≡ steps.typing (environment_of env.entry) (position_of position) (expected_of expected.entry) (expr_of e.now)) }
{
    match e {
        Expr::Whole { .. }
        | Expr::Fixed(_)
        | Expr::Text(_)
        | Expr::Bool(_)
        | Expr::Nil
        | Expr::Self_
        | Expr::Name(_)
        | Expr::Path(_) => Ok(flat(alone(alloc, env, position, expected, e)?)),
        Expr::Create {
            composite,
            arguments,
        } => Ok(create(arguments, alloc, env, composite.as_slice())?),
        Expr::Array(all) => {
            let found = infer_elements(all, alloc, env, expected_element(expected))?;
            Ok(array_then(alloc, env, expected, found)?)
        }
        Expr::Dictionary(all) => {
            let key = expected_key(expected);
            let found = infer_entries(all, alloc, env, key, expected_value(expected))?;
            Ok(dictionary_then(alloc, env, expected, found)?)
        }
        Expr::Member(a, name) => {
            let base = based(a, alloc, env)?;
            Ok(member_then(alloc, env, position, name, base)?)
        }
        Expr::OptionalMember(a, name) => {
            let base = based_in_chain(a, alloc, env)?;
            Ok(chain_then(alloc, env, name, base)?)
        }
        Expr::Index(a, b) => {
            let r = received(based(a, alloc, env)?)?;
            Ok(index(b, alloc, env, a, r)?)
        }
        Expr::Call {
            function,
            type_arguments,
            arguments,
        } => {
            let made = infer_callee(function, alloc, env, type_arguments)?;
            Ok(call(arguments, alloc, env, function, made)?)
        }
        Expr::Force(a) => {
            let x = typing(a, alloc, env, Position::Ordinary, None)?;
            Ok(force_then(alloc, env, a, x)?)
        }
        Expr::Unary(operator, a) => Ok(unary(a, alloc, env, *operator, expected)?),
        Expr::Reference(a, written) => Ok(reference(a, alloc, env, written)?),
        Expr::Cast(kind, a, annotation) => { Ok(cast(a, alloc, env, position, *kind, annotation)?) }
        Expr::Binary(_, _, _) => Ok(flat(binary(e, alloc, env, position, expected)?)),
        Expr::Conditional(_, _, _) => Ok(flat(conditional(e, alloc, env, expected)?)),
    }
}

/// `create R(a: 1)`
#[cycle(infer)]
#[tactic(auto, using(crate::proofs::Arms::create_made, crate::proofs::Arms::create_not_made))]
fn create(
    all: &[Argument],
    alloc: Global,
    env: Environment<'_>,
    names: &[Name],
) -> Result<Option<Typing>, AllocError>
    ensures { IfOk result (λ o. option_map typing_of o ≡ steps.typing (environment_of env.entry) ordinary None (s.create names.now (s.arguments_of (map grammar.argument_of all.now)))) }
{
    let Some(made) = create_call(alloc, env, names)? else {
        return Ok(None);
    };
    Ok(create_with(all, alloc, env, made)?)
}

/// A call of the initializer of what is created, with its arguments.
#[cycle(infer)]
#[tactic(auto, unfolding(cad_infer_parts::specs::Code::Steps::create_then))]
fn create_with(
    all: &[Argument],
    alloc: Global,
    env: Environment<'_>,
    made: Call,
) -> Result<Option<Typing>, AllocError>
    ensures { IfOk result (λ o. option_map typing_of o ≡ steps.create_then (environment_of env.entry) (call_view made) (s.arguments_of (map grammar.argument_of all.now))) }
{
    match infer_made(all, alloc, env, &made) {
        Ok(found) => call_then(alloc, made, found),
        Err(error) => {
            discard_call(made);
            Err(error)
        }
    }
}

/// The arguments of a call, each with the type to which it is transferred.
#[cycle(infer)]
fn infer_made(
    all: &[Argument],
    alloc: Global,
    env: Environment<'_>,
    made: &Call,
) -> Result<Option<Vec<Transferred>>, AllocError>
    ensures { IfOk result (λ o. option_map (λ v. tree.arguments_of (map argument_of v.items)) o ≡ steps.arguments (environment_of env.entry) (count_view made.now.count) (map parameter_view made.now.parameters.items) (s.arguments_of (map grammar.argument_of all.now))) }
{
    infer_arguments(all, alloc, env, made.count, made.parameters.as_slice())
}

/// A call of this, with its arguments.
#[cycle(infer)]
#[tactic(auto, unfolding(cad_infer_parts::specs::Code::Steps::called_then))]
fn call(
    all: &[Argument],
    alloc: Global,
    env: Environment<'_>,
    f: &Expr,
    made: Option<Call>,
) -> Result<Option<Typing>, AllocError>
    ensures { IfOk result (λ o. option_map typing_of o ≡ steps.called_then (environment_of env.entry) (expr_of f.now) (s.arguments_of (map grammar.argument_of all.now)) (option_map call_view made)) }
{
    let Some(made) = made else {
        return Ok(None);
    };
    match infer_called(all, alloc, env, f, &made) {
        Ok(found) => call_then(alloc, made, found),
        Err(error) => {
            discard_call(made);
            Err(error)
        }
    }
}

/// The arguments of a call of this, each with the type to which it is transferred.
#[cycle(infer)]
fn infer_called(
    all: &[Argument],
    alloc: Global,
    env: Environment<'_>,
    f: &Expr,
    made: &Call,
) -> Result<Option<Vec<Transferred>>, AllocError>
    ensures { IfOk result (λ o. option_map (λ v. tree.arguments_of (map argument_of v.items)) o ≡ steps.arguments (steps.arguments_environment (environment_of env.entry) (expr_of f.now) (call_view made.now)) (count_view made.now.count) (map parameter_view made.now.parameters.items) (s.arguments_of (map grammar.argument_of all.now))) }
{
    let inner = arguments_environment(alloc, env, f, made)?;
    infer_arguments(all, alloc, inner, made.count, made.parameters.as_slice())
}

/// What is called.
#[cycle(infer)]
#[tactic(auto, using(crate::proofs::Arms::callee_flat))]
fn infer_callee(
    f: &Expr,
    alloc: Global,
    env: Environment<'_>,
    types: &[TypeAnnotation],
) -> Result<Option<Call>, AllocError>
    ensures { IfOk result (λ o. option_map call_view o ≡ steps.callee (environment_of env.entry) (s.annotations_of (map annotation_of types.now)) (expr_of f.now)) }
{
    let found = callee_form(f, alloc, env, types)?;
    Ok(flat_call(found))
}

/// What is called: None of a form that can't be.
#[cycle(infer)]
#[tactic(auto, unfolding(crate::specs::Code::Forms::callee_form), using(crate::proofs::Arms::callees))]
fn callee_form(
    f: &Expr,
    alloc: Global,
    env: Environment<'_>,
    types: &[TypeAnnotation],
) -> Result<Option<Option<Call>>, AllocError>
    ensures { IfOk result (λ o. option_map (option_map call_view) o ≡ forms.callee_form (environment_of env.entry) (s.annotations_of (map annotation_of types.now)) (expr_of f.now)) }
{
    match f {
        Expr::Name(name) => Ok(Some(named_call(alloc, env, types, f, name)?)),
        Expr::Member(a, name) => {
            let base = based(a, alloc, env)?;
            Ok(Some(member_call_then(alloc, env, types, name, base)?))
        }
        Expr::OptionalMember(a, name) => {
            let base = based_in_chain(a, alloc, env)?;
            Ok(Some(chain_call_then(alloc, env, types, name, base)?))
        }
        _ => Ok(None),
    }
}
