// Conditions, and the values of what stands under `before` in them.
ghost use Rattle.std.specs.Prelude.{◌≡◌, ◌∷◌, [], ◌+◌, ◌++◌, IfOk, OnOk, Some, option_map, map};
ghost use Rattle.std.specs.List.{filter_map};
ghost use Rattle.cad_grammar.specs.Trees as s;
ghost use Rattle.cad_grammar.specs.Views.{expr_of, condition_of};
ghost use Rattle.cad_declarations.specs.Views.{term_of, before_of};
ghost use Rattle.cad_declarations.specs.Views as typed;
ghost use Rattle.cad_environment.specs.Views.{environment_of, typing_of};
ghost use Rattle.cad_typing.specs.Befores as befores_spec;
ghost use Rattle.cad_typing.specs.Conditions as spec;
ghost use Rattle.cad_statement_parts.specs.Views.{judged};
ghost use Rattle.cad_statements.specs.Rows.{row_before, row_behind};
ghost use Rattle.cad_statements.specs.Views.{conditions_in};

use cad_declarations::{Term, TypedBefore, TypedCondition, discard_type};
use cad_environment::{Environment, Position, Typing, at_entry, behind, discard_typing};
use cad_grammar::{Condition, Expr};
use cad_statement_forms::{infer, infer_event, infer_test};
use cad_statement_parts::{after, befores_of_condition, behind_condition};
use cad_syntax::{Basic, CadType};
use cad_type_classes::fits;
use cad_typed_rows::{discard_befores, discard_conditions, push_before, push_condition};
use std::alloc::{AllocError, Global};

/// An expression without its type.
fn term_in(x: Typing) -> Term
    ensures { term_of result ≡ (typing_of x).term }
{
    discard_type(x.declared);
    x.term
}

/// A message, which is a String.
fn text_message(
    alloc: Global,
    env: Environment<'_>,
    value: &Expr,
) -> Result<Option<Term>, AllocError>
    ensures { IfOk result (λ x. option_map Some (option_map term_of x) ≡ spec.message (environment_of env.entry) (Some (expr_of value.now))) }
{
    let string = CadType::Basic(Basic::String);
    let Some(x) = infer(value, alloc, env, Position::Ordinary, Some(&string))? else {
        return Ok(None);
    };
    if fits(env.kinds(), &x.declared, &string) {
        Ok(Some(term_in(x)))
    } else {
        discard_typing(x);
        Ok(None)
    }
}

/// A message, where there is one.
fn message(
    alloc: Global,
    env: Environment<'_>,
    value: &Option<Expr>,
) -> Result<Option<Option<Term>>, AllocError>
    ensures { IfOk result (λ x. option_map (option_map term_of) x ≡ spec.message (environment_of env.entry) (option_map expr_of value.now)) }
{
    let Some(written) = value else {
        return Ok(Some(None));
    };
    let Some(text) = text_message(alloc, env, written)? else {
        return Ok(None);
    };
    Ok(Some(Some(text)))
}

/// A message behind a test, where there is one.
fn message_behind(
    alloc: Global,
    env: Environment<'_>,
    test: &Expr,
    value: &Option<Expr>,
) -> Result<Option<Option<Term>>, AllocError>
    ensures { IfOk result (λ x. option_map (option_map term_of) x ≡ spec.message (befores_spec.behind (expr_of test.now) (environment_of env.entry)) (option_map expr_of value.now)) }
{
    let inner = behind(alloc, test, env)?;
    message(alloc, inner, value)
}

/// A test with its message.
fn tested(
    alloc: Global,
    env: Environment<'_>,
    at: u64,
    test: &Expr,
    text: &Option<Expr>,
) -> Result<Option<TypedCondition>, AllocError>
    ensures { IfOk result (λ x. option_map typed.condition_of x ≡ spec.condition (environment_of env.entry) at (s.test (expr_of test.now) (option_map expr_of text.now))) }
{
    let Some(x) = infer_test(alloc, env, test)? else {
        return Ok(None);
    };
    match message_behind(alloc, env, test, text) {
        Ok(Some(message)) => Ok(Some(TypedCondition::Test {
            at,
            test: term_in(x),
            message,
        })),
        Ok(None) => {
            discard_typing(x);
            Ok(None)
        }
        Err(error) => {
            discard_typing(x);
            Err(error)
        }
    }
}

/// An event.
fn emitted(
    alloc: Global,
    env: Environment<'_>,
    at: u64,
    event: &Expr,
) -> Result<Option<TypedCondition>, AllocError>
    ensures { IfOk result (λ x. option_map typed.condition_of x ≡ spec.condition (environment_of env.entry) at (s.emitted (expr_of event.now))) }
{
    let Some(x) = infer_event(event, alloc, env)? else {
        return Ok(None);
    };
    Ok(Some(TypedCondition::Emit {
        at,
        event: x.event,
        arguments: x.arguments,
    }))
}

/// A condition with its number: a Bool with its message, or an event.
pub fn condition(
    alloc: Global,
    env: Environment<'_>,
    at: u64,
    written: &Condition,
) -> Result<Option<TypedCondition>, AllocError>
    ensures { IfOk result (λ x. option_map typed.condition_of x ≡ spec.condition (environment_of env.entry) at (condition_of written.now)) }
{
    match written {
        Condition::Test { test, message } => tested(alloc, env, at, test, message),
        Condition::Emit(event) => emitted(alloc, env, at, event),
    }
}

/// Adds conditions, the first of which has this number; else tells the number of the first that is ill-typed.
fn push_conditions(
    found: &mut Vec<TypedCondition>,
    alloc: Global,
    env: Environment<'_>,
    at: u64,
    all: &[Condition],
) -> Result<Result<(), u64>, AllocError>
    ensures { IfOk result (λ o. row_behind (map typed.condition_of found.new.items) o ≡ row_before (map typed.condition_of found.old.items) (spec.type_conditions (environment_of env.entry) at (map condition_of all.now))) }
{
    let mut here = env;
    let mut number = at;
    for written in all {
        let Some(x) = condition(alloc, here, number, written)? else {
            return Ok(Err(number));
        };
        push_condition(found, x)?;
        here = behind_condition(alloc, written, here)?;
        number = after(number)?;
    }
    Ok(Ok(()))
}

/// Conditions, the first of which has this number; else the number of the first that is ill-typed.
pub fn type_conditions(
    alloc: Global,
    env: Environment<'_>,
    at: u64,
    all: &[Condition],
) -> Result<Result<Vec<TypedCondition>, u64>, AllocError>
    ensures { IfOk result (λ o. judged conditions_in o ≡ spec.type_conditions (environment_of env.entry) at (map condition_of all.now)) }
{
    let mut conditions = Vec::new(alloc);
    match push_conditions(&mut conditions, alloc, env, at, all) {
        Ok(found) => Ok(kept(conditions, found)),
        Err(error) => {
            discard_conditions(conditions);
            Err(error)
        }
    }
}

/// Conditions, where all are typed.
fn kept(conditions: Vec<TypedCondition>, found: Result<(), u64>) -> Result<Vec<TypedCondition>, u64>
    ensures { judged conditions_in result ≡ row_behind (conditions_in conditions) found }
{
    match found {
        Ok(()) => Ok(conditions),
        Err(stop) => {
            discard_conditions(conditions);
            Err(stop)
        }
    }
}

/// A value at entry, with the number of its condition.
fn value_at_entry(
    alloc: Global,
    env: Environment<'_>,
    at: u64,
    value: &Expr,
) -> Result<Option<TypedBefore>, AllocError>
    ensures { IfOk result (λ x. option_map before_of x ≡ spec.value_at_entry (environment_of env.entry) at (expr_of value.now)) }
{
    let entry = at_entry(env)?;
    let Some(x) = infer(value, alloc, entry, Position::Ordinary, None)? else {
        return Ok(None);
    };
    Ok(Some(TypedBefore {
        at,
        value: term_in(x),
    }))
}

/// Adds what this is at entry; where it is ill-typed it is left out.
fn push_value(
    values: &mut Vec<TypedBefore>,
    alloc: Global,
    env: Environment<'_>,
    at: u64,
    value: &Expr,
) -> Result<(), AllocError>
    ensures { OnOk result (map before_of values.new.items ≡ map before_of values.old.items ++ filter_map (spec.value_at_entry (environment_of env.entry) at) (expr_of value.now ∷ [])) }
{
    match value_at_entry(alloc, env, at, value)? {
        None => Ok(()),
        Some(x) => push_before(values, x),
    }
}

/// Adds what these are at entry; ill-typed ones are left out.
fn push_values(
    values: &mut Vec<TypedBefore>,
    alloc: Global,
    env: Environment<'_>,
    at: u64,
    all: &[&Expr],
) -> Result<(), AllocError>
    ensures { OnOk result (map before_of values.new.items ≡ map before_of values.old.items ++ filter_map (spec.value_at_entry (environment_of env.entry) at) (map (λ e. expr_of e.now) all.now)) }
{
    for value in all {
        push_value(values, alloc, env, at, value)?;
    }
    Ok(())
}

/// Adds what stands under `before` in conditions, the first of which has this number, in order; ill-typed ones are left out.
fn push_entries(
    values: &mut Vec<TypedBefore>,
    alloc: Global,
    env: Environment<'_>,
    at: u64,
    all: &[Condition],
) -> Result<(), AllocError>
    ensures { OnOk result (map before_of values.new.items ≡ map before_of values.old.items ++ spec.values_at_entry (environment_of env.entry) at (map condition_of all.now)) }
{
    let mut number = at;
    for written in all {
        let inner = befores_of_condition(alloc, written)?;
        push_values(values, alloc, env, number, &inner)?;
        number = after(number)?;
    }
    Ok(())
}

/// What stands under `before` in conditions, the first of which has this number, in order; ill-typed ones are left out.
pub fn values_at_entry(
    alloc: Global,
    env: Environment<'_>,
    at: u64,
    all: &[Condition],
) -> Result<Vec<TypedBefore>, AllocError>
    ensures { IfOk result (λ values. map before_of values.items ≡ spec.values_at_entry (environment_of env.entry) at (map condition_of all.now)) }
{
    let mut values = Vec::new(alloc);
    match push_entries(&mut values, alloc, env, at, all) {
        Ok(()) => Ok(values),
        Err(error) => {
            discard_befores(values);
            Err(error)
        }
    }
}
