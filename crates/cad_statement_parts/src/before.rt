// What stands under `before` in conditions.
ghost use Rattle.std.specs.Prelude.{◌≡◌, ◌+◌, IfOk, option_map, map, length};
ghost use Rattle.cad_grammar.specs.Trees as s;
ghost use Rattle.cad_grammar.specs.Views.{expr_of, condition_of};
ghost use Rattle.cad_environment.specs.Views.{environment_of};
ghost use Rattle.cad_typing.specs.Conditions as spec;

use cad_environment::{Environment, befores, behind};
use cad_grammar::{Condition, Expr};
use std::alloc::{AllocError, Global};

/// What stands under `before` in a message, in order.
fn befores_of_message<'a>(
    alloc: Global,
    text: &'a Option<Expr>,
) -> Result<Vec<&'a Expr>, AllocError>
    ensures { IfOk result (λ all. map (λ e. expr_of e.now) all.items ≡ spec.befores_of_message (option_map expr_of text.now)) }
{
    match text {
        None => Ok(Vec::new(alloc)),
        Some(value) => befores(alloc, value),
    }
}

/// What stands under `before` in a test and its message, in order.
fn befores_of_test<'a>(
    alloc: Global,
    test: &'a Expr,
    text: &'a Option<Expr>,
) -> Result<Vec<&'a Expr>, AllocError>
    ensures { IfOk result (λ all. map (λ e. expr_of e.now) all.items ≡ spec.befores_of_condition (s.test (expr_of test.now) (option_map expr_of text.now))) }
{
    let mut all = befores(alloc, test)?;
    let mut more = befores_of_message(alloc, text)?;
    all.append(&mut more)?;
    Ok(all)
}

/// What stands under `before` in a condition, in order.
pub fn befores_of_condition<'a>(
    alloc: Global,
    written: &'a Condition,
) -> Result<Vec<&'a Expr>, AllocError>
    ensures { IfOk result (λ all. map (λ e. expr_of e.now) all.items ≡ spec.befores_of_condition (condition_of written.now)) }
{
    match written {
        Condition::Test { test, message } => befores_of_test(alloc, test, message),
        Condition::Emit(event) => befores(alloc, event),
    }
}

/// Behind a message.
fn behind_message<'a>(
    alloc: Global,
    text: &Option<Expr>,
    env: Environment<'a>,
) -> Result<Environment<'a>, AllocError>
    ensures { IfOk result (λ x. environment_of x ≡ record (environment_of env.entry) { befores = (environment_of env.entry).befores + length (spec.befores_of_message (option_map expr_of text.now)) }) }
{
    match text {
        None => Ok(env),
        Some(value) => behind(alloc, value, env),
    }
}

/// Behind a test and its message.
fn behind_test<'a>(
    alloc: Global,
    test: &Expr,
    text: &Option<Expr>,
    env: Environment<'a>,
) -> Result<Environment<'a>, AllocError>
    ensures { IfOk result (λ x. environment_of x ≡ spec.behind_condition (s.test (expr_of test.now) (option_map expr_of text.now)) (environment_of env.entry)) }
{
    let middle = behind(alloc, test, env)?;
    behind_message(alloc, text, middle)
}

/// Where a condition stands behind another of the same function.
pub fn behind_condition<'a>(
    alloc: Global,
    written: &Condition,
    env: Environment<'a>,
) -> Result<Environment<'a>, AllocError>
    ensures { IfOk result (λ x. environment_of x ≡ spec.behind_condition (condition_of written.now) (environment_of env.entry)) }
{
    match written {
        Condition::Test { test, message } => behind_test(alloc, test, message, env),
        Condition::Emit(event) => behind(alloc, event, env),
    }
}
