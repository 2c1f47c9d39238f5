// What stands under `before`, and where it is evaluated.
ghost use Rattle.std.specs.Prelude.{◌≡◌, ◌++◌, ◌+◌, IfOk, OnOk, map, length, option_map};
ghost use Rattle.std.specs.List.{flat_map};
ghost use Rattle.cad_grammar.specs.Trees.{exprs_of, arguments_of, entries_of};
ghost use Rattle.cad_grammar.specs.Views.{expr_of, argument_of, entry_of};
ghost use Rattle.cad_typing.specs.Befores as spec;
ghost use Rattle.cad_environment.specs.Views.{local_of, scopes_of, environment_of};

use crate::environment::{Environment, Part, more};
use crate::local::{Local, Scopes};
use cad_grammar::{Argument, Entry, Expr};
use cad_scopes::is_spelled;
use std::alloc::{AllocError, Global};

/// Whether an expression is the name `before`.
pub fn is_before(e: &Expr) -> bool
    ensures { result ≡ spec.is_before (expr_of e.now) }
{
    match e {
        Expr::Name(name) => is_spelled(name, "before"),
        _ => false,
    }
}

/// Adds the arguments of a call.
fn push_expressions<'e>(
    all: &mut Vec<&'e Expr>,
    arguments: &'e [Argument],
) -> Result<(), AllocError>
    ensures { OnOk result (map (λ e. expr_of e.now) all.new.items ≡ map (λ e. expr_of e.now) all.old.items ++ spec.expressions (arguments_of (map argument_of arguments.now))) }
{
    for argument in arguments {
        all.push(&argument.value)?;
    }
    Ok(())
}

/// Adds the arguments of each `before` in an expression, from left to right.
#[cycle(befores)]
fn push_befores<'e>(e: &'e Expr, all: &mut Vec<&'e Expr>) -> Result<(), AllocError>
    ensures { OnOk result (map (λ e. expr_of e.now) all.new.items ≡ map (λ e. expr_of e.now) all.old.items ++ spec.befores (expr_of e.now)) }
{
    match e {
        Expr::Create { arguments, .. } => push_of_arguments(arguments.as_slice(), all),
        Expr::Array(elements) => push_of_all(elements.as_slice(), all),
        Expr::Dictionary(entries) => push_of_entries(entries.as_slice(), all),
        Expr::Member(base, _)
        | Expr::OptionalMember(base, _)
        | Expr::Force(base)
        | Expr::Unary(_, base)
        | Expr::Reference(base, _)
        | Expr::Cast(_, base, _) => push_befores(base, all),
        Expr::Index(left, right) | Expr::Binary(_, left, right) => {
            push_befores(left, all)?;
            push_befores(right, all)
        }
        Expr::Call {
            function,
            arguments,
            ..
        } => {
            if is_before(function) {
                push_expressions(all, arguments.as_slice())
            } else {
                push_befores(function, all)?;
                push_of_arguments(arguments.as_slice(), all)
            }
        }
        Expr::Conditional(test, then, otherwise) => {
            push_befores(test, all)?;
            push_befores(then, all)?;
            push_befores(otherwise, all)
        }
        _ => Ok(()),
    }
}

/// The same in elements.
#[cycle(befores)]
fn push_of_all<'e>(elements: &'e [Expr], all: &mut Vec<&'e Expr>) -> Result<(), AllocError>
    ensures { OnOk result (map (λ e. expr_of e.now) all.new.items ≡ map (λ e. expr_of e.now) all.old.items ++ spec.befores_of_all (exprs_of (map expr_of elements.now))) }
{
    for element in elements {
        push_befores(element, all)?;
    }
    Ok(())
}

/// The same in arguments.
#[cycle(befores)]
fn push_of_arguments<'e>(
    arguments: &'e [Argument],
    all: &mut Vec<&'e Expr>,
) -> Result<(), AllocError>
    ensures { OnOk result (map (λ e. expr_of e.now) all.new.items ≡ map (λ e. expr_of e.now) all.old.items ++ spec.befores_of_arguments (arguments_of (map argument_of arguments.now))) }
{
    for argument in arguments {
        push_befores(&argument.value, all)?;
    }
    Ok(())
}

/// The same in keys and values.
#[cycle(befores)]
fn push_of_entries<'e>(entries: &'e [Entry], all: &mut Vec<&'e Expr>) -> Result<(), AllocError>
    ensures { OnOk result (map (λ e. expr_of e.now) all.new.items ≡ map (λ e. expr_of e.now) all.old.items ++ spec.befores_of_entries (entries_of (map entry_of entries.now))) }
{
    for entry in entries {
        push_befores(&entry.key, all)?;
        push_befores(&entry.value, all)?;
    }
    Ok(())
}

/// The arguments of each `before` in an expression, from left to right.
pub fn befores(alloc: Global, e: &Expr) -> Result<Vec<&Expr>, AllocError>
    ensures { IfOk result (λ all. map (λ e. expr_of e.now) all.items ≡ spec.befores (expr_of e.now)) }
{
    let mut all = Vec::new(alloc);
    push_befores(e, &mut all)?;
    Ok(all)
}

/// A length that is counted by a `u32`; want of memory where it is too great.
fn counted(length: usize) -> Result<u32, AllocError>
    ensures { IfOk result (λ n. n ≡ length) }
{
    match u32::try_from(length) {
        Ok(n) => Ok(n),
        Err(_) => Err(AllocError),
    }
}

/// Where an expression stands behind another of the same form.
pub fn behind<'a>(
    alloc: Global,
    e: &Expr,
    env: Environment<'a>,
) -> Result<Environment<'a>, AllocError>
    ensures { IfOk result (λ b. environment_of b ≡ spec.behind (expr_of e.now) (environment_of env.entry)) }
{
    let passed = befores(alloc, e)?;
    let befores = more(env.befores, counted(passed.len())?)?;
    Ok(Environment { befores, ..env })
}

/// How many variables the scopes have.
#[tactic(auto, using(crate::proofs::Counted::behind_these))]
fn named_in(scopes: Scopes<'_>) -> Result<u32, AllocError>
    ensures { IfOk result (λ n. n ≡ length (flat_map (λ locals. locals) (scopes_of scopes.entry))) }
{
    match scopes {
        Scopes::Empty => Ok(0),
        Scopes::Inside(locals, outer) => more(counted(locals.len())?, named_in(*outer)?),
    }
}

/// How many fields a transaction has.
fn fields_in(fields: Option<&[Local]>) -> Result<u32, AllocError>
    ensures { IfOk result (λ n. n ≡ length (spec.locals_in (option_map (λ all. map local_of all.now) fields.entry))) }
{
    match fields {
        None => Ok(0),
        Some(fields) => counted(fields.len()),
    }
}

/// How many variables have names: in a postcondition the parameters, and in a transaction its fields too.
pub fn named_variables(env: Environment<'_>) -> Result<u32, AllocError>
    ensures { IfOk result (λ n. n ≡ spec.named_variables (environment_of env.entry)) }
{
    more(named_in(env.scopes)?, fields_in(env.transaction_fields)?)
}

/// Where what stands under `before` is evaluated: at entry, where there is no result and no hidden variable.
pub fn at_entry(env: Environment<'_>) -> Result<Environment<'_>, AllocError>
    ensures { IfOk result (λ e. environment_of e ≡ spec.at_entry (environment_of env.entry)) }
{
    let in_use = named_variables(env)?;
    Ok(Environment {
        part: Part::BeforeValue,
        in_use,
        ..env
    })
}
