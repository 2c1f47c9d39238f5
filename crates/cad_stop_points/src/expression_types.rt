// The types that expressions name are there.
ghost use Rattle.std.specs.Prelude.{◌≡◌, ◌++◌, map, option_map, option_copied, IfOk};
ghost use Rattle.cad_grammar.specs.Trees.{annotations_of, exprs_of, arguments_of, entries_of};
ghost use Rattle.cad_grammar.specs.Views.{annotation_of, expr_of, argument_of, entry_of};
ghost use Rattle.cad_declarations.specs.Points.{types_are_there};
ghost use Rattle.cad_declarations.specs.Written as spec;
ghost use Rattle.cad_scopes.specs.Views.{scope_of};

use crate::right::{annotation_is_there, name_is_there, type_is_there};
use cad_grammar::{Argument, Entry, Expr, TypeAnnotation};
use cad_scopes::Scope;
use std::alloc::{AllocError, Global};

/// Whether the types of annotations are there.
fn annotations_are_there(
    alloc: Global,
    scope: Scope<'_>,
    all: &[TypeAnnotation],
) -> Result<bool, AllocError>
    ensures { IfOk result (λ b. b ≡ types_are_there (scope_of scope.entry) (spec.types_in (annotations_of (map annotation_of all.now)))) }
{
    for annotation in all {
        if !annotation_is_there(alloc, scope, annotation)? {
            return Ok(false);
        }
    }
    Ok(true)
}

/// Whether the types that an expression names are there.
#[cycle(expressions)]
#[tactic(auto, using(crate::proofs::Lists::all_append))]
pub(crate) fn types_in_expression(
    e: &Expr,
    alloc: Global,
    scope: Scope<'_>,
) -> Result<bool, AllocError>
    ensures { IfOk result (λ b. b ≡ types_are_there (scope_of scope.entry) (spec.types_of (expr_of e.now))) }
{
    match e {
        Expr::Create {
            composite,
            arguments,
        } => {
            let created = name_is_there(alloc, scope, composite)?;
            let all = types_in_arguments(arguments.as_slice(), alloc, scope)?;
            Ok(created && all)
        }
        Expr::Array(all) => types_in_expressions(all.as_slice(), alloc, scope),
        Expr::Dictionary(all) => types_in_entries(all.as_slice(), alloc, scope),
        Expr::Member(a, _) => types_in_expression(a, alloc, scope),
        Expr::OptionalMember(a, _) => types_in_expression(a, alloc, scope),
        Expr::Force(a) => types_in_expression(a, alloc, scope),
        Expr::Unary(_, a) => types_in_expression(a, alloc, scope),
        Expr::Index(a, b) => {
            let first = types_in_expression(a, alloc, scope)?;
            let second = types_in_expression(b, alloc, scope)?;
            Ok(first && second)
        }
        Expr::Binary(_, a, b) => {
            let first = types_in_expression(a, alloc, scope)?;
            let second = types_in_expression(b, alloc, scope)?;
            Ok(first && second)
        }
        Expr::Call {
            function,
            type_arguments,
            arguments,
        } => {
            let called = types_in_expression(function, alloc, scope)?;
            let types = annotations_are_there(alloc, scope, type_arguments.as_slice())?;
            let all = types_in_arguments(arguments.as_slice(), alloc, scope)?;
            Ok(called && types && all)
        }
        Expr::Reference(a, to) => {
            let first = types_in_expression(a, alloc, scope)?;
            let target = type_is_there(alloc, scope, to)?;
            Ok(first && target)
        }
        Expr::Cast(_, a, to) => {
            let first = types_in_expression(a, alloc, scope)?;
            let target = annotation_is_there(alloc, scope, to)?;
            Ok(first && target)
        }
        Expr::Conditional(a, b, c) => {
            let test = types_in_expression(a, alloc, scope)?;
            let first = types_in_expression(b, alloc, scope)?;
            let second = types_in_expression(c, alloc, scope)?;
            Ok(test && first && second)
        }
        Expr::Whole { .. } => Ok(true),
        Expr::Fixed(_) => Ok(true),
        Expr::Text(_) => Ok(true),
        Expr::Bool(_) => Ok(true),
        Expr::Nil => Ok(true),
        Expr::Self_ => Ok(true),
        Expr::Name(_) => Ok(true),
        Expr::Path(_) => Ok(true),
    }
}

#[cycle(expressions)]
#[tactic(auto, using(crate::proofs::Lists::all_append))]
fn types_in_expressions(all: &[Expr], alloc: Global, scope: Scope<'_>) -> Result<bool, AllocError>
    ensures { IfOk result (λ b. b ≡ types_are_there (scope_of scope.entry) (spec.types_of_exprs (exprs_of (map expr_of all.now)))) }
{
    for e in all {
        if !types_in_expression(e, alloc, scope)? {
            return Ok(false);
        }
    }
    Ok(true)
}

#[cycle(expressions)]
#[tactic(auto, using(crate::proofs::Lists::all_append))]
fn types_in_arguments(all: &[Argument], alloc: Global, scope: Scope<'_>) -> Result<bool, AllocError>
    ensures { IfOk result (λ b. b ≡ types_are_there (scope_of scope.entry) (spec.types_of_arguments (arguments_of (map argument_of all.now)))) }
{
    for a in all {
        if !types_in_expression(&a.value, alloc, scope)? {
            return Ok(false);
        }
    }
    Ok(true)
}

#[cycle(expressions)]
#[tactic(auto, using(crate::proofs::Lists::all_append))]
fn types_in_entries(all: &[Entry], alloc: Global, scope: Scope<'_>) -> Result<bool, AllocError>
    ensures { IfOk result (λ b. b ≡ types_are_there (scope_of scope.entry) (spec.types_of_entries (entries_of (map entry_of all.now)))) }
{
    for entry in all {
        if !types_in_entry(entry, alloc, scope)? {
            return Ok(false);
        }
    }
    Ok(true)
}

#[cycle(expressions)]
#[tactic(auto, using(crate::proofs::Lists::all_append))]
fn types_in_entry(entry: &Entry, alloc: Global, scope: Scope<'_>) -> Result<bool, AllocError>
    ensures { IfOk result (λ b. b ≡ types_are_there (scope_of scope.entry) (spec.types_of (entry_of entry.now).key ++ spec.types_of (entry_of entry.now).value)) }
{
    let key = types_in_expression(&entry.key, alloc, scope)?;
    let value = types_in_expression(&entry.value, alloc, scope)?;
    Ok(key && value)
}

/// Whether the types of an expression are there, if there is one.
pub(crate) fn types_in_option(
    alloc: Global,
    scope: Scope<'_>,
    e: Option<&Expr>,
) -> Result<bool, AllocError>
    ensures { IfOk result (λ b. b ≡ types_are_there (scope_of scope.entry) (spec.types_of_option (option_map expr_of (option_copied e.entry)))) }
{
    match e {
        Some(e) => types_in_expression(e, alloc, scope),
        None => Ok(true),
    }
}
