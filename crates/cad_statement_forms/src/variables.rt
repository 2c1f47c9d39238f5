// Declarations of variables.
ghost use Rattle.std.specs.Prelude.{◌≡◌, IfOk, None, Some, option_map};
ghost use Rattle.cad_syntax.specs.Types.{pure_type};
ghost use Rattle.cad_grammar.specs.Views.{expr_of, annotation_of, second_of};
ghost use Rattle.cad_declarations.specs.Typed as typed;
ghost use Rattle.cad_declarations.specs.Views.{argument_of, statement_of, variable_of};
ghost use Rattle.cad_environment.specs.Views.{environment_of, typing_of};
ghost use Rattle.cad_infer_targets.specs.Views.{target_of};
ghost use Rattle.cad_typing.specs.Environments.{◌>=>◌};
ghost use Rattle.cad_typing.specs.Places as places;
ghost use Rattle.cad_typing.specs.StatementForms as spec;
ghost use Rattle.cad_statement_trees.specs.Views.{statement_typing_of};

use cad_declarations::{Argument, TypedStatement, Variable, discard_type};
use cad_environment::{Environment, Typing, discard_typing};
use cad_grammar::{Expr, Transfer, TypeAnnotation, VariableKind};
use cad_infer_targets::{Target, discard_target, infer_declared, infer_moved, infer_target};
use cad_scopes::resolved_annotation;
use cad_statement_parts::{is_free, may_declare, may_exchange, new_variable, type_for};
use cad_statement_trees::{StatementTyping, beside_variable, declared, targeted};
use cad_syntax::{CadType, Name};
use std::alloc::{AllocError, Global};

/// A value whose variable has its own type.
fn own_value(
    alloc: Global,
    env: Environment<'_>,
    by: Transfer,
    value: &Expr,
) -> Result<Option<Argument>, AllocError>
    ensures { IfOk result (λ x. option_map argument_of x ≡ spec.declared_value (environment_of env.entry) by None (expr_of value.now)) }
{
    let Some(x) = infer_declared(value, alloc, env, by)? else {
        return Ok(None);
    };
    match x.declared.clone() {
        Ok(target) => Ok(Some(targeted(x, target))),
        Err(error) => {
            discard_typing(x);
            Err(error)
        }
    }
}

/// A value whose variable has a written type, which the value fits.
fn annotated_value(
    alloc: Global,
    env: Environment<'_>,
    by: Transfer,
    written: &TypeAnnotation,
    value: &Expr,
) -> Result<Option<Argument>, AllocError>
    ensures { IfOk result (λ x. option_map argument_of x ≡ spec.declared_value (environment_of env.entry) by (Some (annotation_of written.now)) (expr_of value.now)) }
{
    let Some(target) = resolved_annotation(alloc, env.scope(), written)? else {
        return Ok(None);
    };
    match infer_moved(value, alloc, env, by, &target) {
        Ok(Some(x)) => Ok(Some(targeted(x, target))),
        Ok(None) => {
            discard_type(target);
            Ok(None)
        }
        Err(error) => {
            discard_type(target);
            Err(error)
        }
    }
}

/// A value and the type of its variable: the written type, which the value fits, else the value's own.
fn declared_value(
    alloc: Global,
    env: Environment<'_>,
    by: Transfer,
    written: &Option<TypeAnnotation>,
    value: &Expr,
) -> Result<Option<Argument>, AllocError>
    ensures { IfOk result (λ x. option_map argument_of x ≡ spec.declared_value (environment_of env.entry) by (option_map annotation_of written.now) (expr_of value.now)) }
{
    match written {
        None => own_value(alloc, env, by, value),
        Some(annotation) => annotated_value(alloc, env, by, annotation, value),
    }
}

/// The declaration of a variable with what a place had.
fn exchanged(
    env: Environment<'_>,
    at: u64,
    kind: VariableKind,
    name: &Name,
    p: Target,
    t: &CadType,
    x: Typing,
) -> Result<StatementTyping, AllocError>
    ensures { IfOk result (λ s. statement_typing_of s ≡ spec.exchanged (environment_of env.entry) at kind name.now (target_of p) (pure_type t.now) (typing_of x)) }
{
    match new_variable(env, kind, name, t) {
        Ok((variable, v)) => Ok(beside_variable(exchange_tree(at, variable, p, x), v)),
        Err(error) => {
            discard_target(p);
            discard_typing(x);
            Err(error)
        }
    }
}

/// The tree of a declaration with what a place had.
fn exchange_tree(at: u64, variable: Variable, p: Target, x: Typing) -> TypedStatement
    ensures { statement_of result ≡ typed.exchange at (variable_of variable) (target_of p).place (target_of p).type (typing_of x).term }
{
    discard_type(x.declared);
    TypedStatement::Exchange {
        at,
        variable,
        place: p.place,
        of: p.declared,
        value: x.term,
    }
}

/// The same, where the value is moved to the place.
fn exchange_by(
    alloc: Global,
    env: Environment<'_>,
    at: u64,
    kind: VariableKind,
    name: &Name,
    p: Target,
    t: &CadType,
    value: &Expr,
) -> Result<Option<StatementTyping>, AllocError>
    ensures { IfOk result (λ s. option_map statement_typing_of s ≡ (places.infer_moved (environment_of env.entry) Transfer.Move (target_of p).type (expr_of value.now) >=> (λ x. Some (spec.exchanged (environment_of env.entry) at kind name.now (target_of p) (pure_type t.now) x)))) }
{
    match infer_moved(value, alloc, env, Transfer::Move, &p.declared) {
        Ok(Some(x)) => Ok(Some(exchanged(env, at, kind, name, p, t, x)?)),
        Ok(None) => {
            discard_target(p);
            Ok(None)
        }
        Err(error) => {
            discard_target(p);
            Err(error)
        }
    }
}

/// The same, where the variable has the written type, or else that of the place.
fn exchange_at(
    alloc: Global,
    env: Environment<'_>,
    at: u64,
    kind: VariableKind,
    name: &Name,
    written: &Option<TypeAnnotation>,
    p: Target,
    value: &Expr,
) -> Result<Option<StatementTyping>, AllocError>
    ensures { IfOk result (λ s. option_map statement_typing_of s ≡ (spec.type_for (environment_of env.entry) (option_map annotation_of written.now) (target_of p).type >=> (λ t. places.infer_moved (environment_of env.entry) Transfer.Move (target_of p).type (expr_of value.now) >=> (λ x. Some (spec.exchanged (environment_of env.entry) at kind name.now (target_of p) t x))))) }
{
    match type_for(alloc, env, written, &p.declared) {
        Ok(Some(t)) => {
            let x = exchange_by(alloc, env, at, kind, name, p, &t, value);
            discard_type(t);
            x
        }
        Ok(None) => {
            discard_target(p);
            Ok(None)
        }
        Err(error) => {
            discard_target(p);
            Err(error)
        }
    }
}

/// `let old <- place <- value`: the place is of resource type, and the value is moved to it.
fn exchange(
    alloc: Global,
    env: Environment<'_>,
    at: u64,
    kind: VariableKind,
    name: &Name,
    written: &Option<TypeAnnotation>,
    place: &Expr,
    value: &Expr,
) -> Result<Option<StatementTyping>, AllocError>
    ensures { IfOk result (λ s. option_map statement_typing_of s ≡ spec.exchange (environment_of env.entry) at kind name.now (option_map annotation_of written.now) (expr_of place.now) (expr_of value.now)) }
{
    let Some(p) = infer_target(place, alloc, env)? else {
        return Ok(None);
    };
    exchange_at(alloc, env, at, kind, name, written, p, value)
}

/// The declaration of a variable with one value.
fn one_value(
    alloc: Global,
    env: Environment<'_>,
    at: u64,
    kind: VariableKind,
    name: &Name,
    written: &Option<TypeAnnotation>,
    by: Transfer,
    value: &Expr,
) -> Result<Option<StatementTyping>, AllocError>
    ensures { IfOk result (λ s. option_map statement_typing_of s ≡ spec.declaration (environment_of env.entry) at kind name.now (option_map annotation_of written.now) by (expr_of value.now) None) }
{
    if !(may_declare(by) && is_free(env, name)) {
        return Ok(None);
    }
    let Some(x) = declared_value(alloc, env, by, written, value)? else {
        return Ok(None);
    };
    Ok(Some(declared(env, at, kind, name, x)?))
}

/// The declaration of a variable, whose name is free in its scope.
pub fn declaration(
    alloc: Global,
    env: Environment<'_>,
    at: u64,
    kind: VariableKind,
    name: &Name,
    written: &Option<TypeAnnotation>,
    by: Transfer,
    value: &Expr,
    second: &Option<(Transfer, Expr)>,
) -> Result<Option<StatementTyping>, AllocError>
    ensures { IfOk result (λ s. option_map statement_typing_of s ≡ spec.declaration (environment_of env.entry) at kind name.now (option_map annotation_of written.now) by (expr_of value.now) (option_map second_of second.now)) }
{
    let Some((sign, other)) = second else {
        return one_value(alloc, env, at, kind, name, written, by, value);
    };
    if may_exchange(env, name, by, *sign) {
        exchange(alloc, env, at, kind, name, written, value, other)
    } else {
        Ok(None)
    }
}
