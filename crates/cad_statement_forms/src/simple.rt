// The statements in which no statements stand, and that declare nothing.
ghost use Rattle.std.specs.Prelude.{◌≡◌, ◌&&◌, IfOk, Some, option_map};
ghost use Rattle.cad_syntax.specs.Types.{pure_type};
ghost use Rattle.cad_grammar.specs.Views.{expr_of};
ghost use Rattle.cad_types.specs.Optionals as optionals;
ghost use Rattle.cad_declarations.specs.Typed as typed;
ghost use Rattle.cad_declarations.specs.Views.{statement_of};
ghost use Rattle.cad_environment.specs.Views.{environment_of, typing_of};
ghost use Rattle.cad_infer_targets.specs.Views.{target_of};
ghost use Rattle.cad_typing.specs.Environments.{kinds, when};
ghost use Rattle.cad_typing.specs.StatementForms as spec;
ghost use Rattle.cad_typing.specs.Statements as statement_spec;

use cad_declarations::{TypedStatement, discard_type};
use cad_environment::{Environment, Position, Typing, discard_typing};
use cad_grammar::{Expr, Transfer};
use cad_infer_targets::{
    Target, discard_target, infer, infer_event, infer_moved, infer_returned, infer_target,
};
use cad_statement_parts::fit_each_other;
use cad_statement_trees::{nothing_returned, targeted};
use cad_syntax::CadType;
use cad_type_classes::is_optional_type;
use std::alloc::{AllocError, Global};

/// What is assigned to a place, or sets it.
fn assign_tree(at: u64, p: Target, x: Typing) -> TypedStatement
    ensures { statement_of result ≡ typed.assign at (target_of p).place (typing_of x).term (target_of p).type }
{
    TypedStatement::Assign {
        at,
        place: p.place,
        value: targeted(x, p.declared),
    }
}

/// What fills a place.
fn force_tree(at: u64, p: Target, x: Typing) -> TypedStatement
    ensures { statement_of result ≡ typed.force_assign at (target_of p).place (typing_of x).term (target_of p).type }
{
    TypedStatement::ForceAssign {
        at,
        place: p.place,
        value: targeted(x, p.declared),
    }
}

/// `place = value`
fn copied(
    alloc: Global,
    env: Environment<'_>,
    at: u64,
    value: &Expr,
    p: Target,
) -> Result<Option<TypedStatement>, AllocError>
    ensures { IfOk result (λ s. option_map statement_of s ≡ spec.assignment_to (environment_of env.entry) at Transfer.Copy (expr_of value.now) (target_of p)) }
{
    match infer_moved(value, alloc, env, Transfer::Copy, &p.declared) {
        Ok(Some(x)) => Ok(Some(assign_tree(at, p, x))),
        Ok(None) => {
            discard_target(p);
            Ok(None)
        }
        Err(error) => {
            discard_target(p);
            Err(error)
        }
    }
}

/// `place <- value`: a field that is set for the first time.
fn set(
    alloc: Global,
    env: Environment<'_>,
    at: u64,
    value: &Expr,
    p: Target,
) -> Result<Option<TypedStatement>, AllocError>
    ensures { IfOk result (λ s. option_map statement_of s ≡ spec.assignment_to (environment_of env.entry) at Transfer.Move (expr_of value.now) (target_of p)) }
{
    if !p.is_own_field {
        discard_target(p);
        return Ok(None);
    }
    match infer_moved(value, alloc, env, Transfer::Move, &p.declared) {
        Ok(Some(x)) => Ok(Some(assign_tree(at, p, x))),
        Ok(None) => {
            discard_target(p);
            Ok(None)
        }
        Err(error) => {
            discard_target(p);
            Err(error)
        }
    }
}

/// `place <-! value`: a place of an optional type is filled.
fn filled(
    alloc: Global,
    env: Environment<'_>,
    at: u64,
    value: &Expr,
    p: Target,
) -> Result<Option<TypedStatement>, AllocError>
    ensures { IfOk result (λ s. option_map statement_of s ≡ spec.assignment_to (environment_of env.entry) at Transfer.ForceMove (expr_of value.now) (target_of p)) }
{
    if !is_optional_type(&p.declared) {
        discard_target(p);
        return Ok(None);
    }
    match infer_moved(value, alloc, env, Transfer::ForceMove, &p.declared) {
        Ok(Some(x)) => Ok(Some(force_tree(at, p, x))),
        Ok(None) => {
            discard_target(p);
            Ok(None)
        }
        Err(error) => {
            discard_target(p);
            Err(error)
        }
    }
}

/// An assignment.
pub fn assignment(
    alloc: Global,
    env: Environment<'_>,
    at: u64,
    place: &Expr,
    by: Transfer,
    value: &Expr,
) -> Result<Option<TypedStatement>, AllocError>
    ensures { IfOk result (λ s. option_map statement_of s ≡ spec.assignment (environment_of env.entry) at (expr_of place.now) by (expr_of value.now)) }
{
    let Some(p) = infer_target(place, alloc, env)? else {
        return Ok(None);
    };
    match by {
        Transfer::Copy => copied(alloc, env, at, value, p),
        Transfer::Move => set(alloc, env, at, value, p),
        Transfer::ForceMove => filled(alloc, env, at, value, p),
    }
}

/// `left <-> right`
pub fn swap(
    alloc: Global,
    env: Environment<'_>,
    at: u64,
    left: &Expr,
    right: &Expr,
) -> Result<Option<TypedStatement>, AllocError>
    ensures { IfOk result (λ s. option_map statement_of s ≡ spec.swap (environment_of env.entry) at (expr_of left.now) (expr_of right.now)) }
{
    let Some(p) = infer_target(left, alloc, env)? else {
        return Ok(None);
    };
    match infer_target(right, alloc, env) {
        Ok(Some(q)) => Ok(swapped(env, at, p, q)),
        Ok(None) => {
            discard_target(p);
            Ok(None)
        }
        Err(error) => {
            discard_target(p);
            Err(error)
        }
    }
}

/// The swap of two places, where what stands in each fits the other.
fn swapped(env: Environment<'_>, at: u64, p: Target, q: Target) -> Option<TypedStatement>
    ensures { option_map statement_of result ≡ when (optionals.fits (kinds (environment_of env.entry)) (target_of p).type (target_of q).type && optionals.fits (kinds (environment_of env.entry)) (target_of q).type (target_of p).type) (Some (typed.swap at (target_of p).place (target_of p).type (target_of q).place (target_of q).type)) }
{
    if !fit_each_other(env, &p.declared, &q.declared) {
        discard_target(p);
        discard_target(q);
        return None;
    }
    Some(TypedStatement::Swap {
        at,
        left: p.place,
        left_type: p.declared,
        right: q.place,
        right_type: q.declared,
    })
}

/// `return`, of a value that fits the function's result; without one the result is Void.
pub fn returned(
    alloc: Global,
    env: Environment<'_>,
    result_type: &CadType,
    at: u64,
    value: &Option<Expr>,
) -> Result<Option<TypedStatement>, AllocError>
    ensures { IfOk result (λ s. option_map statement_of s ≡ spec.returned (environment_of env.entry) (pure_type result_type.now) at (option_map expr_of value.now)) }
{
    let Some(expression) = value else {
        return Ok(nothing_returned(at, result_type));
    };
    let Some(x) = infer_returned(expression, alloc, env, result_type)? else {
        return Ok(None);
    };
    match result_type.clone() {
        Ok(target) => Ok(Some(return_tree(at, x, target))),
        Err(error) => {
            discard_typing(x);
            Err(error)
        }
    }
}

/// The `return` of a value that was transferred to a type.
fn return_tree(at: u64, x: Typing, target: CadType) -> TypedStatement
    ensures { statement_of result ≡ typed.return_value at (typing_of x).term (pure_type target) }
{
    TypedStatement::Return {
        at,
        value: Some(targeted(x, target)),
    }
}

/// An expression whose value isn't of resource type.
pub fn evaluated(
    alloc: Global,
    env: Environment<'_>,
    at: u64,
    value: &Expr,
) -> Result<Option<TypedStatement>, AllocError>
    ensures { IfOk result (λ s. option_map statement_of s ≡ spec.evaluated (environment_of env.entry) at (expr_of value.now)) }
{
    let Some(x) = infer(value, alloc, env, Position::Ordinary, None)? else {
        return Ok(None);
    };
    if env.is_resource(&x.declared) {
        discard_typing(x);
        return Ok(None);
    }
    discard_type(x.declared);
    Ok(Some(TypedStatement::Expression { at, value: x.term }))
}

/// `emit` of an event.
pub fn emitted(
    alloc: Global,
    env: Environment<'_>,
    at: u64,
    event: &Expr,
) -> Result<Option<TypedStatement>, AllocError>
    ensures { IfOk result (λ s. option_map statement_of s ≡ statement_spec.emitted (environment_of env.entry) at (expr_of event.now)) }
{
    let Some(x) = infer_event(event, alloc, env)? else {
        return Ok(None);
    };
    Ok(Some(TypedStatement::Emit {
        at,
        event: x.event,
        arguments: x.arguments,
    }))
}
