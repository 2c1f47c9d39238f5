// Values behind the sign of a move, and returned ones.
ghost use Rattle.std.specs.Prelude.{◌≡◌, IfOk, option_map};
ghost use Rattle.cad_syntax.specs.Types.{pure_type};
ghost use Rattle.cad_grammar.specs.Views.{expr_of};
ghost use Rattle.cad_typing.specs.Containers as containers;
ghost use Rattle.cad_typing.specs.Places as spec;
ghost use Rattle.cad_environment.specs.Views.{environment_of, typing_of};

use cad_environment::{Environment, Position, Typing, discard_typing};
use cad_grammar::{Expr, Transfer, UnaryOperator};
use cad_infer::infer;
use cad_syntax::CadType;
use cad_type_classes::fits;
use std::alloc::{AllocError, Global};

/// Whether a value is copied by a sign.
fn is_copy_sign(by: Transfer) -> bool
    ensures { result ≡ spec.is_copy_sign by }
{
    matches!(by, Transfer::Copy)
}

/// Whether a form stands under `<-`.
fn is_move(a: &Expr) -> bool
    ensures { result ≡ containers.is_move (expr_of a.now) }
{
    match a {
        Expr::Unary(operator, _) => matches!(operator, UnaryOperator::Move),
        _ => false,
    }
}

/// Whether a resource stands under `<-`.
fn stands_rightly(env: Environment<'_>, a: &Expr, t: &CadType) -> bool
    ensures { result ≡ containers.stands_rightly (environment_of env.entry) (expr_of a.now) (pure_type t.now) }
{
    !env.is_resource(t) || is_move(a)
}

/// Whether a value stands behind the sign that a place of its type asks for: a resource is moved, and without `<-`; any other
/// value is copied.
fn has_right_sign(env: Environment<'_>, by: Transfer, a: &Expr, t: &CadType) -> bool
    ensures { result ≡ spec.has_right_sign (environment_of env.entry) by (expr_of a.now) (pure_type t.now) }
{
    if env.is_resource(t) {
        !(is_copy_sign(by) || is_move(a))
    } else {
        is_copy_sign(by)
    }
}

/// A value that is moved or copied to a place of a type. None where it has no type, doesn't fit that of the place, or the sign
/// is another.
pub fn infer_moved(
    a: &Expr,
    alloc: Global,
    env: Environment<'_>,
    by: Transfer,
    t: &CadType,
) -> Result<Option<Typing>, AllocError>
    ensures { IfOk result (λ o. option_map typing_of o ≡ spec.infer_moved (environment_of env.entry) by (pure_type t.now) (expr_of a.now)) }
{
    let Some(x) = infer(a, alloc, env, Position::Moved, Some(t))? else {
        return Ok(None);
    };
    if fits(env.kinds(), &x.declared, t) && has_right_sign(env, by, a, t) {
        Ok(Some(x))
    } else {
        discard_typing(x);
        Ok(None)
    }
}

/// A value that is moved or copied to a place that takes its type. None where it has no type, or the sign is another.
pub fn infer_declared(
    a: &Expr,
    alloc: Global,
    env: Environment<'_>,
    by: Transfer,
) -> Result<Option<Typing>, AllocError>
    ensures { IfOk result (λ o. option_map typing_of o ≡ spec.infer_declared (environment_of env.entry) by (expr_of a.now)) }
{
    let Some(x) = infer(a, alloc, env, Position::Moved, None)? else {
        return Ok(None);
    };
    if has_right_sign(env, by, a, &x.declared) {
        Ok(Some(x))
    } else {
        discard_typing(x);
        Ok(None)
    }
}

/// A value that is returned where the result has a type. None where it has no type, doesn't fit that, or is a resource without
/// `<-`.
pub fn infer_returned(
    a: &Expr,
    alloc: Global,
    env: Environment<'_>,
    t: &CadType,
) -> Result<Option<Typing>, AllocError>
    ensures { IfOk result (λ o. option_map typing_of o ≡ spec.infer_returned (environment_of env.entry) (pure_type t.now) (expr_of a.now)) }
{
    let Some(x) = infer(a, alloc, env, Position::Ordinary, Some(t))? else {
        return Ok(None);
    };
    if fits(env.kinds(), &x.declared, t) && stands_rightly(env, a, &x.declared) {
        Ok(Some(x))
    } else {
        discard_typing(x);
        Ok(None)
    }
}
