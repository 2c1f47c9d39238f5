// What makes a longer expression of the one before it.
ghost use Rattle.std.specs.Prelude.{◌≡◌, IfOk, option_map};
ghost use Rattle.cad_grammar.specs.Views.{expr_of, type_of};
ghost use Rattle.cad_grammar.specs.ExpressionGrammar as grammar;
ghost use Rattle.cad_parse_expr.specs.Code.Reading as spec;
ghost use Rattle.cad_parse_expr.specs.Code.Views.{tail_of};
ghost use Rattle.cad_parse_type.specs.Code.Views.{seen, seen_with, annotations_in};

use crate::closing::closes;
use crate::made::{binary, boxed, boxed_both};
use crate::word::cast_word;
use cad_grammar::{
    Argument, BinaryOperator, CastKind, Expr, Sign, TypeAnnotation, TypeExpr, TypePosition,
};
use cad_parse_type::{Spot, annotation_at, arguments_at, question, questions, type_at};
use cad_syntax::{Keyword, Name};
use std::alloc::{AllocError, Global};

#[derive(Debug, Drop)]
pub enum Tail {
    /// An operator and its second operand.
    Operated(BinaryOperator, Expr),
    CastTo(CastKind, TypeAnnotation),
    /// Whether there is a `?` before the `.`, and the name.
    Member(bool, Name),
    IndexedBy(Expr),
    CalledWith(Vec<TypeAnnotation>, Vec<Argument>),
    Forced,
}

/// The expression that the tail makes of the one before it.
pub fn extend(alloc: Global, a: Expr, tail: Tail) -> Result<Expr, AllocError>
    ensures { IfOk result (λ e. expr_of e ≡ grammar.extend (expr_of a) (tail_of tail)) }
{
    match tail {
        Tail::Operated(operator, b) => binary(alloc, operator, a, b),
        Tail::CastTo(kind, to) => match boxed(alloc, a) {
            Ok(a) => Ok(Expr::Cast(kind, a, to)),
            Err(error) => {
                drop(to);
                Err(error)
            }
        },
        Tail::Member(false, name) => Ok(Expr::Member(boxed(alloc, a)?, name)),
        Tail::Member(true, name) => Ok(Expr::OptionalMember(boxed(alloc, a)?, name)),
        Tail::IndexedBy(i) => {
            let (a, i) = boxed_both(alloc, a, i)?;
            Ok(Expr::Index(a, i))
        }
        Tail::CalledWith(type_arguments, arguments) => Ok(Expr::Call {
            function: boxed(alloc, a)?,
            type_arguments,
            arguments,
        }),
        Tail::Forced => Ok(Expr::Force(boxed(alloc, a)?)),
    }
}

/// The type arguments behind the name before the spot, and the spot behind them, where a `(` comes next; None where there
/// are none.
#[tactic(auto, unfolding(crate::specs::Code::Reading::type_arguments, cad_parse_type::specs::Code::Views::seen))]
pub fn type_arguments(
    alloc: Global,
    spot: Spot<'_>,
) -> Result<Option<(Vec<TypeAnnotation>, Spot<'_>)>, AllocError>
    ensures { IfOk result (λ o. option_map (seen_with annotations_in) o ≡ spec.type_arguments (seen spot.entry)) }
{
    if !spot.after_name {
        return Ok(None);
    }
    let Some(inside) = spot.opening(Sign::Less) else {
        return Ok(None);
    };
    if !closes(inside) {
        return Ok(None);
    }
    let Some((all, rest)) = arguments_at(alloc, inside)? else {
        return Ok(None);
    };
    if rest.after(Sign::OpenParenthesis).is_none() {
        return Ok(None);
    }
    Ok(Some((all, spot.back(rest))))
}

/// An `as` form and its type, and the spot behind it; None where none comes next, and where a `?` follows that belongs to
/// the type.
#[tactic(auto, unfolding(crate::specs::Code::Reading::cast_tail))]
pub fn cast_tail(alloc: Global, spot: Spot<'_>) -> Result<Option<(Tail, Spot<'_>)>, AllocError>
    ensures { IfOk result (λ o. option_map (seen_with tail_of) o ≡ spec.cast_tail (seen spot.entry)) }
{
    let Some((kind, rest)) = cast_word(spot) else {
        return Ok(None);
    };
    let Some(rest) = rest.opened() else {
        return Ok(None);
    };
    let Some((to, rest)) = annotation_at(alloc, TypePosition::BehindAs, rest)? else {
        return Ok(None);
    };
    if question(TypePosition::BehindAs, rest).is_some() {
        drop(to);
        return Ok(None);
    }
    if questions(TypePosition::BehindAs, rest).is_some() {
        drop(to);
        return Ok(None);
    }
    Ok(Some((Tail::CastTo(kind, to), rest)))
}

/// The member whose `.` or `?.` stands before the spot, and the spot behind it; None where there is none.
#[tactic(auto, unfolding(crate::specs::Code::Reading::member_tail))]
pub fn member_tail(
    is_optional: bool,
    spot: Spot<'_>,
) -> Result<Option<(Tail, Spot<'_>)>, AllocError>
    ensures { IfOk result (λ o. option_map (seen_with tail_of) o ≡ spec.member_tail is_optional (seen spot.entry)) }
{
    let Some(spot) = spot.opened() else {
        return Ok(None);
    };
    let Some((name, rest)) = spot.name() else {
        return Ok(None);
    };
    Ok(Some((Tail::Member(is_optional, name.clone()?), rest.named())))
}

/// The `!` before the spot, and the spot behind it; None where no nesting is left.
#[tactic(auto, unfolding(crate::specs::Code::Reading::force_tail))]
pub fn force_tail(spot: Spot<'_>) -> Option<(Tail, Spot<'_>)>
    ensures { option_map (seen_with tail_of) result ≡ spec.force_tail (seen spot.entry) }
{
    let spot = spot.opened()?;
    Some((Tail::Forced, spot))
}

/// The type behind the `as` that comes next, and the spot behind it; None where there is none, and where a `?` follows that
/// belongs to the type.
#[tactic(auto, unfolding(crate::specs::Code::Reading::as_type))]
pub fn as_type(alloc: Global, spot: Spot<'_>) -> Result<Option<(TypeExpr, Spot<'_>)>, AllocError>
    ensures { IfOk result (λ o. option_map (seen_with type_of) o ≡ spec.as_type (seen spot.entry)) }
{
    let Some(rest) = spot.keyword(Keyword::As) else {
        return Ok(None);
    };
    let Some(rest) = rest.opened() else {
        return Ok(None);
    };
    let Some((to, rest)) = type_at(alloc, TypePosition::BehindAs, rest)? else {
        return Ok(None);
    };
    if question(TypePosition::BehindAs, rest).is_some() {
        drop(to);
        return Ok(None);
    }
    if questions(TypePosition::BehindAs, rest).is_some() {
        drop(to);
        return Ok(None);
    }
    Ok(Some((to, rest)))
}
