// Operators, casts and choices, in the recursion over expressions.
ghost use Rattle.std.specs.Prelude.{◌≡◌, IfOk, option_map};
ghost use Rattle.cad_grammar.specs.Trees as s;
ghost use Rattle.cad_grammar.specs.Views.{expr_of, annotation_of};
ghost use Rattle.cad_typing.specs.Befores as befores;
ghost use Rattle.cad_typing.specs.Environments.{ordinary};
ghost use Rattle.cad_environment.specs.Views.{environment_of, position_of, typing_of};
ghost use Rattle.cad_infer_parts.specs.Code.Steps as steps;
ghost use Rattle.cad_infer_parts.specs.Views.{family_of, expected_of};

use crate::expression::typing;
use crate::places::based;
use cad_declarations::discard_type;
use cad_environment::{Environment, Position, Typing, behind, discard_typing};
use cad_grammar::{BinaryOperator, CastKind, Expr, TypeAnnotation, UnaryOperator};
use cad_infer_parts::{
    Family, cast_expected, cast_position, cast_then, chosen_then, coalesced_then, joined_then,
    literal_of, nil_then, operand_expected, operand_position, operands_then, operator_family,
    unary_then,
};
use cad_scopes::resolved_annotation;
use cad_syntax::CadType;
use cad_type_classes::content;
use std::alloc::{AllocError, Global};

/// An operator between two operands: None of any other form.
#[cycle(infer)]
#[tactic(auto, unfolding(cad_infer_parts::specs::Code::Steps::binary_form), using(crate::proofs::Arms::operations))]
pub(crate) fn binary(
    e: &Expr,
    alloc: Global,
    env: Environment<'_>,
    position: Position,
    expected: Option<&CadType>,
) -> Result<Option<Option<Typing>>, AllocError>
    ensures { IfOk result (λ o. option_map (option_map typing_of) o ≡ steps.binary_form (environment_of env.entry) (position_of position) (expected_of expected.entry) (expr_of e.now)) }
{
    match e {
        Expr::Binary(operator, a, b) => match operator_family(*operator, a, b) {
            Family::LeftBesideNil => {
                let base = based(a, alloc, env)?;
                Ok(Some(nil_then(alloc, *operator, base)?))
            }
            Family::RightBesideNil => {
                let base = based(b, alloc, env)?;
                Ok(Some(nil_then(alloc, *operator, base)?))
            }
            Family::Logical => {
                let x = typing(a, alloc, env, Position::Ordinary, None)?;
                Ok(Some(right_joined(b, alloc, env, a, *operator, x)?))
            }
            Family::Coalescing => {
                let x = typing(a, alloc, env, position, None)?;
                Ok(Some(right_coalesced(b, alloc, env, a, x)?))
            }
            Family::Arithmetical => {
                let x = typing(a, alloc, env, Position::Ordinary, expected)?;
                Ok(Some(right_operand(b, alloc, env, a, *operator, Family::Arithmetical, x)?))
            }
            Family::Bitwise => {
                let x = typing(a, alloc, env, Position::Ordinary, expected)?;
                Ok(Some(right_operand(b, alloc, env, a, *operator, Family::Bitwise, x)?))
            }
            Family::Ordering => {
                let x = typing(a, alloc, env, Position::Ordinary, None)?;
                Ok(Some(right_operand(b, alloc, env, a, *operator, Family::Ordering, x)?))
            }
            Family::Equality => {
                let x = typing(a, alloc, env, Position::Ordinary, None)?;
                Ok(Some(right_operand(b, alloc, env, a, *operator, Family::Equality, x)?))
            }
        },
        _ => Ok(None),
    }
}

/// An operator whose right operand is expected to have the type of the left one, x.
#[cycle(infer)]
#[tactic(auto, unfolding(cad_infer_parts::specs::Code::Steps::operand_then))]
fn right_operand(
    b: &Expr,
    alloc: Global,
    env: Environment<'_>,
    a: &Expr,
    operator: BinaryOperator,
    family: Family,
    x: Option<Typing>,
) -> Result<Option<Typing>, AllocError>
    ensures { IfOk result (λ o. option_map typing_of o ≡ steps.operand_then (environment_of env.entry) operator (family_of family) (expr_of a.now) (expr_of b.now) (option_map typing_of x)) }
{
    let Some(x) = x else {
        return Ok(None);
    };
    match infer_behind(b, alloc, env, a, Some(&x.declared)) {
        Ok(y) => operands_then(alloc, env, operator, family, x, y),
        Err(error) => {
            discard_typing(x);
            Err(error)
        }
    }
}

/// `a || b`, `a && b`, where a is x.
#[cycle(infer)]
#[tactic(auto, unfolding(cad_infer_parts::specs::Code::Steps::logical_then))]
fn right_joined(
    b: &Expr,
    alloc: Global,
    env: Environment<'_>,
    a: &Expr,
    operator: BinaryOperator,
    x: Option<Typing>,
) -> Result<Option<Typing>, AllocError>
    ensures { IfOk result (λ o. option_map typing_of o ≡ steps.logical_then (environment_of env.entry) operator (expr_of a.now) (expr_of b.now) (option_map typing_of x)) }
{
    let Some(x) = x else {
        return Ok(None);
    };
    match infer_behind(b, alloc, env, a, None) {
        Ok(y) => joined_then(alloc, operator, x, y),
        Err(error) => {
            discard_typing(x);
            Err(error)
        }
    }
}

/// `a ?? b`, where a is x.
#[cycle(infer)]
#[tactic(auto, unfolding(cad_infer_parts::specs::Code::Steps::coalesce_then))]
fn right_coalesced(
    b: &Expr,
    alloc: Global,
    env: Environment<'_>,
    a: &Expr,
    x: Option<Typing>,
) -> Result<Option<Typing>, AllocError>
    ensures { IfOk result (λ o. option_map typing_of o ≡ steps.coalesce_then (environment_of env.entry) (expr_of a.now) (expr_of b.now) (option_map typing_of x)) }
{
    let Some(x) = x else {
        return Ok(None);
    };
    match behind_content(b, alloc, env, a, &x) {
        Ok(y) => coalesced_then(alloc, env, x, y),
        Err(error) => {
            discard_typing(x);
            Err(error)
        }
    }
}

/// What stands behind `a ??`, where the content of a, which is x, is expected.
#[cycle(infer)]
#[tactic(auto, unfolding(cad_infer_parts::specs::Code::Steps::content_then))]
fn behind_content(
    b: &Expr,
    alloc: Global,
    env: Environment<'_>,
    a: &Expr,
    x: &Typing,
) -> Result<Option<Typing>, AllocError>
    ensures { IfOk result (λ o. option_map typing_of o ≡ steps.content_then (environment_of env.entry) (expr_of a.now) (expr_of b.now) (typing_of x.now)) }
{
    let Some(t) = content(&x.declared) else {
        return Ok(None);
    };
    infer_behind(b, alloc, env, a, Some(t))
}

/// `a ? b : c`: None of any other form.
#[cycle(infer)]
#[tactic(auto, unfolding(cad_infer_parts::specs::Code::Steps::conditional_form), using(crate::proofs::Arms::conditionals))]
pub(crate) fn conditional(
    e: &Expr,
    alloc: Global,
    env: Environment<'_>,
    expected: Option<&CadType>,
) -> Result<Option<Option<Typing>>, AllocError>
    ensures { IfOk result (λ o. option_map (option_map typing_of) o ≡ steps.conditional_form (environment_of env.entry) (expected_of expected.entry) (expr_of e.now)) }
{
    match e {
        Expr::Conditional(a, b, c) => {
            let Some(test) = typing(a, alloc, env, Position::Ordinary, None)? else {
                return Ok(Some(None));
            };
            match infer_behind(b, alloc, env, a, expected) {
                Ok(x) => Ok(Some(otherwise(c, alloc, env, a, b, expected, test, x)?)),
                Err(error) => {
                    discard_typing(test);
                    Err(error)
                }
            }
        }
        _ => Ok(None),
    }
}

/// What stands behind an expression, where a type is expected.
#[cycle(infer)]
pub(crate) fn infer_behind(
    b: &Expr,
    alloc: Global,
    env: Environment<'_>,
    a: &Expr,
    expected: Option<&CadType>,
) -> Result<Option<Typing>, AllocError>
    ensures { IfOk result (λ o. option_map typing_of o ≡ steps.typing (befores.behind (expr_of a.now) (environment_of env.entry)) ordinary (expected_of expected.entry) (expr_of b.now)) }
{
    let inner = behind(alloc, a, env)?;
    typing(b, alloc, inner, Position::Ordinary, expected)
}

/// `a ? b : c`, where a and b are test and x.
#[cycle(infer)]
#[tactic(auto, unfolding(cad_infer_parts::specs::Code::Steps::second_then))]
fn otherwise(
    c: &Expr,
    alloc: Global,
    env: Environment<'_>,
    a: &Expr,
    b: &Expr,
    expected: Option<&CadType>,
    test: Typing,
    x: Option<Typing>,
) -> Result<Option<Typing>, AllocError>
    ensures { IfOk result (λ o. option_map typing_of o ≡ steps.second_then (environment_of env.entry) (expected_of expected.entry) (expr_of a.now) (expr_of b.now) (expr_of c.now) (typing_of test) (option_map typing_of x)) }
{
    let Some(x) = x else {
        discard_typing(test);
        return Ok(None);
    };
    match infer_third(c, alloc, env, a, b, expected) {
        Ok(y) => chosen_then(alloc, env, test, x, y),
        Err(error) => {
            discard_typing(test);
            discard_typing(x);
            Err(error)
        }
    }
}

/// What stands behind two expressions, where a type is expected.
#[cycle(infer)]
fn infer_third(
    c: &Expr,
    alloc: Global,
    env: Environment<'_>,
    a: &Expr,
    b: &Expr,
    expected: Option<&CadType>,
) -> Result<Option<Typing>, AllocError>
    ensures { IfOk result (λ o. option_map typing_of o ≡ steps.typing (befores.behind (expr_of b.now) (befores.behind (expr_of a.now) (environment_of env.entry))) ordinary (expected_of expected.entry) (expr_of c.now)) }
{
    let inner = behind(alloc, a, env)?;
    infer_behind(c, alloc, inner, b, expected)
}

/// `-a`, `!a`, `*a`, `<-a`, `destroy a`
#[cycle(infer)]
#[tactic(auto, using(crate::proofs::Unfolded::unary_is, crate::proofs::Unfolded::literal_is))]
pub(crate) fn unary(
    a: &Expr,
    alloc: Global,
    env: Environment<'_>,
    operator: UnaryOperator,
    expected: Option<&CadType>,
) -> Result<Option<Typing>, AllocError>
    ensures { IfOk result (λ o. option_map typing_of o ≡ steps.typing (environment_of env.entry) ordinary (expected_of expected.entry) (s.unary operator (expr_of a.now))) }
{
    if let Some(literal) = literal_of(operator, expected, a) {
        return Ok(literal);
    }
    let wanted = operand_expected(operator, expected);
    let x = typing(a, alloc, env, operand_position(operator), wanted)?;
    Ok(unary_then(alloc, env, operator, a, x)?)
}

/// `a as T`, `a as? T`, `a as! T`
#[cycle(infer)]
#[tactic(auto, using(crate::proofs::Unfolded::cast_is, crate::proofs::Unfolded::cast_none))]
pub(crate) fn cast(
    a: &Expr,
    alloc: Global,
    env: Environment<'_>,
    position: Position,
    kind: CastKind,
    annotation: &TypeAnnotation,
) -> Result<Option<Typing>, AllocError>
    ensures { IfOk result (λ o. option_map typing_of o ≡ steps.typing (environment_of env.entry) (position_of position) None (s.cast kind (expr_of a.now) (annotation_of annotation.now))) }
{
    let Some(t) = resolved_annotation(alloc, env.scope(), annotation)? else {
        return Ok(None);
    };
    match typing(
        a,
        alloc,
        env,
        cast_position(kind, position),
        cast_expected(kind, &t),
    ) {
        Ok(x) => cast_then(alloc, env, kind, t, x),
        Err(error) => {
            discard_type(t);
            Err(error)
        }
    }
}
