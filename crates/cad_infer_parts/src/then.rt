// What is done with the results of parts: each takes what the recursion found.
ghost use Rattle.std.specs.Prelude.{◌≡◌, IfOk, option_map, map};
ghost use Rattle.cad_syntax.specs.Types.{pure_type};
ghost use Rattle.cad_grammar.specs.Views.{expr_of, annotation_of, type_of};
ghost use Rattle.cad_grammar.specs.Trees as s;
ghost use Rattle.cad_declarations.specs.Typed as tree;
ghost use Rattle.cad_declarations.specs.Views.{argument_of};
ghost use Rattle.cad_environment.specs.Views.{environment_of, position_of, typing_of, base_of, receiver_of};
ghost use Rattle.cad_infer_containers.specs.Views.{typings_of};
ghost use Rattle.cad_infer_calls.specs.Views.{call_view};
ghost use Rattle.cad_infer_parts.specs.Code.Steps as steps;
ghost use Rattle.cad_infer_parts.specs.Views.{expected_of, family_of};

use crate::family::{Family, operated};
use cad_declarations::{Argument as Transferred, discard_type};
use cad_environment::{
    Base, Environment, Position, Receiver, Typing, discard_receiver, discard_typing, receiver_in,
};
use cad_grammar::{BinaryOperator, CastKind, Expr, TypeAnnotation, TypeExpr, UnaryOperator};
use cad_infer_calls::{Call, call_member, call_typed, discard_call};
use cad_infer_containers::{array_typed, dictionary_typed, expected_element};
use cad_infer_members::{base_of_member, index_base, index_value, value_of_member};
use cad_infer_operators::{
    chosen, coalesced, compared_with_nil, destroyed, forced, inverted, joined, literal_under_minus,
    negated_value, taken,
};
use cad_infer_references::{borrowed, cast_failable, cast_forced, cast_static, dereferenced};
use cad_syntax::{CadType, Name};
use std::alloc::{AllocError, Global};

/// The value of a member of what stands before the `.`.
#[tactic(auto, unfolding(crate::specs::Code::Steps::member_then))]
pub fn member_then(
    alloc: Global,
    env: Environment<'_>,
    position: Position,
    name: &Name,
    base: Option<Base>,
) -> Result<Option<Typing>, AllocError>
    ensures { IfOk result (λ o. option_map typing_of o ≡ steps.member_then (environment_of env.entry) (position_of position) name.now (option_map base_of base)) }
{
    let Some(base) = base else {
        return Ok(None);
    };
    value_of_member(alloc, env, position, name, base)
}

/// The element of a receiver at an index.
#[tactic(auto, unfolding(crate::specs::Code::Steps::index_then))]
pub fn index_then(
    alloc: Global,
    env: Environment<'_>,
    r: Receiver,
    i: Option<Typing>,
) -> Result<Option<Typing>, AllocError>
    ensures { IfOk result (λ o. option_map typing_of o ≡ steps.index_then (environment_of env.entry) (receiver_of r) (option_map typing_of i)) }
{
    let Some(i) = i else {
        discard_receiver(r);
        return Ok(None);
    };
    index_value(alloc, env, r, i)
}

/// The content of a value.
#[tactic(auto, unfolding(crate::specs::Code::Steps::force_then))]
pub fn force_then(
    alloc: Global,
    env: Environment<'_>,
    a: &Expr,
    x: Option<Typing>,
) -> Result<Option<Typing>, AllocError>
    ensures { IfOk result (λ o. option_map typing_of o ≡ steps.force_then (environment_of env.entry) (expr_of a.now) (option_map typing_of x)) }
{
    let Some(x) = x else {
        return Ok(None);
    };
    forced(alloc, env, a, x)
}

/// A comparison with the literal nil.
#[tactic(auto, unfolding(crate::specs::Code::Steps::nil_then))]
pub fn nil_then(
    alloc: Global,
    operator: BinaryOperator,
    base: Option<Base>,
) -> Result<Option<Typing>, AllocError>
    ensures { IfOk result (λ o. option_map typing_of o ≡ steps.nil_then operator (option_map base_of base)) }
{
    let Some(base) = base else {
        return Ok(None);
    };
    compared_with_nil(alloc, operator, base)
}

/// An operator of both operands.
#[tactic(auto, unfolding(crate::specs::Code::Steps::operands_then))]
pub fn operands_then(
    alloc: Global,
    env: Environment<'_>,
    operator: BinaryOperator,
    family: Family,
    x: Typing,
    y: Option<Typing>,
) -> Result<Option<Typing>, AllocError>
    ensures { IfOk result (λ o. option_map typing_of o ≡ steps.operands_then (environment_of env.entry) operator (family_of family) (typing_of x) (option_map typing_of y)) }
{
    let Some(y) = y else {
        discard_typing(x);
        return Ok(None);
    };
    operated(alloc, env, operator, family, x, y)
}

/// `&&` or `||` of both operands.
#[tactic(auto, unfolding(crate::specs::Code::Steps::joined_then))]
pub fn joined_then(
    alloc: Global,
    operator: BinaryOperator,
    x: Typing,
    y: Option<Typing>,
) -> Result<Option<Typing>, AllocError>
    ensures { IfOk result (λ o. option_map typing_of o ≡ steps.joined_then operator (typing_of x) (option_map typing_of y)) }
{
    let Some(y) = y else {
        discard_typing(x);
        return Ok(None);
    };
    joined(alloc, operator, x, y)
}

/// One of two values by a test.
#[tactic(auto, unfolding(crate::specs::Code::Steps::chosen_then))]
pub fn chosen_then(
    alloc: Global,
    env: Environment<'_>,
    test: Typing,
    x: Typing,
    y: Option<Typing>,
) -> Result<Option<Typing>, AllocError>
    ensures { IfOk result (λ o. option_map typing_of o ≡ steps.chosen_then (environment_of env.entry) (typing_of test) (typing_of x) (option_map typing_of y)) }
{
    let Some(y) = y else {
        discard_typing(test);
        discard_typing(x);
        return Ok(None);
    };
    chosen(alloc, env, test, x, y)
}

/// An array of these elements.
#[tactic(auto, unfolding(crate::specs::Code::Steps::array_then))]
pub fn array_then(
    alloc: Global,
    env: Environment<'_>,
    expected: Option<&CadType>,
    found: Option<Vec<Typing>>,
) -> Result<Option<Typing>, AllocError>
    ensures { IfOk result (λ o. option_map typing_of o ≡ steps.array_then (environment_of env.entry) (expected_of expected.entry) (option_map (λ v. map typing_of v.items) found)) }
{
    let Some(found) = found else {
        return Ok(None);
    };
    array_typed(alloc, env, expected_element(expected), found)
}

/// A dictionary of these entries.
#[tactic(auto, unfolding(crate::specs::Code::Steps::dictionary_then))]
pub fn dictionary_then(
    alloc: Global,
    env: Environment<'_>,
    expected: Option<&CadType>,
    found: Option<Vec<(Typing, Typing)>>,
) -> Result<Option<Typing>, AllocError>
    ensures { IfOk result (λ o. option_map typing_of o ≡ steps.dictionary_then (environment_of env.entry) (expected_of expected.entry) (option_map (λ v. map typings_of v.items) found)) }
{
    let Some(found) = found else {
        return Ok(None);
    };
    dictionary_typed(alloc, env, expected, found)
}

/// A call with these arguments.
#[tactic(auto, unfolding(crate::specs::Code::Steps::call_then))]
pub fn call_then(
    alloc: Global,
    made: Call,
    found: Option<Vec<Transferred>>,
) -> Result<Option<Typing>, AllocError>
    ensures { IfOk result (λ o. option_map typing_of o ≡ steps.call_then (call_view made) (option_map (λ v. tree.arguments_of (map argument_of v.items)) found)) }
{
    let Some(found) = found else {
        discard_call(made);
        return Ok(None);
    };
    call_typed(alloc, made, found)
}

/// What members and elements are taken of.
#[tactic(auto, unfolding(crate::specs::Code::Steps::received))]
pub fn received(base: Option<Base>) -> Result<Option<Receiver>, AllocError>
    ensures { IfOk result (λ o. option_map receiver_of o ≡ steps.received (option_map base_of base)) }
{
    let Some(base) = base else {
        return Ok(None);
    };
    receiver_in(base)
}

/// Where a member of what stands before the `.` stands.
#[tactic(auto, unfolding(crate::specs::Code::Steps::member_place_then))]
pub fn member_place_then(
    alloc: Global,
    env: Environment<'_>,
    name: &Name,
    base: Option<Base>,
) -> Result<Option<Base>, AllocError>
    ensures { IfOk result (λ o. option_map base_of o ≡ steps.member_place_then (environment_of env.entry) name.now (option_map base_of base)) }
{
    let Some(base) = base else {
        return Ok(None);
    };
    base_of_member(alloc, env, name, base)
}

/// Where the element of a receiver at an index stands.
#[tactic(auto, unfolding(crate::specs::Code::Steps::index_place_then))]
pub fn index_place_then(
    alloc: Global,
    env: Environment<'_>,
    r: Receiver,
    i: Option<Typing>,
) -> Result<Option<Base>, AllocError>
    ensures { IfOk result (λ o. option_map base_of o ≡ steps.index_place_then (environment_of env.entry) (receiver_of r) (option_map typing_of i)) }
{
    let Some(i) = i else {
        discard_receiver(r);
        return Ok(None);
    };
    index_base(alloc, env, r, i)
}

/// A call of a member of what stands before the `.`.
#[tactic(auto, unfolding(crate::specs::Code::Steps::member_call_then))]
pub fn member_call_then(
    alloc: Global,
    env: Environment<'_>,
    types: &[TypeAnnotation],
    name: &Name,
    base: Option<Base>,
) -> Result<Option<Call>, AllocError>
    ensures { IfOk result (λ o. option_map call_view o ≡ steps.member_call_then (environment_of env.entry) (s.annotations_of (map annotation_of types.now)) name.now (option_map base_of base)) }
{
    let Some(base) = base else {
        return Ok(None);
    };
    call_member(alloc, env, types, name, base)
}

/// A literal under `-`, with its sign.
#[tactic(auto, unfolding(crate::specs::Code::Steps::literal_of))]
pub fn literal_of(
    operator: UnaryOperator,
    expected: Option<&CadType>,
    a: &Expr,
) -> Option<Option<Typing>>
    ensures { option_map (option_map typing_of) result ≡ steps.literal_of operator (expected_of expected.entry) (expr_of a.now) }
{
    match operator {
        UnaryOperator::Negate => literal_under_minus(expected, a),
        UnaryOperator::Not => None,
        UnaryOperator::Dereference => None,
        UnaryOperator::Move => None,
        UnaryOperator::Destroy => None,
    }
}

/// Where the operand of an operator stands.
#[tactic(auto, unfolding(crate::specs::Code::Steps::operand_position))]
pub fn operand_position(operator: UnaryOperator) -> Position
    ensures { position_of result ≡ steps.operand_position operator }
{
    match operator {
        UnaryOperator::Negate => Position::Ordinary,
        UnaryOperator::Not => Position::Ordinary,
        UnaryOperator::Dereference => Position::Ordinary,
        UnaryOperator::Move => Position::Moved,
        UnaryOperator::Destroy => Position::Moved,
    }
}

/// What the operand of an operator expects.
#[tactic(auto, unfolding(crate::specs::Code::Steps::operand_expected))]
pub fn operand_expected<'a>(
    operator: UnaryOperator,
    expected: Option<&'a CadType>,
) -> Option<&'a CadType>
    ensures { expected_of result ≡ steps.operand_expected operator (expected_of expected.entry) }
{
    match operator {
        UnaryOperator::Negate => expected,
        UnaryOperator::Not => None,
        UnaryOperator::Dereference => None,
        UnaryOperator::Move => expected,
        UnaryOperator::Destroy => None,
    }
}

/// An operator of its operand.
#[tactic(auto, unfolding(crate::specs::Code::Steps::unary_then))]
pub fn unary_then(
    alloc: Global,
    env: Environment<'_>,
    operator: UnaryOperator,
    a: &Expr,
    x: Option<Typing>,
) -> Result<Option<Typing>, AllocError>
    ensures { IfOk result (λ o. option_map typing_of o ≡ steps.unary_then (environment_of env.entry) operator (expr_of a.now) (option_map typing_of x)) }
{
    let Some(x) = x else {
        return Ok(None);
    };
    match operator {
        UnaryOperator::Negate => negated_value(alloc, x),
        UnaryOperator::Not => inverted(alloc, x),
        UnaryOperator::Dereference => dereferenced(alloc, x),
        UnaryOperator::Move => Ok(taken(env, a, x)),
        UnaryOperator::Destroy => destroyed(alloc, env, x),
    }
}

/// Where the operand of a cast stands.
#[tactic(auto, unfolding(crate::specs::Code::Steps::cast_position))]
pub fn cast_position(kind: CastKind, position: Position) -> Position
    ensures { position_of result ≡ steps.cast_position kind (position_of position) }
{
    match kind {
        CastKind::Static => position,
        CastKind::Failable => Position::Ordinary,
        CastKind::Forced => position,
    }
}

/// What the operand of a cast expects.
#[tactic(auto, unfolding(crate::specs::Code::Steps::cast_expected))]
pub fn cast_expected<'a>(kind: CastKind, t: &'a CadType) -> Option<&'a CadType>
    ensures { expected_of result ≡ steps.cast_expected kind (pure_type t.now) }
{
    match kind {
        CastKind::Static => Some(t),
        CastKind::Failable => None,
        CastKind::Forced => None,
    }
}

/// A cast of its operand.
#[tactic(auto, unfolding(crate::specs::Code::Steps::cast_then))]
pub fn cast_then(
    alloc: Global,
    env: Environment<'_>,
    kind: CastKind,
    t: CadType,
    x: Option<Typing>,
) -> Result<Option<Typing>, AllocError>
    ensures { IfOk result (λ o. option_map typing_of o ≡ steps.cast_then (environment_of env.entry) kind (pure_type t) (option_map typing_of x)) }
{
    let Some(x) = x else {
        discard_type(t);
        return Ok(None);
    };
    match kind {
        CastKind::Static => cast_static(alloc, env, t, x),
        CastKind::Failable => cast_failable(alloc, env, t, x),
        CastKind::Forced => cast_forced(alloc, env, t, x),
    }
}

/// A reference to a place.
#[tactic(auto, unfolding(crate::specs::Code::Steps::borrow_then))]
pub fn borrow_then(
    alloc: Global,
    env: Environment<'_>,
    a: &Expr,
    written: &TypeExpr,
    base: Option<Base>,
) -> Result<Option<Typing>, AllocError>
    ensures { IfOk result (λ o. option_map typing_of o ≡ steps.borrow_then (environment_of env.entry) (expr_of a.now) (type_of written.now) (option_map base_of base)) }
{
    let Some(base) = base else {
        return Ok(None);
    };
    borrowed(alloc, env, a, written, base)
}

/// `??` of both operands.
#[tactic(auto, unfolding(crate::specs::Code::Steps::coalesced_then))]
pub fn coalesced_then(
    alloc: Global,
    env: Environment<'_>,
    x: Typing,
    y: Option<Typing>,
) -> Result<Option<Typing>, AllocError>
    ensures { IfOk result (λ o. option_map typing_of o ≡ steps.coalesced_then (environment_of env.entry) (typing_of x) (option_map typing_of y)) }
{
    let Some(y) = y else {
        discard_typing(x);
        return Ok(None);
    };
    coalesced(alloc, env, x, y)
}

/// The answer of a form.
#[tactic(auto, unfolding(crate::specs::Code::Steps::flat))]
pub fn flat(found: Option<Option<Typing>>) -> Option<Typing>
    ensures { option_map typing_of result ≡ steps.flat (option_map (option_map typing_of) found) }
{
    match found {
        Some(found) => found,
        None => None,
    }
}
