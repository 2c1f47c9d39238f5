// Operators, and forms that choose.
ghost use Rattle.std.specs.Prelude.{◌≡◌, ◌&&◌, ◌||◌, not, false, IfOk, option_map};
ghost use Rattle.cad_syntax.specs.Types.{pure_type, optional};
ghost use Rattle.cad_types.specs.Declarations.{resource};
ghost use Rattle.cad_types.specs.Optionals as optionals;
ghost use Rattle.cad_types.specs.Views.{declarations};
ghost use Rattle.cad_grammar.specs.Views.{expr_of};
ghost use Rattle.cad_declarations.specs.Typed as tree;
ghost use Rattle.cad_declarations.specs.Views.{term_of};
ghost use Rattle.cad_environment.specs.Views.{environment_of, typing_of, base_of, receiver_of, hidden_of};
ghost use Rattle.cad_typing.specs.Environments as envs;
ghost use Rattle.cad_typing.specs.Environments.{◌>=>◌};
ghost use Rattle.cad_typing.specs.Operators as spec;
ghost use Rattle.cad_typing.specs.Receivers as receivers;
ghost use Rattle.cad_typing.specs.Types as types;

use cad_builtins::is_comparable;
use cad_declarations::{Term, boxed_type, discard_term, discard_type};
use cad_environment::{
    Base, Environment, Hidden, Receiver, Typing, closed, discard_hidden, discard_receiver,
    discard_typing, is_self, receiver_in, typed,
};
use cad_grammar::{BinaryOperator, Expr, UnaryOperator};
use cad_infer_literals::{signed_fixed, signed_whole};
use cad_infer_terms::{
    coalesce_typed, conditional_typed, destroy_typed, force_typed, into_term, nil_term, of_bool,
    of_left_type, unary_typed,
};
use cad_parameters::is_owned;
use cad_syntax::{Basic, CadType};
use cad_type_classes::{
    content, fits, is_below, is_integer_type, is_never_type, is_number_type, is_optional_type,
    is_ordered, is_same_basic, is_signed_type,
};
use cad_types::DeclaredTypes;
use std::alloc::{AllocError, Global};

/// A literal directly under `-`, with its sign: None of any other form, and in it None where the literal has no type.
pub fn literal_under_minus(expected: Option<&CadType>, a: &Expr) -> Option<Option<Typing>>
    ensures { option_map (option_map typing_of) result ≡ spec.literal_under_minus (option_map (λ t. pure_type t.now) expected.entry) (expr_of a.now) }
{
    match a {
        Expr::Whole { value, hexadecimal } => { Some(signed_whole(expected, *value, *hexadecimal)) }
        Expr::Fixed(value) => Some(signed_fixed(expected, *value)),
        _ => None,
    }
}

/// `-a` of a value that is no literal: None where its type has no numbers below 0.
pub fn negated_value(alloc: Global, x: Typing) -> Result<Option<Typing>, AllocError>
    ensures { IfOk result (λ o. option_map typing_of o ≡ spec.negated_value (typing_of x)) }
{
    let Typing { term, declared } = x;
    if is_signed_type(&declared) {
        unary_typed(alloc, UnaryOperator::Negate, term, declared)
    } else {
        discard_term(term);
        discard_type(declared);
        Ok(None)
    }
}

/// Whether a type is Bool or Never.
fn is_test(t: &CadType) -> bool
    ensures { result ≡ spec.is_test (pure_type t.now) }
{
    is_never_type(t) || is_bool(t)
}

fn is_bool(t: &CadType) -> bool
    ensures { result ≡ types.is_same_basic (pure_type t.now) types.bool }
{
    is_same_basic(t, &CadType::Basic(Basic::Bool))
}

/// `!a`: None where a is no Bool.
pub fn inverted(alloc: Global, x: Typing) -> Result<Option<Typing>, AllocError>
    ensures { IfOk result (λ o. option_map typing_of o ≡ spec.inverted (typing_of x)) }
{
    if is_test(&x.declared) {
        unary_typed(
            alloc,
            UnaryOperator::Not,
            into_term(x),
            CadType::Basic(Basic::Bool),
        )
    } else {
        discard_typing(x);
        Ok(None)
    }
}

/// `destroy a`: None where a is no resource, nor an optional or container of one.
pub fn destroyed(
    alloc: Global,
    env: Environment<'_>,
    x: Typing,
) -> Result<Option<Typing>, AllocError>
    ensures { IfOk result (λ o. option_map typing_of o ≡ spec.destroyed (environment_of env.entry) (typing_of x)) }
{
    if env.is_resource(&x.declared) {
        destroy_typed(alloc, into_term(x))
    } else {
        discard_typing(x);
        Ok(None)
    }
}

/// Whether a form may stand under `<-`: a variable, a call, a `create` or a field of a transaction.
#[tactic(auto, using(crate::proofs::Moves::field_of_self))]
fn may_be_moved(env: Environment<'_>, a: &Expr) -> bool
    ensures { result ≡ spec.may_be_moved (environment_of env.entry) (expr_of a.now) }
{
    match a {
        Expr::Name(_) | Expr::Call { .. } | Expr::Create { .. } => true,
        Expr::Member(base, _) => is_self(base),
        _ => false,
    }
}

/// `<-a`: None where the form may not stand there, or is no resource.
pub fn taken(env: Environment<'_>, a: &Expr, x: Typing) -> Option<Typing>
    ensures { option_map typing_of result ≡ spec.taken (environment_of env.entry) (expr_of a.now) (typing_of x) }
{
    if may_be_moved(env, a) && env.is_resource(&x.declared) {
        Some(x)
    } else {
        discard_typing(x);
        None
    }
}

/// Whether a form is a call, or stands under `<-`.
fn is_call_or_move(a: &Expr) -> bool
    ensures { result ≡ spec.is_call_or_move (expr_of a.now) }
{
    match a {
        Expr::Call { .. } => true,
        Expr::Unary(operator, _) => matches!(operator, UnaryOperator::Move),
        _ => false,
    }
}

/// A copy of an optional's content.
fn own_content(t: &CadType) -> Result<Option<CadType>, AllocError>
    ensures { IfOk result (λ o. option_map pure_type o ≡ types.content (pure_type t.now)) }
{
    match content(t) {
        Some(part) => Ok(Some(part.clone()?)),
        None => Ok(None),
    }
}

/// `a!`: the content of an optional. None of any other type, and where a resource is no call or move.
pub fn forced(
    alloc: Global,
    env: Environment<'_>,
    a: &Expr,
    x: Typing,
) -> Result<Option<Typing>, AllocError>
    ensures { IfOk result (λ o. option_map typing_of o ≡ spec.forced (environment_of env.entry) (expr_of a.now) (typing_of x)) }
{
    match own_content(&x.declared) {
        Ok(found) => forced_if(alloc, env, a, x, found),
        Err(error) => {
            discard_typing(x);
            Err(error)
        }
    }
}

/// `a!` of a content's type, if there is one.
fn forced_if(
    alloc: Global,
    env: Environment<'_>,
    a: &Expr,
    x: Typing,
    found: Option<CadType>,
) -> Result<Option<Typing>, AllocError>
    ensures { IfOk result (λ o. option_map typing_of o ≡ (option_map pure_type found >=> (λ t. envs.when (not (resource (envs.kinds (environment_of env.entry)) t) || spec.is_call_or_move (expr_of a.now)) (envs.typed (tree.force (typing_of x).term) t)))) }
{
    match found {
        Some(t) => forced_to(alloc, env, a, into_term(x), t),
        None => {
            discard_typing(x);
            Ok(None)
        }
    }
}

/// `a!` of a content's type.
fn forced_to(
    alloc: Global,
    env: Environment<'_>,
    a: &Expr,
    x: Term,
    t: CadType,
) -> Result<Option<Typing>, AllocError>
    ensures { IfOk result (λ o. option_map typing_of o ≡ envs.when (not (resource (envs.kinds (environment_of env.entry)) (pure_type t)) || spec.is_call_or_move (expr_of a.now)) (envs.typed (tree.force (term_of x)) (pure_type t))) }
{
    if !env.is_resource(&t) || is_call_or_move(a) {
        force_typed(alloc, x, t)
    } else {
        discard_term(x);
        discard_type(t);
        Ok(None)
    }
}

/// `+`, `-`, `*`, `/` or `%`: None where the operands are no numbers of one kind.
pub fn arithmetic(
    alloc: Global,
    operator: BinaryOperator,
    x: Typing,
    y: Typing,
) -> Result<Option<Typing>, AllocError>
    ensures { IfOk result (λ o. option_map typing_of o ≡ spec.arithmetic types.is_number_type operator (typing_of x) (typing_of y)) }
{
    if is_number_type(&x.declared) && is_same_basic(&x.declared, &y.declared) {
        of_left_type(alloc, operator, x, y)
    } else {
        discard_typing(x);
        discard_typing(y);
        Ok(None)
    }
}

/// `|`, `^` or `&`: None where the operands are no integers of one kind.
pub fn bitwise(
    alloc: Global,
    operator: BinaryOperator,
    x: Typing,
    y: Typing,
) -> Result<Option<Typing>, AllocError>
    ensures { IfOk result (λ o. option_map typing_of o ≡ spec.arithmetic types.is_integer_type operator (typing_of x) (typing_of y)) }
{
    if is_integer_type(&x.declared) && is_same_basic(&x.declared, &y.declared) {
        of_left_type(alloc, operator, x, y)
    } else {
        discard_typing(x);
        discard_typing(y);
        Ok(None)
    }
}

/// `<`, `<=`, `>` or `>=`: None where the operands aren't of one ordered type.
pub fn ordered(
    alloc: Global,
    operator: BinaryOperator,
    x: Typing,
    y: Typing,
) -> Result<Option<Typing>, AllocError>
    ensures { IfOk result (λ o. option_map typing_of o ≡ spec.ordered operator (typing_of x) (typing_of y)) }
{
    if is_ordered(&x.declared) && is_same_basic(&x.declared, &y.declared) {
        of_bool(alloc, operator, x, y)
    } else {
        discard_typing(x);
        discard_typing(y);
        Ok(None)
    }
}

/// Whether one type is below the other, and both have `==`.
fn may_be_equal(types: &DeclaredTypes, t: &CadType, u: &CadType) -> bool
    ensures { result ≡ spec.may_be_equal (declarations types.now) (pure_type t.now) (pure_type u.now) }
{
    (is_below(types, t, u) || is_below(types, u, t))
        && is_comparable(types, t)
        && is_comparable(types, u)
}

/// `==` or `!=`: None where the operands can't be compared.
pub fn compared(
    alloc: Global,
    env: Environment<'_>,
    operator: BinaryOperator,
    x: Typing,
    y: Typing,
) -> Result<Option<Typing>, AllocError>
    ensures { IfOk result (λ o. option_map typing_of o ≡ spec.compared (environment_of env.entry) operator (typing_of x) (typing_of y)) }
{
    if may_be_equal(env.kinds(), &x.declared, &y.declared) {
        of_bool(alloc, operator, x, y)
    } else {
        discard_typing(x);
        discard_typing(y);
        Ok(None)
    }
}

fn is_negation(operator: BinaryOperator) -> bool
    ensures { result ≡ spec.is_negation operator }
{
    matches!(operator, BinaryOperator::NotEqual)
}

/// `==` or `!=` beside the literal nil: None where the place isn't owned or is no optional.
fn nil_test(
    alloc: Global,
    operator: BinaryOperator,
    r: Receiver,
) -> Result<Option<Typing>, AllocError>
    ensures { IfOk result (λ o. option_map typing_of o ≡ spec.nil_test operator (receiver_of r)) }
{
    if is_owned(&r.grant) && is_optional_type(&r.declared) {
        nil_test_of(alloc, operator, r)
    } else {
        discard_receiver(r);
        Ok(None)
    }
}

/// The same of a place that may stand there.
fn nil_test_of(
    alloc: Global,
    operator: BinaryOperator,
    r: Receiver,
) -> Result<Option<Typing>, AllocError>
    ensures { IfOk result (λ o. option_map typing_of o ≡ envs.typed (receivers.closed (receiver_of r).hidden (tree.is_nil (receiver_of r).place (spec.is_negation operator))) types.bool) }
{
    let Receiver {
        hidden,
        place,
        declared,
        grant,
    } = r;
    discard_type(declared);
    drop(grant);
    match nil_term(alloc, place, is_negation(operator)) {
        Ok(test) => closed_test(alloc, hidden, test),
        Err(error) => {
            discard_hidden(hidden);
            Err(error)
        }
    }
}

/// A test whose place is taken of a hidden variable.
fn closed_test(
    alloc: Global,
    hidden: Option<Hidden>,
    test: Term,
) -> Result<Option<Typing>, AllocError>
    ensures { IfOk result (λ o. option_map typing_of o ≡ envs.typed (receivers.closed (option_map hidden_of hidden) (term_of test)) types.bool) }
{
    let term = closed(alloc, hidden, test)?;
    Ok(typed(term, CadType::Basic(Basic::Bool)))
}

/// `==` or `!=` beside the literal nil: None where what stands there is no value, isn't owned or is no optional.
pub fn compared_with_nil(
    alloc: Global,
    operator: BinaryOperator,
    base: Base,
) -> Result<Option<Typing>, AllocError>
    ensures { IfOk result (λ o. option_map typing_of o ≡ spec.compared_with_nil operator (base_of base)) }
{
    match receiver_in(base)? {
        Some(r) => nil_test(alloc, operator, r),
        None => Ok(None),
    }
}

/// `&&` or `||`: None where an operand is no Bool.
pub fn joined(
    alloc: Global,
    operator: BinaryOperator,
    x: Typing,
    y: Typing,
) -> Result<Option<Typing>, AllocError>
    ensures { IfOk result (λ o. option_map typing_of o ≡ spec.joined operator (typing_of x) (typing_of y)) }
{
    if is_test(&x.declared) && is_test(&y.declared) {
        of_bool(alloc, operator, x, y)
    } else {
        discard_typing(x);
        discard_typing(y);
        Ok(None)
    }
}

/// The upper of two types: None where neither is below the other.
fn upper<'a>(types: &DeclaredTypes, t: &'a CadType, u: &'a CadType) -> Option<&'a CadType>
    ensures { option_map (λ found. pure_type found.now) result ≡ spec.upper (declarations types.now) (pure_type t.now) (pure_type u.now) }
{
    if is_below(types, t, u) {
        Some(u)
    } else if is_below(types, u, t) {
        Some(t)
    } else {
        None
    }
}

/// A copy of it.
fn own_upper(types: &DeclaredTypes, t: &CadType, u: &CadType) -> Result<Option<CadType>, AllocError>
    ensures { IfOk result (λ o. option_map pure_type o ≡ spec.upper (declarations types.now) (pure_type t.now) (pure_type u.now)) }
{
    match upper(types, t, u) {
        Some(found) => Ok(Some(found.clone()?)),
        None => Ok(None),
    }
}

/// A test, and what it chooses between.
#[derive(Drop)]
pub(crate) struct Choice {
    pub test: Typing,
    pub left: Typing,
    pub right: Typing,
}

/// Lets a choice go.
fn discard_choice(choice: Choice) {
    discard_typing(choice.test);
    discard_typing(choice.left);
    discard_typing(choice.right)
}

/// `test ? x : y`: None where the test is no Bool, a part is a resource, or neither part's type is below the other's.
pub fn chosen(
    alloc: Global,
    env: Environment<'_>,
    test: Typing,
    x: Typing,
    y: Typing,
) -> Result<Option<Typing>, AllocError>
    ensures { IfOk result (λ o. option_map typing_of o ≡ spec.chosen (environment_of env.entry) (typing_of test) (typing_of x) (typing_of y)) }
{
    let parts = Choice {
        test,
        left: x,
        right: y,
    };
    chosen_of(alloc, env, parts)
}

/// The same of its parts.
fn chosen_of(
    alloc: Global,
    env: Environment<'_>,
    parts: Choice,
) -> Result<Option<Typing>, AllocError>
    ensures { IfOk result (λ o. option_map typing_of o ≡ spec.chosen (environment_of env.entry) (typing_of parts.test) (typing_of parts.left) (typing_of parts.right)) }
{
    if may_be_chosen(env, &parts.test, &parts.left, &parts.right) {
        choice_of_parts(alloc, env, parts)
    } else {
        discard_choice(parts);
        Ok(None)
    }
}

/// Whether a test is a Bool, and the parts are no resources.
fn may_be_chosen(env: Environment<'_>, test: &Typing, x: &Typing, y: &Typing) -> bool
    ensures { result ≡ (spec.is_test (typing_of test.now).type && (not (resource (envs.kinds (environment_of env.entry)) (typing_of x.now).type) && not (resource (envs.kinds (environment_of env.entry)) (typing_of y.now).type))) }
{
    is_test(&test.declared) && !env.is_resource(&x.declared) && !env.is_resource(&y.declared)
}

/// The choice of two parts, of the upper of their types.
fn choice_of_parts(
    alloc: Global,
    env: Environment<'_>,
    parts: Choice,
) -> Result<Option<Typing>, AllocError>
    ensures { IfOk result (λ o. option_map typing_of o ≡ (spec.upper (envs.kinds (environment_of env.entry)) (typing_of parts.left).type (typing_of parts.right).type >=> (λ t. envs.typed (tree.conditional (typing_of parts.test).term (typing_of parts.left).term (typing_of parts.right).term) t))) }
{
    match own_upper(env.kinds(), &parts.left.declared, &parts.right.declared) {
        Ok(found) => choice_if(alloc, parts, found),
        Err(error) => {
            discard_choice(parts);
            Err(error)
        }
    }
}

/// The choice of two parts, if it has a type.
fn choice_if(
    alloc: Global,
    parts: Choice,
    found: Option<CadType>,
) -> Result<Option<Typing>, AllocError>
    ensures { IfOk result (λ o. option_map typing_of o ≡ (option_map pure_type found >=> (λ t. envs.typed (tree.conditional (typing_of parts.test).term (typing_of parts.left).term (typing_of parts.right).term) t))) }
{
    match found {
        Some(declared) => choice_typed(alloc, parts, declared),
        None => {
            discard_choice(parts);
            Ok(None)
        }
    }
}

/// The choice of two parts, with its type.
fn choice_typed(
    alloc: Global,
    parts: Choice,
    declared: CadType,
) -> Result<Option<Typing>, AllocError>
    ensures { IfOk result (λ o. option_map typing_of o ≡ envs.typed (tree.conditional (typing_of parts.test).term (typing_of parts.left).term (typing_of parts.right).term) (pure_type declared)) }
{
    let Choice { test, left, right } = parts;
    conditional_typed(
        alloc,
        into_term(test),
        into_term(left),
        into_term(right),
        declared,
    )
}

/// `x ?? y` of a content's type: the content where y fits it, else the optional. None where y fits neither.
fn coalesced_to(
    alloc: Global,
    env: Environment<'_>,
    x: Term,
    t: CadType,
    y: Typing,
) -> Result<Option<Typing>, AllocError>
    ensures { IfOk result (λ o. option_map typing_of o ≡ spec.coalesced_to (environment_of env.entry) (record { term = term_of x; type = optional (pure_type t) }) (pure_type t) (typing_of y)) }
{
    if fits(env.kinds(), &y.declared, &t) {
        coalesce_typed(alloc, x, into_term(y), true, t)
    } else {
        coalesced_whole(alloc, env, x, t, y)
    }
}

/// `x ?? y` of an optional of a content's type. None where y doesn't fit it.
fn coalesced_whole(
    alloc: Global,
    env: Environment<'_>,
    x: Term,
    t: CadType,
    y: Typing,
) -> Result<Option<Typing>, AllocError>
    ensures { IfOk result (λ o. option_map typing_of o ≡ envs.when (optionals.fits (envs.kinds (environment_of env.entry)) (typing_of y).type (optional (pure_type t))) (envs.typed (tree.coalesce (term_of x) (typing_of y).term false (optional (pure_type t))) (optional (pure_type t)))) }
{
    match optional_of(alloc, t) {
        Ok(whole) => coalesced_as(alloc, env, x, whole, y),
        Err(error) => {
            discard_term(x);
            discard_typing(y);
            Err(error)
        }
    }
}

/// An optional of a type.
fn optional_of(alloc: Global, t: CadType) -> Result<CadType, AllocError>
    ensures { IfOk result (λ whole. pure_type whole ≡ optional (pure_type t)) }
{
    Ok(CadType::Optional(boxed_type(alloc, t)?))
}

/// `x ?? y` of x's type. None where y doesn't fit it.
fn coalesced_as(
    alloc: Global,
    env: Environment<'_>,
    x: Term,
    whole: CadType,
    y: Typing,
) -> Result<Option<Typing>, AllocError>
    ensures { IfOk result (λ o. option_map typing_of o ≡ envs.when (optionals.fits (envs.kinds (environment_of env.entry)) (typing_of y).type (pure_type whole)) (envs.typed (tree.coalesce (term_of x) (typing_of y).term false (pure_type whole)) (pure_type whole))) }
{
    if fits(env.kinds(), &y.declared, &whole) {
        coalesce_typed(alloc, x, into_term(y), false, whole)
    } else {
        discard_term(x);
        discard_type(whole);
        discard_typing(y);
        Ok(None)
    }
}

/// `x ?? y`: None where x is no optional, y fits neither its content nor itself, or it is a resource and y isn't of type
/// Never.
pub fn coalesced(
    alloc: Global,
    env: Environment<'_>,
    x: Typing,
    y: Typing,
) -> Result<Option<Typing>, AllocError>
    ensures { IfOk result (λ o. option_map typing_of o ≡ (types.content (typing_of x).type >=> (λ t. spec.coalesced (environment_of env.entry) (typing_of x) t (typing_of y)))) }
{
    match own_content(&x.declared) {
        Ok(found) => coalesced_if(alloc, env, x, found, y),
        Err(error) => {
            discard_typing(x);
            discard_typing(y);
            Err(error)
        }
    }
}

/// `x ?? y` of a content's type, if there is one.
fn coalesced_if(
    alloc: Global,
    env: Environment<'_>,
    x: Typing,
    found: Option<CadType>,
    y: Typing,
) -> Result<Option<Typing>, AllocError>
    ensures { IfOk result (λ o. option_map typing_of o ≡ (option_map pure_type found >=> (λ t. spec.coalesced (environment_of env.entry) (typing_of x) t (typing_of y)))) }
{
    match found {
        Some(t) => coalesced_with(alloc, env, into_term(x), t, y),
        None => {
            discard_typing(x);
            discard_typing(y);
            Ok(None)
        }
    }
}

/// `x ?? y` of a content's type: None where it is a resource and y isn't of type Never.
fn coalesced_with(
    alloc: Global,
    env: Environment<'_>,
    x: Term,
    t: CadType,
    y: Typing,
) -> Result<Option<Typing>, AllocError>
    ensures { IfOk result (λ o. option_map typing_of o ≡ spec.coalesced (environment_of env.entry) (record { term = term_of x; type = optional (pure_type t) }) (pure_type t) (typing_of y)) }
{
    if !env.is_resource(&t) || is_never_type(&y.declared) {
        coalesced_to(alloc, env, x, t, y)
    } else {
        discard_term(x);
        discard_type(t);
        discard_typing(y);
        Ok(None)
    }
}
