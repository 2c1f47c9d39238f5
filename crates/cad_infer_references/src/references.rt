// References and casts.
ghost use Rattle.std.specs.Prelude.{◌≡◌, ◌&&◌, ◌||◌, not, true, false, IfOk, option_map};
ghost use Rattle.cad_syntax.specs.Types.{pure_type, reference, optional};
ghost use Rattle.cad_types.specs.Below.{below};
ghost use Rattle.cad_types.specs.Views.{declarations};
ghost use Rattle.cad_grammar.specs.Views.{expr_of, type_of};
ghost use Rattle.cad_declarations.specs.Formed as formed;
ghost use Rattle.cad_declarations.specs.Typed as tree;
ghost use Rattle.cad_declarations.specs.Views.{term_of};
ghost use Rattle.cad_environment.specs.Views.{environment_of, typing_of, base_of, receiver_of};
ghost use Rattle.cad_typing.specs.Environments as envs;
ghost use Rattle.cad_typing.specs.Environments.{◌>=>◌};
ghost use Rattle.cad_typing.specs.Receivers as receivers;
ghost use Rattle.cad_typing.specs.References as spec;
ghost use Rattle.cad_typing.specs.Types as types;
ghost use Rattle.cad_infer_references.specs.Views.{asked_of};

use cad_declarations::{Term, boxed_type, discard_term, discard_type};
use cad_environment::{
    Base, Environment, Receiver, Typing, closed, discard_base, discard_hidden, discard_receiver,
    discard_typing, is_contract_type, is_granted, is_self, receiver_in, typed,
};
use cad_grammar::{CastKind, Expr, TypeExpr, UnaryOperator};
use cad_infer_terms::{borrow_term, cast_typed, into_term, unary_typed};
use cad_parameters::is_owned;
use cad_scopes::formed_type;
use cad_syntax::{Authorization, CadType};
use cad_type_classes::{content, core_of, fits, is_below, is_copied};
use cad_types::{DeclaredTypes, is_resource};
use std::alloc::{AllocError, Global};

/// A reference type as it is written, or an optional of one.
#[derive(Drop)]
pub(crate) struct Asked {
    pub grant: Authorization,
    pub target: CadType,
    pub is_optional: bool,
}

/// Lets go what is asked for.
fn discard_asked(asked: Asked) {
    discard_type(asked.target)
}

/// What a type asks for: None where it is no reference, nor an optional of one.
fn asked_type(t: CadType) -> Option<Asked>
    ensures { option_map asked_of result ≡ spec.asked_type (pure_type t) }
{
    match t {
        CadType::Optional(part) => reference_asked(true, Box::into_inner(part)),
        CadType::Reference(grant, target) => Some(Asked {
            grant,
            target: Box::into_inner(target),
            is_optional: false,
        }),
        t => {
            discard_type(t);
            None
        }
    }
}

fn reference_asked(is_optional: bool, t: CadType) -> Option<Asked>
    ensures { option_map asked_of result ≡ spec.asked is_optional (pure_type t) }
{
    match t {
        CadType::Reference(grant, target) => Some(Asked {
            grant,
            target: Box::into_inner(target),
            is_optional,
        }),
        t => {
            discard_type(t);
            None
        }
    }
}

/// The reference that is asked for, of a place that isn't optional.
fn plain_reference(alloc: Global, r: Receiver, x: Asked) -> Result<Option<Typing>, AllocError>
    ensures { IfOk result (λ o. option_map typing_of o ≡ envs.typed (spec.borrow_term (receiver_of r) (asked_of x) false false) (reference x.grant (pure_type x.target))) }
{
    match reference_to(alloc, &x) {
        Ok(declared) => reference_typed(alloc, r, x, false, false, declared),
        Err(error) => {
            discard_receiver(r);
            discard_asked(x);
            Err(error)
        }
    }
}

/// The reference that is asked for, of an optional place.
fn optional_reference(
    alloc: Global,
    r: Receiver,
    x: Asked,
    takes_off: bool,
) -> Result<Option<Typing>, AllocError>
    ensures { IfOk result (λ o. option_map typing_of o ≡ envs.typed (spec.borrow_term (receiver_of r) (asked_of x) takes_off true) (optional (reference x.grant (pure_type x.target)))) }
{
    match optional_to(alloc, &x) {
        Ok(declared) => reference_typed(alloc, r, x, takes_off, true, declared),
        Err(error) => {
            discard_receiver(r);
            discard_asked(x);
            Err(error)
        }
    }
}

/// The reference that is asked for, with its type.
fn reference_typed(
    alloc: Global,
    r: Receiver,
    x: Asked,
    takes_off: bool,
    gives_optional: bool,
    declared: CadType,
) -> Result<Option<Typing>, AllocError>
    ensures { IfOk result (λ o. option_map typing_of o ≡ envs.typed (spec.borrow_term (receiver_of r) (asked_of x) takes_off gives_optional) (pure_type declared)) }
{
    match borrowed_term(alloc, r, x, takes_off, gives_optional) {
        Ok(term) => Ok(typed(term, declared)),
        Err(error) => {
            discard_type(declared);
            Err(error)
        }
    }
}

/// The type of the reference that is asked for.
fn reference_to(alloc: Global, x: &Asked) -> Result<CadType, AllocError>
    ensures { IfOk result (λ t. pure_type t ≡ reference x.now.grant (pure_type x.now.target)) }
{
    let grant = x.grant.clone()?;
    let target = boxed_type(alloc, x.target.clone()?)?;
    Ok(CadType::Reference(grant, target))
}

/// The type of an optional of it.
fn optional_to(alloc: Global, x: &Asked) -> Result<CadType, AllocError>
    ensures { IfOk result (λ t. pure_type t ≡ optional (reference x.now.grant (pure_type x.now.target))) }
{
    let reference = reference_to(alloc, x)?;
    Ok(CadType::Optional(boxed_type(alloc, reference)?))
}

/// The term of the reference that is asked for.
fn borrowed_term(
    alloc: Global,
    r: Receiver,
    x: Asked,
    takes_off: bool,
    gives_optional: bool,
) -> Result<Term, AllocError>
    ensures { IfOk result (λ t. term_of t ≡ spec.borrow_term (receiver_of r) (asked_of x) takes_off gives_optional) }
{
    let Receiver {
        hidden,
        place,
        declared,
        grant: _grant,
    } = r;
    discard_type(declared);
    let Asked {
        grant,
        target,
        is_optional: _is_optional,
    } = x;
    match borrow_term(alloc, place, grant, target, takes_off, gives_optional) {
        Ok(term) => closed(alloc, hidden, term),
        Err(error) => {
            discard_hidden(hidden);
            Err(error)
        }
    }
}

/// The reference to a place. Of an optional it is optional, however it is written: one optional is taken off where the
/// content is below the target, else none.
#[tactic(auto, using(crate::proofs::Borrows::at_plain, crate::proofs::Borrows::at_optional))]
fn borrow_at(
    alloc: Global,
    types: &DeclaredTypes,
    r: Receiver,
    x: Asked,
) -> Result<Option<Typing>, AllocError>
    ensures { IfOk result (λ o. option_map typing_of o ≡ spec.borrow_at (declarations types.now) (receiver_of r) (asked_of x) (pure_type r.declared)) }
{
    let Some(t) = content(&r.declared) else {
        return borrow_plain(alloc, types, r, x);
    };
    let takes_off = is_below(types, t, &x.target);
    borrow_optional(alloc, types, r, x, takes_off)
}

/// The reference to an optional place, from which one optional is taken off or none.
fn borrow_optional(
    alloc: Global,
    types: &DeclaredTypes,
    r: Receiver,
    x: Asked,
    takes_off: bool,
) -> Result<Option<Typing>, AllocError>
    ensures { IfOk result (λ o. option_map typing_of o ≡ envs.when (takes_off || below (declarations types.now) (pure_type r.declared) (pure_type x.target)) (envs.typed (spec.borrow_term (receiver_of r) (asked_of x) takes_off true) (optional (reference x.grant (pure_type x.target))))) }
{
    if takes_off || is_below(types, &r.declared, &x.target) {
        optional_reference(alloc, r, x, takes_off)
    } else {
        discard_receiver(r);
        discard_asked(x);
        Ok(None)
    }
}

/// The reference to a place that isn't optional.
fn borrow_plain(
    alloc: Global,
    types: &DeclaredTypes,
    r: Receiver,
    x: Asked,
) -> Result<Option<Typing>, AllocError>
    ensures { IfOk result (λ o. option_map typing_of o ≡ envs.when (not x.is_optional && below (declarations types.now) (pure_type r.declared) (pure_type x.target)) (envs.typed (spec.borrow_term (receiver_of r) (asked_of x) false false) (reference x.grant (pure_type x.target)))) }
{
    if !x.is_optional && is_below(types, &r.declared, &x.target) {
        plain_reference(alloc, r, x)
    } else {
        discard_receiver(r);
        discard_asked(x);
        Ok(None)
    }
}

/// Whether a place may be borrowed: it is no reference, in whatever optionals.
fn may_be_borrowed(r: &Receiver) -> bool
    ensures { result ≡ spec.may_be_borrowed (receiver_of r.now) }
{
    is_owned(&r.grant) && !is_reference(core_of(&r.declared))
}

fn is_reference(t: &CadType) -> bool
    ensures { result ≡ formed.is_reference (pure_type t.now) }
{
    matches!(t, CadType::Reference(_, _))
}

/// Whether a place is `self` of a contract, which is a receiver alone.
fn is_self_of_contract(env: Environment<'_>, a: &Expr, r: &Receiver) -> bool
    ensures { result ≡ spec.is_self_of_contract (environment_of env.entry) (expr_of a.now) (receiver_of r.now) }
{
    is_self(a) && is_contract_type(env, &r.declared)
}

/// The reference to a place that may be borrowed.
fn borrow_receiver(
    alloc: Global,
    env: Environment<'_>,
    a: &Expr,
    x: Asked,
    r: Receiver,
) -> Result<Option<Typing>, AllocError>
    ensures { IfOk result (λ o. option_map typing_of o ≡ spec.borrow_receiver (environment_of env.entry) (expr_of a.now) (asked_of x) (receiver_of r)) }
{
    if may_be_borrowed(&r) && !is_self_of_contract(env, a, &r) {
        borrow_at(alloc, env.kinds(), r, x)
    } else {
        discard_receiver(r);
        discard_asked(x);
        Ok(None)
    }
}

/// `&a as R`: None where R is no reference type that is rightly formed, nor an optional of one, or the place may not be
/// borrowed so.
pub fn borrowed(
    alloc: Global,
    env: Environment<'_>,
    a: &Expr,
    written: &TypeExpr,
    base: Base,
) -> Result<Option<Typing>, AllocError>
    ensures { IfOk result (λ o. option_map typing_of o ≡ spec.borrowed (environment_of env.entry) (expr_of a.now) (type_of written.now) (base_of base)) }
{
    match asked_in(alloc, env, written) {
        Ok(found) => borrowed_if(alloc, env, a, found, base),
        Err(error) => {
            discard_base(base);
            Err(error)
        }
    }
}

/// What is asked for, as it is written: None where it is no reference type that is rightly formed, nor an optional of one.
fn asked_in(
    alloc: Global,
    env: Environment<'_>,
    written: &TypeExpr,
) -> Result<Option<Asked>, AllocError>
    ensures { IfOk result (λ o. option_map asked_of o ≡ (formed.formed_type (envs.scope (environment_of env.entry)) (type_of written.now) >=> spec.asked_type)) }
{
    match formed_type(alloc, env.scope(), written)? {
        Some(t) => Ok(asked_type(t)),
        None => Ok(None),
    }
}

/// The reference to a place, if one is asked for.
fn borrowed_if(
    alloc: Global,
    env: Environment<'_>,
    a: &Expr,
    found: Option<Asked>,
    base: Base,
) -> Result<Option<Typing>, AllocError>
    ensures { IfOk result (λ o. option_map typing_of o ≡ (option_map asked_of found >=> (λ x. receivers.receiver_in (base_of base) >=> spec.borrow_receiver (environment_of env.entry) (expr_of a.now) x))) }
{
    match found {
        Some(x) => borrow_base(alloc, env, a, x, base),
        None => {
            discard_base(base);
            Ok(None)
        }
    }
}

/// The reference that is asked for, to what stands there.
fn borrow_base(
    alloc: Global,
    env: Environment<'_>,
    a: &Expr,
    x: Asked,
    base: Base,
) -> Result<Option<Typing>, AllocError>
    ensures { IfOk result (λ o. option_map typing_of o ≡ (receivers.receiver_in (base_of base) >=> spec.borrow_receiver (environment_of env.entry) (expr_of a.now) (asked_of x))) }
{
    match receiver_in(base) {
        Ok(found) => borrow_if(alloc, env, a, x, found),
        Err(error) => {
            discard_asked(x);
            Err(error)
        }
    }
}

/// The reference that is asked for, to a receiver, if there is one.
fn borrow_if(
    alloc: Global,
    env: Environment<'_>,
    a: &Expr,
    x: Asked,
    found: Option<Receiver>,
) -> Result<Option<Typing>, AllocError>
    ensures { IfOk result (λ o. option_map typing_of o ≡ (option_map receiver_of found >=> spec.borrow_receiver (environment_of env.entry) (expr_of a.now) (asked_of x))) }
{
    match found {
        Some(r) => borrow_receiver(alloc, env, a, x, r),
        None => {
            discard_asked(x);
            Ok(None)
        }
    }
}

/// `*a`: None where a is no reference to what is copied.
pub fn dereferenced(alloc: Global, x: Typing) -> Result<Option<Typing>, AllocError>
    ensures { IfOk result (λ o. option_map typing_of o ≡ spec.dereferenced (typing_of x)) }
{
    let Typing { term, declared } = x;
    match declared {
        CadType::Reference(_, target) => copied(alloc, term, Box::into_inner(target)),
        declared => {
            discard_term(term);
            discard_type(declared);
            Ok(None)
        }
    }
}

/// The copy of what a reference names.
fn copied(alloc: Global, term: Term, t: CadType) -> Result<Option<Typing>, AllocError>
    ensures { IfOk result (λ o. option_map typing_of o ≡ envs.when (types.is_copied (pure_type t)) (envs.typed (tree.unary UnaryOperator.Dereference (term_of term)) (pure_type t))) }
{
    if is_copied(&t) {
        unary_typed(alloc, UnaryOperator::Dereference, term, t)
    } else {
        discard_term(term);
        discard_type(t);
        Ok(None)
    }
}

/// Whether a cast gains no entitlements: between references the rights that are known decide.
fn keeps_rights(t: &CadType, u: &CadType) -> bool
    ensures { result ≡ spec.keeps_rights (pure_type t.now) (pure_type u.now) }
{
    match t {
        CadType::Reference(grant, target) => keeps_grant(grant, target, u),
        _ => true,
    }
}

/// Whether a reference that grants this may become one of a type.
fn keeps_grant(grant: &Authorization, t: &CadType, u: &CadType) -> bool
    ensures { result ≡ spec.keeps_rights (reference grant.now (pure_type t.now)) (pure_type u.now) }
{
    match u {
        CadType::Reference(need, _) => is_granted(Some(grant), need),
        _ => true,
    }
}

/// Whether values of one type may be of another: both are resource types or neither is, and no entitlement is gained.
fn may_be_cast(types: &DeclaredTypes, t: &CadType, u: &CadType) -> bool
    ensures { result ≡ spec.may_be_cast (declarations types.now) (pure_type t.now) (pure_type u.now) }
{
    is_same_truth(is_resource(types, t), is_resource(types, u))
        && keeps_rights(core_of(t), core_of(u))
}

fn is_same_truth(a: bool, b: bool) -> bool
    ensures { result ≡ formed.same_truth a b }
{
    if a { b } else { !b }
}

/// A cast that is of the type itself.
fn cast_to(
    alloc: Global,
    kind: CastKind,
    t: CadType,
    x: Typing,
) -> Result<Option<Typing>, AllocError>
    ensures { IfOk result (λ o. option_map typing_of o ≡ envs.typed (tree.cast kind (typing_of x).term (pure_type t)) (pure_type t)) }
{
    match t.clone() {
        Ok(declared) => cast_typed(alloc, kind, into_term(x), t, declared),
        Err(error) => {
            discard_typing(x);
            discard_type(t);
            Err(error)
        }
    }
}

/// A failable cast, of an optional of the type.
fn cast_to_optional(alloc: Global, t: CadType, x: Typing) -> Result<Option<Typing>, AllocError>
    ensures { IfOk result (λ o. option_map typing_of o ≡ envs.typed (tree.cast CastKind.Failable (typing_of x).term (pure_type t)) (optional (pure_type t))) }
{
    match optional_of(alloc, &t) {
        Ok(declared) => cast_typed(alloc, CastKind::Failable, into_term(x), t, declared),
        Err(error) => {
            discard_typing(x);
            discard_type(t);
            Err(error)
        }
    }
}

/// An optional of a type.
fn optional_of(alloc: Global, t: &CadType) -> Result<CadType, AllocError>
    ensures { IfOk result (λ made. pure_type made ≡ optional (pure_type t.now)) }
{
    Ok(CadType::Optional(boxed_type(alloc, t.clone()?)?))
}

/// `a as T`: None where a doesn't fit T.
pub fn cast_static(
    alloc: Global,
    env: Environment<'_>,
    t: CadType,
    x: Typing,
) -> Result<Option<Typing>, AllocError>
    ensures { IfOk result (λ o. option_map typing_of o ≡ spec.cast_static (environment_of env.entry) (pure_type t) (typing_of x)) }
{
    if fits(env.kinds(), &x.declared, &t) {
        cast_to(alloc, CastKind::Static, t, x)
    } else {
        discard_typing(x);
        discard_type(t);
        Ok(None)
    }
}

/// `a as? T`, an optional of T: None where a can't be cast so, or is a resource.
pub fn cast_failable(
    alloc: Global,
    env: Environment<'_>,
    t: CadType,
    x: Typing,
) -> Result<Option<Typing>, AllocError>
    ensures { IfOk result (λ o. option_map typing_of o ≡ spec.cast_failable (environment_of env.entry) (pure_type t) (typing_of x)) }
{
    if may_be_cast(env.kinds(), &x.declared, &t) && !env.is_resource(&x.declared) {
        cast_to_optional(alloc, t, x)
    } else {
        discard_typing(x);
        discard_type(t);
        Ok(None)
    }
}

/// `a as! T`: None where a can't be cast so.
pub fn cast_forced(
    alloc: Global,
    env: Environment<'_>,
    t: CadType,
    x: Typing,
) -> Result<Option<Typing>, AllocError>
    ensures { IfOk result (λ o. option_map typing_of o ≡ spec.cast_forced (environment_of env.entry) (pure_type t) (typing_of x)) }
{
    if may_be_cast(env.kinds(), &x.declared, &t) {
        cast_to(alloc, CastKind::Forced, t, x)
    } else {
        discard_typing(x);
        discard_type(t);
        Ok(None)
    }
}
