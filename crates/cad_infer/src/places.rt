// Places, and what stands before `.`, `?.` and `[`, in the recursion over expressions.
ghost use Rattle.std.specs.Prelude.{◌≡◌, IfOk, option_map};
ghost use Rattle.cad_grammar.specs.Trees as s;
ghost use Rattle.cad_grammar.specs.Views.{expr_of, type_of};
ghost use Rattle.cad_typing.specs.Environments.{ordinary};
ghost use Rattle.cad_typing.specs.Fields as fields;
ghost use Rattle.cad_syntax.specs.Types.{pure_type};
ghost use Rattle.cad_environment.specs.Views.{environment_of, typing_of, base_of, receiver_of};
ghost use Rattle.cad_infer.specs.Code.Forms as forms;
ghost use Rattle.cad_infer_parts.specs.Code.Steps as steps;

use crate::expression::typing;
use crate::flat::flat_base;
use cad_environment::{
    Base, Environment, Position, Receiver, Typing, discard_receiver, held, is_path,
    is_path_of_chain, is_place, self_base,
};
use cad_grammar::{Expr, TypeExpr};
use cad_infer_members::expected_index;
use cad_infer_parts::{
    borrow_then, chain_place_then, force_place_then, index_environment, index_place_then,
    index_then, member_place_then, named_base, received,
};
use cad_syntax::Name;
use std::alloc::{AllocError, Global};

/// The element of a receiver a at an index.
#[cycle(infer)]
#[tactic(auto, unfolding(cad_infer_parts::specs::Code::Steps::element_then))]
pub(crate) fn index(
    b: &Expr,
    alloc: Global,
    env: Environment<'_>,
    a: &Expr,
    r: Option<Receiver>,
) -> Result<Option<Typing>, AllocError>
    ensures { IfOk result (λ o. option_map typing_of o ≡ steps.element_then (environment_of env.entry) (expr_of a.now) (expr_of b.now) (option_map receiver_of r)) }
{
    let Some(r) = r else {
        return Ok(None);
    };
    match infer_index(b, alloc, env, a, &r) {
        Ok(i) => index_then(alloc, env, r, i),
        Err(error) => {
            discard_receiver(r);
            Err(error)
        }
    }
}

/// The index of an element of a receiver a.
#[cycle(infer)]
#[tactic(auto, unfolding(cad_infer_parts::specs::Code::Steps::index_environment))]
fn infer_index(
    b: &Expr,
    alloc: Global,
    env: Environment<'_>,
    a: &Expr,
    r: &Receiver,
) -> Result<Option<Typing>, AllocError>
    ensures { IfOk result (λ o. option_map typing_of o ≡ steps.typing (steps.index_environment (environment_of env.entry) (expr_of a.now) (receiver_of r.now)) ordinary (fields.expected_index (pure_type r.now.declared)) (expr_of b.now)) }
{
    let inner = index_environment(alloc, env, a, r)?;
    typing(
        b,
        alloc,
        inner,
        Position::Ordinary,
        expected_index(&r.declared),
    )
}

/// `&a as T`
#[cycle(infer)]
#[tactic(auto, using(crate::proofs::Unfolded::borrow_is, crate::proofs::Unfolded::borrow_none))]
pub(crate) fn reference(
    a: &Expr,
    alloc: Global,
    env: Environment<'_>,
    written: &TypeExpr,
) -> Result<Option<Typing>, AllocError>
    ensures { IfOk result (λ o. option_map typing_of o ≡ steps.typing (environment_of env.entry) ordinary None (s.borrow (expr_of a.now) (type_of written.now))) }
{
    if !is_place(a) {
        return Ok(None);
    }
    let base = place(a, alloc, env)?;
    Ok(borrow_then(alloc, env, a, written, base)?)
}

/// Where a name, `self`, a member, an element or a content stands.
#[cycle(infer)]
#[tactic(auto, using(crate::proofs::Arms::place_flat))]
pub(crate) fn place(
    e: &Expr,
    alloc: Global,
    env: Environment<'_>,
) -> Result<Option<Base>, AllocError>
    ensures { IfOk result (λ o. option_map base_of o ≡ steps.place (environment_of env.entry) (expr_of e.now)) }
{
    let found = place_form(e, alloc, env)?;
    Ok(flat_base(found))
}

/// Where a form stands: None of one that stands nowhere.
#[cycle(infer)]
#[tactic(auto, unfolding(crate::specs::Code::Forms::place_form), using(crate::proofs::Arms::places))]
fn place_form(
    e: &Expr,
    alloc: Global,
    env: Environment<'_>,
) -> Result<Option<Option<Base>>, AllocError>
    ensures { IfOk result (λ o. option_map (option_map base_of) o ≡ forms.place_form (environment_of env.entry) (expr_of e.now)) }
{
    match e {
        Expr::Name(name) => Ok(Some(named_base(alloc, env, name)?)),
        Expr::Self_ => Ok(Some(self_base(alloc, env)?)),
        Expr::Member(a, name) => {
            let base = based(a, alloc, env)?;
            Ok(Some(member_place_then(alloc, env, name, base)?))
        }
        Expr::Index(a, b) => {
            let r = received(based(a, alloc, env)?)?;
            Ok(Some(index_place(b, alloc, env, a, r)?))
        }
        Expr::Force(a) => {
            let r = received(based(a, alloc, env)?)?;
            Ok(Some(force_place_then(alloc, env, r)?))
        }
        Expr::OptionalMember(a, name) => {
            let base = based_in_chain(a, alloc, env)?;
            Ok(Some(chain_place_then(alloc, env, name, base)?))
        }
        _ => Ok(None),
    }
}

/// Where the element of a receiver a at an index stands.
#[cycle(infer)]
#[tactic(auto, unfolding(cad_infer_parts::specs::Code::Steps::element_place_then))]
fn index_place(
    b: &Expr,
    alloc: Global,
    env: Environment<'_>,
    a: &Expr,
    r: Option<Receiver>,
) -> Result<Option<Base>, AllocError>
    ensures { IfOk result (λ o. option_map base_of o ≡ steps.element_place_then (environment_of env.entry) (expr_of a.now) (expr_of b.now) (option_map receiver_of r)) }
{
    let Some(r) = r else {
        return Ok(None);
    };
    match infer_index(b, alloc, env, a, &r) {
        Ok(i) => index_place_then(alloc, env, r, i),
        Err(error) => {
            discard_receiver(r);
            Err(error)
        }
    }
}

/// What stands before `.` and `[`: a place is looked up, any other value is held.
#[cycle(infer)]
#[tactic(auto, using(crate::proofs::Unfolded::based_place, crate::proofs::Unfolded::based_held))]
pub fn based(a: &Expr, alloc: Global, env: Environment<'_>) -> Result<Option<Base>, AllocError>
    ensures { IfOk result (λ o. option_map base_of o ≡ steps.based (environment_of env.entry) (expr_of a.now)) }
{
    if is_path(a) {
        return Ok(place(a, alloc, env)?);
    }
    let Some(x) = typing(a, alloc, env, Position::Ordinary, None)? else {
        return Ok(None);
    };
    Ok(held(alloc, env, x)?)
}

/// What stands before `?.`: a place is looked up, any other value is held.
#[cycle(infer)]
#[tactic(auto, using(crate::proofs::Unfolded::chain_based_place, crate::proofs::Unfolded::chain_based_held))]
pub(crate) fn based_in_chain(
    a: &Expr,
    alloc: Global,
    env: Environment<'_>,
) -> Result<Option<Base>, AllocError>
    ensures { IfOk result (λ o. option_map base_of o ≡ steps.based_in_chain (environment_of env.entry) (expr_of a.now)) }
{
    if is_path_of_chain(a) {
        return Ok(place(a, alloc, env)?);
    }
    let Some(x) = typing(a, alloc, env, Position::Ordinary, None)? else {
        return Ok(None);
    };
    Ok(held(alloc, env, x)?)
}
