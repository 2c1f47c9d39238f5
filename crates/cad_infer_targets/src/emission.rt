// Events that are emitted.
ghost use Rattle.std.specs.Prelude.{◌≡◌, ◌&&◌, IfOk, Some, option_map, map};
ghost use Rattle.cad_syntax.specs.Types.{pure_type};
ghost use Rattle.cad_grammar.specs.Views.{expr_of, annotation_of, argument_of};
ghost use Rattle.cad_grammar.specs.Trees as s;
ghost use Rattle.cad_typing.specs.Access as access;
ghost use Rattle.cad_typing.specs.Calls as calls;
ghost use Rattle.cad_typing.specs.Environments.{when};
ghost use Rattle.cad_typing.specs.Places as spec;
ghost use Rattle.cad_environment.specs.Views.{environment_of, head_of, base_of};
ghost use Rattle.cad_infer_targets.specs.Views.{emission_of};

use cad_declarations::{Argument as Transferred, discard_arguments, discard_type};
use cad_environment::{
    Base, Environment, Head, discard_base, head_named, stands_in_contract, type_inside,
};
use cad_grammar::{Argument, Expr, TypeAnnotation};
use cad_infer::{based, infer_arguments};
use cad_infer_calls::{Callee, call_constructor, discard_call, has_no_types, is_event};
use cad_parameters::Count;
use cad_syntax::{CadType, Name, TypeId};
use std::alloc::{AllocError, Global};

/// An event that is emitted, and its arguments.
#[derive(Drop)]
pub struct Emission {
    pub event: TypeId,
    pub arguments: Vec<Transferred>,
}

/// Lets an emission go.
pub fn discard_emission(emission: Emission) {
    discard_arguments(emission.arguments);
}

/// What stands under `emit`: a call of an event that this contract declares. None of anything else.
pub fn infer_event(
    e: &Expr,
    alloc: Global,
    env: Environment<'_>,
) -> Result<Option<Emission>, AllocError>
    ensures { IfOk result (λ o. option_map emission_of o ≡ spec.infer_event (environment_of env.entry) (expr_of e.now)) }
{
    match e {
        Expr::Call {
            function,
            type_arguments,
            arguments,
        } => called_event(function, alloc, env, type_arguments, arguments),
        _ => Ok(None),
    }
}

/// A call of an event.
fn called_event(
    f: &Expr,
    alloc: Global,
    env: Environment<'_>,
    types: &[TypeAnnotation],
    all: &[Argument],
) -> Result<Option<Emission>, AllocError>
    ensures { IfOk result (λ o. option_map emission_of o ≡ spec.infer_event (environment_of env.entry) (s.call (expr_of f.now) (s.annotations_of (map annotation_of types.now)) (s.arguments_of (map argument_of all.now)))) }
{
    if !has_no_types(types) {
        return Ok(None);
    }
    let Some(t) = called_type(f, alloc, env)? else {
        return Ok(None);
    };
    let Some(id) = event_in(env, t) else {
        return Ok(None);
    };
    emitted(all, alloc, env, id)
}

/// The type that is called.
fn called_type(f: &Expr, alloc: Global, env: Environment<'_>) -> Result<Option<CadType>, AllocError>
    ensures { IfOk result (λ o. option_map pure_type o ≡ spec.called_type (environment_of env.entry) (expr_of f.now)) }
{
    match f {
        Expr::Name(name) => named_type(alloc, env, name),
        Expr::Member(a, name) => member_type(a, alloc, env, name),
        _ => Ok(None),
    }
}

/// The type of a name.
fn named_type(
    alloc: Global,
    env: Environment<'_>,
    name: &Name,
) -> Result<Option<CadType>, AllocError>
    ensures { IfOk result (λ o. option_map pure_type o ≡ spec.called_type (environment_of env.entry) (s.name name.now)) }
{
    let Some(found) = head_named(env, name)? else {
        return Ok(None);
    };
    Ok(type_of_head(found))
}

/// The type that a name stands for.
fn type_of_head(found: Head<'_>) -> Option<CadType>
    ensures { option_map pure_type result ≡ spec.type_of_head (head_of found.entry) }
{
    match found {
        Head::Type(t) => Some(t),
        other => {
            drop(other);
            None
        }
    }
}

/// The type of a name in a contract.
#[tactic(auto, unfolding(cad_infer_parts::specs::Code::Steps::based))]
fn member_type(
    a: &Expr,
    alloc: Global,
    env: Environment<'_>,
    name: &Name,
) -> Result<Option<CadType>, AllocError>
    ensures { IfOk result (λ o. option_map pure_type o ≡ spec.called_type (environment_of env.entry) (s.member (expr_of a.now) name.now)) }
{
    let Some(base) = based(a, alloc, env)? else {
        return Ok(None);
    };
    let found = type_in_base(env, name, &base);
    discard_base(base);
    found
}

/// The type of a name in what stands before the `.`, which is a contract.
fn type_in_base(
    env: Environment<'_>,
    name: &Name,
    base: &Base,
) -> Result<Option<CadType>, AllocError>
    ensures { IfOk result (λ o. option_map pure_type o ≡ spec.type_in_base (environment_of env.entry) name.now (base_of base.now)) }
{
    match base {
        Base::Contract(id) => type_inside(env, id, name),
        _ => Ok(None),
    }
}

/// The event that a type is, where this contract declares it.
fn event_in(env: Environment<'_>, t: CadType) -> Option<TypeId>
    ensures { result ≡ spec.event_in (environment_of env.entry) (pure_type t) }
{
    let is_one = is_event(env, &t);
    event_of(env, t, is_one)
}

/// The event that a type is, where it is one and this contract declares it.
fn event_of(env: Environment<'_>, t: CadType, is_one: bool) -> Option<TypeId>
    requires { is_one ≡ calls.has_declared_sort (environment_of env) calls.is_event_sort (pure_type t) }
    ensures { result ≡ spec.event_in (environment_of env.entry) (pure_type t) }
{
    match t {
        CadType::Declared(id) => if_own(env, id, is_one),
        other => {
            discard_type(other);
            None
        }
    }
}

/// An event, where this contract declares it.
fn if_own(env: Environment<'_>, id: TypeId, is_one: bool) -> Option<TypeId>
    ensures { result ≡ when (is_one && access.stands_in_contract (environment_of env.entry) id) (Some id) }
{
    if is_one && stands_in_contract(env, &id) {
        Some(id)
    } else {
        None
    }
}

/// An event with its arguments.
#[tactic(auto, unfolding(cad_infer_parts::specs::Code::Steps::arguments))]
fn emitted(
    all: &[Argument],
    alloc: Global,
    env: Environment<'_>,
    id: TypeId,
) -> Result<Option<Emission>, AllocError>
    ensures { IfOk result (λ o. option_map emission_of o ≡ spec.emission (environment_of env.entry) (s.arguments_of (map argument_of all.now)) id) }
{
    let made = call_constructor(alloc, env, Callee::Struct(id.clone()?), &id)?;
    let found = infer_arguments(all, alloc, env, Count::Exactly, made.parameters.as_slice());
    discard_call(made);
    let Some(arguments) = found? else {
        return Ok(None);
    };
    Ok(Some(Emission {
        event: id,
        arguments,
    }))
}
