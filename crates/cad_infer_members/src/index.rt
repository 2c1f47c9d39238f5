// Elements.
ghost use Rattle.std.specs.Prelude.{◌≡◌, not, Some, IfOk, option_map};
ghost use Rattle.cad_syntax.specs.Types.{pure_type, optional};
ghost use Rattle.cad_syntax.specs.declared.types.Authorization.TheVariants as rights;
ghost use Rattle.cad_types.specs.Declarations.{resource};
ghost use Rattle.cad_types.specs.Optionals as optionals;
ghost use Rattle.cad_declarations.specs.Typed as tree;
ghost use Rattle.cad_declarations.specs.Views.{term_of};
ghost use Rattle.cad_typing.specs.Environments as environments;
ghost use Rattle.cad_typing.specs.Environments.{◌>=>◌};
ghost use Rattle.cad_typing.specs.Fields as spec;
ghost use Rattle.cad_typing.specs.Receivers as receivers;
ghost use Rattle.cad_typing.specs.Types as types;
ghost use Rattle.cad_environment.specs.Views.{environment_of, typing_of, receiver_of, base_of};

use crate::found::type_read;
use cad_declarations::{Term, boxed_type, discard_term, discard_type};
use cad_environment::{
    Base, Environment, Receiver, Typing, closed, discard_hidden, discard_receiver, discard_typing,
    held, owned, through, typed,
};
use cad_parameters::is_owned;
use cad_syntax::{Authorization, CadType};
use cad_type_classes::{fits, is_integer_type};
use cad_typed_trees::{element_place, index_term};
use std::alloc::{AllocError, Global};

/// What an index of a value of this type is expected to be: a key of a dictionary its type.
pub fn expected_index(t: &CadType) -> Option<&CadType>
    ensures { option_map (λ key. pure_type key.now) result ≡ spec.expected_index (pure_type t.now) }
{
    match t {
        CadType::Dictionary(key, _) => Some(key),
        _ => None,
    }
}

/// The type of what stands under an index of a type, of a value of a type; None where it has no such elements.
pub fn indexed_type(
    alloc: Global,
    env: Environment<'_>,
    t: &CadType,
    i: &CadType,
) -> Result<Option<CadType>, AllocError>
    ensures { IfOk result (λ o. option_map pure_type o ≡ spec.indexed_type (environment_of env.entry) (pure_type t.now) (pure_type i.now)) }
{
    match t {
        CadType::Array(element) => array_element(element, i),
        CadType::Dictionary(key, value) => dictionary_value(alloc, env, key, value, i),
        _ => Ok(None),
    }
}

fn array_element(element: &CadType, i: &CadType) -> Result<Option<CadType>, AllocError>
    ensures { IfOk result (λ o. option_map pure_type o ≡ environments.when (types.is_integer_type (pure_type i.now)) (Some (pure_type element.now))) }
{
    if is_integer_type(i) {
        Ok(Some(element.clone()?))
    } else {
        Ok(None)
    }
}

fn dictionary_value(
    alloc: Global,
    env: Environment<'_>,
    key: &CadType,
    value: &CadType,
    i: &CadType,
) -> Result<Option<CadType>, AllocError>
    ensures { IfOk result (λ o. option_map pure_type o ≡ environments.when (optionals.fits (environments.kinds (environment_of env.entry)) (pure_type i.now) (pure_type key.now)) (Some (optional (pure_type value.now)))) }
{
    if fits(env.kinds(), i, key) {
        let value = boxed_type(alloc, value.clone()?)?;
        Ok(Some(CadType::Optional(value)))
    } else {
        Ok(None)
    }
}

fn read_element(
    alloc: Global,
    env: Environment<'_>,
    r: &Receiver,
    i: &CadType,
) -> Result<Option<CadType>, AllocError>
    ensures { IfOk result (λ o. option_map pure_type o ≡ (spec.indexed_type (environment_of env.entry) (receiver_of r.now).type (pure_type i.now) >=> (λ t. Some (spec.type_read r.now.grant rights.Unauthorized t)))) }
{
    match indexed_type(alloc, env, &r.declared, i)? {
        Some(t) => {
            let nothing = Authorization::Unauthorized;
            let read = type_read(alloc, &r.grant, &nothing, &t);
            discard_type(t);
            Ok(Some(read?))
        }
        None => Ok(None),
    }
}

/// The value of `a[e]`, of what stands before `[`, and of the index.
pub fn index_value(
    alloc: Global,
    env: Environment<'_>,
    r: Receiver,
    i: Typing,
) -> Result<Option<Typing>, AllocError>
    ensures { IfOk result (λ o. option_map typing_of o ≡ spec.index_value (environment_of env.entry) (receiver_of r) (typing_of i)) }
{
    match read_element(alloc, env, &r, &i.declared) {
        Ok(Some(t)) => {
            discard_type(i.declared);
            element_value(alloc, env, r, i.term, t)
        }
        Ok(None) => {
            discard_receiver(r);
            discard_typing(i);
            Ok(None)
        }
        Err(error) => {
            discard_receiver(r);
            discard_typing(i);
            Err(error)
        }
    }
}

/// An element, as it is read.
fn closed_element(alloc: Global, r: Receiver, i: Term) -> Result<Term, AllocError>
    ensures { IfOk result (λ x. term_of x ≡ receivers.closed (receiver_of r).hidden (tree.index (receiver_of r).place (receiver_of r).type (term_of i))) }
{
    match index_term(alloc, r.place, r.declared, i) {
        Ok(term) => closed(alloc, r.hidden, term),
        Err(error) => {
            discard_hidden(r.hidden);
            Err(error)
        }
    }
}

/// An element of this type; a resource stays where it is.
fn element_value(
    alloc: Global,
    env: Environment<'_>,
    r: Receiver,
    i: Term,
    t: CadType,
) -> Result<Option<Typing>, AllocError>
    ensures { IfOk result (λ o. option_map typing_of o ≡ environments.when (not (resource (environments.kinds (environment_of env.entry)) (pure_type t))) (environments.typed (receivers.closed (receiver_of r).hidden (tree.index (receiver_of r).place (receiver_of r).type (term_of i))) (pure_type t))) }
{
    if env.is_resource(&t) {
        discard_receiver(r);
        discard_term(i);
        discard_type(t);
        return Ok(None);
    }
    match closed_element(alloc, r, i) {
        Ok(term) => Ok(typed(term, t)),
        Err(error) => {
            discard_type(t);
            Err(error)
        }
    }
}

/// What stands under an index: what a reference there names, or the place that it is.
fn element_receiver(alloc: Global, r: Receiver, i: Term, t: CadType) -> Result<Receiver, AllocError>
    ensures { IfOk result (λ o. receiver_of o ≡ receivers.receiver_at (receiver_of r).hidden (tree.element (receiver_of r).place (receiver_of r).type (term_of i)) (tree.index (receiver_of r).place (receiver_of r).type (term_of i)) (pure_type t)) }
{
    match t {
        CadType::Reference(grant, target) => match closed_element(alloc, r, i) {
            Ok(term) => through(alloc, term, grant, Box::into_inner(target)),
            Err(error) => {
                discard_type(Box::into_inner(target));
                Err(error)
            }
        },
        t => match element_place(alloc, r.place, r.declared, i) {
            Ok(place) => Ok(owned(r.hidden, place, t)),
            Err(error) => {
                discard_hidden(r.hidden);
                discard_type(t);
                Err(error)
            }
        },
    }
}

/// What `a[e]` is where a member or element is taken of it, or where it is called.
pub fn index_base(
    alloc: Global,
    env: Environment<'_>,
    r: Receiver,
    i: Typing,
) -> Result<Option<Base>, AllocError>
    ensures { IfOk result (λ o. option_map base_of o ≡ spec.index_base (environment_of env.entry) (receiver_of r) (typing_of i)) }
{
    if is_owned(&r.grant) {
        owned_element(alloc, env, r, i)
    } else {
        held_element(alloc, env, r, i)
    }
}

/// An owned element is a place.
fn owned_element(
    alloc: Global,
    env: Environment<'_>,
    r: Receiver,
    i: Typing,
) -> Result<Option<Base>, AllocError>
    ensures { IfOk result (λ o. option_map base_of o ≡ (spec.indexed_type (environment_of env.entry) (receiver_of r).type (typing_of i).type >=> spec.element_base (environment_of env.entry) (receiver_of r) (typing_of i))) }
{
    match indexed_type(alloc, env, &r.declared, &i.declared) {
        Ok(Some(t)) => {
            discard_type(i.declared);
            Ok(Some(Base::Value(element_receiver(alloc, r, i.term, t)?)))
        }
        Ok(None) => {
            discard_receiver(r);
            discard_typing(i);
            Ok(None)
        }
        Err(error) => {
            discard_receiver(r);
            discard_typing(i);
            Err(error)
        }
    }
}

fn held_element(
    alloc: Global,
    env: Environment<'_>,
    r: Receiver,
    i: Typing,
) -> Result<Option<Base>, AllocError>
    ensures { IfOk result (λ o. option_map base_of o ≡ (spec.index_value (environment_of env.entry) (receiver_of r) (typing_of i) >=> receivers.held (environment_of env.entry))) }
{
    match index_value(alloc, env, r, i)? {
        Some(value) => held(alloc, env, value),
        None => Ok(None),
    }
}
