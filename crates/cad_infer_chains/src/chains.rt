// `a?.n` and its calls, and contents of optionals as places.
ghost use Rattle.std.specs.Prelude.{◌≡◌, ◌&&◌, Some, true, not, IfOk, map, option_map, if◌then◌else◌};
ghost use Rattle.cad_syntax.specs.Types.{pure_type};
ghost use Rattle.cad_grammar.specs.Views.{annotation_of};
ghost use Rattle.cad_grammar.specs.Trees.{annotations_of};
ghost use Rattle.cad_types.specs.Optionals as optionals;
ghost use Rattle.cad_declarations.specs.Formed as formed;
ghost use Rattle.cad_declarations.specs.Typed as tree;
ghost use Rattle.cad_declarations.specs.Views.{place_of, term_of, use_of};
ghost use Rattle.cad_typing.specs.Calls as calls;
ghost use Rattle.cad_typing.specs.Chains as spec;
ghost use Rattle.cad_typing.specs.Environments as environments;
ghost use Rattle.cad_typing.specs.Environments.{◌>=>◌};
ghost use Rattle.cad_typing.specs.Fields as fields;
ghost use Rattle.cad_typing.specs.Receivers as receivers;
ghost use Rattle.cad_typing.specs.Types as types;
ghost use Rattle.cad_environment.specs.Views.{environment_of, typing_of, hidden_of, receiver_of, base_of};
ghost use Rattle.cad_infer_calls.specs.Views.{call_view, invocation_view};
ghost use Rattle.cad_infer_members.specs.Views.{found_view, reading_view};

use cad_declarations::{Place, Term, Use, discard_place, discard_type, discard_use};
use cad_environment::{
    Base, Environment, Hidden, Receiver, Typing, closed, copy_term, discard_hidden,
    discard_receiver, held, owned, through,
};
use cad_grammar::TypeAnnotation;
use cad_infer_calls::{Call, Callee, Invocation, discard_method, invoke};
use cad_infer_members::{
    Found, Reading, closed_typed, discard_reading, found_member, read_found, read_member,
};
use cad_parameters::{discard_parameters, is_owned};
use cad_syntax::{CadType, Name};
use cad_type_classes::{core_of, is_optional_type, optional_once};
use cad_typed_trees::{chain_term, content_place, field_place};
use std::alloc::{AllocError, Global};

/// The content of an optional place: what it names where it is a reference, else a part of the optional.
fn content_at(
    alloc: Global,
    hidden: Option<Hidden>,
    place: Place,
    forces: bool,
    t: CadType,
) -> Result<Receiver, AllocError>
    ensures { IfOk result (λ o. receiver_of o ≡ spec.content_at (receivers.owned (option_map hidden_of hidden) (place_of place) (pure_type t)) forces (pure_type t)) }
{
    match content_place(alloc, place, forces) {
        Ok(place) => match t {
            CadType::Reference(grant, target) => Ok(Receiver {
                hidden,
                place,
                declared: Box::into_inner(target),
                grant: Some(grant),
            }),
            t => Ok(owned(hidden, place, t)),
        },
        Err(error) => {
            discard_hidden(hidden);
            discard_type(t);
            Err(error)
        }
    }
}

/// The content of the optional that a receiver is, if it is one that is owned.
fn content_of(alloc: Global, r: Receiver) -> Result<Option<Receiver>, AllocError>
    ensures { IfOk result (λ o. option_map receiver_of o ≡ spec.content_of (receiver_of r)) }
{
    if !is_owned(&r.grant) {
        discard_receiver(r);
        return Ok(None);
    }
    optional_content(alloc, r.hidden, r.place, r.declared)
}

/// The content of a place of this type, if it is an optional.
fn optional_content(
    alloc: Global,
    hidden: Option<Hidden>,
    place: Place,
    t: CadType,
) -> Result<Option<Receiver>, AllocError>
    ensures { IfOk result (λ o. option_map receiver_of o ≡ spec.content_of (receivers.owned (option_map hidden_of hidden) (place_of place) (pure_type t))) }
{
    match t {
        CadType::Optional(content) => {
            Ok(Some(content_at(alloc, hidden, place, false, Box::into_inner(content))?))
        }
        t => {
            discard_hidden(hidden);
            discard_place(place);
            discard_type(t);
            Ok(None)
        }
    }
}

/// What a chain gives is a content itself, where it isn't an optional.
fn chained_content(
    alloc: Global,
    r: Receiver,
    is_wrapped: bool,
) -> Result<Option<Receiver>, AllocError>
    ensures { IfOk result (λ o. option_map receiver_of o ≡ spec.content_in (receivers.chained (receiver_of r) is_wrapped)) }
{
    if is_wrapped {
        Ok(Some(r))
    } else {
        content_of(alloc, r)
    }
}

/// The content of what stands before a chain; a contract, a type and a transaction are no optionals.
fn content_in(alloc: Global, base: Base) -> Result<Option<Receiver>, AllocError>
    ensures { IfOk result (λ o. option_map receiver_of o ≡ spec.content_in (base_of base)) }
{
    match base {
        Base::Chained(r, is_wrapped) => chained_content(alloc, r, is_wrapped),
        Base::Value(r) => content_of(alloc, r),
        Base::TypeName(t) => {
            discard_type(t);
            Ok(None)
        }
        Base::Contract(_) | Base::Transaction => Ok(None),
    }
}

/// What is read of a content, and isn't a resource.
fn chain_typed(
    alloc: Global,
    hidden: Option<Hidden>,
    place: Place,
    usage: Use,
    declared: CadType,
) -> Result<Option<Typing>, AllocError>
    ensures { IfOk result (λ o. option_map typing_of o ≡ environments.typed (receivers.closed (option_map hidden_of hidden) (tree.chain (place_of place) (use_of usage) (not (types.is_optional_type (pure_type declared))))) (types.optional_once (pure_type declared))) }
{
    let wraps = !is_optional_type(&declared);
    match optional_once(alloc, declared) {
        Ok(outcome) => match chain_term(alloc, place, usage, wraps) {
            Ok(term) => closed_typed(alloc, hidden, term, outcome),
            Err(error) => {
                discard_hidden(hidden);
                discard_type(outcome);
                Err(error)
            }
        },
        Err(error) => {
            discard_hidden(hidden);
            discard_place(place);
            discard_use(usage);
            Err(error)
        }
    }
}

/// What `.n` gives, wrapped where it isn't an optional.
fn chain_read(
    alloc: Global,
    env: Environment<'_>,
    r: Receiver,
    x: Reading,
) -> Result<Option<Typing>, AllocError>
    ensures { IfOk result (λ o. option_map typing_of o ≡ spec.chain_read (environment_of env.entry) (receiver_of r) (reading_view x)) }
{
    if env.is_resource(&x.declared) {
        discard_receiver(r);
        discard_reading(x);
        return Ok(None);
    }
    discard_type(r.declared);
    chain_typed(alloc, r.hidden, r.place, x.usage, x.declared)
}

/// A member of a content that is read, with the content.
fn chain_value_of(
    alloc: Global,
    env: Environment<'_>,
    name: &Name,
    r: Receiver,
) -> Result<Option<Typing>, AllocError>
    ensures { IfOk result (λ o. option_map typing_of o ≡ (fields.read_member (environment_of env.entry) (receiver_of r) name.now >=> spec.chain_read (environment_of env.entry) (receiver_of r))) }
{
    match read_member(alloc, env, &r, name) {
        Ok(Some(x)) => chain_read(alloc, env, r, x),
        Ok(None) => {
            discard_receiver(r);
            Ok(None)
        }
        Err(error) => {
            discard_receiver(r);
            Err(error)
        }
    }
}

/// The value of `a?.n`, of what stands before it; None where it has none.
pub fn chain_value(
    alloc: Global,
    env: Environment<'_>,
    name: &Name,
    base: Base,
) -> Result<Option<Typing>, AllocError>
    ensures { IfOk result (λ o. option_map typing_of o ≡ spec.chain_value (environment_of env.entry) name.now (base_of base)) }
{
    match content_in(alloc, base)? {
        Some(r) => chain_value_of(alloc, env, name, r),
        None => Ok(None),
    }
}

/// What a chain gives is a value of its own.
fn chain_held(
    alloc: Global,
    env: Environment<'_>,
    r: Receiver,
    x: Reading,
) -> Result<Option<Base>, AllocError>
    ensures { IfOk result (λ o. option_map base_of o ≡ (spec.chain_read (environment_of env.entry) (receiver_of r) (reading_view x) >=> receivers.held (environment_of env.entry))) }
{
    match chain_read(alloc, env, r, x)? {
        Some(value) => held(alloc, env, value),
        None => Ok(None),
    }
}

fn is_reference(t: &CadType) -> bool
    ensures { result ≡ formed.is_reference (pure_type t.now) }
{
    matches!(t, CadType::Reference(_, _))
}

/// Whether a field of a content stays where it is.
fn stays(r: &Receiver, x: &Reading) -> bool
    ensures { result ≡ (fields.is_owned (receiver_of r.now).grant && not (formed.is_reference (optionals.core (reading_view x.now).type))) }
{
    is_owned(&r.grant) && !is_reference(core_of(&x.declared))
}

/// A field of a content, of this name and type.
fn field_of(alloc: Global, r: Receiver, name: Name, declared: CadType) -> Result<Base, AllocError>
    ensures { IfOk result (λ o. base_of o ≡ receivers.chained (receivers.owned (receiver_of r).hidden (tree.field (receiver_of r).place (receiver_of r).type name) (pure_type declared)) (not (types.is_optional_type (pure_type declared)))) }
{
    let is_wrapped = !is_optional_type(&declared);
    drop(r.grant);
    match field_place(alloc, r.place, r.declared, name) {
        Ok(place) => Ok(Base::Chained(owned(r.hidden, place, declared), is_wrapped)),
        Err(error) => {
            discard_hidden(r.hidden);
            discard_type(declared);
            Err(error)
        }
    }
}

/// A field of a content, which stays where it is.
fn chained_field(
    alloc: Global,
    r: Receiver,
    name: &Name,
    declared: CadType,
) -> Result<Base, AllocError>
    ensures { IfOk result (λ o. base_of o ≡ receivers.chained (receivers.owned (receiver_of r).hidden (tree.field (receiver_of r).place (receiver_of r).type name.now) (pure_type declared)) (not (types.is_optional_type (pure_type declared)))) }
{
    match name.clone() {
        Ok(name) => field_of(alloc, r, name, declared),
        Err(error) => {
            discard_receiver(r);
            discard_type(declared);
            Err(error)
        }
    }
}

fn chain_declared(
    alloc: Global,
    env: Environment<'_>,
    r: Receiver,
    name: &Name,
    x: Reading,
) -> Result<Option<Base>, AllocError>
    ensures { IfOk result (λ o. option_map base_of o ≡ (if fields.is_owned (receiver_of r).grant && not (formed.is_reference (optionals.core (reading_view x).type)) then Some (receivers.chained (receivers.owned (receiver_of r).hidden (tree.field (receiver_of r).place (receiver_of r).type name.now) (reading_view x).type) (not (types.is_optional_type (reading_view x).type))) else (spec.chain_read (environment_of env.entry) (receiver_of r) (reading_view x) >=> receivers.held (environment_of env.entry)))) }
{
    if stays(&r, &x) {
        discard_use(x.usage);
        Ok(Some(chained_field(alloc, r, name, x.declared)?))
    } else {
        chain_held(alloc, env, r, x)
    }
}

fn chain_found(
    alloc: Global,
    env: Environment<'_>,
    r: Receiver,
    name: &Name,
    found: Found<'_>,
    x: Reading,
) -> Result<Option<Base>, AllocError>
    ensures { IfOk result (λ o. option_map base_of o ≡ spec.chain_found (environment_of env.entry) (receiver_of r) name.now (found_view found.entry) (reading_view x)) }
{
    match found {
        Found::BuiltIn(_) => chain_held(alloc, env, r, x),
        Found::Declared(_) => chain_declared(alloc, env, r, name, x),
    }
}

fn chain_at(
    alloc: Global,
    env: Environment<'_>,
    name: &Name,
    r: Receiver,
) -> Result<Option<Base>, AllocError>
    ensures { IfOk result (λ o. option_map base_of o ≡ spec.chain_at (environment_of env.entry) name.now (receiver_of r)) }
{
    match found_member(env, &r.declared, name) {
        Some(found) => chain_of_found(alloc, env, name, r, found),
        None => {
            discard_receiver(r);
            Ok(None)
        }
    }
}

/// What stands in a member that was found.
fn chain_of_found(
    alloc: Global,
    env: Environment<'_>,
    name: &Name,
    r: Receiver,
    found: Found<'_>,
) -> Result<Option<Base>, AllocError>
    ensures { IfOk result (λ o. option_map base_of o ≡ (fields.read_found (environment_of env.entry) (receiver_of r) (found_view found.entry) >=> spec.chain_found (environment_of env.entry) (receiver_of r) name.now (found_view found.entry))) }
{
    match read_found(alloc, env, &r, found) {
        Ok(Some(x)) => chain_found(alloc, env, r, name, found, x),
        Ok(None) => {
            discard_receiver(r);
            Ok(None)
        }
        Err(error) => {
            discard_receiver(r);
            Err(error)
        }
    }
}

/// What `a?.n` is where a member or element is taken of it, or where it is called, of what stands before it.
pub fn base_of_chain(
    alloc: Global,
    env: Environment<'_>,
    name: &Name,
    base: Base,
) -> Result<Option<Base>, AllocError>
    ensures { IfOk result (λ o. option_map base_of o ≡ spec.base_of_chain (environment_of env.entry) name.now (base_of base)) }
{
    match content_in(alloc, base)? {
        Some(r) => chain_at(alloc, env, name, r),
        None => Ok(None),
    }
}

fn call_chained(alloc: Global, r: Receiver, i: Invocation) -> Result<Call, AllocError>
    ensures { IfOk result (λ c. call_view c ≡ spec.call_chained (receiver_of r) (invocation_view i)) }
{
    let wraps = !is_optional_type(&i.outcome);
    discard_type(r.declared);
    drop(r.grant);
    match optional_once(alloc, i.outcome) {
        Ok(outcome) => Ok(Call {
            hidden: r.hidden,
            callee: Callee::Chain(r.place, i.method, wraps),
            parameters: i.parameters,
            count: i.count,
            outcome,
        }),
        Err(error) => {
            discard_hidden(r.hidden);
            discard_place(r.place);
            discard_method(i.method);
            discard_parameters(i.parameters);
            Err(error)
        }
    }
}

/// A member of a content that is called, with the content.
fn chain_call_of(
    alloc: Global,
    env: Environment<'_>,
    types: &[TypeAnnotation],
    name: &Name,
    r: Receiver,
) -> Result<Option<Call>, AllocError>
    ensures { IfOk result (λ c. option_map call_view c ≡ (calls.invoke (environment_of env.entry) (annotations_of (map annotation_of types.now)) name.now (receiver_of r) >=> (λ i. Some (spec.call_chained (receiver_of r) i)))) }
{
    match invoke(alloc, env, types, name, &r) {
        Ok(Some(i)) => Ok(Some(call_chained(alloc, r, i)?)),
        Ok(None) => {
            discard_receiver(r);
            Ok(None)
        }
        Err(error) => {
            discard_receiver(r);
            Err(error)
        }
    }
}

/// The call `a?.n(..)`, of what stands before it; None where it has no such function.
pub fn chain_call(
    alloc: Global,
    env: Environment<'_>,
    types: &[TypeAnnotation],
    name: &Name,
    base: Base,
) -> Result<Option<Call>, AllocError>
    ensures { IfOk result (λ c. option_map call_view c ≡ spec.chain_call (environment_of env.entry) (annotations_of (map annotation_of types.now)) name.now (base_of base)) }
{
    match content_in(alloc, base)? {
        Some(r) => chain_call_of(alloc, env, types, name, r),
        None => Ok(None),
    }
}

/// The value of a place, which stays.
fn copied(alloc: Global, hidden: Option<Hidden>, place: Place) -> Result<Term, AllocError>
    ensures { IfOk result (λ x. term_of x ≡ receivers.closed (option_map hidden_of hidden) (tree.copy (place_of place))) }
{
    match copy_term(alloc, place) {
        Ok(term) => closed(alloc, hidden, term),
        Err(error) => {
            discard_hidden(hidden);
            Err(error)
        }
    }
}

/// The content of an optional that isn't a resource stays where it is.
fn forced_at(
    alloc: Global,
    hidden: Option<Hidden>,
    place: Place,
    t: CadType,
) -> Result<Receiver, AllocError>
    ensures { IfOk result (λ o. receiver_of o ≡ receivers.receiver_at (option_map hidden_of hidden) (place_of place) (tree.copy (place_of place)) (pure_type t)) }
{
    match t {
        CadType::Reference(grant, target) => match copied(alloc, hidden, place) {
            Ok(term) => through(alloc, term, grant, Box::into_inner(target)),
            Err(error) => {
                discard_type(Box::into_inner(target));
                Err(error)
            }
        },
        t => Ok(owned(hidden, place, t)),
    }
}

/// The content of a place, which stays where it is.
fn forced_content(
    alloc: Global,
    hidden: Option<Hidden>,
    place: Place,
    t: CadType,
) -> Result<Base, AllocError>
    ensures { IfOk result (λ o. base_of o ≡ receivers.value (receivers.receiver_at (option_map hidden_of hidden) (tree.content (place_of place) true) (tree.copy (tree.content (place_of place) true)) (pure_type t))) }
{
    match content_place(alloc, place, true) {
        Ok(place) => Ok(Base::Value(forced_at(alloc, hidden, place, t)?)),
        Err(error) => {
            discard_hidden(hidden);
            discard_type(t);
            Err(error)
        }
    }
}

/// What `a!` is where a member or element is taken of it, or where it is called: the content of an owned optional.
pub fn forced_base(
    alloc: Global,
    env: Environment<'_>,
    r: Receiver,
) -> Result<Option<Base>, AllocError>
    ensures { IfOk result (λ o. option_map base_of o ≡ spec.forced_base (environment_of env.entry) (receiver_of r)) }
{
    if !is_owned(&r.grant) {
        discard_receiver(r);
        return Ok(None);
    }
    forced_optional(alloc, env, r.hidden, r.place, r.declared)
}

/// The content of a place of this type, if it is an optional, and the content no resource.
fn forced_optional(
    alloc: Global,
    env: Environment<'_>,
    hidden: Option<Hidden>,
    place: Place,
    t: CadType,
) -> Result<Option<Base>, AllocError>
    ensures { IfOk result (λ o. option_map base_of o ≡ spec.forced_base (environment_of env.entry) (receivers.owned (option_map hidden_of hidden) (place_of place) (pure_type t))) }
{
    match t {
        CadType::Optional(content) => {
            if env.is_resource(&content) {
                discard_hidden(hidden);
                discard_place(place);
                discard_type(Box::into_inner(content));
                return Ok(None);
            }
            Ok(Some(forced_content(alloc, hidden, place, Box::into_inner(content))?))
        }
        t => {
            discard_hidden(hidden);
            discard_place(place);
            discard_type(t);
            Ok(None)
        }
    }
}
