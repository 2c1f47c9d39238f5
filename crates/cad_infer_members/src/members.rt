// Members as values and as places.
ghost use Rattle.std.specs.Prelude.{◌≡◌, [], IfOk, option_map, position as first_place, if◌then◌else◌};
ghost use Rattle.cad_syntax.specs.Types as pure;
ghost use Rattle.cad_syntax.specs.Types.{pure_type};
ghost use Rattle.cad_syntax.specs.declared.types.Authorization.TheVariants as rights;
ghost use Rattle.cad_declarations.specs.Builtins as builtins;
ghost use Rattle.cad_declarations.specs.Names.{same_name};
ghost use Rattle.cad_declarations.specs.Typed as tree;
ghost use Rattle.cad_declarations.specs.Views.{place_of, term_of, use_of};
ghost use Rattle.cad_typing.specs.Environments as environments;
ghost use Rattle.cad_typing.specs.Environments.{◌>=>◌};
ghost use Rattle.cad_typing.specs.Fields as spec;
ghost use Rattle.cad_typing.specs.Names as naming;
ghost use Rattle.cad_typing.specs.Receivers as receivers;
ghost use Rattle.cad_typing.specs.Types as types;
ghost use Rattle.cad_environment.specs.Views.{environment_of, typing_of, hidden_of, receiver_of, base_of, position_of};
ghost use Rattle.cad_infer_members.specs.Views.{found_view, reading_view};

use crate::found::{Found, Reading, discard_reading, found_member, read_found, read_member};
use cad_builtins::{builtin_member_of_type, is_read, result_of};
use cad_declarations::{Term, Use, discard_type, discard_use, is_same_name};
use cad_environment::{
    Base, Environment, Hidden, Position, Receiver, Typing, closed, discard_hidden,
    discard_receiver, held, of_contract, owned, through, transaction_field, type_inside, typed,
    variable_base, variable_value,
};
use cad_parameters::is_owned;
use cad_syntax::{Authorization, Basic, CadType, Name, TypeId};
use cad_typed_trees::{case_term, constant_term, field_place, on_term};
use cad_types::Builtin;
use std::alloc::{AllocError, Global};

/// A form whose parts may be taken of a hidden variable, with its type.
pub fn closed_typed(
    alloc: Global,
    hidden: Option<Hidden>,
    term: Term,
    declared: CadType,
) -> Result<Option<Typing>, AllocError>
    ensures { IfOk result (λ x. option_map typing_of x ≡ environments.typed (receivers.closed (option_map hidden_of hidden) (term_of term)) (pure_type declared)) }
{
    match closed(alloc, hidden, term) {
        Ok(term) => Ok(typed(term, declared)),
        Err(error) => {
            discard_type(declared);
            Err(error)
        }
    }
}

/// A member that is read.
fn closed_use(alloc: Global, r: Receiver, usage: Use) -> Result<Term, AllocError>
    ensures { IfOk result (λ x. term_of x ≡ receivers.closed (receiver_of r).hidden (tree.on (receiver_of r).place (use_of usage))) }
{
    discard_type(r.declared);
    match on_term(alloc, r.place, usage) {
        Ok(term) => closed(alloc, r.hidden, term),
        Err(error) => {
            discard_hidden(r.hidden);
            Err(error)
        }
    }
}

/// A resource doesn't leave the place in which it is nested.
fn read_value(
    alloc: Global,
    env: Environment<'_>,
    r: Receiver,
    x: Reading,
) -> Result<Option<Typing>, AllocError>
    ensures { IfOk result (λ o. option_map typing_of o ≡ spec.read_value (environment_of env.entry) (receiver_of r) (reading_view x)) }
{
    if env.is_resource(&x.declared) {
        discard_receiver(r);
        discard_reading(x);
        return Ok(None);
    }
    match closed_use(alloc, r, x.usage) {
        Ok(term) => Ok(typed(term, x.declared)),
        Err(error) => {
            discard_type(x.declared);
            Err(error)
        }
    }
}

fn member_value(
    alloc: Global,
    env: Environment<'_>,
    r: Receiver,
    name: &Name,
) -> Result<Option<Typing>, AllocError>
    ensures { IfOk result (λ o. option_map typing_of o ≡ spec.member_value (environment_of env.entry) (receiver_of r) name.now) }
{
    match read_member(alloc, env, &r, name) {
        Ok(Some(x)) => read_value(alloc, env, r, x),
        Ok(None) => {
            discard_receiver(r);
            Ok(None)
        }
        Err(error) => {
            discard_receiver(r);
            Err(error)
        }
    }
}

/// What is read through a reference, or built in, is a value of its own.
fn value_base(
    alloc: Global,
    env: Environment<'_>,
    r: Receiver,
    x: Reading,
) -> Result<Option<Base>, AllocError>
    ensures { IfOk result (λ o. option_map base_of o ≡ spec.value_base (environment_of env.entry) (receiver_of r) (reading_view x)) }
{
    match read_value(alloc, env, r, x)? {
        Some(value) => held(alloc, env, value),
        None => Ok(None),
    }
}

/// A field that is met as its owner.
fn owned_field(
    alloc: Global,
    r: Receiver,
    name: &Name,
    declared: CadType,
) -> Result<Receiver, AllocError>
    ensures { IfOk result (λ o. receiver_of o ≡ receivers.owned (receiver_of r).hidden (tree.field (receiver_of r).place (receiver_of r).type name.now) (pure_type declared)) }
{
    match name.clone() {
        Ok(name) => match field_place(alloc, r.place, r.declared, name) {
            Ok(place) => Ok(owned(r.hidden, place, declared)),
            Err(error) => {
                discard_hidden(r.hidden);
                discard_type(declared);
                Err(error)
            }
        },
        Err(error) => {
            discard_receiver(r);
            discard_type(declared);
            Err(error)
        }
    }
}

/// What stands in a field: what the field's reference names, or the place that it is.
fn field_receiver(
    alloc: Global,
    r: Receiver,
    name: &Name,
    usage: Use,
    declared: CadType,
) -> Result<Receiver, AllocError>
    ensures { IfOk result (λ o. receiver_of o ≡ receivers.receiver_at (receiver_of r).hidden (tree.field (receiver_of r).place (receiver_of r).type name.now) (tree.on (receiver_of r).place (use_of usage)) (pure_type declared)) }
{
    match declared {
        CadType::Reference(grant, target) => match closed_use(alloc, r, usage) {
            Ok(term) => through(alloc, term, grant, Box::into_inner(target)),
            Err(error) => {
                discard_type(Box::into_inner(target));
                Err(error)
            }
        },
        declared => {
            discard_use(usage);
            owned_field(alloc, r, name, declared)
        }
    }
}

/// An owned field is a place.
fn field_base(alloc: Global, r: Receiver, name: &Name, x: Reading) -> Result<Base, AllocError>
    ensures { IfOk result (λ o. base_of o ≡ receivers.value (receivers.receiver_at (receiver_of r).hidden (tree.field (receiver_of r).place (receiver_of r).type name.now) (tree.on (receiver_of r).place (reading_view x).usage) (reading_view x).type)) }
{
    let place = field_receiver(alloc, r, name, x.usage, x.declared)?;
    Ok(Base::Value(place))
}

fn reading_base(
    alloc: Global,
    env: Environment<'_>,
    r: Receiver,
    name: &Name,
    found: Found<'_>,
    x: Reading,
) -> Result<Option<Base>, AllocError>
    ensures { IfOk result (λ o. option_map base_of o ≡ spec.reading_base (environment_of env.entry) (receiver_of r) name.now (found_view found.entry) (reading_view x)) }
{
    match found {
        Found::BuiltIn(_) => value_base(alloc, env, r, x),
        Found::Declared(_) => declared_base(alloc, env, r, name, x),
    }
}

/// What stands in a declared field: a place where it is owned.
fn declared_base(
    alloc: Global,
    env: Environment<'_>,
    r: Receiver,
    name: &Name,
    x: Reading,
) -> Result<Option<Base>, AllocError>
    ensures { IfOk result (λ o. option_map base_of o ≡ (if spec.is_owned (receiver_of r).grant then spec.field_base (environment_of env.entry) (receiver_of r) name.now (reading_view x) else spec.value_base (environment_of env.entry) (receiver_of r) (reading_view x))) }
{
    if is_owned(&r.grant) {
        Ok(Some(field_base(alloc, r, name, x)?))
    } else {
        value_base(alloc, env, r, x)
    }
}

fn member_of_receiver(
    alloc: Global,
    env: Environment<'_>,
    r: Receiver,
    name: &Name,
) -> Result<Option<Base>, AllocError>
    ensures { IfOk result (λ o. option_map base_of o ≡ spec.member_of_receiver (environment_of env.entry) (receiver_of r) name.now) }
{
    match found_member(env, &r.declared, name) {
        Some(found) => found_base(alloc, env, r, name, found),
        None => {
            discard_receiver(r);
            Ok(None)
        }
    }
}

/// What stands in a member that was found.
fn found_base(
    alloc: Global,
    env: Environment<'_>,
    r: Receiver,
    name: &Name,
    found: Found<'_>,
) -> Result<Option<Base>, AllocError>
    ensures { IfOk result (λ o. option_map base_of o ≡ (spec.read_found (environment_of env.entry) (receiver_of r) (found_view found.entry) >=> spec.reading_base (environment_of env.entry) (receiver_of r) name.now (found_view found.entry))) }
{
    match read_found(alloc, env, &r, found) {
        Ok(Some(x)) => reading_base(alloc, env, r, name, found, x),
        Ok(None) => {
            discard_receiver(r);
            Ok(None)
        }
        Err(error) => {
            discard_receiver(r);
            Err(error)
        }
    }
}

/// A place in a list as a number; want of memory where it is too great.
fn as_number(place: usize) -> Result<u32, AllocError>
    ensures { IfOk result (λ n. n ≡ place) }
{
    if place <= u32::MAX as usize {
        Ok(place as u32)
    } else {
        Err(AllocError)
    }
}

/// The place of a name in a list.
#[tactic(auto, using(crate::proofs::Places::is_here, crate::proofs::Places::is_later, crate::proofs::Places::is_nowhere))]
fn place_of_name(names: &[Name], name: &Name) -> Option<usize>
    ensures { result ≡ first_place (same_name name.now) names.now }
{
    for place in 0..names.len() {
        if is_same_name(name, &names[place]) {
            return Some(place);
        }
    }
    None
}

/// The place of a case in its enum.
fn case_number(env: Environment<'_>, id: &TypeId, name: &Name) -> Result<Option<u32>, AllocError>
    ensures { IfOk result (λ n. n ≡ spec.case_number (environment_of env.entry) id.now name.now) }
{
    match env.tables().find(id) {
        Some(t) => numbered(place_of_name(t.cases.as_slice(), name)),
        None => Ok(None),
    }
}

fn numbered(place: Option<usize>) -> Result<Option<u32>, AllocError>
    ensures { IfOk result (λ n. n ≡ place) }
{
    match place {
        Some(place) => Ok(Some(as_number(place)?)),
        None => Ok(None),
    }
}

fn case_value(env: Environment<'_>, t: &CadType, name: &Name) -> Result<Option<Typing>, AllocError>
    ensures { IfOk result (λ o. option_map typing_of o ≡ spec.case_value (environment_of env.entry) (pure_type t.now) name.now) }
{
    match t {
        CadType::Declared(id) => enum_case(env, id, name),
        _ => Ok(None),
    }
}

fn enum_case(env: Environment<'_>, id: &TypeId, name: &Name) -> Result<Option<Typing>, AllocError>
    ensures { IfOk result (λ o. option_map typing_of o ≡ spec.case_value (environment_of env.entry) (pure.declared id.now) name.now) }
{
    match case_number(env, id, name)? {
        Some(number) => {
            let owner = id.clone()?;
            let declared = CadType::Declared(id.clone()?);
            Ok(typed(case_term(owner, number), declared))
        }
        None => Ok(None),
    }
}

fn type_constant(
    alloc: Global,
    env: Environment<'_>,
    t: &CadType,
    name: &Name,
) -> Result<Option<Typing>, AllocError>
    ensures { IfOk result (λ o. option_map typing_of o ≡ spec.type_constant (environment_of env.entry) (pure_type t.now) name.now) }
{
    match builtin_member_of_type(t, name) {
        Some(member) => constant_value(alloc, env, t, member),
        None => Ok(None),
    }
}

fn constant_value(
    alloc: Global,
    env: Environment<'_>,
    t: &CadType,
    member: Builtin,
) -> Result<Option<Typing>, AllocError>
    ensures { IfOk result (λ o. option_map typing_of o ≡ environments.when (builtins.is_read member) (environments.typed (tree.builtin member [] tree.no_arguments) (builtins.result_of (environments.kinds (environment_of env.entry)) rights.Unauthorized (pure_type t.now) types.void member))) }
{
    if !is_read(member) {
        return Ok(None);
    }
    let void = CadType::Basic(Basic::Void);
    let outcome = result_of(
        alloc,
        env.kinds(),
        &Authorization::Unauthorized,
        t,
        &void,
        member,
    )?;
    Ok(typed(constant_term(alloc, member), outcome))
}

/// A case of an enum, or a constant of a kind of numbers.
fn type_member(
    alloc: Global,
    env: Environment<'_>,
    t: &CadType,
    name: &Name,
) -> Result<Option<Typing>, AllocError>
    ensures { IfOk result (λ o. option_map typing_of o ≡ spec.type_member (environment_of env.entry) (pure_type t.now) name.now) }
{
    match case_value(env, t, name)? {
        Some(value) => Ok(Some(value)),
        None => type_constant(alloc, env, t, name),
    }
}

fn transaction_value(
    alloc: Global,
    env: Environment<'_>,
    position: Position,
    name: &Name,
) -> Result<Option<Typing>, AllocError>
    ensures { IfOk result (λ o. option_map typing_of o ≡ spec.value_of_member (environment_of env.entry) (position_of position) name.now receivers.transaction) }
{
    match transaction_field(env, name) {
        Some(local) => variable_value(alloc, env, position, local),
        None => Ok(None),
    }
}

/// The value of a member of a contract.
fn contract_value(
    alloc: Global,
    env: Environment<'_>,
    id: TypeId,
    name: &Name,
) -> Result<Option<Typing>, AllocError>
    ensures { IfOk result (λ o. option_map typing_of o ≡ spec.member_value (environment_of env.entry) (receivers.of_contract id) name.now) }
{
    let receiver = of_contract(id)?;
    let value = member_value(alloc, env, receiver, name)?;
    Ok(value)
}

/// The value of `a.n`, of what stands before the dot; None where it has none.
pub fn value_of_member(
    alloc: Global,
    env: Environment<'_>,
    position: Position,
    name: &Name,
    base: Base,
) -> Result<Option<Typing>, AllocError>
    ensures { IfOk result (λ o. option_map typing_of o ≡ spec.value_of_member (environment_of env.entry) (position_of position) name.now (base_of base)) }
{
    match base {
        Base::Value(r) => member_value(alloc, env, r, name),
        Base::Contract(id) => contract_value(alloc, env, id, name),
        Base::TypeName(t) => {
            let value = type_member(alloc, env, &t, name);
            discard_type(t);
            value
        }
        Base::Transaction => transaction_value(alloc, env, position, name),
        Base::Chained(r, _) => {
            discard_receiver(r);
            Ok(None)
        }
    }
}

/// A member of a contract, or a type that it declares.
fn member_of_contract(
    alloc: Global,
    env: Environment<'_>,
    id: TypeId,
    name: &Name,
) -> Result<Option<Base>, AllocError>
    ensures { IfOk result (λ o. option_map base_of o ≡ spec.base_of_member (environment_of env.entry) name.now (receivers.contract id)) }
{
    match member_of_receiver(alloc, env, of_contract(id.clone()?)?, name)? {
        Some(base) => Ok(Some(base)),
        None => type_of_contract(env, &id, name),
    }
}

fn type_of_contract(
    env: Environment<'_>,
    id: &TypeId,
    name: &Name,
) -> Result<Option<Base>, AllocError>
    ensures { IfOk result (λ o. option_map base_of o ≡ option_map receivers.type_name (naming.type_inside (environment_of env.entry) id.now name.now)) }
{
    match type_inside(env, id, name)? {
        Some(t) => Ok(Some(Base::TypeName(t))),
        None => Ok(None),
    }
}

fn member_of_type(
    alloc: Global,
    env: Environment<'_>,
    t: &CadType,
    name: &Name,
) -> Result<Option<Base>, AllocError>
    ensures { IfOk result (λ o. option_map base_of o ≡ spec.base_of_member (environment_of env.entry) name.now (receivers.type_name (pure_type t.now))) }
{
    match type_member(alloc, env, t, name)? {
        Some(value) => held(alloc, env, value),
        None => Ok(None),
    }
}

fn member_of_transaction(
    alloc: Global,
    env: Environment<'_>,
    name: &Name,
) -> Result<Option<Base>, AllocError>
    ensures { IfOk result (λ o. option_map base_of o ≡ spec.base_of_member (environment_of env.entry) name.now receivers.transaction) }
{
    match transaction_field(env, name) {
        Some(local) => variable_base(alloc, env, local),
        None => Ok(None),
    }
}

/// What `a.n` is where a member or element is taken of it, or where it is called, of what stands before the dot.
pub fn base_of_member(
    alloc: Global,
    env: Environment<'_>,
    name: &Name,
    base: Base,
) -> Result<Option<Base>, AllocError>
    ensures { IfOk result (λ o. option_map base_of o ≡ spec.base_of_member (environment_of env.entry) name.now (base_of base)) }
{
    match base {
        Base::Value(r) => member_of_receiver(alloc, env, r, name),
        Base::Contract(id) => member_of_contract(alloc, env, id, name),
        Base::TypeName(t) => {
            let found = member_of_type(alloc, env, &t, name);
            discard_type(t);
            found
        }
        Base::Transaction => member_of_transaction(alloc, env, name),
        Base::Chained(r, _) => {
            discard_receiver(r);
            Ok(None)
        }
    }
}
