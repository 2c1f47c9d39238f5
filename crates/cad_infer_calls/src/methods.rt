// Functions of values that are called, `create` and `before`.
ghost use Rattle.std.specs.Prelude.{◌≡◌, ◌&&◌, ◌∷◌, [], not, Some, None, IfOk, map, option_map};
ghost use Rattle.std.specs.Option.{option_or};
ghost use Rattle.cad_syntax.specs.Types.{pure_type};
ghost use Rattle.cad_grammar.specs.Views.{annotation_of};
ghost use Rattle.cad_grammar.specs.Trees.{annotations_of};
ghost use Rattle.cad_declarations.specs.Builtins as built_in;
ghost use Rattle.cad_declarations.specs.Scopes as scopes;
ghost use Rattle.cad_declarations.specs.Views.{form_of, member_of, signature_of};
ghost use Rattle.cad_scopes.specs.Views.{meaning_view};
ghost use Rattle.cad_typing.specs.Access as access;
ghost use Rattle.cad_typing.specs.Calls as spec;
ghost use Rattle.cad_typing.specs.Environments as environments;
ghost use Rattle.cad_typing.specs.Environments.{◌>=>◌};
ghost use Rattle.cad_typing.specs.Fields as fields;
ghost use Rattle.cad_typing.specs.Names as naming;
ghost use Rattle.cad_typing.specs.Receivers as receivers;
ghost use Rattle.cad_typing.specs.Types as classes;
ghost use Rattle.cad_environment.specs.Views.{environment_of, receiver_of, base_of};
ghost use Rattle.cad_infer_calls.specs.Views.{call_view, invocation_view};
ghost use Rattle.cad_infer_members.specs.Views.{found_view};

use crate::call::{Call, Callee, Invocation, Method};
use crate::constructors::{call_builtin, call_constructor, call_type, given_types};
use crate::parameters::{
    count_of, declared_parameters, one_type, parameters_with, plain_parameter,
};
use crate::type_arguments::{has_no_types, type_arguments};
use cad_builtins::{builtin_member_of_type, is_read};
use cad_declarations::{Member, MemberKind, Signature, discard_type};
use cad_environment::{
    Base, Environment, Receiver, discard_receiver, is_postcondition, of_contract, rights,
    stands_in_contract, type_inside,
};
use cad_grammar::TypeAnnotation;
use cad_infer_members::{Found, found_member, result_through, serves};
use cad_parameters::{Count, Takes};
use cad_scopes::{Meaning, meaning};
use cad_syntax::{Basic, CadType, Name, TypeId};
use cad_type_classes::is_never_type;
use cad_types::{Builtin, Sort};
use std::alloc::{AllocError, Global};

/// A declared function of a value.
fn invoke_signature(alloc: Global, name: &Name, f: &Signature) -> Result<Invocation, AllocError>
    ensures { IfOk result (λ i. invocation_view i ≡ spec.invoke_signature name.now (signature_of f.now)) }
{
    let name = name.clone()?;
    let parameters = declared_parameters(alloc, f.parameters.as_slice())?;
    let outcome = f.result.clone()?;
    let method = Method::Declared {
        name,
        is_view: f.is_view,
        is_never: is_never_type(&f.result),
    };
    Ok(Invocation {
        method,
        parameters,
        count: Count::Exactly,
        outcome,
    })
}

/// A declared member of a value and what it is, if that is a function and is served.
fn invoke_form(
    alloc: Global,
    env: Environment<'_>,
    r: &Receiver,
    x: &Member,
    kind: &MemberKind,
) -> Result<Option<Invocation>, AllocError>
    ensures { IfOk result (λ i. option_map invocation_view i ≡ spec.invoke_form (environment_of env.entry) (receiver_of r.now) (member_of x.now) (form_of kind.now)) }
{
    match kind {
        MemberKind::Function { signature, .. } => invoke_function(alloc, env, r, x, signature),
        MemberKind::Field { .. } => Ok(None),
    }
}

/// A declared function of a value, if it is served.
fn invoke_function(
    alloc: Global,
    env: Environment<'_>,
    r: &Receiver,
    x: &Member,
    f: &Signature,
) -> Result<Option<Invocation>, AllocError>
    ensures { IfOk result (λ i. option_map invocation_view i ≡ (access.rights (environment_of env.entry) (receiver_of r.now) (member_of x.now) >=> (λ right. Some (spec.invoke_signature x.now.name (signature_of f.now))))) }
{
    match rights(alloc, env, r, x)? {
        Some(_) => Ok(Some(invoke_signature(alloc, &x.name, f)?)),
        None => Ok(None),
    }
}

/// A built-in member of a value, with its type arguments.
fn invoke_typed(
    alloc: Global,
    env: Environment<'_>,
    r: &Receiver,
    member: Builtin,
    types: Vec<CadType>,
) -> Result<Invocation, AllocError>
    ensures { IfOk result (λ i. invocation_view i ≡ spec.invoke_typed (environment_of env.entry) (receiver_of r.now) member (map pure_type types.items)) }
{
    let parameters = parameters_with(alloc, env, member, &r.declared, types.as_slice())?;
    let argument = one_type(types.as_slice())?;
    let outcome = result_through(alloc, env, r, &argument, member);
    discard_type(argument);
    let outcome = outcome?;
    Ok(Invocation {
        method: Method::BuiltIn(member, types),
        parameters,
        count: count_of(member),
        outcome,
    })
}

/// Whether a built-in member is called, and served.
fn is_called_there(
    alloc: Global,
    env: Environment<'_>,
    r: &Receiver,
    member: Builtin,
) -> Result<bool, AllocError>
    ensures { IfOk result (λ b. b ≡ (not (built_in.is_read member) && fields.serves (environment_of env.entry) (receiver_of r.now) member)) }
{
    if is_read(member) {
        Ok(false)
    } else {
        serves(alloc, env, r, member)
    }
}

/// A built-in member with its type arguments.
fn invoke_with(
    alloc: Global,
    env: Environment<'_>,
    types: &[TypeAnnotation],
    r: &Receiver,
    member: Builtin,
) -> Result<Option<Invocation>, AllocError>
    ensures { IfOk result (λ i. option_map invocation_view i ≡ (spec.type_arguments (environment_of env.entry) member (annotations_of (map annotation_of types.now)) >=> (λ ts. Some (spec.invoke_typed (environment_of env.entry) (receiver_of r.now) member ts)))) }
{
    match type_arguments(alloc, env, member, types)? {
        Some(given) => Ok(Some(invoke_typed(alloc, env, r, member, given)?)),
        None => Ok(None),
    }
}

/// A built-in member of a value, if it is called and is served.
fn invoke_built_in(
    alloc: Global,
    env: Environment<'_>,
    types: &[TypeAnnotation],
    r: &Receiver,
    member: Builtin,
) -> Result<Option<Invocation>, AllocError>
    ensures { IfOk result (λ i. option_map invocation_view i ≡ spec.invoke_found (environment_of env.entry) (annotations_of (map annotation_of types.now)) (receiver_of r.now) (fields.built_in_member member)) }
{
    if is_called_there(alloc, env, r, member)? {
        invoke_with(alloc, env, types, r, member)
    } else {
        Ok(None)
    }
}

/// A declared member of a value, which has no type arguments.
fn invoke_declared(
    alloc: Global,
    env: Environment<'_>,
    types: &[TypeAnnotation],
    r: &Receiver,
    x: &Member,
) -> Result<Option<Invocation>, AllocError>
    ensures { IfOk result (λ i. option_map invocation_view i ≡ spec.invoke_found (environment_of env.entry) (annotations_of (map annotation_of types.now)) (receiver_of r.now) (fields.declared_member (member_of x.now))) }
{
    if has_no_types(types) {
        invoke_form(alloc, env, r, x, &x.kind)
    } else {
        Ok(None)
    }
}

/// A member that was found, if it is called.
fn invoke_found(
    alloc: Global,
    env: Environment<'_>,
    types: &[TypeAnnotation],
    r: &Receiver,
    found: Found<'_>,
) -> Result<Option<Invocation>, AllocError>
    ensures { IfOk result (λ i. option_map invocation_view i ≡ spec.invoke_found (environment_of env.entry) (annotations_of (map annotation_of types.now)) (receiver_of r.now) (found_view found.entry)) }
{
    match found {
        Found::Declared(x) => invoke_declared(alloc, env, types, r, x),
        Found::BuiltIn(member) => invoke_built_in(alloc, env, types, r, member),
    }
}

/// A member that is called.
pub fn invoke(
    alloc: Global,
    env: Environment<'_>,
    types: &[TypeAnnotation],
    name: &Name,
    r: &Receiver,
) -> Result<Option<Invocation>, AllocError>
    ensures { IfOk result (λ i. option_map invocation_view i ≡ spec.invoke (environment_of env.entry) (annotations_of (map annotation_of types.now)) name.now (receiver_of r.now)) }
{
    match found_member(env, &r.declared, name) {
        Some(found) => invoke_found(alloc, env, types, r, found),
        None => Ok(None),
    }
}

/// The call of a function of a value, with the value.
fn call_method(r: Receiver, i: Invocation) -> Call
    ensures { call_view result ≡ spec.call_method (receiver_of r) (invocation_view i) }
{
    discard_type(r.declared);
    Call {
        hidden: r.hidden,
        callee: Callee::Method(r.place, i.method),
        parameters: i.parameters,
        count: i.count,
        outcome: i.outcome,
    }
}

/// The call `a.n(..)` of a value.
fn method_call(
    alloc: Global,
    env: Environment<'_>,
    types: &[TypeAnnotation],
    name: &Name,
    r: Receiver,
) -> Result<Option<Call>, AllocError>
    ensures { IfOk result (λ c. option_map call_view c ≡ spec.method_call (environment_of env.entry) (annotations_of (map annotation_of types.now)) name.now (receiver_of r)) }
{
    match invoke(alloc, env, types, name, &r) {
        Ok(Some(i)) => Ok(Some(call_method(r, i))),
        Ok(None) => {
            discard_receiver(r);
            Ok(None)
        }
        Err(error) => {
            discard_receiver(r);
            Err(error)
        }
    }
}

/// A built-in member of a type, if it is called.
fn type_member_call(
    alloc: Global,
    env: Environment<'_>,
    types: &[TypeAnnotation],
    t: &CadType,
    member: Builtin,
) -> Result<Option<Call>, AllocError>
    ensures { IfOk result (λ c. option_map call_view c ≡ environments.when (spec.has_no_types (annotations_of (map annotation_of types.now)) && not (built_in.is_read member)) (Some (spec.call_builtin (environment_of env.entry) (pure_type t.now) (spec.given_types (pure_type t.now)) member []))) }
{
    if has_no_types(types) && !is_read(member) {
        let given = given_types(alloc, t)?;
        Ok(Some(call_builtin(alloc, env, t, given, member)?))
    } else {
        Ok(None)
    }
}

/// The call `T.n(..)` of a type.
fn type_method_call(
    alloc: Global,
    env: Environment<'_>,
    types: &[TypeAnnotation],
    name: &Name,
    t: &CadType,
) -> Result<Option<Call>, AllocError>
    ensures { IfOk result (λ c. option_map call_view c ≡ spec.type_method_call (environment_of env.entry) (annotations_of (map annotation_of types.now)) name.now (pure_type t.now)) }
{
    match builtin_member_of_type(t, name) {
        Some(member) => type_member_call(alloc, env, types, t, member),
        None => Ok(None),
    }
}

/// The call `C.T(..)` of a contract; it has no type arguments.
fn type_inside_call(
    alloc: Global,
    env: Environment<'_>,
    types: &[TypeAnnotation],
    id: &TypeId,
    name: &Name,
) -> Result<Option<Call>, AllocError>
    ensures { IfOk result (λ c. option_map call_view c ≡ spec.type_inside_call (environment_of env.entry) (annotations_of (map annotation_of types.now)) id.now name.now) }
{
    if has_no_types(types) {
        inner_type_call(alloc, env, id, name)
    } else {
        Ok(None)
    }
}

/// The call of a type that a contract declares.
fn inner_type_call(
    alloc: Global,
    env: Environment<'_>,
    id: &TypeId,
    name: &Name,
) -> Result<Option<Call>, AllocError>
    ensures { IfOk result (λ c. option_map call_view c ≡ (naming.type_inside (environment_of env.entry) id.now name.now >=> spec.call_type (environment_of env.entry))) }
{
    match type_inside(env, id, name)? {
        Some(t) => {
            let call = call_type(alloc, env, &t);
            discard_type(t);
            call
        }
        None => Ok(None),
    }
}

/// A function of a contract.
fn contract_function(
    alloc: Global,
    env: Environment<'_>,
    types: &[TypeAnnotation],
    name: &Name,
    id: TypeId,
) -> Result<Option<Call>, AllocError>
    ensures { IfOk result (λ c. option_map call_view c ≡ spec.method_call (environment_of env.entry) (annotations_of (map annotation_of types.now)) name.now (receivers.of_contract id)) }
{
    let receiver = of_contract(id)?;
    let call = method_call(alloc, env, types, name, receiver)?;
    Ok(call)
}

/// A call that was found, else that of a type that a contract declares.
fn or_inside(
    alloc: Global,
    env: Environment<'_>,
    types: &[TypeAnnotation],
    found: Option<Call>,
    id: &TypeId,
    name: &Name,
) -> Result<Option<Call>, AllocError>
    ensures { IfOk result (λ c. option_map call_view c ≡ option_or (option_map call_view found) (spec.type_inside_call (environment_of env.entry) (annotations_of (map annotation_of types.now)) id.now name.now)) }
{
    match found {
        Some(call) => Ok(Some(call)),
        None => type_inside_call(alloc, env, types, id, name),
    }
}

/// A function of a contract, or a type that it declares.
fn contract_call(
    alloc: Global,
    env: Environment<'_>,
    types: &[TypeAnnotation],
    name: &Name,
    id: &TypeId,
) -> Result<Option<Call>, AllocError>
    ensures { IfOk result (λ c. option_map call_view c ≡ spec.call_member (environment_of env.entry) (annotations_of (map annotation_of types.now)) name.now (receivers.contract id.now)) }
{
    let own = id.clone()?;
    let found = contract_function(alloc, env, types, name, own)?;
    let call = or_inside(alloc, env, types, found, id, name)?;
    Ok(call)
}

/// The call `a.n(..)`, of what stands before the dot; None where it has no such function.
pub fn call_member(
    alloc: Global,
    env: Environment<'_>,
    types: &[TypeAnnotation],
    name: &Name,
    base: Base,
) -> Result<Option<Call>, AllocError>
    ensures { IfOk result (λ c. option_map call_view c ≡ spec.call_member (environment_of env.entry) (annotations_of (map annotation_of types.now)) name.now (base_of base)) }
{
    match base {
        Base::Value(r) => method_call(alloc, env, types, name, r),
        Base::Contract(id) => contract_call(alloc, env, types, name, &id),
        Base::TypeName(t) => {
            let call = type_method_call(alloc, env, types, name, &t);
            discard_type(t);
            call
        }
        Base::Transaction => Ok(None),
        Base::Chained(r, _) => {
            discard_receiver(r);
            Ok(None)
        }
    }
}

/// The identifier of the resource that a name stands for.
fn resource_named(found: Option<Meaning>) -> Option<TypeId>
    ensures { result ≡ spec.resource_named (option_map meaning_view found) }
{
    match found {
        Some(Meaning::Type(id, sort)) => if_resource(id, sort),
        _ => None,
    }
}

/// An identifier, where that of a resource.
fn if_resource(id: TypeId, sort: Sort) -> Option<TypeId>
    ensures { result ≡ spec.resource_named (Some (scopes.type_meaning id sort)) }
{
    match sort {
        Sort::Resource => Some(id),
        _ => None,
    }
}

/// A resource is made by the contract that declares it alone.
fn create_there(
    alloc: Global,
    env: Environment<'_>,
    id: &TypeId,
) -> Result<Option<Call>, AllocError>
    ensures { IfOk result (λ c. option_map call_view c ≡ environments.when (access.stands_in_contract (environment_of env.entry) id.now) (Some (spec.call_constructor (environment_of env.entry) (spec.of_resource id.now) id.now))) }
{
    if stands_in_contract(env, id) {
        let callee = Callee::Resource(id.clone()?);
        Ok(Some(call_constructor(alloc, env, callee, id)?))
    } else {
        Ok(None)
    }
}

/// The call under `create`, of a resource that this contract declares; None where the name is no such resource.
pub fn create_call(
    alloc: Global,
    env: Environment<'_>,
    names: &[Name],
) -> Result<Option<Call>, AllocError>
    ensures { IfOk result (λ c. option_map call_view c ≡ spec.create_call (environment_of env.entry) names.now) }
{
    match resource_named(meaning(alloc, env.scope(), names)?) {
        Some(id) => create_there(alloc, env, &id),
        None => Ok(None),
    }
}

/// The call `before(e)`: a value at entry, which is no resource; its number is how many stand before it.
pub fn before_call(
    alloc: Global,
    env: Environment<'_>,
    types: &[TypeAnnotation],
) -> Result<Option<Call>, AllocError>
    ensures { IfOk result (λ c. option_map call_view c ≡ spec.before_call (environment_of env.entry) (annotations_of (map annotation_of types.now))) }
{
    if is_postcondition(env.part) && has_no_types(types) {
        Ok(Some(entry_call(alloc, env.befores)?))
    } else {
        Ok(None)
    }
}

/// The call of the `before` with this number.
fn entry_call(alloc: Global, number: u32) -> Result<Call, AllocError>
    ensures { IfOk result (λ c. call_view c ≡ record { hidden = None; callee = spec.of_before number; parameters = spec.plain_parameter spec.any_plain ∷ []; count = spec.exactly; result = classes.void }) }
{
    let mut parameters = Vec::new(alloc);
    parameters.push(plain_parameter(Takes::AnyPlain))?;
    Ok(Call {
        hidden: None,
        callee: Callee::Before(number),
        parameters,
        count: Count::Exactly,
        outcome: CadType::Basic(Basic::Void),
    })
}
