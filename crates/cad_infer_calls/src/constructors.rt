// Functions, types and constructors that are called.
ghost use Rattle.std.specs.Prelude.{◌≡◌, [], ◌∷◌, Some, IfOk, map, option_map};
ghost use Rattle.cad_syntax.specs.Types as pure;
ghost use Rattle.cad_syntax.specs.Types.{pure_type};
ghost use Rattle.cad_syntax.specs.declared.types.Authorization.TheVariants as rights;
ghost use Rattle.cad_grammar.specs.Views.{annotation_of};
ghost use Rattle.cad_grammar.specs.Trees.{annotations_of};
ghost use Rattle.cad_types.specs.Classes.{has_sort};
ghost use Rattle.cad_types.specs.Declarations.{found};
ghost use Rattle.cad_types.specs.declared.builtin.Builtin.TheVariants as m;
ghost use Rattle.cad_declarations.specs.Builtins as built_in;
ghost use Rattle.cad_declarations.specs.Members.{type_in};
ghost use Rattle.cad_declarations.specs.Views.{form_of, signature_of, type_entry_of};
ghost use Rattle.cad_typing.specs.Calls as spec;
ghost use Rattle.cad_typing.specs.Environments as environments;
ghost use Rattle.cad_typing.specs.Names as naming;
ghost use Rattle.cad_typing.specs.Types as classes;
ghost use Rattle.cad_environment.specs.Views.{environment_of, head_of};
ghost use Rattle.cad_infer_calls.specs.Views.{callee_view, call_view};
ghost use Rattle.cad_parameters.specs.Views.{parameter_view};

use crate::call::{Call, Callee, discard_callee};
use crate::parameters::{count_of, declared_parameters, one_type, parameters_with};
use crate::type_arguments::{has_no_types, type_arguments};
use cad_builtins::{builtin_call_of_type, result_of};
use cad_declarations::{Member, MemberKind, Signature, TypeDeclaration, discard_type};
use cad_environment::{Environment, Head};
use cad_grammar::TypeAnnotation;
use cad_parameters::{Count, Parameter};
use cad_syntax::{Authorization, Basic, CadType, Name, TypeId};
use cad_type_classes::is_never_type;
use cad_types::{Builtin, Sort};
use std::alloc::{AllocError, Global};

/// The call of a function that stands outside a contract.
fn call_function(alloc: Global, name: &Name, f: &Signature) -> Result<Call, AllocError>
    ensures { IfOk result (λ c. call_view c ≡ spec.call_function name.now (signature_of f.now)) }
{
    let name = name.clone()?;
    let parameters = declared_parameters(alloc, f.parameters.as_slice())?;
    let outcome = f.result.clone()?;
    let callee = Callee::Function {
        name,
        is_view: f.is_view,
        is_never: is_never_type(&f.result),
    };
    Ok(Call {
        hidden: None,
        callee,
        parameters,
        count: Count::Exactly,
        outcome,
    })
}

/// The call of such a member, if it is a function.
fn call_form(alloc: Global, name: &Name, kind: &MemberKind) -> Result<Option<Call>, AllocError>
    ensures { IfOk result (λ c. option_map call_view c ≡ spec.call_form name.now (form_of kind.now)) }
{
    match kind {
        MemberKind::Function { signature, .. } => Ok(Some(call_function(alloc, name, signature)?)),
        MemberKind::Field { .. } => Ok(None),
    }
}

/// The result of a built-in member that is met through no reference.
fn result_without(
    alloc: Global,
    env: Environment<'_>,
    on: &CadType,
    types: &[CadType],
    member: Builtin,
) -> Result<CadType, AllocError>
    ensures { IfOk result (λ t. pure_type t ≡ built_in.result_of (environments.kinds (environment_of env.entry)) rights.Unauthorized (pure_type on.now) (spec.one_type (map pure_type types.now)) member) }
{
    let argument = one_type(types)?;
    let outcome = result_of(
        alloc,
        env.kinds(),
        &Authorization::Unauthorized,
        on,
        &argument,
        member,
    );
    discard_type(argument);
    outcome
}

/// A built-in member of a type, which has no type arguments.
pub(crate) fn call_builtin(
    alloc: Global,
    env: Environment<'_>,
    on: &CadType,
    given: Vec<CadType>,
    member: Builtin,
) -> Result<Call, AllocError>
    ensures { IfOk result (λ c. call_view c ≡ spec.call_builtin (environment_of env.entry) (pure_type on.now) (map pure_type given.items) member []) }
{
    let parameters = parameters_with(alloc, env, member, on, &[])?;
    let outcome = result_without(alloc, env, on, &[], member)?;
    Ok(Call {
        hidden: None,
        callee: Callee::Builtin(member, given),
        parameters,
        count: count_of(member),
        outcome,
    })
}

/// A built-in function with its type arguments.
fn call_plain_function(
    alloc: Global,
    env: Environment<'_>,
    member: Builtin,
    types: Vec<CadType>,
) -> Result<Call, AllocError>
    ensures { IfOk result (λ c. call_view c ≡ spec.call_builtin (environment_of env.entry) classes.void (map pure_type types.items) member (map pure_type types.items)) }
{
    let void = CadType::Basic(Basic::Void);
    let parameters = match parameters_with(alloc, env, member, &void, types.as_slice()) {
        Ok(parameters) => parameters,
        Err(error) => {
            discard_type(void);
            return Err(error);
        }
    };
    let found = result_without(alloc, env, &void, types.as_slice(), member);
    discard_type(void);
    let outcome = found?;
    Ok(Call {
        hidden: None,
        callee: Callee::Builtin(member, types),
        parameters,
        count: count_of(member),
        outcome,
    })
}

/// `Type<T>()`
fn call_meta(alloc: Global, env: Environment<'_>, types: Vec<CadType>) -> Result<Call, AllocError>
    ensures { IfOk result (λ c. call_view c ≡ spec.call_built_in_function (environment_of env.entry) m.MetaType (map pure_type types.items)) }
{
    let void = CadType::Basic(Basic::Void);
    let found = result_without(alloc, env, &void, &[], Builtin::MetaType);
    discard_type(void);
    let outcome = found?;
    match one_type(types.as_slice()) {
        Ok(first) => Ok(Call {
            hidden: None,
            callee: Callee::Type(first),
            parameters: Vec::new(alloc),
            count: Count::Exactly,
            outcome,
        }),
        Err(error) => {
            discard_type(outcome);
            Err(error)
        }
    }
}

/// A built-in function with its type arguments; `Type<T>()` is none that is called.
#[tactic(auto, using(crate::proofs::Plain::is_plain))]
fn call_built_in_function(
    alloc: Global,
    env: Environment<'_>,
    member: Builtin,
    types: Vec<CadType>,
) -> Result<Call, AllocError>
    ensures { IfOk result (λ c. call_view c ≡ spec.call_built_in_function (environment_of env.entry) member (map pure_type types.items)) }
{
    match member {
        Builtin::MetaType => call_meta(alloc, env, types),
        _ => call_plain_function(alloc, env, member, types),
    }
}

/// The parameters of the initializer that is written, or of the event.
fn written_parameters(alloc: Global, t: &TypeDeclaration) -> Result<Vec<Parameter>, AllocError>
    ensures { IfOk result (λ all. map parameter_view all.items ≡ spec.initializer_parameters (Some (type_entry_of t.now))) }
{
    match &t.initializer {
        Some(f) => declared_parameters(alloc, f.parameters.as_slice()),
        None => Ok(Vec::new(alloc)),
    }
}

/// The parameters of the initializer of a declared type, or of an event.
pub fn initializer_parameters(
    alloc: Global,
    t: Option<&TypeDeclaration>,
) -> Result<Vec<Parameter>, AllocError>
    ensures { IfOk result (λ all. map parameter_view all.items ≡ spec.initializer_parameters (option_map (λ x. type_entry_of x.now) t.entry)) }
{
    match t {
        Some(t) => written_parameters(alloc, t),
        None => Ok(Vec::new(alloc)),
    }
}

/// What makes a value of a declared type takes, and its type.
fn made_by(
    alloc: Global,
    env: Environment<'_>,
    id: &TypeId,
) -> Result<(Vec<Parameter>, CadType), AllocError>
    ensures parameters { IfOk result (λ both. map parameter_view both.0.items ≡ spec.initializer_parameters (type_in (environment_of env.entry).tables.types id.now)) }
    ensures outcome { IfOk result (λ both. pure_type both.1 ≡ pure.declared id.now) }
{
    let made = id.clone()?;
    let parameters = initializer_parameters(alloc, env.tables().find(id))?;
    Ok((parameters, CadType::Declared(made)))
}

/// The call that makes a value of a declared type.
pub fn call_constructor(
    alloc: Global,
    env: Environment<'_>,
    callee: Callee,
    id: &TypeId,
) -> Result<Call, AllocError>
    ensures { IfOk result (λ c. call_view c ≡ spec.call_constructor (environment_of env.entry) (callee_view callee) id.now) }
{
    match made_by(alloc, env, id) {
        Ok((parameters, outcome)) => Ok(Call {
            hidden: None,
            callee,
            parameters,
            count: Count::Exactly,
            outcome,
        }),
        Err(error) => {
            discard_callee(callee);
            Err(error)
        }
    }
}

/// Whether a declared type is a struct.
fn is_struct_sort(sort: Sort) -> bool
    ensures { result ≡ spec.is_struct_sort sort }
{
    matches!(sort, Sort::Struct)
}

/// Whether a declared type is an event.
fn is_event_sort(sort: Sort) -> bool
    ensures { result ≡ spec.is_event_sort sort }
{
    matches!(sort, Sort::Event)
}

/// Whether an identifier is that of an event.
fn is_event_id(env: Environment<'_>, id: &TypeId) -> bool
    ensures { result ≡ has_sort spec.is_event_sort (found (environments.kinds (environment_of env.entry)) id.now) }
{
    match env.kinds().find(id) {
        Some(found) => is_event_sort(found.sort),
        None => false,
    }
}

/// Whether a type is an event.
pub fn is_event(env: Environment<'_>, t: &CadType) -> bool
    ensures { result ≡ spec.has_declared_sort (environment_of env.entry) spec.is_event_sort (pure_type t.now) }
{
    match t {
        CadType::Declared(id) => is_event_id(env, id),
        _ => false,
    }
}

/// Whether an identifier is that of a struct.
fn is_struct_id(env: Environment<'_>, id: &TypeId) -> bool
    ensures { result ≡ has_sort spec.is_struct_sort (found (environments.kinds (environment_of env.entry)) id.now) }
{
    match env.kinds().find(id) {
        Some(found) => is_struct_sort(found.sort),
        None => false,
    }
}

/// The call that makes a struct, if the type is one.
fn struct_call(alloc: Global, env: Environment<'_>, t: &CadType) -> Result<Option<Call>, AllocError>
    ensures { IfOk result (λ c. option_map call_view c ≡ spec.struct_call (environment_of env.entry) (pure_type t.now)) }
{
    match t {
        CadType::Declared(id) => struct_made(alloc, env, id),
        _ => Ok(None),
    }
}

/// The call that makes a struct, if the identifier is one of a struct.
fn struct_made(alloc: Global, env: Environment<'_>, id: &TypeId) -> Result<Option<Call>, AllocError>
    ensures { IfOk result (λ c. option_map call_view c ≡ spec.struct_call (environment_of env.entry) (pure.declared id.now)) }
{
    if is_struct_id(env, id) {
        let callee = Callee::Struct(id.clone()?);
        Ok(Some(call_constructor(alloc, env, callee, id)?))
    } else {
        Ok(None)
    }
}

/// The types that evaluation is given: of `E(rawValue: r)` the enum.
pub(crate) fn given_types(alloc: Global, t: &CadType) -> Result<Vec<CadType>, AllocError>
    ensures { IfOk result (λ all. map pure_type all.items ≡ spec.given_types (pure_type t.now)) }
{
    match t {
        CadType::Declared(id) => one_declared(alloc, id),
        _ => Ok(Vec::new(alloc)),
    }
}

/// A declared type, as the only one.
fn one_declared(alloc: Global, id: &TypeId) -> Result<Vec<CadType>, AllocError>
    ensures { IfOk result (λ all. map pure_type all.items ≡ pure.declared id.now ∷ []) }
{
    let mut all = Vec::new(alloc);
    all.push(CadType::Declared(id.clone()?))?;
    Ok(all)
}

/// A struct is made, a number converted, or a case of an enum found.
pub(crate) fn call_type(
    alloc: Global,
    env: Environment<'_>,
    t: &CadType,
) -> Result<Option<Call>, AllocError>
    ensures { IfOk result (λ c. option_map call_view c ≡ spec.call_type (environment_of env.entry) (pure_type t.now)) }
{
    match struct_call(alloc, env, t)? {
        Some(call) => Ok(Some(call)),
        None => conversion_call(alloc, env, t, builtin_call_of_type(env.kinds(), t)),
    }
}

/// The call of the built-in member that a type is when it is called.
fn conversion_call(
    alloc: Global,
    env: Environment<'_>,
    t: &CadType,
    member: Option<Builtin>,
) -> Result<Option<Call>, AllocError>
    ensures { IfOk result (λ c. option_map call_view c ≡ option_map (λ b. spec.call_builtin (environment_of env.entry) (pure_type t.now) (spec.given_types (pure_type t.now)) b []) member) }
{
    match member {
        Some(member) => {
            let given = given_types(alloc, t)?;
            Ok(Some(call_builtin(alloc, env, t, given, member)?))
        }
        None => Ok(None),
    }
}

/// The call of a function by its name; it has no type arguments.
fn call_member_function(
    alloc: Global,
    types: &[TypeAnnotation],
    f: &Member,
) -> Result<Option<Call>, AllocError>
    ensures { IfOk result (λ c. option_map call_view c ≡ environments.when (spec.has_no_types (annotations_of (map annotation_of types.now))) (spec.call_form f.now.name (form_of f.now.kind))) }
{
    if has_no_types(types) {
        call_form(alloc, &f.name, &f.kind)
    } else {
        Ok(None)
    }
}

/// The call of a type by its name; it has no type arguments.
fn call_named_type(
    alloc: Global,
    env: Environment<'_>,
    types: &[TypeAnnotation],
    t: &CadType,
) -> Result<Option<Call>, AllocError>
    ensures { IfOk result (λ c. option_map call_view c ≡ environments.when (spec.has_no_types (annotations_of (map annotation_of types.now))) (spec.call_type (environment_of env.entry) (pure_type t.now))) }
{
    if has_no_types(types) {
        call_type(alloc, env, t)
    } else {
        Ok(None)
    }
}

/// The call of a built-in function, if its type arguments are as it asks for them.
fn call_named_function(
    alloc: Global,
    env: Environment<'_>,
    types: &[TypeAnnotation],
    member: Builtin,
) -> Result<Option<Call>, AllocError>
    ensures { IfOk result (λ c. option_map call_view c ≡ spec.call_head (environment_of env.entry) (annotations_of (map annotation_of types.now)) (naming.builtin_head member)) }
{
    match type_arguments(alloc, env, member, types)? {
        Some(given) => Ok(Some(call_built_in_function(alloc, env, member, given)?)),
        None => Ok(None),
    }
}

/// The call of what a name stands for; None where it isn't called so.
pub fn call_head(
    alloc: Global,
    env: Environment<'_>,
    types: &[TypeAnnotation],
    head: Head<'_>,
) -> Result<Option<Call>, AllocError>
    ensures { IfOk result (λ c. option_map call_view c ≡ spec.call_head (environment_of env.entry) (annotations_of (map annotation_of types.now)) (head_of head.entry)) }
{
    match head {
        Head::Function(f) => call_member_function(alloc, types, f),
        Head::Type(t) => {
            let call = call_named_type(alloc, env, types, &t);
            discard_type(t);
            call
        }
        Head::Builtin(member) => call_named_function(alloc, env, types, member),
        Head::Local(_) | Head::Contract(_) => Ok(None),
    }
}
