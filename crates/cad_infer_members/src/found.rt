// Members that are found, and read.
ghost use Rattle.std.specs.Prelude.{◌≡◌, ◌&&◌, ◌||◌, not, IfOk, option_map};
ghost use Rattle.cad_syntax.specs.Types as pure;
ghost use Rattle.cad_syntax.specs.Types.{pure_type};
ghost use Rattle.cad_declarations.specs.Builtins as builtins;
ghost use Rattle.cad_declarations.specs.Typed as tree;
ghost use Rattle.cad_declarations.specs.Views.{member_of, form_of};
ghost use Rattle.cad_typing.specs.Access as access;
ghost use Rattle.cad_typing.specs.Environments as environments;
ghost use Rattle.cad_typing.specs.Fields as spec;
ghost use Rattle.cad_typing.specs.Types as types;
ghost use Rattle.cad_environment.specs.Views.{environment_of, receiver_of};
ghost use Rattle.cad_infer_members.specs.Views.{found_view, reading_view};

use cad_builtins::{builtin_member, is_read, needed, needs_reference, result_of};
use cad_declarations::{Member, MemberKind, Use, discard_type, discard_use};
use cad_environment::{Environment, Receiver, is_granted, rights};
use cad_parameters::is_owned;
use cad_syntax::{Authorization, Basic, CadType, Name, TypeId};
use cad_typed_trees::{builtin_field_use, field_use, read_through};
use cad_types::Builtin;
use std::alloc::{AllocError, Global};

/// A member by its name.
#[derive(Clone, Copy)]
pub enum Found<'a> {
    Declared(&'a Member),
    BuiltIn(Builtin),
}

/// A member that is read: what is done with the receiver, and the type of what that gives.
#[derive(Drop)]
pub struct Reading {
    pub usage: Use,
    pub declared: CadType,
}

/// Lets a member go that is read.
pub fn discard_reading(reading: Reading) {
    discard_use(reading.usage);
    discard_type(reading.declared)
}

/// A member by its name: a declared one, or one that is built in.
pub fn found_member<'a>(env: Environment<'a>, t: &CadType, name: &Name) -> Option<Found<'a>>
    ensures { option_map found_view result ≡ spec.found_member (environment_of env.entry) (pure_type t.now) name.now }
{
    if let Some(member) = env.tables().member(t, name) {
        return Some(Found::Declared(member));
    }
    found_built_in(builtin_member(env.kinds(), t, name))
}

fn found_built_in<'a>(member: Option<Builtin>) -> Option<Found<'a>>
    ensures { option_map found_view result ≡ option_map spec.built_in_member member }
{
    match member {
        Some(member) => Some(Found::BuiltIn(member)),
        None => None,
    }
}

fn is_account(member: Builtin) -> bool
    ensures { result ≡ spec.is_account member }
{
    matches!(member, Builtin::ContractAccount)
}

/// Whether a type is the contract that the program is.
fn is_program(env: Environment<'_>, t: &CadType) -> bool
    ensures { result ≡ spec.is_program (environment_of env.entry) (pure_type t.now) }
{
    match t {
        CadType::Declared(id) => is_own(env, id),
        _ => false,
    }
}

fn is_own(env: Environment<'_>, id: &TypeId) -> bool
    ensures { result ≡ spec.is_program (environment_of env.entry) (pure.declared id.now) }
{
    match &env.tables().contract {
        Some(contract) => contract.same(id),
        None => false,
    }
}

/// Whether a built-in member is served: by the rights of a reference; those of accounts through references alone; `account`
/// on the contract itself, inside that contract.
pub fn serves(
    alloc: Global,
    env: Environment<'_>,
    r: &Receiver,
    member: Builtin,
) -> Result<bool, AllocError>
    ensures { IfOk result (λ b. b ≡ spec.serves (environment_of env.entry) (receiver_of r.now) member) }
{
    if is_granted_for(alloc, &r.grant, member)? {
        Ok(is_met(&r.grant, member) && is_met_there(env, r, member))
    } else {
        Ok(false)
    }
}

/// Whether the rights of a reference serve a built-in member.
fn is_granted_for(
    alloc: Global,
    grant: &Option<Authorization>,
    member: Builtin,
) -> Result<bool, AllocError>
    ensures { IfOk result (λ b. b ≡ access.is_granted grant.now (builtins.needed member)) }
{
    match grant {
        Some(_) => {
            let need = needed(alloc, member)?;
            Ok(is_granted(grant.as_ref(), &need))
        }
        None => Ok(true),
    }
}

/// Whether a built-in member isn't one that is met through references alone, where there is none.
fn is_met(grant: &Option<Authorization>, member: Builtin) -> bool
    ensures { result ≡ not (builtins.needs_reference member && spec.is_owned grant.now) }
{
    !(needs_reference(member) && is_owned(grant))
}

/// Whether a built-in member isn't `account`, or stands on the program's own contract.
fn is_met_there(env: Environment<'_>, r: &Receiver, member: Builtin) -> bool
    ensures { result ≡ (not (spec.is_account member) || (spec.is_owned (receiver_of r.now).grant && spec.is_program (environment_of env.entry) (receiver_of r.now).type)) }
{
    !is_account(member) || (is_owned(&r.grant) && is_program(env, &r.declared))
}

/// The result of a built-in member, by what the receiver's reference grants.
pub fn result_through(
    alloc: Global,
    env: Environment<'_>,
    r: &Receiver,
    argument: &CadType,
    member: Builtin,
) -> Result<CadType, AllocError>
    ensures { IfOk result (λ t. pure_type t ≡ builtins.result_of (environments.kinds (environment_of env.entry)) (spec.grant_of (receiver_of r.now)) (receiver_of r.now).type (pure_type argument.now) member) }
{
    match &r.grant {
        Some(grant) => result_of(alloc, env.kinds(), grant, &r.declared, argument, member),
        None => {
            let nothing = Authorization::Unauthorized;
            result_of(alloc, env.kinds(), &nothing, &r.declared, argument, member)
        }
    }
}

/// Through a reference a container or composite is read as a reference.
pub(crate) fn type_read(
    alloc: Global,
    grant: &Option<Authorization>,
    right: &Authorization,
    t: &CadType,
) -> Result<CadType, AllocError>
    ensures { IfOk result (λ made. pure_type made ≡ spec.type_read grant.now right.now (pure_type t.now)) }
{
    match grant {
        Some(_) => read_through(alloc, right, t),
        None => t.clone(),
    }
}

fn read_field(
    alloc: Global,
    env: Environment<'_>,
    r: &Receiver,
    m: &Member,
    t: &CadType,
) -> Result<Option<Reading>, AllocError>
    ensures { IfOk result (λ x. option_map reading_view x ≡ spec.read_field (environment_of env.entry) (receiver_of r.now) (member_of m.now) (pure_type t.now)) }
{
    match rights(alloc, env, r, m)? {
        Some(right) => Ok(Some(field_reading(alloc, r, m, right, t)?)),
        None => Ok(None),
    }
}

/// A field that is read, with what a reference may do that is read from it.
fn field_reading(
    alloc: Global,
    r: &Receiver,
    m: &Member,
    right: Authorization,
    t: &CadType,
) -> Result<Reading, AllocError>
    ensures { IfOk result (λ x. reading_view x ≡ record { usage = tree.get m.now.name right; type = spec.type_read r.now.grant right (pure_type t.now) }) }
{
    let name = m.name.clone()?;
    let declared = type_read(alloc, &r.grant, &right, t)?;
    Ok(Reading {
        usage: field_use(name, right),
        declared,
    })
}

fn read_built_in(
    alloc: Global,
    env: Environment<'_>,
    r: &Receiver,
    member: Builtin,
) -> Result<Option<Reading>, AllocError>
    ensures { IfOk result (λ x. option_map reading_view x ≡ spec.read_built_in (environment_of env.entry) (receiver_of r.now) member) }
{
    if is_read_there(alloc, env, r, member)? {
        Ok(Some(built_in_reading(alloc, env, r, member)?))
    } else {
        Ok(None)
    }
}

/// Whether a built-in member is read, and served.
fn is_read_there(
    alloc: Global,
    env: Environment<'_>,
    r: &Receiver,
    member: Builtin,
) -> Result<bool, AllocError>
    ensures { IfOk result (λ b. b ≡ (builtins.is_read member && spec.serves (environment_of env.entry) (receiver_of r.now) member)) }
{
    if is_read(member) {
        serves(alloc, env, r, member)
    } else {
        Ok(false)
    }
}

fn built_in_reading(
    alloc: Global,
    env: Environment<'_>,
    r: &Receiver,
    member: Builtin,
) -> Result<Reading, AllocError>
    ensures { IfOk result (λ x. reading_view x ≡ record { usage = tree.builtin_field member; type = builtins.result_of (environments.kinds (environment_of env.entry)) (spec.grant_of (receiver_of r.now)) (receiver_of r.now).type types.void member }) }
{
    let declared = result_through(alloc, env, r, &CadType::Basic(Basic::Void), member)?;
    let usage = builtin_field_use(member);
    Ok(Reading { usage, declared })
}

fn read_form(
    alloc: Global,
    env: Environment<'_>,
    r: &Receiver,
    m: &Member,
) -> Result<Option<Reading>, AllocError>
    ensures { IfOk result (λ x. option_map reading_view x ≡ spec.read_form (environment_of env.entry) (receiver_of r.now) (member_of m.now) (form_of m.now.kind)) }
{
    match &m.kind {
        MemberKind::Field { declared, .. } => read_field(alloc, env, r, m, declared),
        MemberKind::Function { .. } => Ok(None),
    }
}

/// A member that was found, as it is read.
pub fn read_found(
    alloc: Global,
    env: Environment<'_>,
    r: &Receiver,
    found: Found<'_>,
) -> Result<Option<Reading>, AllocError>
    ensures { IfOk result (λ x. option_map reading_view x ≡ spec.read_found (environment_of env.entry) (receiver_of r.now) (found_view found.entry)) }
{
    match found {
        Found::Declared(m) => read_form(alloc, env, r, m),
        Found::BuiltIn(member) => read_built_in(alloc, env, r, member),
    }
}

/// A field or built-in member that is read.
pub fn read_member(
    alloc: Global,
    env: Environment<'_>,
    r: &Receiver,
    name: &Name,
) -> Result<Option<Reading>, AllocError>
    ensures { IfOk result (λ x. option_map reading_view x ≡ spec.read_member (environment_of env.entry) (receiver_of r.now) name.now) }
{
    match found_member(env, &r.declared, name) {
        Some(found) => read_found(alloc, env, r, found),
        None => Ok(None),
    }
}
