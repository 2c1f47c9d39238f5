// The members that declared types have in tables.
ghost use Rattle.std.specs.Prelude.{◌≡◌, ◌++◌, filter_map, map, option_copied, option_map, option_to_list, IfOk, OnOk};
ghost use Rattle.cad_grammar.specs.Views as tree;
ghost use Rattle.cad_declarations.specs.Entries as spec;
ghost use Rattle.cad_declarations.specs.Views.{member_of, signature_of};
ghost use Rattle.cad_scopes.specs.Views.{scope_of};

use crate::heads::{access_entry, annotation_entry, function_signature, init_signature};
use cad_declarations::{Member, MemberAccess, MemberKind, Signature};
use cad_grammar::{
    CompositeMember, ContractMember, EventParameter, Field, Function, FunctionBlock,
    InterfaceMember, VariableKind,
};
use cad_scopes::Scope;
use cad_syntax::TypeId;
use std::alloc::{AllocError, Global};

/// A field.
fn field_entry(
    alloc: Global,
    scope: Scope<'_>,
    id: &TypeId,
    x: &Field,
) -> Result<Member, AllocError>
    ensures { IfOk result (λ m. member_of m ≡ spec.field_entry (scope_of scope.entry) id.now (tree.field_of x.now)) }
{
    Ok(Member {
        name: x.name.clone()?,
        access: access_entry(alloc, scope, &x.access)?,
        declared_by: id.clone()?,
        kind: MemberKind::Field {
            kind: x.kind,
            declared: annotation_entry(alloc, scope, &x.annotation)?,
        },
    })
}

/// A function, by whether it has a body.
pub(crate) fn function_entry(
    alloc: Global,
    scope: Scope<'_>,
    id: TypeId,
    has_body: bool,
    x: &Function,
) -> Result<Member, AllocError>
    ensures { IfOk result (λ m. member_of m ≡ spec.function_entry (scope_of scope.entry) id has_body (tree.function_of x.now)) }
{
    Ok(Member {
        name: x.name.clone()?,
        access: access_entry(alloc, scope, &x.access)?,
        declared_by: id,
        kind: MemberKind::Function {
            signature: function_signature(alloc, scope, x)?,
            has_body,
        },
    })
}

/// Whether a block is more than conditions.
fn has_statements(block: Option<&FunctionBlock>) -> bool
    ensures { result ≡ spec.has_statements (option_map tree.block_of (option_copied block.entry)) }
{
    match block {
        Some(block) => match block.body.as_slice() {
            [] => false,
            [_first, ..] => true,
        },
        None => false,
    }
}

/// Appends the field or function that a member of a composite is.
fn push_composite_member(
    all: &mut Vec<Member>,
    alloc: Global,
    scope: Scope<'_>,
    id: &TypeId,
    member: &CompositeMember,
) -> Result<(), AllocError>
    ensures { OnOk result (map member_of all.new.items ≡ map member_of all.old.items ++ option_to_list (spec.composite_member (scope_of scope.entry) id.now (tree.composite_member_of member.now))) }
{
    match member {
        CompositeMember::Field(x) => {
            all.push(field_entry(alloc, scope, id, x)?)?;
            Ok(())
        }
        CompositeMember::Function(x) => {
            all.push(function_entry(alloc, scope, id.clone()?, true, x)?)?;
            Ok(())
        }
        _ => Ok(()),
    }
}

/// The fields and functions of a composite.
#[tactic(auto, using(crate::proofs::Lists::one_more))]
pub(crate) fn composite_members(
    alloc: Global,
    scope: Scope<'_>,
    id: &TypeId,
    members: &[CompositeMember],
) -> Result<Vec<Member>, AllocError>
    ensures { IfOk result (λ all. map member_of all.items ≡ filter_map (spec.composite_member (scope_of scope.entry) id.now) (map tree.composite_member_of members.now)) }
{
    let mut all = Vec::new(alloc);
    for member in members {
        push_composite_member(&mut all, alloc, scope, id, member)?;
    }
    Ok(all)
}

/// A member of an interface.
fn interface_member(
    alloc: Global,
    scope: Scope<'_>,
    id: &TypeId,
    member: &InterfaceMember,
) -> Result<Member, AllocError>
    ensures { IfOk result (λ m. member_of m ≡ spec.interface_member (scope_of scope.entry) id.now (tree.interface_member_of member.now)) }
{
    match member {
        InterfaceMember::Field(x) => field_entry(alloc, scope, id, x),
        InterfaceMember::Function(x) => {
            let has_body = has_statements(x.block.as_ref());
            function_entry(alloc, scope, id.clone()?, has_body, x)
        }
    }
}

/// The fields and functions of an interface.
pub(crate) fn interface_members(
    alloc: Global,
    scope: Scope<'_>,
    id: &TypeId,
    members: &[InterfaceMember],
) -> Result<Vec<Member>, AllocError>
    ensures { IfOk result (λ all. map member_of all.items ≡ map (spec.interface_member (scope_of scope.entry) id.now) (map tree.interface_member_of members.now)) }
{
    let mut all = Vec::new(alloc);
    for member in members {
        all.push(interface_member(alloc, scope, id, member)?)?;
    }
    Ok(all)
}

/// Appends the field or function that a member of a contract is.
fn push_contract_member(
    all: &mut Vec<Member>,
    alloc: Global,
    scope: Scope<'_>,
    id: &TypeId,
    member: &ContractMember,
) -> Result<(), AllocError>
    ensures { OnOk result (map member_of all.new.items ≡ map member_of all.old.items ++ option_to_list (spec.contract_member (scope_of scope.entry) id.now (tree.contract_member_of member.now))) }
{
    match member {
        ContractMember::Field(x) => {
            all.push(field_entry(alloc, scope, id, x)?)?;
            Ok(())
        }
        ContractMember::Function(x) => {
            all.push(function_entry(alloc, scope, id.clone()?, true, x)?)?;
            Ok(())
        }
        _ => Ok(()),
    }
}

/// The fields and functions of a contract.
#[tactic(auto, using(crate::proofs::Lists::one_more))]
pub(crate) fn contract_members(
    alloc: Global,
    scope: Scope<'_>,
    id: &TypeId,
    members: &[ContractMember],
) -> Result<Vec<Member>, AllocError>
    ensures { IfOk result (λ all. map member_of all.items ≡ filter_map (spec.contract_member (scope_of scope.entry) id.now) (map tree.contract_member_of members.now)) }
{
    let mut all = Vec::new(alloc);
    for member in members {
        push_contract_member(&mut all, alloc, scope, id, member)?;
    }
    Ok(all)
}

/// A parameter of an event, which is a field of it.
fn event_field(
    alloc: Global,
    scope: Scope<'_>,
    id: &TypeId,
    p: &EventParameter,
) -> Result<Member, AllocError>
    ensures { IfOk result (λ m. member_of m ≡ spec.event_field (scope_of scope.entry) id.now (tree.event_parameter_of p.now)) }
{
    Ok(Member {
        name: p.parameter.name.clone()?,
        access: MemberAccess::All,
        declared_by: id.clone()?,
        kind: MemberKind::Field {
            kind: Some(VariableKind::Let),
            declared: annotation_entry(alloc, scope, &p.parameter.annotation)?,
        },
    })
}

/// The fields of an event.
pub(crate) fn event_fields(
    alloc: Global,
    scope: Scope<'_>,
    id: &TypeId,
    all: &[EventParameter],
) -> Result<Vec<Member>, AllocError>
    ensures { IfOk result (λ made. map member_of made.items ≡ map (spec.event_field (scope_of scope.entry) id.now) (map tree.event_parameter_of all.now)) }
{
    let mut made = Vec::new(alloc);
    for p in all {
        made.push(event_field(alloc, scope, id, p)?)?;
    }
    Ok(made)
}

/// The first initializer that is written in a composite.
pub(crate) fn composite_init(
    alloc: Global,
    scope: Scope<'_>,
    members: &[CompositeMember],
) -> Result<Option<Signature>, AllocError>
    ensures { IfOk result (λ s. option_map signature_of s ≡ spec.composite_init (scope_of scope.entry) (map tree.composite_member_of members.now)) }
{
    for member in members {
        if let CompositeMember::Init(x) = member {
            return Ok(Some(init_signature(alloc, scope, x)?));
        }
    }
    Ok(None)
}

/// The first initializer that is written in a contract.
pub(crate) fn contract_init(
    alloc: Global,
    scope: Scope<'_>,
    members: &[ContractMember],
) -> Result<Option<Signature>, AllocError>
    ensures { IfOk result (λ s. option_map signature_of s ≡ spec.contract_init (scope_of scope.entry) (map tree.contract_member_of members.now)) }
{
    for member in members {
        if let ContractMember::Init(x) = member {
            return Ok(Some(init_signature(alloc, scope, x)?));
        }
    }
    Ok(None)
}
