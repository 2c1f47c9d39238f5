// Copies of what deployed contracts declare.
ghost use Rattle.std.specs.Prelude.{◌≡◌, ◌++◌, map, option_map, IfOk, OnOk};
ghost use Rattle.cad_declarations.specs.Deployed.{linked_type};
ghost use Rattle.cad_declarations.specs.Views.{form_of, mapping_entry_of, member_of, parameter_of, signature_of, type_entry_of};
ghost use Rattle.cad_contracts.specs.Views.{entry_of};

use crate::contracts::{is_part, tables_in};
use cad_auth::Mapping;
use cad_declarations::{
    Installed, Links, MappingDeclaration, Member, MemberAccess, MemberKind, Parameter, Signature,
    TypeDeclaration, linearised,
};
use cad_syntax::{Name, Pairs, TypeId};
use std::alloc::{AllocError, Global};

/// A copy of a label.
fn copied_label(label: &Option<Name>) -> Result<Option<Name>, AllocError>
    ensures { IfOk result (λ copy. copy ≡ label.now) }
{
    match label {
        Some(name) => Ok(Some(name.clone()?)),
        None => Ok(None),
    }
}

/// A copy of a parameter.
fn copied_parameter(p: &Parameter) -> Result<Parameter, AllocError>
    ensures { IfOk result (λ copy. parameter_of copy ≡ parameter_of p.now) }
{
    Ok(Parameter {
        label: copied_label(&p.label)?,
        name: p.name.clone()?,
        declared: p.declared.clone()?,
    })
}

/// Copies of parameters.
fn copied_parameters(alloc: Global, all: &[Parameter]) -> Result<Vec<Parameter>, AllocError>
    ensures { IfOk result (λ copies. map parameter_of copies.items ≡ map parameter_of all.now) }
{
    let mut copies = Vec::new(alloc);
    for p in all {
        copies.push(copied_parameter(p)?)?;
    }
    Ok(copies)
}

/// A copy of a signature.
fn copied_signature(alloc: Global, s: &Signature) -> Result<Signature, AllocError>
    ensures { IfOk result (λ copy. signature_of copy ≡ signature_of s.now) }
{
    Ok(Signature {
        is_view: s.is_view,
        parameters: copied_parameters(alloc, s.parameters.as_slice())?,
        result: s.result.clone()?,
    })
}

/// A copy of a signature, if there is one.
fn copied_initializer(alloc: Global, s: &Option<Signature>) -> Result<Option<Signature>, AllocError>
    ensures { IfOk result (λ copy. option_map signature_of copy ≡ option_map signature_of s.now) }
{
    match s {
        Some(s) => Ok(Some(copied_signature(alloc, s)?)),
        None => Ok(None),
    }
}

/// A copy of an access.
fn copied_access(access: &MemberAccess) -> Result<MemberAccess, AllocError>
    ensures { IfOk result (λ copy. copy ≡ access.now) }
{
    match access {
        MemberAccess::All => Ok(MemberAccess::All),
        MemberAccess::Own => Ok(MemberAccess::Own),
        MemberAccess::Contract => Ok(MemberAccess::Contract),
        MemberAccess::Account => Ok(MemberAccess::Account),
        MemberAccess::Entitled(all) => Ok(MemberAccess::Entitled(all.clone()?)),
        MemberAccess::Mapped(id) => Ok(MemberAccess::Mapped(id.clone()?)),
    }
}

/// A copy of what a member is.
fn copied_kind(alloc: Global, kind: &MemberKind) -> Result<MemberKind, AllocError>
    ensures { IfOk result (λ copy. form_of copy ≡ form_of kind.now) }
{
    match kind {
        MemberKind::Field { kind, declared } => Ok(MemberKind::Field {
            kind: *kind,
            declared: declared.clone()?,
        }),
        MemberKind::Function {
            signature,
            has_body,
        } => Ok(MemberKind::Function {
            signature: copied_signature(alloc, signature)?,
            has_body: *has_body,
        }),
    }
}

/// A copy of a member.
fn copied_member(alloc: Global, m: &Member) -> Result<Member, AllocError>
    ensures { IfOk result (λ copy. member_of copy ≡ member_of m.now) }
{
    Ok(Member {
        name: m.name.clone()?,
        access: copied_access(&m.access)?,
        declared_by: m.declared_by.clone()?,
        kind: copied_kind(alloc, &m.kind)?,
    })
}

/// Copies of members.
fn copied_members(alloc: Global, all: &[Member]) -> Result<Vec<Member>, AllocError>
    ensures { IfOk result (λ copies. map member_of copies.items ≡ map member_of all.now) }
{
    let mut copies = Vec::new(alloc);
    for m in all {
        copies.push(copied_member(alloc, m)?)?;
    }
    Ok(copies)
}

/// A copy of a declared type with all interfaces that it has by these links.
fn linked_copy(
    alloc: Global,
    links: &Links,
    t: &TypeDeclaration,
) -> Result<TypeDeclaration, AllocError>
    ensures { IfOk result (λ copy. type_entry_of copy ≡ linked_type links.now (type_entry_of t.now)) }
{
    Ok(TypeDeclaration {
        id: t.id.clone()?,
        sort: t.sort,
        parents: t.parents.clone()?,
        interfaces: linearised(alloc, links, &t.id)?,
        members: copied_members(alloc, t.members.as_slice())?,
        initializer: copied_initializer(alloc, &t.initializer)?,
        cases: t.cases.clone()?,
        raw: t.raw,
    })
}

/// Appends copies of the types that a deployed contract declares.
pub fn push_linked_types(
    all: &mut Vec<TypeDeclaration>,
    alloc: Global,
    links: &Links,
    contract: &Installed,
) -> Result<(), AllocError>
    ensures { OnOk result (map type_entry_of all.new.items ≡ map type_entry_of all.old.items ++ map (linked_type links.now) (entry_of contract.now).types) }
{
    for t in tables_in(contract).types.as_slice() {
        if is_part(contract, &t.id) {
            all.push(linked_copy(alloc, links, t)?)?;
        }
    }
    Ok(())
}

/// A copy of pairs.
fn copied_pairs(alloc: Global, pairs: &[(TypeId, TypeId)]) -> Result<Pairs, AllocError>
    ensures { IfOk result (λ copy. copy ≡ pairs.now) }
{
    let mut copies = Pairs::new(alloc);
    for pair in pairs {
        copies.push((pair.0.clone()?, pair.1.clone()?))?;
    }
    Ok(copies)
}

/// A copy of a mapping.
fn copied_mapping(alloc: Global, m: &MappingDeclaration) -> Result<MappingDeclaration, AllocError>
    ensures { IfOk result (λ copy. mapping_entry_of copy ≡ mapping_entry_of m.now) }
{
    Ok(MappingDeclaration {
        id: m.id.clone()?,
        mapping: Mapping {
            identity: m.mapping.identity,
            pairs: copied_pairs(alloc, m.mapping.pairs.as_slice())?,
        },
    })
}

/// Appends copies of the mappings that a deployed contract declares.
pub fn push_copied_mappings(
    all: &mut Vec<MappingDeclaration>,
    alloc: Global,
    contract: &Installed,
) -> Result<(), AllocError>
    ensures { OnOk result (map mapping_entry_of all.new.items ≡ map mapping_entry_of all.old.items ++ (entry_of contract.now).mappings) }
{
    for m in tables_in(contract).mappings.as_slice() {
        if is_part(contract, &m.id) {
            all.push(copied_mapping(alloc, m)?)?;
        }
    }
    Ok(())
}
