// Where contracts, enums, entitlements and mappings are refused.
ghost use Rattle.std.specs.Prelude.{◌≡◌, ◌&&◌, [], map, reverse, IfOk};
ghost use Rattle.std.specs.List.{list_all};
ghost use Rattle.cad_grammar.specs.Trees as trees;
ghost use Rattle.cad_grammar.specs.Views.{contract_of, contract_member_of, enum_of, interface_of, mapping_of};
ghost use Rattle.cad_declarations.specs.Build as build;
ghost use Rattle.cad_declarations.specs.Points as spec;
ghost use Rattle.cad_declarations.specs.Scopes as scopes;
ghost use Rattle.cad_scopes.specs.Views.{scope_of};

use cad_declarations::{Links, Stop};
use cad_grammar::{
    Contract, ContractMember, Entitlement, Enum, EnumCase, Interface, Mapping, MappingItem,
};
use cad_scopes::{Scope, inside};
use cad_stop_points::{
    NamesBefore, access_is_there, composite_stop, contract_member_name, entitlement_is_there,
    event_stop, field_is_right, function_stop, init_stop, interface_stop, is_destroyed_event,
    is_new, name_is_there, names_of_contract, unless_right,
};
use cad_syntax::{Name, TypeId};
use std::alloc::{AllocError, Global};

/// Whether the names of cases differ.
#[tactic(auto, using(crate::proofs::Points::reversed_one))]
fn cases_are_new(alloc: Global, cases: &[EnumCase]) -> Result<bool, AllocError>
    ensures { IfOk result (λ b. b ≡ spec.are_new [] (map (λ c. c.name) cases.now)) }
{
    let mut before = NamesBefore::new(alloc);
    for case in cases {
        if !is_new(&before, &case.name) {
            return Ok(false);
        }
        before.push(case.name.clone()?)?;
    }
    Ok(true)
}

/// Whether what the accesses of cases name is there.
fn case_accesses_are_there(
    alloc: Global,
    scope: Scope<'_>,
    cases: &[EnumCase],
) -> Result<bool, AllocError>
    ensures { IfOk result (λ b. b ≡ list_all (λ c. spec.access_is_there (scope_of scope.entry) c.access) cases.now) }
{
    for case in cases {
        if !access_is_there(alloc, scope, &case.access)? {
            return Ok(false);
        }
    }
    Ok(true)
}

/// Whether the cases of an enum are right.
fn cases_are_right(alloc: Global, scope: Scope<'_>, cases: &[EnumCase]) -> Result<bool, AllocError>
    ensures { IfOk result (λ b. b ≡ (spec.are_new [] (map (λ c. c.name) cases.now) && list_all (λ c. spec.access_is_there (scope_of scope.entry) c.access) cases.now)) }
{
    let new = cases_are_new(alloc, cases)?;
    let there = case_accesses_are_there(alloc, scope, cases)?;
    Ok(new && there)
}

/// Whether the type of an enum's numbers is there and its cases are right.
fn enum_parts_are_right(alloc: Global, scope: Scope<'_>, x: &Enum) -> Result<bool, AllocError>
    ensures { IfOk result (λ b. b ≡ (spec.type_is_there (scope_of scope.entry) (trees.named (enum_of x.now).raw trees.no_annotations) && (spec.are_new [] (map (λ c. c.name) (enum_of x.now).cases) && list_all (λ c. spec.access_is_there (scope_of scope.entry) c.access) (enum_of x.now).cases))) }
{
    let raw = name_is_there(alloc, scope, &x.raw)?;
    let cases = cases_are_right(alloc, scope, x.cases.as_slice())?;
    Ok(raw && cases)
}

/// Whether an enum is right but for its name.
fn enum_is_right(alloc: Global, scope: Scope<'_>, x: &Enum) -> Result<bool, AllocError>
    ensures { IfOk result (λ b. b ≡ spec.enum_is_right (scope_of scope.entry) (enum_of x.now)) }
{
    let access = access_is_there(alloc, scope, &x.access)?;
    let parts = enum_parts_are_right(alloc, scope, x)?;
    Ok(access && parts)
}

/// Whether what an item of a mapping names is there.
fn item_is_right(alloc: Global, scope: Scope<'_>, item: &MappingItem) -> Result<bool, AllocError>
    ensures { IfOk result (λ b. b ≡ spec.item_is_right (scope_of scope.entry) item.now) }
{
    match item {
        MappingItem::Identity => Ok(true),
        MappingItem::Pair(from, to) => {
            let first = entitlement_is_there(alloc, scope, from.as_slice())?;
            let second = entitlement_is_there(alloc, scope, to.as_slice())?;
            Ok(first && second)
        }
    }
}

fn items_are_right(
    alloc: Global,
    scope: Scope<'_>,
    items: &[MappingItem],
) -> Result<bool, AllocError>
    ensures { IfOk result (λ b. b ≡ list_all (spec.item_is_right (scope_of scope.entry)) items.now) }
{
    for item in items {
        if !item_is_right(alloc, scope, item)? {
            return Ok(false);
        }
    }
    Ok(true)
}

/// Whether all that a mapping names is there.
fn mapping_is_right(alloc: Global, scope: Scope<'_>, x: &Mapping) -> Result<bool, AllocError>
    ensures { IfOk result (λ b. b ≡ (spec.access_is_there (scope_of scope.entry) (mapping_of x.now).access && list_all (spec.item_is_right (scope_of scope.entry)) (mapping_of x.now).items)) }
{
    let access = access_is_there(alloc, scope, &x.access)?;
    let items = items_are_right(alloc, scope, x.items.as_slice())?;
    Ok(access && items)
}

/// The stop of an enum.
fn enum_stop(
    alloc: Global,
    scope: Scope<'_>,
    id: &TypeId,
    before: &NamesBefore,
    x: &Enum,
) -> Result<Option<Stop>, AllocError>
    ensures { IfOk result (λ s. s ≡ build.point_stop (scope_of scope.entry) (spec.declaration_point (spec.below id.now.names x.now.name) (spec.is_new (reverse before.now) x.now.name && spec.enum_is_right (scope_of scope.entry) (enum_of x.now)))) }
{
    let right = enum_is_right(alloc, scope, x)?;
    let names = id.names.as_slice();
    unless_right(alloc, is_new(before, &x.name) && right, names, &x.name)
}

/// The stop of an entitlement.
fn entitlement_stop(
    alloc: Global,
    scope: Scope<'_>,
    id: &TypeId,
    before: &NamesBefore,
    x: &Entitlement,
) -> Result<Option<Stop>, AllocError>
    ensures { IfOk result (λ s. s ≡ build.point_stop (scope_of scope.entry) (spec.declaration_point (spec.below id.now.names x.now.name) (spec.is_new (reverse before.now) x.now.name && spec.access_is_there (scope_of scope.entry) x.now.access))) }
{
    let right = access_is_there(alloc, scope, &x.access)?;
    let names = id.names.as_slice();
    unless_right(alloc, is_new(before, &x.name) && right, names, &x.name)
}

/// The stop of a mapping.
fn mapping_stop(
    alloc: Global,
    scope: Scope<'_>,
    id: &TypeId,
    before: &NamesBefore,
    x: &Mapping,
) -> Result<Option<Stop>, AllocError>
    ensures { IfOk result (λ s. s ≡ build.point_stop (scope_of scope.entry) (spec.declaration_point (spec.below id.now.names x.now.name) (spec.is_new (reverse before.now) x.now.name && (spec.access_is_there (scope_of scope.entry) (mapping_of x.now).access && list_all (spec.item_is_right (scope_of scope.entry)) (mapping_of x.now).items)))) }
{
    let right = mapping_is_right(alloc, scope, x)?;
    let names = id.names.as_slice();
    unless_right(alloc, is_new(before, &x.name) && right, names, &x.name)
}

/// Whether a member of a contract is no field, or a right one.
fn contract_field_is_right(
    alloc: Global,
    scope: Scope<'_>,
    before: &NamesBefore,
    member: &ContractMember,
) -> Result<bool, AllocError>
    ensures { IfOk result (λ b. b ≡ spec.contract_field_is_right (scope_of scope.entry) (reverse before.now) (contract_member_of member.now)) }
{
    match member {
        ContractMember::Field(x) => field_is_right(alloc, scope, before, x),
        _ => Ok(true),
    }
}

/// Whether the fields of a contract are right.
#[tactic(auto, using(crate::proofs::Points::reversed_one))]
fn contract_fields_are_right(
    alloc: Global,
    scope: Scope<'_>,
    members: &[ContractMember],
) -> Result<bool, AllocError>
    ensures { IfOk result (λ b. b ≡ spec.contract_fields_are_right (scope_of scope.entry) spec.names_of_contract (map contract_member_of members.now)) }
{
    let mut before = names_of_contract(alloc)?;
    for member in members {
        if !contract_field_is_right(alloc, scope, &before, member)? {
            return Ok(false);
        }
        before.push(contract_member_name(alloc, member)?)?;
    }
    Ok(true)
}

/// The stop of an interface that a contract declares.
fn own_interface_stop(
    alloc: Global,
    scope: Scope<'_>,
    links: &Links,
    id: &TypeId,
    before: &NamesBefore,
    x: &Interface,
) -> Result<Option<Stop>, AllocError>
    ensures { IfOk result (λ s. s ≡ build.first_stop (scope_of scope.entry) (spec.interface_points (scope_of scope.entry) links.now (scopes.inside id.now x.now.name) id.now.names (reverse before.now) (interface_of x.now))) }
{
    let declared = inside(id, &x.name)?;
    interface_stop(
        alloc,
        scope,
        links,
        &declared,
        id.names.as_slice(),
        before,
        x,
    )
}

/// The first stop of a member of a contract.
fn contract_member_stop(
    alloc: Global,
    scope: Scope<'_>,
    links: &Links,
    id: &TypeId,
    before: &NamesBefore,
    member: &ContractMember,
) -> Result<Option<Stop>, AllocError>
    ensures { IfOk result (λ s. s ≡ build.first_stop (scope_of scope.entry) (spec.contract_member_points (scope_of scope.entry) links.now id.now (reverse before.now) (contract_member_of member.now))) }
{
    let names = id.names.as_slice();
    match member {
        ContractMember::Field(_) => Ok(None),
        ContractMember::Function(x) => function_stop(alloc, scope, names, before, x),
        ContractMember::Init(x) => init_stop(alloc, scope, names, before, x),
        ContractMember::Composite(x) => composite_stop(alloc, scope, names, before, x),
        ContractMember::Interface(x) => own_interface_stop(alloc, scope, links, id, before, x),
        ContractMember::Event(x) => {
            event_stop(alloc, scope, names, before, !is_destroyed_event(x), x)
        }
        ContractMember::Enum(x) => enum_stop(alloc, scope, id, before, x),
        ContractMember::Entitlement(x) => entitlement_stop(alloc, scope, id, before, x),
        ContractMember::Mapping(x) => mapping_stop(alloc, scope, id, before, x),
    }
}

/// The first stop of the members of a contract.
#[tactic(auto, using(crate::proofs::Points::reversed_one, crate::proofs::Points::first_of_both))]
fn contract_members_stop(
    alloc: Global,
    scope: Scope<'_>,
    links: &Links,
    id: &TypeId,
    members: &[ContractMember],
) -> Result<Option<Stop>, AllocError>
    ensures { IfOk result (λ s. s ≡ build.first_stop (scope_of scope.entry) (spec.contract_members_points (scope_of scope.entry) links.now id.now spec.names_of_contract (map contract_member_of members.now))) }
{
    let mut before = names_of_contract(alloc)?;
    for member in members {
        if let Some(stop) = contract_member_stop(alloc, scope, links, id, &before, member)? {
            return Ok(Some(stop));
        }
        before.push(contract_member_name(alloc, member)?)?;
    }
    Ok(None)
}

/// Whether the contract itself is right.
fn contract_is_right(
    alloc: Global,
    scope: Scope<'_>,
    before: &NamesBefore,
    x: &Contract,
) -> Result<bool, AllocError>
    ensures { IfOk result (λ b. b ≡ (spec.is_new (reverse before.now) x.now.name && (spec.access_is_there (scope_of scope.entry) x.now.access && spec.contract_fields_are_right (scope_of scope.entry) spec.names_of_contract (map contract_member_of x.now.members.items)))) }
{
    let access = access_is_there(alloc, scope, &x.access)?;
    let fields = contract_fields_are_right(alloc, scope, x.members.as_slice())?;
    Ok(is_new(before, &x.name) && access && fields)
}

/// The first stop of the contract at a place.
pub(crate) fn contract_stop(
    alloc: Global,
    scope: Scope<'_>,
    links: &Links,
    id: &TypeId,
    before: &NamesBefore,
    x: &Contract,
) -> Result<Option<Stop>, AllocError>
    ensures { IfOk result (λ s. s ≡ build.first_stop (scope_of scope.entry) (spec.contract_points (scope_of scope.entry) links.now id.now (reverse before.now) (contract_of x.now))) }
{
    if !contract_is_right(alloc, scope, before, x)? {
        return Ok(Some(Stop {
            inside: id.names.clone()?,
            at: 0,
        }));
    }
    contract_members_stop(alloc, scope, links, id, x.members.as_slice())
}
