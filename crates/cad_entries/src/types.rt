// The declared types that tables have.
ghost use Rattle.std.specs.Prelude.{◌≡◌, ◌++◌, ◌∷◌, [], filter_map, map, option_map, option_to_list, IfOk, OnOk};
ghost use Rattle.cad_syntax.specs.Types.{pure_type};
ghost use Rattle.cad_grammar.specs.Views as tree;
ghost use Rattle.cad_declarations.specs.Entries as spec;
ghost use Rattle.cad_grammar.specs.Trees as trees;
ghost use Rattle.cad_declarations.specs.BuiltinNames as builtin;
ghost use Rattle.cad_declarations.specs.Scopes as scopes;
ghost use Rattle.cad_declarations.specs.Views.{member_of, signature_of, type_entry_of};
ghost use Rattle.cad_types.specs.declared.declared.Sort.TheVariants as sorts;
ghost use Rattle.cad_scopes.specs.Views.{scope_of};
ghost use Rattle.cad_contracts.specs.Views.{own_of};

use crate::heads::{event_signature, type_entry};
use crate::known::{composite_sort, interface_sort};
use crate::members::{
    composite_init, composite_members, contract_init, contract_members, event_fields,
    interface_members,
};
use cad_contracts::{Own, parents_of};
use cad_declarations::{Links, Member, Signature, TypeDeclaration, linearised};
use cad_grammar::{
    Composite, CompositeMember, ContractMember, Enum, EnumCase, Event, Interface, TypeExpr,
};
use cad_scopes::{Scope, inside};
use cad_syntax::{Basic, CadType, Kind, Names, TypeId, TypeIds};
use cad_types::Sort;
use std::alloc::{AllocError, Global};

/// A declared type without cases.
fn plain_type(
    alloc: Global,
    links: &Links,
    id: TypeId,
    sort: Sort,
    parents: TypeIds,
    members: Vec<Member>,
    initializer: Option<Signature>,
) -> Result<TypeDeclaration, AllocError>
    ensures { IfOk result (λ t. type_entry_of t ≡ spec.plain_type links.now id sort parents (map member_of members.items) (option_map signature_of initializer)) }
{
    let interfaces = linearised(alloc, links, &id)?;
    Ok(TypeDeclaration {
        id,
        sort,
        parents,
        interfaces,
        members,
        initializer,
        cases: Names::new(alloc),
        raw: None,
    })
}

/// An event, which has its parameters as fields.
fn event_type(
    alloc: Global,
    scope: Scope<'_>,
    links: &Links,
    id: TypeId,
    x: &Event,
) -> Result<TypeDeclaration, AllocError>
    ensures { IfOk result (λ t. type_entry_of t ≡ spec.event_type (scope_of scope.entry) links.now id (tree.event_of x.now)) }
{
    let members = event_fields(alloc, scope, &id, x.parameters.as_slice())?;
    let initializer = event_signature(alloc, scope, x)?;
    plain_type(
        alloc,
        links,
        id,
        Sort::Event,
        TypeIds::new(alloc),
        members,
        Some(initializer),
    )
}

/// Appends the event that a member of a composite is.
fn push_nested_event(
    all: &mut Vec<TypeDeclaration>,
    alloc: Global,
    scope: Scope<'_>,
    links: &Links,
    id: &TypeId,
    member: &CompositeMember,
) -> Result<(), AllocError>
    ensures { OnOk result (map type_entry_of all.new.items ≡ map type_entry_of all.old.items ++ option_to_list (spec.nested_event (scope_of scope.entry) links.now id.now (tree.composite_member_of member.now))) }
{
    match member {
        CompositeMember::Event(x) => {
            let declared = inside(id, &x.name)?;
            all.push(event_type(alloc, scope, links, declared, x)?)?;
            Ok(())
        }
        _ => Ok(()),
    }
}

/// Appends the events that are declared in a composite.
#[tactic(auto, using(crate::proofs::Lists::one_more))]
fn push_nested_events(
    all: &mut Vec<TypeDeclaration>,
    alloc: Global,
    scope: Scope<'_>,
    links: &Links,
    id: &TypeId,
    members: &[CompositeMember],
) -> Result<(), AllocError>
    ensures { OnOk result (map type_entry_of all.new.items ≡ map type_entry_of all.old.items ++ filter_map (spec.nested_event (scope_of scope.entry) links.now id.now) (map tree.composite_member_of members.now)) }
{
    for member in members {
        push_nested_event(all, alloc, scope, links, id, member)?;
    }
    Ok(())
}

/// A struct or a resource.
fn composite_type(
    alloc: Global,
    scope: Scope<'_>,
    links: &Links,
    id: TypeId,
    x: &Composite,
) -> Result<TypeDeclaration, AllocError>
    ensures { IfOk result (λ t. type_entry_of t ≡ spec.composite_type (scope_of scope.entry) links.now id (tree.composite_of x.now)) }
{
    let parents = parents_of(alloc, scope, x.conformances.as_slice())?;
    let members = composite_members(alloc, scope, &id, x.members.as_slice())?;
    let initializer = composite_init(alloc, scope, x.members.as_slice())?;
    plain_type(
        alloc,
        links,
        id,
        composite_sort(x.kind),
        parents,
        members,
        initializer,
    )
}

/// Appends a composite.
fn push_composite_type(
    all: &mut Vec<TypeDeclaration>,
    alloc: Global,
    scope: Scope<'_>,
    links: &Links,
    id: &TypeId,
    x: &Composite,
) -> Result<(), AllocError>
    ensures { OnOk result (map type_entry_of all.new.items ≡ map type_entry_of all.old.items ++ spec.composite_type (scope_of scope.entry) links.now id.now (tree.composite_of x.now) ∷ []) }
{
    all.push(composite_type(alloc, scope, links, id.clone()?, x)?)?;
    Ok(())
}

/// Appends a composite and the events that it declares.
fn push_composite_types(
    all: &mut Vec<TypeDeclaration>,
    alloc: Global,
    scope: Scope<'_>,
    links: &Links,
    id: &TypeId,
    x: &Composite,
) -> Result<(), AllocError>
    ensures { OnOk result (map type_entry_of all.new.items ≡ map type_entry_of all.old.items ++ spec.composite_types (scope_of scope.entry) links.now id.now (tree.composite_of x.now)) }
{
    push_composite_type(all, alloc, scope, links, id, x)?;
    push_nested_events(all, alloc, scope, links, id, x.members.as_slice())?;
    Ok(())
}

/// An interface.
fn interface_type(
    alloc: Global,
    scope: Scope<'_>,
    links: &Links,
    id: TypeId,
    x: &Interface,
) -> Result<TypeDeclaration, AllocError>
    ensures { IfOk result (λ t. type_entry_of t ≡ spec.interface_type (scope_of scope.entry) links.now id (tree.interface_of x.now)) }
{
    let parents = parents_of(alloc, scope, x.conformances.as_slice())?;
    let members = interface_members(alloc, scope, &id, x.members.as_slice())?;
    plain_type(
        alloc,
        links,
        id,
        interface_sort(x.kind),
        parents,
        members,
        None,
    )
}

/// Whether numbers of a kind are whole.
fn is_integer(kind: Kind) -> bool
    ensures { result ≡ builtin.is_integer kind }
{
    !matches!(kind, Kind::Fix64 | Kind::UFix64 | Kind::Address)
}

/// The kind of an enum's numbers.
fn raw_kind(t: &CadType) -> Option<Kind>
    ensures { result ≡ spec.raw_kind (pure_type t.now) }
{
    match t {
        CadType::Basic(Basic::Number(kind)) => {
            if is_integer(*kind) { Some(*kind) } else { None }
        }
        _ => None,
    }
}

/// The type that a name without type arguments is.
fn raw_type(alloc: Global, scope: Scope<'_>, raw: &Names) -> Result<CadType, AllocError>
    ensures { IfOk result (λ t. pure_type t ≡ spec.type_entry (scope_of scope.entry) (trees.named raw.now trees.no_annotations)) }
{
    let written = TypeExpr::Named {
        name: raw.clone()?,
        arguments: Vec::new(alloc),
    };
    type_entry(alloc, scope, &written)
}

/// The names of cases.
fn case_names(alloc: Global, cases: &[EnumCase]) -> Result<Names, AllocError>
    ensures { IfOk result (λ all. all ≡ map (λ c. c.name) cases.now) }
{
    let mut all = Names::new(alloc);
    for case in cases {
        all.push(case.name.clone()?)?;
    }
    Ok(all)
}

/// An enum.
fn enum_type(
    alloc: Global,
    scope: Scope<'_>,
    links: &Links,
    id: TypeId,
    x: &Enum,
) -> Result<TypeDeclaration, AllocError>
    ensures { IfOk result (λ t. type_entry_of t ≡ spec.enum_type (scope_of scope.entry) links.now id (tree.enum_of x.now)) }
{
    let interfaces = linearised(alloc, links, &id)?;
    let written = raw_type(alloc, scope, &x.raw)?;
    let raw = raw_kind(&written);
    drop(written);
    let cases = case_names(alloc, x.cases.as_slice())?;
    Ok(TypeDeclaration {
        id,
        sort: Sort::Enum,
        parents: TypeIds::new(alloc),
        interfaces,
        members: Vec::new(alloc),
        initializer: None,
        cases,
        raw,
    })
}

/// Appends an interface that is declared in a contract.
fn push_interface(
    all: &mut Vec<TypeDeclaration>,
    alloc: Global,
    scope: Scope<'_>,
    links: &Links,
    contract: &TypeId,
    x: &Interface,
) -> Result<(), AllocError>
    ensures { OnOk result (map type_entry_of all.new.items ≡ map type_entry_of all.old.items ++ spec.interface_type (scope_of scope.entry) links.now (scopes.inside contract.now x.now.name) (tree.interface_of x.now) ∷ []) }
{
    let id = inside(contract, &x.name)?;
    all.push(interface_type(alloc, scope, links, id, x)?)?;
    Ok(())
}

/// Appends an event that is declared in a contract.
fn push_event(
    all: &mut Vec<TypeDeclaration>,
    alloc: Global,
    scope: Scope<'_>,
    links: &Links,
    contract: &TypeId,
    x: &Event,
) -> Result<(), AllocError>
    ensures { OnOk result (map type_entry_of all.new.items ≡ map type_entry_of all.old.items ++ spec.event_type (scope_of scope.entry) links.now (scopes.inside contract.now x.now.name) (tree.event_of x.now) ∷ []) }
{
    let id = inside(contract, &x.name)?;
    all.push(event_type(alloc, scope, links, id, x)?)?;
    Ok(())
}

/// Appends an enum that is declared in a contract.
fn push_enum(
    all: &mut Vec<TypeDeclaration>,
    alloc: Global,
    scope: Scope<'_>,
    links: &Links,
    contract: &TypeId,
    x: &Enum,
) -> Result<(), AllocError>
    ensures { OnOk result (map type_entry_of all.new.items ≡ map type_entry_of all.old.items ++ spec.enum_type (scope_of scope.entry) links.now (scopes.inside contract.now x.now.name) (tree.enum_of x.now) ∷ []) }
{
    let id = inside(contract, &x.name)?;
    all.push(enum_type(alloc, scope, links, id, x)?)?;
    Ok(())
}

/// Appends the types that a member of a contract declares.
fn push_types_by(
    all: &mut Vec<TypeDeclaration>,
    alloc: Global,
    scope: Scope<'_>,
    links: &Links,
    contract: &TypeId,
    member: &ContractMember,
) -> Result<(), AllocError>
    ensures { OnOk result (map type_entry_of all.new.items ≡ map type_entry_of all.old.items ++ spec.types_by (scope_of scope.entry) links.now contract.now (tree.contract_member_of member.now)) }
{
    match member {
        ContractMember::Composite(x) => {
            let id = inside(contract, &x.name)?;
            push_composite_types(all, alloc, scope, links, &id, x)
        }
        ContractMember::Interface(x) => push_interface(all, alloc, scope, links, contract, x),
        ContractMember::Event(x) => push_event(all, alloc, scope, links, contract, x),
        ContractMember::Enum(x) => push_enum(all, alloc, scope, links, contract, x),
        _ => Ok(()),
    }
}

/// The contract itself as a type.
fn contract_type(
    alloc: Global,
    scope: Scope<'_>,
    links: &Links,
    own: &Own<'_>,
) -> Result<TypeDeclaration, AllocError>
    ensures { IfOk result (λ t. type_entry_of t ≡ spec.plain_type links.now (own_of own.now).id sorts.Contract [] (filter_map (spec.contract_member (scope_of scope.entry) (own_of own.now).id) (own_of own.now).members) (spec.contract_init (scope_of scope.entry) (own_of own.now).members)) }
{
    let members = contract_members(alloc, scope, &own.id, own.members)?;
    let initializer = contract_init(alloc, scope, own.members)?;
    plain_type(
        alloc,
        links,
        own.id.clone()?,
        Sort::Contract,
        TypeIds::new(alloc),
        members,
        initializer,
    )
}

/// Appends a contract and the types that it declares.
pub(crate) fn push_types_in(
    all: &mut Vec<TypeDeclaration>,
    alloc: Global,
    scope: Scope<'_>,
    links: &Links,
    own: &Own<'_>,
) -> Result<(), AllocError>
    ensures { OnOk result (map type_entry_of all.new.items ≡ map type_entry_of all.old.items ++ spec.types_in (scope_of scope.entry) links.now (own_of own.now)) }
{
    all.push(contract_type(alloc, scope, links, own)?)?;
    for member in own.members {
        push_types_by(all, alloc, scope, links, &own.id, member)?;
    }
    Ok(())
}
