// The entitlement mappings that tables have.
ghost use Rattle.std.specs.Prelude.{◌≡◌, ◌++◌, filter_map, map, IfOk, OnOk};
ghost use Rattle.std.specs.List.{list_any};
ghost use Rattle.cad_grammar.specs.Views as tree;
ghost use Rattle.cad_declarations.specs.Build as build;
ghost use Rattle.cad_declarations.specs.Entries as spec;
ghost use Rattle.cad_declarations.specs.Scopes as scopes;
ghost use Rattle.cad_declarations.specs.Views.{mapping_entry_of};
ghost use Rattle.cad_scopes.specs.Views.{scope_of};
ghost use Rattle.cad_contracts.specs.Views.{own_of};

use cad_auth::Mapping;
use cad_contracts::Own;
use cad_declarations::MappingDeclaration;
use cad_grammar::{ContractMember, Mapping as WrittenMapping, MappingItem};
use cad_scopes::{Scope, inside, resolved_entitlement};
use cad_syntax::{Name, Pairs, TypeId};
use std::alloc::{AllocError, Global};

/// Whether an item includes `Identity`.
fn is_identity(item: &MappingItem) -> bool
    ensures { result ≡ spec.is_identity item.now }
{
    matches!(item, MappingItem::Identity)
}

/// Whether some item includes `Identity`.
fn has_identity(items: &[MappingItem]) -> bool
    ensures { result ≡ list_any spec.is_identity items.now }
{
    items.iter().any(|item| is_identity(item))
}

/// The pair of two written entitlements, if both are there.
fn entitlement_pair(
    alloc: Global,
    scope: Scope<'_>,
    from: &[Name],
    to: &[Name],
) -> Result<Option<(TypeId, TypeId)>, AllocError>
    ensures { IfOk result (λ p. p ≡ scopes.option_both spec.pair_of (scopes.resolved_entitlement (scope_of scope.entry) from.now) (scopes.resolved_entitlement (scope_of scope.entry) to.now)) }
{
    match resolved_entitlement(alloc, scope, from)? {
        Some(first) => match resolved_entitlement(alloc, scope, to)? {
            Some(second) => Ok(Some((first, second))),
            None => Ok(None),
        },
        None => Ok(None),
    }
}

/// The pair of an item.
fn mapping_pair(
    alloc: Global,
    scope: Scope<'_>,
    item: &MappingItem,
) -> Result<Option<(TypeId, TypeId)>, AllocError>
    ensures { IfOk result (λ p. p ≡ spec.mapping_pair (scope_of scope.entry) item.now) }
{
    match item {
        MappingItem::Identity => Ok(None),
        MappingItem::Pair(from, to) => entitlement_pair(
            alloc,
            scope,
            from.as_slice(),
            to.as_slice(),
        ),
    }
}

/// The pairs of items.
#[tactic(auto, using(crate::proofs::Lists::one_more))]
fn mapping_pairs(
    alloc: Global,
    scope: Scope<'_>,
    items: &[MappingItem],
) -> Result<Pairs, AllocError>
    ensures { IfOk result (λ all. all ≡ filter_map (spec.mapping_pair (scope_of scope.entry)) items.now) }
{
    let mut all = Vec::new(alloc);
    for item in items {
        if let Some(pair) = mapping_pair(alloc, scope, item)? {
            all.push(pair)?;
        }
    }
    Ok(Pairs::from_vec(all))
}

/// A mapping of entitlements.
fn mapping_entry(
    alloc: Global,
    scope: Scope<'_>,
    id: TypeId,
    x: &WrittenMapping,
) -> Result<MappingDeclaration, AllocError>
    ensures { IfOk result (λ m. mapping_entry_of m ≡ spec.mapping_entry (scope_of scope.entry) id (tree.mapping_of x.now)) }
{
    Ok(MappingDeclaration {
        id,
        mapping: Mapping {
            identity: has_identity(x.items.as_slice()),
            pairs: mapping_pairs(alloc, scope, x.items.as_slice())?,
        },
    })
}

/// Appends the mapping that a member of a contract declares.
fn push_mappings_by(
    all: &mut Vec<MappingDeclaration>,
    alloc: Global,
    scope: Scope<'_>,
    contract: &TypeId,
    member: &ContractMember,
) -> Result<(), AllocError>
    ensures { OnOk result (map mapping_entry_of all.new.items ≡ map mapping_entry_of all.old.items ++ spec.mappings_by (scope_of scope.entry) contract.now (tree.contract_member_of member.now)) }
{
    match member {
        ContractMember::Mapping(x) => {
            let id = inside(contract, &x.name)?;
            all.push(mapping_entry(alloc, scope, id, x)?)?;
            Ok(())
        }
        _ => Ok(()),
    }
}

/// Appends the mappings that a contract declares.
pub(crate) fn push_own_mappings(
    all: &mut Vec<MappingDeclaration>,
    alloc: Global,
    scope: Scope<'_>,
    own: &Own<'_>,
) -> Result<(), AllocError>
    ensures { OnOk result (map mapping_entry_of all.new.items ≡ map mapping_entry_of all.old.items ++ build.own_mappings (scope_of scope.entry) (own_of own.now)) }
{
    for member in own.members {
        push_mappings_by(all, alloc, scope, &own.id, member)?;
    }
    Ok(())
}
