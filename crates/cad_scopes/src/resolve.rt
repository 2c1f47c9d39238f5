// Entitlements, mappings, interfaces and accesses.
ghost use Rattle.std.specs.Prelude.{◌≡◌, IfOk, option_map};
ghost use Rattle.cad_declarations.specs.Scopes as spec;
ghost use Rattle.cad_scopes.specs.Views.{scope_of, meaning_view};

use crate::names::Meaning;
use crate::scope::{Scope, meaning};
use cad_declarations::{MemberAccess, is_interface_sort};
use cad_grammar::{Access, Dotted, Entitlements};
use cad_syntax::{Authorization, Name, TypeId, TypeIds};
use std::alloc::{AllocError, Global};

/// The entitlement of a written name; None where there is none.
pub fn resolved_entitlement(
    alloc: Global,
    scope: Scope<'_>,
    names: &[Name],
) -> Result<Option<TypeId>, AllocError>
    ensures { IfOk result (λ id. id ≡ spec.resolved_entitlement (scope_of scope.entry) names.now) }
{
    match meaning(alloc, scope, names)? {
        Some(Meaning::Entitlement(id)) => Ok(Some(id)),
        _ => Ok(None),
    }
}

/// The mapping of a written name; None where there is none.
pub fn resolved_mapping(
    alloc: Global,
    scope: Scope<'_>,
    names: &[Name],
) -> Result<Option<TypeId>, AllocError>
    ensures { IfOk result (λ id. id ≡ spec.resolved_mapping (scope_of scope.entry) names.now) }
{
    match meaning(alloc, scope, names)? {
        Some(Meaning::Mapping(id)) => Ok(Some(id)),
        _ => Ok(None),
    }
}

/// The interface of a written name; None where there is none.
pub fn resolved_interface(
    alloc: Global,
    scope: Scope<'_>,
    names: &[Name],
) -> Result<Option<TypeId>, AllocError>
    ensures { IfOk result (λ id. id ≡ spec.resolved_interface (scope_of scope.entry) names.now) }
{
    match meaning(alloc, scope, names)? {
        Some(found) => Ok(interface_of(found)),
        None => Ok(None),
    }
}

/// The interface that a name stands for.
fn interface_of(found: Meaning) -> Option<TypeId>
    ensures { result ≡ spec.interface_in (Some (meaning_view found)) }
{
    match found {
        Meaning::Type(id, sort) => {
            if is_interface_sort(sort) {
                Some(id)
            } else {
                None
            }
        }
        _ => None,
    }
}

/// What written entitlements grant; None where one of them isn't there.
pub fn resolved_entitlements(
    alloc: Global,
    scope: Scope<'_>,
    entitlements: &Entitlements,
) -> Result<Option<Authorization>, AllocError>
    ensures { IfOk result (λ a. a ≡ spec.resolved_entitlements (scope_of scope.entry) entitlements.now) }
{
    match entitlements {
        Entitlements::All(all) => match each_entitlement(alloc, scope, all.as_slice())? {
            Some(ids) => Ok(Some(Authorization::All(ids))),
            None => Ok(None),
        },
        Entitlements::Any(all) => match each_entitlement(alloc, scope, all.as_slice())? {
            Some(ids) => Ok(Some(Authorization::Any(ids))),
            None => Ok(None),
        },
    }
}

#[tactic(auto, using(crate::proofs::Each::goes_on))]
fn each_entitlement(
    alloc: Global,
    scope: Scope<'_>,
    all: &[Dotted],
) -> Result<Option<TypeIds>, AllocError>
    ensures { IfOk result (λ ids. ids ≡ spec.each_of (spec.resolved_entitlement (scope_of scope.entry)) all.now) }
{
    let mut ids = Vec::new(alloc);
    for names in all {
        match resolved_entitlement(alloc, scope, names.as_slice())? {
            Some(id) => ids.push(id)?,
            None => return Ok(None),
        }
    }
    Ok(Some(TypeIds::from_vec(ids)))
}

/// The interfaces of written names; None where one of them isn't there.
#[tactic(auto, using(crate::proofs::Each::goes_on))]
pub(crate) fn each_interface(
    alloc: Global,
    scope: Scope<'_>,
    all: &[Dotted],
) -> Result<Option<TypeIds>, AllocError>
    ensures { IfOk result (λ ids. ids ≡ spec.each_of (spec.resolved_interface (scope_of scope.entry)) all.now) }
{
    let mut ids = Vec::new(alloc);
    for names in all {
        match resolved_interface(alloc, scope, names.as_slice())? {
            Some(id) => ids.push(id)?,
            None => return Ok(None),
        }
    }
    Ok(Some(TypeIds::from_vec(ids)))
}

/// Who may use a member, by its written access; None where an entitlement or mapping isn't there.
pub fn resolved_access(
    alloc: Global,
    scope: Scope<'_>,
    access: &Access,
) -> Result<Option<MemberAccess>, AllocError>
    ensures { IfOk result (λ a. a ≡ spec.resolved_access (scope_of scope.entry) access.now) }
{
    match access {
        Access::All => Ok(Some(MemberAccess::All)),
        Access::Self_ => Ok(Some(MemberAccess::Own)),
        Access::Contract => Ok(Some(MemberAccess::Contract)),
        Access::Account => Ok(Some(MemberAccess::Account)),
        Access::Mapping(names) => match resolved_mapping(alloc, scope, names.as_slice())? {
            Some(id) => Ok(Some(MemberAccess::Mapped(id))),
            None => Ok(None),
        },
        Access::Entitled(all) => match resolved_entitlements(alloc, scope, all)? {
            Some(authorization) => Ok(Some(MemberAccess::Entitled(authorization))),
            None => Ok(None),
        },
    }
}
