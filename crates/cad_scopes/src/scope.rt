// What names are looked up in, and what they stand for.
ghost use Rattle.std.specs.Prelude.{◌≡◌, IfOk, option_copied, option_map, find};
ghost use Rattle.cad_types.specs.Declarations.{found};
ghost use Rattle.cad_types.specs.Views.{declarations};
ghost use Rattle.cad_declarations.specs.Scopes as spec;
ghost use Rattle.cad_scopes.specs.Views.{scope_of, meaning_view};

use crate::names::{Meaning, basic_type, built_in_as, inside, is_entitlement_name, is_spelled};
use cad_declarations::{EntitlementDeclarations, MappingDeclarations, is_same_name};
use cad_syntax::{Name, TypeId};
use cad_types::{DeclaredTypes, Sort};
use std::alloc::{AllocError, Global};

/// What names are looked up in: the contract that a program is, those that it imports by name, and what is declared in it
/// and in all that it imports.
#[derive(Clone, Copy)]
pub struct Scope<'a> {
    pub contract: Option<&'a TypeId>,
    pub imports: &'a [TypeId],
    pub types: &'a DeclaredTypes,
    pub entitlements: &'a EntitlementDeclarations,
    pub mappings: &'a MappingDeclarations,
}

/// What a written name stands for; None where nothing of that name is there.
pub fn meaning(
    alloc: Global,
    scope: Scope<'_>,
    names: &[Name],
) -> Result<Option<Meaning>, AllocError>
    ensures { IfOk result (λ found. option_map meaning_view found ≡ spec.meaning (scope_of scope.entry) names.now) }
{
    let [first, more @ ..] = names else {
        return Ok(None);
    };
    if let Some(own) = own_meaning(scope, first)? {
        return Ok(whole(more, own));
    }
    if let Some(contract) = contract_named(scope, first) {
        return meaning_in(scope, contract, more);
    }
    built_in_meaning(alloc, names)
}

/// What the program's contract declares under a name.
pub fn own_meaning(scope: Scope<'_>, name: &Name) -> Result<Option<Meaning>, AllocError>
    ensures { IfOk result (λ found. option_map meaning_view found ≡ spec.own_meaning (scope_of scope.entry) name.now) }
{
    match scope.contract {
        Some(contract) => meaning_inside(scope, contract, name),
        None => Ok(None),
    }
}

/// What a contract declares under a name.
fn meaning_inside(
    scope: Scope<'_>,
    contract: &TypeId,
    name: &Name,
) -> Result<Option<Meaning>, AllocError>
    ensures { IfOk result (λ found. option_map meaning_view found ≡ spec.meaning_of (scope_of scope.entry) (spec.inside contract.now name.now)) }
{
    let id = inside(contract, name)?;
    Ok(meaning_of(scope, id))
}

/// What is declared under an identifier.
pub fn meaning_of(scope: Scope<'_>, id: TypeId) -> Option<Meaning>
    ensures { option_map meaning_view result ≡ spec.meaning_of (scope_of scope.entry) id }
{
    match sort_of(scope, &id) {
        Some(sort) => Some(Meaning::Type(id, sort)),
        None => right_meaning(scope, id),
    }
}

/// What a declared type is.
fn sort_of(scope: Scope<'_>, id: &TypeId) -> Option<Sort>
    ensures { result ≡ option_map (λ d. d.sort) (found (scope_of scope.entry).types id.now) }
{
    match scope.types.find(id) {
        Some(declared) => Some(declared.sort),
        None => None,
    }
}

/// An entitlement or mapping.
fn right_meaning(scope: Scope<'_>, id: TypeId) -> Option<Meaning>
    ensures { option_map meaning_view result ≡ spec.right_meaning (scope_of scope.entry) id }
{
    if scope.entitlements.contains(&id) {
        Some(Meaning::Entitlement(id))
    } else if scope.mappings.contains(&id) {
        Some(Meaning::Mapping(id))
    } else {
        None
    }
}

/// A meaning, where no name stands behind it.
fn whole(more: &[Name], meaning: Meaning) -> Option<Meaning>
    ensures { option_map meaning_view result ≡ spec.whole more.now (meaning_view meaning) }
{
    match more {
        [] => Some(meaning),
        _ => None,
    }
}

/// The contract of a name: the program's or one that it imports.
pub fn contract_named<'a>(scope: Scope<'a>, name: &Name) -> Option<&'a TypeId>
    ensures { option_copied result ≡ spec.contract_named (scope_of scope.entry) name.now }
{
    if let Some(contract) = scope.contract {
        if is_contract_name(contract, name) {
            return Some(contract);
        }
    }
    import_named(scope.imports, name)
}

/// The first import of a name.
fn import_named<'a>(imports: &'a [TypeId], name: &Name) -> Option<&'a TypeId>
    ensures { option_copied result ≡ find (spec.is_contract_name name.now) imports.now }
{
    for import in imports {
        if is_contract_name(import, name) {
            return Some(import);
        }
    }
    None
}

/// Whether a contract has this name.
fn is_contract_name(contract: &TypeId, name: &Name) -> bool
    ensures { result ≡ spec.is_contract_name name.now contract.now }
{
    match contract.names.as_slice() {
        [own] => is_same_name(own, name),
        _ => false,
    }
}

/// A contract, or what it declares under the one name behind it.
fn meaning_in(
    scope: Scope<'_>,
    contract: &TypeId,
    more: &[Name],
) -> Result<Option<Meaning>, AllocError>
    ensures { IfOk result (λ found. option_map meaning_view found ≡ spec.meaning_in (scope_of scope.entry) contract.now more.now) }
{
    match more {
        [] => Ok(meaning_of(scope, contract.clone()?)),
        [name] => meaning_inside(scope, contract, name),
        _ => Ok(None),
    }
}

/// What is built in under a written name.
fn built_in_meaning(alloc: Global, names: &[Name]) -> Result<Option<Meaning>, AllocError>
    ensures { IfOk result (λ found. option_map meaning_view found ≡ spec.built_in_meaning names.now) }
{
    if let Some(basic) = basic_type(names) {
        return Ok(Some(Meaning::Basic(basic)));
    }
    match names {
        [name] => one_built_in(alloc, name),
        _ => Ok(None),
    }
}

/// `Capability`, a built-in entitlement or mapping.
fn one_built_in(alloc: Global, name: &Name) -> Result<Option<Meaning>, AllocError>
    ensures { IfOk result (λ found. option_map meaning_view found ≡ spec.one_built_in name.now) }
{
    if is_spelled(name, "Capability") {
        return Ok(Some(Meaning::Capability));
    }
    if is_entitlement_name(name) {
        let id = built_in_as(alloc, name)?;
        return Ok(Some(Meaning::Entitlement(id)));
    }
    if is_spelled(name, "Identity") {
        let id = built_in_as(alloc, name)?;
        return Ok(Some(Meaning::Mapping(id)));
    }
    Ok(None)
}
