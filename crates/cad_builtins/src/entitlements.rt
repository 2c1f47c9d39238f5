// What references need for built-in members.
ghost use Rattle.std.specs.Prelude.{◌≡◌, ◌==◌, IfOk, map};
ghost use Rattle.std.specs.Cmp.Lexicographic.{pointwise};
ghost use Rattle.std.specs.List.{list_all};
ghost use Rattle.cad_syntax.specs.TypeIds.{has, same_id};
ghost use Rattle.cad_syntax.specs.declared.types.Authorization.TheVariants as rights;
ghost use Rattle.cad_auth.specs.Grants.{single};
ghost use Rattle.cad_declarations.specs.Builtins as spec;
ghost use Rattle.cad_declarations.specs.Names as spellings;

use cad_scopes::{built_in_as, is_spelled};
use cad_syntax::{Authorization, Name, Text, TypeId, TypeIds};
use cad_types::Builtin;
use std::alloc::{AllocError, Global};
use std::slice;

/// The identifier of what is built in under a text.
pub(crate) fn built_in(alloc: Global, text: &str) -> Result<TypeId, AllocError>
    ensures { IfOk result (λ id. id ≡ spellings.built_in text.now) }
{
    let name = Name(Text::from_str(alloc, text)?);
    built_in_as(alloc, &name)
}

fn either(alloc: Global, first: &str, second: &str) -> Result<Authorization, AllocError>
    ensures { IfOk result (λ a. a ≡ spec.either first.now second.now) }
{
    let mut all = TypeIds::new(alloc);
    all.push(built_in(alloc, first)?)?;
    all.push(built_in(alloc, second)?)?;
    Ok(Authorization::Any(all))
}

fn any_of_three(
    alloc: Global,
    first: &str,
    second: &str,
    third: &str,
) -> Result<Authorization, AllocError>
    ensures { IfOk result (λ a. a ≡ spec.any_of_three first.now second.now third.now) }
{
    let mut all = TypeIds::new(alloc);
    all.push(built_in(alloc, first)?)?;
    all.push(built_in(alloc, second)?)?;
    all.push(built_in(alloc, third)?)?;
    Ok(Authorization::Any(all))
}

/// What a reference has to grant for a built-in member; an owner has all of it.
pub fn needed(alloc: Global, member: Builtin) -> Result<Authorization, AllocError>
    ensures { IfOk result (λ a. a ≡ spec.needed member) }
{
    match member {
        Builtin::ArrayAppend
        | Builtin::ArrayAppendAll
        | Builtin::ArrayInsert
        | Builtin::DictionaryInsert => either(alloc, "Mutate", "Insert"),
        Builtin::ArrayRemove
        | Builtin::ArrayRemoveFirst
        | Builtin::ArrayRemoveLast
        | Builtin::DictionaryRemove => either(alloc, "Mutate", "Remove"),
        Builtin::StorageSave => either(alloc, "Storage", "SaveValue"),
        Builtin::StorageLoad => either(alloc, "Storage", "LoadValue"),
        Builtin::StorageCopy => either(alloc, "Storage", "CopyValue"),
        Builtin::StorageBorrow => either(alloc, "Storage", "BorrowValue"),
        Builtin::ContractsAdd => either(alloc, "Contracts", "AddContract"),
        Builtin::ContractsUpdate => either(alloc, "Contracts", "UpdateContract"),
        Builtin::CapabilitiesPublish => either(alloc, "Capabilities", "PublishCapability"),
        Builtin::CapabilitiesUnpublish => either(alloc, "Capabilities", "UnpublishCapability"),
        Builtin::StorageCapabilitiesIssue => any_of_three(
            alloc,
            "Capabilities",
            "StorageCapabilities",
            "IssueStorageCapabilityController",
        ),
        Builtin::StorageCapabilitiesGetController => any_of_three(
            alloc,
            "Capabilities",
            "StorageCapabilities",
            "GetStorageCapabilityController",
        ),
        _ => Ok(Authorization::Unauthorized),
    }
}

/// Whether a reference with these rights may assign and swap elements: each of its sets has `Mutate`, or `Insert` and
/// `Remove`.
pub fn may_replace_elements(authorization: &Authorization) -> bool
    ensures { result ≡ spec.may_replace_elements authorization.now }
{
    match authorization {
        Authorization::Unauthorized => false,
        Authorization::All(all) => replaces_elements(all.as_slice()),
        Authorization::Any(all) => any_replaces(all.as_slice()),
    }
}

/// Whether any one of these entitlements, it isn't known which, is enough.
fn any_replaces(all: &[TypeId]) -> bool
    ensures { result ≡ spec.may_replace_elements (rights.Any all.now) }
{
    match all {
        [] => false,
        [_first, _others @ ..] => each_replaces(all),
    }
}

/// Whether each of these entitlements alone is enough.
fn each_replaces(all: &[TypeId]) -> bool
    ensures { result ≡ list_all spec.replaces_elements (map single all.now) }
{
    for one in all {
        if !replaces_elements(slice::from_ref(one)) {
            return false;
        }
    }
    true
}

/// Whether a set of entitlements is enough.
fn replaces_elements(set: &[TypeId]) -> bool
    ensures { result ≡ spec.replaces_elements set.now }
{
    has_built_in(set, "Mutate") || (has_built_in(set, "Insert") && has_built_in(set, "Remove"))
}

fn has_built_in(set: &[TypeId], text: &str) -> bool
    ensures { result ≡ has set.now (spellings.built_in text.now) }
{
    set.iter().any(|id| is_built_in(id, text))
}

/// Whether an identifier is that of what is built in under a text.
fn is_built_in(id: &TypeId, text: &str) -> bool
    ensures { result ≡ same_id id.now (spellings.built_in text.now) }
{
    id.address.0 == 0 && is_one_name(id.names.as_slice(), text)
}

fn is_one_name(names: &[Name], text: &str) -> bool
    ensures { result ≡ pointwise (λ m n. pointwise ◌==◌ m.0 n.0) names.now ((spellings.built_in text.now).names) }
{
    match names {
        [name] => is_spelled(name, text),
        _ => false,
    }
}
