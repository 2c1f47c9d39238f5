// The entitlements that are built in.
ghost use Rattle.std.specs.Prelude.{◌≡◌, ◌++◌, IfOk, OnOk, map};
ghost use Rattle.cad_declarations.specs.Names as words;

use cad_syntax::{Address, Name, Names, Text, TypeId, TypeIds};
use std::alloc::{AllocError, Global};

/// The entitlements that are built in.
const ENTITLEMENT_NAMES: [&str; 21] = [
    "Mutate",
    "Insert",
    "Remove",
    "Storage",
    "SaveValue",
    "LoadValue",
    "CopyValue",
    "BorrowValue",
    "Contracts",
    "AddContract",
    "UpdateContract",
    "RemoveContract",
    "Capabilities",
    "PublishCapability",
    "UnpublishCapability",
    "StorageCapabilities",
    "IssueStorageCapabilityController",
    "GetStorageCapabilityController",
    "AccountCapabilities",
    "Keys",
    "Inbox",
];

/// The identifier of what is built in under a name.
fn built_in_named(alloc: Global, name: &str) -> Result<TypeId, AllocError>
    ensures { IfOk result (λ id. id ≡ words.built_in name.now) }
{
    let mut names = Names::new(alloc);
    names.push(Name(Text::from_str(alloc, name)?))?;
    Ok(TypeId {
        address: Address(0),
        names,
    })
}

/// Appends the identifiers of what is built in under names.
fn push_all(alloc: Global, ids: &mut TypeIds, names: &[&str]) -> Result<(), AllocError>
    ensures { OnOk result (ids.new ≡ ids.old ++ map words.built_in (map (λ name. name.now) names.now)) }
{
    for name in names {
        ids.push(built_in_named(alloc, name)?)?;
    }
    Ok(())
}

/// Appends the entitlements that are built in.
pub(crate) fn push_built_in(alloc: Global, ids: &mut TypeIds) -> Result<(), AllocError>
    ensures { OnOk result (ids.new ≡ ids.old ++ map words.built_in words.entitlement_names) }
{
    push_all(alloc, ids, &ENTITLEMENT_NAMES)?;
    Ok(())
}
