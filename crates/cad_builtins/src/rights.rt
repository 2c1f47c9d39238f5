// Which built-in members are read, which are met through references alone, and how many arguments they take.
ghost use Rattle.std.specs.Prelude.{◌≡◌};
ghost use Rattle.cad_declarations.specs.Builtins as spec;

use cad_types::Builtin;

/// Whether a built-in member is read, without arguments behind it.
pub fn is_read(member: Builtin) -> bool
    ensures { result ≡ spec.is_read member }
{
    matches!(
        member,
        Builtin::ArrayLength
            | Builtin::DictionaryLength
            | Builtin::DictionaryKeys
            | Builtin::DictionaryValues
            | Builtin::StringLength
            | Builtin::StringUtf8
            | Builtin::NumberMin(_)
            | Builtin::NumberMax(_)
            | Builtin::TypeIdentifier
            | Builtin::EnumRawValue
            | Builtin::AccountAddress
            | Builtin::AccountStorage
            | Builtin::AccountContracts
            | Builtin::AccountCapabilities
            | Builtin::CapabilitiesStorage
            | Builtin::ControllerCapabilityId
            | Builtin::ControllerBorrowType
            | Builtin::ControllerTag
            | Builtin::CapabilityId
            | Builtin::CapabilityAddress
            | Builtin::ResourceUuid
            | Builtin::ResourceOwner
            | Builtin::ContractAccount
    )
}

/// Whether a built-in member is met through a reference alone: those of accounts, of their parts and of controllers.
pub fn needs_reference(member: Builtin) -> bool
    ensures { result ≡ spec.needs_reference member }
{
    matches!(
        member,
        Builtin::AccountAddress
            | Builtin::AccountStorage
            | Builtin::AccountContracts
            | Builtin::AccountCapabilities
            | Builtin::StorageSave
            | Builtin::StorageLoad
            | Builtin::StorageCopy
            | Builtin::StorageBorrow
            | Builtin::StorageCheck
            | Builtin::StorageType
            | Builtin::ContractsAdd
            | Builtin::ContractsUpdate
            | Builtin::CapabilitiesGet
            | Builtin::CapabilitiesBorrow
            | Builtin::CapabilitiesExists
            | Builtin::CapabilitiesPublish
            | Builtin::CapabilitiesUnpublish
            | Builtin::CapabilitiesStorage
            | Builtin::StorageCapabilitiesIssue
            | Builtin::StorageCapabilitiesGetController
            | Builtin::ControllerCapabilityId
            | Builtin::ControllerBorrowType
            | Builtin::ControllerTag
            | Builtin::ControllerSetTag
            | Builtin::ControllerTarget
            | Builtin::ControllerRetarget
            | Builtin::ControllerDelete
    )
}

/// Whether the last parameter of a built-in member may have no argument.
pub fn last_may_be_absent(member: Builtin) -> bool
    ensures { result ≡ spec.last_may_be_absent member }
{
    matches!(member, Builtin::Assert)
}

/// Whether any further arguments may follow, with any labels, none of a resource type.
pub fn takes_more(member: Builtin) -> bool
    ensures { result ≡ spec.takes_more member }
{
    matches!(member, Builtin::ContractsAdd)
}
