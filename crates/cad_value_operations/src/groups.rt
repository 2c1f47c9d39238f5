// What built-in members are used on, and what they do there.
ghost use Rattle.std.specs.Prelude.{◌≡◌};
ghost use Rattle.cad_value_operations.specs.Code.Groups as spec;

use cad_num::Op;
use cad_syntax::Kind;
use cad_types::Builtin;

/// A member of texts.
#[derive(Clone, Copy, Debug, PartialEq, Eq)]
pub enum TextMember {
    Length,
    Bytes,
    Concat,
    Slice,
    /// The bytes that hexadecimal digits tell.
    Decoded,
}

/// A member of numbers.
#[derive(Clone, Copy, Debug, PartialEq, Eq)]
pub enum NumberMember {
    /// As a text.
    Told,
    Bytes,
    /// With another number, in the range of the kind.
    Saturated(Op),
}

/// A member of addresses.
#[derive(Clone, Copy, Debug, PartialEq, Eq)]
pub enum AddressMember {
    /// As a text.
    Told,
    Bytes,
}

/// A built-in member of a value, by what it is used on.
#[derive(Clone, Copy, Debug, PartialEq, Eq)]
pub enum Group {
    /// No member of a value.
    Nothing,
    /// A member of accounts, storage, capabilities or controllers.
    Service,
    /// `uuid` of a resource.
    Identity,
    /// `owner` of a resource.
    Owner,
    /// `account` of a contract.
    Account,
    /// An array in which an element is searched.
    Search,
    /// An array or a dictionary.
    Container,
    Text(TextMember),
    /// A character as a text.
    Character,
    Number(NumberMember),
    Address(AddressMember),
    /// The text that names a type.
    Identifier,
    /// The type of any value.
    OwnType,
    /// Whether any value is of a type.
    Instance,
    /// The number of a case.
    RawValue,
}

/// A built-in function, or a member of a type.
#[derive(Clone, Copy, Debug, PartialEq, Eq)]
pub(crate) enum Called {
    Panic,
    Assert,
    Log,
    Account,
    /// Bytes in hexadecimal digits.
    Encoded,
    /// A text of bytes.
    Read,
    Converted(Kind),
    /// A number that a text writes.
    Parsed(Kind),
    Least(Kind),
    Greatest(Kind),
    /// A case by its number.
    Case,
    Nothing,
}

/// Whether a built-in member is one of arrays or dictionaries that searches no element.
fn is_container(builtin: Builtin) -> bool
    ensures { result ≡ spec.is_container builtin }
{
    matches!(
        builtin,
        Builtin::ArrayLength
            | Builtin::ArrayConcat
            | Builtin::ArraySlice
            | Builtin::ArrayReverse
            | Builtin::ArrayAppend
            | Builtin::ArrayAppendAll
            | Builtin::ArrayInsert
            | Builtin::ArrayRemove
            | Builtin::ArrayRemoveFirst
            | Builtin::ArrayRemoveLast
            | Builtin::DictionaryLength
            | Builtin::DictionaryKeys
            | Builtin::DictionaryValues
            | Builtin::DictionaryContainsKey
            | Builtin::DictionaryInsert
            | Builtin::DictionaryRemove
    )
}

/// Whether a built-in member is one of accounts, their storage or their contracts.
fn is_of_account(builtin: Builtin) -> bool
    ensures { result ≡ spec.is_of_account builtin }
{
    matches!(
        builtin,
        Builtin::AccountAddress
            | Builtin::AccountStorage
            | Builtin::AccountContracts
            | Builtin::AccountCapabilities
            | Builtin::StorageSave
            | Builtin::StorageLoad
            | Builtin::StorageCopy
            | Builtin::StorageBorrow
            | Builtin::StorageCheck
            | Builtin::StorageType
            | Builtin::ContractsAdd
            | Builtin::ContractsUpdate
    )
}

/// Whether a built-in member is one of capabilities.
fn is_of_capability(builtin: Builtin) -> bool
    ensures { result ≡ spec.is_of_capability builtin }
{
    matches!(
        builtin,
        Builtin::CapabilitiesGet
            | Builtin::CapabilitiesBorrow
            | Builtin::CapabilitiesExists
            | Builtin::CapabilitiesPublish
            | Builtin::CapabilitiesUnpublish
            | Builtin::CapabilitiesStorage
            | Builtin::StorageCapabilitiesIssue
            | Builtin::StorageCapabilitiesGetController
            | Builtin::CapabilityId
            | Builtin::CapabilityAddress
            | Builtin::CapabilityBorrow
            | Builtin::CapabilityCheck
    )
}

/// Whether a built-in member is one of controllers of capabilities.
fn is_of_controller(builtin: Builtin) -> bool
    ensures { result ≡ spec.is_of_controller builtin }
{
    matches!(
        builtin,
        Builtin::ControllerCapabilityId
            | Builtin::ControllerBorrowType
            | Builtin::ControllerTag
            | Builtin::ControllerSetTag
            | Builtin::ControllerTarget
            | Builtin::ControllerRetarget
            | Builtin::ControllerDelete
    )
}

/// Whether a built-in member is one of accounts, storage, capabilities or controllers.
fn is_service(builtin: Builtin) -> bool
    ensures { result ≡ spec.is_service builtin }
{
    is_of_account(builtin) || is_of_capability(builtin) || is_of_controller(builtin)
}

/// What a built-in member of anything else is used on.
fn leaf_group(builtin: Builtin) -> Group
    ensures { result ≡ spec.leaf_group builtin }
{
    match builtin {
        Builtin::ArrayContains | Builtin::ArrayFirstIndex => Group::Search,
        Builtin::StringLength => Group::Text(TextMember::Length),
        Builtin::StringUtf8 => Group::Text(TextMember::Bytes),
        Builtin::StringConcat => Group::Text(TextMember::Concat),
        Builtin::StringSlice => Group::Text(TextMember::Slice),
        Builtin::StringDecodeHex => Group::Text(TextMember::Decoded),
        Builtin::CharacterToString => Group::Character,
        Builtin::NumberToString => Group::Number(NumberMember::Told),
        Builtin::NumberToBigEndianBytes => Group::Number(NumberMember::Bytes),
        Builtin::SaturatingAdd => Group::Number(NumberMember::Saturated(Op::Add)),
        Builtin::SaturatingSubtract => Group::Number(NumberMember::Saturated(Op::Sub)),
        Builtin::SaturatingMultiply => Group::Number(NumberMember::Saturated(Op::Mul)),
        Builtin::SaturatingDivide => Group::Number(NumberMember::Saturated(Op::Div)),
        Builtin::AddressToString => Group::Address(AddressMember::Told),
        Builtin::AddressToBytes => Group::Address(AddressMember::Bytes),
        Builtin::GetType => Group::OwnType,
        Builtin::IsInstance => Group::Instance,
        Builtin::TypeIdentifier => Group::Identifier,
        Builtin::EnumRawValue => Group::RawValue,
        Builtin::ResourceUuid => Group::Identity,
        Builtin::ResourceOwner => Group::Owner,
        Builtin::ContractAccount => Group::Account,
        _ => Group::Nothing,
    }
}

/// What a built-in member is used on.
pub fn group_of(builtin: Builtin) -> Group
    ensures { result ≡ spec.group builtin }
{
    if is_container(builtin) {
        Group::Container
    } else if is_service(builtin) {
        Group::Service
    } else {
        leaf_group(builtin)
    }
}

/// The function or member of a type that a built-in one is.
pub(crate) fn called_of(builtin: Builtin) -> Called
    ensures { result ≡ spec.called builtin }
{
    match builtin {
        Builtin::StringEncodeHex => Called::Encoded,
        Builtin::StringFromUtf8 => Called::Read,
        Builtin::NumberConvert(kind) => Called::Converted(kind),
        Builtin::NumberFromString(kind) => Called::Parsed(kind),
        Builtin::NumberMin(kind) => Called::Least(kind),
        Builtin::NumberMax(kind) => Called::Greatest(kind),
        Builtin::EnumFromRawValue => Called::Case,
        Builtin::Panic => Called::Panic,
        Builtin::Assert => Called::Assert,
        Builtin::Log => Called::Log,
        Builtin::GetAccount => Called::Account,
        _ => Called::Nothing,
    }
}
