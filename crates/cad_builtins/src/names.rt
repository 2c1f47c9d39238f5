// Tables of built-in members with their names.
ghost use Rattle.std.specs.Prelude.{◌≡◌, map};
ghost use Rattle.cad_declarations.specs.BuiltinNames as spec;

use cad_scopes::is_spelled;
use cad_syntax::Name;
use cad_types::Builtin;

/// The members that all values have.
pub(crate) const ANY_MEMBERS: [(&str, Builtin); 2] = [
    ("getType", Builtin::GetType),
    ("isInstance", Builtin::IsInstance),
];

/// The members that all arrays have.
pub(crate) const ARRAY_MEMBERS: [(&str, Builtin); 6] = [
    ("length", Builtin::ArrayLength),
    ("append", Builtin::ArrayAppend),
    ("insert", Builtin::ArrayInsert),
    ("remove", Builtin::ArrayRemove),
    ("removeFirst", Builtin::ArrayRemoveFirst),
    ("removeLast", Builtin::ArrayRemoveLast),
];

/// Those of arrays that copy elements, or take a copy of them.
pub(crate) const COPYING_ARRAY_MEMBERS: [(&str, Builtin); 4] = [
    ("concat", Builtin::ArrayConcat),
    ("slice", Builtin::ArraySlice),
    ("reverse", Builtin::ArrayReverse),
    ("appendAll", Builtin::ArrayAppendAll),
];

/// Those of arrays that compare elements.
pub(crate) const COMPARING_ARRAY_MEMBERS: [(&str, Builtin); 2] = [
    ("contains", Builtin::ArrayContains),
    ("firstIndex", Builtin::ArrayFirstIndex),
];

/// The members that all dictionaries have.
pub(crate) const DICTIONARY_MEMBERS: [(&str, Builtin); 5] = [
    ("length", Builtin::DictionaryLength),
    ("keys", Builtin::DictionaryKeys),
    ("containsKey", Builtin::DictionaryContainsKey),
    ("insert", Builtin::DictionaryInsert),
    ("remove", Builtin::DictionaryRemove),
];

/// That of dictionaries that copies their values.
pub(crate) const VALUES_MEMBER: [(&str, Builtin); 1] = [("values", Builtin::DictionaryValues)];

pub(crate) const STRING_MEMBERS: [(&str, Builtin); 5] = [
    ("length", Builtin::StringLength),
    ("utf8", Builtin::StringUtf8),
    ("concat", Builtin::StringConcat),
    ("slice", Builtin::StringSlice),
    ("decodeHex", Builtin::StringDecodeHex),
];

pub(crate) const CHARACTER_MEMBERS: [(&str, Builtin); 1] = [(
    "toString",
    Builtin::CharacterToString,
)];

pub(crate) const META_MEMBERS: [(&str, Builtin); 1] = [("identifier", Builtin::TypeIdentifier)];

/// What saturates of `UInt`.
pub(crate) const SATURATING_SUBTRACT: [(&str, Builtin); 1] = [(
    "saturatingSubtract",
    Builtin::SaturatingSubtract,
)];

/// What saturates of kinds without a sign.
pub(crate) const THREE_SATURATING: [(&str, Builtin); 3] = [
    ("saturatingAdd", Builtin::SaturatingAdd),
    ("saturatingMultiply", Builtin::SaturatingMultiply),
    ("saturatingSubtract", Builtin::SaturatingSubtract),
];

/// What saturates of kinds with a sign.
pub(crate) const FOUR_SATURATING: [(&str, Builtin); 4] = [
    ("saturatingDivide", Builtin::SaturatingDivide),
    ("saturatingAdd", Builtin::SaturatingAdd),
    ("saturatingMultiply", Builtin::SaturatingMultiply),
    ("saturatingSubtract", Builtin::SaturatingSubtract),
];

pub(crate) const ADDRESS_MEMBERS: [(&str, Builtin); 2] = [
    ("toString", Builtin::AddressToString),
    ("toBytes", Builtin::AddressToBytes),
];

/// The member that all numbers have, but for addresses.
pub(crate) const NUMBER_MEMBERS: [(&str, Builtin); 1] = [("toString", Builtin::NumberToString)];

/// The member of integers of a fixed number of bits.
pub(crate) const SIZED_MEMBERS: [(&str, Builtin); 1] = [(
    "toBigEndianBytes",
    Builtin::NumberToBigEndianBytes,
)];

pub(crate) const ACCOUNT_MEMBERS: [(&str, Builtin); 4] = [
    ("address", Builtin::AccountAddress),
    ("storage", Builtin::AccountStorage),
    ("contracts", Builtin::AccountContracts),
    ("capabilities", Builtin::AccountCapabilities),
];

pub(crate) const STORAGE_MEMBERS: [(&str, Builtin); 6] = [
    ("save", Builtin::StorageSave),
    ("load", Builtin::StorageLoad),
    ("copy", Builtin::StorageCopy),
    ("borrow", Builtin::StorageBorrow),
    ("check", Builtin::StorageCheck),
    ("type", Builtin::StorageType),
];

pub(crate) const CONTRACTS_MEMBERS: [(&str, Builtin); 1] = [("add", Builtin::ContractsAdd)];

pub(crate) const CAPABILITIES_MEMBERS: [(&str, Builtin); 6] = [
    ("get", Builtin::CapabilitiesGet),
    ("borrow", Builtin::CapabilitiesBorrow),
    ("exists", Builtin::CapabilitiesExists),
    ("publish", Builtin::CapabilitiesPublish),
    ("unpublish", Builtin::CapabilitiesUnpublish),
    ("storage", Builtin::CapabilitiesStorage),
];

pub(crate) const STORAGE_CAPABILITIES_MEMBERS: [(&str, Builtin); 2] = [
    ("issue", Builtin::StorageCapabilitiesIssue),
    ("getController", Builtin::StorageCapabilitiesGetController),
];

pub(crate) const CONTROLLER_MEMBERS: [(&str, Builtin); 7] = [
    ("capabilityID", Builtin::ControllerCapabilityId),
    ("borrowType", Builtin::ControllerBorrowType),
    ("tag", Builtin::ControllerTag),
    ("setTag", Builtin::ControllerSetTag),
    ("target", Builtin::ControllerTarget),
    ("retarget", Builtin::ControllerRetarget),
    ("delete", Builtin::ControllerDelete),
];

pub(crate) const CAPABILITY_MEMBERS: [(&str, Builtin); 2] = [
    ("id", Builtin::CapabilityId),
    ("address", Builtin::CapabilityAddress),
];

/// The members of a capability whose type is known.
pub(crate) const LENDING_CAPABILITY_MEMBERS: [(&str, Builtin); 4] = [
    ("id", Builtin::CapabilityId),
    ("address", Builtin::CapabilityAddress),
    ("borrow", Builtin::CapabilityBorrow),
    ("check", Builtin::CapabilityCheck),
];

pub(crate) const RESOURCE_MEMBERS: [(&str, Builtin); 2] = [
    ("uuid", Builtin::ResourceUuid),
    ("owner", Builtin::ResourceOwner),
];

pub(crate) const CONTRACT_MEMBERS: [(&str, Builtin); 1] = [("account", Builtin::ContractAccount)];

pub(crate) const ENUM_MEMBERS: [(&str, Builtin); 1] = [("rawValue", Builtin::EnumRawValue)];

/// The members of the type String itself.
pub(crate) const STRING_TYPE_MEMBERS: [(&str, Builtin); 2] = [
    ("encodeHex", Builtin::StringEncodeHex),
    ("fromUTF8", Builtin::StringFromUtf8),
];

/// The functions that are built in.
pub(crate) const FUNCTIONS: [(&str, Builtin); 5] = [
    ("panic", Builtin::Panic),
    ("assert", Builtin::Assert),
    ("log", Builtin::Log),
    ("getAccount", Builtin::GetAccount),
    ("Type", Builtin::MetaType),
];

/// The first member of a table with this name.
pub(crate) fn member_among(names: &[(&str, Builtin)], name: &Name) -> Option<Builtin>
    ensures { result ≡ spec.member_among (map (λ row. spec.member_named row.0.now row.1) names.now) name.now }
{
    for (text, member) in names {
        if is_spelled(name, text) {
            return Some(*member);
        }
    }
    None
}
