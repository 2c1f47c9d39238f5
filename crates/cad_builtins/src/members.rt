// Which built-in members a type has.
ghost use Rattle.std.specs.Prelude.{◌≡◌, ◌++◌, ◌∷◌, [], codes};
ghost use Rattle.std.specs.List.{list_any};
ghost use Rattle.cad_syntax.specs.Types.{pure_type, basic, intersection, declared};
ghost use Rattle.cad_syntax.specs.declared.types.Basic.TheVariants as b;
ghost use Rattle.cad_types.specs.Declarations.{found, is_resource_id};
ghost use Rattle.cad_types.specs.Views.{declarations};
ghost use Rattle.cad_types.specs.declared.builtin.Builtin.TheVariants as m;
ghost use Rattle.cad_declarations.specs.BuiltinNames as spec;
ghost use Rattle.cad_builtins.specs.Code.Names as parts;

use crate::comparable::{is_comparable, is_enum};
use crate::names::{
    ACCOUNT_MEMBERS, ADDRESS_MEMBERS, ANY_MEMBERS, ARRAY_MEMBERS, CAPABILITIES_MEMBERS,
    CAPABILITY_MEMBERS, CHARACTER_MEMBERS, COMPARING_ARRAY_MEMBERS, CONTRACT_MEMBERS,
    CONTRACTS_MEMBERS, CONTROLLER_MEMBERS, COPYING_ARRAY_MEMBERS, DICTIONARY_MEMBERS, ENUM_MEMBERS,
    FOUR_SATURATING, FUNCTIONS, LENDING_CAPABILITY_MEMBERS, META_MEMBERS, NUMBER_MEMBERS,
    RESOURCE_MEMBERS, SATURATING_SUBTRACT, SIZED_MEMBERS, STORAGE_CAPABILITIES_MEMBERS,
    STORAGE_MEMBERS, STRING_MEMBERS, STRING_TYPE_MEMBERS, THREE_SATURATING, VALUES_MEMBER,
    member_among,
};
use crate::numbers::is_sized;
use cad_scopes::is_spelled;
use cad_syntax::{Basic, CadType, Kind, Name, TypeId};
use cad_types::{Builtin, DeclaredTypes, Sort, is_resource};

/// A built-in member of the values of a type, by its name. Through a reference the members of its target are met.
#[tactic(auto, using(crate::proofs::Among::all_builtin))]
pub fn builtin_member(types: &DeclaredTypes, t: &CadType, name: &Name) -> Option<Builtin>
    ensures { result ≡ spec.builtin_member (declarations types.now) (pure_type t.now) name.now }
{
    own_or_any(types, t, name)
}

fn own_or_any(types: &DeclaredTypes, t: &CadType, name: &Name) -> Option<Builtin>
    ensures { result ≡ parts.builtin_by_parts (declarations types.now) (pure_type t.now) name.now }
{
    if let Some(member) = own_member(types, t, name) {
        return Some(member);
    }
    any_member(name)
}

fn any_member(name: &Name) -> Option<Builtin>
    ensures { result ≡ spec.member_among spec.any_members name.now }
{
    member_among(&ANY_MEMBERS, name)
}

/// One of the members that not all values have.
fn own_member(types: &DeclaredTypes, t: &CadType, name: &Name) -> Option<Builtin>
    ensures { result ≡ spec.member_among (spec.own_members (declarations types.now) (pure_type t.now)) name.now }
{
    match t {
        CadType::Basic(basic) => basic_member(*basic, name),
        CadType::Array(element) => array_member(types, element, name),
        CadType::Dictionary(_, value) => dictionary_member(types, value, name),
        CadType::Intersection(ids) => intersection_member(types, ids.as_slice(), name),
        CadType::Declared(id) => declared_member(types, id, name),
        CadType::Capability => capability_member(name),
        CadType::CapabilityOf(_) => lending_capability_member(name),
        CadType::Optional(_) | CadType::Reference(_, _) => None,
    }
}

/// A member of an array with elements of a type.
#[tactic(auto, using(crate::proofs::Among::all_array))]
fn array_member(types: &DeclaredTypes, element: &CadType, name: &Name) -> Option<Builtin>
    ensures { result ≡ spec.member_among (spec.array_members (declarations types.now) (pure_type element.now)) name.now }
{
    array_member_by_parts(types, element, name)
}

fn array_member_by_parts(types: &DeclaredTypes, element: &CadType, name: &Name) -> Option<Builtin>
    ensures { result ≡ parts.array_by_parts (declarations types.now) (pure_type element.now) name.now }
{
    if let Some(member) = all_array_member(name) {
        return Some(member);
    }
    if let Some(member) = copying_array_member(types, element, name) {
        return Some(member);
    }
    comparing_array_member(types, element, name)
}

fn all_array_member(name: &Name) -> Option<Builtin>
    ensures { result ≡ spec.member_among parts.all_array_members name.now }
{
    member_among(&ARRAY_MEMBERS, name)
}

fn copying_array_member(types: &DeclaredTypes, element: &CadType, name: &Name) -> Option<Builtin>
    ensures { result ≡ spec.member_among (parts.copying_if (declarations types.now) (pure_type element.now)) name.now }
{
    if is_resource(types, element) {
        None
    } else {
        copying_member(name)
    }
}

fn copying_member(name: &Name) -> Option<Builtin>
    ensures { result ≡ spec.member_among spec.copying_array_members name.now }
{
    member_among(&COPYING_ARRAY_MEMBERS, name)
}

fn comparing_array_member(types: &DeclaredTypes, element: &CadType, name: &Name) -> Option<Builtin>
    ensures { result ≡ spec.member_among (parts.comparing_if (declarations types.now) (pure_type element.now)) name.now }
{
    if is_comparable(types, element) {
        comparing_member(name)
    } else {
        None
    }
}

fn comparing_member(name: &Name) -> Option<Builtin>
    ensures { result ≡ spec.member_among spec.comparing_array_members name.now }
{
    member_among(&COMPARING_ARRAY_MEMBERS, name)
}

/// A member of a dictionary with values of a type.
#[tactic(auto, using(crate::proofs::Among::all_dictionary))]
fn dictionary_member(types: &DeclaredTypes, value: &CadType, name: &Name) -> Option<Builtin>
    ensures { result ≡ spec.member_among (spec.dictionary_members (declarations types.now) (pure_type value.now)) name.now }
{
    dictionary_member_by_parts(types, value, name)
}

fn dictionary_member_by_parts(
    types: &DeclaredTypes,
    value: &CadType,
    name: &Name,
) -> Option<Builtin>
    ensures { result ≡ parts.dictionary_by_parts (declarations types.now) (pure_type value.now) name.now }
{
    if let Some(member) = all_dictionary_member(name) {
        return Some(member);
    }
    values_member(types, value, name)
}

fn all_dictionary_member(name: &Name) -> Option<Builtin>
    ensures { result ≡ spec.member_among parts.all_dictionary_members name.now }
{
    member_among(&DICTIONARY_MEMBERS, name)
}

fn values_member(types: &DeclaredTypes, value: &CadType, name: &Name) -> Option<Builtin>
    ensures { result ≡ spec.member_among (parts.values_if (declarations types.now) (pure_type value.now)) name.now }
{
    if is_resource(types, value) {
        None
    } else {
        member_among(&VALUES_MEMBER, name)
    }
}

fn string_member(name: &Name) -> Option<Builtin>
    ensures { result ≡ spec.member_among spec.string_members name.now }
{
    member_among(&STRING_MEMBERS, name)
}

fn account_member(name: &Name) -> Option<Builtin>
    ensures { result ≡ spec.member_among spec.account_members name.now }
{
    member_among(&ACCOUNT_MEMBERS, name)
}

fn storage_member(name: &Name) -> Option<Builtin>
    ensures { result ≡ spec.member_among spec.storage_members name.now }
{
    member_among(&STORAGE_MEMBERS, name)
}

fn contracts_member(name: &Name) -> Option<Builtin>
    ensures { result ≡ spec.member_among spec.contracts_members name.now }
{
    member_among(&CONTRACTS_MEMBERS, name)
}

fn capabilities_member(name: &Name) -> Option<Builtin>
    ensures { result ≡ spec.member_among spec.capabilities_members name.now }
{
    member_among(&CAPABILITIES_MEMBERS, name)
}

fn storage_capabilities_member(name: &Name) -> Option<Builtin>
    ensures { result ≡ spec.member_among spec.storage_capabilities_members name.now }
{
    member_among(&STORAGE_CAPABILITIES_MEMBERS, name)
}

fn controller_member(name: &Name) -> Option<Builtin>
    ensures { result ≡ spec.member_among spec.controller_members name.now }
{
    member_among(&CONTROLLER_MEMBERS, name)
}

fn basic_member(basic: Basic, name: &Name) -> Option<Builtin>
    ensures { result ≡ spec.member_among (spec.basic_members basic) name.now }
{
    match basic {
        Basic::Number(kind) => number_member(kind, name),
        Basic::Character => member_among(&CHARACTER_MEMBERS, name),
        Basic::String => string_member(name),
        Basic::Meta => member_among(&META_MEMBERS, name),
        Basic::Account => account_member(name),
        Basic::AccountStorage => storage_member(name),
        Basic::AccountContracts => contracts_member(name),
        Basic::AccountCapabilities => capabilities_member(name),
        Basic::AccountStorageCapabilities => storage_capabilities_member(name),
        Basic::StorageCapabilityController => controller_member(name),
        _ => None,
    }
}

/// A member of the numbers of a kind, or of addresses.
#[tactic(auto, using(crate::proofs::Among::all_number))]
fn number_member(kind: Kind, name: &Name) -> Option<Builtin>
    ensures { result ≡ spec.member_among (spec.number_members kind) name.now }
{
    numbered(kind, name)
}

fn numbered(kind: Kind, name: &Name) -> Option<Builtin>
    ensures { result ≡ parts.numbered kind name.now }
{
    match kind {
        Kind::Address => member_among(&ADDRESS_MEMBERS, name),
        _ => number_member_by_parts(kind, name),
    }
}

fn number_member_by_parts(kind: Kind, name: &Name) -> Option<Builtin>
    ensures { result ≡ parts.number_by_parts kind name.now }
{
    if let Some(member) = all_number_member(name) {
        return Some(member);
    }
    if let Some(member) = bytes_member(kind, name) {
        return Some(member);
    }
    saturating_member(kind, name)
}

fn all_number_member(name: &Name) -> Option<Builtin>
    ensures { result ≡ spec.member_among parts.all_number_members name.now }
{
    member_among(&NUMBER_MEMBERS, name)
}

fn bytes_member(kind: Kind, name: &Name) -> Option<Builtin>
    ensures { result ≡ spec.member_among (parts.bytes_if kind) name.now }
{
    if is_sized(kind) {
        sized_member(name)
    } else {
        None
    }
}

fn sized_member(name: &Name) -> Option<Builtin>
    ensures { result ≡ spec.member_among parts.sized_members name.now }
{
    member_among(&SIZED_MEMBERS, name)
}

fn four_saturating(name: &Name) -> Option<Builtin>
    ensures { result ≡ spec.member_among spec.four_saturating name.now }
{
    member_among(&FOUR_SATURATING, name)
}

fn three_saturating(name: &Name) -> Option<Builtin>
    ensures { result ≡ spec.member_among spec.three_saturating name.now }
{
    member_among(&THREE_SATURATING, name)
}

fn saturating_member(kind: Kind, name: &Name) -> Option<Builtin>
    ensures { result ≡ spec.member_among (spec.saturating_members kind) name.now }
{
    match kind {
        Kind::Int8 | Kind::Int16 | Kind::Int32 | Kind::Int64 | Kind::Int128 | Kind::Fix64 => {
            four_saturating(name)
        }
        Kind::UInt8 | Kind::UInt16 | Kind::UInt32 | Kind::UInt64 | Kind::UInt128 | Kind::UFix64 =>
            three_saturating(name),
        Kind::UInt => member_among(&SATURATING_SUBTRACT, name),
        _ => None,
    }
}

fn resource_member(name: &Name) -> Option<Builtin>
    ensures { result ≡ spec.member_among spec.resource_members name.now }
{
    member_among(&RESOURCE_MEMBERS, name)
}

fn some_is_resource(types: &DeclaredTypes, ids: &[TypeId]) -> bool
    ensures { result ≡ list_any (is_resource_id (declarations types.now)) ids.now }
{
    ids.iter().any(|id| types.is_resource(id))
}

/// The members of resources, where one of the interfaces is of resources.
fn intersection_member(types: &DeclaredTypes, ids: &[TypeId], name: &Name) -> Option<Builtin>
    ensures { result ≡ spec.member_among (spec.own_members (declarations types.now) (intersection ids.now)) name.now }
{
    if some_is_resource(types, ids) {
        resource_member(name)
    } else {
        None
    }
}

fn declared_member(types: &DeclaredTypes, id: &TypeId, name: &Name) -> Option<Builtin>
    ensures { result ≡ spec.member_among (spec.declared_members (found (declarations types.now) id.now)) name.now }
{
    match types.find(id) {
        Some(declared) => sort_member(declared.sort, name),
        None => None,
    }
}

fn sort_member(sort: Sort, name: &Name) -> Option<Builtin>
    ensures { result ≡ spec.member_among (spec.sort_members sort) name.now }
{
    match sort {
        Sort::Resource | Sort::ResourceInterface => resource_member(name),
        Sort::Contract => member_among(&CONTRACT_MEMBERS, name),
        Sort::Enum => member_among(&ENUM_MEMBERS, name),
        _ => None,
    }
}

fn capability_member(name: &Name) -> Option<Builtin>
    ensures { result ≡ spec.member_among spec.capability_members name.now }
{
    member_among(&CAPABILITY_MEMBERS, name)
}

fn lending_capability_member(name: &Name) -> Option<Builtin>
    ensures { result ≡ spec.member_among (spec.capability_members ++ spec.lending_members) name.now }
{
    member_among(&LENDING_CAPABILITY_MEMBERS, name)
}

/// A built-in member of a type itself, by its name: `UInt8.max`, `String.encodeHex`.
pub fn builtin_member_of_type(t: &CadType, name: &Name) -> Option<Builtin>
    ensures { result ≡ spec.builtin_member_of_type (pure_type t.now) name.now }
{
    match t {
        CadType::Basic(Basic::Number(kind)) => kind_member(*kind, name),
        CadType::Basic(Basic::String) => string_type_member(name),
        _ => None,
    }
}

fn string_type_member(name: &Name) -> Option<Builtin>
    ensures { result ≡ spec.member_among (spec.members_of_type (basic b.String)) name.now }
{
    member_among(&STRING_TYPE_MEMBERS, name)
}

/// A member of a kind of numbers.
fn kind_member(kind: Kind, name: &Name) -> Option<Builtin>
    ensures { result ≡ spec.member_among (spec.kind_members kind) name.now }
{
    match kind {
        Kind::Address => None,
        _ => reading_member(kind, name),
    }
}

/// The member that reads a number, or a limit.
fn reading_member(kind: Kind, name: &Name) -> Option<Builtin>
    ensures { result ≡ spec.member_among (spec.member_named (codes "fromString") (m.NumberFromString kind) ∷ spec.limit_members kind) name.now }
{
    if is_spelled(name, "fromString") {
        Some(Builtin::NumberFromString(kind))
    } else {
        limit_member(kind, name)
    }
}

/// The least and the greatest number, where the kind has them.
fn limit_member(kind: Kind, name: &Name) -> Option<Builtin>
    ensures { result ≡ spec.member_among (spec.limit_members kind) name.now }
{
    match kind {
        Kind::Int => None,
        Kind::UInt => least(kind, name),
        _ => limit(kind, name),
    }
}

fn least(kind: Kind, name: &Name) -> Option<Builtin>
    ensures { result ≡ spec.member_among (spec.member_named (codes "min") (m.NumberMin kind) ∷ []) name.now }
{
    if is_spelled(name, "min") {
        Some(Builtin::NumberMin(kind))
    } else {
        None
    }
}

fn limit(kind: Kind, name: &Name) -> Option<Builtin>
    ensures { result ≡ spec.member_among (spec.member_named (codes "min") (m.NumberMin kind) ∷ spec.member_named (codes "max") (m.NumberMax kind) ∷ []) name.now }
{
    if is_spelled(name, "min") {
        Some(Builtin::NumberMin(kind))
    } else if is_spelled(name, "max") {
        Some(Builtin::NumberMax(kind))
    } else {
        None
    }
}

/// The built-in member that a type is when it is called: `UInt8(n)`, `E(rawValue: r)`.
pub fn builtin_call_of_type(types: &DeclaredTypes, t: &CadType) -> Option<Builtin>
    ensures { result ≡ spec.builtin_call_of_type (declarations types.now) (pure_type t.now) }
{
    match t {
        CadType::Basic(Basic::Number(kind)) => kind_conversion(*kind),
        CadType::Declared(id) => enum_conversion(types, id),
        _ => None,
    }
}

fn enum_conversion(types: &DeclaredTypes, id: &TypeId) -> Option<Builtin>
    ensures { result ≡ spec.builtin_call_of_type (declarations types.now) (declared id.now) }
{
    if is_enum(types, id) {
        Some(Builtin::EnumFromRawValue)
    } else {
        None
    }
}

fn kind_conversion(kind: Kind) -> Option<Builtin>
    ensures { result ≡ spec.kind_conversion kind }
{
    match kind {
        Kind::Address => None,
        _ => Some(Builtin::NumberConvert(kind)),
    }
}

/// A built-in function, by its name.
pub fn builtin_function(name: &Name) -> Option<Builtin>
    ensures { result ≡ spec.builtin_function name.now }
{
    member_among(&FUNCTIONS, name)
}
