// The names that are built in.
ghost use Rattle.std.specs.Prelude.{◌≡◌, [], ◌∷◌, map, IfOk};
ghost use Rattle.std.specs.List.{list_any};
ghost use Rattle.cad_declarations.specs.Names as spec;
ghost use Rattle.cad_declarations.specs.Scopes as scopes;

use cad_syntax::{Address, Basic, Kind, Name, Names, TypeId};
use cad_types::Sort;
use std::alloc::{AllocError, Global};

/// What a name stands for: a type, an entitlement or a mapping.
#[derive(Debug, Drop, PartialEq, Eq)]
pub enum Meaning {
    Basic(Basic),
    Capability,
    Type(TypeId, Sort),
    Entitlement(TypeId),
    Mapping(TypeId),
}

/// The basic types of one name.
const BASIC_NAMES: [(&str, Basic); 33] = [
    ("Int", Basic::Number(Kind::Int)),
    ("Int8", Basic::Number(Kind::Int8)),
    ("Int16", Basic::Number(Kind::Int16)),
    ("Int32", Basic::Number(Kind::Int32)),
    ("Int64", Basic::Number(Kind::Int64)),
    ("Int128", Basic::Number(Kind::Int128)),
    ("UInt", Basic::Number(Kind::UInt)),
    ("UInt8", Basic::Number(Kind::UInt8)),
    ("UInt16", Basic::Number(Kind::UInt16)),
    ("UInt32", Basic::Number(Kind::UInt32)),
    ("UInt64", Basic::Number(Kind::UInt64)),
    ("UInt128", Basic::Number(Kind::UInt128)),
    ("Word8", Basic::Number(Kind::Word8)),
    ("Word16", Basic::Number(Kind::Word16)),
    ("Word32", Basic::Number(Kind::Word32)),
    ("Word64", Basic::Number(Kind::Word64)),
    ("Word128", Basic::Number(Kind::Word128)),
    ("Fix64", Basic::Number(Kind::Fix64)),
    ("UFix64", Basic::Number(Kind::UFix64)),
    ("Address", Basic::Number(Kind::Address)),
    ("Void", Basic::Void),
    ("Never", Basic::Never),
    ("Bool", Basic::Bool),
    ("Character", Basic::Character),
    ("String", Basic::String),
    ("Path", Basic::Path),
    ("StoragePath", Basic::StoragePath),
    ("PublicPath", Basic::PublicPath),
    ("Type", Basic::Meta),
    ("AnyStruct", Basic::AnyStruct),
    ("AnyResource", Basic::AnyResource),
    ("Account", Basic::Account),
    (
        "StorageCapabilityController",
        Basic::StorageCapabilityController,
    ),
];

/// The parts of an account.
const ACCOUNT_PART_NAMES: [(&str, Basic); 4] = [
    ("Storage", Basic::AccountStorage),
    ("Contracts", Basic::AccountContracts),
    ("Capabilities", Basic::AccountCapabilities),
    ("StorageCapabilities", Basic::AccountStorageCapabilities),
];

/// The built-in entitlements.
const ENTITLEMENT_NAMES: [&str; 21] = [
    "Mutate",
    "Insert",
    "Remove",
    "Storage",
    "SaveValue",
    "LoadValue",
    "CopyValue",
    "BorrowValue",
    "Contracts",
    "AddContract",
    "UpdateContract",
    "RemoveContract",
    "Capabilities",
    "PublishCapability",
    "UnpublishCapability",
    "StorageCapabilities",
    "IssueStorageCapabilityController",
    "GetStorageCapabilityController",
    "AccountCapabilities",
    "Keys",
    "Inbox",
];

/// Whether a name is spelled so.
pub fn is_spelled(name: &Name, text: &str) -> bool
    ensures { result ≡ spec.is_spelled text.now name.now }
{
    name.0.as_str() == text
}

/// The first type of a table with this name.
fn type_named(names: &[(&str, Basic)], name: &Name) -> Option<Basic>
    ensures { result ≡ spec.type_named (map (λ row. spec.named_so row.0.now row.1) names.now) name.now }
{
    for (text, basic) in names {
        if is_spelled(name, text) {
            return Some(*basic);
        }
    }
    None
}

/// The basic type that a written name is: one name, or that of a part of an account behind `Account.`.
pub fn basic_type(names: &[Name]) -> Option<Basic>
    ensures { result ≡ spec.basic_type names.now }
{
    let [name, more @ ..] = names else {
        return None;
    };
    let [part, others @ ..] = more else {
        return one_name_type(name);
    };
    match others {
        [] => account_part(name, part),
        [_third, _more @ ..] => None,
    }
}

fn one_name_type(name: &Name) -> Option<Basic>
    ensures { result ≡ spec.basic_type (name.now ∷ []) }
{
    type_named(&BASIC_NAMES, name)
}

/// The part of an account that a name is, behind `Account.`.
fn account_part(name: &Name, part: &Name) -> Option<Basic>
    ensures { result ≡ spec.basic_type (name.now ∷ part.now ∷ []) }
{
    if is_spelled(name, "Account") {
        type_named(&ACCOUNT_PART_NAMES, part)
    } else {
        None
    }
}

/// Whether a name is that of a built-in entitlement.
pub fn is_entitlement_name(name: &Name) -> bool
    ensures { result ≡ spec.is_entitlement_name name.now }
{
    is_among(&ENTITLEMENT_NAMES, name)
}

/// Whether a name is one of these texts.
fn is_among(texts: &[&str], name: &Name) -> bool
    ensures { result ≡ list_any (λ text. spec.is_spelled text.now name.now) texts.now }
{
    texts.iter().any(|text| is_spelled(name, text))
}

/// The identifier of what is built in under a name.
pub fn built_in_as(alloc: Global, name: &Name) -> Result<TypeId, AllocError>
    ensures { IfOk result (λ id. id ≡ spec.built_in_as name.now) }
{
    let mut names = Names::new(alloc);
    names.push(name.clone()?)?;
    Ok(TypeId {
        address: Address(0),
        names,
    })
}

/// The identifier of what is declared in a contract or type under a name.
pub fn inside(id: &TypeId, name: &Name) -> Result<TypeId, AllocError>
    ensures { IfOk result (λ made. made ≡ scopes.inside id.now name.now) }
{
    let mut names = id.names.clone()?;
    names.push(name.clone()?)?;
    Ok(TypeId {
        address: id.address,
        names,
    })
}
