// The text that names a type.
ghost use Rattle.std.specs.Prelude.{◌≡◌, ◌++◌, codes, IfOk, OnOk, option_map};
ghost use Rattle.cad_evaluation.specs.Casts as casts;
ghost use Rattle.cad_evaluation.specs.Texts as texts;
ghost use Rattle.cad_evaluation.specs.TypeTexts as spec;
ghost use Rattle.cad_text_operators.specs.Identifiers.{more};
ghost use Rattle.cad_outcomes.specs.Outcomes.{Gives};
ghost use Rattle.cad_rows.specs.Views.{pure_tree};
ghost use Rattle.cad_syntax.specs.TypeIds.{type_text};
ghost use Rattle.cad_syntax.specs.Types.{capability_of, pure_type};
ghost use Rattle.cad_values.specs.Values.{pure_value};
ghost use Rattle.cad_world.specs.State.{give};

use crate::texts::text_tree;
use cad_operators::plain_value;
use cad_outcomes::Stop;
use cad_rows::Tree;
use cad_syntax::{Authorization, Basic, CadType, Kind, Text, TypeId};
use cad_values::Value;
use std::alloc::{AllocError, Global};

/// The name of a kind.
fn kind_text(kind: Kind) -> &'static str
    ensures { result.now ≡ spec.kind_text kind }
{
    match kind {
        Kind::Int => "Int",
        Kind::Int8 => "Int8",
        Kind::Int16 => "Int16",
        Kind::Int32 => "Int32",
        Kind::Int64 => "Int64",
        Kind::Int128 => "Int128",
        Kind::UInt => "UInt",
        Kind::UInt8 => "UInt8",
        Kind::UInt16 => "UInt16",
        Kind::UInt32 => "UInt32",
        Kind::UInt64 => "UInt64",
        Kind::UInt128 => "UInt128",
        Kind::Word8 => "Word8",
        Kind::Word16 => "Word16",
        Kind::Word32 => "Word32",
        Kind::Word64 => "Word64",
        Kind::Word128 => "Word128",
        Kind::Fix64 => "Fix64",
        Kind::UFix64 => "UFix64",
        Kind::Address => "Address",
    }
}

/// The name of a basic type.
fn basic_text(basic: Basic) -> &'static str
    ensures { result.now ≡ spec.basic_text basic }
{
    match basic {
        Basic::Number(kind) => kind_text(kind),
        Basic::Void => "Void",
        Basic::Never => "Never",
        Basic::Bool => "Bool",
        Basic::Character => "Character",
        Basic::String => "String",
        Basic::Path => "Path",
        Basic::StoragePath => "StoragePath",
        Basic::PublicPath => "PublicPath",
        Basic::Meta => "Type",
        Basic::AnyStruct => "AnyStruct",
        Basic::AnyResource => "AnyResource",
        Basic::Account => "Account",
        Basic::AccountStorage => "Account.Storage",
        Basic::AccountContracts => "Account.Contracts",
        Basic::AccountCapabilities => "Account.Capabilities",
        Basic::AccountStorageCapabilities => "Account.StorageCapabilities",
        Basic::StorageCapabilityController => "StorageCapabilityController",
    }
}

/// Appends the text of an identifier.
fn push_id(alloc: Global, text: &mut Text, id: &TypeId) -> Result<(), AllocError>
    ensures { OnOk result (text.new ≡ text.old ++ type_text id.now) }
{
    let name = id.to_text(alloc)?;
    text.push_str(name.as_str())
}

/// Appends a separator and an identifier.
#[tactic(auto, using(crate::proofs::Pushes::two_pushed))]
fn push_next(alloc: Global, text: &mut Text, separator: &str, id: &TypeId) -> Result<(), AllocError>
    ensures { OnOk result (text.new ≡ text.old ++ (separator.now ++ type_text id.now)) }
{
    text.push_str(separator)?;
    push_id(alloc, text, id)
}

/// Appends identifiers, each with the separator before it.
fn push_more(
    alloc: Global,
    text: &mut Text,
    separator: &str,
    ids: &[TypeId],
) -> Result<(), AllocError>
    ensures { OnOk result (text.new ≡ text.old ++ more separator.now ids.now) }
{
    for id in ids {
        push_next(alloc, text, separator, id)?;
    }
    Ok(())
}

/// Appends identifiers, with the separator between.
fn push_listed(
    alloc: Global,
    text: &mut Text,
    separator: &str,
    ids: &[TypeId],
) -> Result<(), AllocError>
    ensures { OnOk result (text.new ≡ text.old ++ spec.listed separator.now ids.now) }
{
    match ids {
        [] => Ok(()),
        [first, rest @ ..] => {
            push_id(alloc, text, first)?;
            push_more(alloc, text, separator, rest)
        }
    }
}

/// Appends identifiers between two texts.
#[tactic(auto, using(crate::proofs::Pushes::three_pushed))]
fn push_list(
    alloc: Global,
    text: &mut Text,
    before: &str,
    separator: &str,
    ids: &[TypeId],
    behind: &str,
) -> Result<(), AllocError>
    ensures { OnOk result (text.new ≡ text.old ++ (before.now ++ spec.listed separator.now ids.now ++ behind.now)) }
{
    text.push_str(before)?;
    push_listed(alloc, text, separator, ids)?;
    text.push_str(behind)
}

/// Appends what a reference may do.
fn push_authorization(
    alloc: Global,
    text: &mut Text,
    authorization: &Authorization,
) -> Result<(), AllocError>
    ensures { OnOk result (text.new ≡ text.old ++ spec.authorization_text authorization.now) }
{
    match authorization {
        Authorization::Unauthorized => Ok(()),
        Authorization::All(ids) => push_list(alloc, text, "auth(", ",", ids.as_slice(), ")"),
        Authorization::Any(ids) => push_list(alloc, text, "auth(", "|", ids.as_slice(), ")"),
    }
}

/// Whether a type is an optional.
fn is_optional(t: &CadType) -> bool
    ensures { result ≡ spec.is_optional (pure_type t.now) }
{
    matches!(t, CadType::Optional(_))
}

/// Appends the text that names a type.
#[cycle(identifiers)]
fn push_identifier(alloc: Global, text: &mut Text, t: &CadType) -> Result<(), AllocError>
    ensures { OnOk result (text.new ≡ text.old ++ spec.identifier (pure_type t.now)) }
{
    match t {
        CadType::Basic(basic) => text.push_str(basic_text(*basic)),
        CadType::Optional(content) => push_within(alloc, text, "", content, "?"),
        CadType::Array(element) => push_within(alloc, text, "[", element, "]"),
        CadType::Dictionary(key, value) => {
            push_within(alloc, text, "{", key, ":")?;
            push_within(alloc, text, "", value, "}")
        }
        CadType::Intersection(ids) => push_list(alloc, text, "{", ",", ids.as_slice(), "}"),
        CadType::Declared(id) => push_id(alloc, text, id),
        CadType::Reference(authorization, target) => {
            push_authorization(alloc, text, authorization)?;
            push_target(alloc, text, target)
        }
        CadType::Capability => text.push_str("Capability"),
        CadType::CapabilityOf(lent) => push_capability(alloc, text, lent),
    }
}

/// Appends the text of a type between two texts.
#[cycle(identifiers)]
fn push_within(
    alloc: Global,
    text: &mut Text,
    before: &str,
    t: &CadType,
    behind: &str,
) -> Result<(), AllocError>
    ensures { OnOk result (text.new ≡ text.old ++ (before.now ++ spec.identifier (pure_type t.now) ++ behind.now)) }
{
    text.push_str(before)?;
    push_identifier(alloc, text, t)?;
    text.push_str(behind)
}

/// Appends the text of the capabilities that lend a type.
#[cycle(identifiers)]
fn push_capability(alloc: Global, text: &mut Text, lent: &CadType) -> Result<(), AllocError>
    ensures { OnOk result (text.new ≡ text.old ++ spec.identifier (capability_of (pure_type lent.now))) }
{
    push_within(alloc, text, "Capability<", lent, ">")
}

/// Appends a target of a reference; one that ends with `?` stands in parentheses.
#[cycle(identifiers)]
fn push_target(alloc: Global, text: &mut Text, t: &CadType) -> Result<(), AllocError>
    ensures { OnOk result (text.new ≡ text.old ++ (codes "&" ++ spec.target_text (spec.is_optional (pure_type t.now)) (spec.identifier (pure_type t.now)))) }
{
    if is_optional(t) {
        push_within(alloc, text, "&(", t, ")")
    } else {
        push_within(alloc, text, "&", t, "")
    }
}

/// The text that names a type, as a value.
pub fn identifier(alloc: Global, t: &CadType) -> Result<Tree, Stop>
    ensures { Gives pure_tree (give (texts.text_tree (spec.identifier (pure_type t.now)))) result }
{
    let mut text = Text::new(alloc);
    match push_identifier(alloc, &mut text, t) {
        Ok(()) => Ok(text_tree(alloc, text)),
        Err(_) => Err(Stop::Memory),
    }
}

/// The type that a value is.
fn type_in_value(value: &Value) -> Option<&CadType>
    ensures { option_map (λ t. pure_type t.now) result ≡ casts.type_in_value (pure_value value.now) }
{
    match value {
        Value::Meta(t) => Some(t),
        _ => None,
    }
}

/// The type that a tree is, as a value.
pub fn type_in(tree: &Tree) -> Option<&CadType>
    ensures { option_map (λ t. pure_type t.now) result ≡ texts.in_tree casts.type_in_value (pure_tree tree.now) }
{
    match plain_value(tree) {
        Some(value) => type_in_value(value),
        None => None,
    }
}
