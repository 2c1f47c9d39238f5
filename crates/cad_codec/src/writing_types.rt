// Types to bytes.
ghost use Rattle.std.specs.Prelude.{◌≡◌, ◌<◌, ◌^◌, ◌++◌, ◌∷◌, [], length, OnOk};
ghost use Rattle.std.specs.List.{AllByRecursion, flat_map};
ghost use Rattle.cad_syntax.specs.Types.{pure_type};
ghost use Rattle.cad_wire.specs.Fields.{length_field, bytes_field};
ghost use Rattle.cad_codec.specs.TypeBytes as spec;
ghost use Rattle.cad_codec.specs.Ranges.{TextInRange, NameInRange, IdInRange, IdsInRange, AuthorizationInRange, TypeInRange};

use cad_number_codec::kind_byte;
use cad_syntax::{Authorization, Basic, CadType, Name, Text, TypeId};
use cad_wire::Writer;
use std::alloc::AllocError;

/// Appends a list's length. Memory where it is 2^32 or more.
pub fn write_length(writer: &mut Writer, count: usize) -> Result<(), AllocError>
    ensures ok { OnOk result (writer.new ≡ writer.old ++ length_field count) }
    ensures few { OnOk result (count < 2 ^ 32) }
{
    if count > u32::MAX as usize {
        return Err(AllocError);
    }
    writer.length(count as u32)
}

/// Appends a number.
#[tactic(auto, unfolding(crate::specs::TypeBytes::word))]
pub fn write_word(writer: &mut Writer, n: u64) -> Result<(), AllocError>
    ensures ok { OnOk result (writer.new ≡ writer.old ++ spec.word n) }
    ensures in_range { OnOk result (n < 2 ^ 64) }
{
    writer.number(n)
}

/// Appends a text as a byte string. Memory where it has 2^32 bytes or more.
pub fn write_text(writer: &mut Writer, text: &Text) -> Result<(), AllocError>
    ensures ok { OnOk result (writer.new ≡ writer.old ++ bytes_field text.now) }
    ensures in_range { OnOk result (TextInRange text.now) }
{
    let content = text.as_str();
    if content.len() > u32::MAX as usize {
        return Err(AllocError);
    }
    writer.bytes(content.as_bytes())
}

/// Appends a list of names.
#[tactic(auto, unfolding(crate::specs::TypeBytes::counted))]
fn write_names(writer: &mut Writer, names: &[Name]) -> Result<(), AllocError>
    ensures ok { OnOk result (writer.new ≡ writer.old ++ spec.counted (length names.now) (flat_map spec.name_field names.now)) }
    ensures few { OnOk result (length names.now < 2 ^ 32) }
    ensures in_range { OnOk result (AllByRecursion NameInRange names.now) }
{
    write_length(writer, names.len())?;
    for name in names {
        write_text(writer, &name.0)?;
    }
    Ok(())
}

/// Appends an identifier.
#[tactic(auto, unfolding(crate::specs::TypeBytes::id_bytes))]
pub fn write_id(writer: &mut Writer, id: &TypeId) -> Result<(), AllocError>
    ensures ok { OnOk result (writer.new ≡ writer.old ++ spec.id_bytes id.now) }
    ensures in_range { OnOk result (IdInRange id.now) }
{
    write_word(writer, id.address.0)?;
    write_names(writer, id.names.as_slice())
}

/// Appends a list of identifiers.
#[tactic(auto, unfolding(crate::specs::TypeBytes::counted))]
fn write_ids(writer: &mut Writer, ids: &[TypeId]) -> Result<(), AllocError>
    ensures ok { OnOk result (writer.new ≡ writer.old ++ spec.ids_field ids.now) }
    ensures in_range { OnOk result (IdsInRange ids.now) }
{
    write_length(writer, ids.len())?;
    for id in ids {
        write_id(writer, id)?;
    }
    Ok(())
}

/// Appends an authorization.
fn write_authorization(writer: &mut Writer, authorization: &Authorization) -> Result<(), AllocError>
    ensures ok { OnOk result (writer.new ≡ writer.old ++ spec.authorization_bytes authorization.now) }
    ensures in_range { OnOk result (AuthorizationInRange authorization.now) }
{
    match authorization {
        Authorization::Unauthorized => {
            writer.byte(0)?;
            write_ids(writer, &[])
        }
        Authorization::All(ids) => {
            writer.byte(1)?;
            write_ids(writer, ids.as_slice())
        }
        Authorization::Any(ids) => {
            writer.byte(2)?;
            write_ids(writer, ids.as_slice())
        }
    }
}

/// The place of a basic type in their order.
fn basic_byte(basic: Basic) -> u8
    ensures { result ≡ spec.basic_byte basic }
{
    match basic {
        Basic::Number(kind) => kind_byte(kind),
        Basic::Void => 20,
        Basic::Never => 21,
        Basic::Bool => 22,
        Basic::Character => 23,
        Basic::String => 24,
        Basic::Path => 25,
        Basic::StoragePath => 26,
        Basic::PublicPath => 27,
        Basic::Meta => 28,
        Basic::AnyStruct => 29,
        Basic::AnyResource => 30,
        Basic::Account => 31,
        Basic::AccountStorage => 32,
        Basic::AccountContracts => 33,
        Basic::AccountCapabilities => 34,
        Basic::AccountStorageCapabilities => 35,
        Basic::StorageCapabilityController => 36,
    }
}

/// Appends a type. The recursion goes as deep as the type nests.
pub fn write_type(writer: &mut Writer, t: &CadType) -> Result<(), AllocError>
    ensures ok { OnOk result (writer.new ≡ writer.old ++ spec.type_bytes (pure_type t.now)) }
    ensures in_range { OnOk result (TypeInRange (pure_type t.now)) }
{
    match t {
        CadType::Basic(basic) => {
            writer.byte(0)?;
            writer.byte(basic_byte(*basic))
        }
        CadType::Optional(content) => {
            writer.byte(1)?;
            write_type(writer, content)
        }
        CadType::Array(element) => {
            writer.byte(2)?;
            write_type(writer, element)
        }
        CadType::Dictionary(key, value) => {
            writer.byte(3)?;
            write_type(writer, key)?;
            write_type(writer, value)
        }
        CadType::Declared(id) => {
            writer.byte(4)?;
            write_id(writer, id)
        }
        CadType::Intersection(ids) => {
            writer.byte(5)?;
            write_ids(writer, ids.as_slice())
        }
        CadType::Reference(authorization, target) => {
            writer.byte(6)?;
            write_authorization(writer, authorization)?;
            write_type(writer, target)
        }
        CadType::CapabilityOf(lent) => {
            writer.byte(7)?;
            write_type(writer, lent)
        }
        CadType::Capability => writer.byte(8),
    }
}
