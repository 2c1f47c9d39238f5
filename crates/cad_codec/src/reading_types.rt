// Bytes to types.
ghost use Rattle.std.specs.Prelude.{◌≡◌, slice_get, MatchResult};
ghost use Rattle.cad_wire.specs.declared.error.DecodeError.TheVariants.{Memory};
ghost use Rattle.cad_syntax.specs.Types.{pure_type};
ghost use Rattle.cad_wire.specs.Fields.{byte_at};
ghost use Rattle.cad_codec.specs.Code.Fields.{ReadsAs, members_at, list_at, tested_at, found_at, text_at, name_at, id_at};
ghost use Rattle.cad_codec.specs.Code.Types as spec;

use crate::form::{TypeForm, type_form};
use cad_syntax::{
    Address, Authorization, Basic, CadType, Kind, Name, Names, Text, TypeId, TypeIds,
};
use cad_wire::{DecodeError, Reader};
use std::alloc::Global;
use std::str;

/// Reads a text.
pub fn read_text(alloc: Global, reader: &mut Reader<'_>) -> Result<Text, DecodeError>
    ensures { ReadsAs (λ t. t) result (text_at reader.old) reader.new }
{
    let bytes = reader.bytes()?;
    match str::from_utf8(bytes) {
        Ok(text) => Ok(Text::from_str(alloc, text)?),
        Err(_) => Err(DecodeError::Damaged),
    }
}

/// Reads a name.
pub fn read_name(alloc: Global, reader: &mut Reader<'_>) -> Result<Name, DecodeError>
    ensures { ReadsAs (λ n. n) result (name_at reader.old) reader.new }
{
    let text = read_text(alloc, reader)?;
    Ok(Name(text))
}

/// Reads so many names.
fn read_name_members(
    alloc: Global,
    count: u32,
    reader: &mut Reader<'_>,
) -> Result<Names, DecodeError>
    ensures { ReadsAs (λ ns. ns) result (members_at name_at count reader.old) reader.new }
{
    let mut names = Names::new(alloc);
    for _ in 0..count {
        let name = read_name(alloc, reader)?;
        names.push(name)?;
    }
    Ok(names)
}

/// Reads a list of names.
fn read_names(alloc: Global, reader: &mut Reader<'_>) -> Result<Names, DecodeError>
    ensures { ReadsAs (λ ns. ns) result (list_at name_at reader.old) reader.new }
{
    let count = reader.length()?;
    read_name_members(alloc, count, reader)
}

/// Reads an identifier.
pub fn read_id(alloc: Global, reader: &mut Reader<'_>) -> Result<TypeId, DecodeError>
    ensures { ReadsAs (λ id. id) result (id_at reader.old) reader.new }
{
    let address = Address(reader.number()?);
    let names = read_names(alloc, reader)?;
    Ok(TypeId { address, names })
}

/// Reads so many identifiers.
fn read_id_members(
    alloc: Global,
    count: u32,
    reader: &mut Reader<'_>,
) -> Result<TypeIds, DecodeError>
    ensures { ReadsAs (λ ids. ids) result (members_at id_at count reader.old) reader.new }
{
    let mut ids = TypeIds::new(alloc);
    for _ in 0..count {
        let id = read_id(alloc, reader)?;
        ids.push(id)?;
    }
    Ok(ids)
}

/// Reads a list of identifiers.
fn read_ids(alloc: Global, reader: &mut Reader<'_>) -> Result<TypeIds, DecodeError>
    ensures { ReadsAs (λ ids. ids) result (list_at id_at reader.old) reader.new }
{
    let count = reader.length()?;
    read_id_members(alloc, count, reader)
}

/// Reads a list of identifiers that isn't empty.
fn read_interfaces(alloc: Global, reader: &mut Reader<'_>) -> Result<TypeIds, DecodeError>
    ensures { ReadsAs (λ ids. ids) result (tested_at (list_at id_at) spec.is_some_list reader.old) reader.new }
{
    let ids = read_ids(alloc, reader)?;
    if ids.is_empty() {
        return Err(DecodeError::Damaged);
    }
    Ok(ids)
}

/// Reads an authorization.
fn read_authorization(alloc: Global, reader: &mut Reader<'_>) -> Result<Authorization, DecodeError>
    ensures { ReadsAs (λ a. a) result (spec.authorization_at reader.old) reader.new }
{
    let byte = reader.byte()?;
    let ids = read_ids(alloc, reader)?;
    match byte {
        0 => {
            if !ids.is_empty() {
                return Err(DecodeError::Damaged);
            }
            Ok(Authorization::Unauthorized)
        }
        1 => Ok(Authorization::All(ids)),
        2 => Ok(Authorization::Any(ids)),
        _ => Err(DecodeError::Damaged),
    }
}

/// The basic type with this place in their order.
fn basic_of(byte: u8) -> Option<Basic>
    ensures { result ≡ slice_get spec.basics byte }
{
    Some(match byte {
        0 => Basic::Number(Kind::Int),
        1 => Basic::Number(Kind::Int8),
        2 => Basic::Number(Kind::Int16),
        3 => Basic::Number(Kind::Int32),
        4 => Basic::Number(Kind::Int64),
        5 => Basic::Number(Kind::Int128),
        6 => Basic::Number(Kind::UInt),
        7 => Basic::Number(Kind::UInt8),
        8 => Basic::Number(Kind::UInt16),
        9 => Basic::Number(Kind::UInt32),
        10 => Basic::Number(Kind::UInt64),
        11 => Basic::Number(Kind::UInt128),
        12 => Basic::Number(Kind::Word8),
        13 => Basic::Number(Kind::Word16),
        14 => Basic::Number(Kind::Word32),
        15 => Basic::Number(Kind::Word64),
        16 => Basic::Number(Kind::Word128),
        17 => Basic::Number(Kind::Fix64),
        18 => Basic::Number(Kind::UFix64),
        19 => Basic::Number(Kind::Address),
        20 => Basic::Void,
        21 => Basic::Never,
        22 => Basic::Bool,
        23 => Basic::Character,
        24 => Basic::String,
        25 => Basic::Path,
        26 => Basic::StoragePath,
        27 => Basic::PublicPath,
        28 => Basic::Meta,
        29 => Basic::AnyStruct,
        30 => Basic::AnyResource,
        31 => Basic::Account,
        32 => Basic::AccountStorage,
        33 => Basic::AccountContracts,
        34 => Basic::AccountCapabilities,
        35 => Basic::AccountStorageCapabilities,
        36 => Basic::StorageCapabilityController,
        _ => return None,
    })
}

/// Reads a basic type.
fn read_basic(reader: &mut Reader<'_>) -> Result<Basic, DecodeError>
    ensures { ReadsAs (λ b. b) result (spec.basic_at reader.old) reader.new }
{
    let byte = reader.byte()?;
    match basic_of(byte) {
        Some(basic) => Ok(basic),
        None => Err(DecodeError::Damaged),
    }
}

/// Reads the form of a type.
fn read_form(reader: &mut Reader<'_>) -> Result<TypeForm, DecodeError>
    ensures { ReadsAs (λ f. f) result (found_at byte_at (slice_get spec.type_forms) reader.old) reader.new }
{
    let byte = reader.byte()?;
    match type_form(byte) {
        Some(form) => Ok(form),
        None => Err(DecodeError::Damaged),
    }
}

/// A box of a type.
fn boxed(alloc: Global, t: CadType) -> Result<Box<CadType>, DecodeError>
    ensures { MatchResult result (λ b. b.value ≡ t) (λ e. e ≡ Memory) }
{
    match Box::new(alloc, t) {
        Ok(b) => Ok(b),
        Err(refused) => {
            drop(refused.value);
            Err(DecodeError::Memory)
        }
    }
}

/// Reads a type that nests less than `left` deep.
#[tactic(auto, unfolding(crate::specs::Code::Types::type_at))]
pub fn read_type(alloc: Global, left: u32, reader: &mut Reader<'_>) -> Result<CadType, DecodeError>
    ensures { ReadsAs pure_type result (spec.type_at left reader.old) reader.new }
{
    if left == 0 {
        return Err(DecodeError::Damaged);
    }
    let inner = left - 1;
    match read_form(reader)? {
        TypeForm::Basic => Ok(CadType::Basic(read_basic(reader)?)),
        TypeForm::Optional => {
            let content = read_type(alloc, inner, reader)?;
            Ok(CadType::Optional(boxed(alloc, content)?))
        }
        TypeForm::Array => {
            let element = read_type(alloc, inner, reader)?;
            Ok(CadType::Array(boxed(alloc, element)?))
        }
        TypeForm::Dictionary => {
            let key = boxed(alloc, read_type(alloc, inner, reader)?)?;
            let value = read_type(alloc, inner, reader)?;
            Ok(CadType::Dictionary(key, boxed(alloc, value)?))
        }
        TypeForm::Declared => Ok(CadType::Declared(read_id(alloc, reader)?)),
        TypeForm::Intersection => Ok(CadType::Intersection(read_interfaces(alloc, reader)?)),
        TypeForm::Reference => {
            let authorization = read_authorization(alloc, reader)?;
            let target = read_type(alloc, inner, reader)?;
            Ok(CadType::Reference(authorization, boxed(alloc, target)?))
        }
        TypeForm::CapabilityOf => {
            let lent = read_type(alloc, inner, reader)?;
            Ok(CadType::CapabilityOf(boxed(alloc, lent)?))
        }
        TypeForm::Capability => Ok(CadType::Capability),
    }
}
