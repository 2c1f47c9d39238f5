// Parts of keys and of bytes.
ghost use Rattle.std.specs.Prelude.{◌≡◌, ℕ, List, IfOk};
ghost use Rattle.cad_codec.specs.Answers.{GivesAs};
ghost use Rattle.cad_declarations.specs.Imports as imports;
ghost use Rattle.cad_syntax.specs.Types.{PureType, pure_type};
ghost use Rattle.cad_values.specs.Values.{pure_value};
ghost use Rattle.cad_wire.specs.Fields.{number_at, bytes_at};
ghost use Rattle.cad_world_registers.specs.Told as spec;

use cad_codec::{DecodeError, decode, decode_type};
use cad_state::discard_value;
use cad_syntax::{Address, CadType, Name, Names, Text, TypeId};
use cad_values::Value;
use cad_wire::Reader;
use std::alloc::{AllocError, Global};

/// The number that 8 bytes at the front are, and the bytes behind it.
pub(crate) fn split_number(bytes: &[u8]) -> Result<(u64, &[u8]), DecodeError>
    ensures { GivesAs {B = ℕ × List ℕ} (λ p. (p.0, p.1.now)) result (number_at bytes.now) }
{
    let Some((front, rest)) = bytes.split_first_chunk::<8>() else {
        return Err(DecodeError::Damaged);
    };
    Ok((u64::from_be_bytes(*front), rest))
}

/// The number that all 8 bytes are.
pub(crate) fn number_in(bytes: &[u8]) -> Result<u64, DecodeError>
    ensures { GivesAs (λ n. n) result (spec.number_in bytes.now) }
{
    let mut reader = Reader::new(bytes);
    let number = reader.number()?;
    if reader.left() > 0 {
        return Err(DecodeError::Damaged);
    }
    Ok(number)
}

/// The byte string at the front, and the bytes behind it.
#[tactic(auto, unfolding(cad_wire::specs::Fields::bytes_at))]
pub(crate) fn split_text(bytes: &[u8]) -> Result<(&[u8], &[u8]), DecodeError>
    ensures { GivesAs {B = List ℕ × List ℕ} (λ p. (p.0.now, p.1.now)) result (bytes_at bytes.now) }
{
    let Some((front, rest)) = bytes.split_first_chunk::<4>() else {
        return Err(DecodeError::Damaged);
    };
    let length = u32::from_be_bytes(*front) as usize;
    if rest.len() < length {
        return Err(DecodeError::Damaged);
    }
    let (text, rest) = rest.split_at(length);
    Ok((text, rest))
}

/// The name that all of the bytes are.
pub(crate) fn name_in(alloc: Global, bytes: &[u8]) -> Result<Name, DecodeError>
    ensures { GivesAs (λ name. name) result (spec.name_in bytes.now) }
{
    match std::str::from_utf8(bytes) {
        Ok(text) => Ok(Name(Text::from_str(alloc, text)?)),
        Err(_) => Err(DecodeError::Damaged),
    }
}

/// The identifier of the contract of a name at an address.
fn contract_id(alloc: Global, address: u64, name: Name) -> Result<TypeId, AllocError>
    ensures { IfOk result (λ id. id ≡ imports.contract_id address name) }
{
    let mut names = Names::new(alloc);
    names.push(name)?;
    Ok(TypeId {
        address: Address(address),
        names,
    })
}

/// The contract of an address and a name.
pub(crate) fn contract_at(alloc: Global, place: &[u8]) -> Result<TypeId, DecodeError>
    ensures { GivesAs (λ id. id) result (spec.contract_at place.now) }
{
    let (address, rest) = split_number(place)?;
    let name = name_in(alloc, rest)?;
    let id = contract_id(alloc, address, name)?;
    Ok(id)
}

/// The value that has these bytes.
pub(crate) fn value_in(alloc: Global, bytes: &[u8]) -> Result<Value, DecodeError>
    ensures { GivesAs pure_value result (spec.value_in bytes.now) }
{
    decode(alloc, bytes)
}

/// The type that has these bytes.
pub(crate) fn type_in(alloc: Global, bytes: &[u8]) -> Result<CadType, DecodeError>
    ensures { GivesAs pure_type result (spec.type_in bytes.now) }
{
    decode_type(alloc, bytes)
}

/// The number and the type of a capability of the account of an address.
fn lent_by(address: u64, value: &Value) -> Result<(u64, CadType), DecodeError>
    ensures { GivesAs {B = ℕ × PureType} (λ p. (p.0, pure_type p.1)) result (spec.lent_by address (pure_value value.now)) }
{
    match value {
        Value::Capability(cap) => {
            if cap.address.0 != address {
                return Err(DecodeError::Damaged);
            }
            let lent = cap.borrow.clone()?;
            Ok((cap.id, lent))
        }
        _ => Err(DecodeError::Damaged),
    }
}

/// The number and the type of the capability of an account that has these bytes.
pub(crate) fn lent_in(
    alloc: Global,
    address: u64,
    bytes: &[u8],
) -> Result<(u64, CadType), DecodeError>
    ensures { GivesAs {B = ℕ × PureType} (λ p. (p.0, pure_type p.1)) result (spec.lent_in address bytes.now) }
{
    let value = value_in(alloc, bytes)?;
    let lent = lent_by(address, &value);
    discard_value(value);
    lent
}
