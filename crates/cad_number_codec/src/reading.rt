// Bytes to values.
ghost use Rattle.std.specs.Prelude.{◌≡◌, ◌++◌, List, ℕ, Some, None, IfSome, IfNone, IfOk, OnErr};
ghost use Rattle.cad_syntax.specs.declared.num.Num.{Num};
ghost use Rattle.cad_number_codec.specs.declared.value.Value.{Value};
ghost use Rattle.cad_wire.specs.Fields.{AreBytes};
ghost use Rattle.cad_wire.specs.Reading.{Gives, Reads};
ghost use Rattle.cad_number_codec.specs.Spelling.{value_bytes, HasBytes};
ghost use Rattle.cad_number_codec.specs.Parts.{HasParts, parts_at};

use crate::kind::kind_of;
use crate::value::Value;
use cad_syntax::Num;
use cad_wire::{DecodeError, Reader, Short};
use std::alloc::Global;

/// The number with these parts of its bytes: the bytes of its kind and sign, and the upper and lower 64 bits of its magnitude.
/// None exactly where there is none.
pub fn number_of(kind: u8, sign: u8, upper: u64, lower: u64) -> Option<Num>
    ensures found { IfSome result (λ n. HasParts n kind sign upper lower) }
    ensures none { IfNone result ((n : Num) → HasParts n kind sign upper lower → ⊥) }
{
    let kind = kind_of(kind)?;
    let negative = match sign {
        0 => false,
        1 => true,
        _ => return None,
    };
    let magnitude = u128::from(upper) * (1 << 64) + u128::from(lower);
    if negative && magnitude == 0 {
        return None;
    }
    Num::new(kind, negative, magnitude)
}

/// The parts of a number's bytes behind the form byte. Short exactly where fewer than 18 bytes are left.
#[tactic(auto, unfolding(crate::specs::Parts::parts_at))]
pub fn parts_of(reader: &mut Reader<'_>) -> Result<(u8, u8, u64, u64), Short>
    ensures ok { IfOk result (λ p. parts_at reader.old ≡ Some ((p.0, p.1, p.2, p.3), reader.new)) }
    ensures short { OnErr result (parts_at reader.old ≡ None) }
{
    let kind = reader.byte()?;
    let sign = reader.byte()?;
    let upper = reader.number()?;
    let lower = reader.number()?;
    Ok((kind, sign, upper, lower))
}

fn read_value(reader: &mut Reader<'_>) -> Result<Value, DecodeError>
    ensures found { IfOk result (λ v. AreBytes reader.old → HasBytes v × (reader.old ≡ value_bytes v ++ reader.new)) }
    ensures only { (v : Value) (rest : List ℕ) → HasBytes v → reader.old ≡ value_bytes v ++ rest
        → Reads result (Some (v, rest)) reader.new }
{
    if reader.byte()? != 4 {
        return Err(DecodeError::Damaged);
    }
    let (kind, sign, upper, lower) = parts_of(reader)?;
    match number_of(kind, sign, upper, lower) {
        Some(n) => Ok(Value::Number(n)),
        None => Err(DecodeError::Damaged),
    }
}

/// The value with these bytes. Damaged exactly where no value has them.
pub fn decode(_alloc: Global, bytes: &[u8]) -> Result<Value, DecodeError>
    // What is read is spelled so.
    ensures found { IfOk result (λ value. HasBytes value × (bytes.now ≡ value_bytes value)) }
    // What is spelled so is read, unless memory runs out.
    ensures only { (value : Value) → HasBytes value → bytes.now ≡ value_bytes value → Gives result (Some value) }
{
    let mut reader = Reader::new(bytes);
    let value = read_value(&mut reader)?;
    if reader.left() > 0 {
        return Err(DecodeError::Damaged);
    }
    Ok(value)
}
