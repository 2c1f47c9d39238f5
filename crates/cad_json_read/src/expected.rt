// What is expected of the parts of a value. Where AnyStruct is expected, so it is of the parts of optionals and arrays.
ghost use Rattle.std.specs.Prelude.{◌≡◌, option_map};
ghost use Rattle.cad_syntax.specs.Types.{pure_type};
ghost use Rattle.cad_json_read.specs.Reading as spec;

use cad_syntax::{Basic, CadType};

/// The type that the content of an optional is expected to have.
pub fn optional_part(want: &CadType) -> Option<&CadType>
    ensures { option_map (λ t. pure_type t.now) result ≡ spec.optional_part (pure_type want.entry.now) }
{
    match want {
        CadType::Optional(part) => Some(part),
        CadType::Basic(Basic::AnyStruct) => Some(want),
        _ => None,
    }
}

/// The type that the elements of an array are expected to have.
pub fn array_part(want: &CadType) -> Option<&CadType>
    ensures { option_map (λ t. pure_type t.now) result ≡ spec.array_part (pure_type want.entry.now) }
{
    match want {
        CadType::Array(part) => Some(part),
        CadType::Basic(Basic::AnyStruct) => Some(want),
        _ => None,
    }
}

/// The types that the keys and values of a dictionary are expected to have.
pub fn dictionary_parts(want: &CadType) -> Option<(&CadType, &CadType)>
    ensures { option_map (λ p. (pure_type p.0.now, pure_type p.1.now)) result ≡ spec.dictionary_parts (pure_type want.entry.now) }
{
    match want {
        CadType::Dictionary(key, value) => Some((key, value)),
        _ => None,
    }
}
