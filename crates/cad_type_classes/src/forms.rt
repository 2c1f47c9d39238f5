// The forms of types: optionals, arrays and Never.
ghost use Rattle.std.specs.Prelude.{◌≡◌, IfOk, option_map};
ghost use Rattle.cad_syntax.specs.Types.{pure_type};
ghost use Rattle.cad_types.specs.Optionals as optionals;
ghost use Rattle.cad_typing.specs.Types as spec;

use cad_syntax::{Basic, CadType};
use std::alloc::{AllocError, Global};

/// Whether a type is Never.
pub fn is_never_type(t: &CadType) -> bool
    ensures { result ≡ spec.is_never_type (pure_type t.now) }
{
    match t {
        CadType::Basic(basic) => matches!(basic, Basic::Never),
        _ => false,
    }
}

/// Whether a type is an optional.
pub fn is_optional_type(t: &CadType) -> bool
    ensures { result ≡ spec.is_optional_type (pure_type t.now) }
{
    matches!(t, CadType::Optional(_))
}

/// The content of an optional; None of any other type.
pub fn content(t: &CadType) -> Option<&CadType>
    ensures { option_map (λ part. pure_type part.now) result ≡ spec.content (pure_type t.now) }
{
    match t {
        CadType::Optional(part) => Some(part),
        _ => None,
    }
}

/// The type of an array's elements; None of any other type.
pub fn element_type(t: &CadType) -> Option<&CadType>
    ensures { option_map (λ part. pure_type part.now) result ≡ spec.element_type (pure_type t.now) }
{
    match t {
        CadType::Array(part) => Some(part),
        _ => None,
    }
}

/// An optional of a type, which is that type itself where it is one.
pub fn optional_once(alloc: Global, t: CadType) -> Result<CadType, AllocError>
    ensures { IfOk result (λ made. pure_type made ≡ spec.optional_once (pure_type t)) }
{
    if is_optional_type(&t) {
        Ok(t)
    } else {
        Ok(CadType::Optional(Box::new(alloc, t)?))
    }
}

/// A type without its outer optionals.
pub fn core_of(t: &CadType) -> &CadType
    ensures { pure_type result.now ≡ optionals.core (pure_type t.now) }
{
    match t {
        CadType::Optional(part) => core_of(part),
        _ => t,
    }
}
