// Kinds of numbers.
ghost use Rattle.std.specs.Prelude.{◌≡◌};
ghost use Rattle.cad_syntax.specs.Types.{pure_type};
ghost use Rattle.cad_typing.specs.Types as spec;

use cad_builtins::is_integer;
use cad_syntax::{Basic, CadType, Kind};

/// The kind of numbers that a type is, addresses among them.
pub fn kind_of(t: &CadType) -> Option<Kind>
    ensures { result ≡ spec.kind_of (pure_type t.now) }
{
    match t {
        CadType::Basic(basic) => kind_of_basic(*basic),
        _ => None,
    }
}

fn kind_of_basic(basic: Basic) -> Option<Kind>
    ensures { result ≡ spec.kind_of_basic basic }
{
    match basic {
        Basic::Number(kind) => Some(kind),
        _ => None,
    }
}

/// Whether a kind is that of addresses.
pub fn is_address(kind: Kind) -> bool
    ensures { result ≡ spec.is_address kind }
{
    matches!(kind, Kind::Address)
}

/// Whether a kind's numbers go below 0.
pub fn is_signed(kind: Kind) -> bool
    ensures { result ≡ spec.is_signed kind }
{
    0 < kind.depth()
}

/// Whether a type is a kind of numbers, which an address isn't.
pub fn is_number_type(t: &CadType) -> bool
    ensures { result ≡ spec.is_number_type (pure_type t.now) }
{
    match t {
        CadType::Basic(Basic::Number(kind)) => !is_address(*kind),
        _ => false,
    }
}

/// Whether a type is a kind of integers.
pub fn is_integer_type(t: &CadType) -> bool
    ensures { result ≡ spec.is_integer_type (pure_type t.now) }
{
    match t {
        CadType::Basic(Basic::Number(kind)) => is_integer(*kind),
        _ => false,
    }
}

/// Whether a type is a kind of numbers that go below 0.
pub fn is_signed_type(t: &CadType) -> bool
    ensures { result ≡ spec.is_signed_type (pure_type t.now) }
{
    match t {
        CadType::Basic(Basic::Number(kind)) => is_signed(*kind),
        _ => false,
    }
}
