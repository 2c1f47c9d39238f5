// Kinds of numbers.
ghost use Rattle.std.specs.Prelude.{◌≡◌};
ghost use Rattle.cad_declarations.specs.BuiltinNames as spec;

use cad_syntax::Kind;

/// Whether a kind is one of integers.
pub fn is_integer(kind: Kind) -> bool
    ensures { result ≡ spec.is_integer kind }
{
    !matches!(kind, Kind::Fix64 | Kind::UFix64 | Kind::Address)
}

/// Whether a kind is one of integers of a fixed number of bits.
pub fn is_sized(kind: Kind) -> bool
    ensures { result ≡ spec.is_sized kind }
{
    !matches!(
        kind,
        Kind::Int | Kind::UInt | Kind::Fix64 | Kind::UFix64 | Kind::Address
    )
}
