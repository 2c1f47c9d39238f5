// Properties of kinds.
ghost use Rattle.std.specs.Prelude.{◌≡◌};
ghost use Rattle.cad_num.specs.Numbers as spec;

use cad_syntax::Kind;

/// Whether the numbers of this kind wrap.
pub(crate) fn is_word(kind: Kind) -> bool
    ensures { result ≡ spec.is_word kind }
{
    matches!(
        kind,
        Kind::Word8 | Kind::Word16 | Kind::Word32 | Kind::Word64 | Kind::Word128
    )
}

/// Whether the numbers of this kind have 8 decimals.
pub(crate) fn is_fixed(kind: Kind) -> bool
    ensures { result ≡ spec.is_fixed kind }
{
    matches!(kind, Kind::Fix64 | Kind::UFix64)
}

/// The integer of the number one.
pub(crate) fn scale(kind: Kind) -> u128
    ensures { result ≡ spec.scale kind }
{
    if is_fixed(kind) { 100_000_000 } else { 1 }
}
