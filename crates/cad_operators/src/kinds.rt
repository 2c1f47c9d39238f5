// Kinds of numbers.
ghost use Rattle.std.specs.Prelude.{◌≡◌, ◌==◌};
ghost use Rattle.cad_types.specs.Basics.{kind_number};

use cad_syntax::Kind;

/// Whether two kinds are one.
pub(crate) fn is_same_kind(a: Kind, b: Kind) -> bool
    ensures { result ≡ (kind_number a == kind_number b) }
{
    a == b
}
