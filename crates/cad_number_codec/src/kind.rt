// Kinds as bytes.
ghost use Rattle.std.specs.Prelude.{◌≡◌, ◌≢◌, ◌≤◌, IfSome, IfNone};
ghost use Rattle.cad_syntax.specs.declared.kind.Kind.TheVariants.{Address};
ghost use Rattle.cad_number_codec.specs.Spelling as spec;

use cad_syntax::Kind;

/// The place of a kind in their order.
pub fn kind_byte(kind: Kind) -> u8
    ensures { result ≡ spec.kind_byte kind }
{
    kind as u8
}

/// The byte of a sign.
pub fn sign_byte(negative: bool) -> u8
    ensures { result ≡ spec.sign_byte negative }
{
    if negative { 1 } else { 0 }
}

/// The kind of numbers with this place. None exactly where there is none.
pub fn kind_of(byte: u8) -> Option<Kind>
    ensures found { IfSome result (λ kind. byte ≡ spec.kind_byte kind) }
    ensures a_number { IfSome result (λ kind. kind ≢ Address) }
    ensures none { IfNone result (19 ≤ byte) }
{
    Some(match byte {
        0 => Kind::Int,
        1 => Kind::Int8,
        2 => Kind::Int16,
        3 => Kind::Int32,
        4 => Kind::Int64,
        5 => Kind::Int128,
        6 => Kind::UInt,
        7 => Kind::UInt8,
        8 => Kind::UInt16,
        9 => Kind::UInt32,
        10 => Kind::UInt64,
        11 => Kind::UInt128,
        12 => Kind::Word8,
        13 => Kind::Word16,
        14 => Kind::Word32,
        15 => Kind::Word64,
        16 => Kind::Word128,
        17 => Kind::Fix64,
        18 => Kind::UFix64,
        _ => return None,
    })
}
