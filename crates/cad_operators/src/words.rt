// Numbers of every kind by the bits of two's complement.
ghost use Rattle.std.specs.Prelude.{◌≡◌, ◌<◌};
ghost use Rattle.cad_num.specs.Numbers as spec;
ghost use Rattle.cad_num.specs.Numbers.{count_of, value_of, bit_by_bit};

use cad_num::BitOp;
use cad_syntax::{Kind, Num};

/// A number in two's complement, with as many bits as its kind has.
pub fn twos_complement(a: Num) -> u128
    ensures value { result ≡ spec.twos_complement a.kind (value_of a) }
    ensures bound { result < count_of a.kind }
{
    if a.negative {
        a.kind.greatest() + (a.kind.depth() - a.magnitude) + 1
    } else {
        a.magnitude
    }
}

/// The number of a kind that has these bits.
fn from_twos_complement(kind: Kind, bits: u128) -> Num
    requires { bits < count_of kind }
    ensures value { value_of result ≡ spec.from_twos_complement kind bits }
    ensures kind { result.kind ≡ kind }
{
    let greatest = kind.greatest();
    if bits <= greatest {
        Num {
            kind,
            negative: false,
            magnitude: bits,
        }
    } else {
        Num {
            kind,
            negative: true,
            magnitude: kind.depth() - (bits - greatest - 1),
        }
    }
}

/// The operation on each bit of two numbers of one kind.
pub(crate) fn bits(op: BitOp, a: Num, b: Num) -> Num
    requires { a.kind ≡ b.kind }
    ensures value { value_of result ≡ spec.from_twos_complement a.kind
        (bit_by_bit op (spec.twos_complement a.kind (value_of a)) (spec.twos_complement a.kind (value_of b))) }
    ensures kind { result.kind ≡ a.kind }
{
    let x = twos_complement(a);
    let y = twos_complement(b);
    let bits = match op {
        BitOp::And => x & y,
        BitOp::Or => x | y,
        BitOp::Xor => x ^ y,
    };
    from_twos_complement(a.kind, bits)
}
