// Sums, products and quotients before they are put into a kind's range.
ghost use Rattle.std.specs.Prelude.{◌≡◌, ◌*◌, ◌/◌, ◌%◌, ◌<◌, ◌^◌, ◌⊎◌, ◌+ℤ◌, ◌-ℤ◌, ◌*ℤ◌, int_div, pos};
ghost use Rattle.std.specs.Bool.{FalseIff};
ghost use Rattle.cad_syntax.specs.Kinds.{signed};
ghost use Rattle.cad_num.specs.Numbers as spec;
ghost use Rattle.cad_num.specs.Numbers.{IsExact, value_of};

use crate::kinds::scale;
use cad_syntax::{Kind, Num};

/// An integer: its sign, the low 128 bits of its magnitude, and whether the magnitude has more.
#[derive(Clone, Copy)]
pub(crate) struct Exact {
    pub(crate) negative: bool,
    pub(crate) low: u128,
    pub(crate) over: bool,
}

/// An integer of at most 128 bits.
pub(crate) fn whole(negative: bool, magnitude: u128) -> Exact
    ensures { IsExact result (signed negative magnitude) }
{
    Exact {
        negative,
        low: magnitude,
        over: false,
    }
}

/// The sum of two integers by sign and magnitude.
fn signed_sum(a_negative: bool, a: u128, b_negative: bool, b: u128) -> Exact
    ensures { IsExact result (signed a_negative a +ℤ signed b_negative b) }
{
    if a_negative == b_negative {
        let (low, over) = a.overflowing_add(b);
        Exact {
            negative: a_negative,
            low,
            over,
        }
    } else if b <= a {
        whole(a_negative, a - b)
    } else {
        whole(b_negative, b - a)
    }
}

/// The low 128 bits of a product, and whether it has more. Factors of 64 bits need no test.
fn multiplied(a: u128, b: u128) -> (u128, bool)
    ensures low { result.0 ≡ (a * b) % 2 ^ 128 }
    ensures over { FalseIff result.1 (a * b < 2 ^ 128) }
{
    if a < 1 << 64 && b < 1 << 64 {
        (a * b, false)
    } else {
        a.overflowing_mul(b)
    }
}

/// The quotient of a product, truncated, with a sign.
fn scaled(negative: bool, a: u128, b: u128, divisor: u128) -> Exact
    requires divisible { 0 < divisor }
    requires exact { (a * b < 2 ^ 128) ⊎ (divisor ≡ 1) }
    ensures { IsExact result (signed negative (a * b / divisor)) }
{
    let (product, over) = multiplied(a, b);
    let low = if divisor == 1 {
        product
    } else {
        product / divisor
    };
    Exact {
        negative,
        low,
        over,
    }
}

/// The sum of two numbers.
pub(crate) fn sum(a: Num, b: Num) -> Exact
    ensures { IsExact result (value_of a +ℤ value_of b) }
{
    signed_sum(a.negative, a.magnitude, b.negative, b.magnitude)
}

/// The difference of two numbers.
pub(crate) fn difference(a: Num, b: Num) -> Exact
    ensures { IsExact result (value_of a -ℤ value_of b) }
{
    signed_sum(a.negative, a.magnitude, !b.negative, b.magnitude)
}

/// The product of two numbers, truncated to the decimals of their kind.
pub(crate) fn product(a: Num, b: Num) -> Exact
    requires { a.kind ≡ b.kind }
    ensures { IsExact result (int_div (value_of a *ℤ value_of b) (pos (spec.scale a.kind))) }
{
    let negative = a.negative != b.negative;
    scaled(negative, a.magnitude, b.magnitude, scale(a.kind))
}

/// The quotient of two numbers, truncated to the decimals of their kind.
pub(crate) fn quotient(a: Num, b: Num) -> Exact
    requires same { a.kind ≡ b.kind }
    requires divisible { 0 < b.magnitude }
    ensures { IsExact result (int_div (value_of a *ℤ pos (spec.scale a.kind)) (value_of b)) }
{
    let negative = a.negative != b.negative;
    scaled(negative, a.magnitude, scale(a.kind), b.magnitude)
}

/// The integer of a number in the units of another kind, truncated to that kind's decimals.
pub(crate) fn rescaled(a: Num, kind: Kind) -> Exact
    ensures { IsExact result
        (int_div (value_of a *ℤ pos (spec.scale kind)) (pos (spec.scale a.kind))) }
{
    scaled(a.negative, a.magnitude, scale(kind), scale(a.kind))
}
