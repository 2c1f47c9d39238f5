// From an exact integer to a number of a kind.
ghost use Rattle.std.specs.Prelude.{◌≡◌, IfOk, ℤ, true, if◌then◌else◌, ◌&&◌, nat_lt};
ghost use Rattle.cad_syntax.specs.Kinds.{in_range};
ghost use Rattle.cad_num.specs.Numbers as spec;
ghost use Rattle.cad_num.specs.Numbers.{outcome, valued, value_of, least_of, greatest_of, IsExact};

use crate::error::NumError;
use crate::exact::Exact;
use crate::kinds::is_word;
use cad_syntax::{Kind, Num};

/// The word of an integer.
fn wrap(kind: Kind, exact: Exact) -> Num
    requires { spec.is_word kind ≡ true }
    ensures value { (z : ℤ) → IsExact exact z → Ok (value_of result) ≡ outcome kind z }
    ensures kind { result.kind ≡ kind }
{
    let bits = if exact.negative {
        exact.low.wrapping_neg()
    } else {
        exact.low
    };
    Num {
        kind,
        negative: false,
        magnitude: bits & kind.greatest(),
    }
}

/// Whether the number with this sign and magnitude is in the kind's range.
fn is_in_range(kind: Kind, negative: bool, magnitude: u128) -> bool
    ensures { result ≡ in_range kind negative magnitude }
{
    if negative {
        magnitude <= kind.depth()
    } else {
        magnitude <= kind.greatest()
    }
}

/// The error of a number out of range, by its sign.
fn out_of_range(negative: bool) -> NumError
    ensures { result ≡ (if negative then NumError.Underflow else NumError.Overflow) }
{
    if negative {
        NumError::Underflow
    } else {
        NumError::Overflow
    }
}

/// Whether the integer with this sign and magnitude is below 0.
fn is_below_zero(negative: bool, magnitude: u128) -> bool
    ensures { result ≡ (negative && nat_lt 0 magnitude) }
{
    negative && magnitude > 0
}

/// What a kind makes of an integer. The number is built in place, which is faster than by `Num::new`.
#[inline]
pub(crate) fn fit(kind: Kind, exact: Exact) -> Result<Num, NumError>
    ensures value { (z : ℤ) → IsExact exact z → valued result ≡ outcome kind z }
    ensures kind { IfOk result (λ n. n.kind ≡ kind) }
{
    if is_word(kind) {
        return Ok(wrap(kind, exact));
    }
    if exact.over {
        return Err(out_of_range(exact.negative));
    }
    if !is_in_range(kind, exact.negative, exact.low) {
        return Err(out_of_range(exact.negative));
    }
    Ok(Num {
        kind,
        negative: is_below_zero(exact.negative, exact.low),
        magnitude: exact.low,
    })
}

/// The least number of a kind.
pub fn least(kind: Kind) -> Num
    ensures value { value_of result ≡ least_of kind }
    ensures kind { result.kind ≡ kind }
{
    let magnitude = kind.depth();
    Num {
        kind,
        negative: magnitude > 0,
        magnitude,
    }
}

/// The greatest number of a kind.
pub fn greatest(kind: Kind) -> Num
    ensures value { value_of result ≡ greatest_of kind }
    ensures kind { result.kind ≡ kind }
{
    Num {
        kind,
        negative: false,
        magnitude: kind.greatest(),
    }
}

/// The end of a kind's range on the side of a sign.
fn end(kind: Kind, negative: bool) -> Num
    ensures value { value_of result ≡ (if negative then least_of kind else greatest_of kind) }
    ensures kind { result.kind ≡ kind }
{
    if negative {
        least(kind)
    } else {
        greatest(kind)
    }
}

/// The number in a kind's range that is nearest to an integer.
pub(crate) fn nearest(kind: Kind, exact: Exact) -> Num
    ensures value { (z : ℤ) → IsExact exact z → value_of result ≡ spec.nearest kind z }
    ensures kind { result.kind ≡ kind }
{
    if exact.over {
        return end(kind, exact.negative);
    }
    match Num::new(kind, exact.negative, exact.low) {
        Some(n) => n,
        None => end(kind, exact.negative),
    }
}
