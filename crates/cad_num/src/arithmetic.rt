// Arithmetic on numbers.
ghost use Rattle.std.specs.Prelude.{◌≡◌, IfOk, ◌+ℤ◌, ◌-ℤ◌, ◌*ℤ◌, neg_ℤ, int_div, int_rem, pos};
ghost use Rattle.std.specs.Ordering.{int_cmp};
ghost use Rattle.cad_num.specs.Numbers as spec;
ghost use Rattle.cad_num.specs.Numbers.{outcome, valued, value_of, divided_by};

use crate::error::NumError;
use crate::exact::{difference, product, quotient, rescaled, sum, whole};
use crate::fit::fit;
use cad_syntax::{Kind, Num};
use std::cmp::Ordering;

/// The sum.
pub fn add(a: Num, b: Num) -> Result<Num, NumError>
    requires { a.kind ≡ b.kind }
    ensures value { valued result ≡ outcome a.kind (value_of a +ℤ value_of b) }
    ensures kind { IfOk result (λ n. n.kind ≡ a.kind) }
{
    fit(a.kind, sum(a, b))
}

/// The difference.
pub fn sub(a: Num, b: Num) -> Result<Num, NumError>
    requires { a.kind ≡ b.kind }
    ensures value { valued result ≡ outcome a.kind (value_of a -ℤ value_of b) }
    ensures kind { IfOk result (λ n. n.kind ≡ a.kind) }
{
    fit(a.kind, difference(a, b))
}

/// The product; of a fixed-point kind truncated toward zero.
pub fn mul(a: Num, b: Num) -> Result<Num, NumError>
    requires { a.kind ≡ b.kind }
    ensures value { valued result
        ≡ outcome a.kind (int_div (value_of a *ℤ value_of b) (pos (spec.scale a.kind))) }
    ensures kind { IfOk result (λ n. n.kind ≡ a.kind) }
{
    fit(a.kind, product(a, b))
}

/// The quotient, truncated toward zero. DivisionByZero exactly where the divisor is 0.
pub fn div(a: Num, b: Num) -> Result<Num, NumError>
    requires { a.kind ≡ b.kind }
    ensures value { valued result ≡ divided_by (value_of b)
        (outcome a.kind (int_div (value_of a *ℤ pos (spec.scale a.kind)) (value_of b))) }
    ensures kind { IfOk result (λ n. n.kind ≡ a.kind) }
{
    if b.magnitude == 0 {
        return Err(NumError::DivisionByZero);
    }
    fit(a.kind, quotient(a, b))
}

/// The remainder of the quotient that is truncated to a whole number; it has the sign of `a`. DivisionByZero exactly
/// where the divisor is 0.
pub fn rem(a: Num, b: Num) -> Result<Num, NumError>
    requires { a.kind ≡ b.kind }
    ensures value { valued result ≡ divided_by (value_of b)
        (outcome a.kind (int_rem (value_of a) (value_of b))) }
    ensures kind { IfOk result (λ n. n.kind ≡ a.kind) }
{
    if b.magnitude == 0 {
        return Err(NumError::DivisionByZero);
    }
    fit(a.kind, whole(a.negative, a.magnitude % b.magnitude))
}

/// The number with the other sign.
pub fn neg(a: Num) -> Result<Num, NumError>
    ensures value { valued result ≡ outcome a.kind (neg_ℤ (value_of a)) }
    ensures kind { IfOk result (λ n. n.kind ≡ a.kind) }
{
    fit(a.kind, whole(!a.negative, a.magnitude))
}

/// The number of another kind. Decimals that it hasn't are cut off, toward zero.
pub fn convert(a: Num, kind: Kind) -> Result<Num, NumError>
    ensures value { valued result
        ≡ outcome kind (int_div (value_of a *ℤ pos (spec.scale kind)) (pos (spec.scale a.kind))) }
    ensures kind { IfOk result (λ n. n.kind ≡ kind) }
{
    fit(kind, rescaled(a, kind))
}

/// The order of two numbers.
pub fn compare(a: Num, b: Num) -> Ordering
    requires { a.kind ≡ b.kind }
    ensures { result ≡ int_cmp (value_of a) (value_of b) }
{
    match (a.negative, b.negative) {
        (false, false) => a.magnitude.cmp(&b.magnitude),
        (false, true) => Ordering::Greater,
        (true, false) => Ordering::Less,
        (true, true) => b.magnitude.cmp(&a.magnitude),
    }
}
