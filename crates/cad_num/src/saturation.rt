// Arithmetic that stays in a kind's range.
ghost use Rattle.std.specs.Prelude.{◌≡◌, ◌<◌, IfOk};
ghost use Rattle.cad_num.specs.Numbers.{IsExact, exact_of, saturated, valued, value_of};

use crate::error::NumError;
use crate::exact::{Exact, difference, product, quotient, sum};
use crate::fit::nearest;
use cad_syntax::Num;

/// An operation that can saturate.
#[derive(Clone, Copy, Debug, PartialEq, Eq)]
pub enum Op {
    Add,
    Sub,
    Mul,
    Div,
}

/// The exact result of an operation.
fn exact(op: Op, a: Num, b: Num) -> Exact
    requires same { a.kind ≡ b.kind }
    requires divisible { op ≡ Op.Div → 0 < b.magnitude }
    ensures { IsExact result (exact_of op a.kind (value_of a) (value_of b)) }
{
    match op {
        Op::Add => sum(a, b),
        Op::Sub => difference(a, b),
        Op::Mul => product(a, b),
        Op::Div => quotient(a, b),
    }
}

/// The number in range that is nearest to the result. DivisionByZero exactly where 0 divides, and no other error.
pub fn saturate(op: Op, a: Num, b: Num) -> Result<Num, NumError>
    requires { a.kind ≡ b.kind }
    ensures value { valued result ≡ saturated op a.kind (value_of a) (value_of b) }
    ensures kind { IfOk result (λ n. n.kind ≡ a.kind) }
{
    if op == Op::Div && b.magnitude == 0 {
        return Err(NumError::DivisionByZero);
    }
    Ok(nearest(a.kind, exact(op, a, b)))
}
