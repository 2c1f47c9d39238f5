// Operators by what they ask of their operands.
ghost use Rattle.std.specs.Prelude.{◌≡◌, IfOk, None, option_map};
ghost use Rattle.cad_grammar.specs.Views.{expr_of};
ghost use Rattle.cad_typing.specs.Expressions as spec;
ghost use Rattle.cad_environment.specs.Views.{environment_of, typing_of};
ghost use Rattle.cad_infer_parts.specs.Code.Operands as operands;
ghost use Rattle.cad_infer_parts.specs.Views.{family_of};

use cad_environment::{Environment, Typing, discard_typing, is_nil};
use cad_grammar::{BinaryOperator, Expr};
use cad_infer_operators::{arithmetic, bitwise, compared, ordered};
use std::alloc::{AllocError, Global};

/// What an operator asks of its operands.
#[derive(Clone, Copy, Debug, PartialEq, Eq)]
pub enum Family {
    Arithmetical,
    Bitwise,
    Ordering,
    Equality,
    /// The literal nil stands on the right.
    LeftBesideNil,
    /// The literal nil stands on the left.
    RightBesideNil,
    Logical,
    Coalescing,
}

/// What an operator asks of these operands.
pub fn operator_family(operator: BinaryOperator, a: &Expr, b: &Expr) -> Family
    ensures { family_of result ≡ spec.family operator (expr_of a.now) (expr_of b.now) }
{
    match operator {
        BinaryOperator::Or => Family::Logical,
        BinaryOperator::And => Family::Logical,
        BinaryOperator::Less => Family::Ordering,
        BinaryOperator::LessOrEqual => Family::Ordering,
        BinaryOperator::Greater => Family::Ordering,
        BinaryOperator::GreaterOrEqual => Family::Ordering,
        BinaryOperator::Equal => equality_of(is_nil(a), is_nil(b)),
        BinaryOperator::NotEqual => equality_of(is_nil(a), is_nil(b)),
        BinaryOperator::Coalesce => Family::Coalescing,
        BinaryOperator::BitOr => Family::Bitwise,
        BinaryOperator::BitXor => Family::Bitwise,
        BinaryOperator::BitAnd => Family::Bitwise,
        BinaryOperator::Add => Family::Arithmetical,
        BinaryOperator::Subtract => Family::Arithmetical,
        BinaryOperator::Multiply => Family::Arithmetical,
        BinaryOperator::Divide => Family::Arithmetical,
        BinaryOperator::Remainder => Family::Arithmetical,
    }
}

/// Equality, by which operand is the literal nil.
fn equality_of(left_is_nil: bool, right_is_nil: bool) -> Family
    ensures { family_of result ≡ spec.equality_of left_is_nil right_is_nil }
{
    if right_is_nil {
        Family::LeftBesideNil
    } else if left_is_nil {
        Family::RightBesideNil
    } else {
        Family::Equality
    }
}

/// Nothing of both operands.
fn neither(x: Typing, y: Typing) -> Option<Typing>
    ensures { option_map typing_of result ≡ None }
{
    discard_typing(x);
    discard_typing(y);
    None
}

/// What an operator gives of its operands. None where they aren't of its types.
pub(crate) fn operated(
    alloc: Global,
    env: Environment<'_>,
    operator: BinaryOperator,
    family: Family,
    x: Typing,
    y: Typing,
) -> Result<Option<Typing>, AllocError>
    ensures { IfOk result (λ o. option_map typing_of o ≡ operands.operated (environment_of env.entry) operator (family_of family) (typing_of x) (typing_of y)) }
{
    match family {
        Family::Arithmetical => arithmetic(alloc, operator, x, y),
        Family::Bitwise => bitwise(alloc, operator, x, y),
        Family::Ordering => ordered(alloc, operator, x, y),
        Family::Equality => compared(alloc, env, operator, x, y),
        Family::LeftBesideNil => Ok(neither(x, y)),
        Family::RightBesideNil => Ok(neither(x, y)),
        Family::Logical => Ok(neither(x, y)),
        Family::Coalescing => Ok(neither(x, y)),
    }
}
