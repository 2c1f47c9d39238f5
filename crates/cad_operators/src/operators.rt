// Operators of two operands.
ghost use Rattle.std.specs.Prelude.{◌≡◌, Bool, Option, IfOk, Some, not, option_map};
ghost use Rattle.cad_operators.specs.Answers.{answer, comparison};
ghost use Rattle.cad_operators.specs.Answers as answers;
ghost use Rattle.cad_outcomes.specs.Outcomes.{Gives};
ghost use Rattle.cad_rows.specs.Views.{pure_tree};

use crate::numbers::{Operation, on_numbers};
use crate::order::less;
use crate::sameness::same;
use crate::truths::found;
use cad_grammar::BinaryOperator;
use cad_num::BitOp;
use cad_outcomes::Stop;
use cad_rows::Tree;
use std::alloc::{AllocError, Global};

/// Whether an operator compares: it costs the units of both operands then.
pub fn is_comparison(operation: BinaryOperator) -> bool
    ensures { result ≡ answers.is_comparison operation }
{
    matches!(
        operation,
        BinaryOperator::Less
            | BinaryOperator::LessOrEqual
            | BinaryOperator::Greater
            | BinaryOperator::GreaterOrEqual
            | BinaryOperator::Equal
            | BinaryOperator::NotEqual
    )
}

/// The other truth, where there is one.
fn denial(truth: Result<Option<bool>, AllocError>) -> Result<Option<bool>, AllocError>
    ensures { (x : Option Bool) → IfOk truth (λ o. o ≡ x) → IfOk result (λ o. o ≡ option_map not x) }
{
    match truth {
        Ok(Some(x)) => Ok(Some(!x)),
        Ok(None) => Ok(None),
        Err(error) => Err(error),
    }
}

/// A truth that is there.
fn certain(truth: Result<bool, AllocError>) -> Result<Option<bool>, AllocError>
    ensures { (x : Bool) → IfOk truth (λ is. is ≡ x) → IfOk result (λ o. o ≡ Some x) }
{
    match truth {
        Ok(x) => Ok(Some(x)),
        Err(error) => Err(error),
    }
}

/// What a comparison tells. None of operands that it doesn't compare, and of another operator.
fn compare(
    alloc: Global,
    operation: BinaryOperator,
    a: &Tree,
    b: &Tree,
) -> Result<Option<bool>, AllocError>
    ensures { IfOk result (λ o. o ≡ comparison operation (pure_tree a.now) (pure_tree b.now)) }
{
    match operation {
        BinaryOperator::Less => less(alloc, a, b),
        BinaryOperator::LessOrEqual => denial(less(alloc, b, a)),
        BinaryOperator::Greater => less(alloc, b, a),
        BinaryOperator::GreaterOrEqual => denial(less(alloc, a, b)),
        BinaryOperator::Equal => certain(same(alloc, a, b)),
        BinaryOperator::NotEqual => denial(certain(same(alloc, a, b))),
        _ => Ok(None),
    }
}

/// The operation on numbers that an operator is, if it is one.
pub(crate) fn calculation(operation: BinaryOperator) -> Option<Operation>
    ensures { result ≡ answers.calculation operation }
{
    match operation {
        BinaryOperator::Add => Some(Operation::Sum),
        BinaryOperator::Subtract => Some(Operation::Difference),
        BinaryOperator::Multiply => Some(Operation::Product),
        BinaryOperator::Divide => Some(Operation::Quotient),
        BinaryOperator::Remainder => Some(Operation::Remainder),
        BinaryOperator::BitAnd => Some(Operation::Bits(BitOp::And)),
        BinaryOperator::BitOr => Some(Operation::Bits(BitOp::Or)),
        BinaryOperator::BitXor => Some(Operation::Bits(BitOp::Xor)),
        _ => None,
    }
}

/// The operation on two numbers, if the operator is one.
fn calculated(alloc: Global, operation: Option<Operation>, a: &Tree, b: &Tree) -> Result<Tree, Stop>
    ensures { Gives pure_tree (answers.calculated operation (pure_tree a.now) (pure_tree b.now)) result }
{
    match operation {
        Some(known) => on_numbers(alloc, known, a, b),
        None => Err(Stop::IllTyped),
    }
}

/// What an operator makes of its operands; the units of a comparison are the caller's, by `is_comparison`. Overflow,
/// Underflow and DivisionByZero where the kind has no such number, IllTyped of operands that it isn't for.
pub fn binary(alloc: Global, operation: BinaryOperator, a: &Tree, b: &Tree) -> Result<Tree, Stop>
    ensures { Gives pure_tree (answer operation (pure_tree a.now) (pure_tree b.now)) result }
{
    if is_comparison(operation) {
        return found(alloc, compare(alloc, operation, a, b));
    }
    calculated(alloc, calculation(operation), a, b)
}
