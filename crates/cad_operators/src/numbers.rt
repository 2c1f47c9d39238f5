// Arithmetic on values. None of it takes memory.
ghost use Rattle.std.specs.Prelude.{◌≡◌, not, false, Ok, Some, IfOk, option_map};
ghost use Rattle.cad_evaluation.specs.Numbers as numbers;
ghost use Rattle.cad_evaluation.specs.Texts as texts;
ghost use Rattle.cad_num.specs.Numbers.{is_fixed, valued, value_of};
ghost use Rattle.cad_operators.specs.Calculations.{on_integers};
ghost use Rattle.cad_outcomes.specs.Outcomes.{Gives, error_number};
ghost use Rattle.cad_rows.specs.Views.{pure_tree};
ghost use Rattle.cad_syntax.specs.declared.kind.Kind.{Kind};
ghost use Rattle.cad_world.specs.State.{guard};

use crate::kinds::is_same_kind;
use crate::leaves::{number_in, number_tree};
use crate::words::bits;
use cad_num::{BitOp, NumError, Op};
use cad_outcomes::{RunError, Stop};
use cad_rows::Tree;
use cad_syntax::{Kind, Num};
use std::alloc::Global;

/// An operation on two numbers of one kind.
#[derive(Clone, Copy, Debug, PartialEq, Eq)]
pub enum Operation {
    Sum,
    Difference,
    Product,
    Quotient,
    Remainder,
    /// Bit by bit, in two's complement.
    Bits(BitOp),
    /// That stays in the kind's range.
    Saturation(Op),
}

/// The error of a program by that of its arithmetic.
fn error_of(error: NumError) -> RunError
    ensures { error_number result ≡ numbers.error_of error }
{
    match error {
        NumError::Overflow => RunError::Overflow,
        NumError::Underflow => RunError::Underflow,
        NumError::DivisionByZero => RunError::DivisionByZero,
    }
}

/// A number as a value, or the error of its arithmetic.
fn numbered(alloc: Global, number: Result<Num, NumError>) -> Result<Tree, Stop>
    ensures { (kind : Kind) → IfOk number (λ n. n.kind ≡ kind) → Gives pure_tree (numbers.numbered kind (valued number)) result }
{
    match number {
        Ok(x) => Ok(number_tree(alloc, x)),
        Err(error) => Err(Stop::Failed(error_of(error))),
    }
}

/// The operation on two numbers.
pub(crate) fn calculated(operation: Operation, x: Num, y: Num) -> Result<Num, NumError>
    requires { x.kind ≡ y.kind }
    ensures value { valued result ≡ on_integers operation x.kind (value_of x) (value_of y) }
    ensures kind { IfOk result (λ n. n.kind ≡ x.kind) }
{
    match operation {
        Operation::Sum => cad_num::add(x, y),
        Operation::Difference => cad_num::sub(x, y),
        Operation::Product => cad_num::mul(x, y),
        Operation::Quotient => cad_num::div(x, y),
        Operation::Remainder => cad_num::rem(x, y),
        Operation::Bits(op) => Ok(bits(op, x, y)),
        Operation::Saturation(op) => cad_num::saturate(op, x, y),
    }
}

/// An operation on two numbers, which have to be of one kind.
fn on_two(alloc: Global, operation: Operation, x: Num, y: Num) -> Result<Tree, Stop>
    ensures { Gives pure_tree (guard (numbers.same_kind x y)
        (numbers.numbered x.kind (on_integers operation x.kind (value_of x) (value_of y)))) result }
{
    if is_same_kind(x.kind, y.kind) {
        numbered(alloc, calculated(operation, x, y))
    } else {
        Err(Stop::IllTyped)
    }
}

/// An operation on two numbers of one kind: Overflow and Underflow where the kind has no such number, DivisionByZero where
/// 0 divides. IllTyped of all else.
pub fn on_numbers(alloc: Global, operation: Operation, a: &Tree, b: &Tree) -> Result<Tree, Stop>
    ensures { Gives pure_tree (numbers.on_numbers (on_integers operation) (pure_tree a.now) (pure_tree b.now)) result }
{
    match number_in(a) {
        None => Err(Stop::IllTyped),
        Some(x) => match number_in(b) {
            None => Err(Stop::IllTyped),
            Some(y) => on_two(alloc, operation, x, y),
        },
    }
}

/// The number with the other sign: Overflow and Underflow where its kind has none. IllTyped of all else.
pub fn negated(alloc: Global, a: &Tree) -> Result<Tree, Stop>
    ensures { Gives pure_tree (numbers.negated (pure_tree a.now)) result }
{
    match number_in(a) {
        None => Err(Stop::IllTyped),
        Some(x) => numbered(alloc, cad_num::neg(x)),
    }
}

/// The number of another kind, without the decimals that this hasn't: Overflow and Underflow where it has none. IllTyped of
/// what is no number.
pub fn converted(alloc: Global, kind: Kind, a: &Tree) -> Result<Tree, Stop>
    ensures { Gives pure_tree (numbers.converted kind (pure_tree a.now)) result }
{
    match number_in(a) {
        None => Err(Stop::IllTyped),
        Some(x) => numbered(alloc, cad_num::convert(x, kind)),
    }
}

/// The greatest number of a kind.
pub fn greatest(alloc: Global, kind: Kind) -> Tree
    ensures { Gives pure_tree (numbers.greatest_tree kind) (Ok result) }
{
    number_tree(alloc, cad_num::greatest(kind))
}

/// The least number of a kind.
pub fn least(alloc: Global, kind: Kind) -> Tree
    ensures { Gives pure_tree (numbers.least_tree kind) (Ok result) }
{
    number_tree(alloc, cad_num::least(kind))
}

/// Whether the numbers of a kind have no decimals.
fn is_whole(kind: Kind) -> bool
    ensures { result ≡ not (is_fixed kind) }
{
    !matches!(kind, Kind::Fix64 | Kind::UFix64)
}

/// A number of a kind without decimals.
fn whole(x: Num) -> Option<Num>
    ensures { option_map value_of result ≡ numbers.whole x }
{
    if is_whole(x.kind) { Some(x) } else { None }
}

/// The whole number that a tree is.
pub fn integer_in(tree: &Tree) -> Option<Num>
    ensures { option_map value_of result ≡ numbers.integer_in (pure_tree tree.now) }
{
    match number_in(tree) {
        Some(x) => whole(x),
        None => None,
    }
}

/// The Int of a count.
fn count_number(count: u64) -> Num
    ensures { numbers.number_of Kind.Int false count ≡ Some result }
{
    Num {
        kind: Kind::Int,
        negative: false,
        magnitude: u128::from(count),
    }
}

/// A count as an Int.
#[tactic(auto, using(crate::proofs::Kept::counted))]
pub fn count_tree(alloc: Global, count: u64) -> Tree
    ensures { Gives pure_tree (texts.given_int count) (Ok result) }
{
    number_tree(alloc, count_number(count))
}
