// Operators on two numbers that stand in no tree.
ghost use Rattle.std.specs.Prelude.{◌≡◌, not, IfOk, IfSome, Ok, option_map};
ghost use Rattle.cad_evaluation.specs.Numbers as numbers;
ghost use Rattle.cad_evaluation.specs.Numbers.{bool_tree, number_tree};
ghost use Rattle.cad_evaluation.specs.Operators.{binary};
ghost use Rattle.cad_num.specs.Numbers.{valued};
ghost use Rattle.cad_operators.specs.Answers.{comparison};
ghost use Rattle.cad_operators.specs.Calculations.{on_integers};
ghost use Rattle.cad_outcomes.specs.Outcomes.{Gives};
ghost use Rattle.cad_syntax.specs.declared.kind.Kind.{Kind};

use crate::kinds::is_same_kind;
use crate::numbers::{Operation, calculated};
use crate::operators::calculation;
use crate::order::number_less;
use cad_grammar::BinaryOperator;
use cad_keys::is_same_number;
use cad_num::NumError;
use cad_syntax::Num;

/// The other truth, where there is one.
fn other(truth: Option<bool>) -> Option<bool>
    ensures { result ≡ option_map not truth }
{
    match truth {
        Some(is) => Some(!is),
        None => None,
    }
}

/// What a comparison tells of two numbers. None of numbers of two kinds that are to be put in order, and of another operator.
fn compare(operation: BinaryOperator, x: Num, y: Num) -> Option<bool>
    ensures { result ≡ comparison operation (number_tree x) (number_tree y) }
{
    match operation {
        BinaryOperator::Less => number_less(x, y),
        BinaryOperator::LessOrEqual => other(number_less(y, x)),
        BinaryOperator::Greater => number_less(y, x),
        BinaryOperator::GreaterOrEqual => other(number_less(x, y)),
        BinaryOperator::Equal => Some(is_same_number(x, y)),
        BinaryOperator::NotEqual => Some(!is_same_number(x, y)),
        _ => None,
    }
}

/// What a comparison makes of two numbers; it costs no unit. None where it makes no truth of them, and of another operator.
#[tactic(auto, using(crate::proofs::Charges::compares_numbers))]
pub fn compare_numbers(operation: BinaryOperator, x: Num, y: Num) -> Option<bool>
    ensures { IfSome result (λ is. Gives bool_tree (binary operation (number_tree x) (number_tree y)) (Ok is)) }
{
    compare(operation, x, y)
}

/// A number, where its arithmetic has no error.
fn number_of(number: Result<Num, NumError>) -> Option<Num>
    ensures { (kind : Kind) → IfOk number (λ n. n.kind ≡ kind) → IfSome result (λ n. Gives number_tree (numbers.numbered kind (valued number)) (Ok n)) }
{
    match number {
        Ok(n) => Some(n),
        Err(_) => None,
    }
}

/// An operation on two numbers. None where they are of two kinds, or it has an error.
fn operated(operation: Operation, x: Num, y: Num) -> Option<Num>
    ensures { IfSome result (λ n. Gives number_tree (numbers.on_numbers (on_integers operation) (number_tree x) (number_tree y)) (Ok n)) }
{
    if is_same_kind(x.kind, y.kind) {
        number_of(calculated(operation, x, y))
    } else {
        None
    }
}

/// The number that an operator makes of two. None of an operator that makes none, and where there is an error.
#[tactic(auto, using(crate::proofs::Charges::calculates_number))]
pub fn calculate_numbers(operation: BinaryOperator, x: Num, y: Num) -> Option<Num>
    ensures { IfSome result (λ n. Gives number_tree (binary operation (number_tree x) (number_tree y)) (Ok n)) }
{
    match calculation(operation) {
        Some(known) => operated(known, x, y),
        None => None,
    }
}
