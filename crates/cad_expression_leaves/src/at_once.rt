// Numbers that are told at once, and what operators make of them: no place is looked up, and nothing is copied.
ghost use Rattle.std.specs.Prelude.{◌≡◌, IfSome, List, Ok};
ghost use Rattle.cad_declarations.specs.Typed as e;
ghost use Rattle.cad_declarations.specs.Views.{place_of, term_of};
ghost use Rattle.cad_evaluation.specs.Callees.{Calls, Front};
ghost use Rattle.cad_evaluation.specs.Numbers.{bool_tree, number_tree};
ghost use Rattle.cad_evaluation.specs.Operators as operators;
ghost use Rattle.cad_evaluation.specs.Terms as terms;
ghost use Rattle.cad_expression_leaves.specs.Code.Steps as steps;
ghost use Rattle.cad_expression_leaves.specs.Views.{tree_in};
ghost use Rattle.cad_outcomes.specs.Outcomes.{Gives};
ghost use Rattle.cad_rows.specs.Views.{pure_shape, pure_tree};
ghost use Rattle.cad_state.specs.Views.{FindsAndCarriesOut, state_over};
ghost use Rattle.cad_values.specs.Values as v;
ghost use Rattle.cad_values.specs.Values.{pure_value};
ghost use Rattle.cad_world.specs.Labels.{variables};
ghost use Rattle.cad_world.specs.Rows.{full, plain, slot};
ghost use Rattle.cad_world.specs.State.{Account, give};

use crate::values::{boxed_truth, memory};
use cad_boxed_trees::boxed;
use cad_declarations::{Place, Term};
use cad_grammar::BinaryOperator;
use cad_operators::{calculate_numbers, compare_numbers, number_tree as tree_of_number};
use cad_outcomes::Stop;
use cad_rows::{Shape, Slot, Tree};
use cad_state::RunState;
use cad_syntax::Num;
use cad_values::Value;

/// The number that a value is.
fn number_of_value(value: &Value) -> Option<Num>
    ensures { IfSome result (λ n. pure_value value.now ≡ v.number n) }
{
    match value {
        Value::Number(n) => Some(*n),
        _ => None,
    }
}

/// The number that a shape is.
fn number_of_shape(shape: &Shape) -> Option<Num>
    ensures { IfSome result (λ n. pure_shape shape.now ≡ plain (v.number n)) }
{
    match shape {
        Shape::Plain(value) => number_of_value(value),
        _ => None,
    }
}

/// The number that a tree is, and nothing more.
#[tactic(auto, using(crate::proofs::Told::number_alone))]
fn number_alone(tree: &Tree) -> Option<Num>
    ensures { IfSome result (λ n. pure_tree tree.now ≡ number_tree n) }
{
    if tree.optionals != 0 {
        return None;
    }
    if !tree.parts.is_empty() {
        return None;
    }
    number_of_shape(&tree.shape)
}

/// The number in a variable of the newest call.
fn variable_number(state: &RunState, i: usize) -> Option<Num>
    ensures { IfSome result (λ n. (accounts : List Account) → slot i (variables (state_over accounts state.now)) ≡ full (number_tree n)) }
{
    match state.variable(i) {
        Slot::Full(tree) => number_alone(tree),
        _ => None,
    }
}

/// The number that stands in a place, where that is a variable.
fn number_in_place(place: &Place, state: &RunState) -> Option<Num>
    ensures { IfSome result (λ n. (front : Front) (calls : Calls) → FindsAndCarriesOut number_tree (steps.evaluated front calls (e.copy (place_of place.now))) state.now state.now (Ok n)) }
{
    match place {
        Place::Variable(i) => variable_number(state, *i as usize),
        _ => None,
    }
}

/// The number that an expression is, where it is a literal, or a variable that holds one.
#[tactic(auto, unfolding(crate::specs::Code::Steps::evaluated))]
pub fn number_at_once(term: &Term, state: &RunState) -> Option<Num>
    ensures { IfSome result (λ n. (front : Front) (calls : Calls) → FindsAndCarriesOut number_tree (steps.evaluated front calls (term_of term.now)) state.now state.now (Ok n)) }
{
    match term {
        Term::Number(n) => Some(*n),
        Term::Copy(place) => number_in_place(place, state),
        _ => None,
    }
}

/// A number as a value on the heap.
#[inline(never)]
#[tactic(auto, using(crate::proofs::Told::number_boxed))]
pub fn boxed_number(state: &RunState, n: Num) -> Result<Box<Tree>, Stop>
    ensures { Gives tree_in (give (number_tree n)) result }
{
    boxed(Ok(tree_of_number(memory(state), n)))
}

/// What an operator makes of two numbers, where it costs no unit and has no error.
#[inline(never)]
fn operate(
    state: &RunState,
    operator: BinaryOperator,
    x: Num,
    y: Num,
) -> Option<Result<Box<Tree>, Stop>>
    ensures { IfSome result (λ r. Gives tree_in (operators.binary operator (number_tree x) (number_tree y)) r) }
{
    match compare_numbers(operator, x, y) {
        Some(truth) => Some(boxed_truth(state, truth)),
        None => match calculate_numbers(operator, x, y) {
            Some(n) => Some(boxed_number(state, n)),
            None => None,
        },
    }
}

/// What an operator makes of two expressions, where both are numbers that are told at once, and so is that; None of others.
#[inline(never)]
pub fn binary_at_once(
    operator: BinaryOperator,
    left: &Term,
    right: &Term,
    state: &RunState,
) -> Option<Result<Box<Tree>, Stop>>
    ensures { IfSome result (λ r. (front : Front) (calls : Calls) → FindsAndCarriesOut tree_in (steps.evaluated front calls (e.binary operator (term_of left.now) (term_of right.now))) state.now state.now r) }
{
    match number_at_once(left, state) {
        Some(x) => match number_at_once(right, state) {
            Some(y) => operate(state, operator, x, y),
            None => None,
        },
        None => None,
    }
}

/// The truth that a comparison of two expressions is, where both are numbers that are told at once; None of others.
fn compare_at_once(
    operator: BinaryOperator,
    left: &Term,
    right: &Term,
    state: &RunState,
) -> Option<bool>
    ensures { IfSome result (λ is. (front : Front) (calls : Calls) → FindsAndCarriesOut bool_tree (steps.evaluated front calls (e.binary operator (term_of left.now) (term_of right.now))) state.now state.now (Ok is)) }
{
    match number_at_once(left, state) {
        Some(x) => match number_at_once(right, state) {
            Some(y) => compare_numbers(operator, x, y),
            None => None,
        },
        None => None,
    }
}

/// The truth that an expression is, where it compares numbers that are told at once; None of others.
#[inline(never)]
#[tactic(auto, unfolding(crate::specs::Code::Steps::evaluated))]
pub fn truth_at_once(term: &Term, state: &RunState) -> Option<bool>
    ensures { IfSome result (λ is. (front : Front) (calls : Calls) → FindsAndCarriesOut bool_tree (terms.eval front calls (term_of term.now)) state.now state.now (Ok is)) }
{
    match term {
        Term::Binary(operator, left, right) => compare_at_once(*operator, left, right, state),
        _ => None,
    }
}
