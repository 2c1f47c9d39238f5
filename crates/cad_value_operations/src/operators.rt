// Operators on values in hand.
ghost use Rattle.std.specs.Prelude.{◌≡◌, ◌+◌, ◌-◌, ◌&&◌, IfOk};
ghost use Rattle.cad_evaluation.specs.Casts as casts;
ghost use Rattle.cad_evaluation.specs.Operators as spec;
ghost use Rattle.cad_evaluation.specs.Reading as reading;
ghost use Rattle.cad_operators.specs.Answers as answers;
ghost use Rattle.cad_outcomes.specs.Outcomes.{Gives, no_value};
ghost use Rattle.cad_receivers.specs.Views.{at_spot, settled_of, spot_of};
ghost use Rattle.cad_rows.specs.Views.{pure_shape, pure_tree};
ghost use Rattle.cad_state.specs.Views.{CarriesOut, FindsAndCarriesOut};
ghost use Rattle.cad_value_operations.specs.Code.Operators as code;
ghost use Rattle.cad_world.specs.State.{spend};
ghost use Rattle.cad_world.specs.Trees.{tree_weight};

use crate::charges::{parts_of, sum};
use crate::leaves::{optionals, shape};
use crate::spots::whole_of;
use cad_access::is_reference;
use cad_grammar::{BinaryOperator, UnaryOperator};
use cad_operators::laws::answers_are_charged;
use cad_operators::{denied, is_comparison, negated};
use cad_outcomes::{RunError, Stop};
use cad_receivers::{Settled, Spot, look, settle_reference};
use cad_rows::{Shape, Tree, discard_tree, owns, tree_height};
use cad_state::RunState;
use std::alloc::{AllocError, Global};

/// A copy of what a receiver is now; IllTyped where a resource is in it.
fn copied_spot(alloc: Global, spot: Spot<'_>) -> Result<Tree, Stop>
    ensures { Gives pure_tree (reading.copied (spot_of spot.entry).tree) result }
{
    match whole_of(alloc, spot) {
        Ok(tree) => {
            if owns(&tree) {
                discard_tree(tree);
                return Err(Stop::IllTyped);
            }
            Ok(tree)
        }
        Err(_) => Err(Stop::Memory),
    }
}

/// A copy of what a reference leads to that was settled.
fn copied_here(state: &RunState, receiver: Settled<'_>) -> Result<Tree, Stop>
    ensures { FindsAndCarriesOut pure_tree (at_spot (settled_of receiver.entry) casts.dereferenced) state.now state.now result }
{
    match look(state, receiver) {
        Ok(spot) => copied_spot(*state.making.allocator(), spot),
        Err(stop) => Err(stop),
    }
}

/// A copy of what a reference leads to.
fn referred(state: &mut RunState, shape: &Shape) -> Result<Tree, Stop>
    ensures { FindsAndCarriesOut pure_tree (code.dereferenced (pure_shape shape.now)) state.old state.new result }
{
    match settle_reference(state, shape) {
        Ok(settled) => copied_here(state, settled),
        Err(stop) => Err(stop),
    }
}

/// A copy of what a value refers to; IllTyped of what is no reference.
fn dereferenced(state: &mut RunState, tree: &Tree) -> Result<Tree, Stop>
    ensures { FindsAndCarriesOut pure_tree (spec.unary UnaryOperator.Dereference (pure_tree tree.now)) state.old state.new result }
{
    let own = shape(tree);
    if is_reference(optionals(tree), own) {
        return referred(state, own);
    }
    Err(Stop::IllTyped)
}

/// What an operator makes of its operand.
fn made_of(state: &mut RunState, operation: UnaryOperator, tree: &Tree) -> Result<Tree, Stop>
    ensures { FindsAndCarriesOut pure_tree (spec.unary operation (pure_tree tree.now)) state.old state.new result }
{
    match operation {
        UnaryOperator::Negate => negated(*state.making.allocator(), tree),
        UnaryOperator::Not => denied(*state.making.allocator(), tree),
        UnaryOperator::Dereference => dereferenced(state, tree),
        _ => Err(Stop::IllTyped),
    }
}

/// What an operator makes of its operand: Overflow where the kind has no such number, ReferenceInvalid where a reference leads
/// to what is gone, IllTyped of what it isn't for, and of an operator that isn't one of values.
pub fn unary(state: &mut RunState, operation: UnaryOperator, tree: Tree) -> Result<Tree, Stop>
    ensures { FindsAndCarriesOut pure_tree (spec.unary operation (pure_tree tree)) state.old state.new result }
{
    let made = made_of(state, operation, &tree);
    discard_tree(tree);
    made
}

/// Lets the operands of an operator go.
fn discard_both(a: Tree, b: Tree) {
    discard_tree(a);
    discard_tree(b)
}

/// Whether a value isn't too high to be compared.
fn is_low(tree: &Tree) -> bool
    ensures { result ≡ code.is_low (pure_tree tree.now) }
{
    tree_height(tree) <= 256
}

/// The parts of two values but the first of each.
fn parts_of_both(a: &Tree, b: &Tree) -> Result<u64, AllocError>
    ensures { IfOk result (λ n. n ≡ (tree_weight (pure_tree a.now) - 1) + (tree_weight (pure_tree b.now) - 1)) }
{
    let x = parts_of(a)?;
    let y = parts_of(b)?;
    sum(x, y)
}

/// Whether two values aren't too high to be compared.
fn are_low(a: &Tree, b: &Tree) -> bool
    ensures { result ≡ (code.is_low (pure_tree a.now) && code.is_low (pure_tree b.now)) }
{
    is_low(a) && is_low(b)
}

/// A unit for each part of two values but the first of each.
fn spend_parts(state: &mut RunState, a: &Tree, b: &Tree) -> Result<(), Stop>
    ensures { CarriesOut no_value (spend ((tree_weight (pure_tree a.now) - 1) + (tree_weight (pure_tree b.now) - 1))) state.old state.new result }
{
    match parts_of_both(a, b) {
        Ok(units) => state.spend(units),
        Err(_) => Err(Stop::Memory),
    }
}

/// Two values are compared: a unit for each part but the first of each. TooLarge where one is too high, Limit where so many units
/// aren't left.
pub fn compared(state: &mut RunState, a: &Tree, b: &Tree) -> Result<(), Stop>
    ensures { CarriesOut no_value (spec.compared (pure_tree a.now) (pure_tree b.now)) state.old state.new result }
{
    if are_low(a, b) {
        return spend_parts(state, a, b);
    }
    Err(Stop::Failed(RunError::TooLarge))
}

/// The units of an operator.
fn charge(state: &mut RunState, operation: BinaryOperator, a: &Tree, b: &Tree) -> Result<(), Stop>
    ensures { CarriesOut no_value (answers.charge operation (pure_tree a.now) (pure_tree b.now)) state.old state.new result }
{
    if is_comparison(operation) {
        compared(state, a, b)
    } else {
        Ok(())
    }
}

/// What an operator makes of its operands, with its charge.
fn charged(
    state: &mut RunState,
    operation: BinaryOperator,
    a: &Tree,
    b: &Tree,
) -> Result<Tree, Stop>
    ensures { CarriesOut pure_tree (answers.with_charge operation (pure_tree a.now) (pure_tree b.now)) state.old state.new result }
{
    match cad_operators::binary(*state.making.allocator(), operation, a, b) {
        Ok(made) => match charge(state, operation, a, b) {
            Ok(()) => Ok(made),
            Err(stop) => {
                discard_tree(made);
                Err(stop)
            }
        },
        Err(stop) => Err(stop),
    }
}

/// What an operator makes of its operands, both of them evaluated, with the charge of a comparison: Overflow, Underflow and
/// DivisionByZero where the kind has no such number, TooLarge of what is too high to be compared, Limit where no unit is left
/// for it, IllTyped of operands that it isn't for.
pub fn binary(
    state: &mut RunState,
    operation: BinaryOperator,
    a: Tree,
    b: Tree,
) -> Result<Tree, Stop>
    ensures { CarriesOut pure_tree (spec.binary operation (pure_tree a) (pure_tree b)) state.old state.new result }
{
    answers_are_charged();
    let made = charged(state, operation, &a, &b);
    discard_both(a, b);
    made
}
