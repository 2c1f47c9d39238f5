// Where a body first does what it may not.
ghost use Rattle.std.specs.Prelude.{◌≡◌, length, map, option_map};
ghost use Rattle.cad_declarations.specs.Typed as tree;
ghost use Rattle.cad_declarations.specs.Views.{before_of, block_of, condition_of, destroyed_of, function_of, part_of, tables_of, term_of, transaction_of, variable_of};
ghost use Rattle.cad_paths.specs.Bodies as paths;
ghost use Rattle.cad_paths.specs.Purity as spec;
ghost use Rattle.cad_pure.specs.Views.{view_of};

use crate::places::ViewBody;
use crate::statements::{block_impurity, earlier, unless, value_impurity};
use crate::terms::{are_pure_arguments, is_pure};
use cad_declarations::{
    DestroyedEvent, Tables, Term, TypedBefore, TypedBlock, TypedBody, TypedCondition,
    TypedFunction, TypedTransaction, Variable,
};
use cad_moves::position;
use cad_paths::{BodyPart, Position};

/// Whether a condition's message is pure.
fn is_pure_message(tables: &Tables, message: &Option<Term>) -> bool
    ensures { result ≡ spec.is_pure_message (tables_of tables.now) (option_map term_of message.now) }
{
    match message {
        None => true,
        Some(text) => is_pure(tables, text),
    }
}

/// A condition, unless it is pure; it may itself be an `emit`.
fn condition_impurity(tables: &Tables, condition: &TypedCondition) -> Option<u64>
    ensures { result ≡ spec.condition_impurity (tables_of tables.now) (condition_of condition.now) }
{
    match condition {
        TypedCondition::Test { at, test, message } => {
            let may_be = is_pure(tables, test) && is_pure_message(tables, message);
            unless(may_be, *at)
        }
        TypedCondition::Emit { at, arguments, .. } => {
            unless(are_pure_arguments(tables, arguments), *at)
        }
    }
}

/// The first condition that isn't pure.
#[tactic(auto, using(crate::proofs::Rows::conditions_at))]
fn conditions_impurity(tables: &Tables, all: &[TypedCondition]) -> Option<u64>
    ensures { result ≡ spec.conditions_impurity (tables_of tables.now) (map condition_of all.now) }
{
    let mut found = None;
    for i in (0..all.len()).rev() {
        found = earlier(condition_impurity(tables, &all[i]), found);
    }
    found
}

/// The first condition under whose `before` something isn't pure.
#[tactic(auto, using(crate::proofs::Rows::befores_at))]
fn before_impurity(tables: &Tables, all: &[TypedBefore]) -> Option<u64>
    ensures { result ≡ spec.before_impurity (tables_of tables.now) (map before_of all.now) }
{
    let mut found = None;
    for i in (0..all.len()).rev() {
        found = earlier(before_value_impurity(tables, &all[i]), found);
    }
    found
}

fn before_value_impurity(tables: &Tables, before: &TypedBefore) -> Option<u64>
    ensures { result ≡ spec.unless (spec.is_pure (tables_of tables.now) (before_of before.now).value) (before_of before.now).at }
{
    value_impurity(tables, before.at, &before.value)
}

/// The first statement of a body that it may not have as that of a view function, where it is one.
fn view_impurity(view: ViewBody<'_>, is_view: bool, inner: &Option<TypedBlock>) -> Option<u64>
    ensures { result ≡ spec.view_impurity is_view (view_of view.entry) (option_map block_of inner.now) }
{
    match inner {
        None => None,
        Some(statements) => {
            if is_view {
                block_impurity(view, statements)
            } else {
                None
            }
        }
    }
}

/// The number of a function's first own variable.
fn own_from(parameters: &[Variable]) -> u64
    ensures { result ≡ length (map variable_of parameters.now) }
{
    parameters.len() as u64
}

/// The first statement or condition of a function that it may not have.
fn function_impurity(tables: &Tables, is_initializer: bool, function: &TypedFunction) -> Option<u64>
    ensures { result ≡ spec.function_impurity (tables_of tables.now) is_initializer (function_of function.now) }
{
    let view = ViewBody {
        tables,
        own_from: own_from(&function.parameters),
        is_initializer,
    };
    let pre = conditions_impurity(tables, &function.pre);
    let before = before_impurity(tables, &function.before);
    let post = conditions_impurity(tables, &function.post);
    let inner = view_impurity(view, function.is_view, &function.body);
    earlier(pre, earlier(before, earlier(post, inner)))
}

/// A statement or condition of a part.
fn placed(part: BodyPart, at: Option<u64>) -> Option<Position>
    ensures { result ≡ option_map (paths.position part) at }
{
    match at {
        None => None,
        Some(at) => Some(position(part, at)),
    }
}

/// The first position where there is one, else the second.
fn positioned(a: Option<Position>, b: Option<Position>) -> Option<Position>
    ensures { result ≡ spec.positioned a b }
{
    match a {
        None => b,
        Some(at) => Some(at),
    }
}

/// The first condition of a transaction that isn't pure.
fn transaction_impurity(tables: &Tables, transaction: &TypedTransaction) -> Option<Position>
    ensures { result ≡ spec.impurity (tables_of tables.now) (tree.transaction_part (transaction_of transaction.now)) }
{
    let pre = conditions_impurity(tables, &transaction.pre);
    let before = before_impurity(tables, &transaction.before);
    let post = conditions_impurity(tables, &transaction.post);
    let behind = placed(BodyPart::Post, earlier(before, post));
    positioned(placed(BodyPart::Pre, pre), behind)
}

/// Where a body first does what it may not: a condition, or what stands under `before`, may make only view calls, and so may
/// the statements of a view function, which may assign but to what is its own. None where it does nothing such.
///
/// Of a transaction the conditions alone are judged. What stands under `before` counts to its condition.
pub fn impurity(tables: &Tables, body: &TypedBody) -> Option<Position>
    ensures { result ≡ spec.impurity (tables_of tables.now) (part_of body.now) }
{
    match body {
        TypedBody::Function(function) => {
            placed(BodyPart::Whole, function_impurity(tables, false, function))
        }
        TypedBody::Initializer(function) => {
            placed(BodyPart::Whole, function_impurity(tables, true, function))
        }
        TypedBody::Transaction(transaction) => transaction_impurity(tables, transaction),
    }
}

/// Whether the default arguments of `ResourceDestroyed` make only view calls, and destroy nothing.
#[tactic(auto, using(crate::proofs::Rows::all_pure))]
pub fn is_pure_event(tables: &Tables, event: &DestroyedEvent) -> bool
    ensures { result ≡ spec.is_pure_event (tables_of tables.now) (destroyed_of event.now) }
{
    are_pure_arguments(tables, &event.arguments)
}
