// What whole bodies spell.
ghost use Rattle.std.specs.Prelude.{◌≡◌, IfOk, map, option_map};
ghost use Rattle.cad_declarations.specs.Views.{term_of, variable_of, block_of, condition_of, before_of, function_of, transaction_of, part_of};
ghost use Rattle.cad_paths.specs.Bodies as spec;
ghost use Rattle.cad_moves.specs.Views.{body_of, reading_of};

use crate::body::{Body, block, caught, ending, maybe, push_do, push_last, seq, skip};
use crate::letters::{arguments_letters, term_letters};
use crate::reading::Reading;
use crate::statements::{block_letters, declare, position};
use cad_declarations::{
    Term, TypedBefore, TypedBlock, TypedBody, TypedCondition, TypedFunction, TypedTransaction,
    Variable,
};
use cad_paths::{BodyPart, Position, Way};
use std::alloc::{AllocError, Global};

/// A condition's message, which is evaluated or not.
fn message_letters(
    alloc: Global,
    reading: &Reading,
    at: Position,
    message: &Option<Term>,
) -> Result<Body, AllocError>
    ensures { IfOk result (λ b. body_of b ≡ spec.message_letters (reading_of reading.now) at (option_map term_of message.now)) }
{
    match message {
        None => Ok(skip()),
        Some(text) => {
            let part = term_letters(alloc, reading, at, text)?;
            maybe(alloc, part)
        }
    }
}

/// What a condition spells.
fn condition_letters(
    alloc: Global,
    reading: &Reading,
    part: BodyPart,
    condition: &TypedCondition,
) -> Result<Body, AllocError>
    ensures { IfOk result (λ b. body_of b ≡ spec.condition_letters (reading_of reading.now) part (condition_of condition.now)) }
{
    match condition {
        TypedCondition::Test { at, test, message } => {
            let first = term_letters(alloc, reading, position(part, *at), test)?;
            let second = message_letters(alloc, reading, position(part, *at), message)?;
            seq(alloc, first, second)
        }
        TypedCondition::Emit { at, arguments, .. } => {
            arguments_letters(alloc, reading, position(part, *at), arguments)
        }
    }
}

/// What conditions spell, one behind the other.
fn conditions_letters(
    alloc: Global,
    reading: &Reading,
    part: BodyPart,
    all: &[TypedCondition],
) -> Result<Body, AllocError>
    ensures { IfOk result (λ b. body_of b ≡ spec.conditions_letters (reading_of reading.now) part (map condition_of all.now)) }
{
    let mut items = Vec::new(alloc);
    for condition in all {
        let body = condition_letters(alloc, reading, part, condition)?;
        push_do(&mut items, body)?;
    }
    Ok(block(items))
}

/// What stands under one `before`.
fn before_value(
    alloc: Global,
    reading: &Reading,
    part: BodyPart,
    before: &TypedBefore,
) -> Result<Body, AllocError>
    ensures { IfOk result (λ b. body_of b ≡ spec.before_value (reading_of reading.now) part (before_of before.now)) }
{
    term_letters(alloc, reading, position(part, before.at), &before.value)
}

/// What stands under `before`.
fn before_letters(
    alloc: Global,
    reading: &Reading,
    part: BodyPart,
    all: &[TypedBefore],
) -> Result<Body, AllocError>
    ensures { IfOk result (λ b. body_of b ≡ spec.before_letters (reading_of reading.now) part (map before_of all.now)) }
{
    let mut items = Vec::new(alloc);
    for before in all {
        let body = before_value(alloc, reading, part, before)?;
        push_do(&mut items, body)?;
    }
    Ok(block(items))
}

/// The statements of a part, behind which a `return` goes on.
pub fn part_letters(
    alloc: Global,
    reading: &Reading,
    part: BodyPart,
    inner: &Option<TypedBlock>,
) -> Result<Body, AllocError>
    ensures { IfOk result (λ b. body_of b ≡ spec.part_letters (reading_of reading.now) part (option_map block_of inner.now)) }
{
    match inner {
        None => Ok(skip()),
        Some(statements) => {
            let body = block_letters(alloc, reading, part, statements)?;
            caught(alloc, Way::Returned, body)
        }
    }
}

/// Whether a part isn't written.
pub fn has_no_block(inner: &Option<TypedBlock>) -> bool
    ensures { result ≡ spec.has_no_block (option_map block_of inner.now) }
{
    match inner {
        None => true,
        Some(_) => false,
    }
}

/// The conditions and the body of a function.
pub fn inner_letters(
    alloc: Global,
    reading: &Reading,
    function: &TypedFunction,
) -> Result<Body, AllocError>
    ensures { IfOk result (λ b. body_of b ≡ spec.inner_letters (reading_of reading.now) (function_of function.now)) }
{
    let before = before_letters(alloc, reading, BodyPart::Whole, &function.before)?;
    let pre = conditions_letters(alloc, reading, BodyPart::Whole, &function.pre)?;
    let body = part_letters(alloc, reading, BodyPart::Whole, &function.body)?;
    let post = conditions_letters(alloc, reading, BodyPart::Whole, &function.post)?;
    let end = seq(alloc, post, ending(has_no_block(&function.body)))?;
    let behind = seq(alloc, body, end)?;
    let all = seq(alloc, pre, behind)?;
    seq(alloc, before, all)
}

/// Variables that are there from the start.
fn from_start(
    alloc: Global,
    variables: &[Variable],
    at: Position,
    inner: Body,
) -> Result<Body, AllocError>
    ensures { IfOk result (λ b. body_of b ≡ spec.from_start (map variable_of variables.now) at (body_of inner)) }
{
    let reading = Reading::Resources;
    let mut items = Vec::new(alloc);
    for variable in variables {
        declare(&mut items, &reading, variable, at)?;
    }
    push_last(&mut items, inner)?;
    Ok(block(items))
}

/// What a function spells for its resource variables.
fn function_letters(alloc: Global, function: &TypedFunction) -> Result<Body, AllocError>
    ensures { IfOk result (λ b. body_of b ≡ spec.function_letters (function_of function.now)) }
{
    let reading = Reading::Resources;
    let inner = inner_letters(alloc, &reading, function)?;
    let end = position(BodyPart::Whole, function.statements);
    from_start(alloc, &function.parameters, end, inner)
}

/// Where a transaction's field counts as lost.
fn fields_end(transaction: &TypedTransaction) -> Position
    ensures { result ≡ spec.fields_end (transaction_of transaction.now) }
{
    if has_no_block(&transaction.execute) {
        if has_no_block(&transaction.prepare) {
            position(BodyPart::Declaration, 0)
        } else {
            position(BodyPart::Prepare, transaction.prepare_statements)
        }
    } else {
        position(BodyPart::Execute, transaction.execute_statements)
    }
}

/// What a transaction spells for its resource variables.
fn transaction_letters(alloc: Global, transaction: &TypedTransaction) -> Result<Body, AllocError>
    ensures { IfOk result (λ b. body_of b ≡ spec.transaction_letters (transaction_of transaction.now)) }
{
    let reading = Reading::Resources;
    let prepare = part_letters(alloc, &reading, BodyPart::Prepare, &transaction.prepare)?;
    let pre = conditions_letters(alloc, &reading, BodyPart::Pre, &transaction.pre)?;
    let before = before_letters(alloc, &reading, BodyPart::Post, &transaction.before)?;
    let execute = part_letters(alloc, &reading, BodyPart::Execute, &transaction.execute)?;
    let post = conditions_letters(alloc, &reading, BodyPart::Post, &transaction.post)?;
    let end = seq(alloc, execute, post)?;
    let behind = seq(alloc, before, end)?;
    let middle = seq(alloc, pre, behind)?;
    let all = seq(alloc, prepare, middle)?;
    from_start(alloc, &transaction.fields, fields_end(transaction), all)
}

/// What a body spells for its resource variables.
pub(crate) fn resource_letters(alloc: Global, body: &TypedBody) -> Result<Body, AllocError>
    ensures { IfOk result (λ b. body_of b ≡ spec.resource_letters (part_of body.now)) }
{
    match body {
        TypedBody::Function(function) => function_letters(alloc, function),
        TypedBody::Initializer(function) => function_letters(alloc, function),
        TypedBody::Transaction(transaction) => transaction_letters(alloc, transaction),
    }
}
