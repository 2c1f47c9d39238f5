// Whether each field is set once and before it is used.
ghost use Rattle.std.specs.Prelude.{◌≡◌, IfOk, map, option_map};
ghost use Rattle.cad_declarations.specs.Views.{block_of, function_of, part_of, transaction_of};
ghost use Rattle.cad_paths.specs.Bodies as spec;
ghost use Rattle.cad_paths.specs.Initialisation.{InitialisationOf};
ghost use Rattle.cad_paths.specs.Paths as paths;
ghost use Rattle.cad_moves.specs.Code.Rows.{row_over};
ghost use Rattle.cad_moves.specs.Views.{body_of, item_of, named};
ghost use Rattle.cad_pure.specs.Views.{place_of};

use cad_declarations::{TypedBody, TypedFunction, TypedTransaction};
use cad_moves::search::search;
use cad_moves::{
    Body, Item, Misuse, Reading, Rules, block, has_no_block, inner_letters, part_letters, position,
    push_declaration, push_last, skip,
};
use cad_paths::{BodyPart, FieldRule, Position};
use std::alloc::{AllocError, Global};

/// A copy of a rule.
fn copy_of(rule: &FieldRule) -> Result<FieldRule, AllocError>
    ensures { IfOk result (λ copy. copy ≡ rule.now) }
{
    Ok(FieldRule {
        name: rule.name.clone()?,
        is_once: rule.is_once,
    })
}

/// Copies of rules.
fn copies_of(alloc: Global, rules: &[FieldRule]) -> Result<Vec<FieldRule>, AllocError>
    ensures { IfOk result (λ all. all.items ≡ rules.now) }
{
    let mut all = Vec::new(alloc);
    for rule in rules {
        all.push(copy_of(rule)?)?;
    }
    Ok(all)
}

/// Adds the declaration of a field that is to be set.
fn push_unset(
    items: &mut Vec<Item>,
    number: u64,
    field: &FieldRule,
    at: Position,
) -> Result<(), AllocError>
    ensures { IfOk result (λ _. (rest : paths.PathBody) → row_over (map item_of items.new.items) rest ≡ row_over (map item_of items.old.items) (paths.scope (named number field.now.name) at rest)) }
{
    push_declaration(items, number, &field.name, at)?;
    Ok(())
}

/// Fields that are to be set, before what sets them; they count to this position.
fn unset_fields(
    alloc: Global,
    fields: &[FieldRule],
    at: Position,
    inner: Body,
) -> Result<Body, AllocError>
    ensures { IfOk result (λ b. body_of b ≡ spec.unset_fields 0 fields.now at (body_of inner)) }
{
    let mut items = Vec::new(alloc);
    for i in 0..fields.len() {
        push_unset(&mut items, i as u64, &fields[i], at)?;
    }
    push_last(&mut items, inner)?;
    Ok(block(items))
}

/// What an initializer spells for the fields of what it makes.
fn initializer_letters(
    alloc: Global,
    fields: &[FieldRule],
    function: &TypedFunction,
) -> Result<Body, AllocError>
    ensures { IfOk result (λ b. body_of b ≡ spec.initializer_letters fields.now (function_of function.now)) }
{
    let reading = Reading::FieldsOfSelf(copies_of(alloc, fields)?);
    let inner = inner_letters(alloc, &reading, function)?;
    let end = position(BodyPart::Whole, function.statements);
    unset_fields(alloc, fields, end, inner)
}

/// The end of `prepare`, else the declaration.
fn prepare_end(transaction: &TypedTransaction) -> Position
    ensures { result ≡ spec.prepare_end (transaction_of transaction.now) }
{
    if has_no_block(&transaction.prepare) {
        position(BodyPart::Declaration, 0)
    } else {
        position(BodyPart::Prepare, transaction.prepare_statements)
    }
}

/// What `prepare` spells for the transaction's fields.
fn prepare_letters(
    alloc: Global,
    fields: &[FieldRule],
    transaction: &TypedTransaction,
) -> Result<Body, AllocError>
    ensures { IfOk result (λ b. body_of b ≡ spec.prepare_letters fields.now (transaction_of transaction.now)) }
{
    let reading = Reading::FieldsOfTransaction(copies_of(alloc, fields)?);
    let inner = part_letters(alloc, &reading, BodyPart::Prepare, &transaction.prepare)?;
    unset_fields(alloc, fields, prepare_end(transaction), inner)
}

/// What a body spells for the fields that it sets.
fn field_letters(alloc: Global, fields: &[FieldRule], body: &TypedBody) -> Result<Body, AllocError>
    ensures { IfOk result (λ b. body_of b ≡ spec.field_letters fields.now (part_of body.now)) }
{
    match body {
        TypedBody::Function(_) => Ok(skip()),
        TypedBody::Initializer(function) => initializer_letters(alloc, fields, function),
        TypedBody::Transaction(transaction) => prepare_letters(alloc, fields, transaction),
    }
}

/// Where a field is misused.
fn place(found: Option<Misuse>) -> Option<Position>
    ensures { result ≡ place_of found }
{
    match found {
        None => None,
        Some(misuse) => Some(misuse.at),
    }
}

/// Whether each of these fields, which an initializer or a transaction's `prepare` sets, is set before it is used and at the
/// end, and but once where it may be set but once, on every path; a function sets none.
///
/// None where it is so; else the first position where one is used unset or set again, or at whose end one is unset: for an
/// initializer that is its number of statements, for a transaction the end of `prepare`, else the declaration. `Err`: there was
/// no memory.
pub fn initialised(
    alloc: Global,
    fields: &[FieldRule],
    body: &TypedBody,
) -> Result<Option<Position>, AllocError>
    ensures { IfOk result (λ at. InitialisationOf (spec.field_letters fields.now (part_of body.now)) at) }
{
    let paths = field_letters(alloc, fields, body)?;
    let found = search(Rules::Fields, &paths)?;
    Ok(place(found.misuse))
}
