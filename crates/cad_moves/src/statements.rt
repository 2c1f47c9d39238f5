// What statements and blocks spell.
ghost use Rattle.std.specs.Prelude.{◌≡◌, IfOk, map, option_map};
ghost use Rattle.cad_declarations.specs.Typed as tree;
ghost use Rattle.cad_declarations.specs.Views.{place_of, term_of, argument_of, variable_of, statement_of, block_of, case_of};
ghost use Rattle.cad_paths.specs.Paths as paths;
ghost use Rattle.cad_paths.specs.Letters as terms;
ghost use Rattle.cad_paths.specs.Bodies as spec;
ghost use Rattle.cad_moves.specs.Views.{body_of, reading_of};
ghost use Rattle.cad_moves.specs.Code.Rows.{row_over};
ghost use Rattle.cad_moves.specs.Views.{item_of};

use crate::body::{
    Body, Item, block, caught, either, push_declaration, push_do, push_last, push_or, repeated,
    seq, skip,
};
use crate::leaf::{
    is_self, own_field_set, own_field_use, take_letters, variable_letters, variable_set,
};
use crate::letters::{arguments_letters, place_letters, term_letters};
use crate::reading::Reading;
use cad_declarations::{Argument, Place, Term, TypedBlock, TypedCase, TypedStatement, Variable};
use cad_paths::{BodyPart, Letter, Position, Way};
use std::alloc::{AllocError, Global};

/// A statement or condition of a part.
pub fn position(part: BodyPart, at: u64) -> Position
    ensures { result ≡ spec.position part at }
{
    Position { part, at }
}

/// What is evaluated of a place before the value that is put there.
fn target_letters(
    alloc: Global,
    reading: &Reading,
    at: Position,
    place: &Place,
) -> Result<Body, AllocError>
    ensures { IfOk result (λ b. body_of b ≡ spec.target_letters (reading_of reading.now) at (place_of place.now)) }
{
    match place {
        Place::Variable(_) => Ok(skip()),
        Place::Self_ => Ok(skip()),
        Place::Contract(_) => Ok(skip()),
        Place::Target(value) => term_letters(alloc, reading, at, value),
        Place::Field { base, .. } => {
            if is_self(base) {
                Ok(skip())
            } else {
                place_letters(alloc, reading, at, base)
            }
        }
        Place::Element { base, index, .. } => {
            let first = place_letters(alloc, reading, at, base)?;
            let second = term_letters(alloc, reading, at, index)?;
            seq(alloc, first, second)
        }
        Place::Content { base, .. } => place_letters(alloc, reading, at, base),
    }
}

/// A place that is assigned to.
fn set_letters(
    alloc: Global,
    reading: &Reading,
    at: Position,
    place: &Place,
) -> Result<Body, AllocError>
    ensures { IfOk result (λ b. body_of b ≡ spec.set_letters (reading_of reading.now) at (place_of place.now)) }
{
    match place {
        Place::Variable(number) => variable_set(alloc, reading, at, u64::from(*number)),
        Place::Field { base, name, .. } => {
            if is_self(base) {
                own_field_set(alloc, reading, at, name)
            } else {
                Ok(skip())
            }
        }
        Place::Self_ => Ok(skip()),
        Place::Contract(_) => Ok(skip()),
        Place::Target(_) => Ok(skip()),
        Place::Element { .. } => Ok(skip()),
        Place::Content { .. } => Ok(skip()),
    }
}

/// A place whose value is replaced.
fn fill_letters(
    alloc: Global,
    reading: &Reading,
    at: Position,
    place: &Place,
) -> Result<Body, AllocError>
    ensures { IfOk result (λ b. body_of b ≡ spec.fill_letters (reading_of reading.now) at (place_of place.now)) }
{
    match place {
        Place::Variable(number) => {
            Ok(variable_letters(reading, Letter::Fill, at, u64::from(*number)))
        }
        Place::Field { base, name, .. } => {
            if is_self(base) {
                own_field_use(alloc, reading, at, name)
            } else {
                Ok(skip())
            }
        }
        Place::Self_ => Ok(skip()),
        Place::Contract(_) => Ok(skip()),
        Place::Target(_) => Ok(skip()),
        Place::Element { .. } => Ok(skip()),
        Place::Content { .. } => Ok(skip()),
    }
}

/// Whether a variable's scope is marked.
fn is_scope(reading: &Reading, variable: &Variable) -> bool
    ensures { result ≡ spec.is_scope (reading_of reading.now) (variable_of variable.now) }
{
    match reading {
        Reading::Resources => variable.is_resource,
        Reading::FieldsOfSelf(_) => false,
        Reading::FieldsOfTransaction(_) => false,
    }
}

/// Adds the declaration of a variable.
pub(crate) fn push_variable(
    items: &mut Vec<Item>,
    variable: &Variable,
    at: Position,
) -> Result<(), AllocError>
    ensures { IfOk result (λ _. (rest : paths.PathBody) → row_over (map item_of items.new.items) rest ≡ row_over (map item_of items.old.items) (paths.scope (spec.path_variable (variable_of variable.now)) at rest)) }
{
    push_declaration(items, u64::from(variable.number), &variable.name, at)?;
    Ok(())
}

/// Declares a variable for the rest of a block.
pub(crate) fn declare(
    items: &mut Vec<Item>,
    reading: &Reading,
    variable: &Variable,
    at: Position,
) -> Result<(), AllocError>
    ensures { IfOk result (λ _. (rest : paths.PathBody) → row_over (map item_of items.new.items) rest ≡ row_over (map item_of items.old.items) (spec.declared (reading_of reading.now) (variable_of variable.now) at rest)) }
{
    if is_scope(reading, variable) {
        push_variable(items, variable, at)?;
    }
    Ok(())
}

/// A variable before its scope.
fn declared(
    alloc: Global,
    reading: &Reading,
    variable: &Variable,
    at: Position,
    a: Body,
) -> Result<Body, AllocError>
    ensures { IfOk result (λ b. body_of b ≡ spec.declared (reading_of reading.now) (variable_of variable.now) at (body_of a)) }
{
    if is_scope(reading, variable) {
        let mut items = Vec::new(alloc);
        push_variable(&mut items, variable, at)?;
        push_last(&mut items, a)?;
        Ok(block(items))
    } else {
        Ok(a)
    }
}

/// A test and a body, any number of times, and the test once more.
fn while_letters(alloc: Global, first: Body, test: Body, a: Body) -> Result<Body, AllocError>
    ensures { IfOk result (λ b. body_of b ≡ spec.turns_between (body_of first) (body_of test) (body_of a)) }
{
    let inner = caught(alloc, Way::Continued, a)?;
    let turn = seq(alloc, inner, test)?;
    let turns = repeated(alloc, turn)?;
    let all = seq(alloc, first, turns)?;
    caught(alloc, Way::Broken, all)
}

fn for_letters(alloc: Global, array: Body, a: Body) -> Result<Body, AllocError>
    ensures { IfOk result (λ b. body_of b ≡ spec.for_letters (body_of array) (body_of a)) }
{
    let inner = caught(alloc, Way::Continued, a)?;
    let turns = repeated(alloc, inner)?;
    let all = caught(alloc, Way::Broken, turns)?;
    seq(alloc, array, all)
}

/// Both ways of an `if let` or of a failable cast, each with what it spells first.
fn two_ways(alloc: Global, taken: Body, a: Body, left: Body, b: Body) -> Result<Body, AllocError>
    ensures { IfOk result (λ r. body_of r ≡ paths.either (paths.seq (body_of taken) (body_of a)) (paths.seq (body_of left) (body_of b))) }
{
    let first = seq(alloc, taken, a)?;
    let second = seq(alloc, left, b)?;
    either(alloc, first, second)
}

/// A test, and one of two branches.
fn chosen(alloc: Global, test: Body, a: Body, b: Body) -> Result<Body, AllocError>
    ensures { IfOk result (λ r. body_of r ≡ paths.seq (body_of test) (paths.either (body_of a) (body_of b))) }
{
    let branch = either(alloc, a, b)?;
    seq(alloc, test, branch)
}

/// The variable that a place is.
fn place_variable(place: &Place) -> Option<u64>
    ensures { result ≡ spec.place_variable (place_of place.now) }
{
    match place {
        Place::Variable(number) => Some(u64::from(*number)),
        Place::Self_ => None,
        Place::Contract(_) => None,
        Place::Target(_) => None,
        Place::Field { .. } => None,
        Place::Element { .. } => None,
        Place::Content { .. } => None,
    }
}

/// The variable whose value an expression takes.
fn taken_variable(term: &Term) -> Option<u64>
    ensures { result ≡ spec.taken_variable (term_of term.now) }
{
    match term {
        Term::Take(place) => place_variable(place),
        _ => None,
    }
}

/// An `if let`, of whose value `value` is spelled where it is no variable.
fn if_let_letters(
    alloc: Global,
    reading: &Reading,
    at: Position,
    taken: Option<u64>,
    value: Body,
    a: Body,
    b: Body,
) -> Result<Body, AllocError>
    ensures { IfOk result (λ r. body_of r ≡ spec.if_let_letters (reading_of reading.now) at taken (body_of value) (body_of a) (body_of b)) }
{
    match taken {
        Some(variable) => {
            let spent = variable_letters(reading, Letter::Spend, at, variable);
            let empty = variable_letters(reading, Letter::Empty, at, variable);
            two_ways(alloc, spent, a, empty, b)
        }
        None => chosen(alloc, value, a, b),
    }
}

/// A failable cast.
fn if_cast_letters(
    alloc: Global,
    reading: &Reading,
    at: Position,
    place: &Place,
    a: Body,
    b: Body,
) -> Result<Body, AllocError>
    ensures { IfOk result (λ r. body_of r ≡ spec.if_cast_letters (reading_of reading.now) at (place_of place.now) (body_of a) (body_of b)) }
{
    let other = place_letters(alloc, reading, at, place)?;
    let taken = take_letters(reading, at, place, other);
    let left = place_letters(alloc, reading, at, place)?;
    two_ways(alloc, taken, a, left, b)
}

/// A place that gets a value by `<-!` or beside a second value.
fn replace_letters(
    alloc: Global,
    reading: &Reading,
    at: Position,
    place: &Place,
    value: &Term,
) -> Result<Body, AllocError>
    ensures { IfOk result (λ b. body_of b ≡ paths.seq (spec.target_letters (reading_of reading.now) at (place_of place.now)) (paths.seq (terms.term_letters (reading_of reading.now) at (term_of value.now)) (spec.fill_letters (reading_of reading.now) at (place_of place.now)))) }
{
    let target = target_letters(alloc, reading, at, place)?;
    let new = term_letters(alloc, reading, at, value)?;
    let fill = fill_letters(alloc, reading, at, place)?;
    let behind = seq(alloc, new, fill)?;
    seq(alloc, target, behind)
}

/// A place that is assigned to.
fn assign_letters(
    alloc: Global,
    reading: &Reading,
    at: Position,
    place: &Place,
    value: &Term,
) -> Result<Body, AllocError>
    ensures { IfOk result (λ b. body_of b ≡ paths.seq (spec.target_letters (reading_of reading.now) at (place_of place.now)) (paths.seq (terms.term_letters (reading_of reading.now) at (term_of value.now)) (spec.set_letters (reading_of reading.now) at (place_of place.now)))) }
{
    let target = target_letters(alloc, reading, at, place)?;
    let new = term_letters(alloc, reading, at, value)?;
    let set = set_letters(alloc, reading, at, place)?;
    let behind = seq(alloc, new, set)?;
    seq(alloc, target, behind)
}

/// Two places whose values are exchanged.
fn swap_letters(
    alloc: Global,
    reading: &Reading,
    at: Position,
    left: &Place,
    right: &Place,
) -> Result<Body, AllocError>
    ensures { IfOk result (λ b. body_of b ≡ paths.seq (spec.target_letters (reading_of reading.now) at (place_of left.now)) (paths.seq (spec.target_letters (reading_of reading.now) at (place_of right.now)) (paths.seq (spec.fill_letters (reading_of reading.now) at (place_of left.now)) (spec.fill_letters (reading_of reading.now) at (place_of right.now))))) }
{
    let first = target_letters(alloc, reading, at, left)?;
    let second = target_letters(alloc, reading, at, right)?;
    let fill_left = fill_letters(alloc, reading, at, left)?;
    let fill_right = fill_letters(alloc, reading, at, right)?;
    let fills = seq(alloc, fill_left, fill_right)?;
    let behind = seq(alloc, second, fills)?;
    seq(alloc, first, behind)
}

/// A `return`, of the value where there is one.
fn return_letters(
    alloc: Global,
    reading: &Reading,
    at: Position,
    value: &Option<Argument>,
) -> Result<Body, AllocError>
    ensures { IfOk result (λ b. body_of b ≡ spec.return_letters (reading_of reading.now) at (option_map (λ a. term_of a.value) value.now)) }
{
    match value {
        None => Ok(Body::Leave(Way::Returned)),
        Some(argument) => {
            let first = term_letters(alloc, reading, at, &argument.value)?;
            seq(alloc, first, Body::Leave(Way::Returned))
        }
    }
}

/// What a statement spells.
#[cycle(statements)]
fn statement_letters(
    alloc: Global,
    reading: &Reading,
    part: BodyPart,
    statement: &TypedStatement,
) -> Result<Body, AllocError>
    ensures { IfOk result (λ b. body_of b ≡ spec.statement_letters (reading_of reading.now) part (statement_of statement.now)) }
{
    match statement {
        TypedStatement::Declare { at, value, .. } => {
            term_letters(alloc, reading, position(part, *at), value)
        }
        TypedStatement::Exchange {
            at,
            place,
            value,
            ..
        } => replace_letters(alloc, reading, position(part, *at), place, value),
        TypedStatement::Assign { at, place, value } => {
            assign_letters(alloc, reading, position(part, *at), place, &value.value)
        }
        TypedStatement::ForceAssign { at, place, value } => {
            replace_letters(alloc, reading, position(part, *at), place, &value.value)
        }
        TypedStatement::Swap {
            at,
            left,
            right,
            ..
        } => swap_letters(alloc, reading, position(part, *at), left, right),
        TypedStatement::Expression { at, value } => {
            term_letters(alloc, reading, position(part, *at), value)
        }
        TypedStatement::If {
            at,
            test,
            then,
            otherwise,
        } => {
            let first = term_letters(alloc, reading, position(part, *at), test)?;
            let a = block_letters(alloc, reading, part, then)?;
            let b = block_letters(alloc, reading, part, otherwise)?;
            chosen(alloc, first, a, b)
        }
        TypedStatement::IfLet {
            at,
            variable,
            value,
            then,
            otherwise,
        } => {
            let place = position(part, *at);
            let first = term_letters(alloc, reading, place, &value.value)?;
            let inner = block_letters(alloc, reading, part, then)?;
            let a = declared(alloc, reading, variable, place, inner)?;
            let b = block_letters(alloc, reading, part, otherwise)?;
            if_let_letters(
                alloc,
                reading,
                place,
                taken_variable(&value.value),
                first,
                a,
                b,
            )
        }
        TypedStatement::IfCast {
            at,
            variable,
            place,
            then,
            otherwise,
            ..
        } => {
            let here = position(part, *at);
            let inner = block_letters(alloc, reading, part, then)?;
            let a = declared(alloc, reading, variable, here, inner)?;
            let b = block_letters(alloc, reading, part, otherwise)?;
            if_cast_letters(alloc, reading, here, place, a, b)
        }
        TypedStatement::While { at, test, body } => {
            let first = term_letters(alloc, reading, position(part, *at), test)?;
            let again = term_letters(alloc, reading, position(part, *at), test)?;
            let inner = block_letters(alloc, reading, part, body)?;
            while_letters(alloc, first, again, inner)
        }
        TypedStatement::For {
            at,
            array,
            body,
            ..
        } => {
            let first = term_letters(alloc, reading, position(part, *at), &array.value)?;
            let inner = block_letters(alloc, reading, part, body)?;
            for_letters(alloc, first, inner)
        }
        TypedStatement::Switch {
            at,
            value,
            cases,
            default,
        } => {
            let first = term_letters(alloc, reading, position(part, *at), value)?;
            let otherwise = block_letters(alloc, reading, part, default)?;
            let all = cases_letters(alloc, reading, part, *at, cases, otherwise)?;
            let inner = caught(alloc, Way::Broken, all)?;
            seq(alloc, first, inner)
        }
        TypedStatement::Break { .. } => Ok(Body::Leave(Way::Broken)),
        TypedStatement::Continue { .. } => Ok(Body::Leave(Way::Continued)),
        TypedStatement::Return { at, value } => {
            return_letters(alloc, reading, position(part, *at), value)
        }
        TypedStatement::Emit { at, arguments, .. } => {
            arguments_letters(alloc, reading, position(part, *at), arguments)
        }
    }
}

/// What a statement declares for those behind it.
fn scope_behind(
    items: &mut Vec<Item>,
    reading: &Reading,
    part: BodyPart,
    statement: &TypedStatement,
) -> Result<(), AllocError>
    ensures { IfOk result (λ _. (rest : paths.PathBody) → row_over (map item_of items.new.items) rest ≡ row_over (map item_of items.old.items) (spec.scope_behind (reading_of reading.now) part (statement_of statement.now) rest)) }
{
    match statement {
        TypedStatement::Declare { at, variable, .. } => {
            declare(items, reading, variable, position(part, *at))
        }
        TypedStatement::Exchange { at, variable, .. } => {
            declare(items, reading, variable, position(part, *at))
        }
        _ => Ok(()),
    }
}

/// What a block spells.
#[cycle(statements)]
pub(crate) fn block_letters(
    alloc: Global,
    reading: &Reading,
    part: BodyPart,
    inner: &TypedBlock,
) -> Result<Body, AllocError>
    ensures { IfOk result (λ b. body_of b ≡ spec.block_letters (reading_of reading.now) part (block_of inner.now)) }
{
    statements_letters(alloc, reading, part, &inner.statements)
}

/// What statements spell, one behind the other.
#[cycle(statements)]
fn statements_letters(
    alloc: Global,
    reading: &Reading,
    part: BodyPart,
    all: &[TypedStatement],
) -> Result<Body, AllocError>
    ensures { IfOk result (λ b. body_of b ≡ spec.statements_letters (reading_of reading.now) part (tree.statements_of (map statement_of all.now))) }
{
    let mut items = Vec::new(alloc);
    for statement in all {
        let body = statement_letters(alloc, reading, part, statement)?;
        push_do(&mut items, body)?;
        scope_behind(&mut items, reading, part, statement)?;
    }
    Ok(block(items))
}

/// What the cases of a `switch` spell, and what stands behind them.
#[cycle(statements)]
fn cases_letters(
    alloc: Global,
    reading: &Reading,
    part: BodyPart,
    at: u64,
    cases: &[TypedCase],
    otherwise: Body,
) -> Result<Body, AllocError>
    ensures { IfOk result (λ b. body_of b ≡ spec.cases_letters (reading_of reading.now) part at (tree.cases_of (map case_of cases.now)) (body_of otherwise)) }
{
    let mut items = Vec::new(alloc);
    for case in cases {
        let value = case_test(alloc, reading, part, at, case)?;
        push_do(&mut items, value)?;
        let body = case_body(alloc, reading, part, case)?;
        push_or(&mut items, body)?;
    }
    push_last(&mut items, otherwise)?;
    Ok(block(items))
}

/// What the value of a case spells.
fn case_test(
    alloc: Global,
    reading: &Reading,
    part: BodyPart,
    at: u64,
    case: &TypedCase,
) -> Result<Body, AllocError>
    ensures { IfOk result (λ b. body_of b ≡ terms.term_letters (reading_of reading.now) (spec.position part at) (case_of case.now).value) }
{
    term_letters(alloc, reading, position(part, at), &case.value)
}

/// What the statements of a case spell.
#[cycle(statements)]
fn case_body(
    alloc: Global,
    reading: &Reading,
    part: BodyPart,
    case: &TypedCase,
) -> Result<Body, AllocError>
    ensures { IfOk result (λ b. body_of b ≡ spec.block_letters (reading_of reading.now) part (case_of case.now).body) }
{
    block_letters(alloc, reading, part, &case.body)
}
