// What expressions spell, in the order of evaluation.
ghost use Rattle.std.specs.Prelude.{◌≡◌, IfOk, map};
ghost use Rattle.cad_declarations.specs.Typed as tree;
ghost use Rattle.cad_declarations.specs.Views.{place_of, use_of, term_of, argument_of, pair_of};
ghost use Rattle.cad_paths.specs.Letters as spec;
ghost use Rattle.cad_moves.specs.Views.{body_of, reading_of};

use crate::body::{Body, block, either, ending, maybe, push_do, seq, skip};
use crate::leaf::{
    ends_path, is_never_builtin, is_self, is_short, member_of_self, own_field_use, self_use,
    take_letters, variable_letters,
};
use crate::reading::Reading;
use cad_declarations::{Argument, Place, Term, TermEntry, Use};
use cad_grammar::BinaryOperator;
use cad_paths::{Letter, Position};
use std::alloc::{AllocError, Global};

/// What a place spells whose value is looked at: a receiver, the operand of `&`, or beside nil.
#[cycle(letters)]
pub(crate) fn place_letters(
    alloc: Global,
    reading: &Reading,
    at: Position,
    place: &Place,
) -> Result<Body, AllocError>
    ensures { IfOk result (λ b. body_of b ≡ spec.place_letters (reading_of reading.now) at (place_of place.now)) }
{
    match place {
        Place::Variable(number) => {
            Ok(variable_letters(reading, Letter::Use, at, u64::from(*number)))
        }
        Place::Self_ => self_use(alloc, reading, at),
        Place::Contract(_) => Ok(skip()),
        Place::Target(value) => term_letters(alloc, reading, at, value),
        Place::Field { base, name, .. } => {
            if is_self(base) {
                own_field_use(alloc, reading, at, name)
            } else {
                place_letters(alloc, reading, at, base)
            }
        }
        Place::Element { base, index, .. } => {
            let first = place_letters(alloc, reading, at, base)?;
            let second = term_letters(alloc, reading, at, index)?;
            seq(alloc, first, second)
        }
        Place::Content { base, .. } => place_letters(alloc, reading, at, base),
    }
}

/// What is evaluated of a use after its receiver.
#[cycle(letters)]
fn use_letters(
    alloc: Global,
    reading: &Reading,
    at: Position,
    member: &Use,
) -> Result<Body, AllocError>
    ensures { IfOk result (λ b. body_of b ≡ spec.use_letters (reading_of reading.now) at (use_of member.now)) }
{
    match member {
        Use::Field { .. } => Ok(skip()),
        Use::Method { arguments, .. } => arguments_letters(alloc, reading, at, arguments),
        Use::BuiltinField(_) => Ok(skip()),
        Use::BuiltinCall { arguments, .. } => arguments_letters(alloc, reading, at, arguments),
    }
}

/// What a receiver spells.
#[cycle(letters)]
fn receiver_letters(
    alloc: Global,
    reading: &Reading,
    at: Position,
    place: &Place,
    member: &Use,
) -> Result<Body, AllocError>
    ensures { IfOk result (λ b. body_of b ≡ spec.receiver_letters (reading_of reading.now) at (place_of place.now) (use_of member.now) (spec.place_letters (reading_of reading.now) at (place_of place.now))) }
{
    if is_self(place) {
        member_of_self(alloc, reading, at, member)
    } else {
        place_letters(alloc, reading, at, place)
    }
}

/// Both sides of an operator.
fn operands(alloc: Global, operator: BinaryOperator, a: Body, b: Body) -> Result<Body, AllocError>
    ensures { IfOk result (λ r. body_of r ≡ spec.operands operator (body_of a) (body_of b)) }
{
    if is_short(operator) {
        let second = maybe(alloc, b)?;
        seq(alloc, a, second)
    } else {
        seq(alloc, a, b)
    }
}

/// What an expression spells.
#[cycle(letters)]
pub(crate) fn term_letters(
    alloc: Global,
    reading: &Reading,
    at: Position,
    term: &Term,
) -> Result<Body, AllocError>
    ensures { IfOk result (λ b. body_of b ≡ spec.term_letters (reading_of reading.now) at (term_of term.now)) }
{
    match term {
        Term::Number(_) => Ok(skip()),
        Term::Address(_) => Ok(skip()),
        Term::Bool(_) => Ok(skip()),
        Term::Nil => Ok(skip()),
        Term::String(_) => Ok(skip()),
        Term::Character(_) => Ok(skip()),
        Term::Path(_) => Ok(skip()),
        Term::Meta(_) => Ok(skip()),
        Term::Case(_, _) => Ok(skip()),
        Term::Copy(place) => place_letters(alloc, reading, at, place),
        Term::Take(place) => {
            let other = place_letters(alloc, reading, at, place)?;
            Ok(take_letters(reading, at, place, other))
        }
        Term::Array { items, .. } => terms_letters(alloc, reading, at, items),
        Term::Dictionary { entries, .. } => entries_letters(alloc, reading, at, entries),
        Term::Construct(_, arguments) => arguments_letters(alloc, reading, at, arguments),
        Term::Create(_, arguments) => arguments_letters(alloc, reading, at, arguments),
        Term::Call {
            is_never,
            arguments,
            ..
        } => {
            let parts = arguments_letters(alloc, reading, at, arguments)?;
            seq(alloc, parts, ending(*is_never))
        }
        Term::Builtin {
            member,
            types,
            arguments,
        } => {
            let parts = arguments_letters(alloc, reading, at, arguments)?;
            seq(alloc, parts, ending(is_never_builtin(*member, types)))
        }
        Term::On(place, member) => {
            let receiver = receiver_letters(alloc, reading, at, place, member)?;
            let parts = use_letters(alloc, reading, at, member)?;
            let behind = seq(alloc, parts, ending(ends_path(member)))?;
            seq(alloc, receiver, behind)
        }
        Term::Chain { base, member, .. } => {
            let receiver = place_letters(alloc, reading, at, base)?;
            let parts = use_letters(alloc, reading, at, member)?;
            let behind = maybe(alloc, parts)?;
            seq(alloc, receiver, behind)
        }
        Term::Index { base, index, .. } => {
            let receiver = place_letters(alloc, reading, at, base)?;
            let second = term_letters(alloc, reading, at, index)?;
            seq(alloc, receiver, second)
        }
        Term::Hold { value, body, .. } => {
            let first = term_letters(alloc, reading, at, value)?;
            let second = term_letters(alloc, reading, at, body)?;
            seq(alloc, first, second)
        }
        Term::Destroy(value) => term_letters(alloc, reading, at, value),
        Term::Borrow { place, .. } => place_letters(alloc, reading, at, place),
        Term::Unary(_, value) => term_letters(alloc, reading, at, value),
        Term::Force(value) => term_letters(alloc, reading, at, value),
        Term::Cast(_, value, _) => term_letters(alloc, reading, at, value),
        Term::Binary(operator, a, b) => {
            let first = term_letters(alloc, reading, at, a)?;
            let second = term_letters(alloc, reading, at, b)?;
            operands(alloc, *operator, first, second)
        }
        Term::Coalesce { left, right, .. } => {
            let first = term_letters(alloc, reading, at, left)?;
            let second = term_letters(alloc, reading, at, right)?;
            let behind = maybe(alloc, second)?;
            seq(alloc, first, behind)
        }
        Term::IsNil { place, .. } => place_letters(alloc, reading, at, place),
        Term::Conditional(test, a, b) => {
            let first = term_letters(alloc, reading, at, test)?;
            let left = term_letters(alloc, reading, at, a)?;
            let right = term_letters(alloc, reading, at, b)?;
            let branch = either(alloc, left, right)?;
            seq(alloc, first, branch)
        }
        Term::Before(_) => Ok(skip()),
    }
}

/// What expressions spell, one behind the other.
#[cycle(letters)]
fn terms_letters(
    alloc: Global,
    reading: &Reading,
    at: Position,
    all: &[Term],
) -> Result<Body, AllocError>
    ensures { IfOk result (λ b. body_of b ≡ spec.terms_letters (reading_of reading.now) at (tree.terms_of (map term_of all.now))) }
{
    let mut items = Vec::new(alloc);
    for term in all {
        let part = term_letters(alloc, reading, at, term)?;
        push_do(&mut items, part)?;
    }
    Ok(block(items))
}

/// What arguments spell, one behind the other.
#[cycle(letters)]
pub(crate) fn arguments_letters(
    alloc: Global,
    reading: &Reading,
    at: Position,
    all: &[Argument],
) -> Result<Body, AllocError>
    ensures { IfOk result (λ b. body_of b ≡ spec.arguments_letters (reading_of reading.now) at (tree.arguments_of (map argument_of all.now))) }
{
    let mut items = Vec::new(alloc);
    for argument in all {
        let part = argument_letters(alloc, reading, at, argument)?;
        push_do(&mut items, part)?;
    }
    Ok(block(items))
}

/// What keys and values spell, one behind the other.
#[cycle(letters)]
fn entries_letters(
    alloc: Global,
    reading: &Reading,
    at: Position,
    all: &[TermEntry],
) -> Result<Body, AllocError>
    ensures { IfOk result (λ b. body_of b ≡ spec.entries_letters (reading_of reading.now) at (tree.entries_of (map pair_of all.now))) }
{
    let mut items = Vec::new(alloc);
    for entry in all {
        let key = key_letters(alloc, reading, at, entry)?;
        push_do(&mut items, key)?;
        let value = value_letters(alloc, reading, at, entry)?;
        push_do(&mut items, value)?;
    }
    Ok(block(items))
}

/// What an argument spells.
#[cycle(letters)]
fn argument_letters(
    alloc: Global,
    reading: &Reading,
    at: Position,
    argument: &Argument,
) -> Result<Body, AllocError>
    ensures { IfOk result (λ b. body_of b ≡ spec.term_letters (reading_of reading.now) at (argument_of argument.now).value) }
{
    term_letters(alloc, reading, at, &argument.value)
}

/// What a key spells.
#[cycle(letters)]
fn key_letters(
    alloc: Global,
    reading: &Reading,
    at: Position,
    entry: &TermEntry,
) -> Result<Body, AllocError>
    ensures { IfOk result (λ b. body_of b ≡ spec.term_letters (reading_of reading.now) at (pair_of entry.now).key) }
{
    term_letters(alloc, reading, at, &entry.key)
}

/// What a value under a key spells.
#[cycle(letters)]
fn value_letters(
    alloc: Global,
    reading: &Reading,
    at: Position,
    entry: &TermEntry,
) -> Result<Body, AllocError>
    ensures { IfOk result (λ b. body_of b ≡ spec.term_letters (reading_of reading.now) at (pair_of entry.now).value) }
{
    term_letters(alloc, reading, at, &entry.value)
}
