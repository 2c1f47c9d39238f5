// What is spelled at a single place.
ghost use Rattle.std.specs.Prelude.{◌≡◌, IfOk, map, slice_get};
ghost use Rattle.cad_syntax.specs.Types.{pure_type};
ghost use Rattle.cad_declarations.specs.Views.{place_of, use_of};
ghost use Rattle.cad_paths.specs.Letters as spec;
ghost use Rattle.cad_moves.specs.Views.{body_of, reading_of};

use crate::body::{Body, block, push_do, seq, skip, spelling};
use crate::reading::Reading;
use cad_declarations::{Place, Use};
use cad_grammar::BinaryOperator;
use cad_paths::{FieldRule, Letter, NumberedField, Position};
use cad_syntax::{Basic, CadType, Name};
use cad_types::Builtin;
use std::alloc::{AllocError, Global};

/// Whether two names are one.
fn same_name(a: &Name, b: &Name) -> bool
    ensures { result ≡ spec.same_name a.now b.now }
{
    a == b
}

/// Something is done with a variable.
pub(crate) fn variable_letters(
    reading: &Reading,
    letter: Letter,
    at: Position,
    variable: u64,
) -> Body
    ensures { body_of result ≡ spec.variable_letters (reading_of reading.now) letter at variable }
{
    match reading {
        Reading::Resources => Body::Spell(variable, letter, at),
        Reading::FieldsOfSelf(_) => skip(),
        Reading::FieldsOfTransaction(_) => Body::Spell(variable, Letter::Need, at),
    }
}

/// Each of these fields must have been set.
fn all_needed(alloc: Global, fields: &[FieldRule], at: Position) -> Result<Body, AllocError>
    ensures { IfOk result (λ b. body_of b ≡ spec.all_needed 0 fields.now at) }
{
    let mut items = Vec::new(alloc);
    for i in 0..fields.len() {
        push_do(&mut items, spelling(i as u64, Letter::Need, at))?;
    }
    Ok(block(items))
}

/// `self` other than as the receiver of one of its fields.
pub(crate) fn self_use(alloc: Global, reading: &Reading, at: Position) -> Result<Body, AllocError>
    ensures { IfOk result (λ b. body_of b ≡ spec.self_use (reading_of reading.now) at) }
{
    match reading {
        Reading::Resources => Ok(skip()),
        Reading::FieldsOfSelf(fields) => all_needed(alloc, fields, at),
        Reading::FieldsOfTransaction(_) => Ok(skip()),
    }
}

/// The field of this name.
fn field_named(fields: &[FieldRule], name: &Name) -> Option<NumberedField>
    ensures { result ≡ spec.field_named 0 fields.now name.now }
{
    for i in 0..fields.len() {
        let field = &fields[i];
        if same_name(&field.name, name) {
            return Some(NumberedField {
                number: i as u64,
                is_once: field.is_once,
            });
        }
    }
    None
}

/// The field that was found must have been set, else all must.
fn needed(
    alloc: Global,
    fields: &[FieldRule],
    at: Position,
    found: Option<NumberedField>,
) -> Result<Body, AllocError>
    ensures { IfOk result (λ b. body_of b ≡ spec.needed fields.now at found) }
{
    match found {
        None => all_needed(alloc, fields, at),
        Some(field) => Ok(Body::Spell(field.number, Letter::Need, at)),
    }
}

/// `self.n` is looked at, or replaced.
pub(crate) fn own_field_use(
    alloc: Global,
    reading: &Reading,
    at: Position,
    name: &Name,
) -> Result<Body, AllocError>
    ensures { IfOk result (λ b. body_of b ≡ spec.own_field_use (reading_of reading.now) at name.now) }
{
    match reading {
        Reading::Resources => Ok(skip()),
        Reading::FieldsOfSelf(fields) => needed(alloc, fields, at, field_named(fields, name)),
        Reading::FieldsOfTransaction(_) => Ok(skip()),
    }
}

/// A field is set.
fn setting(alloc: Global, is_once: bool, number: u64, at: Position) -> Result<Body, AllocError>
    ensures { IfOk result (λ b. body_of b ≡ spec.setting is_once number at) }
{
    let set = Body::Spell(number, Letter::Set, at);
    if is_once {
        seq(alloc, Body::Spell(number, Letter::Fresh, at), set)
    } else {
        Ok(set)
    }
}

/// The field that was found is set.
fn set_field(alloc: Global, at: Position, found: Option<NumberedField>) -> Result<Body, AllocError>
    ensures { IfOk result (λ b. body_of b ≡ spec.set_field at found) }
{
    match found {
        None => Ok(skip()),
        Some(field) => setting(alloc, field.is_once, field.number, at),
    }
}

/// `self.n` is assigned to.
pub(crate) fn own_field_set(
    alloc: Global,
    reading: &Reading,
    at: Position,
    name: &Name,
) -> Result<Body, AllocError>
    ensures { IfOk result (λ b. body_of b ≡ spec.own_field_set (reading_of reading.now) at name.now) }
{
    match reading {
        Reading::Resources => Ok(skip()),
        Reading::FieldsOfSelf(fields) => set_field(alloc, at, field_named(fields, name)),
        Reading::FieldsOfTransaction(_) => Ok(skip()),
    }
}

/// The field with this number.
fn numbered(fields: &[FieldRule], variable: u64) -> Option<NumberedField>
    ensures { result ≡ spec.numbered variable (slice_get fields.now variable) }
{
    match fields.get(variable as usize) {
        None => None,
        Some(field) => Some(NumberedField {
            number: variable,
            is_once: field.is_once,
        }),
    }
}

/// A variable is assigned to.
pub(crate) fn variable_set(
    alloc: Global,
    reading: &Reading,
    at: Position,
    variable: u64,
) -> Result<Body, AllocError>
    ensures { IfOk result (λ b. body_of b ≡ spec.variable_set (reading_of reading.now) at variable) }
{
    match reading {
        Reading::Resources => Ok(skip()),
        Reading::FieldsOfSelf(_) => Ok(skip()),
        Reading::FieldsOfTransaction(fields) => set_field(alloc, at, numbered(fields, variable)),
    }
}

/// Whether a place is `self`.
pub fn is_self(place: &Place) -> bool
    ensures { result ≡ spec.is_self (place_of place.now) }
{
    match place {
        Place::Self_ => true,
        _ => false,
    }
}

/// A place whose value leaves it, of which `other` is spelled where it is no variable.
pub(crate) fn take_letters(reading: &Reading, at: Position, place: &Place, other: Body) -> Body
    ensures { body_of result ≡ spec.take_letters (reading_of reading.now) at (place_of place.now) (body_of other) }
{
    match place {
        Place::Variable(number) => variable_letters(reading, Letter::Spend, at, u64::from(*number)),
        Place::Self_ => other,
        Place::Contract(_) => other,
        Place::Target(_) => other,
        Place::Field { .. } => other,
        Place::Element { .. } => other,
        Place::Content { .. } => other,
    }
}

/// Whether a built-in call takes an element out of an array.
fn takes_element(member: Builtin) -> bool
    ensures { result ≡ spec.takes_element member }
{
    match member {
        Builtin::ArrayRemove => true,
        Builtin::ArrayRemoveFirst => true,
        Builtin::ArrayRemoveLast => true,
        _ => false,
    }
}

fn are_never(types: &[CadType]) -> bool
    ensures { result ≡ spec.are_never (map pure_type types.now) }
{
    match types {
        [CadType::Basic(Basic::Never)] => true,
        _ => false,
    }
}

/// Whether the type of a built-in call is `Never`.
pub(crate) fn is_never_builtin(member: Builtin, types: &[CadType]) -> bool
    ensures { result ≡ spec.is_never_builtin member (map pure_type types.now) }
{
    match member {
        Builtin::Panic => true,
        _ => takes_element(member) && are_never(types),
    }
}

/// Whether a use is a call whose type is `Never`.
pub(crate) fn ends_path(member: &Use) -> bool
    ensures { result ≡ spec.ends_path (use_of member.now) }
{
    match member {
        Use::Field { .. } => false,
        Use::Method { is_never, .. } => *is_never,
        Use::BuiltinField(_) => false,
        Use::BuiltinCall { member, types, .. } => is_never_builtin(*member, types),
    }
}

/// Whether an operator evaluates its right side only where it needs it.
pub(crate) fn is_short(operator: BinaryOperator) -> bool
    ensures { result ≡ spec.is_short operator }
{
    match operator {
        BinaryOperator::And => true,
        BinaryOperator::Or => true,
        _ => false,
    }
}

/// A member of `self`.
pub(crate) fn member_of_self(
    alloc: Global,
    reading: &Reading,
    at: Position,
    member: &Use,
) -> Result<Body, AllocError>
    ensures { IfOk result (λ b. body_of b ≡ spec.member_of_self (reading_of reading.now) at (use_of member.now)) }
{
    match member {
        Use::Field { name, .. } => own_field_use(alloc, reading, at, name),
        _ => self_use(alloc, reading, at),
    }
}
