// When two keys of dictionaries are the same.
ghost use Rattle.std.specs.Prelude.{◌≡◌, ◌==◌, IfOk, map};
ghost use Rattle.std.specs.Cmp.Lexicographic.{pointwise};
ghost use Rattle.cad_keys.specs.Sameness.{case_number, number_in_key, same_as_case, same_case};
ghost use Rattle.cad_syntax.specs.Types.{pure_type};
ghost use Rattle.cad_text.specs.Texts.{normal_form};
ghost use Rattle.cad_values.specs.Values.{pure_value, pure_field, fields_of};
ghost use Rattle.cad_world.specs.Same as spec;
ghost use Rattle.cad_types.specs.Basics.{kind_number};

use cad_syntax::{CadType, Domain, Kind, Name, Num, Path, TypeId};
use cad_values::{CompositeField, Value};
use std::alloc::{AllocError, Global};

/// Whether two kinds are one.
fn is_same_kind(a: Kind, b: Kind) -> bool
    ensures { result ≡ (kind_number a == kind_number b) }
{
    a == b
}

/// Whether two names are one.
fn is_same_name(a: &Name, b: &Name) -> bool
    ensures { result ≡ pointwise ◌==◌ a.now.0 b.now.0 }
{
    a.0.as_str() == b.0.as_str()
}

/// Whether two truths are one.
fn is_same_truth(x: bool, y: bool) -> bool
    ensures { result ≡ spec.same_truth x y }
{
    x == y
}

/// Whether two numbers are of one kind and equal.
pub fn is_same_number(x: Num, y: Num) -> bool
    ensures { result ≡ spec.same_number x y }
{
    is_same_kind(x.kind, y.kind)
        && is_same_truth(x.negative, y.negative)
        && x.magnitude == y.magnitude
}

/// Whether two domains are one.
fn is_same_domain(x: Domain, y: Domain) -> bool
    ensures { result ≡ spec.same_domain x y }
{
    match x {
        Domain::Storage => matches!(y, Domain::Storage),
        Domain::Public => matches!(y, Domain::Public),
    }
}

/// Whether two paths are one.
fn is_same_path(x: &Path, y: &Path) -> bool
    ensures { result ≡ spec.same_path x.now y.now }
{
    is_same_domain(x.domain, y.domain) && is_same_name(&x.identifier, &y.identifier)
}

/// Whether two types are one.
fn is_same_type(x: &CadType, y: &CadType) -> bool
    ensures { result ≡ spec.same_type (pure_type x.now) (pure_type y.now) }
{
    x.same(y)
}

/// Whether two texts have one NFC form. Texts of ASCII letters alone are their own, and most keys are such.
#[tactic(auto, using(crate::proofs::Tests::texts_by))]
fn is_same_text(alloc: Global, x: &str, y: &str) -> Result<bool, AllocError>
    ensures { IfOk result (λ is. is ≡ spec.same_text (normal_form x.now) (normal_form y.now)) }
{
    if x.is_ascii() && y.is_ascii() {
        return Ok(x == y);
    }
    cad_text::equal(alloc, x, y)
}

/// The number that a value is.
fn number_in(value: &Value) -> Option<Num>
    ensures { result ≡ number_in_key (pure_value value.now) }
{
    match value {
        Value::Number(x) => Some(*x),
        _ => None,
    }
}

/// The number in a field.
fn field_number(field: &CompositeField) -> Option<Num>
    ensures { result ≡ number_in_key (pure_field field.now).value }
{
    number_in(&field.value)
}

/// The number of a case of an enum: its one field.
#[tactic(auto, using(crate::proofs::Tests::case_of_more))]
pub(crate) fn number_of_case(fields: &[CompositeField]) -> Option<Num>
    ensures { result ≡ case_number (fields_of (map pure_field fields.now)) }
{
    match fields {
        [field] => field_number(field),
        _ => None,
    }
}

/// Whether two cases of enums, by their numbers, are the same.
pub fn is_same_case(x: &TypeId, n: Option<Num>, y: &TypeId, m: Option<Num>) -> bool
    ensures { result ≡ same_case x.now n y.now m }
{
    match n {
        None => false,
        Some(v) => match m {
            None => false,
            Some(w) => x.same(y) && is_same_number(v, w),
        },
    }
}

/// Whether a case of an enum is that value.
fn is_case(x: &TypeId, n: Option<Num>, b: &Value) -> bool
    ensures { result ≡ same_as_case x.now n (pure_value b.now) }
{
    match b {
        Value::Composite { id, fields, .. } => {
            is_same_case(x, n, id, number_of_case(fields.as_slice()))
        }
        _ => false,
    }
}

/// Whether two keys of a dictionary are the same: texts and characters by their NFC forms, cases of an enum by their
/// numbers. False of what is no key.
#[tactic(auto, using(crate::proofs::Tests::composite_key))]
pub fn same_key(alloc: Global, a: &Value, b: &Value) -> Result<bool, AllocError>
    ensures { IfOk result (λ is. is ≡ spec.same_key (pure_value a.now) (pure_value b.now)) }
{
    match a {
        Value::Bool(x) => match b {
            Value::Bool(y) => Ok(is_same_truth(*x, *y)),
            _ => Ok(false),
        },
        Value::Number(x) => match b {
            Value::Number(y) => Ok(is_same_number(*x, *y)),
            _ => Ok(false),
        },
        Value::String(x) => match b {
            Value::String(y) => is_same_text(alloc, x.as_str(), y.as_str()),
            _ => Ok(false),
        },
        Value::Character(x) => match b {
            Value::Character(y) => is_same_text(alloc, x.as_str(), y.as_str()),
            _ => Ok(false),
        },
        Value::Address(x) => match b {
            Value::Address(y) => Ok(x.0 == y.0),
            _ => Ok(false),
        },
        Value::Path(x) => match b {
            Value::Path(y) => Ok(is_same_path(x, y)),
            _ => Ok(false),
        },
        Value::Meta(x) => match b {
            Value::Meta(y) => Ok(is_same_type(x, y)),
            _ => Ok(false),
        },
        Value::Composite { id, fields, .. } => {
            Ok(is_case(id, number_of_case(fields.as_slice()), b))
        }
        _ => Ok(false),
    }
}
