// Equality of values, and of keys.
ghost use Rattle.std.specs.Prelude.{◌≡◌, ◌↔◌, map, IsTrue, IfOk};
ghost use Rattle.cad_syntax.specs.Types.{pure_type};
ghost use Rattle.cad_values.specs.Values.{pure_value, pure_field, pure_entry, values_of, entries_of, fields_of};
ghost use Rattle.cad_values.specs.Keys.{SameKey};

use crate::value::{CompositeField, DictionaryEntry, Value};
use cad_syntax::Num;
use cad_text::equal;
use std::alloc::{AllocError, Global};

/// Whether two values are one.
#[cycle(sames)]
pub fn same(a: &Value, b: &Value) -> bool
    ensures { IsTrue result ↔ (pure_value a.now ≡ pure_value b.now) }
{
    match a {
        Value::Void => matches!(b, Value::Void),
        Value::Nil => matches!(b, Value::Nil),
        Value::Some(x) => match b {
            Value::Some(y) => same(x, y),
            _ => false,
        },
        Value::Bool(x) => match b {
            Value::Bool(y) => x == y,
            _ => false,
        },
        Value::Number(x) => match b {
            Value::Number(y) => same_number(*x, *y),
            _ => false,
        },
        Value::String(x) => match b {
            Value::String(y) => x == y,
            _ => false,
        },
        Value::Character(x) => match b {
            Value::Character(y) => x == y,
            _ => false,
        },
        Value::Address(x) => match b {
            Value::Address(y) => x == y,
            _ => false,
        },
        Value::Path(x) => match b {
            Value::Path(y) => x == y,
            _ => false,
        },
        Value::Meta(x) => match b {
            Value::Meta(y) => x.same(y),
            _ => false,
        },
        Value::Capability(x) => match b {
            Value::Capability(y) => x.address == y.address
                && x.id == y.id
                && x.borrow.same(&y.borrow),
            _ => false,
        },
        Value::Array { element, values } => match b {
            Value::Array {
                element: other,
                values: others,
            } => element.same(other) && same_values(values.as_slice(), others.as_slice()),
            _ => false,
        },
        Value::Dictionary {
            key,
            value,
            entries,
        } => match b {
            Value::Dictionary {
                key: other_key,
                value: other_value,
                entries: others,
            } => {
                key.same(other_key)
                    && value.same(other_value)
                    && same_entries(entries.as_slice(), others.as_slice())
            }
            _ => false,
        },
        Value::Composite {
            id,
            identity,
            fields,
        } => match b {
            Value::Composite {
                id: other_id,
                identity: other_identity,
                fields: others,
            } => {
                id.same(other_id)
                    && identity == other_identity
                    && same_fields(fields.as_slice(), others.as_slice())
            }
            _ => false,
        },
        Value::Reference(x) => match b {
            Value::Reference(y) => {
                x.authorization.same(&y.authorization) && x.target.same(&y.target) && x.to == y.to
            }
            _ => false,
        },
    }
}

/// Whether two numbers are one.
#[tactic(auto, using(crate::proofs::Nums::same_num))]
fn same_number(a: Num, b: Num) -> bool
    ensures { IsTrue result ↔ (a ≡ b) }
{
    a == b
}

#[cycle(sames)]
fn same_entry(a: &DictionaryEntry, b: &DictionaryEntry) -> bool
    ensures { IsTrue result ↔ (pure_entry a.now ≡ pure_entry b.now) }
{
    same(&a.key, &b.key) && same(&a.value, &b.value)
}

#[cycle(sames)]
fn same_field(a: &CompositeField, b: &CompositeField) -> bool
    ensures { IsTrue result ↔ (pure_field a.now ≡ pure_field b.now) }
{
    a.name == b.name && same(&a.value, &b.value)
}

#[cycle(sames)]
#[tactic(auto, using(crate::proofs::Lengths::differ_values))]
fn same_values(a: &[Value], b: &[Value]) -> bool
    ensures { IsTrue result ↔ (values_of (map pure_value a.now) ≡ values_of (map pure_value b.now)) }
{
    if a.len() != b.len() {
        return false;
    }
    for i in 0..a.len() {
        if !same(&a[i], &b[i]) {
            return false;
        }
    }
    true
}

#[cycle(sames)]
#[tactic(auto, using(crate::proofs::Lengths::differ_entries))]
fn same_entries(a: &[DictionaryEntry], b: &[DictionaryEntry]) -> bool
    ensures { IsTrue result ↔ (entries_of (map pure_entry a.now) ≡ entries_of (map pure_entry b.now)) }
{
    if a.len() != b.len() {
        return false;
    }
    for i in 0..a.len() {
        if !same_entry(&a[i], &b[i]) {
            return false;
        }
    }
    true
}

#[cycle(sames)]
#[tactic(auto, using(crate::proofs::Lengths::differ_fields))]
fn same_fields(a: &[CompositeField], b: &[CompositeField]) -> bool
    ensures { IsTrue result ↔ (fields_of (map pure_field a.now) ≡ fields_of (map pure_field b.now)) }
{
    if a.len() != b.len() {
        return false;
    }
    for i in 0..a.len() {
        if !same_field(&a[i], &b[i]) {
            return false;
        }
    }
    true
}

/// Whether two keys of a dictionary are the same: two texts or two characters with one NFC form, or one value.
pub fn same_key(alloc: Global, a: &Value, b: &Value) -> Result<bool, AllocError>
    ensures { IfOk result (λ same. IsTrue same ↔ SameKey (pure_value a.now) (pure_value b.now)) }
{
    match a {
        Value::String(x) => match b {
            Value::String(y) => equal(alloc, x.as_str(), y.as_str()),
            _ => Ok(false),
        },
        Value::Character(x) => match b {
            Value::Character(y) => equal(alloc, x.as_str(), y.as_str()),
            _ => Ok(false),
        },
        _ => match b {
            Value::String(_) | Value::Character(_) => Ok(false),
            _ => Ok(same(a, b)),
        },
    }
}
