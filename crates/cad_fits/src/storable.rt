// Which values can be stored. The walk goes as deep as the value is high.
ghost use Rattle.std.specs.Prelude.{◌≡◌, ◌&&◌, map};
ghost use Rattle.cad_values.specs.Forms as spec;
ghost use Rattle.cad_values.specs.Values.{pure_value, pure_field, pure_entry, values_of, entries_of, fields_of};

use cad_values::{CompositeField, DictionaryEntry, Value};

/// Whether a value can be stored: whether nothing in it, at any depth, is Void or a reference.
#[cycle(stores)]
pub fn is_storable(value: &Value) -> bool
    ensures { result ≡ spec.is_storable_value (pure_value value.now) }
{
    match value {
        Value::Some(content) => is_storable(content),
        Value::Array { values, .. } => values_are_storable(values.as_slice()),
        Value::Dictionary { entries, .. } => entries_are_storable(entries.as_slice()),
        Value::Composite { fields, .. } => fields_are_storable(fields.as_slice()),
        Value::Void | Value::Reference(_) => false,
        _ => true,
    }
}

#[cycle(stores)]
fn values_are_storable(values: &[Value]) -> bool
    ensures { result ≡ spec.all_values spec.is_plain_storable (values_of (map pure_value values.now)) }
{
    for value in values {
        if !is_storable(value) {
            return false;
        }
    }
    true
}

#[cycle(stores)]
fn entry_is_storable(entry: &DictionaryEntry) -> bool
    ensures { result ≡ (spec.is_storable_value (pure_entry entry.now).key && spec.is_storable_value (pure_entry entry.now).value) }
{
    is_storable(&entry.key) && is_storable(&entry.value)
}

#[cycle(stores)]
fn entries_are_storable(entries: &[DictionaryEntry]) -> bool
    ensures { result ≡ spec.all_entries spec.is_plain_storable (entries_of (map pure_entry entries.now)) }
{
    for entry in entries {
        if !entry_is_storable(entry) {
            return false;
        }
    }
    true
}

#[cycle(stores)]
fn fields_are_storable(fields: &[CompositeField]) -> bool
    ensures { result ≡ spec.all_fields spec.is_plain_storable (fields_of (map pure_field fields.now)) }
{
    for field in fields {
        if !is_storable(&field.value) {
            return false;
        }
    }
    true
}
