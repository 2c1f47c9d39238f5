// Which values may stand in accounts. Each walk goes as deep as the value is high.
ghost use Rattle.std.specs.Prelude.{◌≡◌, ◌&&◌, map};
ghost use Rattle.cad_values.specs.Forms as spec;
ghost use Rattle.cad_values.specs.Values.{pure_value, pure_entry, values_of, entries_of, fields_of, pure_field};

use cad_values::{CompositeField, DictionaryEntry, Value};

/// Whether nothing in a value, at any depth, is Void or a reference.
#[cycle(storing)]
pub(crate) fn is_storable_value(value: &Value) -> bool
    ensures { result ≡ spec.is_storable_value (pure_value value.now) }
{
    match value {
        Value::Some(content) => is_storable_value(content),
        Value::Array { values, .. } => are_storable(values.as_slice()),
        Value::Dictionary { entries, .. } => are_entries_storable(entries.as_slice()),
        Value::Composite { fields, .. } => are_fields_storable(fields.as_slice()),
        Value::Void => false,
        Value::Reference(_) => false,
        _ => true,
    }
}

/// Whether all of these values may stand in accounts.
#[cycle(storing)]
fn are_storable(values: &[Value]) -> bool
    ensures { result ≡ spec.all_values spec.is_plain_storable (values_of (map pure_value values.now)) }
{
    for value in values {
        if !is_storable_value(value) {
            return false;
        }
    }
    true
}

/// Whether the key and the value of an entry may.
#[cycle(storing)]
fn is_entry_storable(entry: &DictionaryEntry) -> bool
    ensures { result ≡ (spec.is_storable_value (pure_entry entry.now).key && spec.is_storable_value (pure_entry entry.now).value) }
{
    is_storable_value(&entry.key) && is_storable_value(&entry.value)
}

/// Whether all of these entries may.
#[cycle(storing)]
fn are_entries_storable(entries: &[DictionaryEntry]) -> bool
    ensures { result ≡ spec.all_entries spec.is_plain_storable (entries_of (map pure_entry entries.now)) }
{
    for entry in entries {
        if !is_entry_storable(entry) {
            return false;
        }
    }
    true
}

/// Whether the values of all of these fields may.
#[cycle(storing)]
fn are_fields_storable(fields: &[CompositeField]) -> bool
    ensures { result ≡ spec.all_fields spec.is_plain_storable (fields_of (map pure_field fields.now)) }
{
    for field in fields {
        if !is_storable_value(&field.value) {
            return false;
        }
    }
    true
}
