// Which values have a form outside. Each walk goes as deep as the value is high.
ghost use Rattle.std.specs.Prelude.{◌≡◌, ◌&&◌, map};
ghost use Rattle.cad_values.specs.Forms as spec;
ghost use Rattle.cad_values.specs.Values.{pure_value, pure_entry, values_of, entries_of, fields_of, pure_field};

use cad_values::{CompositeField, DictionaryEntry, Value};

/// Whether each part of a value has a form outside.
#[cycle(telling)]
pub fn is_told(value: &Value) -> bool
    ensures { result ≡ spec.is_told (pure_value value.now) }
{
    match value {
        Value::Some(content) => is_told(content),
        Value::Array { values, .. } => are_told(values.as_slice()),
        Value::Dictionary { entries, .. } => are_entries_told(entries.as_slice()),
        Value::Composite { fields, .. } => are_fields_told(fields.as_slice()),
        Value::Meta(_) => false,
        Value::Capability(_) => false,
        Value::Reference(_) => false,
        _ => true,
    }
}

#[cycle(telling)]
fn are_told(values: &[Value]) -> bool
    ensures { result ≡ spec.all_values spec.is_plain_told (values_of (map pure_value values.now)) }
{
    for value in values {
        if !is_told(value) {
            return false;
        }
    }
    true
}

#[cycle(telling)]
fn is_entry_told(entry: &DictionaryEntry) -> bool
    ensures { result ≡ (spec.is_told (pure_entry entry.now).key && spec.is_told (pure_entry entry.now).value) }
{
    is_told(&entry.key) && is_told(&entry.value)
}

#[cycle(telling)]
fn are_entries_told(entries: &[DictionaryEntry]) -> bool
    ensures { result ≡ spec.all_entries spec.is_plain_told (entries_of (map pure_entry entries.now)) }
{
    for entry in entries {
        if !is_entry_told(entry) {
            return false;
        }
    }
    true
}

#[cycle(telling)]
fn are_fields_told(fields: &[CompositeField]) -> bool
    ensures { result ≡ spec.all_fields spec.is_plain_told (fields_of (map pure_field fields.now)) }
{
    for field in fields {
        if !is_told(&field.value) {
            return false;
        }
    }
    true
}
