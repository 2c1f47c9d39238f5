// What stands in a value, at any depth. Each walk goes as deep as the value is high.
ghost use Rattle.std.specs.Prelude.{◌≡◌, ◌&&◌, map};
ghost use Rattle.cad_values.specs.Forms as spec;
ghost use Rattle.cad_values.specs.Values.{pure_value, pure_field, pure_entry, values_of, entries_of, fields_of};

use crate::value::{CompositeField, DictionaryEntry, Value};

/// Whether no reference stands in a value.
#[cycle(lasting)]
pub fn has_no_reference(value: &Value) -> bool
    ensures { result ≡ spec.has_no_reference (pure_value value.now) }
{
    match value {
        Value::Some(content) => has_no_reference(content),
        Value::Array { values, .. } => none_in_values(values.as_slice()),
        Value::Dictionary { entries, .. } => none_in_entries(entries.as_slice()),
        Value::Composite { fields, .. } => none_in_fields(fields.as_slice()),
        Value::Reference(_) => false,
        _ => true,
    }
}

#[cycle(lasting)]
fn none_in_values(values: &[Value]) -> bool
    ensures { result ≡ spec.all_values spec.is_plain_lasting (values_of (map pure_value values.now)) }
{
    for value in values {
        if !has_no_reference(value) {
            return false;
        }
    }
    true
}

#[cycle(lasting)]
fn none_in_entry(entry: &DictionaryEntry) -> bool
    ensures { result ≡ (spec.has_no_reference (pure_entry entry.now).key && spec.has_no_reference (pure_entry entry.now).value) }
{
    has_no_reference(&entry.key) && has_no_reference(&entry.value)
}

#[cycle(lasting)]
fn none_in_entries(entries: &[DictionaryEntry]) -> bool
    ensures { result ≡ spec.all_entries spec.is_plain_lasting (entries_of (map pure_entry entries.now)) }
{
    for entry in entries {
        if !none_in_entry(entry) {
            return false;
        }
    }
    true
}

#[cycle(lasting)]
fn none_in_fields(fields: &[CompositeField]) -> bool
    ensures { result ≡ spec.all_fields spec.is_plain_lasting (fields_of (map pure_field fields.now)) }
{
    for field in fields {
        if !has_no_reference(&field.value) {
            return false;
        }
    }
    true
}
