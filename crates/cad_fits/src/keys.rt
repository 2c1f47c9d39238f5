// Whether the keys of dictionaries differ. The walk goes as deep as the value is high.
ghost use Rattle.std.specs.Prelude.{◌≡◌, ◌≢◌, ◌↔◌, IsTrue, IfOk, map, drop};
ghost use Rattle.std.specs.List.{AllByRecursion};
ghost use Rattle.cad_values.specs.Keys.{key_form, KeysDiffer};
ghost use Rattle.cad_values.specs.Values.{pure_value, pure_field, pure_entry, values_of, entries_of, fields_of, keys};
ghost use Rattle.cad_fits.specs.Keys as spec;

use crate::table::{are_told, bytes_differ};
use cad_values::{CompositeField, DictionaryEntry, Value, same_key};
use std::alloc::{AllocError, Global};

/// Whether two entries have one key.
fn has_key(
    alloc: Global,
    entry: &DictionaryEntry,
    other: &DictionaryEntry,
) -> Result<bool, AllocError>
    ensures { IfOk result (λ b. IsTrue b ↔ (key_form (pure_entry entry.now).key ≡ key_form (pure_entry other.now).key)) }
{
    same_key(alloc, &entry.key, &other.key)
}

/// Whether no entry from some place on has the key of another.
fn lacks(
    alloc: Global,
    entries: &[DictionaryEntry],
    from: usize,
    other: &DictionaryEntry,
) -> Result<bool, AllocError>
    ensures { IfOk result (λ b. IsTrue b ↔ spec.Lacks (key_form (pure_entry other.now).key) (keys (entries_of (map pure_entry (drop from entries.now))))) }
{
    for i in from..entries.len() {
        if has_key(alloc, &entries[i], other)? {
            return Ok(false);
        }
    }
    Ok(true)
}

/// Whether no two entries have one key, by pairs.
fn pairs_differ(alloc: Global, entries: &[DictionaryEntry]) -> Result<bool, AllocError>
    ensures { IfOk result (λ b. IsTrue b ↔ KeysDiffer (keys (entries_of (map pure_entry entries.now)))) }
{
    for i in 0..entries.len() {
        if !lacks(alloc, entries, i + 1, &entries[i])? {
            return Ok(false);
        }
    }
    Ok(true)
}

/// Whether no two entries have one key: by their bytes where those tell, else by pairs.
fn differ(alloc: Global, entries: &[DictionaryEntry]) -> Result<bool, AllocError>
    ensures { IfOk result (λ b. IsTrue b ↔ KeysDiffer (keys (entries_of (map pure_entry entries.now)))) }
{
    let told = are_told(alloc, entries)?;
    if told {
        let differ = bytes_differ(alloc, entries)?;
        return Ok(differ);
    }
    pairs_differ(alloc, entries)
}

/// Whether the keys of each dictionary in a value differ.
#[cycle(apart)]
pub fn apart(alloc: Global, value: &Value) -> Result<bool, AllocError>
    ensures { IfOk result (λ b. IsTrue b ↔ spec.Apart (pure_value value.now)) }
{
    match value {
        Value::Some(content) => apart(alloc, content),
        Value::Array { values, .. } => values_apart(alloc, values.as_slice()),
        Value::Dictionary { entries, .. } => {
            let own = differ(alloc, entries.as_slice())?;
            let inner = entries_apart(alloc, entries.as_slice())?;
            Ok(own && inner)
        }
        Value::Composite { fields, .. } => fields_apart(alloc, fields.as_slice()),
        _ => Ok(true),
    }
}

#[cycle(apart)]
fn values_apart(alloc: Global, values: &[Value]) -> Result<bool, AllocError>
    ensures { IfOk result (λ b. IsTrue b ↔ spec.ValuesApart (values_of (map pure_value values.now))) }
{
    for value in values {
        if !apart(alloc, value)? {
            return Ok(false);
        }
    }
    Ok(true)
}

#[cycle(apart)]
fn entry_apart(alloc: Global, entry: &DictionaryEntry) -> Result<bool, AllocError>
    ensures { IfOk result (λ b. IsTrue b ↔ spec.EntryApart (pure_entry entry.now)) }
{
    let key = apart(alloc, &entry.key)?;
    let value = apart(alloc, &entry.value)?;
    Ok(key && value)
}

#[cycle(apart)]
fn entries_apart(alloc: Global, entries: &[DictionaryEntry]) -> Result<bool, AllocError>
    ensures { IfOk result (λ b. IsTrue b ↔ spec.EntriesApart (entries_of (map pure_entry entries.now))) }
{
    for entry in entries {
        if !entry_apart(alloc, entry)? {
            return Ok(false);
        }
    }
    Ok(true)
}

#[cycle(apart)]
fn field_apart(alloc: Global, field: &CompositeField) -> Result<bool, AllocError>
    ensures { IfOk result (λ b. IsTrue b ↔ spec.Apart (pure_field field.now).value) }
{
    apart(alloc, &field.value)
}

#[cycle(apart)]
fn fields_apart(alloc: Global, fields: &[CompositeField]) -> Result<bool, AllocError>
    ensures { IfOk result (λ b. IsTrue b ↔ spec.FieldsApart (fields_of (map pure_field fields.now))) }
{
    for field in fields {
        if !field_apart(alloc, field)? {
            return Ok(false);
        }
    }
    Ok(true)
}
