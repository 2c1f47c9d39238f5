// How much a value weighs, how high it is, and the identities in it. Each walks as deep as the value is high.
ghost use Rattle.std.specs.Prelude.{◌≡◌, ◌++◌, ◌^◌, ◌-◌, map, min, max, OnOk, IfOk};
ghost use Rattle.cad_values.specs.Values.{pure_value, pure_field, pure_entry, values_of, entries_of, fields_of};
ghost use Rattle.cad_values.specs.Sizes as spec;

use crate::value::{CompositeField, DictionaryEntry, Value};
use cad_syntax::Numbers;
use std::alloc::{AllocError, Global};

/// What a text weighs.
fn text_weight(text: &str) -> u64
    ensures { result ≡ spec.text_weight text.now }
{
    1 + (text.len() as u64).div_ceil(256)
}

/// What a value weighs: 1 if it is plain, a text 1 and one for each started 256 bytes, an optional what its content does,
/// and a container or composite 1 more than all its parts. 2^64-1 where it is more.
#[cycle(weights)]
pub fn weight(value: &Value) -> u64
    ensures { result ≡ min (spec.weight (pure_value value.now)) (2 ^ 64 - 1) }
{
    match value {
        Value::Some(content) => weight(content),
        Value::String(text) => text_weight(text.as_str()),
        Value::Array { values, .. } => values_weight(values.as_slice()).saturating_add(1),
        Value::Dictionary { entries, .. } => entries_weight(entries.as_slice()).saturating_add(1),
        Value::Composite { fields, .. } => fields_weight(fields.as_slice()).saturating_add(1),
        _ => 1,
    }
}

#[cycle(weights)]
fn values_weight(values: &[Value]) -> u64
    ensures { result ≡ min (spec.values_weight (values_of (map pure_value values.now))) (2 ^ 64 - 1) }
{
    let mut total = 0u64;
    for value in values {
        total = total.saturating_add(weight(value));
    }
    total
}

#[cycle(weights)]
fn entries_weight(entries: &[DictionaryEntry]) -> u64
    ensures { result ≡ min (spec.entries_weight (entries_of (map pure_entry entries.now))) (2 ^ 64 - 1) }
{
    let mut total = 0u64;
    for entry in entries {
        let key = weight(&entry.key);
        total = total.saturating_add(key.saturating_add(weight(&entry.value)));
    }
    total
}

#[cycle(weights)]
fn fields_weight(fields: &[CompositeField]) -> u64
    ensures { result ≡ min (spec.fields_weight (fields_of (map pure_field fields.now))) (2 ^ 64 - 1) }
{
    let mut total = 0u64;
    for field in fields {
        total = total.saturating_add(weight(&field.value));
    }
    total
}

/// How high a value is: 1 where nothing is inside, and one more than its highest part else. 2^64-1 where it is more.
#[cycle(heights)]
pub fn height(value: &Value) -> u64
    ensures { result ≡ min (spec.height (pure_value value.now)) (2 ^ 64 - 1) }
{
    match value {
        Value::Some(content) => height(content).saturating_add(1),
        Value::Array { values, .. } => values_height(values.as_slice()).saturating_add(1),
        Value::Dictionary { entries, .. } => entries_height(entries.as_slice()).saturating_add(1),
        Value::Composite { fields, .. } => fields_height(fields.as_slice()).saturating_add(1),
        _ => 1,
    }
}

#[cycle(heights)]
fn values_height(values: &[Value]) -> u64
    ensures { result ≡ min (spec.values_height (values_of (map pure_value values.now))) (2 ^ 64 - 1) }
{
    let mut highest = 0u64;
    for value in values {
        highest = highest.max(height(value));
    }
    highest
}

#[cycle(heights)]
fn entries_height(entries: &[DictionaryEntry]) -> u64
    ensures { result ≡ min (spec.entries_height (entries_of (map pure_entry entries.now))) (2 ^ 64 - 1) }
{
    let mut highest = 0u64;
    for entry in entries {
        let key = height(&entry.key);
        highest = highest.max(key.max(height(&entry.value)));
    }
    highest
}

#[cycle(heights)]
fn fields_height(fields: &[CompositeField]) -> u64
    ensures { result ≡ min (spec.fields_height (fields_of (map pure_field fields.now))) (2 ^ 64 - 1) }
{
    let mut highest = 0u64;
    for field in fields {
        highest = highest.max(height(&field.value));
    }
    highest
}

/// The identities of the resources in a value, that of the outer one before those inside.
pub fn identities(alloc: Global, value: &Value) -> Result<Numbers, AllocError>
    ensures { IfOk result (λ found. found ≡ spec.identities (pure_value value.now)) }
{
    let mut found = Numbers::new(alloc);
    add_identities(&mut found, value)?;
    Ok(found)
}

/// Appends a composite's own identity, if it has one.
fn add_own(found: &mut Numbers, identity: u64) -> Result<(), AllocError>
    ensures { OnOk result (found.new ≡ found.old ++ spec.own_identity identity) }
{
    if identity == 0 {
        return Ok(());
    }
    found.push(identity)
}

/// Appends the identities in a value.
#[cycle(found)]
fn add_identities(found: &mut Numbers, value: &Value) -> Result<(), AllocError>
    ensures { OnOk result (found.new ≡ found.old ++ spec.identities (pure_value value.now)) }
{
    match value {
        Value::Some(content) => add_identities(found, content),
        Value::Array { values, .. } => add_of_values(found, values.as_slice()),
        Value::Dictionary { entries, .. } => add_of_entries(found, entries.as_slice()),
        Value::Composite {
            identity,
            fields,
            ..
        } => {
            add_own(found, *identity)?;
            add_of_fields(found, fields.as_slice())
        }
        _ => Ok(()),
    }
}

#[cycle(found)]
fn add_of_values(found: &mut Numbers, values: &[Value]) -> Result<(), AllocError>
    ensures { OnOk result (found.new ≡ found.old ++ spec.values_identities (values_of (map pure_value values.now))) }
{
    for value in values {
        add_identities(found, value)?;
    }
    Ok(())
}

#[cycle(found)]
fn add_of_entries(found: &mut Numbers, entries: &[DictionaryEntry]) -> Result<(), AllocError>
    ensures { OnOk result (found.new ≡ found.old ++ spec.entries_identities (entries_of (map pure_entry entries.now))) }
{
    for entry in entries {
        add_identities(found, &entry.key)?;
        add_identities(found, &entry.value)?;
    }
    Ok(())
}

#[cycle(found)]
fn add_of_fields(found: &mut Numbers, fields: &[CompositeField]) -> Result<(), AllocError>
    ensures { OnOk result (found.new ≡ found.old ++ spec.fields_identities (fields_of (map pure_field fields.now))) }
{
    for field in fields {
        add_identities(found, &field.value)?;
    }
    Ok(())
}
