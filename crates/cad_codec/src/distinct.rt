// Whether keys and names differ, by a set of those seen before.
ghost use Rattle.std.specs.Prelude.{◌≡◌, ◌++◌, ◌∷◌, [], List, ℕ, map, IfOk};
ghost use Rattle.cad_text.specs.Texts.{normal_form};
ghost use Rattle.cad_values.specs.Values.{pure_value, pure_entry, pure_field};
ghost use Rattle.cad_codec.specs.Code.Values as spec;
ghost use Rattle.cad_codec.specs.Code.Seen.{Holds, Adds};

use crate::writing::write_value;
use cad_syntax::{Bytes, Text};
use cad_values::{CompositeField, DictionaryEntry, Value};
use cad_wire::Writer;
use std::alloc::{AllocError, Global};
use std::collections::BTreeSet;
use unicode_normalization::to_nfc;

/// A byte, and the NFC form of a text.
fn text_key(alloc: Global, form: u8, text: &Text) -> Result<Bytes, AllocError>
    ensures { IfOk result (λ bytes. bytes ≡ form ∷ normal_form text.now) }
{
    let normal = to_nfc(alloc, text.as_str())?;
    let mut bytes = Vec::with_capacity(alloc, normal.len().saturating_add(1))?;
    bytes.push(form)?;
    bytes.extend_from_slice(normal.as_bytes())?;
    Ok(Bytes::from_vec(bytes))
}

/// Bytes that tell which keys are the same.
fn key_bytes(alloc: Global, key: &Value) -> Result<Bytes, AllocError>
    ensures { IfOk result (λ bytes. bytes ≡ spec.key_bytes (pure_value key.now)) }
{
    match key {
        Value::String(text) => text_key(alloc, 5, text),
        Value::Character(text) => text_key(alloc, 6, text),
        _ => {
            let mut writer = Writer::new(alloc);
            write_value(&mut writer, key)?;
            Ok(writer.finish())
        }
    }
}

/// Bytes that tell which entries have the same key.
fn entry_bytes(alloc: Global, entry: &DictionaryEntry) -> Result<Bytes, AllocError>
    ensures { IfOk result (λ bytes. bytes ≡ spec.key_bytes (pure_entry entry.now).key) }
{
    key_bytes(alloc, &entry.key)
}

/// The bytes of a field's name.
fn name_bytes(alloc: Global, field: &CompositeField) -> Result<Bytes, AllocError>
    ensures { IfOk result (λ bytes. bytes ≡ (pure_field field.now).name.0) }
{
    Bytes::from_slice(alloc, field.name.0.as_bytes())
}

/// Adds a key to those seen before. Tells whether it is new.
fn add_key(seen: &mut BTreeSet<Vec<u8>>, key: Bytes) -> Result<bool, AllocError>
    ensures { IfOk result (λ added. Adds seen.old seen.new key added) }
{
    match seen.insert(key.into_vec()) {
        Ok(added) => Ok(added),
        Err(_) => Err(AllocError),
    }
}

/// Whether no two keys of a dictionary are the same.
pub fn keys_differ(alloc: Global, entries: &[DictionaryEntry]) -> Result<bool, AllocError>
    ensures { IfOk result (λ differ. differ ≡ spec.keys_differ (map pure_entry entries.now)) }
{
    let mut seen = BTreeSet::new(alloc);
    for entry in entries {
        let key = entry_bytes(alloc, entry)?;
        if !add_key(&mut seen, key)? {
            return Ok(false);
        }
    }
    Ok(true)
}

/// Whether no two fields have one name.
pub fn names_differ(alloc: Global, fields: &[CompositeField]) -> Result<bool, AllocError>
    ensures { IfOk result (λ differ. differ ≡ spec.names_differ (map pure_field fields.now)) }
{
    let mut seen = BTreeSet::new(alloc);
    for field in fields {
        let name = name_bytes(alloc, field)?;
        if !add_key(&mut seen, name)? {
            return Ok(false);
        }
    }
    Ok(true)
}
