// Whether keys differ, by a set of their bytes.
ghost use Rattle.std.specs.Prelude.{◌≡◌, ◌↔◌, ◌∷◌, map, IfOk, IsTrue};
ghost use Rattle.std.specs.List.{All};
ghost use Rattle.cad_codec.specs.Code.Seen.{Adds};
ghost use Rattle.cad_text.specs.Texts.{normal_form};
ghost use Rattle.cad_values.specs.Values.{pure_value, pure_entry, entries_of};
ghost use Rattle.cad_fits.specs.Table as spec;

use crate::part::{is_number, is_one_character, is_text};
use cad_codec::{DecodeError, decode, encode};
use cad_syntax::{Bytes, Path, Text};
use cad_values::{DictionaryEntry, Value, has_no_reference, same};
use std::alloc::{AllocError, Global};
use std::collections::BTreeSet;
use unicode_normalization::to_nfc;

/// Whether a text is one cluster, and as short as texts are.
fn is_short_character(text: &Text) -> bool
    ensures { result ≡ spec.is_short_character text.now }
{
    is_text(text) && is_one_character(text)
}

/// Whether a path's identifier is as short as texts are.
fn is_short_path(path: &Path) -> bool
    ensures { result ≡ spec.is_short_path path.now }
{
    is_text(&path.identifier.0)
}

/// Whether a key is one whose bytes tell it from others, as is seen without reading them.
fn is_simple(key: &Value) -> bool
    ensures { result ≡ spec.is_simple (pure_value key.now) }
{
    match key {
        Value::String(text) => is_text(text),
        Value::Character(text) => is_short_character(text),
        Value::Number(number) => is_number(*number),
        Value::Bool(_) => true,
        Value::Path(path) => is_short_path(path),
        _ => false,
    }
}

/// Whether a value is a key, which it isn't wanted for any longer.
fn is_key(again: Value, key: &Value) -> bool
    ensures { IsTrue result ↔ (pure_value again ≡ pure_value key.now) }
{
    let is = same(&again, key);
    drop(again);
    is
}

/// Whether a key is what is read from its bytes.
#[tactic(auto, using(crate::proofs::Simple::read_told))]
fn is_read_back(alloc: Global, key: &Value) -> Result<bool, AllocError>
    ensures { IfOk result (λ b. IsTrue b → spec.IsTold (pure_value key.now)) }
{
    if !has_no_reference(key) {
        return Ok(false);
    }
    let bytes = encode(alloc, key)?;
    match decode(alloc, bytes.as_slice()) {
        Ok(again) => Ok(is_key(again, key)),
        Err(DecodeError::Damaged) => Ok(false),
        Err(DecodeError::Memory) => Err(AllocError),
    }
}

/// Whether the bytes of a key tell it from others.
#[tactic(auto, using(crate::proofs::Simple::simple_told))]
fn is_told(alloc: Global, key: &Value) -> Result<bool, AllocError>
    ensures { IfOk result (λ b. IsTrue b → spec.IsTold (pure_value key.now)) }
{
    if is_simple(key) {
        return Ok(true);
    }
    is_read_back(alloc, key)
}

/// Whether the bytes of an entry's key tell it from others.
fn has_told_key(alloc: Global, entry: &DictionaryEntry) -> Result<bool, AllocError>
    ensures { IfOk result (λ b. IsTrue b → spec.HasToldKey entry.now) }
{
    is_told(alloc, &entry.key)
}

/// Whether the bytes of all keys tell them apart.
pub fn are_told(alloc: Global, entries: &[DictionaryEntry]) -> Result<bool, AllocError>
    ensures { IfOk result (λ b. IsTrue b → All spec.HasToldKey entries.now) }
{
    for entry in entries {
        if !has_told_key(alloc, entry)? {
            return Ok(false);
        }
    }
    Ok(true)
}

/// A byte, and the NFC form of a text.
fn text_key(alloc: Global, form: u8, text: &Text) -> Result<Bytes, AllocError>
    ensures { IfOk result (λ bytes. bytes ≡ form ∷ normal_form text.now) }
{
    let normal = to_nfc(alloc, text.as_str())?;
    let mut bytes = Vec::with_capacity(alloc, normal.len().saturating_add(1))?;
    bytes.push(form)?;
    bytes.extend_from_slice(normal.as_bytes())?;
    Ok(Bytes::from_vec(bytes))
}

/// The bytes of a key that is neither a text nor a character; none of one with a reference in it.
#[tactic(auto, unfolding(crate::specs::Table::plain_bytes))]
fn plain_bytes(alloc: Global, key: &Value) -> Result<Bytes, AllocError>
    ensures { IfOk result (λ bytes. bytes ≡ spec.plain_bytes (pure_value key.now)) }
{
    if has_no_reference(key) {
        return encode(alloc, key);
    }
    Ok(Bytes::new(alloc))
}

/// The bytes by which a key is told from others.
fn key_bytes(alloc: Global, key: &Value) -> Result<Bytes, AllocError>
    ensures { IfOk result (λ bytes. bytes ≡ spec.key_bytes (pure_value key.now)) }
{
    match key {
        Value::String(text) => text_key(alloc, 5, text),
        Value::Character(text) => text_key(alloc, 6, text),
        _ => plain_bytes(alloc, key),
    }
}

/// The bytes of an entry's key.
fn entry_bytes(alloc: Global, entry: &DictionaryEntry) -> Result<Bytes, AllocError>
    ensures { IfOk result (λ bytes. bytes ≡ spec.key_bytes (pure_entry entry.now).key) }
{
    key_bytes(alloc, &entry.key)
}

/// Adds a key to those seen before. Tells whether it is new.
fn add_key(seen: &mut BTreeSet<Vec<u8>>, key: Bytes) -> Result<bool, AllocError>
    ensures { IfOk result (λ added. Adds seen.old seen.new key added) }
{
    match seen.insert(key.into_vec()) {
        Ok(added) => Ok(added),
        Err(_) => Err(AllocError),
    }
}

/// Whether no two keys have the same bytes.
pub fn bytes_differ(alloc: Global, entries: &[DictionaryEntry]) -> Result<bool, AllocError>
    ensures { IfOk result (λ differ. differ ≡ spec.bytes_differ (map pure_entry entries.now)) }
{
    let mut seen = BTreeSet::new(alloc);
    for entry in entries {
        let key = entry_bytes(alloc, entry)?;
        if !add_key(&mut seen, key)? {
            return Ok(false);
        }
    }
    Ok(true)
}
