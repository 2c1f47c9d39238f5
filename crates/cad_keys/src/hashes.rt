// Hashes of keys. Keys that are the same have one hash; keys of types as values, and what is no key, have one hash too.
ghost use Rattle.std.specs.Prelude.{◌≡◌, IfOk};
ghost use Rattle.cad_keys.specs.Code.Hashes as spec;
ghost use Rattle.cad_text.specs.Texts.{normal_form};
ghost use Rattle.cad_values.specs.Values.{pure_value};

use crate::same::number_of_case;
use cad_syntax::Num;
use cad_values::Value;
use std::alloc::{AllocError, Global};
use unicode_normalization::to_nfc;

/// An odd number whose multiples differ in their upper halves.
const FACTOR: u64 = 0x9E37_79B9_7F4A_7C15;

/// A hash with one number more.
#[tactic(auto, unfolding(crate::specs::Code::Hashes::with_number))]
fn with_number(hash: u64, number: u64) -> u64
    ensures { result ≡ spec.with_number hash number }
{
    hash.wrapping_mul(FACTOR).wrapping_add(number)
}

/// The upper half of a hash's product with an odd number, by which hashes of equal lower halves are told apart.
#[tactic(auto, unfolding(crate::specs::Code::Hashes::spread))]
fn spread(hash: u64) -> u64
    ensures { result ≡ spec.spread hash }
{
    hash.wrapping_mul(FACTOR) / 0x1_0000_0000
}

/// The hash of bytes.
fn bytes_hash(bytes: &[u8]) -> u64
    ensures { result ≡ spec.with_bytes 0 bytes.now }
{
    let mut hash = 0u64;
    for byte in bytes {
        hash = with_number(hash, u64::from(*byte));
    }
    hash
}

/// The hash of a text: that of its NFC form. Texts of ASCII letters alone are their own.
fn text_hash(alloc: Global, text: &str) -> Result<u64, AllocError>
    ensures { IfOk result (λ hash. hash ≡ spec.with_bytes 0 (normal_form text.now)) }
{
    if text.is_ascii() {
        return Ok(bytes_hash(text.as_bytes()));
    }
    let form = to_nfc(alloc, text)?;
    Ok(bytes_hash(form.as_bytes()))
}

/// The hash of a number, without its kind and its sign.
#[tactic(auto, unfolding(crate::specs::Code::Hashes::magnitude_hash))]
fn magnitude_hash(magnitude: u128) -> u64
    ensures { result ≡ spec.magnitude_hash magnitude }
{
    let upper = (magnitude / 0x1_0000_0000_0000_0000) as u64;
    let lower = (magnitude % 0x1_0000_0000_0000_0000) as u64;
    with_number(upper, lower)
}

/// The hash of a case of an enum.
fn case_hash(number: Option<Num>) -> u64
    ensures { result ≡ spec.case_hash number }
{
    match number {
        Some(number) => magnitude_hash(number.magnitude),
        None => 0,
    }
}

/// The hash of a truth.
fn truth_hash(truth: bool) -> u64
    ensures { result ≡ spec.truth_hash truth }
{
    if truth { 1 } else { 0 }
}

/// The hash of a key before it is spread.
fn raw_hash(alloc: Global, key: &Value) -> Result<u64, AllocError>
    ensures { IfOk result (λ hash. hash ≡ spec.raw_hash (pure_value key.now)) }
{
    match key {
        Value::Bool(truth) => Ok(truth_hash(*truth)),
        Value::Number(number) => Ok(magnitude_hash(number.magnitude)),
        Value::String(text) => text_hash(alloc, text.as_str()),
        Value::Character(text) => text_hash(alloc, text.as_str()),
        Value::Address(address) => Ok(address.0),
        Value::Path(path) => Ok(bytes_hash(path.identifier.0.as_str().as_bytes())),
        Value::Composite { fields, .. } => Ok(case_hash(number_of_case(fields.as_slice()))),
        _ => Ok(0),
    }
}

/// The hash of a key.
pub(crate) fn key_hash(alloc: Global, key: &Value) -> Result<u64, AllocError>
    ensures { IfOk result (λ hash. hash ≡ spec.key_hash (pure_value key.now)) }
{
    let hash = raw_hash(alloc, key)?;
    Ok(spread(hash))
}
