// Values without parts.
ghost use Rattle.std.specs.Prelude.{◌≡◌, IfOk, option_map};
ghost use Rattle.serde_json.specs.Find.{as_bool, as_str};
ghost use Rattle.serde_json.specs.View.{view};
ghost use Rattle.cad_values.specs.Values as v;
ghost use Rattle.cad_values.specs.Values.{pure_value};
ghost use Rattle.cad_json_read.specs.Reading as spec;

use crate::object::pair;
use cad_num::read_decimal;
use cad_syntax::{Address, Domain, Kind, Name, Num, Path, Text};
use cad_text::length;
use cad_values::Value;
use serde_json::Value as Json;
use std::alloc::{AllocError, Global};

/// A string.
pub fn read_string(alloc: Global, content: &Json) -> Result<Option<Value>, AllocError>
    ensures { IfOk result (λ o. option_map pure_value o ≡ option_map v.string (as_str (view content.now))) }
{
    match content.as_str() {
        Some(text) => Ok(Some(Value::String(Text::from_str(alloc, text)?))),
        None => Ok(None),
    }
}

/// A truth value.
pub fn read_bool(content: &Json) -> Option<Value>
    ensures { option_map pure_value result ≡ option_map v.bool (as_bool (view content.now)) }
{
    match content.as_bool() {
        Some(b) => Some(Value::Bool(b)),
        None => None,
    }
}

/// A character, where the text is one cluster.
fn character_of(alloc: Global, text: &str) -> Result<Option<Value>, AllocError>
    ensures { IfOk result (λ o. option_map pure_value o ≡ spec.character_of text.now) }
{
    if length(text) != 1 {
        return Ok(None);
    }
    Ok(Some(Value::Character(Text::from_str(alloc, text)?)))
}

/// A character.
pub fn read_character(alloc: Global, content: &Json) -> Result<Option<Value>, AllocError>
    ensures { IfOk result (λ o. option_map pure_value o ≡ spec.character_at (view content.now)) }
{
    match content.as_str() {
        Some(text) => character_of(alloc, text),
        None => Ok(None),
    }
}

/// The address that a text writes.
fn address_of(text: &str) -> Option<Value>
    ensures { option_map pure_value result ≡ spec.address_value text.now }
{
    match Address::from_hex(text) {
        Some(address) => Some(Value::Address(address)),
        None => None,
    }
}

/// An address.
pub fn read_address(content: &Json) -> Option<Value>
    ensures { option_map pure_value result ≡ spec.address_at (view content.now) }
{
    match content.as_str() {
        Some(text) => address_of(text),
        None => None,
    }
}

/// The number of a kind that a text writes.
fn number_of(kind: Kind, text: &str) -> Option<Num>
    ensures { result ≡ spec.number_of kind text.now }
{
    match kind {
        Kind::Address => None,
        _ => read_decimal(kind, text),
    }
}

/// A number as a value.
fn number_value(kind: Kind, text: &str) -> Option<Value>
    ensures { option_map pure_value result ≡ spec.number_value kind text.now }
{
    match number_of(kind, text) {
        Some(number) => Some(Value::Number(number)),
        None => None,
    }
}

/// A number of a kind.
pub fn read_number(kind: Kind, content: &Json) -> Option<Value>
    ensures { option_map pure_value result ≡ spec.number_at kind (view content.now) }
{
    match content.as_str() {
        Some(text) => number_value(kind, text),
        None => None,
    }
}

/// The domain with a word.
fn domain_of(text: &str) -> Option<Domain>
    ensures { result ≡ spec.domain_of text.now }
{
    if text == "storage" {
        return Some(Domain::Storage);
    }
    if text == "public" {
        return Some(Domain::Public);
    }
    None
}

/// The domain of a path.
fn domain_at(content: &Json) -> Option<Domain>
    ensures { result ≡ spec.domain_at (view content.now) }
{
    match content.as_str() {
        Some(text) => domain_of(text),
        None => None,
    }
}

/// A path.
pub fn read_path(alloc: Global, content: &Json) -> Result<Option<Value>, AllocError>
    ensures { IfOk result (λ o. option_map pure_value o ≡ spec.path_of (view content.now)) }
{
    let Some((word, name)) = pair(content, "domain", "identifier") else {
        return Ok(None);
    };
    let Some(domain) = domain_at(word) else {
        return Ok(None);
    };
    let Some(text) = name.as_str() else {
        return Ok(None);
    };
    let identifier = Name(Text::from_str(alloc, text)?);
    Ok(Some(Value::Path(Path { domain, identifier })))
}
