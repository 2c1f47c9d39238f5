// The fields of requests for runs of code.
ghost use Rattle.std.specs.Prelude.{◌≡◌, IfOk, map, option_map};
ghost use Rattle.serde_json.specs.Find.{get, as_str};
ghost use Rattle.serde_json.specs.View.{view, items_view};
ghost use Rattle.cad_commands.specs.Fields as spec;

use cad_request::text_at;
use cad_syntax::Address;
use serde_json::Value;
use std::alloc::{AllocError, Global};

/// The address that a field writes. None where it is no text, or the text of no address.
pub(crate) fn address_at(request: &Value, field: &str) -> Option<Address>
    ensures { result ≡ spec.address_at field.now (view request.now) }
{
    Address::from_hex(text_at(request, field)?)
}

/// The address that an item of a list writes.
fn address_in(item: &Value) -> Option<Address>
    ensures { result ≡ spec.address_in (as_str (view item.now)) }
{
    Address::from_hex(item.as_str()?)
}

/// The addresses of a list. None where an item is the text of none.
fn addresses_of(alloc: Global, list: &[Value]) -> Result<Option<Vec<Address>>, AllocError>
    ensures { IfOk result (λ all. option_map (λ v. v.items) all ≡ spec.addresses_of (items_view list.now)) }
{
    let mut all = Vec::new(alloc);
    for item in list {
        match address_in(item) {
            Some(address) => all.push(address)?,
            None => return Ok(None),
        }
    }
    Ok(Some(all))
}

/// The signers of a request: nobody where the field isn't there. None where it is no list of addresses.
pub(crate) fn signers_of(alloc: Global, request: &Value) -> Result<Option<Vec<Address>>, AllocError>
    ensures { IfOk result (λ all. option_map (λ v. v.items) all ≡ spec.signers_of (view request.now)) }
{
    match request.get("signers") {
        Some(field) => match field.as_array() {
            Some(list) => addresses_of(alloc, list),
            None => Ok(None),
        },
        None => Ok(Some(Vec::new(alloc))),
    }
}

/// The limit of a request: 9,999 where the field isn't there. None where it is no whole number below 2^64.
pub(crate) fn limit_of(request: &Value) -> Option<u64>
    ensures { result ≡ spec.limit_of (view request.now) }
{
    match request.get("limit") {
        Some(field) => field.as_u64(),
        None => Some(9_999),
    }
}

/// The value of a field, taken out of a request.
fn taken(request: Value, field: &str) -> Option<Value>
    ensures { option_map view result ≡ get field.now (view request) }
{
    match request {
        Value::Object(mut members) => members.remove(field),
        _ => None,
    }
}

/// The items of a list. None where it is no list.
fn items_of(json: Value) -> Option<Vec<Value>>
    ensures { option_map (λ v. map view v.items) result ≡ spec.list_of (view json) }
{
    match json {
        Value::Array(list) => Some(list),
        _ => None,
    }
}

/// The arguments of a request, taken out of it: none where the field isn't there. None where it is no list.
pub(crate) fn arguments_of(alloc: Global, request: Value) -> Option<Vec<Value>>
    ensures { option_map (λ v. map view v.items) result ≡ spec.arguments_of (view request) }
{
    match taken(request, "arguments") {
        Some(field) => items_of(field),
        None => Some(Vec::new(alloc)),
    }
}
