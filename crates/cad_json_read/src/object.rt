// Objects of two members.
ghost use Rattle.std.specs.Prelude.{◌≡◌, codes, option_map};
ghost use Rattle.serde_json.specs.View.{view, members_view};
ghost use Rattle.cad_json_read.specs.Reading as spec;

use crate::form::{Form, form_of};
use serde_json::{Map, Value as Json};

/// The values of an object that has these two keys and no other. The first key is less than the second.
fn members<'a>(
    map: &'a Map<String, Json>,
    first: &str,
    second: &str,
) -> Option<(&'a Json, &'a Json)>
    ensures { option_map (λ p. (view p.0.now, view p.1.now)) result ≡ spec.pair_in first.now second.now (members_view map.entry.now.entries) }
{
    if map.len() != 2 {
        return None;
    }
    let (key, value) = map.first_key_value()?;
    let (other_key, other) = map.last_key_value()?;
    if key.as_str() != first {
        return None;
    }
    if other_key.as_str() != second {
        return None;
    }
    Some((value, other))
}

/// The values of an object that has these two keys and no other. The first key is less than the second.
#[tactic(auto, unfolding(crate::specs::Reading::pair_of))]
pub fn pair<'a>(json: &'a Json, first: &str, second: &str) -> Option<(&'a Json, &'a Json)>
    ensures { option_map (λ p. (view p.0.now, view p.1.now)) result ≡ spec.pair_of first.now second.now (view json.entry.now) }
{
    match json.as_object() {
        Some(map) => members(map, first, second),
        None => None,
    }
}

/// The form of a value with this word.
fn form_at(word: &Json) -> Option<Form>
    ensures { result ≡ spec.form_at (view word.now) }
{
    match word.as_str() {
        Some(text) => form_of(text),
        None => None,
    }
}

/// The form of a value, and its content.
#[tactic(auto, unfolding(crate::specs::Reading::typed_of))]
pub fn typed(json: &Json) -> Option<(Form, &Json)>
    ensures { option_map (λ p. (p.0, view p.1.now)) result ≡ spec.typed_of (view json.entry.now) }
{
    let (word, content) = pair(json, "type", "value")?;
    match form_at(word) {
        Some(form) => Some((form, content)),
        None => None,
    }
}

/// The value of a field, if it has this name.
pub fn field_value<'a>(json: &'a Json, name: &str) -> Option<&'a Json>
    ensures { option_map (λ x. view x.now) result ≡ spec.field_value name.now (view json.entry.now) }
{
    let (found, value) = pair(json, "name", "value")?;
    match found.as_str() {
        Some(text) => if text == name { Some(value) } else { None },
        None => None,
    }
}
