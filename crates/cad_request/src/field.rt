// The fields of a request.
ghost use Rattle.std.specs.Prelude.{◌≡◌, option_map};
ghost use Rattle.serde_json.specs.View.{view};
ghost use Rattle.cad_request.specs.Fields.{text_at};

use serde_json::Value;

/// The text that a field of an object holds. None where it holds none, or the value is no object.
pub fn text_at<'a>(request: &'a Value, field: &str) -> Option<&'a str>
    ensures { option_map (λ text. text.now) result ≡ text_at field.now (view request.entry.now) }
{
    match request.get(field) {
        Some(value) => value.as_str(),
        None => None,
    }
}
