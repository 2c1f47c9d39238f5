// Events as JSON.
ghost use Rattle.std.specs.Prelude.{◌≡◌, ◌++◌, IfOk, OnOk, map};
ghost use Rattle.serde_json.specs.Data.{array};
ghost use Rattle.serde_json.specs.Written.{compact_text, comma_if};
ghost use Rattle.cad_json.specs.Told.{told};
ghost use Rattle.cad_run_outcomes.specs.Views.{event_items};
ghost use Rattle.cad_types.specs.Views.{declarations};
ghost use Rattle.cad_values.specs.Values.{pure_value};

use cad_json_export::export;
use cad_syntax::Text;
use cad_types::DeclaredTypes;
use cad_values::Value;
use std::alloc::{AllocError, Global};

/// The JSON of an event. AllocError too where it has no form: a run that emits such an event fails, which isn't proved here.
fn event_json(alloc: Global, types: &DeclaredTypes, event: &Value) -> Result<Text, AllocError>
    ensures { IfOk result (λ text. text ≡ compact_text (told (declarations types.now) (pure_value event.now))) }
{
    match export(alloc, types, event) {
        Ok(Some(text)) => Ok(text),
        Ok(None) => Err(AllocError),
        Err(error) => Err(error),
    }
}

/// Appends a comma, where an item stands before.
fn push_comma(text: &mut Text, later: bool) -> Result<(), AllocError>
    ensures { OnOk result (text.new ≡ text.old ++ comma_if later) }
{
    if later {
        return text.push_str(",");
    }
    Ok(())
}

/// Appends the JSON of an item of a list, behind a comma where one stands before it. Only the crate above calls it from outside.
pub fn push_item(text: &mut Text, later: bool, json: &str) -> Result<(), AllocError>
    ensures { OnOk result (text.new ≡ text.old ++ (comma_if later ++ json.now)) }
{
    push_comma(text, later)?;
    text.push_str(json)
}

/// Appends the JSON of an event.
fn push_event(
    alloc: Global,
    types: &DeclaredTypes,
    later: bool,
    event: &Value,
    text: &mut Text,
) -> Result<(), AllocError>
    ensures { OnOk result (text.new ≡ text.old ++ (comma_if later ++ compact_text (told (declarations types.now) (pure_value event.now)))) }
{
    let json = event_json(alloc, types, event)?;
    push_item(text, later, json.as_str())
}

/// The JSON of a list of events.
pub(crate) fn events_json(
    alloc: Global,
    types: &DeclaredTypes,
    events: &[Value],
) -> Result<Text, AllocError>
    ensures { IfOk result (λ text. text ≡ compact_text (array (event_items (map (told (declarations types.now)) (map pure_value events.now))))) }
{
    let mut text = Text::from_str(alloc, "[")?;
    let mut later = false;
    for event in events {
        push_event(alloc, types, later, event, &mut text)?;
        later = true;
    }
    text.push_str("]")?;
    Ok(text)
}
