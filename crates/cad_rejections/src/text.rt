// The text of a rejection.
ghost use Rattle.std.specs.Prelude.{◌≡◌, ◌++◌, IfOk, OnOk};
ghost use Rattle.json.specs.Print.{quoted};
ghost use Rattle.cad_rejections.specs.Texts as spec;

use cad_declarations::Rejected;
use cad_grammar::Phase;
use cad_syntax::{Name, Text};
use serde_json::Value;
use std::alloc::{AllocError, Global};

/// The name of a phase.
fn phase_name(phase: Phase) -> &'static str
    ensures { result.now ≡ spec.phase_name phase }
{
    match phase {
        Phase::Lex => "lex",
        Phase::Parse => "parse",
        Phase::Resolve => "resolve",
        Phase::Types => "types",
        Phase::Conformance => "conformance",
        Phase::Moves => "moves",
        Phase::Purity => "purity",
        Phase::Initialisation => "initialisation",
    }
}

/// Appends names, each with `.` before it.
fn push_dotted(text: &mut Text, names: &[Name]) -> Result<(), AllocError>
    ensures { OnOk result (text.new ≡ text.old ++ spec.dotted names.now) }
{
    for name in names {
        text.push_str(".")?;
        text.push_str(name.0.as_str())?;
    }
    Ok(())
}

/// Appends names with `.` between them.
fn push_joined(text: &mut Text, names: &[Name]) -> Result<(), AllocError>
    ensures { OnOk result (text.new ≡ text.old ++ spec.joined names.now) }
{
    let [first, more @ ..] = names else {
        return Ok(());
    };
    text.push_str(first.0.as_str())?;
    push_dotted(text, more)
}

/// Names with `.` between them, as a text of JSON.
fn quoted_names(alloc: Global, names: &[Name]) -> Result<Text, AllocError>
    ensures { IfOk result (λ text. text ≡ quoted (spec.joined names.now)) }
{
    let mut text = Text::new(alloc);
    push_joined(&mut text, names)?;
    let value = Value::try_from_str(alloc, text.as_str())?;
    Ok(Text::from_string(value.to_string(alloc)?))
}

/// Appends the field that tells which contract is at fault, where one is.
fn push_contract(alloc: Global, text: &mut Text, contract: Option<u64>) -> Result<(), AllocError>
    ensures { OnOk result (text.new ≡ text.old ++ spec.contract_field contract) }
{
    let Some(number) = contract else {
        return Ok(());
    };
    text.push_str(",\"contract\":")?;
    text.push_str(number.to_string(alloc)?.as_str())
}

/// The object that tells of a rejection, in JSON: the place, the number of the contract at fault among those that are judged
/// together, the declaration or function, and the phase.
pub fn rejected_text(
    alloc: Global,
    contract: Option<u64>,
    rejected: &Rejected,
) -> Result<Text, AllocError>
    ensures { IfOk result (λ text. text ≡ spec.rejected_text contract rejected.now) }
{
    let mut text = Text::from_str(alloc, "{\"at\":\"")?;
    text.push_str(rejected.at.to_string(alloc)?.as_str())?;
    text.push_str("\"")?;
    push_contract(alloc, &mut text, contract)?;
    text.push_str(",\"in\":")?;
    text.push_str(quoted_names(alloc, rejected.inside.as_slice())?.as_str())?;
    text.push_str(",\"phase\":\"")?;
    text.push_str(phase_name(rejected.phase))?;
    text.push_str("\",\"reply\":\"rejected\"}")?;
    Ok(text)
}
