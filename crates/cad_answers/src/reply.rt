// Replies to commands.
ghost use Rattle.std.specs.Prelude.{◌≡◌, ◌++◌, ◌∷◌, [], List, ℕ, IfOk, OnOk, codes, decimal};
ghost use Rattle.serde_json.specs.Data.{Data, array, string};
ghost use Rattle.serde_json.specs.Written.{compact_text, comma_if};
ghost use Rattle.cad_runs.specs.Commands as command;
ghost use Rattle.cad_answers.specs.Answer.{answer_line, number_items};
ghost use Rattle.cad_answers.specs.Code.Views.{Tells};

use cad_declarations::Rejected;
use cad_rejections::rejected_text;
use cad_run_outcomes::{Receipt, push_item};
use cad_syntax::{Address, Text};
use serde_json::Value as Json;
use std::alloc::{AllocError, Global};

/// What is answered to a command.
#[derive(Debug, Drop)]
pub enum Reply {
    /// A script's result: compact JSON.
    Result(Text),
    /// An account was made.
    Account(Address),
    /// A transaction took effect.
    Ran(Receipt),
    /// A run failed, by the number of its error.
    Failed(u16),
    /// A unit of a run was due, and none was left.
    Limit,
    /// The line asks for nothing that can run, by the number of its fault.
    Bad(u16),
    /// The code is refused: by a phase, and where.
    Rejected(Rejected),
    /// A value wasn't of the type that it should have.
    IllTyped,
}

// A text in three parts, and a line feed.
fn line_of(alloc: Global, head: &str, middle: &str, tail: &str) -> Result<Text, AllocError>
    ensures { IfOk result (λ text. text ≡ head.now ++ middle.now ++ tail.now ++ 10 ∷ []) }
{
    let mut text = Text::from_str(alloc, head)?;
    text.push_str(middle)?;
    text.push_str(tail)?;
    text.push_str("\n")?;
    Ok(text)
}

fn number_line(alloc: Global, number: u16, tail: &str) -> Result<Text, AllocError>
    ensures { IfOk result (λ text. text ≡ codes "{\"error\":\"" ++ decimal number ++ tail.now ++ 10 ∷ []) }
{
    let number = number.to_string(alloc)?;
    line_of(alloc, "{\"error\":\"", number.as_str(), tail)
}

// The JSON of a number, which is told as a text.
fn number_json(alloc: Global, number: u64) -> Result<Text, AllocError>
    ensures { IfOk result (λ text. text ≡ compact_text (string (decimal number))) }
{
    let digits = number.to_string(alloc)?;
    let value = Json::try_from_str(alloc, digits.as_str())?;
    Ok(Text::from_string(value.to_string(alloc)?))
}

// Appends the JSON of a number, behind a comma where one stands before it.
fn push_number(alloc: Global, later: bool, number: u64, text: &mut Text) -> Result<(), AllocError>
    ensures { OnOk result (text.new ≡ text.old ++ (comma_if later ++ compact_text (string (decimal number)))) }
{
    let json = number_json(alloc, number)?;
    push_item(text, later, json.as_str())
}

// The JSON of a list of numbers.
fn numbers_json(alloc: Global, numbers: &[u64]) -> Result<Text, AllocError>
    ensures { IfOk result (λ text. text ≡ compact_text (array (number_items numbers.now))) }
{
    let mut text = Text::from_str(alloc, "[")?;
    let mut later = false;
    for number in numbers {
        push_number(alloc, later, *number, &mut text)?;
        later = true;
    }
    text.push_str("]")?;
    Ok(text)
}

// The line of what was destroyed and made, and of events.
fn effects_line(
    alloc: Global,
    destroyed: &str,
    events: &str,
    made: &str,
) -> Result<Text, AllocError>
    ensures { IfOk result (λ text. text ≡ codes "{\"destroyed\":" ++ destroyed.now ++ codes ",\"events\":" ++ events.now ++ codes ",\"made\":" ++ made.now ++ codes ",\"reply\":\"ok\"}" ++ 10 ∷ []) }
{
    let mut text = Text::from_str(alloc, "{\"destroyed\":")?;
    text.push_str(destroyed)?;
    text.push_str(",\"events\":")?;
    text.push_str(events)?;
    text.push_str(",\"made\":")?;
    text.push_str(made)?;
    text.push_str(",\"reply\":\"ok\"}")?;
    text.push_str("\n")?;
    Ok(text)
}

// The line of a receipt.
fn receipt_line(alloc: Global, receipt: &Receipt) -> Result<Text, AllocError>
    ensures { IfOk result (λ text. (a : command.Reply Data) → Tells (Reply.Ran receipt.now) a → text ≡ answer_line a) }
{
    let destroyed = numbers_json(alloc, receipt.destroyed.as_slice())?;
    let made = numbers_json(alloc, receipt.made.as_slice())?;
    effects_line(
        alloc,
        destroyed.as_str(),
        receipt.events.as_str(),
        made.as_str(),
    )
}

// The line of a rejection.
fn rejected_line(alloc: Global, rejected: &Rejected) -> Result<Text, AllocError>
    ensures { IfOk result (λ text. text ≡ answer_line (command.rejected rejected.now)) }
{
    let mut text = rejected_text(alloc, None, rejected)?;
    text.push_str("\n")?;
    Ok(text)
}

/// The line of a reply, with a line feed at its end.
pub fn reply_line(alloc: Global, reply: Reply) -> Result<Text, AllocError>
    ensures { IfOk result (λ text. (a : command.Reply Data) → Tells reply a → text ≡ answer_line a) }
{
    match reply {
        Reply::Result(json) => line_of(alloc, "{\"reply\":\"ok\",\"result\":", json.as_str(), "}"),
        Reply::Account(address) => {
            let address = address.to_hex(alloc)?;
            line_of(
                alloc,
                "{\"address\":\"",
                address.as_str(),
                "\",\"reply\":\"ok\"}",
            )
        }
        Reply::Ran(receipt) => receipt_line(alloc, &receipt),
        Reply::Failed(number) => number_line(alloc, number, "\",\"reply\":\"failed\"}"),
        Reply::Limit => Text::from_str(alloc, "{\"reply\":\"limit\"}\n"),
        Reply::Bad(number) => number_line(alloc, number, "\",\"reply\":\"bad\"}"),
        Reply::Rejected(rejected) => rejected_line(alloc, &rejected),
        Reply::IllTyped => number_line(alloc, 199, "\",\"reply\":\"failed\"}"),
    }
}
