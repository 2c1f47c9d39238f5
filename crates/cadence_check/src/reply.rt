// Replies to lines.
ghost use Rattle.std.specs.Prelude.{◌≡◌, List, ℕ, IfOk};
ghost use Rattle.std.specs.Str.{IsUtf8};
ghost use Rattle.serde_json.specs.Data.{Data};
ghost use Rattle.serde_json.specs.View.{view};
ghost use Rattle.cadence_check.specs.Requests.{asked};
ghost use Rattle.cadence_check.specs.Verdicts as spec;
ghost use Rattle.cadence_check.specs.Verdicts.{IsJson, Replies};
ghost use Rattle.cadence_check.specs.Views.{verdict_of};

use crate::judge::verdict;
use crate::request::asked_in;
use crate::verdict::{Refusal, Verdict};
use cad_rejections::rejected_text;
use cad_syntax::Text;
use serde_json::Value;
use std::alloc::{AllocError, Global};

/// The reply `bad`, by the number of its cause.
fn bad_text(alloc: Global, number: u16) -> Result<Text, AllocError>
    ensures { IfOk result (λ text. text ≡ spec.bad_text number) }
{
    let mut text = Text::from_str(alloc, "{\"error\":\"")?;
    text.push_str(number.to_string(alloc)?.as_str())?;
    text.push_str("\",\"reply\":\"bad\"}")?;
    Ok(text)
}

/// The reply of a verdict.
fn verdict_text(alloc: Global, verdict: &Verdict) -> Result<Text, AllocError>
    ensures { IfOk result (λ text. text ≡ spec.verdict_text (verdict_of verdict.now)) }
{
    match verdict {
        Verdict::Accepted => Text::from_str(alloc, "{\"reply\":\"accepted\"}"),
        Verdict::Refused(number, Refusal::Stopped(rejected)) => {
            rejected_text(alloc, *number, rejected)
        }
        Verdict::Refused(_, Refusal::Bad(number)) => bad_text(alloc, *number),
    }
}

/// The reply to a request.
fn judged(alloc: Global, request: &Value) -> Result<Text, AllocError>
    ensures { IfOk result (λ text. (line : List ℕ) → IsJson line (view request.now) → Replies line text) }
{
    match asked_in(alloc, request)? {
        Ok(asked) => {
            let verdict = verdict(alloc, asked.contracts.as_slice(), &asked.subject)?;
            verdict_text(alloc, &verdict)
        }
        Err(number) => bad_text(alloc, number),
    }
}

/// The reply to a line, without a line feed.
pub fn reply_to(alloc: Global, line: &[u8]) -> Result<Text, AllocError>
    ensures { IfOk result (λ text. Replies line.now text) }
{
    match Value::from_slice(alloc, line) {
        Ok(request) => judged(alloc, &request),
        Err(fault) => {
            if fault.is_memory() {
                Err(AllocError)
            } else {
                bad_text(alloc, 21)
            }
        }
    }
}

/// The reply to a line that isn't UTF-8.
pub fn no_text(alloc: Global) -> Result<Text, AllocError>
    ensures { IfOk result (λ text. (line : List ℕ) → ¬ IsUtf8 line → Replies line text) }
{
    bad_text(alloc, 21)
}
