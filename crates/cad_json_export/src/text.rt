// Texts between quotes, and what stands before the content of a value.
ghost use Rattle.std.specs.Prelude.{◌≡◌, ◌++◌, OnOk, IfOk, true};
ghost use Rattle.serde_json.specs.Written.{comma_if};
ghost use Rattle.cad_json_export.specs.Texts as spec;

use cad_syntax::Text;
use serde_json::Value as Json;
use std::alloc::{AllocError, Global};

/// Whether each byte of a text stands for itself between quotes.
fn is_plain(text: &str) -> bool
    ensures { result ≡ spec.is_plain text.now }
{
    text.as_bytes()
        .iter()
        .all(|byte| *byte >= 32 && (*byte != 34 && *byte != 92))
}

/// A text between quotes, with what has to be escaped in it.
#[tactic(auto, unfolding(crate::specs::Texts::quotation))]
fn escaped(alloc: Global, content: &str) -> Result<Text, AllocError>
    ensures { IfOk result (λ text. text ≡ spec.quotation content.now) }
{
    let value = Json::try_from_str(alloc, content)?;
    Ok(Text::from_string(value.to_string(alloc)?))
}

/// Appends a text between quotes, none of whose bytes has to be escaped.
#[tactic(auto, using(crate::proofs::Plain::quoted_pushes))]
fn push_plain(text: &mut Text, content: &str) -> Result<(), AllocError>
    requires { spec.is_plain content.now ≡ true }
    ensures { OnOk result (text.new ≡ text.old ++ spec.quotation content.now) }
{
    text.push_str("\"")?;
    text.push_str(content)?;
    text.push_str("\"")
}

/// Appends a text between quotes.
pub fn push_quoted(alloc: Global, text: &mut Text, content: &str) -> Result<(), AllocError>
    ensures { OnOk result (text.new ≡ text.old ++ spec.quotation content.now) }
{
    if is_plain(content) {
        return push_plain(text, content);
    }
    let whole = escaped(alloc, content)?;
    text.push_str(whole.as_str())
}

/// Appends what stands before the content of a value with this word.
#[tactic(auto, unfolding(crate::specs::Texts::head))]
pub fn push_head(text: &mut Text, word: &str) -> Result<(), AllocError>
    ensures { OnOk result (text.new ≡ text.old ++ spec.head word.now) }
{
    text.push_str("{\"type\":\"")?;
    text.push_str(word)?;
    text.push_str("\",\"value\":")
}

/// Appends a value whose content is a text.
pub fn push_text_value(
    alloc: Global,
    text: &mut Text,
    word: &str,
    content: &str,
) -> Result<(), AllocError>
    ensures { OnOk result (text.new ≡ text.old ++ spec.text_value word.now content.now) }
{
    push_head(text, word)?;
    push_quoted(alloc, text, content)?;
    text.push_str("}")
}

/// Appends a comma, where something stands before.
pub fn push_comma(text: &mut Text, later: bool) -> Result<(), AllocError>
    ensures { OnOk result (text.new ≡ text.old ++ comma_if later) }
{
    if later {
        return text.push_str(",");
    }
    Ok(())
}
