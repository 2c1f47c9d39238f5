// Members of texts and characters.
ghost use Rattle.std.specs.Prelude.{◌≡◌, ◌+◌, ◌++◌, nat_le, length, Ok, option_map};
ghost use Rattle.cad_evaluation.specs.Texts as spec;
ghost use Rattle.cad_outcomes.specs.Outcomes.{Gives};
ghost use Rattle.cad_rows.specs.Views.{pure_tree};
ghost use Rattle.cad_text.specs.Texts.{most_bytes};
ghost use Rattle.cad_values.specs.Values.{pure_value, string};
ghost use Rattle.cad_world.specs.State.{give, require};

use crate::bytes::bytes_tree;
use cad_operators::{count_tree, plain_tree, plain_value};
use cad_outcomes::{RunError, Stop};
use cad_rows::Tree;
use cad_syntax::Text;
use cad_text::TextError;
use cad_values::Value;
use std::alloc::Global;

/// The text that a value is.
fn text_in_value(value: &Value) -> Option<&str>
    ensures { option_map (λ t. t.now) result ≡ spec.text_in_value (pure_value value.now) }
{
    match value {
        Value::String(text) => Some(text.as_str()),
        _ => None,
    }
}

/// The text that a tree is.
pub fn text_in(tree: &Tree) -> Option<&str>
    ensures { option_map (λ t. t.now) result ≡ spec.text_in (pure_tree tree.now) }
{
    match plain_value(tree) {
        Some(value) => text_in_value(value),
        None => None,
    }
}

/// The character that a value is.
fn character_in_value(value: &Value) -> Option<&str>
    ensures { option_map (λ t. t.now) result ≡ spec.character_in_value (pure_value value.now) }
{
    match value {
        Value::Character(text) => Some(text.as_str()),
        _ => None,
    }
}

/// The character that a tree is.
pub fn character_in(tree: &Tree) -> Option<&str>
    ensures { option_map (λ t. t.now) result ≡ spec.in_tree spec.character_in_value (pure_tree tree.now) }
{
    match plain_value(tree) {
        Some(value) => character_in_value(value),
        None => None,
    }
}

/// A text as a value of the program.
fn text_value(text: Text) -> Value
    ensures { pure_value result ≡ string text }
{
    Value::String(text)
}

/// The tree of a text.
pub fn text_tree(alloc: Global, text: Text) -> Tree
    ensures { pure_tree result ≡ spec.text_tree text }
{
    plain_tree(alloc, text_value(text))
}

/// A copy of a text as a value, as `toString` of a character gives it.
pub fn text_copy(alloc: Global, text: &str) -> Result<Tree, Stop>
    ensures { Gives pure_tree (give (spec.text_tree text.now)) result }
{
    match Text::from_str(alloc, text) {
        Ok(copy) => Ok(text_tree(alloc, copy)),
        Err(_) => Err(Stop::Memory),
    }
}

/// How many characters a text has.
pub fn text_length(alloc: Global, text: &str) -> Tree
    ensures { Gives pure_tree (spec.text_length text.now) (Ok result) }
{
    count_tree(alloc, cad_text::length(text))
}

/// The bytes of a text as an array. TooLarge where it has over 65,536.
pub fn text_bytes(alloc: Global, text: &str) -> Result<Tree, Stop>
    ensures { Gives pure_tree (spec.bytes_tree text.now) result }
{
    bytes_tree(alloc, text.as_bytes())
}

/// Two texts, one behind the other.
fn joined(alloc: Global, text: &str, other: &str) -> Result<Tree, Stop>
    ensures { Gives pure_tree (require 123 (nat_le (length text.now + length other.now) most_bytes)
        (give (spec.text_tree (text.now ++ other.now)))) result }
{
    match cad_text::concat(alloc, text, other) {
        Ok(all) => Ok(text_tree(alloc, all)),
        Err(TextError::TooLarge) => Err(Stop::Failed(RunError::TooLarge)),
        Err(_) => Err(Stop::Memory),
    }
}

/// A text, and another behind it. TooLarge where that has over 1,048,576 bytes, IllTyped where the other is no text.
pub fn text_joined(alloc: Global, text: &str, other: &Tree) -> Result<Tree, Stop>
    ensures { Gives pure_tree (spec.text_joined text.now (pure_tree other.now)) result }
{
    match text_in(other) {
        Some(behind) => joined(alloc, text, behind),
        None => Err(Stop::IllTyped),
    }
}
