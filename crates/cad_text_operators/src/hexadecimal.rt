// Texts of bytes: hexadecimal digits and UTF-8.
ghost use Rattle.std.specs.Prelude.{◌≡◌, ◌*◌, nat_le, length, IfOk};
ghost use Rattle.cad_evaluation.specs.Texts as spec;
ghost use Rattle.cad_outcomes.specs.Outcomes.{Gives};
ghost use Rattle.cad_rows.specs.Views.{pure_tree};
ghost use Rattle.cad_text.specs.Texts.{most_bytes};
ghost use Rattle.cad_world.specs.State.{give, require};
ghost use Rattle.hex.specs.Hex.{encode_lower};

use crate::bytes::{bytes_in, bytes_tree};
use crate::texts::text_tree;
use cad_operators::{nil_tree, wrapped};
use cad_outcomes::{RunError, Stop};
use cad_rows::Tree;
use cad_syntax::Text;
use cad_text::TextError;
use std::alloc::{AllocError, Global};

/// The bytes whose hexadecimal digits a text has, as an array. InvalidHex where it isn't an even number of such digits,
/// TooLarge where they are over 65,536 bytes.
pub fn text_decoded(alloc: Global, text: &str) -> Result<Tree, Stop>
    ensures { Gives pure_tree (spec.text_decoded text.now) result }
{
    match cad_text::decode_hex(alloc, text) {
        Ok(bytes) => bytes_tree(alloc, bytes.as_slice()),
        Err(TextError::Hex) => Err(Stop::Failed(RunError::InvalidHex)),
        Err(_) => Err(Stop::Memory),
    }
}

/// The hexadecimal digits of bytes, as a value.
fn encoded(alloc: Global, bytes: &[u8]) -> Result<Tree, Stop>
    ensures { Gives pure_tree (require 123 (nat_le (2 * length bytes.now) most_bytes) (give (spec.text_tree (encode_lower bytes.now)))) result }
{
    match cad_text::encode_hex(alloc, bytes) {
        Ok(text) => Ok(text_tree(alloc, text)),
        Err(TextError::TooLarge) => Err(Stop::Failed(RunError::TooLarge)),
        Err(_) => Err(Stop::Memory),
    }
}

/// The hexadecimal digits of an array of bytes. TooLarge where they are over 1,048,576, IllTyped of all else.
pub fn text_encoded(alloc: Global, bytes: &Tree) -> Result<Tree, Stop>
    ensures { Gives pure_tree (spec.text_encoded (pure_tree bytes.now)) result }
{
    match bytes_in(alloc, bytes) {
        Ok(Some(there)) => encoded(alloc, there.as_slice()),
        Ok(None) => Err(Stop::IllTyped),
        Err(_) => Err(Stop::Memory),
    }
}

/// The text of bytes in an optional, or nil where they are no UTF-8.
fn text_of_bytes(alloc: Global, bytes: &[u8]) -> Result<Tree, AllocError>
    ensures { IfOk result (λ t. pure_tree t ≡ spec.text_of_bytes bytes.now) }
{
    match std::str::from_utf8(bytes) {
        Ok(text) => Ok(wrapped(text_tree(alloc, Text::from_str(alloc, text)?))),
        Err(_) => Ok(nil_tree(alloc)),
    }
}

/// The text of an array of bytes in an optional, or nil where they are no UTF-8. IllTyped of all else.
pub fn text_from_bytes(alloc: Global, bytes: &Tree) -> Result<Tree, Stop>
    ensures { Gives pure_tree (spec.text_from_bytes (pure_tree bytes.now)) result }
{
    match bytes_in(alloc, bytes) {
        Ok(Some(there)) => read(alloc, there.as_slice()),
        Ok(None) => Err(Stop::IllTyped),
        Err(_) => Err(Stop::Memory),
    }
}

/// The text of bytes in an optional, or nil, as an action gives it.
fn read(alloc: Global, bytes: &[u8]) -> Result<Tree, Stop>
    ensures { Gives pure_tree (give (spec.text_of_bytes bytes.now)) result }
{
    match text_of_bytes(alloc, bytes) {
        Ok(tree) => Ok(tree),
        Err(_) => Err(Stop::Memory),
    }
}
