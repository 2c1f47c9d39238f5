// Lengths and parts of texts.
ghost use Rattle.std.specs.Prelude.{◌≡◌, ◌↔◌, ◌⊎◌, ◌<◌, ◌+◌, ◌++◌, false, length, string_bytes, unsigned_abs, IfOk, IfErr};
ghost use Rattle.cad_text.specs.Texts as spec;
ghost use Rattle.cad_text.specs.Texts.{characters, most_bytes, part, are_places};

use crate::error::TextError;
use cad_syntax::Text;
use std::alloc::{AllocError, Global};
use unicode_segmentation::UnicodeSegmentation;

/// The most bytes that a text has.
const MOST_BYTES: usize = 1_048_576;

/// How many characters a text has. They are extended grapheme clusters.
pub fn length(text: &str) -> u64
    ensures { result ≡ length (characters text.now) }
{
    text.graphemes(true).count() as u64
}

/// The characters from one place to before another.
fn cut(alloc: Global, text: &str, from: u64, up_to: u64) -> Result<String, AllocError>
    ensures { IfOk result (λ cut. string_bytes cut ≡ part text.now from up_to) }
{
    let mut between = String::new(alloc);
    let mut place: u64 = 0;
    for character in text.graphemes(true) {
        if place >= up_to {
            return Ok(between);
        }
        if place >= from {
            between.push_str(character)?;
        }
        place += 1;
    }
    Ok(between)
}

/// The characters of a text from place `from` to before place `up_to`, counted from 0. Slice exactly where not
/// `0 <= from <= up_to <= length(text)`.
pub fn slice(alloc: Global, text: &str, from: i128, up_to: i128) -> Result<Text, TextError>
    ensures ok { IfOk result (λ cut. cut ≡ part text.now (unsigned_abs from) (unsigned_abs up_to)) }
    ensures places { (result ≡ Err TextError.Slice) ↔ (are_places text.now from up_to ≡ false) }
    ensures errors { IfErr result (λ e. (e ≡ TextError.Slice) ⊎ (e ≡ TextError.Memory)) }
{
    if from < 0 || from > up_to || up_to > length(text) as i128 {
        return Err(TextError::Slice);
    }
    let between = cut(alloc, text, from as u64, up_to as u64)?;
    Ok(Text::from_string(between))
}

/// One text and then another. TooLarge exactly where the result has over 1,048,576 bytes.
pub fn concat(alloc: Global, a: &str, b: &str) -> Result<Text, TextError>
    ensures ok { IfOk result (λ joined. joined ≡ a.now ++ b.now) }
    ensures large { (result ≡ Err TextError.TooLarge) ↔ (most_bytes < length a.now + length b.now) }
    ensures errors { IfErr result (λ e. (e ≡ TextError.TooLarge) ⊎ (e ≡ TextError.Memory)) }
{
    if a.len() > MOST_BYTES || b.len() > MOST_BYTES - a.len() {
        return Err(TextError::TooLarge);
    }
    let mut joined = Text::from_str(alloc, a)?;
    joined.push_str(b)?;
    Ok(joined)
}
