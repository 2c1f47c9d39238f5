// Hexadecimal forms of bytes.
ghost use Rattle.std.specs.Prelude.{◌≡◌, ◌↔◌, ◌⊎◌, ◌<◌, ◌*◌, false, length, IfOk, IfErr};
ghost use Rattle.std.specs.List.{list_all};
ghost use Rattle.hex.specs.Hex.{encode_lower, decode_of, is_hex_digit};
ghost use Rattle.cad_text.specs.Texts as spec;
ghost use Rattle.cad_text.specs.Texts.{most_bytes};

use crate::error::TextError;
use cad_syntax::{Bytes, Text};
use std::alloc::Global;

/// The most bytes of which a text has the digits.
const MOST_BYTES: usize = 524_288;

/// Whether a byte is a hexadecimal digit, in either case.
fn is_digit(byte: u8) -> bool
    ensures { result ≡ is_hex_digit byte }
{
    matches!(byte, b'0'..=b'9' | b'A'..=b'F' | b'a'..=b'f')
}

fn are_digits(bytes: &[u8]) -> bool
    ensures { result ≡ list_all is_hex_digit bytes.now }
{
    bytes.iter().all(|byte| is_digit(*byte))
}

/// Whether a text is an even number of hexadecimal digits, in either case.
fn is_hex(text: &str) -> bool
    ensures { result ≡ spec.is_hex text.now }
{
    text.len() % 2 == 0 && are_digits(text.as_bytes())
}

/// The bytes whose digits a text has, in either case. Hex exactly where the text isn't an even number of hexadecimal
/// digits.
pub fn decode_hex(alloc: Global, text: &str) -> Result<Bytes, TextError>
    ensures ok { IfOk result (λ bytes. decode_of text.now ≡ Ok bytes) }
    ensures digits { (result ≡ Err TextError.Hex) ↔ (spec.is_hex text.now ≡ false) }
    ensures errors { IfErr result (λ e. (e ≡ TextError.Hex) ⊎ (e ≡ TextError.Memory)) }
{
    if !is_hex(text) {
        return Err(TextError::Hex);
    }
    match hex::decode(alloc, text) {
        Ok(bytes) => Ok(Bytes::from_vec(bytes)),
        Err(_) => Err(TextError::Memory),
    }
}

/// The digits of bytes, in lower case. TooLarge exactly where they have over 1,048,576 digits.
pub fn encode_hex(alloc: Global, bytes: &[u8]) -> Result<Text, TextError>
    ensures ok { IfOk result (λ text. text ≡ encode_lower bytes.now) }
    ensures large { (result ≡ Err TextError.TooLarge) ↔ (most_bytes < 2 * length bytes.now) }
    ensures errors { IfErr result (λ e. (e ≡ TextError.TooLarge) ⊎ (e ≡ TextError.Memory)) }
{
    if bytes.len() > MOST_BYTES {
        return Err(TextError::TooLarge);
    }
    Ok(Text::from_string(hex::encode(alloc, bytes)?))
}
