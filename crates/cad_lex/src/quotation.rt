// Texts in quotes.
ghost use Rattle.std.specs.Prelude.{◌≡◌, length, option_map, IfOk, IsUtf8, Some};
ghost use Rattle.cad_grammar.specs.Lexes.{is_hexadecimal, is_plain, escaped};
ghost use Rattle.cad_lex.specs.Code.Reading as spec;

use crate::number::{add_digit, is_digit};
use crate::word::text_of;
use cad_syntax::Text;
use std::alloc::{AllocError, Global};

#[tactic(auto, unfolding(crate::specs::Code::Reading::behind))]
fn behind_hexadecimal(mut bytes: &[u8]) -> &[u8]
    ensures { result.now ≡ spec.behind is_hexadecimal bytes.entry.now }
{
    while let [first, rest @ ..] = bytes {
        if !is_digit(*first, 16) {
            break;
        }
        bytes = rest;
    }
    bytes
}

// The hexadecimal digits at the front, and the bytes behind them.
#[tactic(auto, using(crate::proofs::Runs::length_behind, crate::proofs::Runs::take_behind))]
fn split_hexadecimal(bytes: &[u8]) -> (&[u8], &[u8])
    ensures digits { result.0.now ≡ spec.front is_hexadecimal bytes.now }
    ensures rest { result.1.now ≡ spec.behind is_hexadecimal bytes.now }
{
    let rest = behind_hexadecimal(bytes);
    (&bytes[..bytes.len() - rest.len()], rest)
}

#[tactic(auto, unfolding(crate::specs::Code::Reading::number_from))]
fn hexadecimal(mut digits: &[u8]) -> Option<u128>
    ensures { result ≡ spec.number_from 16 (Some 0) digits.entry.now }
{
    let mut value = Some(0u128);
    while let [digit, rest @ ..] = digits {
        value = add_digit(16, value, *digit);
        digits = rest;
    }
    value
}

#[tactic(auto, unfolding(crate::specs::Code::Reading::code_of))]
fn code_of(value: Option<u128>) -> Option<char>
    ensures { result ≡ spec.code_of value }
{
    char::from_u32(u32::try_from(value?).ok()?)
}

#[tactic(auto, unfolding(crate::specs::Code::Reading::scalar_of))]
fn scalar_of<'a>(digits: &[u8], rest: &'a [u8]) -> Option<(char, &'a [u8])>
    ensures { option_map spec.seen result ≡ spec.scalar_of digits.now rest.now }
{
    let [b'}', behind @ ..] = rest else {
        return None;
    };
    if digits.is_empty() || digits.len() > 6 {
        return None;
    }
    Some((code_of(hexadecimal(digits))?, behind))
}

// The character that the code in `\u{..}` tells, and the bytes behind it.
#[tactic(auto, unfolding(crate::specs::Code::Reading::scalar_escape))]
fn scalar_escape(bytes: &[u8]) -> Option<(char, &[u8])>
    ensures { option_map spec.seen result ≡ spec.scalar_escape bytes.now }
{
    let [b'{', text @ ..] = bytes else {
        return None;
    };
    let (digits, rest) = split_hexadecimal(text);
    scalar_of(digits, rest)
}

fn escaped(letter: u8) -> Option<char>
    ensures { result ≡ escaped letter }
{
    match letter {
        b'0' => Some('\0'),
        b't' => Some('\t'),
        b'n' => Some('\n'),
        b'r' => Some('\r'),
        b'"' => Some('"'),
        b'\'' => Some('\''),
        b'\\' => Some('\\'),
        _ => None,
    }
}

// The character that an escape writes behind its backslash, and the bytes behind it.
#[tactic(auto, unfolding(crate::specs::Code::Reading::escape))]
fn escape(bytes: &[u8]) -> Option<(char, &[u8])>
    ensures { option_map spec.seen result ≡ spec.escape bytes.now }
{
    let [letter, rest @ ..] = bytes else {
        return None;
    };
    if *letter == b'u' {
        return scalar_escape(rest);
    }
    Some((escaped(*letter)?, rest))
}

#[tactic(auto, unfolding(crate::specs::Code::Reading::behind))]
fn behind_plain(mut bytes: &[u8]) -> &[u8]
    ensures { result.now ≡ spec.behind is_plain bytes.entry.now }
{
    while let [first, rest @ ..] = bytes {
        if *first == b'"' || *first == b'\\' || *first == b'\n' {
            break;
        }
        bytes = rest;
    }
    bytes
}

// What stands for itself at the front, and the bytes behind it.
#[tactic(auto, using(crate::proofs::Runs::length_behind, crate::proofs::Runs::take_behind))]
fn split_plain(bytes: &[u8]) -> (&str, &[u8])
    requires { IsUtf8 bytes.now }
    ensures text { result.0.now ≡ spec.front is_plain bytes.now }
    ensures rest { result.1.now ≡ spec.behind is_plain bytes.now }
{
    let rest = behind_plain(bytes);
    (text_of(&bytes[..bytes.len() - rest.len()]), rest)
}

/// What is written up to the closing quote, and the bytes behind that. None where a bad escape, a line feed or the end
/// comes first.
#[tactic(auto, unfolding(crate::specs::Code::Reading::quoted, crate::specs::Code::Reading::behind_plain))]
pub fn quotation(alloc: Global, mut bytes: &[u8]) -> Result<Option<(Text, &[u8])>, AllocError>
    requires { IsUtf8 bytes.now }
    ensures { IfOk result (λ found. option_map spec.seen found ≡ spec.quoted (length bytes.entry.now) bytes.entry.now) }
{
    let mut content = Text::new(alloc);
    for _turn in 0..bytes.len() {
        let (plain, rest) = split_plain(bytes);
        content.push_str(plain)?;
        let [mark, behind @ ..] = rest else {
            return Ok(None);
        };
        if *mark == b'"' {
            return Ok(Some((content, behind)));
        }
        if *mark != b'\\' {
            return Ok(None);
        }
        let Some((character, behind)) = escape(behind) else {
            return Ok(None);
        };
        content.push(character)?;
        bytes = behind;
    }
    Ok(None)
}
