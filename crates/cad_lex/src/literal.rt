// Whole and fixed literals.
ghost use Rattle.std.specs.Prelude.{◌≡◌, ◌≤◌, Some, option_map};
ghost use Rattle.cad_grammar.specs.Lexes.{begins_with_letter, radix_of};
ghost use Rattle.cad_lex.specs.Code.Reading as spec;

use crate::number::{Numeral, is_digit, read_numeral};
use cad_grammar::TokenKind;

fn begins_with_letter(bytes: &[u8]) -> bool
    ensures { result ≡ begins_with_letter bytes.now }
{
    match bytes {
        [first, ..] => first.is_ascii_alphabetic(),
        [] => false,
    }
}

fn begins_with_digit(radix: u8, bytes: &[u8]) -> bool
    ensures { result ≡ spec.begins_with_digit radix bytes.now }
{
    match bytes {
        [first, ..] => is_digit(*first, radix),
        [] => false,
    }
}

fn radix_of(letter: u8) -> Option<u8>
    ensures { result ≡ radix_of letter }
{
    match letter {
        b'b' => Some(2),
        b'o' => Some(8),
        b'x' => Some(16),
        _ => None,
    }
}

// The radix that `0b`, `0o` or `0x` tells, and the bytes behind it, which begin with a digit of it.
#[tactic(auto, unfolding(crate::specs::Code::Reading::based))]
fn based(bytes: &[u8]) -> Option<(u8, &[u8])>
    ensures { option_map spec.seen result ≡ spec.based bytes.now }
{
    let [b'0', letter, digits @ ..] = bytes else {
        return None;
    };
    let radix = radix_of(*letter)?;
    if begins_with_digit(radix, digits) {
        Some((radix, digits))
    } else {
        None
    }
}

// The bytes behind a point, which begin with a digit.
#[tactic(auto, unfolding(crate::specs::Code::Reading::behind_point))]
fn behind_point(bytes: &[u8]) -> Option<&[u8]>
    ensures { option_map (λ rest. rest.now) result ≡ spec.behind_point bytes.now }
{
    let [b'.', decimals @ ..] = bytes else {
        return None;
    };
    if begins_with_digit(10, decimals) {
        Some(decimals)
    } else {
        None
    }
}

// The whole literal of this value before these bytes.
#[tactic(auto, unfolding(crate::specs::Code::Reading::whole))]
fn whole(radix: u8, value: Option<u128>, rest: &[u8]) -> Option<TokenKind>
    ensures { result ≡ spec.whole radix value rest.now }
{
    if begins_with_letter(rest) {
        return None;
    }
    let value = value?;
    Some(TokenKind::Whole {
        value,
        hexadecimal: radix == 16,
    })
}

#[tactic(auto, unfolding(crate::specs::Code::Reading::power_of_ten))]
fn power_of_ten(exponent: usize) -> u128
    ensures value { result ≡ spec.power_of_ten exponent }
    ensures bound { result ≤ 100_000_000 }
{
    match exponent {
        0 => 1,
        1 => 10,
        2 => 100,
        3 => 1_000,
        4 => 10_000,
        5 => 100_000,
        6 => 1_000_000,
        7 => 10_000_000,
        _ => 100_000_000,
    }
}

// The fixed literal of the whole part and the decimals, of which so many are lacking to eight.
#[tactic(auto, unfolding(crate::specs::Code::Reading::fixed))]
fn fixed(whole: Option<u128>, decimals: Option<u128>, lacking: usize) -> Option<TokenKind>
    ensures { result ≡ spec.fixed whole decimals lacking }
{
    let whole = whole?;
    let decimals = decimals?;
    if whole >= 1 << 64 || decimals >= 100_000_000 {
        return None;
    }
    Some(TokenKind::Fixed(whole * 100_000_000 + decimals * power_of_ten(lacking)))
}

/// The literal of a number at the front, and the bytes behind it. None where its digits make no literal.
#[tactic(auto, unfolding(crate::specs::Code::Reading::number_shape, crate::specs::Code::Reading::judge))]
pub fn literal(bytes: &[u8]) -> Option<(TokenKind, &[u8])>
    ensures { option_map spec.seen result ≡ spec.judged (Some (spec.number_shape bytes.now)) }
{
    if let Some((radix, digits)) = based(bytes) {
        let Numeral { value, rest, .. } = read_numeral(radix, digits.len(), digits);
        return Some((whole(radix, value, rest)?, rest));
    }
    let Numeral { value, rest, .. } = read_numeral(10, bytes.len(), bytes);
    let Some(decimals) = behind_point(rest) else {
        return Some((whole(10, value, rest)?, rest));
    };
    let fraction = read_numeral(10, 8, decimals);
    let kind = fixed(value, fraction.value, fraction.lacking)?;
    Some((kind, fraction.rest))
}
