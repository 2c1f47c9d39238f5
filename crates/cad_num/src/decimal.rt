// Decimal texts of numbers.
ghost use Rattle.std.specs.Prelude.{◌≡◌, ◌≢◌, IfOk, IfSome, Some, option_map, string_bytes, decimal, ◌++◌, ◌∷◌, ◌/◌, ◌%◌, ◌^◌};
ghost use Rattle.cad_num.specs.Decimal.{read_of, written, whole_of, fixed_of, magnitude_of, has_sign, unsigned_part, eight_digits, magnitude_text, within_128_bits};
ghost use Rattle.cad_num.specs.Numbers.{value_of};

use crate::kinds::is_fixed;
use cad_syntax::{Kind, Num, Text};
use std::alloc::{AllocError, Global};

/// The number that digits write. None off the form and from 2^128 on.
fn read_whole(text: &str) -> Option<u128>
    ensures { result ≡ within_128_bits (whole_of text.now) }
{
    if text.starts_with('+') {
        return None;
    }
    text.parse::<u128>().ok()
}

/// The number that digits, a point and 1 to 8 digits write, scaled by 10^8. None off the form and from 2^128 on.
fn read_fixed(text: &str) -> Option<u128>
    ensures { result ≡ within_128_bits (fixed_of text.now) }
{
    let (whole, decimals) = text.split_once('.')?;
    if decimals.len() > 8 {
        return None;
    }
    let whole = read_whole(whole)?;
    let fraction = read_whole(decimals)? * 10u128.pow(8 - decimals.len() as u32);
    whole.checked_mul(100_000_000)?.checked_add(fraction)
}

/// The magnitude that a text without a sign writes. None off the form and from 2^128 on.
fn read_magnitude(kind: Kind, text: &str) -> Option<u128>
    ensures { result ≡ within_128_bits (magnitude_of kind text.now) }
{
    if is_fixed(kind) {
        read_fixed(text)
    } else {
        read_whole(text)
    }
}

/// Whether a `-` stands before the number, and what follows it.
fn split_sign(kind: Kind, text: &str) -> (bool, &str)
    ensures sign { result.0 ≡ has_sign kind text.now }
    ensures rest { result.1.now ≡ unsigned_part kind text.now }
{
    if kind.depth() == 0 {
        return (false, text);
    }
    match text.strip_prefix('-') {
        Some(rest) => (true, rest),
        None => (false, text),
    }
}

/// The number of this kind that a text writes: an optional `-` on a kind with numbers below 0 and digits; on a
/// fixed-point kind digits, `.` and 1 to 8 digits. Any number of leading zeros is read, and `-0` is zero. None exactly
/// off this form and out of the kind's range.
pub fn read_decimal(kind: Kind, text: &str) -> Option<Num>
    requires { kind ≢ Kind.Address }
    ensures value { option_map value_of result ≡ read_of kind text.now }
    ensures kind { IfSome result (λ n. n.kind ≡ kind) }
{
    let (negative, unsigned) = split_sign(kind, text);
    let magnitude = read_magnitude(kind, unsigned)?;
    Num::new(kind, negative, magnitude)
}

/// A sign, the digits before the point, the point and 8 decimals.
fn write_fixed(alloc: Global, sign: &str, magnitude: u128) -> Result<String, AllocError>
    ensures { IfOk result (λ text. string_bytes text
        ≡ sign.now ++ (decimal (magnitude / 10 ^ 8) ++ 46 ∷ eight_digits (magnitude % 10 ^ 8))) }
{
    let whole = magnitude / 100_000_000;
    let fraction = magnitude % 100_000_000;
    format!(in alloc; "{sign}{whole}.{fraction:08}")
}

/// A sign and the text of a magnitude.
fn write_magnitude(
    alloc: Global,
    kind: Kind,
    sign: &str,
    magnitude: u128,
) -> Result<String, AllocError>
    ensures { IfOk result (λ text. string_bytes text ≡ sign.now ++ magnitude_text kind magnitude) }
{
    if is_fixed(kind) {
        write_fixed(alloc, sign, magnitude)
    } else {
        format!(in alloc; "{sign}{magnitude}")
    }
}

/// The text of a number, without leading zeros and without `-0`; of a fixed-point kind with 8 decimals.
pub fn write_decimal(alloc: Global, a: Num) -> Result<Text, AllocError>
    requires { a.kind ≢ Kind.Address }
    ensures text { IfOk result (λ t. t ≡ written a) }
    ensures reads_back { IfOk result (λ t. read_of a.kind t ≡ Some (value_of a)) }
{
    let sign = if a.negative { "-" } else { "" };
    let text = write_magnitude(alloc, a.kind, sign, a.magnitude)?;
    Ok(Text::from_string(text))
}
