// Numbers: digits with underscores between them.
ghost use Rattle.std.specs.Prelude.{◌≡◌, ◌+◌, length, Some};
ghost use Rattle.std.specs.Char.{is_digit, digit_value};
ghost use Rattle.cad_lex.specs.Code.Reading as spec;

// 0 to 35 for a digit or a letter, and 36 for any other byte.
fn digit_value(byte: u8) -> u8
    ensures { result ≡ digit_value byte }
{
    match byte {
        b'0'..=b'9' => byte - b'0',
        b'A'..=b'Z' => byte - b'A' + 10,
        b'a'..=b'z' => byte - b'a' + 10,
        _ => 36,
    }
}

/// Whether this is a digit of the radix.
pub fn is_digit(byte: u8, radix: u8) -> bool
    ensures { result ≡ is_digit byte radix }
{
    digit_value(byte) < radix
}

/// The number with one digit more. None where it isn't of 128 bits.
#[tactic(auto, unfolding(crate::specs::Code::Reading::add_digit))]
pub fn add_digit(radix: u8, number: Option<u128>, digit: u8) -> Option<u128>
    ensures { result ≡ spec.add_digit radix number digit }
{
    let shifted = u128::from(radix).checked_mul(number?)?;
    shifted.checked_add(u128::from(digit_value(digit)))
}

/// Digits at the front, with underscores between them.
#[derive(Clone, Copy)]
pub struct Numeral<'a> {
    /// Their number. None where it isn't of 128 bits.
    pub value: Option<u128>,
    /// How many digits more were allowed.
    pub lacking: usize,
    /// The bytes behind the last digit.
    pub rest: &'a [u8],
}

/// Reads at most so many digits.
#[tactic(auto, unfolding(crate::specs::Code::Reading::digits_from, crate::specs::Code::Reading::number_from))]
pub fn read_numeral(radix: u8, most: usize, bytes: &[u8]) -> Numeral<'_>
    ensures value { result.value ≡ spec.number_from radix (Some 0) (spec.digits_from radix most bytes.now bytes.now).0 }
    ensures lacking { result.lacking + length (spec.digits_from radix most bytes.now bytes.now).0 ≡ most }
    ensures rest { result.rest.now ≡ (spec.digits_from radix most bytes.now bytes.now).1 }
{
    let mut value = Some(0u128);
    let mut lacking = most;
    let mut rest = bytes;
    let mut ahead = bytes;
    while let [first, next @ ..] = ahead {
        if lacking == 0 {
            break;
        }
        if is_digit(*first, radix) {
            value = add_digit(radix, value, *first);
            lacking -= 1;
            rest = next;
        } else if *first != b'_' {
            break;
        }
        ahead = next;
    }
    Numeral {
        value,
        lacking,
        rest,
    }
}
