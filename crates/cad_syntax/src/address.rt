// Addresses and paths.
ghost use Rattle.std.specs.Prelude.{◌≡◌, ◌++◌, ◌≤◌, length, IfOk, OnOk, option_map};
ghost use Rattle.std.specs.Char.{digit_char};
ghost use Rattle.cad_syntax.specs.Addresses as spec;

use crate::items::Items;
use crate::text::{Name, Text};
use std::alloc::{AllocError, Global};

/// The address of an account.
#[derive(Clone, Copy, Debug, PartialEq, Eq, Hash)]
pub struct Address(pub u64);

pub type Addresses = Items<Address>;

pub type Numbers = Items<u64>;

/// The part of an account that a path leads into.
#[derive(Clone, Copy, Debug, PartialEq, Eq)]
pub enum Domain {
    Storage,
    Public,
}

/// A path into an account.
#[derive(Debug, Drop, PartialEq, Eq)]
pub struct Path {
    pub domain: Domain,
    pub identifier: Name,
}

impl Clone for Path {
    ghost is_clone = { λ path copy. copy ≡ path };

    fn clone(&self) -> Result<Path, AllocError> {
        Ok(Path {
            domain: self.domain,
            identifier: self.identifier.clone()?,
        })
    }
}

impl Address {
    /// Reads `0x` and 1 to 16 hexadecimal digits in either case. None exactly off this form.
    pub fn from_hex(text: &str) -> Option<Address>
        ensures { option_map (λ address. address.0) result ≡ spec.address_of text.now }
    {
        let bytes = text.as_bytes();
        if bytes.len() < 3 || 18 < bytes.len() || bytes[0] != b'0' || bytes[1] != b'x' {
            return None;
        }
        Some(Address(hex_number(&bytes[2..])?))
    }

    /// Writes `0x` and 16 hexadecimal digits in lower case.
    pub fn to_hex(self, alloc: Global) -> Result<Text, AllocError>
        ensures { IfOk result (λ text. text ≡ spec.address_text self.0) }
    {
        let mut text = Text::from_str(alloc, "0x")?;
        push_hex(&mut text, 16, self.0)?;
        Ok(text)
    }
}

/// The number that hexadecimal digits in either case write. None exactly where one of them is no digit.
pub(crate) fn hex_number(digits: &[u8]) -> Option<u64>
    requires { length digits.now ≤ 16 }
    ensures { result ≡ spec.hex_number digits.now }
{
    let mut number = 0u64;
    for byte in digits {
        let digit = (*byte as char).to_digit(16)?;
        number = 16 * number + u64::from(digit);
    }
    Some(number)
}

/// Appends the lowest hexadecimal digits of a number, as many as `count` says, in lower case.
#[tactic(auto, using(crate::proofs::Hex::hex_digits_none, crate::proofs::Hex::hex_digits_more, std::proofs::lemmas::Str::encode_ascii))]
pub(crate) fn push_hex(text: &mut Text, count: u32, number: u64) -> Result<(), AllocError>
    ensures { OnOk result (text.new ≡ text.old ++ spec.hex_digits count number) }
{
    if count == 0 {
        return Ok(());
    }
    push_hex(text, count - 1, number / 16)?;
    text.push(hex_digit((number % 16) as u8))?;
    Ok(())
}

/// The hexadecimal digit of a number below 16, in lower case.
fn hex_digit(value: u8) -> char
    requires { value ≤ 15 }
    ensures { result ≡ digit_char value }
{
    if value < 10 {
        (b'0' + value) as char
    } else {
        (b'a' + (value - 10)) as char
    }
}
