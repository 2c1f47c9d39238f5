// Reading fields.
ghost use Rattle.std.specs.Prelude.{◌≡◌, length, Some, None, IfOk, OnErr};
ghost use Rattle.cad_wire.specs.Fields.{byte_at, number_at, length_at, bytes_at};

use std::marker::Model;

/// Too few bytes are left.
#[derive(Clone, Copy, Debug, PartialEq, Eq)]
pub struct Short;

/// Bytes that are read field by field from the front, which contracts see as the list of those that are left. Where too
/// few are left for a field, it is as it was.
#[derive(Debug, Drop)]
pub struct Reader<'a> {
    rest: &'a [u8],
}

impl<'a> Model for Reader<'a> {
    ghost use Rattle.std.specs.Prelude.{List, ℕ};

    ghost Value = { List ℕ };

    ghost view = { λ r. r.rest.now };
}

impl<'a> Reader<'a> {
    /// All the bytes are left.
    pub fn new(bytes: &'a [u8]) -> Reader<'a>
        ensures { result ≡ bytes.now }
    {
        Reader { rest: bytes }
    }

    /// How many bytes are left.
    pub fn left(&self) -> usize
        ensures { result ≡ length self.now }
    {
        self.rest.len()
    }

    /// Reads a byte. Short exactly where none is left.
    pub fn byte(&mut self) -> Result<u8, Short>
        ensures ok { IfOk result (λ b. byte_at self.old ≡ Some (b, self.new)) }
        ensures short { OnErr result (byte_at self.old ≡ None) }
        ensures stays { OnErr result (self.new ≡ self.old) }
    {
        match self.rest {
            [] => Err(Short),
            [first, rest @ ..] => {
                self.rest = rest;
                Ok(*first)
            }
        }
    }

    /// Reads a number. Short exactly where fewer than 8 bytes are left.
    pub fn number(&mut self) -> Result<u64, Short>
        ensures ok { IfOk result (λ n. number_at self.old ≡ Some (n, self.new)) }
        ensures short { OnErr result (number_at self.old ≡ None) }
        ensures stays { OnErr result (self.new ≡ self.old) }
    {
        let Some((front, rest)) = self.rest.split_first_chunk::<8>() else {
            return Err(Short);
        };
        self.rest = rest;
        Ok(u64::from_be_bytes(*front))
    }

    /// Reads a list's length. Short exactly where fewer than 4 bytes are left.
    pub fn length(&mut self) -> Result<u32, Short>
        ensures ok { IfOk result (λ n. length_at self.old ≡ Some (n, self.new)) }
        ensures short { OnErr result (length_at self.old ≡ None) }
        ensures stays { OnErr result (self.new ≡ self.old) }
    {
        let Some((front, rest)) = self.rest.split_first_chunk::<4>() else {
            return Err(Short);
        };
        self.rest = rest;
        Ok(u32::from_be_bytes(*front))
    }

    /// Reads a byte string. Short exactly where its length isn't whole, or where fewer bytes than that are left after it.
    #[tactic(auto, unfolding(crate::specs::Fields::bytes_at))]
    pub fn bytes(&mut self) -> Result<&'a [u8], Short>
        ensures ok { IfOk result (λ b. bytes_at self.old ≡ Some (b.now, self.new)) }
        ensures short { OnErr result (bytes_at self.old ≡ None) }
        ensures stays { OnErr result (self.new ≡ self.old) }
    {
        let Some((front, rest)) = self.rest.split_first_chunk::<4>() else {
            return Err(Short);
        };
        let length = u32::from_be_bytes(*front) as usize;
        if rest.len() < length {
            return Err(Short);
        }
        let (bytes, rest) = rest.split_at(length);
        self.rest = rest;
        Ok(bytes)
    }
}
