// Identifiers of declared types.
ghost use Rattle.std.specs.Prelude.{◌≡◌, ◌==◌, ◌↔◌, IsTrue, IfOk, MatchOption, Contains, map};
ghost use Rattle.std.specs.List.{list_all, slice_split};
ghost use Rattle.cad_syntax.specs.declared.type_id.TypeId.{TypeId};
ghost use Rattle.cad_syntax.specs.TypeIds as spec;
ghost use Rattle.cad_syntax.specs.Code.TypeIds as reading;

use crate::address::{Address, hex_number, push_hex};
use crate::items::{Items, Names};
use crate::names::is_name;
use crate::text::{Name, Text};
use std::alloc::{AllocError, Global};

/// The identifier of a declared type: the account of its contract, and the names that lead to it, the contract's first.
#[derive(Debug, Drop, PartialEq, Eq, Hash)]
pub struct TypeId {
    pub address: Address,
    pub names: Names,
}

pub type TypeIds = Items<TypeId>;

/// Pairs of identifiers, as a mapping of entitlements has them.
pub type Pairs = Items<(TypeId, TypeId)>;

impl Clone for TypeId {
    ghost is_clone = { λ id copy. copy ≡ id };

    fn clone(&self) -> Result<TypeId, AllocError> {
        Ok(TypeId {
            address: self.address,
            names: self.names.clone()?,
        })
    }
}

impl TypeId {
    /// Whether the two are one identifier.
    pub fn same(&self, other: &TypeId) -> bool
        ensures value { result ≡ spec.same_id self.now other.now }
        ensures tells { IsTrue result ↔ (self.now ≡ other.now) }
    {
        self == other
    }

    /// Writes `A.`, the address by 16 hexadecimal digits in lower case, and the names with a `.` before each.
    pub fn to_text(&self, alloc: Global) -> Result<Text, AllocError>
        ensures { IfOk result (λ text. text ≡ spec.type_text self.now) }
    {
        let mut text = Text::from_str(alloc, "A.")?;
        push_hex(&mut text, 16, self.address.0)?;
        for name in self.names.as_slice() {
            text.push('.')?;
            text.push_str(name.0.as_str())?;
        }
        Ok(text)
    }
    /// Reads the text of an identifier whose names are names. None exactly where no such identifier has this text.
    pub fn from_text(alloc: Global, text: &str) -> Result<Option<TypeId>, AllocError>
        ensures { IfOk result (λ id. MatchOption id ((other : TypeId) → ¬ (spec.Spells text.now other)) (spec.Spells text.now)) }
    {
        let parts = parts(alloc, text)?;
        let id = from_parts(alloc, parts.as_slice())?;
        Ok(id)
    }
}

/// Whether two lists of identifiers are one list.
pub fn same_ids(a: &TypeIds, b: &TypeIds) -> bool
    ensures { IsTrue result ↔ (a.now ≡ b.now) }
{
    a == b
}

/// Whether an identifier is one of a list.
pub fn contains(ids: &[TypeId], id: &TypeId) -> bool
    ensures value { result ≡ spec.has ids.now id.now }
    ensures tells { IsTrue result ↔ Contains ids.now id.now }
{
    has(ids, id)
}

fn has(ids: &[TypeId], id: &TypeId) -> bool
    ensures { result ≡ spec.has ids.now id.now }
{
    ids.iter().any(|other| other.same(id))
}

/// The parts between the dots of a text.
fn parts(alloc: Global, text: &str) -> Result<Vec<&str>, AllocError>
    ensures { IfOk result (λ parts. map (λ part. part.now) parts.items ≡ slice_split (λ b. b == 46) text.now) }
{
    text.split('.').collect(alloc)
}

/// The identifier whose text has these parts between its dots.
fn from_parts(alloc: Global, parts: &[&str]) -> Result<Option<TypeId>, AllocError>
    ensures { IfOk result (λ id. id ≡ reading.id_of (map (λ part. part.now) parts.now)) }
{
    if parts.len() < 2 || parts[0] != "A" {
        return Ok(None);
    }
    let Some(number) = full_number(parts[1].as_bytes()) else {
        return Ok(None);
    };
    let Some(names) = names_from(alloc, &parts[2..])? else {
        return Ok(None);
    };
    let address = Address(number);
    Ok(Some(TypeId { address, names }))
}

/// The number that 16 hexadecimal digits in lower case write.
fn full_number(digits: &[u8]) -> Option<u64>
    ensures { result ≡ reading.full_number digits.now }
{
    if digits.len() != 16 || !are_lower_digits(digits) {
        return None;
    }
    hex_number(digits)
}

fn are_lower_digits(digits: &[u8]) -> bool
    ensures { result ≡ list_all reading.is_lower_digit digits.now }
{
    digits
        .iter()
        .all(|b| b.is_ascii_digit() || (b'a' <= *b && *b <= b'f'))
}

/// The names, if all of the texts are names.
fn names_from(alloc: Global, texts: &[&str]) -> Result<Option<Names>, AllocError>
    ensures { IfOk result (λ names. names ≡ reading.names_of (map (λ text. text.now) texts.now)) }
{
    let mut names = Names::new(alloc);
    for text in texts {
        if !is_name(text) {
            return Ok(None);
        }
        names.push(Name(Text::from_str(alloc, text)?))?;
    }
    Ok(Some(names))
}
