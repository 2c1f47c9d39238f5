// Which registers are known with a part of a World.
ghost use Rattle.std.specs.Prelude.{◌≡◌, ◌<◌, ◌≤◌, ℕ, true, IsTrue, option_map};
ghost use Rattle.cad_wire.specs.Fields.{number_at};
ghost use Rattle.cad_worlds.specs.Code.KnownRegisters as spec;

use crate::rows::{CODE, FIELDS, HEAD};
use cad_state::Known;

/// Whether the account of an index is known.
fn has_index(known: &[Known], index: u64) -> bool
    ensures { result ≡ spec.has_index known.now index }
{
    for one in known {
        if one.index == index {
            return true;
        }
    }
    false
}

/// Whether the accounts of these indexes are all known, from one on and below another.
pub(crate) fn are_known(known: &[Known], from: u64, to: u64) -> bool
    ensures { IsTrue result → (i : ℕ) → from ≤ i → i < to → spec.has_index known.now i ≡ true }
{
    for index in from..to {
        if !has_index(known, index) {
            return false;
        }
    }
    true
}

/// Whether known accounts stand in the order of their indexes, each once, and are among so many.
pub(crate) fn are_in_order(known: &[Known], count: u64) -> bool
    ensures { IsTrue result → spec.StandBetween 0 count known.now }
{
    let mut least = 0;
    for one in known {
        if one.index < least || one.index >= count {
            return false;
        }
        least = one.index + 1;
    }
    true
}

/// Whether the account of an address is known.
fn is_known(known: &[Known], address: u64) -> bool
    ensures { result ≡ spec.is_known known.now address }
{
    if address == 0 {
        return false;
    }
    has_index(known, address - 1)
}

/// The number that 8 bytes at the front are.
pub(crate) fn front_number(bytes: &[u8]) -> Option<u64>
    ensures { result ≡ option_map (λ found. found.0) (number_at bytes.now) }
{
    match bytes.split_first_chunk::<8>() {
        Some((front, _)) => Some(u64::from_be_bytes(*front)),
        None => None,
    }
}

/// Whether the account of the address at the front is known.
fn is_known_at(known: &[Known], bytes: &[u8]) -> bool
    ensures { result ≡ spec.is_known_at known.now (number_at bytes.now) }
{
    match front_number(bytes) {
        Some(address) => is_known(known, address),
        None => false,
    }
}

/// Whether registers of a kind are known with each part: how many accounts there are, and what contracts have.
fn is_of_all(kind: u8) -> bool
    ensures { result ≡ spec.is_of_all kind }
{
    kind == HEAD || kind == CODE || kind == FIELDS
}

/// Whether the register of a key is known with a part.
pub(crate) fn is_of_part(known: &[Known], key: &[u8]) -> bool
    ensures { result ≡ spec.is_of_part known.now key.now }
{
    match key {
        [] => false,
        [kind, rest @ ..] => is_of_all(*kind) || is_known_at(known, rest),
    }
}
