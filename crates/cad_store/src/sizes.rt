// What changes add to the size of a record of all registers. None where a sum is 2^64 or more.
ghost use Rattle.std.specs.Prelude.{◌≡◌, ◌≤◌, ◌^◌, length, IfSome, Some, None};
ghost use Rattle.cad_accounts.specs.Registers.{at};
ghost use Rattle.cad_accounts.specs.Room.{rows_of};
ghost use Rattle.cad_store.specs.Code.Sizes.{value_size, added, replaced};

use cad_accounts::{MapRegisters, Registers};
use cad_wire::{Entry, Key};

fn size_of_entry(key: &Key, value: &[u8]) -> Option<u64>
    ensures is { IfSome result (λ n. n ≡ value_size key.now.0 (Some value.now)) }
    ensures over { result ≡ None → 2 ^ 64 ≤ value_size key.now.0 (Some value.now) }
{
    let length = key.0.len() as u64;
    length.checked_add(value.len() as u64)?.checked_add(9)
}

fn size_of_new(change: &Entry) -> Option<u64>
    ensures is { IfSome result (λ n. n ≡ value_size change.now.key.0 change.now.value) }
    ensures over { result ≡ None → 2 ^ 64 ≤ value_size change.now.key.0 change.now.value }
{
    match &change.value {
        None => Some(0),
        Some(value) => size_of_entry(&change.key, value.as_slice()),
    }
}

fn size_of_old(registers: &MapRegisters, key: &Key) -> Option<u64>
    ensures is { IfSome result (λ n. n ≡ value_size key.now.0 (at (rows_of registers.now) key.now.0)) }
    ensures over { result ≡ None → 2 ^ 64 ≤ value_size key.now.0 (at (rows_of registers.now) key.now.0) }
{
    match registers.get(key) {
        None => Some(0),
        Some(value) => size_of_entry(key, value),
    }
}

/// How many bytes the entries of the new values have.
pub fn size_added(changes: &[Entry]) -> Option<u64>
    ensures is { IfSome result (λ n. n ≡ added changes.now) }
    ensures over { result ≡ None → 2 ^ 64 ≤ added changes.now }
{
    let mut sum = 0u64;
    for change in changes {
        sum = sum.checked_add(size_of_new(change)?)?;
    }
    Some(sum)
}

/// How many the entries of the values that they replace have.
pub fn size_replaced(registers: &MapRegisters, changes: &[Entry]) -> Option<u64>
    ensures is { IfSome result (λ n. n ≡ replaced (at (rows_of registers.now)) changes.now) }
    ensures over { result ≡ None → 2 ^ 64 ≤ replaced (at (rows_of registers.now)) changes.now }
{
    let mut sum = 0u64;
    for change in changes {
        sum = sum.checked_add(size_of_old(registers, &change.key)?)?;
    }
    Some(sum)
}
