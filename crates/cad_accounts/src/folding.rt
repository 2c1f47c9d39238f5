// Registers from the records of a tape.
ghost use Rattle.std.specs.Prelude.{◌≡◌, List, ℕ, IfOk, OnOk};
ghost use Rattle.cad_accounts.specs.Registers.{Map, at, applied, folded, no_registers};
ghost use Rattle.cad_accounts.specs.Room.{rows_of};

use crate::registers::MapRegisters;
use crate::sifting::Sifted;
use cad_syntax::Items;
use cad_wire::{Entries, Entry};
use std::alloc::{AllocError, Global};

// Takes the entries of a record.
fn take_all(sifted: &mut Sifted, entries: Entries) -> Result<(), AllocError>
    ensures { OnOk result ((m : Map) → applied sifted.new m ≡ applied entries (applied sifted.old m)) }
{
    for entry in entries.into_vec() {
        sifted.take(entry)?;
    }
    Ok(())
}

// The entries of all records. Most records add at most one register, and the first one more.
fn sift(alloc: Global, records: Items<Entries>) -> Result<Sifted, AllocError>
    ensures { IfOk result (λ sifted. (m : Map) → applied sifted m ≡ folded records m) }
{
    let mut sifted = Sifted::new(alloc, records.len().saturating_add(1))?;
    for record in records.into_vec() {
        take_all(&mut sifted, record)?;
    }
    Ok(sifted)
}

// The registers that entries leave, one after another.
fn apply_all(alloc: Global, entries: Vec<Entry>) -> Result<MapRegisters, AllocError>
    ensures { IfOk result (λ registers. (key : List ℕ) → at (rows_of registers) key ≡ applied entries.items no_registers key) }
{
    let mut registers = MapRegisters::new(alloc);
    for entry in entries {
        registers.apply(entry)?;
    }
    Ok(registers)
}

/// The registers that records leave, one after another. What comes out of the order of keys is sorted first, so that each
/// register comes behind those that are there: n entries take a time of n log n at most. AllocError where memory runs out, or
/// where a record holds what `apply` can't take.
pub fn fold_records(alloc: Global, records: Items<Entries>) -> Result<MapRegisters, AllocError>
    ensures { IfOk result (λ registers. (key : List ℕ) → at (rows_of registers) key ≡ folded records no_registers key) }
{
    let sifted = sift(alloc, records)?;
    let entries = sifted.into_sorted()?;
    apply_all(alloc, entries)
}
