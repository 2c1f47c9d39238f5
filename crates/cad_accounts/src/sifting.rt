// Entries, one after another, of which those in byte order are kept apart.
ghost use Rattle.std.specs.Prelude.{◌≡◌, List, ℕ, OnOk, IfOk, true};
ghost use Rattle.cad_wire.specs.Body.{are_ascending};
ghost use Rattle.cad_accounts.specs.Registers.{Map, applied, changed};
ghost use Rattle.cad_accounts.specs.Code.Places.{IsPlace, entry_key};

use cad_wire::Entry;
use std::alloc::{AllocError, Global};
use std::cmp::Ordering;
use std::marker::Model;

// Where an entry with a key is, or else where one belongs, by halving.
fn search(entries: &[Entry], key: &[u8]) -> Result<usize, usize>
    requires { are_ascending entries.now ≡ true }
    ensures { IsPlace entry_key key.now entries.now result }
{
    entries.binary_search_by(|e| e.key.0.as_slice().cmp(key))
}

// Where an entry with a key is, or else where one belongs. The last and the first entry are looked at before others.
fn place(entries: &[Entry], key: &[u8]) -> Result<usize, usize>
    requires { are_ascending entries.now ≡ true }
    ensures { IsPlace entry_key key.now entries.now result }
{
    let count = entries.len();
    if count == 0 {
        return Err(0);
    }
    match entries[count - 1].key.0.as_slice().cmp(key) {
        Ordering::Less => return Err(count),
        Ordering::Equal => return Ok(count - 1),
        Ordering::Greater => {}
    }
    if entries[0].key.0.as_slice() == key {
        return Ok(0);
    }
    search(entries, key)
}

// Sorts entries by their keys. Those of one key stay in their order.
fn sort_by_keys(entries: &mut Vec<Entry>) -> Result<(), AllocError>
    ensures { OnOk result ((m : Map) (key : List ℕ) → applied entries.new.items m key ≡ applied entries.old.items m key) }
{
    entries.sort_by(|a, b| a.key.0.as_slice().cmp(b.key.0.as_slice()))
}

/// Entries, which contracts see as those in byte order of their keys, each key once, and behind them the late ones: their keys
/// aren't among the others, and come before the last of these.
#[derive(Drop)]
pub(crate) struct Sifted {
    in_order: Vec<Entry>,
    late: Vec<Entry>,
}

impl Model for Sifted {
    ghost use Rattle.std.specs.Prelude.{◌≡◌, ◌++◌, List, true};
    ghost use Rattle.cad_wire.specs.declared.entry.Entry.{Entry};
    ghost use Rattle.cad_wire.specs.Body.{are_ascending};
    ghost use Rattle.cad_accounts.specs.Code.Places.{AreLate};

    ghost Value = { List Entry };

    ghost view = { λ s. s.in_order.items ++ s.late.items };

    ghost invariant = { λ s. (are_ascending s.in_order.items ≡ true) × AreLate s.in_order.items s.late.items };
}

impl Sifted {
    /// None yet, with room for so many in byte order.
    pub(crate) fn new(alloc: Global, room: usize) -> Result<Sifted, AllocError>
        ensures { IfOk result (λ sifted. (m : Map) → applied sifted m ≡ m) }
    {
        let in_order = Vec::with_capacity(alloc, room)?;
        Ok(Sifted {
            in_order,
            late: Vec::new(alloc),
        })
    }

    /// Takes one entry more. An entry of the same key in byte order is replaced.
    pub(crate) fn take(&mut self, entry: Entry) -> Result<(), AllocError>
        ensures { OnOk result ((m : Map) → applied self.new m ≡ changed entry.key.0 entry.value (applied self.old m)) }
    {
        match place(self.in_order.as_slice(), entry.key.0.as_slice()) {
            Ok(i) => self.in_order[i].value = entry.value,
            Err(i) if i == self.in_order.len() => self.in_order.push(entry)?,
            Err(_) => self.late.push(entry)?,
        }
        Ok(())
    }

    /// All of them, sorted by their keys. Those of one key stay in their order.
    pub(crate) fn into_sorted(self) -> Result<Vec<Entry>, AllocError>
        ensures { IfOk result (λ entries. (m : Map) (key : List ℕ) → applied entries.items m key ≡ applied self m key) }
    {
        let Sifted {
            mut in_order,
            mut late,
        } = self;
        if late.is_empty() {
            return Ok(in_order);
        }
        in_order.append(&mut late)?;
        sort_by_keys(&mut in_order)?;
        Ok(in_order)
    }
}
