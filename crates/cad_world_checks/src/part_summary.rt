// What is kept of what is known of a World while a run changes it: of which accounts it is, and its identities.
ghost use Rattle.std.specs.Prelude.{◌≡◌, ◌++◌, ◌||◌, nat_le, IsTrue, IfOk, OnOk, map};
ghost use Rattle.std.specs.BTreeSet.{contains};
ghost use Rattle.std.specs.List.{flat_map, list_all};
ghost use Rattle.std.specs.Ordering.{nat_cmp};
ghost use Rattle.cad_world_checks.specs.Code.Summaries as code;
ghost use Rattle.cad_world_checks.specs.Identities.{HoldsNumbers};
ghost use Rattle.cad_world_checks.specs.Parts as spec;

use crate::identities::{add_contracts, add_number, are_own_numbers};
use cad_rows::add_row_identities;
use cad_state::Known;
use cad_syntax::Numbers;
use cad_worlds::WorldPart;
use std::alloc::{AllocError, Global};
use std::collections::BTreeSet;

/// What is kept of what is known of a World while a run changes it.
#[derive(Drop)]
pub struct PartSummary {
    /// How many accounts there are.
    pub count: u64,
    /// The indexes of the known accounts.
    pub indexes: Numbers,
    /// The identities in what known accounts store and in the values of contracts.
    pub identities: Numbers,
    /// The identity of the next resource.
    pub next_identity: u64,
}

// ---- what is kept

/// Appends the identities in what known accounts store.
fn add_known(found: &mut Numbers, known: &[Known]) -> Result<(), AllocError>
    ensures { OnOk result (found.new ≡ found.old ++ flat_map spec.known_identities known.now) }
{
    for one in known {
        add_row_identities(found, one.account.stored.as_slice())?;
    }
    Ok(())
}

/// The identities of what is known of a World: in known accounts and in the values of contracts.
pub fn part_identities(alloc: Global, part: &WorldPart) -> Result<Numbers, AllocError>
    ensures { IfOk result (λ found. found ≡ spec.part_identities part.now) }
{
    let known = part.known.as_slice();
    let contracts = part.contracts.as_slice();
    let mut found = Numbers::new(alloc);
    add_known(&mut found, known)?;
    add_contracts(&mut found, contracts)?;
    Ok(found)
}

/// The indexes of known accounts.
fn indexes_of(alloc: Global, known: &[Known]) -> Result<Numbers, AllocError>
    ensures { IfOk result (λ found. found ≡ map spec.index_of known.now) }
{
    let mut found = Numbers::new(alloc);
    for one in known {
        found.push(one.index)?;
    }
    Ok(found)
}

/// What is kept of what is known of a World.
pub fn summary_of(alloc: Global, part: &WorldPart) -> Result<PartSummary, AllocError>
    ensures { IfOk result (λ a. a ≡ spec.summary part.now) }
{
    let known = part.known.as_slice();
    let indexes = indexes_of(alloc, known)?;
    let identities = part_identities(alloc, part)?;
    Ok(PartSummary {
        count: part.count,
        indexes,
        identities,
        next_identity: part.next_identity,
    })
}

// ---- numbers that were there, and new ones

/// The set of these numbers.
fn number_set(alloc: Global, numbers: &[u64]) -> Result<BTreeSet<u64>, AllocError>
    ensures { IfOk result (λ set. HoldsNumbers set numbers.now) }
{
    let mut seen = BTreeSet::new(alloc);
    for number in numbers {
        add_number(&mut seen, *number)?;
    }
    Ok(seen)
}

/// Whether a number is in a set or at least the next one.
fn is_in_or_new(seen: &BTreeSet<u64>, next: u64, number: u64) -> bool
    ensures { result ≡ (contains nat_cmp seen.now number || nat_le next number) }
{
    seen.contains(&number) || next <= number
}

/// Whether each number is.
fn are_in_or_new(seen: &BTreeSet<u64>, next: u64, numbers: &[u64]) -> bool
    ensures { result ≡ list_all (λ n. contains nat_cmp seen.now n || nat_le next n) numbers.now }
{
    numbers
        .iter()
        .all(|number| is_in_or_new(seen, next, *number))
}

/// Whether each number is among these or at least the next one.
fn are_among_or_new(
    alloc: Global,
    known: &[u64],
    next: u64,
    numbers: &[u64],
) -> Result<bool, AllocError>
    ensures { IfOk result (λ b. b ≡ code.are_among_or_new known.now next numbers.now) }
{
    let seen = number_set(alloc, known)?;
    Ok(are_in_or_new(&seen, next, numbers))
}

/// Whether what is known after a run is of the accounts that were known before it and perhaps others, and its identities were
/// there or are new.
pub(crate) fn follows(
    alloc: Global,
    before: &PartSummary,
    after: &PartSummary,
) -> Result<bool, AllocError>
    ensures { IfOk result (λ b. IsTrue b → code.Follows before.now after.now) }
{
    let next = before.next_identity;
    if next > after.next_identity {
        return Ok(false);
    }
    let old = before.indexes.as_slice();
    if !are_own_numbers(alloc, before.count, old)? {
        return Ok(false);
    }
    let new = after.indexes.as_slice();
    if !are_own_numbers(alloc, after.count, new)? {
        return Ok(false);
    }
    if !are_among_or_new(alloc, new, before.count, old)? {
        return Ok(false);
    }
    let numbers = after.identities.as_slice();
    if !are_own_numbers(alloc, after.next_identity, numbers)? {
        return Ok(false);
    }
    let known = before.identities.as_slice();
    are_among_or_new(alloc, known, next, numbers)
}
