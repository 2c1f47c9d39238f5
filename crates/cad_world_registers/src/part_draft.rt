// What registers make of a World of which some accounts are wanted, one behind another.
ghost use Rattle.std.specs.Prelude.{◌≡◌, MatchOption, OnOk, map};
ghost use Rattle.cad_codec.specs.Answers.{GivesAs};
ghost use Rattle.cad_world_registers.specs.Code.PartDrafts as spec;
ghost use Rattle.cad_world_registers.specs.Code.PartDrafts.{known_of, part_of};
ghost use Rattle.cad_world_registers.specs.Meaning.{changed_by, item_of};
ghost use Rattle.cad_worlds.specs.Items as items;
ghost use Rattle.cad_worlds.specs.RowLists.{rows_at};
ghost use Rattle.cad_worlds.specs.Standing.{register_of};

use crate::making::{begun_account, change_account, discard_change, push_source, push_value};
use crate::parts::discard_contract_parts;
use crate::saying::{Change, Said, read_row};
use crate::selection::is_selected;
use cad_accounts::Row;
use cad_codec::DecodeError;
use cad_loads::Source;
use cad_state::{Known, discard_account, discard_known};
use cad_values::Value;
use std::alloc::{AllocError, Global};

/// What registers make of a World of which some accounts are wanted, without the programs of its contracts.
pub struct PartDraft {
    /// How many accounts there are.
    pub count: u64,
    /// Those that are wanted.
    pub known: Vec<Known>,
    /// The codes of contracts, in the order of their registers.
    pub sources: Vec<Source>,
    /// Their values, in the order of their registers.
    pub values: Vec<Value>,
    pub next_identity: u64,
}

/// Lets it go.
fn discard_part_draft(draft: PartDraft) {
    let PartDraft {
        count: _,
        known,
        sources,
        values,
        next_identity: _,
    } = draft;
    discard_known(known);
    discard_contract_parts(sources, values)
}

// ---- one account

/// Adds an account in which nothing is, by its address.
#[tactic(auto, using(crate::proofs::PartSteps::known_more))]
fn push_known(
    alloc: Global,
    address: u64,
    number: u64,
    known: &mut Vec<Known>,
) -> Result<(), AllocError>
    ensures { OnOk result (map known_of known.new.items ≡ spec.add_known address (items.begun_account number) (map known_of known.old.items)) }
{
    let index = address.saturating_sub(1);
    let account = begun_account(alloc, number);
    match known.push(Known { index, account }) {
        Ok(()) => Ok(()),
        Err(refused) => {
            let Known { index: _, account } = refused.value;
            discard_account(account);
            Err(AllocError)
        }
    }
}

/// Whether this is the account of an address.
fn has_address(known: &Known, address: u64) -> bool
    ensures { result ≡ spec.has_address address known.now.index }
{
    if address == 0 {
        return false;
    }
    known.index == address - 1
}

/// Where the account of an address stands.
fn place_of(known: &[Known], address: u64) -> Option<usize>
    ensures { MatchOption result (spec.HasNone address known.now) (λ i. spec.IsPlace address known.now i) }
{
    for i in 0..known.len() {
        if has_address(&known[i], address) {
            return Some(i);
        }
    }
    None
}

/// Gives an account what it has more.
fn change_one(alloc: Global, known: &mut Known, change: Change) -> Result<(), AllocError>
    ensures { OnOk result (known_of known.new ≡ spec.changed_one (changed_by change) (known_of known.old)) }
{
    change_account(alloc, &mut known.account, change)?;
    Ok(())
}

/// Gives the account of an address what it has more; where it isn't known, nothing.
#[tactic(auto, using(crate::proofs::PartSteps::changed_place, crate::proofs::PartSteps::changed_none, crate::proofs::PartSteps::place_inside))]
fn change_known(
    alloc: Global,
    known: &mut Vec<Known>,
    address: u64,
    change: Change,
) -> Result<(), AllocError>
    ensures { OnOk result (map known_of known.new.items ≡ spec.change_known address (changed_by change) (map known_of known.old.items)) }
{
    match place_of(known.as_slice(), address) {
        Some(i) => {
            change_one(alloc, &mut known[i], change)?;
            Ok(())
        }
        None => {
            discard_change(change);
            Ok(())
        }
    }
}

// ---- all of it

/// Puts what a register says behind what others said.
#[tactic(auto, using(crate::proofs::PartSteps::put_known))]
fn put(alloc: Global, draft: &mut PartDraft, said: Said) -> Result<(), AllocError>
    ensures { OnOk result (part_of draft.new ≡ spec.put (item_of said) (part_of draft.old)) }
{
    match said {
        Said::Head { count, identity } => {
            draft.count = count;
            draft.next_identity = identity;
            Ok(())
        }
        Said::Next { address, number } => {
            push_known(alloc, address, number, &mut draft.known)?;
            Ok(())
        }
        Said::Code { id, code } => {
            push_source(alloc, id, code, &mut draft.sources)?;
            Ok(())
        }
        Said::Fields { id, value } => {
            drop(id);
            push_value(value, &mut draft.values)?;
            Ok(())
        }
        Said::Has { address, change } => {
            change_known(alloc, &mut draft.known, address, change)?;
            Ok(())
        }
    }
}

/// Puts what a row says behind what others said, where it is read.
fn take_row(
    alloc: Global,
    wanted: &[u64],
    draft: &mut PartDraft,
    row: &Row,
) -> Result<(), DecodeError>
    ensures { GivesAs (λ done. part_of draft.new) result (spec.take wanted.now row.now.key.0 row.now.value (part_of draft.old)) }
{
    if !is_selected(wanted, row) {
        return Ok(());
    }
    let said = read_row(alloc, row)?;
    put(alloc, draft, said)?;
    Ok(())
}

/// Puts what rows say behind what others said.
fn take_rows(
    alloc: Global,
    wanted: &[u64],
    draft: &mut PartDraft,
    rows: &[&Row],
) -> Result<(), DecodeError>
    ensures { GivesAs (λ done. part_of draft.new) result (spec.take_all wanted.now (map register_of (rows_at rows.now)) (part_of draft.old)) }
{
    for row in rows {
        take_row(alloc, wanted, draft, row)?;
    }
    Ok(())
}

/// What no register makes.
fn empty_part(alloc: Global) -> PartDraft
    ensures { part_of result ≡ spec.empty_part }
{
    PartDraft {
        count: 0,
        known: Vec::new(alloc),
        sources: Vec::new(alloc),
        values: Vec::new(alloc),
        next_identity: 1,
    }
}

/// What registers make, of accounts that are wanted.
pub fn make_part(alloc: Global, wanted: &[u64], rows: &[&Row]) -> Result<PartDraft, DecodeError>
    ensures { GivesAs part_of result (spec.take_all wanted.now (map register_of (rows_at rows.now)) spec.empty_part) }
{
    let mut draft = empty_part(alloc);
    match take_rows(alloc, wanted, &mut draft, rows) {
        Ok(()) => Ok(draft),
        Err(error) => {
            discard_part_draft(draft);
            Err(error)
        }
    }
}
