// What registers make, one behind another.
ghost use Rattle.std.specs.Prelude.{◌≡◌, ◌<◌, ◌≤◌, ◌++◌, ◌∷◌, [], ℕ, suc, MatchOption, OnOk, map};
ghost use Rattle.cad_accounts.specs.Memory.{rows_in_blocks};
ghost use Rattle.cad_codec.specs.Answers.{GivesAs};
ghost use Rattle.cad_rows.specs.Views.{pure_tree};
ghost use Rattle.cad_loads.specs.Views.{source_of};
ghost use Rattle.cad_state.specs.Views.{account_of, controller_of, publication_of};
ghost use Rattle.cad_values.specs.Values.{pure_value};
ghost use Rattle.cad_world.specs.Labels as labels;
ghost use Rattle.cad_world.specs.Rows as nodes;
ghost use Rattle.cad_world_registers.specs.Meaning.{changed_by, item_of, parts_of, value_row};
ghost use Rattle.cad_world_registers.specs.Told as spec;
ghost use Rattle.cad_worlds.specs.Items as items;
ghost use Rattle.cad_worlds.specs.RowLists.{rows_listed};
ghost use Rattle.cad_worlds.specs.Standing.{register_of};

use crate::parts::{Parts, discard_parts};
use crate::saying::{Change, Said, read_row};
use cad_accounts::{Block, Row};
use cad_codec::DecodeError;
use cad_declarations::discard_type;
use cad_loads::Source;
use cad_rows::{Tree, add_last, discard_tree};
use cad_state::{Account, Controller, Publication, discard_account, discard_value};
use cad_syntax::{Bytes, Name, TypeId};
use cad_value_trees::tree_from_value;
use cad_values::Value;
use cad_worlds::RowList;
use std::alloc::{AllocError, Global};
use std::rc::Rc;

// ---- one account

/// Lets a publication go.
fn discard_publication(publication: Publication) {
    let Publication {
        identifier,
        number: _,
        lent,
    } = publication;
    drop(identifier);
    discard_type(lent)
}

/// Lets a controller go.
fn discard_controller(controller: Controller) {
    let Controller {
        number: _,
        borrow,
        tag,
        target,
    } = controller;
    drop(tag);
    drop(target);
    discard_type(borrow)
}

/// Lets what an account doesn't get go.
pub(crate) fn discard_change(change: Change) {
    match change {
        Change::Stored { name, value } => {
            drop(name);
            discard_value(value)
        }
        Change::Published(publication) => discard_publication(publication),
        Change::Controlled(controller) => discard_controller(controller),
    }
}

/// Stores a tree under an identifier behind the others. Where memory fails, the tree is let go.
fn push_tree(account: &mut Account, name: Name, tree: Tree) -> Result<(), AllocError>
    ensures { OnOk result (account_of account.new ≡ record (account_of account.old) { identifiers = (account_of account.old).identifiers ++ name ∷ []; stored = nodes.add_last (pure_tree tree) (account_of account.old).stored }) }
{
    match account.identifiers.push(name) {
        Ok(()) => {
            add_last(&mut account.stored, tree)?;
            Ok(())
        }
        Err(_) => {
            discard_tree(tree);
            Err(AllocError)
        }
    }
}

/// Stores a value under an identifier behind the others. The value is let go.
fn store(alloc: Global, account: &mut Account, name: Name, value: Value) -> Result<(), AllocError>
    ensures { OnOk result (account_of account.new ≡ items.with_value name (pure_value value) (account_of account.old)) }
{
    let tree = tree_from_value(alloc, &value);
    discard_value(value);
    let tree = tree?;
    push_tree(account, name, tree)?;
    Ok(())
}

/// Publishes one more.
#[tactic(auto, using(crate::proofs::Found::published_more))]
fn publish(account: &mut Account, publication: Publication) -> Result<(), AllocError>
    ensures { OnOk result (account_of account.new ≡ items.with_publication (publication_of publication) (account_of account.old)) }
{
    match account.published.push(publication) {
        Ok(()) => Ok(()),
        Err(refused) => {
            discard_publication(refused.value);
            Err(AllocError)
        }
    }
}

/// Has one more controller.
#[tactic(auto, using(crate::proofs::Found::controlled_more))]
fn control(account: &mut Account, controller: Controller) -> Result<(), AllocError>
    ensures { OnOk result (account_of account.new ≡ items.with_controller (controller_of controller) (account_of account.old)) }
{
    match account.controllers.push(controller) {
        Ok(()) => Ok(()),
        Err(refused) => {
            discard_controller(refused.value);
            Err(AllocError)
        }
    }
}

/// Gives an account what it has more.
pub(crate) fn change_account(
    alloc: Global,
    account: &mut Account,
    change: Change,
) -> Result<(), AllocError>
    ensures { OnOk result (account_of account.new ≡ changed_by change (account_of account.old)) }
{
    match change {
        Change::Stored { name, value } => store(alloc, account, name, value),
        Change::Published(publication) => publish(account, publication),
        Change::Controlled(controller) => control(account, controller),
    }
}

// ---- all accounts

/// An account in which nothing is.
pub(crate) fn begun_account(alloc: Global, number: u64) -> Account
    ensures { account_of result ≡ items.begun_account number }
{
    Account {
        identifiers: Vec::new(alloc),
        stored: Vec::new(alloc),
        published: Vec::new(alloc),
        controllers: Vec::new(alloc),
        next_controller: number,
    }
}

/// Adds an account in which nothing is.
#[tactic(auto, using(crate::proofs::Found::accounts_more))]
fn push_account(alloc: Global, number: u64, accounts: &mut Vec<Account>) -> Result<(), AllocError>
    ensures { OnOk result (map account_of accounts.new.items ≡ map account_of accounts.old.items ++ items.begun_account number ∷ []) }
{
    match accounts.push(begun_account(alloc, number)) {
        Ok(()) => Ok(()),
        Err(refused) => {
            discard_account(refused.value);
            Err(AllocError)
        }
    }
}

/// Which of so many accounts has an address, the first 0.
fn account_index(count: usize, address: u64) -> Option<usize>
    ensures { MatchOption result ((i : ℕ) → address ≡ suc i → count ≤ i) (λ i. (address ≡ suc i) × (i < count)) }
{
    if address == 0 {
        return None;
    }
    if count as u64 <= address - 1 {
        return None;
    }
    Some((address - 1) as usize)
}

/// Gives the account of an address what it has more; where there is none, nothing.
#[tactic(auto, using(crate::proofs::Found::changed_there, crate::proofs::Found::changed_nowhere))]
fn change_at(
    alloc: Global,
    accounts: &mut Vec<Account>,
    address: u64,
    change: Change,
) -> Result<(), AllocError>
    ensures { OnOk result (map account_of accounts.new.items ≡ labels.change_account address (changed_by change) (map account_of accounts.old.items)) }
{
    match account_index(accounts.len(), address) {
        Some(i) => {
            change_account(alloc, &mut accounts[i], change)?;
            Ok(())
        }
        None => {
            discard_change(change);
            Ok(())
        }
    }
}

// ---- contracts

/// Adds the code of a contract.
#[tactic(auto, using(crate::proofs::Found::sources_more))]
pub(crate) fn push_source(
    alloc: Global,
    id: TypeId,
    code: Bytes,
    sources: &mut Vec<Source>,
) -> Result<(), AllocError>
    ensures { OnOk result (map source_of sources.new.items ≡ map source_of sources.old.items ++ (record { id = id; code = code }) ∷ []) }
{
    let code = Rc::new(alloc, code)?;
    sources.push(Source { id, code })?;
    Ok(())
}

/// Adds the value of a contract.
#[tactic(auto, using(crate::proofs::Found::values_more))]
pub(crate) fn push_value(value: Value, values: &mut Vec<Value>) -> Result<(), AllocError>
    ensures { OnOk result (map value_row values.new.items ≡ map value_row values.old.items ++ value_row value ∷ []) }
{
    match values.push(value) {
        Ok(()) => Ok(()),
        Err(refused) => {
            discard_value(refused.value);
            Err(AllocError)
        }
    }
}

// ---- all of it

/// Puts what a register says behind what others said.
#[tactic(auto, using(crate::proofs::Found::put_at))]
fn put(alloc: Global, parts: &mut Parts, said: Said) -> Result<(), AllocError>
    ensures { OnOk result (parts_of parts.new ≡ items.put (item_of said) (parts_of parts.old)) }
{
    match said {
        Said::Head { count: _, identity } => {
            parts.next_identity = identity;
            Ok(())
        }
        Said::Next { address: _, number } => {
            push_account(alloc, number, &mut parts.accounts)?;
            Ok(())
        }
        Said::Code { id, code } => {
            push_source(alloc, id, code, &mut parts.sources)?;
            Ok(())
        }
        Said::Fields { id, value } => {
            drop(id);
            push_value(value, &mut parts.values)?;
            Ok(())
        }
        Said::Has { address, change } => {
            change_at(alloc, &mut parts.accounts, address, change)?;
            Ok(())
        }
    }
}

/// Puts what a row says behind what others said.
fn take_row(alloc: Global, parts: &mut Parts, row: &Row) -> Result<(), DecodeError>
    ensures { GivesAs (λ done. parts_of parts.new) result (spec.made (spec.item_in row.now.key.0 row.now.value) (parts_of parts.old)) }
{
    let said = read_row(alloc, row)?;
    put(alloc, parts, said)?;
    Ok(())
}

/// Puts what rows say behind what others said.
fn take_rows(alloc: Global, parts: &mut Parts, rows: &[Row]) -> Result<(), DecodeError>
    ensures { GivesAs (λ done. parts_of parts.new) result (spec.all_made (map register_of rows.now) (parts_of parts.old)) }
{
    for row in rows {
        take_row(alloc, parts, row)?;
    }
    Ok(())
}

/// The same of the rows of blocks.
fn take_blocks(alloc: Global, parts: &mut Parts, blocks: &[Block]) -> Result<(), DecodeError>
    ensures { GivesAs (λ done. parts_of parts.new) result (spec.all_made (map register_of (rows_in_blocks blocks.now)) (parts_of parts.old)) }
{
    for block in blocks {
        take_rows(alloc, parts, block.rows())?;
    }
    Ok(())
}

/// The same of rows in parts.
fn take_list(alloc: Global, parts: &mut Parts, list: RowList<'_>) -> Result<(), DecodeError>
    ensures { GivesAs (λ done. parts_of parts.new) result (spec.all_made (map register_of (rows_listed list.entry)) (parts_of parts.old)) }
{
    take_rows(alloc, parts, list.rows)?;
    take_blocks(alloc, parts, list.blocks)
}

/// What no register makes.
fn empty_parts(alloc: Global) -> Parts
    ensures { parts_of result ≡ items.empty_draft }
{
    Parts {
        accounts: Vec::new(alloc),
        sources: Vec::new(alloc),
        values: Vec::new(alloc),
        next_identity: 1,
    }
}

/// What registers make.
pub fn make(alloc: Global, list: RowList<'_>) -> Result<Parts, DecodeError>
    ensures { GivesAs parts_of result (spec.all_made (map register_of (rows_listed list.entry)) items.empty_draft) }
{
    let mut parts = empty_parts(alloc);
    match take_list(alloc, &mut parts, list) {
        Ok(()) => Ok(parts),
        Err(error) => {
            discard_parts(parts);
            Err(error)
        }
    }
}
