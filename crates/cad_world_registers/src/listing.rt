// Rows in parts, from the front on.
ghost use Rattle.std.specs.Prelude.{◌≡◌, ◌↔◌, ◌∷◌, ◌++◌, [], IsTrue, IfOk, MatchOption, map};
ghost use Rattle.cad_accounts.specs.Memory.{rows_in_blocks};
ghost use Rattle.cad_state.specs.Views.{account_of};
ghost use Rattle.cad_wire.specs.Fields.{number_field};
ghost use Rattle.cad_world.specs.Registers as registers;
ghost use Rattle.cad_world_registers.specs.Listed as spec;
ghost use Rattle.cad_world_registers.specs.Meaning as meaning;
ghost use Rattle.cad_worlds.specs.RowLists.{rows_listed};
ghost use Rattle.cad_worlds.specs.Standing.{register_of, world_of};

use crate::saying::NEXT;
use cad_accounts::{Block, Row};
use cad_state::Account;
use cad_worlds::{RowList, World, contract_registers, head_registers};
use std::alloc::{AllocError, Global};

// ---- the first row

/// The first row of blocks, and those behind it.
fn first_in<'r>(blocks: &'r [Block]) -> Option<(&'r Row, RowList<'r>)>
    ensures { MatchOption result (rows_in_blocks blocks.now ≡ []) (λ p. rows_in_blocks blocks.now ≡ p.0.now ∷ rows_listed p.1) }
{
    for i in 0..blocks.len() {
        match blocks[i].rows() {
            [row, rest @ ..] => {
                return Some((
                    row,
                    RowList {
                        rows: rest,
                        blocks: &blocks[i + 1..],
                    },
                ));
            }
            [] => {}
        }
    }
    None
}

/// The first row in parts, and those behind it.
fn first_of<'r>(list: RowList<'r>) -> Option<(&'r Row, RowList<'r>)>
    ensures { MatchOption result (rows_listed list.entry ≡ []) (λ p. rows_listed list.entry ≡ p.0.now ∷ rows_listed p.1) }
{
    match list.rows {
        [row, rest @ ..] => Some((
            row,
            RowList {
                rows: rest,
                blocks: list.blocks,
            },
        )),
        [] => first_in(list.blocks),
    }
}

// ---- rows that are the first ones

/// Whether two rows are the same.
fn is_same_row(a: &Row, b: &Row) -> bool
    ensures { result ≡ meaning.is_same_row a.now b.now }
{
    a.key.0.as_slice() == b.key.0.as_slice() && a.value.as_slice() == b.value.as_slice()
}

/// The rows behind these, where they are the first ones.
fn behind_rows<'r>(own: &[Row], list: RowList<'r>) -> Option<RowList<'r>>
    ensures { spec.IsBehind (map register_of own.now) (rows_listed list.entry) result }
{
    let mut left = list;
    for row in own {
        match first_of(left) {
            Some((first, rest)) => {
                if !is_same_row(first, row) {
                    return None;
                }
                left = rest;
            }
            None => return None,
        }
    }
    Some(left)
}

// ---- numbers of next controllers

/// Whether bytes are those of a number.
fn is_number(bytes: &[u8], number: u64) -> bool
    ensures { IsTrue result ↔ (bytes.now ≡ number_field number) }
{
    bytes == number.to_be_bytes().as_slice()
}

/// Whether a key is that of an account's next controller.
fn is_next_key(key: &[u8], address: u64) -> bool
    ensures { IsTrue result ↔ (key.now ≡ registers.next_key address) }
{
    match key {
        [kind, place @ ..] => *kind == NEXT && is_number(place, address),
        [] => false,
    }
}

/// Whether a row says the number of an account's next controller.
fn is_next(row: &Row, address: u64, number: u64) -> bool
    ensures { IsTrue result ↔ (register_of row.now ≡ registers.register (registers.next_key address) (number_field number)) }
{
    if !is_next_key(row.key.0.as_slice(), address) {
        return false;
    }
    is_number(row.value.as_slice(), number)
}

/// The rows behind those that say the number of each account's next controller, where these are the first ones.
fn behind_nexts<'r>(accounts: &[Account], list: RowList<'r>) -> Option<RowList<'r>>
    ensures { spec.IsBehind (registers.of_accounts registers.next_register 1 (map account_of accounts.now)) (rows_listed list.entry) result }
{
    let mut left = list;
    for i in 0..accounts.len() {
        match first_of(left) {
            Some((first, rest)) => {
                if !is_next(first, i as u64 + 1, accounts[i].next_controller) {
                    return None;
                }
                left = rest;
            }
            None => return None,
        }
    }
    Some(left)
}

// ---- a World's registers in front

/// The rows behind those of next controllers and of contracts, where these are the first ones.
fn behind_both<'r>(
    accounts: &[Account],
    contracts: &[Row],
    list: RowList<'r>,
) -> Option<RowList<'r>>
    ensures { spec.IsBehind (registers.of_accounts registers.next_register 1 (map account_of accounts.now) ++ map register_of contracts.now) (rows_listed list.entry) result }
{
    match behind_nexts(accounts, list) {
        Some(left) => behind_rows(contracts, left),
        None => None,
    }
}

/// The rows behind a World's registers in front of those of what accounts store, publish and control, where these are the first ones.
pub(crate) fn behind_front<'r>(
    alloc: Global,
    world: &World,
    list: RowList<'r>,
) -> Result<Option<RowList<'r>>, AllocError>
    ensures { IfOk result (λ left. spec.IsBehind (spec.front (world_of world.now)) (rows_listed list.entry) left) }
{
    let head = head_registers(alloc, world)?;
    let contracts = contract_registers(alloc, world)?;
    match behind_rows(head.as_slice(), list) {
        Some(left) => {
            let accounts = world.accounts.as_slice();
            Ok(behind_both(accounts, contracts.as_slice(), left))
        }
        None => Ok(None),
    }
}
