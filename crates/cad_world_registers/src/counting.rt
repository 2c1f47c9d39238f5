// How many rows there are, and how many registers.
ghost use Rattle.std.specs.Prelude.{◌≡◌, ◌+◌, IfOk, length, map};
ghost use Rattle.cad_state.specs.Views.{account_of};
ghost use Rattle.cad_world_registers.specs.Exact as spec;
ghost use Rattle.cad_worlds.specs.RowLists.{rows_listed};

use cad_state::Account;
use cad_worlds::RowList;
use std::alloc::AllocError;

/// So many more. AllocError where they are too many for any memory.
fn more(count: usize, others: usize) -> Result<usize, AllocError>
    ensures { IfOk result (λ n. n ≡ count + others) }
{
    match count.checked_add(others) {
        Some(all) => Ok(all),
        None => Err(AllocError),
    }
}

/// How many rows stand in parts.
pub(crate) fn count_rows(list: RowList<'_>) -> Result<usize, AllocError>
    ensures { IfOk result (λ n. n ≡ length (rows_listed list.entry)) }
{
    let mut count = list.rows.len();
    for block in list.blocks {
        count = more(count, block.rows().len())?;
    }
    Ok(count)
}

/// As many more as an account has registers of what it stores, publishes and controls.
fn add_account(count: usize, account: &Account) -> Result<usize, AllocError>
    ensures { IfOk result (λ n. n ≡ count + spec.held (account_of account.now)) }
{
    let stored = more(count, account.identifiers.len())?;
    let published = more(stored, account.published.len())?;
    more(published, account.controllers.len())
}

/// How many registers accounts have of these.
pub(crate) fn count_registers(accounts: &[Account]) -> Result<usize, AllocError>
    ensures { IfOk result (λ n. n ≡ spec.counted (map account_of accounts.now)) }
{
    let mut count = 0;
    for account in accounts {
        count = add_account(count, account)?;
    }
    Ok(count)
}
