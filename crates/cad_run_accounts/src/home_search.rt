// In which account a node stands.
ghost use Rattle.std.specs.Prelude.{◌≡◌, ◌&&◌, suc, List, IfOk, map, not};
ghost use Rattle.cad_evaluation.specs.Builtins as spec;
ghost use Rattle.cad_rows.specs.Views.{pure_row};
ghost use Rattle.cad_state.specs.Views.{contract_of, state_over, IsReady};
ghost use Rattle.cad_state.specs.Ways as ways;
ghost use Rattle.cad_state.specs.declared.hints.Root.TheVariants as root;
ghost use Rattle.cad_world.specs.State as s;

use cad_rows::{Place, way_to};
use cad_state::{Contract, RunState};
use cad_syntax::Address;
use std::alloc::{AllocError, Global};

/// Whether the node with a label stands in a row.
#[tactic(auto, using(crate::proofs::Homes::stands_there, crate::proofs::Homes::stands_nowhere))]
fn stands_in(alloc: Global, row: &[Place], label: u64) -> Result<bool, AllocError>
    ensures { IfOk result (λ b. b ≡ spec.stands_in label (pure_row row.now)) }
{
    match way_to(alloc, row, label) {
        Ok(Some(_)) => Ok(true),
        Ok(None) => Ok(false),
        Err(error) => Err(error),
    }
}

/// Whether it stands in what the account of an index stores, if the run has that one.
fn is_stored(state: &RunState, i: usize, label: u64) -> Result<bool, AllocError>
    ensures { IfOk result (λ b. b ≡ ways.is_there (ways.found_in label (ways.row_at (root.Stored i) state.now))) }
{
    match state.account_of_index(i) {
        Some(account) => stands_in(*state.making.allocator(), account.stored.as_slice(), label),
        None => Ok(false),
    }
}

/// The address of the account of an index. Memory fails where 64 bits can't tell it.
fn address_of(i: usize) -> Result<Address, AllocError>
    ensures { IfOk result (λ address. address.0 ≡ suc i) }
{
    let index = i as u64;
    if index == u64::MAX {
        return Err(AllocError);
    }
    Ok(Address(index + 1))
}

/// The address of the account in whose storage it stands.
#[tactic(auto, using(crate::proofs::Homes::turn_in_accounts, crate::proofs::Homes::home_there, crate::proofs::Homes::home_nowhere))]
fn home_in_accounts(state: &RunState, label: u64) -> Result<Option<Address>, AllocError>
    ensures { IfOk result (λ o. (accounts : List s.Account) → IsReady accounts state.now → o ≡ spec.home_in_accounts label 1 (state_over accounts state.now).accounts) }
{
    for n in 0..state.account_count() {
        let i = state.account_index(n);
        if is_stored(state, i, label)? {
            let address = address_of(i)?;
            return Ok(Some(address));
        }
    }
    Ok(None)
}

/// Whether it stands in the value of a contract whose initializer is done.
fn is_home(alloc: Global, contract: &Contract, label: u64) -> Result<bool, AllocError>
    ensures { IfOk result (λ b. b ≡ (not contract.now.is_running && spec.stands_in label (pure_row contract.now.value.items))) }
{
    if contract.is_running {
        return Ok(false);
    }
    stands_in(alloc, contract.value.as_slice(), label)
}

/// The address of the contract in whose value it stands.
fn home_in_contracts(
    alloc: Global,
    all: &[Contract],
    label: u64,
) -> Result<Option<Address>, AllocError>
    ensures { IfOk result (λ o. o ≡ spec.home_in_contracts label (map contract_of all.now)) }
{
    for i in 0..all.len() {
        if is_home(alloc, &all[i], label)? {
            return Ok(Some(all[i].id.address));
        }
    }
    Ok(None)
}

/// The account of the node with a label: the one whose storage it stands in, or that of the contract in whose value, once that
/// one's initializer is done; None where it stands in neither.
pub fn home(state: &RunState, label: u64) -> Result<Option<Address>, AllocError>
    ensures { IfOk result (λ o. (accounts : List s.Account) → IsReady accounts state.now → o ≡ spec.home (state_over accounts state.now) label) }
{
    match home_in_accounts(state, label) {
        Ok(Some(address)) => Ok(Some(address)),
        Ok(None) => home_in_contracts(*state.making.allocator(), state.contracts.as_slice(), label),
        Err(error) => Err(error),
    }
}
