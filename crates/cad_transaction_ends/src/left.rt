// What a run leaves.
ghost use Rattle.std.specs.Prelude.{◌≡◌, ℕ, IfOk, List, OnOk, map};
ghost use Rattle.cad_state.specs.Parts.{with_known};
ghost use Rattle.cad_state.specs.Views.{account_of, accounts_over, contract_of, state_over};
ghost use Rattle.cad_transaction_ends.specs.Left.{kept_world, left_over, world_in};
ghost use Rattle.cad_world.specs.Begin.{kept_account, kept_contract, left_world};
ghost use Rattle.cad_world.specs.State as states;

use crate::sorting::sort_contracts;
use cad_declarations::Checked;
use cad_rows::{Place, discard_row, strip_row};
use cad_state::{
    Account, Accounts, Call, Contract, Hints, Known, RunState, discard_calls, discard_contracts,
    discard_run_accounts, discard_shared, discard_values,
};
use cad_syntax::{Numbers, TypeIds};
use cad_values::Value;
use std::alloc::AllocError;
use std::rc::Rc;

/// What a run leaves. It isn't let go but by `discard_left`.
pub struct Left {
    /// Those that the run has, without labels.
    pub accounts: Accounts,
    /// In the order of their addresses and names, without labels.
    pub contracts: Vec<Contract>,
    pub next_identity: u64,
    /// In the order of emission.
    pub events: Vec<Value>,
    /// Identities of resources, in order.
    pub made: Numbers,
    pub destroyed: Numbers,
    /// Contracts that were added, in order.
    pub added: TypeIds,
}

/// Lets go what a run leaves.
pub fn discard_left(left: Left) {
    let Left {
        accounts,
        contracts,
        next_identity: _,
        events,
        made,
        destroyed,
        added,
    } = left;
    discard_run_accounts(accounts);
    discard_contracts(contracts);
    discard_values(events);
    drop(made);
    drop(destroyed);
    drop(added)
}

/// An account comes to be as it is kept: without labels.
fn strip_account(account: &mut Account)
    ensures { account_of account.new ≡ kept_account (account_of account.old) }
{
    strip_row(&mut account.stored)
}

/// Accounts come to be as they are kept.
fn strip_accounts(accounts: &mut Vec<Account>)
    ensures { map account_of accounts.new.items ≡ map kept_account (map account_of accounts.old.items) }
{
    for i in 0..accounts.len() {
        strip_account(&mut accounts[i]);
    }
}

/// An account that is known comes to be as it is kept.
fn strip_one(one: &mut Known)
    ensures index { one.new.index ≡ one.old.index }
    ensures account { account_of one.new.account ≡ kept_account (account_of one.old.account) }
{
    strip_account(&mut one.account)
}

/// Accounts that are known come to be as they are kept, and so do all, where the others are.
fn strip_known(known: &mut Vec<Known>)
    ensures { (base : List states.Account) (count : ℕ) → map kept_account base ≡ base → with_known base count known.new.items ≡ map kept_account (with_known base count known.old.items) }
{
    for i in 0..known.len() {
        strip_one(&mut known[i]);
    }
}

/// The accounts of a run come to be as they are kept, where those that it doesn't know are.
fn strip_run_accounts(accounts: &mut Accounts)
    ensures { (base : List states.Account) → map kept_account base ≡ base → accounts_over base accounts.new ≡ map kept_account (accounts_over base accounts.old) }
{
    match accounts {
        Accounts::All(all) => strip_accounts(all),
        Accounts::Part { count: _, known } => strip_known(known),
    }
}

/// A contract comes to be as it is kept: without labels, and no initializer of it runs.
fn strip_contract(contract: &mut Contract)
    ensures { contract_of contract.new ≡ kept_contract (contract_of contract.old) }
{
    contract.is_running = false;
    strip_row(&mut contract.value)
}

/// Contracts come to be as they are kept.
fn strip_contracts(contracts: &mut Vec<Contract>)
    ensures { map contract_of contracts.new.items ≡ map kept_contract (map contract_of contracts.old.items) }
{
    for i in 0..contracts.len() {
        strip_contract(&mut contracts[i]);
    }
}

/// What is left comes to be as it is kept. Where memory fails, some contracts are let go.
fn settle(left: &mut Left) -> Result<(), AllocError>
    ensures world { OnOk result ((base : List states.Account) → map kept_account base ≡ base → left_over base left.new ≡ kept_world (left_over base left.old)) }
    ensures events { left.new.events ≡ left.old.events }
    ensures made { left.new.made ≡ left.old.made }
    ensures destroyed { left.new.destroyed ≡ left.old.destroyed }
    ensures added { left.new.added ≡ left.old.added }
{
    strip_run_accounts(&mut left.accounts);
    strip_contracts(&mut left.contracts);
    sort_contracts(&mut left.contracts)
}

/// What stands in calls and aside is let go.
fn discard_rest(calls: Vec<Call>, making: Vec<Place>, checked: Rc<Checked>, hints: Hints) {
    discard_calls(calls);
    discard_row(making);
    discard_shared(checked);
    drop(hints)
}

/// A state is taken apart.
fn parts_of(state: RunState) -> Left
    ensures world { (base : List states.Account) → left_over base result ≡ world_in (state_over base state) }
    ensures events { result.events ≡ state.events }
    ensures made { result.made ≡ state.made }
    ensures destroyed { result.destroyed ≡ state.destroyed }
    ensures added { result.added ≡ state.added }
{
    let RunState {
        calls,
        making,
        accounts,
        contracts,
        checked,
        events,
        made,
        destroyed,
        added,
        next_label: _,
        next_identity,
        units: _,
        depth: _,
        hints,
        asked,
        wanted: _,
    } = state;
    drop(asked);
    discard_rest(calls, making, checked, hints);
    Left {
        accounts,
        contracts,
        next_identity,
        events,
        made,
        destroyed,
        added,
    }
}

/// What is left, as it is kept. Where memory fails, it is let go.
fn settled(left: Left) -> Result<Left, AllocError>
    ensures world { IfOk result (λ kept. (base : List states.Account) → map kept_account base ≡ base → left_over base kept ≡ kept_world (left_over base left)) }
    ensures events { IfOk result (λ kept. kept.events ≡ left.events) }
    ensures made { IfOk result (λ kept. kept.made ≡ left.made) }
    ensures destroyed { IfOk result (λ kept. kept.destroyed ≡ left.destroyed) }
    ensures added { IfOk result (λ kept. kept.added ≡ left.added) }
{
    let mut kept = left;
    match settle(&mut kept) {
        Ok(()) => Ok(kept),
        Err(error) => {
            discard_left(kept);
            Err(error)
        }
    }
}

/// What a run leaves: accounts and contracts without labels, contracts in their order, and what is told of it. The accounts that the run
/// doesn't know are as they are, which has to be without labels too.
pub fn left_accounts(state: RunState) -> Result<Left, AllocError>
    ensures world { IfOk result (λ left. (base : List states.Account) → map kept_account base ≡ base → left_over base left ≡ left_world (state_over base state)) }
    ensures events { IfOk result (λ left. left.events ≡ state.events) }
    ensures made { IfOk result (λ left. left.made ≡ state.made) }
    ensures destroyed { IfOk result (λ left. left.destroyed ≡ state.destroyed) }
    ensures added { IfOk result (λ left. left.added ≡ state.added) }
{
    settled(parts_of(state))
}
