// What is done to the account of an address.
ghost use Rattle.std.specs.Prelude.{◌≡◌, List, IfOk, OnOk, map, option_map};
ghost use Rattle.cad_rows.specs.Views.{pure_tree};
ghost use Rattle.cad_run_accounts.specs.Code.Changing.{changed_by, left_by};
ghost use Rattle.cad_state.specs.Parts.{with_known};
ghost use Rattle.cad_state.specs.Views.{account_of, state_over};
ghost use Rattle.cad_world.specs.Labels as spec;
ghost use Rattle.cad_world.specs.State as s;

use crate::controllers::{Edit, edit_controllers, issue_in, remove_in};
use crate::find::account_index;
use crate::publications::{publish_in, unpublish_in};
use crate::stored::{name_in, store_in, take_in};
use cad_rows::{Tree, discard_tree};
use cad_state::{Account, Accounts, Known, Publication, RunState, known_place};
use cad_syntax::{Address, CadType, Name};
use std::alloc::AllocError;

/// What is done to an account. It isn't let go but by `discard_change`.
pub(crate) enum Change<'a> {
    /// The node that is stored under an identifier gets a label.
    Label(&'a Name, u64),
    /// A value comes under an identifier that the account lacks.
    Store(Name, Tree),
    /// What is stored under an identifier leaves.
    Take(&'a Name),
    /// A capability is published.
    Publish(Publication),
    /// Nothing is published under an identifier any more.
    Unpublish(&'a Name),
    /// There is one controller more: of a type, with a target.
    Issue(CadType, Name),
    /// The controllers of a number change.
    Edit(u64, Edit<'a>),
    /// The controllers of a number go.
    Remove(u64),
}

/// Lets what was to be done go.
fn discard_change(change: Change<'_>) {
    match change {
        Change::Store(name, tree) => {
            drop(name);
            discard_tree(tree)
        }
        Change::Publish(publication) => drop(publication),
        Change::Issue(borrow, target) => {
            drop(borrow);
            drop(target)
        }
        Change::Label(_, _)
        | Change::Take(_)
        | Change::Unpublish(_)
        | Change::Edit(_, _)
        | Change::Remove(_) => {}
    }
}

/// Does it to an account. Where memory fails, what comes to the account is let go.
fn change_account(account: &mut Account, change: Change<'_>) -> Result<Option<Tree>, AllocError>
    ensures account { OnOk result (account_of account.new ≡ changed_by change.entry (account_of account.old)) }
    ensures left { IfOk result (λ o. option_map pure_tree o ≡ left_by change.entry (Some (account_of account.old))) }
{
    match change {
        Change::Label(name, label) => name_in(account, name, label)?,
        Change::Store(name, tree) => store_in(account, name, tree)?,
        Change::Take(name) => return Ok(take_in(account, name)),
        Change::Publish(publication) => publish_in(account, publication)?,
        Change::Unpublish(name) => unpublish_in(account, name),
        Change::Issue(borrow, target) => issue_in(account, borrow, target)?,
        Change::Edit(n, edit) => edit_controllers(account, n, edit)?,
        Change::Remove(n) => remove_in(account, n),
    }
    Ok(None)
}

/// Does it to the account of an address among these; to none where there is none.
#[tactic(auto, using(crate::proofs::Found::changed_there))]
fn change_among(
    all: &mut Vec<Account>,
    address: Address,
    change: Change<'_>,
) -> Result<Option<Tree>, AllocError>
    ensures all { OnOk result (map account_of all.new.items ≡ spec.change_account address.0 (changed_by change.entry) (map account_of all.old.items)) }
    ensures left { IfOk result (λ o. option_map pure_tree o ≡ left_by change.entry (spec.account_at (map account_of all.old.items) address.0)) }
{
    match account_index(all.len(), address) {
        Some(i) => change_account(&mut all[i], change),
        None => {
            discard_change(change);
            Ok(None)
        }
    }
}

/// Does it to the account of an address, of so many of which these are known; memory fails too where it isn't known.
fn change_known(
    count: u64,
    known: &mut Vec<Known>,
    address: Address,
    change: Change<'_>,
) -> Result<Option<Tree>, AllocError>
    ensures all { OnOk result ((accounts : List s.Account) → with_known accounts count known.new.items ≡ spec.change_account address.0 (changed_by change.entry) (with_known accounts count known.old.items)) }
    ensures left { IfOk result (λ o. (accounts : List s.Account) → option_map pure_tree o ≡ left_by change.entry (spec.account_at (with_known accounts count known.old.items) address.0)) }
{
    match account_index(count as usize, address) {
        Some(i) => match known_place(known.as_slice(), i as u64) {
            Some(n) => change_account(&mut known[n].account, change),
            None => {
                discard_change(change);
                Err(AllocError)
            }
        },
        None => {
            discard_change(change);
            Ok(None)
        }
    }
}

/// Does it to the account of an address. Memory fails too where the run doesn't have it.
#[tactic(auto, unfolding(cad_state::specs::Views::accounts_over))]
pub(crate) fn change_at(
    state: &mut RunState,
    address: Address,
    change: Change<'_>,
) -> Result<Option<Tree>, AllocError>
    ensures state { OnOk result ((accounts : List s.Account) → state_over accounts state.new ≡ spec.with_account address.0 (changed_by change.entry) (state_over accounts state.old)) }
    ensures left { IfOk result (λ o. (accounts : List s.Account) → option_map pure_tree o ≡ left_by change.entry (spec.account_at (state_over accounts state.old).accounts address.0)) }
{
    match &mut state.accounts {
        Accounts::All(all) => change_among(all, address, change),
        Accounts::Part { count, known } => change_known(*count, known, address, change),
    }
}

/// The same where nothing leaves the account.
pub(crate) fn change_only(
    state: &mut RunState,
    address: Address,
    change: Change<'_>,
) -> Result<(), AllocError>
    ensures { OnOk result ((accounts : List s.Account) → state_over accounts state.new ≡ spec.with_account address.0 (changed_by change.entry) (state_over accounts state.old)) }
{
    match change_at(state, address, change) {
        Ok(Some(tree)) => {
            discard_tree(tree);
            Ok(())
        }
        Ok(None) => Ok(()),
        Err(error) => Err(error),
    }
}
