// What accounts store under identifiers.
ghost use Rattle.std.specs.Prelude.{◌≡◌, List, IfOk, OnOk, option_map};
ghost use Rattle.cad_evaluation.specs.Storage as storage;
ghost use Rattle.cad_rows.specs.Places.{pure_slot, bare_in};
ghost use Rattle.cad_rows.specs.Views.{pure_tree};
ghost use Rattle.cad_state.specs.Views.{CarriesOut, account_of, state_over};
ghost use Rattle.cad_world.specs.Labels as spec;
ghost use Rattle.cad_world.specs.Locations as locations;
ghost use Rattle.cad_world.specs.Rows.{named};
ghost use Rattle.cad_world.specs.State as s;

use crate::changes::{Change, change_at, change_only};
use crate::find::account;
use crate::names::{place_for, position_of};
use cad_outcomes::Stop;
use cad_rows::{Slot, Tree, cut, discard_tree, name_in as name_in_row, tree_at, wedge};
use cad_state::{Account, RunState};
use cad_syntax::{Address, Name};
use std::alloc::AllocError;

// ---- of one account

/// What stands under an identifier.
fn slot_in<'a>(account: &'a Account, name: &Name) -> Slot<'a>
    ensures { pure_slot result ≡ spec.stored_in name.now (Some (account_of account.now)) }
{
    match position_of(account.identifiers.as_slice(), name) {
        Some(i) => tree_at(account.stored.as_slice(), i),
        None => Slot::Out,
    }
}

/// The node under an identifier gets a label.
pub(crate) fn name_in(account: &mut Account, name: &Name, label: u64) -> Result<(), AllocError>
    ensures { OnOk result (account_of account.new ≡ spec.on_stored (λ i. named i label) name.now (account_of account.old)) }
{
    match position_of(account.identifiers.as_slice(), name) {
        Some(i) => name_in_row(&mut account.stored, i, label),
        None => Ok(()),
    }
}

/// A value comes under an identifier that the account lacks. Where memory fails, the value is let go.
pub(crate) fn store_in(account: &mut Account, name: Name, tree: Tree) -> Result<(), AllocError>
    ensures { OnOk result (account_of account.new ≡ storage.storing name (pure_tree tree) (account_of account.old)) }
{
    let i = place_for(account.identifiers.as_slice(), &name);
    match account.identifiers.insert(i, name) {
        Ok(()) => wedge(&mut account.stored, i, tree),
        Err(_) => {
            discard_tree(tree);
            Err(AllocError)
        }
    }
}

/// What stands under an identifier leaves, without labels.
pub(crate) fn take_in(account: &mut Account, name: &Name) -> Option<Tree>
    ensures account { account_of account.new ≡ storage.without name.now (account_of account.old) }
    ensures tree { option_map pure_tree result ≡ bare_in (spec.stored_in name.now (Some (account_of account.old))) }
{
    match position_of(account.identifiers.as_slice(), name) {
        Some(i) => {
            drop(account.identifiers.remove(i));
            cut(&mut account.stored, i)
        }
        None => None,
    }
}

// ---- of the account of an address

/// What an account stores under an identifier. Memory fails only where the run doesn't have it.
pub fn stored_slot<'a>(
    state: &'a RunState,
    address: Address,
    name: &Name,
) -> Result<Slot<'a>, AllocError>
    ensures { IfOk result (λ slot. (accounts : List s.Account) → pure_slot slot ≡ spec.stored_slot (state_over accounts state.now) address.0 name.now) }
{
    match account(state, address) {
        Ok(Some(account)) => Ok(slot_in(account, name)),
        Ok(None) => Ok(Slot::Out),
        Err(error) => Err(error),
    }
}

/// The node that is stored under an identifier gets a new label. Memory fails where no label is left too; there are no other
/// errors.
pub fn name_stored(state: &mut RunState, address: Address, name: &Name) -> Result<u64, Stop>
    ensures { CarriesOut (λ label. label) (locations.name (locations.stored address.0 name.now)) state.old state.new result }
{
    let label = state.next_label;
    if label == u64::MAX {
        return Err(Stop::Memory);
    }
    match change_only(state, address, Change::Label(name, label)) {
        Ok(()) => {
            state.next_label = label + 1;
            Ok(label)
        }
        Err(_) => Err(Stop::Memory),
    }
}

/// A value comes to an account's storage under an identifier that it lacks. Where memory fails, the value is let go.
pub fn store(
    state: &mut RunState,
    address: Address,
    name: Name,
    tree: Tree,
) -> Result<(), AllocError>
    ensures { OnOk result ((accounts : List s.Account) → state_over accounts state.new ≡ spec.with_account address.0 (storage.storing name (pure_tree tree)) (state_over accounts state.old)) }
{
    change_only(state, address, Change::Store(name, tree))
}

/// What is stored under an identifier leaves the account's storage, without labels. Memory fails only where the run
/// doesn't have it.
pub fn take_stored(
    state: &mut RunState,
    address: Address,
    name: &Name,
) -> Result<Option<Tree>, AllocError>
    ensures state { OnOk result ((accounts : List s.Account) → state_over accounts state.new ≡ spec.with_account address.0 (storage.without name.now) (state_over accounts state.old)) }
    ensures tree { IfOk result (λ o. (accounts : List s.Account) → option_map pure_tree o ≡ bare_in (spec.stored_slot (state_over accounts state.old) address.0 name.now)) }
{
    change_at(state, address, Change::Take(name))
}
