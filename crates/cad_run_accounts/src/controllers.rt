// The controllers of accounts.
ghost use Rattle.std.specs.Prelude.{◌≡◌, ◌==◌, List, IfOk, OnOk, map, not, option_map, if◌then◌else◌};
ghost use Rattle.cad_evaluation.specs.Capabilities as capabilities;
ghost use Rattle.cad_run_accounts.specs.Code.Edits.{edited, without_number};
ghost use Rattle.cad_state.specs.Views.{account_of, controller_of, state_over};
ghost use Rattle.cad_syntax.specs.Types.{pure_type};
ghost use Rattle.cad_world.specs.Labels as spec;
ghost use Rattle.cad_world.specs.OwnTypes as own;
ghost use Rattle.cad_world.specs.State as s;

use crate::changes::{Change, change_only};
use crate::find::account;
use cad_state::{Account, Controller, RunState};
use cad_syntax::{Address, Bytes, CadType, Name};
use std::alloc::{AllocError, Global};

/// What is done to a controller.
#[derive(Clone, Copy)]
pub(crate) enum Edit<'a> {
    /// It gets another tag.
    Tag(&'a [u8]),
    /// It gets another target.
    Target(&'a Name),
}

// ---- of one account

/// The controller of a number.
fn controller_in(all: &[Controller], n: u64) -> Option<&Controller>
    ensures { option_map (λ c. controller_of c.now) result ≡ own.controller_in (map controller_of all.now) n }
{
    for controller in all {
        if controller.number == n {
            return Some(controller);
        }
    }
    None
}

/// A controller with the next number. Memory fails too where that is the greatest of 64 bits.
pub(crate) fn issue_in(
    account: &mut Account,
    borrow: CadType,
    target: Name,
) -> Result<(), AllocError>
    ensures { OnOk result (account_of account.new ≡ capabilities.issuing (pure_type borrow) target (account_of account.old)) }
{
    let number = account.next_controller;
    if number == u64::MAX {
        return Err(AllocError);
    }
    let tag = Bytes::new(*account.controllers.allocator());
    account.controllers.push(Controller {
        number,
        borrow,
        tag,
        target,
    })?;
    account.next_controller = number + 1;
    Ok(())
}

/// A controller changes.
fn edit_controller(
    alloc: Global,
    controller: &mut Controller,
    edit: Edit<'_>,
) -> Result<(), AllocError>
    ensures { OnOk result (controller_of controller.new ≡ edited edit.entry (controller_of controller.old)) }
{
    match edit {
        Edit::Tag(tag) => controller.tag = Bytes::from_slice(alloc, tag)?,
        Edit::Target(target) => controller.target = target.clone()?,
    }
    Ok(())
}

/// A controller changes, if it has a number.
fn edit_numbered(
    alloc: Global,
    controller: &mut Controller,
    n: u64,
    edit: Edit<'_>,
) -> Result<(), AllocError>
    ensures { OnOk result (controller_of controller.new ≡ (if controller.old.number == n then edited edit.entry (controller_of controller.old) else controller_of controller.old)) }
{
    if controller.number == n {
        return edit_controller(alloc, controller, edit);
    }
    Ok(())
}

/// The controllers of a number change.
#[tactic(auto, using(crate::proofs::Orders::edited_all))]
pub(crate) fn edit_all(all: &mut Vec<Controller>, n: u64, edit: Edit<'_>) -> Result<(), AllocError>
    ensures { OnOk result (map controller_of all.new.items ≡ capabilities.change_controller n (edited edit.entry) (map controller_of all.old.items)) }
{
    let alloc = *all.allocator();
    for i in 0..all.len() {
        edit_numbered(alloc, &mut all[i], n, edit)?;
    }
    Ok(())
}

/// The controllers of a number change.
pub(crate) fn edit_controllers(
    account: &mut Account,
    n: u64,
    edit: Edit<'_>,
) -> Result<(), AllocError>
    ensures { OnOk result (account_of account.new ≡ record (account_of account.old) { controllers = capabilities.change_controller n (edited edit.entry) (account_of account.old).controllers }) }
{
    edit_all(&mut account.controllers, n, edit)
}

/// The controllers of a number go.
pub(crate) fn remove_in(account: &mut Account, n: u64)
    ensures { account_of account.new ≡ record (account_of account.old) { controllers = without_number n (account_of account.old).controllers } }
{
    account.controllers.retain(
        |controller: &Controller| -> bool
            ensures { result ≡ not (controller.now.number == n) }
        { controller.number != n },
    );
}

// ---- of the account of an address

/// An account's controller of a number. Memory fails only where the run doesn't have it.
pub fn controller(
    state: &RunState,
    address: Address,
    n: u64,
) -> Result<Option<&Controller>, AllocError>
    ensures { IfOk result (λ o. (accounts : List s.Account) → option_map (λ c. controller_of c.now) o ≡ own.controller_at (state_over accounts state.now) address.0 n) }
{
    match account(state, address) {
        Ok(Some(account)) => Ok(controller_in(account.controllers.as_slice(), n)),
        Ok(None) => Ok(None),
        Err(error) => Err(error),
    }
}

/// The number of an account's next controller; None where there is no such account. Memory fails only where the run
/// doesn't have it.
pub fn next_controller(state: &RunState, address: Address) -> Result<Option<u64>, AllocError>
    ensures { IfOk result (λ o. (accounts : List s.Account) → o ≡ option_map (λ a. a.next_controller) (spec.account_at (state_over accounts state.now).accounts address.0)) }
{
    match account(state, address) {
        Ok(Some(account)) => Ok(Some(account.next_controller)),
        Ok(None) => Ok(None),
        Err(error) => Err(error),
    }
}

/// An account gets a controller with its next number. Memory fails too where its next number is the greatest of 64 bits.
pub fn issue(
    state: &mut RunState,
    address: Address,
    borrow: CadType,
    target: Name,
) -> Result<(), AllocError>
    ensures { OnOk result ((accounts : List s.Account) → state_over accounts state.new ≡ spec.with_account address.0 (capabilities.issuing (pure_type borrow) target) (state_over accounts state.old)) }
{
    change_only(state, address, Change::Issue(borrow, target))
}

/// The account's controllers of a number get another tag. There is at most one of a number in accounts that runs have made.
pub fn set_tag(state: &mut RunState, address: Address, n: u64, tag: &[u8]) -> Result<(), AllocError>
    ensures { OnOk result ((accounts : List s.Account) → state_over accounts state.new ≡ capabilities.with_controller (record { address = address; number = n }) (λ c. record c { tag = tag.now }) (state_over accounts state.old)) }
{
    change_only(state, address, Change::Edit(n, Edit::Tag(tag)))
}

/// The account's controllers of a number get another target.
pub fn retarget(
    state: &mut RunState,
    address: Address,
    n: u64,
    target: &Name,
) -> Result<(), AllocError>
    ensures { OnOk result ((accounts : List s.Account) → state_over accounts state.new ≡ capabilities.with_controller (record { address = address; number = n }) (λ c. record c { target = target.now }) (state_over accounts state.old)) }
{
    change_only(state, address, Change::Edit(n, Edit::Target(target)))
}

/// The account loses its controllers of a number. Memory fails only where the run doesn't have it.
pub fn remove_controller(state: &mut RunState, address: Address, n: u64) -> Result<(), AllocError>
    ensures { OnOk result ((accounts : List s.Account) → state_over accounts state.new ≡ capabilities.without_controller (record { address = address; number = n }) (state_over accounts state.old)) }
{
    change_only(state, address, Change::Remove(n))
}
