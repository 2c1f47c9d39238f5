// Capabilities that are issued.
ghost use Rattle.std.specs.Prelude.{◌≡◌, List, OnOk, nat_lt};
ghost use Rattle.cad_capabilities.specs.Code as code;
ghost use Rattle.cad_evaluation.specs.Capabilities as spec;
ghost use Rattle.cad_rows.specs.Views.{pure_row, pure_tree};
ghost use Rattle.cad_state.specs.Views.{CarriesOut, state_over};
ghost use Rattle.cad_syntax.specs.Types.{pure_type};
ghost use Rattle.cad_world.specs.Labels.{with_account};
ghost use Rattle.cad_world.specs.State.{Account};

use crate::arguments::identifier;
use crate::getting::is_reference;
use crate::trees::{capability_from, capability_tree};
use cad_outcomes::{RunError, Stop};
use cad_rows::{Place, Tree};
use cad_run_accounts::next_controller;
use cad_state::RunState;
use cad_syntax::{Address, CadType, Domain, Name};
use std::alloc::AllocError;

/// An account gets a controller with its next number.
fn add_controller(
    state: &mut RunState,
    lent: &CadType,
    target: &Name,
    address: Address,
) -> Result<(), AllocError>
    ensures { OnOk result ((accounts : List Account) → state_over accounts state.new ≡ with_account address.0 (spec.issuing (pure_type lent.now) target.now) (state_over accounts state.old)) }
{
    let borrow = lent.clone()?;
    let target = target.clone()?;
    cad_run_accounts::issue(state, address, borrow, target)
}

/// A capability with a number, and its controller.
fn issue_next(
    state: &mut RunState,
    lent: &CadType,
    target: &Name,
    address: Address,
    number: u64,
) -> Result<Tree, Stop>
    ensures { CarriesOut pure_tree (code.issued_now address (pure_type lent.now) target.now number) state.old state.new result }
{
    match capability_from(address, number, lent) {
        Ok(cap) => match add_controller(state, lent, target, address) {
            Ok(()) => Ok(capability_tree(*state.making.allocator(), cap)),
            Err(_) => Err(Stop::Memory),
        },
        Err(_) => Err(Stop::Memory),
    }
}

/// Whether a number is left behind this one.
fn is_left(number: u64) -> bool
    ensures { result ≡ nat_lt number spec.last_controller }
{
    number < u64::MAX
}

/// The same, where a number is left; else ControllersSpent.
fn issue_numbered(
    state: &mut RunState,
    lent: &CadType,
    target: &Name,
    address: Address,
    number: u64,
) -> Result<Tree, Stop>
    ensures { CarriesOut pure_tree (code.issued_numbered address (pure_type lent.now) target.now number) state.old state.new result }
{
    if is_left(number) {
        issue_next(state, lent, target, address, number)
    } else {
        Err(Stop::Failed(RunError::ControllersSpent))
    }
}

/// A capability that leads to an identifier in storage.
fn issue_to(
    state: &mut RunState,
    lent: &CadType,
    target: &Name,
    address: Address,
) -> Result<Tree, Stop>
    ensures { CarriesOut pure_tree (code.issued_to address (pure_type lent.now) target.now) state.old state.new result }
{
    match next_controller(state, address) {
        Ok(Some(number)) => issue_numbered(state, lent, target, address, number),
        Ok(None) => Err(Stop::IllTyped),
        Err(_) => Err(Stop::Memory),
    }
}

/// A capability of a reference type that leads to the storage path that is the argument, with a controller of the account's next
/// number. IllTyped where the type is no reference's, the argument isn't that, or there is no such account; Failed with
/// ControllersSpent where no number is left.
pub fn issue(
    state: &mut RunState,
    lent: &CadType,
    row: &[Place],
    address: Address,
) -> Result<Tree, Stop>
    ensures { CarriesOut pure_tree (spec.issue (pure_type lent.now) (pure_row row.now) address) state.old state.new result }
{
    if !is_reference(lent) {
        return Err(Stop::IllTyped);
    }
    match identifier(Domain::Storage, row, 0) {
        Some(target) => issue_to(state, lent, target, address),
        None => Err(Stop::IllTyped),
    }
}
