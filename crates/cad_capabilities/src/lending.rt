// What capabilities lend.
ghost use Rattle.std.specs.Option.{is_some};
ghost use Rattle.std.specs.Prelude.{◌≡◌, List, IfOk, Some};
ghost use Rattle.cad_capabilities.specs.Code as code;
ghost use Rattle.cad_capabilities.specs.Views.{capability_of, lent_of};
ghost use Rattle.cad_evaluation.specs.Capabilities as spec;
ghost use Rattle.cad_evaluation.specs.Numbers as numbers;
ghost use Rattle.cad_evaluation.specs.Storage as storage;
ghost use Rattle.cad_evaluation.specs.Texts as texts;
ghost use Rattle.cad_outcomes.specs.Outcomes.{Gives};
ghost use Rattle.cad_rows.specs.Views.{pure_row, pure_tree};
ghost use Rattle.cad_state.specs.Views.{FindsAndCarriesOut, controller_of, state_over};
ghost use Rattle.cad_syntax.specs.Types.{pure_type};
ghost use Rattle.cad_values.specs.Values.{pure_value};
ghost use Rattle.cad_world.specs.Rows.{alone};
ghost use Rattle.cad_world.specs.State.{Account, give, with_some};
ghost use Rattle.cad_world.specs.Trees.{of_plain};

use crate::getting::grants_type;
use crate::trees::{path_value, wrapped_value};
use cad_operators::{bool_tree, nil_tree, plain_tree, truth_in};
use cad_outcomes::Stop;
use cad_rows::{Place, Tree, add_last, discard_row, discard_tree};
use cad_run_accounts::{controller, know};
use cad_state::{Controller, RunState};
use cad_storage::check;
use cad_syntax::{Address, Authorization, CadType, Name};
use cad_values::{Cap, Reference, Target, Value};
use std::alloc::{AllocError, Global};

/// The identifier that a controller leads to, where it grants a type.
fn target_granted(led: &Controller, lent: &CadType) -> Result<Option<Name>, AllocError>
    ensures { IfOk result (λ o. o ≡ spec.target_of (pure_type lent.now) (Some (controller_of led.now))) }
{
    if !grants_type(&led.borrow, lent) {
        return Ok(None);
    }
    match led.target.clone() {
        Ok(name) => Ok(Some(name)),
        Err(error) => Err(error),
    }
}

/// The identifier in storage to which a capability leads.
fn aimed_at(state: &RunState, cap: &Cap) -> Result<Option<Name>, AllocError>
    ensures { IfOk result (λ o. (accounts : List Account) → o ≡ spec.aimed_at (state_over accounts state.now) (capability_of cap.now)) }
{
    if cap.id == 0 {
        return Ok(None);
    }
    match controller(state, cap.address, cap.id) {
        Ok(Some(led)) => target_granted(led, &cap.borrow),
        Ok(None) => Ok(None),
        Err(error) => Err(error),
    }
}

/// A path to an identifier in storage, as the one argument of a call.
fn path_row(alloc: Global, name: &Name) -> Result<Vec<Place>, AllocError>
    ensures { IfOk result (λ row. pure_row row.items ≡ alone (code.stored_path name.now)) }
{
    let path = plain_tree(alloc, path_value(name.clone()?));
    let mut row = Vec::new(alloc);
    match add_last(&mut row, path) {
        Ok(()) => Ok(row),
        Err(error) => {
            discard_row(row);
            Err(error)
        }
    }
}

/// The truth that a value is, which is let go; IllTyped of what is none.
fn take_truth(tree: Tree) -> Result<bool, Stop>
    ensures { Gives (λ is. is) (with_some (numbers.truth_of (pure_tree tree)) give) result }
{
    let truth = truth_in(&tree);
    discard_tree(tree);
    match truth {
        Some(is) => Ok(is),
        None => Err(Stop::IllTyped),
    }
}

/// Whether an account stores something of a type under the path that the argument is, as its storage's `check` tells.
fn is_checked(
    state: &mut RunState,
    wanted: &CadType,
    row: &[Place],
    address: Address,
) -> Result<bool, Stop>
    ensures { FindsAndCarriesOut (λ is. is) (code.checked (pure_type wanted.now) (pure_row row.now) address) state.old state.new result }
{
    match check(state, wanted, row, address) {
        Ok(told) => take_truth(told),
        Err(stop) => Err(stop),
    }
}

/// Whether an account stores something of a type under an identifier.
fn is_stored_as(
    state: &mut RunState,
    wanted: &CadType,
    address: Address,
    name: &Name,
) -> Result<bool, Stop>
    ensures { FindsAndCarriesOut (λ is. is) (code.stored_as (pure_type wanted.now) address name.now) state.old state.new result }
{
    match path_row(*state.making.allocator(), name) {
        Ok(row) => {
            let is = is_checked(state, wanted, row.as_slice(), address);
            discard_row(row);
            is
        }
        Err(_) => Err(Stop::Memory),
    }
}

/// A reference to what an account stores under an identifier.
fn reference_value(address: Address, name: Name, own: Authorization, target: CadType) -> Value
    ensures { of_plain (pure_value result) ≡ storage.stored_reference address name own (pure_type target) }
{
    Value::Reference(Reference {
        authorization: own,
        target,
        to: Target::Stored {
            address,
            path: name,
        },
    })
}

/// The same of parts that are copied.
fn stored_reference(
    address: Address,
    name: &Name,
    own: &Authorization,
    target: &CadType,
) -> Result<Value, AllocError>
    ensures { IfOk result (λ v. of_plain (pure_value v) ≡ storage.stored_reference address name.now own.now (pure_type target.now)) }
{
    let name = name.clone()?;
    let own = own.clone()?;
    let target = target.clone()?;
    Ok(reference_value(address, name, own, target))
}

/// What a capability lends, told whether what is stored is of the type.
fn reference_if(
    passes: bool,
    address: Address,
    name: &Name,
    own: &Authorization,
    target: &CadType,
) -> Result<Option<Value>, Stop>
    ensures { Gives lent_of (give (spec.reference_if passes (storage.stored_reference address name.now own.now (pure_type target.now)))) result }
{
    if !passes {
        return Ok(None);
    }
    match stored_reference(address, name, own, target) {
        Ok(reference) => Ok(Some(reference)),
        Err(_) => Err(Stop::Memory),
    }
}

/// What a capability lends of what is stored under an identifier.
fn lend_reference(
    state: &mut RunState,
    address: Address,
    name: &Name,
    own: &Authorization,
    target: &CadType,
) -> Result<Option<Value>, Stop>
    ensures { FindsAndCarriesOut lent_of (code.lent_reference address name.now own.now (pure_type target.now)) state.old state.new result }
{
    match is_stored_as(state, target, address, name) {
        Ok(passes) => reference_if(passes, address, name, own, target),
        Err(stop) => Err(stop),
    }
}

/// What a capability lends that leads to an identifier in storage; IllTyped of one that lends no reference.
fn lend_as(state: &mut RunState, cap: &Cap, name: &Name) -> Result<Option<Value>, Stop>
    ensures { FindsAndCarriesOut lent_of (spec.lent_as (capability_of cap.now) name.now (capability_of cap.now).lent) state.old state.new result }
{
    match &cap.borrow {
        CadType::Reference(own, target) => lend_reference(state, cap.address, name, own, target),
        _ => Err(Stop::IllTyped),
    }
}

/// What a capability lends, where the run has its account; none where it leads to nothing, or storage has no value of the type.
fn lend_known(state: &mut RunState, cap: &Cap) -> Result<Option<Value>, Stop>
    ensures { FindsAndCarriesOut lent_of (spec.lent_by (capability_of cap.now)) state.old state.new result }
{
    match aimed_at(state, cap) {
        Ok(Some(name)) => lend_as(state, cap, &name),
        Ok(None) => Ok(None),
        Err(_) => Err(Stop::Memory),
    }
}

/// What a capability lends; none where it leads to nothing, or storage has no value of the type. Memory fails too where the run
/// doesn't have its account.
fn lend_if(state: &mut RunState, cap: &Cap) -> Result<Option<Value>, Stop>
    ensures { FindsAndCarriesOut lent_of (spec.lent_by (capability_of cap.now)) state.old state.new result }
{
    match know(state, cap.address) {
        Ok(()) => lend_known(state, cap),
        Err(_) => Err(Stop::Memory),
    }
}

/// The optional of what is lent, or nil.
fn optional_tree(alloc: Global, lent: Option<Value>) -> Tree
    ensures { pure_tree result ≡ texts.optional_tree (lent_of lent) }
{
    match lent {
        Some(reference) => wrapped_value(alloc, reference),
        None => nil_tree(alloc),
    }
}

/// A reference to what is stored where a capability leads, or nil: of number 0, where its controller isn't there or doesn't grant
/// what it lends, and where storage has no value of the type. Failed with ReferenceInvalid where what is stored is a reference to
/// what is gone; IllTyped of a capability that lends no reference.
pub fn lend(state: &mut RunState, cap: &Cap) -> Result<Tree, Stop>
    ensures { FindsAndCarriesOut pure_tree (spec.lend (capability_of cap.now)) state.old state.new result }
{
    match lend_if(state, cap) {
        Ok(lent) => Ok(optional_tree(*state.making.allocator(), lent)),
        Err(stop) => Err(stop),
    }
}

/// Whether something is lent, as a value.
fn lent_tree(alloc: Global, lent: Option<Value>) -> Tree
    ensures { pure_tree result ≡ numbers.bool_tree (is_some (lent_of lent)) }
{
    match lent {
        Some(reference) => {
            drop(reference);
            bool_tree(alloc, true)
        }
        None => bool_tree(alloc, false),
    }
}

/// Whether a capability lends anything, with the errors of `lend`.
pub fn lends(state: &mut RunState, cap: &Cap) -> Result<Tree, Stop>
    ensures { FindsAndCarriesOut pure_tree (spec.lends (capability_of cap.now)) state.old state.new result }
{
    match lend_if(state, cap) {
        Ok(lent) => Ok(lent_tree(*state.making.allocator(), lent)),
        Err(stop) => Err(stop),
    }
}
