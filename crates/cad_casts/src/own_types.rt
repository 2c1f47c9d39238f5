// Own types of values, and what containers ask of them.
ghost use Rattle.std.specs.Option.{is_some};
ghost use Rattle.std.specs.Prelude.{◌≡◌, List, Option, Some, IfOk, option_map};
ghost use Rattle.cad_access.specs.OwnTypes.{LeadsThere, LeadsTo};
ghost use Rattle.cad_syntax.specs.Types.{PureType, pure_type};
ghost use Rattle.cad_casts.specs.Settled as spec;
ghost use Rattle.cad_evaluation.specs.Casts.{with_type};
ghost use Rattle.cad_evaluation.specs.Containers as containers;
ghost use Rattle.cad_outcomes.specs.Outcomes.{no_value, Gives};
ghost use Rattle.cad_rows.specs.Views.{before, pure_place, pure_row, pure_shape, pure_tree};
ghost use Rattle.cad_state.specs.Views.{CarriesOut, FindsAndCarriesOut, IsReady, state_over};
ghost use Rattle.cad_values.specs.Values.{pure_value};
ghost use Rattle.cad_world.specs.Labels.{at};
ghost use Rattle.cad_world.specs.Locations.{with_found};
ghost use Rattle.cad_world.specs.OwnTypes.{controller_at};
ghost use Rattle.cad_world.specs.Rows.{Row, stop};
ghost use Rattle.cad_world.specs.State.{Account, done, give, or_fail};

use crate::below::is_instance;
use cad_access::own_type;
use cad_declarations::discard_type;
use cad_outcomes::{RunError, Stop};
use cad_rows::{Place, Shape, Tree};
use cad_run_accounts::{controller, know};
use cad_state::RunState;
use cad_syntax::{Address, CadType};
use cad_values::{Reference, Target, Value};
use std::alloc::AllocError;

/// How many optionals a tree is in.
pub(crate) fn optionals(tree: &Tree) -> u64
    ensures { result ≡ (pure_tree tree.now).optionals }
{
    tree.optionals
}

/// The shape of a tree.
pub(crate) fn shape(tree: &Tree) -> &Shape
    ensures { pure_shape result.now ≡ (pure_tree tree.now).shape }
{
    &tree.shape
}

/// What stands in a place.
fn tree_in(place: &Place) -> Option<&Tree>
    ensures { option_map (λ t. pure_tree t.now) result ≡ spec.tree_there (pure_place place.now) }
{
    match place {
        Place::Empty => None,
        Place::Full(_, tree) => Some(tree),
    }
}

/// The label of the node to which a reference of this shape leads.
fn label_in(shape: &Shape) -> Option<u64>
    ensures { result ≡ spec.label_in (pure_shape shape.now) }
{
    match shape {
        Shape::Link { label, .. } => Some(*label),
        _ => None,
    }
}

/// Whether there is a node with a label; behind it the label's hint leads there. ReferenceInvalid where there is none.
pub fn find_node(state: &mut RunState, label: u64) -> Result<(), Stop>
    ensures { FindsAndCarriesOut no_value (with_found label (λ f. done)) state.old state.new result }
{
    match state.locate(label) {
        Ok(true) => Ok(()),
        Ok(false) => Err(Stop::Failed(RunError::ReferenceInvalid)),
        Err(_) => Err(Stop::Memory),
    }
}

/// The address of the account of the controller to which a reference of this shape leads.
fn controller_address(shape: &Shape) -> Option<Address> {
    match shape {
        Shape::Plain(Value::Reference(reference)) => match &reference.to {
            Target::Controller { address, .. } => Some(*address),
            _ => None,
        },
        _ => None,
    }
}

/// The run has the account of the controller to which a reference of this shape leads, if it leads to one; else memory fails.
fn know_controller(state: &mut RunState, shape: &Shape) -> Result<(), Stop>
    ensures { CarriesOut no_value done state.old state.new result }
{
    match controller_address(shape) {
        Some(address) => match know(state, address) {
            Ok(()) => Ok(()),
            Err(_) => Err(Stop::Memory),
        },
        None => Ok(()),
    }
}

/// What a reference of this shape leads to is found, so that its type can be told; Failed with ReferenceInvalid where that is
/// gone. Of any other shape nothing is done; memory fails where it leads to a controller whose account the run doesn't have.
pub fn settle_type(state: &mut RunState, shape: &Shape) -> Result<(), Stop>
    ensures { FindsAndCarriesOut no_value (spec.settled (pure_shape shape.now)) state.old state.new result }
{
    match label_in(shape) {
        Some(label) => find_node(state, label),
        None => know_controller(state, shape),
    }
}

/// A type that was told; ReferenceInvalid where there is none.
fn type_told(told: Result<Option<CadType>, AllocError>) -> Result<CadType, Stop>
    ensures { (own : Option PureType) → IfOk told (λ o. option_map pure_type o ≡ own) → Gives pure_type (or_fail 113 own (λ t. give t)) result }
{
    match told {
        Ok(Some(own)) => Ok(own),
        Ok(None) => Err(Stop::Failed(RunError::ReferenceInvalid)),
        Err(_) => Err(Stop::Memory),
    }
}

/// Whether an account has a controller of a number. Memory fails only where the run doesn't have the account.
pub fn is_controller(state: &RunState, address: Address, id: u64) -> Result<bool, AllocError>
    ensures { IfOk result (λ is. (accounts : List Account) → is ≡ is_some (controller_at (state_over accounts state.now) address.0 id)) }
{
    match controller(state, address, id) {
        Ok(Some(_)) => Ok(true),
        Ok(None) => Ok(false),
        Err(error) => Err(error),
    }
}

/// Whether a reference to a controller leads to one that is there; false of other references.
fn reference_leads(state: &RunState, reference: &Reference) -> Result<bool, AllocError>
    ensures { IfOk result (λ is. (accounts : List Account) → LeadsThere (state_over accounts state.now) (pure_value (Value.Reference reference.now)) is) }
{
    match &reference.to {
        Target::Controller { address, id } => is_controller(state, *address, *id),
        _ => Ok(false),
    }
}

/// Whether a value is a reference to a controller that is there.
fn value_leads(state: &RunState, value: &Value) -> Result<bool, AllocError>
    ensures { IfOk result (λ is. (accounts : List Account) → LeadsThere (state_over accounts state.now) (pure_value value.now) is) }
{
    match value {
        Value::Reference(reference) => reference_leads(state, reference),
        _ => Ok(false),
    }
}

/// A shape, where it is there.
fn shape_if(is: bool, shape: &Shape) -> Option<&Shape>
    ensures { is_some (option_map (λ x. pure_shape x.now) result) ≡ is }
{
    if is { Some(shape) } else { None }
}

/// The node with a label, which `settle_type` has found: its shape.
fn shape_at(state: &RunState, label: u64) -> Result<&Shape, AllocError>
    ensures { IfOk result (λ x. (accounts : List Account) → IsReady accounts state.now → option_map (λ f. f.tree.shape) (at label (state_over accounts state.now)) ≡ Some (pure_shape x.now)) }
{
    match state.node(label) {
        Some(node) => Ok(shape(node.tree)),
        None => Err(AllocError),
    }
}

/// Where a shape leads, as `own_type` wants it: the shape of the node of a reference to one, and for a controller that is there
/// the reference itself. Memory fails where `settle_type` didn't come before.
fn lead<'a>(state: &'a RunState, own: &'a Shape) -> Result<Option<&'a Shape>, AllocError>
    ensures { IfOk result (λ o. (accounts : List Account) → IsReady accounts state.now → LeadsTo (state_over accounts state.now) (pure_shape own.now) (option_map (λ x. pure_shape x.now) o)) }
{
    match own {
        Shape::Link { label, .. } => match shape_at(state, *label) {
            Ok(found) => Ok(Some(found)),
            Err(error) => Err(error),
        },
        Shape::Plain(value) => match value_leads(state, value) {
            Ok(is) => Ok(shape_if(is, own)),
            Err(error) => Err(error),
        },
        _ => Ok(None),
    }
}

/// The own type of a value in this many optionals, whatever its parts. Memory where `settle_type` didn't come before.
pub fn type_here(state: &RunState, optionals: u64, own: &Shape) -> Result<CadType, Stop>
    ensures { (parts : Row) → FindsAndCarriesOut pure_type (with_type (record { optionals = optionals; shape = pure_shape own.now; parts = parts }) (λ own. give own)) state.now state.now result }
{
    match lead(state, own) {
        Ok(found) => type_told(own_type(*state.making.allocator(), optionals, own, found)),
        Err(_) => Err(Stop::Memory),
    }
}

/// The own type of a value; Failed with ReferenceInvalid of a reference to what is gone.
pub fn own_type_of(state: &mut RunState, tree: &Tree) -> Result<CadType, Stop>
    ensures { FindsAndCarriesOut pure_type (with_type (pure_tree tree.now) (λ own. give own)) state.old state.new result }
{
    match settle_type(state, shape(tree)) {
        Ok(()) => type_here(state, optionals(tree), shape(tree)),
        Err(stop) => Err(stop),
    }
}

/// ElementType where a type isn't below the type of a container's values.
fn check_own(state: &RunState, wanted: &CadType, own: CadType) -> Result<(), Stop>
    ensures { CarriesOut no_value (spec.of_own (pure_type own) (pure_type wanted.now)) state.now state.now result }
{
    let is_there = is_instance(state, &own, wanted);
    discard_type(own);
    match is_there {
        Ok(true) => Ok(()),
        Ok(false) => Err(Stop::Failed(RunError::ElementType)),
        Err(_) => Err(Stop::Memory),
    }
}

/// A value may come to a container of values of a type: Failed with ElementType where it isn't of the type, and with
/// ReferenceInvalid where it is a reference to what is gone.
pub fn check_type(state: &mut RunState, wanted: &CadType, tree: &Tree) -> Result<(), Stop>
    ensures { FindsAndCarriesOut no_value (containers.of_type (pure_type wanted.now) (pure_tree tree.now) done) state.old state.new result }
{
    match own_type_of(state, tree) {
        Ok(own) => check_own(state, wanted, own),
        Err(stop) => Err(stop),
    }
}

/// What stands in a place may come to a container of values of a type.
fn check_place(state: &mut RunState, wanted: &CadType, place: &Place) -> Result<(), Stop>
    ensures { FindsAndCarriesOut no_value (containers.all_of_type (pure_type wanted.now) (before (pure_place place.now) stop) done) state.old state.new result }
{
    match tree_in(place) {
        Some(tree) => check_type(state, wanted, tree),
        None => Ok(()),
    }
}

/// The values of a row may come to a container of values of a type, as `check_type` says of one.
pub fn check_row(state: &mut RunState, wanted: &CadType, row: &[Place]) -> Result<(), Stop>
    ensures { FindsAndCarriesOut no_value (containers.all_of_type (pure_type wanted.now) (pure_row row.now) done) state.old state.new result }
{
    for place in row {
        match check_place(state, wanted, place) {
            Ok(()) => {}
            Err(stop) => return Err(stop),
        }
    }
    Ok(())
}
