// Controllers of capabilities.
ghost use Rattle.std.specs.Option.{is_some};
ghost use Rattle.std.specs.Prelude.{◌≡◌, List, IfOk, Some, option_and_then, option_map};
ghost use Rattle.cad_capabilities.specs.Code as code;
ghost use Rattle.cad_capabilities.specs.Code.{stored_path};
ghost use Rattle.cad_capabilities.specs.Views.{id_of};
ghost use Rattle.cad_evaluation.specs.Arguments as arguments;
ghost use Rattle.cad_evaluation.specs.Capabilities as spec;
ghost use Rattle.cad_evaluation.specs.Casts as casts;
ghost use Rattle.cad_evaluation.specs.Numbers as numbers;
ghost use Rattle.cad_evaluation.specs.Texts as texts;
ghost use Rattle.cad_outcomes.specs.Outcomes.{Gives};
ghost use Rattle.cad_rows.specs.Views.{pure_row, pure_shape, pure_tree};
ghost use Rattle.cad_state.specs.Views.{CarriesOut, controller_of, state_over};
ghost use Rattle.cad_syntax.specs.Types.{pure_type};
ghost use Rattle.cad_values.specs.Values.{pure_value};
ghost use Rattle.cad_world.specs.OwnTypes.{controller_at};
ghost use Rattle.cad_world.specs.Receivers.{Spot};
ghost use Rattle.cad_world.specs.State.{Account, give};
ghost use Rattle.cad_world.specs.Trees.{of_plain};

use crate::arguments::{argument, identifier};
use crate::trees::{path_value, unsigned_tree, void_tree, wrapped_value};
use cad_operators::{nil_tree, number_in, plain_tree};
use cad_outcomes::{RunError, Stop};
use cad_rows::{Place, Shape, Tree};
use cad_run_accounts::controller;
use cad_state::{Controller, RunState};
use cad_syntax::{Address, Authorization, Basic, Bytes, CadType, Domain, Name, Num};
use cad_text_operators::{text_copy, text_in};
use cad_values::{Reference, Target, Value};
use std::alloc::{AllocError, Global};

/// A controller by its account and its number there.
#[derive(Clone, Copy, Debug, PartialEq, Eq)]
pub struct ControllerId {
    pub address: Address,
    pub number: u64,
}

/// The controller to which a value is a reference.
fn controller_in_value(value: &Value) -> Option<ControllerId>
    ensures { option_map id_of result ≡ spec.controller_in_value (pure_value value.now) }
{
    match value {
        Value::Reference(reference) => match &reference.to {
            Target::Controller { address, id } => Some(ControllerId {
                address: *address,
                number: *id,
            }),
            _ => None,
        },
        _ => None,
    }
}

/// The controller to which a value with these optionals and this shape is a reference, as a spot has them; None where it is none.
pub fn controller_in(optionals: u64, shape: &Shape) -> Option<ControllerId>
    ensures { option_map id_of result ≡ texts.in_shape spec.controller_in_value optionals (pure_shape shape.now) }
{
    if optionals != 0 {
        return None;
    }
    match shape {
        Shape::Plain(value) => controller_in_value(value),
        _ => None,
    }
}

// ---- `getController`

/// A reference to a controller.
fn controller_reference(address: Address, n: u64) -> Value
    ensures { of_plain (pure_value result) ≡ spec.controller_reference address n }
{
    Value::Reference(Reference {
        authorization: Authorization::Unauthorized,
        target: CadType::Basic(Basic::StorageCapabilityController),
        to: Target::Controller { address, id: n },
    })
}

/// Whether an account has a controller of a number.
fn is_controller(state: &RunState, address: Address, n: u64) -> Result<bool, AllocError>
    ensures { IfOk result (λ is. (accounts : List Account) → is ≡ is_some (controller_at (state_over accounts state.now) address.0 n)) }
{
    match controller(state, address, n) {
        Ok(Some(_)) => Ok(true),
        Ok(None) => Ok(false),
        Err(error) => Err(error),
    }
}

/// A reference to an account's controller of a number, or nil.
fn find_controller(state: &RunState, address: Address, n: u64) -> Result<Tree, Stop>
    ensures { CarriesOut pure_tree (code.found_under address n) state.now state.now result }
{
    let alloc = *state.making.allocator();
    match is_controller(state, address, n) {
        Ok(true) => Ok(wrapped_value(alloc, controller_reference(address, n))),
        Ok(false) => Ok(nil_tree(alloc)),
        Err(_) => Err(Stop::Memory),
    }
}

/// A number of 64 bits; no memory for any other.
fn small_number(n: u128) -> Result<u64, AllocError>
    ensures { IfOk result (λ small. small ≡ n) }
{
    match u64::try_from(n) {
        Ok(small) => Ok(small),
        Err(_) => Err(AllocError),
    }
}

/// The same of any number. Memory where it is none of 64 bits.
fn find_numbered(state: &RunState, address: Address, n: u128) -> Result<Tree, Stop>
    ensures { CarriesOut pure_tree (code.found_under address n) state.now state.now result }
{
    match small_number(n) {
        Ok(small) => find_controller(state, address, small),
        Err(_) => Err(Stop::Memory),
    }
}

/// The number that the argument is.
fn number(row: &[Place]) -> Option<Num>
    ensures { result ≡ option_and_then numbers.number_in (arguments.argument 0 (pure_row row.now)) }
{
    match argument(row, 0) {
        Some(tree) => number_in(tree),
        None => None,
    }
}

/// A reference to the account's controller of the number that is the argument, or nil. IllTyped where it is no number, Memory where
/// it is none of 64 bits.
pub fn get_controller(state: &RunState, row: &[Place], address: Address) -> Result<Tree, Stop>
    ensures { CarriesOut pure_tree (spec.get_controller (pure_row row.now) address) state.now state.now result }
{
    match number(row) {
        Some(n) => find_numbered(state, address, n.magnitude),
        None => Err(Stop::IllTyped),
    }
}

// ---- what is read of a controller

/// The number of a controller. Failed with ReferenceInvalid where it was deleted.
pub fn read_controller_number(state: &RunState, id: ControllerId) -> Result<Tree, Stop>
    ensures { (spot : Spot) → texts.in_tree spec.controller_in_value spot.tree ≡ Some (id_of id) → CarriesOut pure_tree (spec.read_controller_number spot) state.now state.now result }
{
    match controller(state, id.address, id.number) {
        Ok(Some(led)) => Ok(unsigned_tree(*state.making.allocator(), led.number)),
        Ok(None) => Err(Stop::Failed(RunError::ReferenceInvalid)),
        Err(_) => Err(Stop::Memory),
    }
}

/// A type as a value.
fn type_tree(alloc: Global, t: &CadType) -> Result<Tree, Stop>
    ensures { Gives pure_tree (give (casts.type_tree (pure_type t.now))) result }
{
    match t.clone() {
        Ok(copy) => Ok(plain_tree(alloc, Value::Meta(copy))),
        Err(_) => Err(Stop::Memory),
    }
}

/// The type that may be borrowed by a controller. Failed with ReferenceInvalid where it was deleted.
pub fn read_borrow_type(state: &RunState, id: ControllerId) -> Result<Tree, Stop>
    ensures { (spot : Spot) → texts.in_tree spec.controller_in_value spot.tree ≡ Some (id_of id) → CarriesOut pure_tree (spec.read_borrow_type spot) state.now state.now result }
{
    match controller(state, id.address, id.number) {
        Ok(Some(led)) => type_tree(*state.making.allocator(), &led.borrow),
        Ok(None) => Err(Stop::Failed(RunError::ReferenceInvalid)),
        Err(_) => Err(Stop::Memory),
    }
}

/// A text as a value, of its bytes. Memory too where they aren't UTF-8, as the bytes of no tag are.
fn tag_tree(alloc: Global, tag: &Bytes) -> Result<Tree, Stop>
    ensures { Gives pure_tree (give (texts.text_tree tag.now)) result }
{
    match std::str::from_utf8(tag.as_slice()) {
        Ok(text) => text_copy(alloc, text),
        Err(_) => Err(Stop::Memory),
    }
}

/// The tag of a controller. Failed with ReferenceInvalid where it was deleted.
pub fn read_tag(state: &RunState, id: ControllerId) -> Result<Tree, Stop>
    ensures { (spot : Spot) → texts.in_tree spec.controller_in_value spot.tree ≡ Some (id_of id) → CarriesOut pure_tree (spec.read_tag spot) state.now state.now result }
{
    match controller(state, id.address, id.number) {
        Ok(Some(led)) => tag_tree(*state.making.allocator(), &led.tag),
        Ok(None) => Err(Stop::Failed(RunError::ReferenceInvalid)),
        Err(_) => Err(Stop::Memory),
    }
}

/// A path into storage, as a value.
fn path_tree(alloc: Global, identifier: &Name) -> Result<Tree, Stop>
    ensures { Gives pure_tree (give (stored_path identifier.now)) result }
{
    match identifier.clone() {
        Ok(copy) => Ok(plain_tree(alloc, path_value(copy))),
        Err(_) => Err(Stop::Memory),
    }
}

/// The path into storage that a controller has now. Failed with ReferenceInvalid where it was deleted.
pub fn read_target(state: &RunState, id: ControllerId) -> Result<Tree, Stop>
    ensures { (spot : Spot) → texts.in_tree spec.controller_in_value spot.tree ≡ Some (id_of id) → CarriesOut pure_tree (spec.read_target spot) state.now state.now result }
{
    match controller(state, id.address, id.number) {
        Ok(Some(led)) => path_tree(*state.making.allocator(), &led.target),
        Ok(None) => Err(Stop::Failed(RunError::ReferenceInvalid)),
        Err(_) => Err(Stop::Memory),
    }
}

// ---- how a controller is changed

/// A controller gets a tag.
fn change_tag(state: &mut RunState, id: ControllerId, tag: &str) -> Result<Tree, Stop>
    ensures { CarriesOut pure_tree (spec.becomes (λ x. record x { tag = tag.now }) (id_of id)) state.old state.new result }
{
    match cad_run_accounts::set_tag(state, id.address, id.number, tag.as_bytes()) {
        Ok(()) => Ok(void_tree(*state.making.allocator())),
        Err(_) => Err(Stop::Memory),
    }
}

/// A controller that is there gets the tag that is the argument.
fn set_tag_there(state: &mut RunState, row: &[Place], id: ControllerId) -> Result<Tree, Stop>
    ensures { CarriesOut pure_tree (code.tagged (pure_row row.now) (id_of id)) state.old state.new result }
{
    match text(row) {
        Some(tag) => change_tag(state, id, tag),
        None => Err(Stop::IllTyped),
    }
}

/// The text that the argument is.
fn text(row: &[Place]) -> Option<&str>
    ensures { option_map (λ t. t.now) result ≡ option_and_then texts.text_in (arguments.argument 0 (pure_row row.now)) }
{
    match argument(row, 0) {
        Some(tree) => text_in(tree),
        None => None,
    }
}

/// A controller gets the tag that is the argument. Failed with ReferenceInvalid where it was deleted; IllTyped where the argument
/// is no text.
pub fn set_tag(state: &mut RunState, row: &[Place], id: ControllerId) -> Result<Tree, Stop>
    ensures { (spot : Spot) → texts.in_tree spec.controller_in_value spot.tree ≡ Some (id_of id) → CarriesOut pure_tree (spec.set_tag (pure_row row.now) spot) state.old state.new result }
{
    match is_controller(state, id.address, id.number) {
        Ok(true) => set_tag_there(state, row, id),
        Ok(false) => Err(Stop::Failed(RunError::ReferenceInvalid)),
        Err(_) => Err(Stop::Memory),
    }
}

/// A controller gets a target.
fn change_target(state: &mut RunState, id: ControllerId, target: &Name) -> Result<Tree, Stop>
    ensures { CarriesOut pure_tree (spec.becomes (λ x. record x { target = target.now }) (id_of id)) state.old state.new result }
{
    match cad_run_accounts::retarget(state, id.address, id.number, target) {
        Ok(()) => Ok(void_tree(*state.making.allocator())),
        Err(_) => Err(Stop::Memory),
    }
}

/// A controller that is there gets the storage path that is the argument.
fn retarget_there(state: &mut RunState, row: &[Place], id: ControllerId) -> Result<Tree, Stop>
    ensures { CarriesOut pure_tree (code.retargeted (pure_row row.now) (id_of id)) state.old state.new result }
{
    match identifier(Domain::Storage, row, 0) {
        Some(target) => change_target(state, id, target),
        None => Err(Stop::IllTyped),
    }
}

/// A controller gets the storage path that is the argument. Failed with ReferenceInvalid where it was deleted; IllTyped where the
/// argument isn't that.
pub fn retarget(state: &mut RunState, row: &[Place], id: ControllerId) -> Result<Tree, Stop>
    ensures { (spot : Spot) → texts.in_tree spec.controller_in_value spot.tree ≡ Some (id_of id) → CarriesOut pure_tree (spec.retarget (pure_row row.now) spot) state.old state.new result }
{
    match is_controller(state, id.address, id.number) {
        Ok(true) => retarget_there(state, row, id),
        Ok(false) => Err(Stop::Failed(RunError::ReferenceInvalid)),
        Err(_) => Err(Stop::Memory),
    }
}

/// A controller that is there goes.
fn delete_there(state: &mut RunState, id: ControllerId) -> Result<Tree, Stop>
    ensures { CarriesOut pure_tree (code.deleted (id_of id)) state.old state.new result }
{
    match cad_run_accounts::remove_controller(state, id.address, id.number) {
        Ok(()) => Ok(void_tree(*state.making.allocator())),
        Err(_) => Err(Stop::Memory),
    }
}

/// A controller goes. Failed with ReferenceInvalid where it went before.
pub fn delete(state: &mut RunState, id: ControllerId) -> Result<Tree, Stop>
    ensures { (spot : Spot) → texts.in_tree spec.controller_in_value spot.tree ≡ Some (id_of id) → CarriesOut pure_tree (spec.delete spot) state.old state.new result }
{
    match is_controller(state, id.address, id.number) {
        Ok(true) => delete_there(state, id),
        Ok(false) => Err(Stop::Failed(RunError::ReferenceInvalid)),
        Err(_) => Err(Stop::Memory),
    }
}
