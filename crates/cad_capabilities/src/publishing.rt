// What accounts publish.
ghost use Rattle.std.specs.Option.{is_some};
ghost use Rattle.std.specs.Prelude.{◌≡◌, List, IfOk, option_map};
ghost use Rattle.cad_capabilities.specs.Code as code;
ghost use Rattle.cad_capabilities.specs.Views.{capability_of};
ghost use Rattle.cad_evaluation.specs.Arguments.{with_identifier};
ghost use Rattle.cad_evaluation.specs.Capabilities as spec;
ghost use Rattle.cad_rows.specs.Views.{pure_row, pure_tree};
ghost use Rattle.cad_state.specs.Views.{CarriesOut, publication_of, state_over};
ghost use Rattle.cad_syntax.specs.declared.address.Domain.TheVariants as domain;
ghost use Rattle.cad_world.specs.State.{Account, require};

use crate::arguments::{capability, identifier};
use crate::trees::{capability_from, void_tree, wrapped_capability};
use cad_operators::nil_tree;
use cad_outcomes::{RunError, Stop};
use cad_rows::{Place, Tree};
use cad_run_accounts::{is_account, published};
use cad_state::{Publication, RunState};
use cad_syntax::{Address, Domain, Name};
use cad_values::Cap;
use std::alloc::AllocError;

/// Whether a capability is an account's own, and led by a controller.
fn is_own(address: Address, cap: &Cap) -> bool
    ensures { result ≡ spec.is_own address (capability_of cap.now) }
{
    cap.address.0 == address.0 && cap.id != 0
}

/// A capability, as it is published under an identifier.
fn publication_for(cap: &Cap, name: &Name) -> Result<Publication, AllocError>
    ensures { IfOk result (λ p. publication_of p ≡ code.publication_for (capability_of cap.now) name.now) }
{
    Ok(Publication {
        identifier: name.clone()?,
        number: cap.id,
        lent: cap.borrow.clone()?,
    })
}

/// Publishes a capability under an identifier.
fn publish_now(state: &mut RunState, address: Address, cap: &Cap, name: &Name) -> Result<Tree, Stop>
    ensures { CarriesOut pure_tree (code.published_now address (capability_of cap.now) name.now) state.old state.new result }
{
    match publication_for(cap, name) {
        Ok(publication) => match cad_run_accounts::publish(state, address, publication) {
            Ok(()) => Ok(void_tree(*state.making.allocator())),
            Err(_) => Err(Stop::Memory),
        },
        Err(_) => Err(Stop::Memory),
    }
}

/// Publishes a capability under an identifier; PublishOccupied where one is published there.
fn publish_free(
    state: &mut RunState,
    address: Address,
    cap: &Cap,
    name: &Name,
) -> Result<Tree, Stop>
    ensures { CarriesOut pure_tree (spec.publish_free address (capability_of cap.now) name.now) state.old state.new result }
{
    match is_published(state, address, name) {
        Ok(false) => publish_now(state, address, cap, name),
        Ok(true) => Err(Stop::Failed(RunError::PublishOccupied)),
        Err(_) => Err(Stop::Memory),
    }
}

/// Publishes a capability under an identifier; PublishForeign where it is another account's or of number 0.
fn publish_own(state: &mut RunState, address: Address, cap: &Cap, name: &Name) -> Result<Tree, Stop>
    ensures { CarriesOut pure_tree (require 117 (spec.is_own address (capability_of cap.now)) (spec.publish_free address (capability_of cap.now) name.now)) state.old state.new result }
{
    if is_own(address, cap) {
        publish_free(state, address, cap, name)
    } else {
        Err(Stop::Failed(RunError::PublishForeign))
    }
}

/// Publishes the argument.
fn publish_argument(state: &mut RunState, row: &[Place], address: Address) -> Result<Tree, Stop>
    ensures { CarriesOut pure_tree (code.published_argument (pure_row row.now) address) state.old state.new result }
{
    match capability(row, 0) {
        Some(cap) => match identifier(Domain::Public, row, 1) {
            Some(name) => publish_own(state, address, cap, name),
            None => Err(Stop::IllTyped),
        },
        None => Err(Stop::IllTyped),
    }
}

/// Publishes the capability that is the first argument under the public path that is the second. IllTyped where there is no such
/// account, or the arguments aren't these; Failed with PublishForeign where the capability is another account's or of number 0,
/// with PublishOccupied where one is published there.
pub fn publish(state: &mut RunState, row: &[Place], address: Address) -> Result<Tree, Stop>
    ensures { CarriesOut pure_tree (spec.publish (pure_row row.now) address) state.old state.new result }
{
    if is_account(state, address) {
        return publish_argument(state, row, address);
    }
    Err(Stop::IllTyped)
}

/// Whether something is published under an identifier.
pub(crate) fn is_published(
    state: &RunState,
    address: Address,
    name: &Name,
) -> Result<bool, AllocError>
    ensures { IfOk result (λ is. (accounts : List Account) → is ≡ is_some (spec.published_at (state_over accounts state.now) address name.now)) }
{
    match published(state, address, name) {
        Ok(Some(_)) => Ok(true),
        Ok(None) => Ok(false),
        Err(error) => Err(error),
    }
}

/// A copy of the capability that is published under an identifier.
fn capability_at(state: &RunState, address: Address, name: &Name) -> Result<Option<Cap>, AllocError>
    ensures { IfOk result (λ o. (accounts : List Account) → option_map capability_of o ≡ option_map (spec.capability_of address) (spec.published_at (state_over accounts state.now) address name.now)) }
{
    match published(state, address, name) {
        Ok(Some(publication)) => match capability_from(
            address,
            publication.number,
            &publication.lent,
        ) {
            Ok(cap) => Ok(Some(cap)),
            Err(error) => Err(error),
        },
        Ok(None) => Ok(None),
        Err(error) => Err(error),
    }
}

/// A capability goes from under an identifier, and is given in an optional.
fn unpublish_now(
    state: &mut RunState,
    address: Address,
    name: &Name,
    cap: Cap,
) -> Result<Tree, Stop>
    ensures { CarriesOut pure_tree (code.unpublished_now address name.now (capability_of cap)) state.old state.new result }
{
    match cad_run_accounts::unpublish(state, address, name) {
        Ok(()) => Ok(wrapped_capability(*state.making.allocator(), cap)),
        Err(_) => Err(Stop::Memory),
    }
}

/// What is published under an identifier goes, and is given; nil where nothing is.
fn unpublish_under(state: &mut RunState, address: Address, name: &Name) -> Result<Tree, Stop>
    ensures { CarriesOut pure_tree (code.unpublished_under address name.now) state.old state.new result }
{
    match capability_at(state, address, name) {
        Ok(Some(cap)) => unpublish_now(state, address, name, cap),
        Ok(None) => Ok(nil_tree(*state.making.allocator())),
        Err(_) => Err(Stop::Memory),
    }
}

/// What is published under the argument goes, and is given.
fn unpublish_argument(state: &mut RunState, row: &[Place], address: Address) -> Result<Tree, Stop>
    ensures { CarriesOut pure_tree (with_identifier domain.Public 0 (pure_row row.now) (code.unpublished_under address)) state.old state.new result }
{
    match identifier(Domain::Public, row, 0) {
        Some(name) => unpublish_under(state, address, name),
        None => Err(Stop::IllTyped),
    }
}

/// The capability that was published under the public path that is the argument, or nil; nothing is published there any more.
/// IllTyped where there is no such account, or the argument isn't that.
pub fn unpublish(state: &mut RunState, row: &[Place], address: Address) -> Result<Tree, Stop>
    ensures { CarriesOut pure_tree (spec.unpublish (pure_row row.now) address) state.old state.new result }
{
    if is_account(state, address) {
        return unpublish_argument(state, row, address);
    }
    Err(Stop::IllTyped)
}
