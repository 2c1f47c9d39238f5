// What accounts publish under identifiers.
ghost use Rattle.std.specs.Prelude.{◌≡◌, ◌≤◌, List, IfOk, OnOk, find, length, map, not, option_map};
ghost use Rattle.cad_declarations.specs.Names.{same_name};
ghost use Rattle.cad_evaluation.specs.Capabilities as capabilities;
ghost use Rattle.cad_run_accounts.specs.Code.Edits.{place_before};
ghost use Rattle.cad_state.specs.Views.{account_of, publication_of, state_over};
ghost use Rattle.cad_world.specs.Labels as spec;
ghost use Rattle.cad_world.specs.State as s;

use crate::changes::{Change, change_only};
use crate::find::account;
use crate::names::is_name_before;
use cad_declarations::is_same_name;
use cad_state::{Account, Publication, RunState};
use cad_syntax::{Address, Name};
use std::alloc::AllocError;

// ---- of one account

/// What is published under an identifier.
fn published_in<'a>(all: &'a [Publication], name: &Name) -> Option<&'a Publication>
    ensures { option_map (λ p. publication_of p.now) result ≡ find (λ p. same_name p.identifier name.now) (map publication_of all.now) }
{
    for publication in all {
        if is_same_name(&publication.identifier, name) {
            return Some(publication);
        }
    }
    None
}

/// How many publications stand before the first whose identifier comes behind this one.
fn place_in(all: &[Publication], name: &Name) -> usize
    ensures value { result ≡ place_before name.now (map publication_of all.now) }
    ensures bound { result ≤ length all.now }
{
    for i in 0..all.len() {
        if is_name_before(name, &all[i].identifier) {
            return i;
        }
    }
    all.len()
}

/// A capability is published.
#[tactic(auto, using(crate::proofs::Orders::published_there))]
pub(crate) fn publish_in(account: &mut Account, publication: Publication) -> Result<(), AllocError>
    ensures { OnOk result (account_of account.new ≡ capabilities.publishing (publication_of publication) (account_of account.old)) }
{
    let i = place_in(account.published.as_slice(), &publication.identifier);
    match account.published.insert(i, publication) {
        Ok(()) => Ok(()),
        Err(_) => Err(AllocError),
    }
}

/// Nothing is published under an identifier any more.
pub(crate) fn unpublish_in(account: &mut Account, name: &Name)
    ensures { account_of account.new ≡ capabilities.unpublishing name.now (account_of account.old) }
{
    account.published.retain(
        |publication: &Publication| -> bool
            ensures { result ≡ not (same_name publication.now.identifier name.entry.now) }
        { !is_same_name(&publication.identifier, name) },
    );
}

// ---- of the account of an address

/// What an account publishes under an identifier. Memory fails only where the run doesn't have it.
pub fn published<'a>(
    state: &'a RunState,
    address: Address,
    name: &Name,
) -> Result<Option<&'a Publication>, AllocError>
    ensures { IfOk result (λ o. (accounts : List s.Account) → option_map (λ p. publication_of p.now) o ≡ capabilities.published_at (state_over accounts state.now) address name.now) }
{
    match account(state, address) {
        Ok(Some(account)) => Ok(published_in(account.published.as_slice(), name)),
        Ok(None) => Ok(None),
        Err(error) => Err(error),
    }
}

/// An account publishes a capability, before the first publication whose identifier comes behind its own.
pub fn publish(
    state: &mut RunState,
    address: Address,
    publication: Publication,
) -> Result<(), AllocError>
    ensures { OnOk result ((accounts : List s.Account) → state_over accounts state.new ≡ spec.with_account address.0 (capabilities.publishing (publication_of publication)) (state_over accounts state.old)) }
{
    change_only(state, address, Change::Publish(publication))
}

/// An account publishes nothing more under an identifier. Memory fails only where the run doesn't have it.
pub fn unpublish(state: &mut RunState, address: Address, name: &Name) -> Result<(), AllocError>
    ensures { OnOk result ((accounts : List s.Account) → state_over accounts state.new ≡ spec.with_account address.0 (capabilities.unpublishing name.now) (state_over accounts state.old)) }
{
    change_only(state, address, Change::Unpublish(name))
}
