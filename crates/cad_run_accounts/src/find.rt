// Accounts by their addresses.
ghost use Rattle.std.specs.Option.{is_some};
ghost use Rattle.std.specs.Prelude.{◌≡◌, ◌<◌, ◌≤◌, suc, ℕ, List, IfOk, OnOk, MatchOption, length, option_map};
ghost use Rattle.cad_run_accounts.specs.Known.{IsKnown};
ghost use Rattle.cad_state.specs.Views.{account_of, state_over};
ghost use Rattle.cad_world.specs.Labels as spec;
ghost use Rattle.cad_world.specs.State as s;

use cad_state::{Account, Accounts, RunState};
use cad_syntax::Address;
use std::alloc::AllocError;

/// Which of so many accounts has an address, the first 0.
pub(crate) fn account_index(count: usize, address: Address) -> Option<usize>
    ensures { MatchOption result ((i : ℕ) → address.0 ≡ suc i → count ≤ i) (λ i. (address.0 ≡ suc i) × (i < count)) }
{
    if address.0 == 0 {
        return None;
    }
    if count as u64 <= address.0 - 1 {
        return None;
    }
    Some((address.0 - 1) as usize)
}

/// How many accounts there are.
fn account_total(state: &RunState) -> usize
    ensures { (accounts : List s.Account) → result ≡ length (state_over accounts state.now).accounts }
{
    match &state.accounts {
        Accounts::All(all) => all.len(),
        Accounts::Part { count, known: _ } => *count as usize,
    }
}

/// The account of an address. Memory fails only where the run doesn't have it.
pub(crate) fn account(state: &RunState, address: Address) -> Result<Option<&Account>, AllocError>
    ensures { IfOk result (λ o. (accounts : List s.Account) → option_map (λ a. account_of a.now) o ≡ spec.account_at (state_over accounts state.now).accounts address.0) }
{
    match account_index(account_total(state), address) {
        Some(i) => match state.account_of_index(i) {
            Some(account) => Ok(Some(account)),
            None => Err(AllocError),
        },
        None => Ok(None),
    }
}

/// Whether there is an account of an address. It doesn't have to be one that the run has.
pub fn is_account(state: &RunState, address: Address) -> bool
    ensures { (accounts : List s.Account) → is_some (spec.account_at (state_over accounts state.now).accounts address.0) ≡ result }
{
    match account_index(account_total(state), address) {
        Some(_) => true,
        None => false,
    }
}

/// Makes sure that the run has the account of an address, if there is one. Where it doesn't, the state says which it lacks, and memory
/// fails.
pub fn know(state: &mut RunState, address: Address) -> Result<(), AllocError>
    ensures same { (accounts : List s.Account) → state_over accounts state.new ≡ state_over accounts state.old }
    ensures known { OnOk result (IsKnown address.0 state.old) }
{
    match account_index(account_total(state), address) {
        Some(i) => match state.account_of_index(i) {
            Some(_) => Ok(()),
            None => {
                state.wanted = Some(i as u64);
                Err(AllocError)
            }
        },
        None => Ok(()),
    }
}
