// What stands in accounts and contracts when a command ends.
ghost use Rattle.std.specs.Prelude.{◌≡◌, ◌&&◌, ◌∷◌, [], List, true, map};
ghost use Rattle.std.specs.List.{list_all};
ghost use Rattle.cad_outcomes.specs.Outcomes.{no_value};
ghost use Rattle.cad_rows.specs.Views.{as_row, pure_place, pure_row, pure_shape, pure_tree};
ghost use Rattle.cad_state.specs.Views.{accounts_over, contract_of};
ghost use Rattle.cad_state.specs.Ways.{account_in};
ghost use Rattle.cad_transaction_ends.specs.Code.AccountTests.{passes};
ghost use Rattle.cad_transaction_ends.specs.OverStorable.{AreStorable, CarriesOutOverStorable};
ghost use Rattle.cad_values.specs.Forms as forms;
ghost use Rattle.cad_values.specs.Values.{pure_value};
ghost use Rattle.cad_world.specs.State as states;
ghost use Rattle.cad_world.specs.Storable as spec;

use crate::values::is_storable_value;
use cad_outcomes::{RunError, Stop};
use cad_rows::{Place, Shape, Tree, row_height};
use cad_state::{Contract, RunState};
use cad_values::Value;

/// Whether keys may stand in accounts.
fn are_keys_storable(keys: &[Value]) -> bool
    ensures { result ≡ list_all forms.is_storable_value (map pure_value keys.now) }
{
    for key in keys {
        if !is_storable_value(key) {
            return false;
        }
    }
    true
}

/// Whether a node may stand in accounts, without its parts.
fn is_storable_shape(shape: &Shape) -> bool
    ensures { result ≡ spec.is_storable_shape (pure_shape shape.now) }
{
    match shape {
        Shape::Plain(value) => is_storable_value(value),
        Shape::Link { .. } => false,
        Shape::Dictionary { keys, .. } => are_keys_storable(keys.as_slice()),
        _ => true,
    }
}

/// Whether a node and its parts may stand in accounts.
#[cycle(storing)]
fn is_storable_tree(tree: &Tree) -> bool
    ensures { result ≡ (spec.is_storable_shape (pure_tree tree.now).shape && spec.is_storable (pure_tree tree.now).parts) }
{
    is_storable_shape(&tree.shape) && is_storable_row(tree.parts.as_slice())
}

/// Whether the node of a place, where there is one, may stand in accounts.
#[tactic(auto, using(crate::proofs::Stored::storable_alone))]
#[cycle(storing)]
fn is_storable_place(place: &Place) -> bool
    ensures { result ≡ spec.is_storable (as_row (pure_place place.now ∷ [])) }
{
    match place {
        Place::Empty => true,
        Place::Full(_, tree) => is_storable_tree(tree),
    }
}

/// Whether nothing in a row, at any depth, is a reference, Void, an account or a controller.
#[tactic(auto, using(crate::proofs::Stored::storable_before))]
#[cycle(storing)]
fn is_storable_row(row: &[Place]) -> bool
    ensures { result ≡ spec.is_storable (pure_row row.now) }
{
    for place in row {
        if !is_storable_place(place) {
            return false;
        }
    }
    true
}

/// Whether no value in a row is higher than what is stored may be.
#[tactic(auto, using(crate::proofs::Stored::low))]
fn is_low_row(row: &[Place]) -> bool
    ensures { result ≡ spec.is_low (pure_row row.now) }
{
    row_height(row) <= 256
}

/// Whether every value in the account of an index can be stored, if the run has it.
fn is_account_storable(state: &RunState, i: usize) -> bool
    ensures { result ≡ passes spec.is_storable (account_in state.now.accounts i) }
{
    match state.account_of_index(i) {
        Some(account) => is_storable_row(account.stored.as_slice()),
        None => true,
    }
}

/// Whether every value in accounts can be stored, where those can that stand in accounts which the run doesn't have.
fn are_accounts_storable(state: &RunState) -> bool
    ensures { (accounts : List states.Account) → AreStorable accounts → result ≡ list_all (λ a. spec.is_storable a.stored) (accounts_over accounts state.now.accounts) }
{
    for n in 0..state.account_count() {
        if !is_account_storable(state, state.account_index(n)) {
            return false;
        }
    }
    true
}

/// Whether the value of every contract can be stored.
fn are_contracts_storable(contracts: &[Contract]) -> bool
    ensures { result ≡ list_all (λ c. spec.is_storable c.value) (map contract_of contracts.now) }
{
    for contract in contracts {
        if !is_storable_row(contract.value.as_slice()) {
            return false;
        }
    }
    true
}

/// Whether no value in the account of an index is too high, if the run has it.
fn is_account_low(state: &RunState, i: usize) -> bool
    ensures { result ≡ passes spec.is_low (account_in state.now.accounts i) }
{
    match state.account_of_index(i) {
        Some(account) => is_low_row(account.stored.as_slice()),
        None => true,
    }
}

/// Whether no value in accounts is too high, where none is in accounts which the run doesn't have.
fn are_accounts_low(state: &RunState) -> bool
    ensures { (accounts : List states.Account) → AreStorable accounts → result ≡ list_all (λ a. spec.is_low a.stored) (accounts_over accounts state.now.accounts) }
{
    for n in 0..state.account_count() {
        if !is_account_low(state, state.account_index(n)) {
            return false;
        }
    }
    true
}

/// Whether the value of no contract is too high.
fn are_contracts_low(contracts: &[Contract]) -> bool
    ensures { result ≡ list_all (λ c. spec.is_low c.value) (map contract_of contracts.now) }
{
    for contract in contracts {
        if !is_low_row(contract.value.as_slice()) {
            return false;
        }
    }
    true
}

/// Whether all that stands in accounts and contracts can be stored.
fn are_storable(state: &RunState) -> bool
    ensures { (accounts : List states.Account) → AreStorable accounts → result ≡ spec.all_in_accounts spec.is_storable (accounts_over accounts state.now.accounts) (map contract_of state.now.contracts.items) }
{
    let contracts = state.contracts.as_slice();
    are_accounts_storable(state) && are_contracts_storable(contracts)
}

/// Whether nothing that stands in accounts and contracts is too high.
fn are_low(state: &RunState) -> bool
    ensures { (accounts : List states.Account) → AreStorable accounts → result ≡ spec.all_in_accounts spec.is_low (accounts_over accounts state.now.accounts) (map contract_of state.now.contracts.items) }
{
    let contracts = state.contracts.as_slice();
    are_accounts_low(state) && are_contracts_low(contracts)
}

/// What stands in accounts and contracts is judged: 133 where a value can't be stored, and then 123 where one is too high. Accounts
/// that the run doesn't have pass.
pub fn judge_stored(state: &RunState) -> Result<(), Stop>
    ensures { CarriesOutOverStorable no_value spec.values_last state.now state.now result }
{
    if !are_storable(state) {
        return Err(Stop::Failed(RunError::NotStorable));
    }
    if !are_low(state) {
        return Err(Stop::Failed(RunError::TooLarge));
    }
    Ok(())
}
