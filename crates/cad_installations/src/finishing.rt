// A contract is the account's: every field has been set.
ghost use Rattle.std.specs.Prelude.{◌≡◌, map, true};
ghost use Rattle.cad_evaluation.specs.Adding as spec;
ghost use Rattle.cad_rows.specs.Places.{pure_slot};
ghost use Rattle.cad_rows.specs.Views.{pure_tree};
ghost use Rattle.cad_state.specs.Views.{CarriesOut, contract_of};
ghost use Rattle.cad_world.specs.Labels.{value_in};

use cad_access::contract_in;
use cad_operators::plain_tree;
use cad_outcomes::Stop;
use cad_rows::{Slot, Tree, is_full, tree_at};
use cad_state::{Contract, RunState};
use cad_syntax::TypeId;
use cad_values::Value;

/// Whether what stands in a place has all its parts.
fn has_all(slot: Slot<'_>) -> bool
    ensures { result ≡ spec.is_whole (pure_slot slot.entry) }
{
    match slot {
        Slot::Full(tree) => is_full(tree.parts.as_slice()),
        _ => false,
    }
}

/// Whether the contract with an identifier has a value with all fields set.
fn is_whole(contracts: &[Contract], id: &TypeId) -> bool
    ensures { result ≡ spec.is_whole (value_in (map contract_of contracts.now) id.now) }
{
    match contract_in(contracts, id) {
        Some(contract) => has_all(tree_at(contract.value.as_slice(), 0)),
        None => false,
    }
}

/// The initializer of a contract doesn't run any more, if it has an identifier.
fn stand(contract: &mut Contract, id: &TypeId)
    ensures { contract_of contract.new ≡ spec.stands_now id.now (contract_of contract.old) }
{
    if contract.id.same(id) {
        contract.is_running = false;
    }
}

/// The initializers of the contracts with an identifier don't run any more.
fn stand_all(contracts: &mut Vec<Contract>, id: &TypeId)
    ensures { map contract_of contracts.new.items ≡ map (spec.stands_now id.now) (map contract_of contracts.old.items) }
{
    for i in 0..contracts.len() {
        stand(&mut contracts[i], id);
    }
}

/// A contract whose fields are all set is the account's.
fn join_account(state: &mut RunState, id: &TypeId) -> Result<Tree, Stop>
    requires { spec.is_whole (value_in (map contract_of state.old.contracts.items) id.now) ≡ true }
    ensures { CarriesOut pure_tree (spec.finish_contract id.now) state.old state.new result }
{
    match id.clone() {
        Ok(own) => match state.added.push(own) {
            Ok(()) => {
                stand_all(&mut state.contracts, id);
                Ok(plain_tree(*state.making.allocator(), Value::Void))
            }
            Err(_) => Err(Stop::Memory),
        },
        Err(_) => Err(Stop::Memory),
    }
}

/// A contract is the account's, and its initializer doesn't run any more: IllTyped where a field isn't set.
pub(crate) fn finish_contract(state: &mut RunState, id: &TypeId) -> Result<Tree, Stop>
    ensures { CarriesOut pure_tree (spec.finish_contract id.now) state.old state.new result }
{
    if is_whole(state.contracts.as_slice(), id) {
        return join_account(state, id);
    }
    Err(Stop::IllTyped)
}
