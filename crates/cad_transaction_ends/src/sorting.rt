// The order of contracts.
ghost use Rattle.std.specs.Prelude.{◌≡◌, IfOk, OnOk, map};
ghost use Rattle.cad_state.specs.Views.{contract_of};
ghost use Rattle.cad_transaction_ends.specs.Code.Sorting.{place_in};
ghost use Rattle.cad_world.specs.Orders as orders;

use cad_state::{Contract, discard_contract, discard_contracts};
use cad_syntax::TypeId;
use std::alloc::{AllocError, Global};
use std::mem::replace;

/// The name of a contract.
fn contract_name(alloc: Global, id: &TypeId) -> Result<Vec<u8>, AllocError>
    ensures { IfOk result (λ name. name.items ≡ orders.contract_name id.now) }
{
    let mut bytes = Vec::new(alloc);
    for name in id.names.as_slice() {
        bytes.extend_from_slice(name.0.as_bytes())?;
    }
    Ok(bytes)
}

/// Whether a text stands before another, byte by byte.
fn is_text_before(one: &[u8], other: &[u8]) -> bool
    ensures { result ≡ orders.text_before one.now other.now }
{
    one.cmp(other).is_lt()
}

/// Whether the name of a contract stands before that of another.
fn is_name_before(alloc: Global, one: &TypeId, other: &TypeId) -> Result<bool, AllocError>
    ensures { IfOk result (λ is. is ≡ orders.text_before (orders.contract_name one.now) (orders.contract_name other.now)) }
{
    let name = contract_name(alloc, one)?;
    let beside = contract_name(alloc, other)?;
    Ok(is_text_before(name.as_slice(), beside.as_slice()))
}

/// Whether a contract stands before another: by their addresses, and at one address by their names.
fn is_before(alloc: Global, one: &Contract, other: &Contract) -> Result<bool, AllocError>
    ensures { IfOk result (λ is. is ≡ orders.contract_before (contract_of one.now) (contract_of other.now)) }
{
    if one.id.address.0 < other.id.address.0 {
        return Ok(true);
    }
    if one.id.address.0 != other.id.address.0 {
        return Ok(false);
    }
    is_name_before(alloc, &one.id, &other.id)
}

/// Where a contract comes in: before the first that it stands before, or at the end.
#[tactic(auto, using(crate::proofs::Order::found, crate::proofs::Order::passed, crate::proofs::Order::not_found))]
fn place_for(alloc: Global, contract: &Contract, sorted: &[Contract]) -> Result<usize, AllocError>
    ensures { IfOk result (λ i. i ≡ place_in orders.contract_before (contract_of contract.now) (map contract_of sorted.now)) }
{
    for i in 0..sorted.len() {
        match is_before(alloc, contract, &sorted[i]) {
            Ok(comes) => {
                if comes {
                    return Ok(i);
                }
            }
            Err(error) => return Err(error),
        }
    }
    Ok(sorted.len())
}

/// A contract comes to its place among contracts in order. Where memory fails, it is let go.
fn add_sorted(sorted: &mut Vec<Contract>, contract: Contract) -> Result<(), AllocError>
    ensures { OnOk result (map contract_of sorted.new.items ≡ orders.insert_in orders.contract_before (contract_of contract) (map contract_of sorted.old.items)) }
{
    match place_for(*sorted.allocator(), &contract, sorted.as_slice()) {
        Ok(i) => match sorted.insert(i, contract) {
            Ok(()) => Ok(()),
            Err(refused) => {
                discard_contract(refused.value);
                Err(AllocError)
            }
        },
        Err(error) => {
            discard_contract(contract);
            Err(error)
        }
    }
}

/// Contracts come to their order. Where memory fails, some of them are let go.
#[tactic(auto, using(crate::proofs::Order::onto_turn, crate::proofs::Order::onto_none))]
pub(crate) fn sort_contracts(contracts: &mut Vec<Contract>) -> Result<(), AllocError>
    ensures { OnOk result (map contract_of contracts.new.items ≡ orders.sorted_in orders.contract_before (map contract_of contracts.old.items)) }
{
    let mut sorted = Vec::<Contract>::new(*contracts.allocator());
    while let Some(contract) = contracts.pop() {
        match add_sorted(&mut sorted, contract) {
            Ok(()) => {}
            Err(error) => {
                discard_contracts(sorted);
                return Err(error);
            }
        }
    }
    let none = replace(contracts, sorted);
    none.destroy_empty();
    Ok(())
}
