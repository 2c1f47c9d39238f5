// A contract begins: its value has no field set yet.
ghost use Rattle.std.specs.Prelude.{◌≡◌, ◌++◌, ◌∷◌, [], ℕ, IfOk, List, OnOk, map};
ghost use Rattle.cad_declarations.specs.Views.{member_of};
ghost use Rattle.cad_evaluation.specs.Adding as spec;
ghost use Rattle.cad_evaluation.specs.Making.{field_names};
ghost use Rattle.cad_installations.specs.Code.Values.{unset_row};
ghost use Rattle.cad_installations.specs.Views.{items_row};
ghost use Rattle.cad_rows.specs.Views.{before, pure_place, pure_row};
ghost use Rattle.cad_state.specs.Views.{CarriesOut, contract_of, program_of, state_over};
ghost use Rattle.cad_world.specs.Rows.{stop};
ghost use Rattle.cad_world.specs.State.{Account};

use cad_declarations::{Checked, Member};
use cad_making::{names_of_fields, unset_place};
use cad_outcomes::Stop;
use cad_rows::{Place, discard_place, discard_row};
use cad_state::{Contract, RunState, discard_contract};
use cad_syntax::{Names, TypeId};
use std::alloc::{AllocError, Global};

/// The members that the contract declares which a program is.
fn own_members<'c>(checked: &'c Checked, id: &TypeId) -> &'c [Member]
    ensures { map member_of result.now ≡ spec.entry_members (spec.own_entry id.now (program_of checked.now)) }
{
    match checked.tables.find(id) {
        Some(declared) => declared.members.as_slice(),
        None => &[],
    }
}

/// The names of the fields of a contract, in order.
fn names_of_contract(alloc: Global, contract: &Contract) -> Result<Names, AllocError>
    ensures { IfOk result (λ names. names ≡ field_names (spec.entry_members (spec.own_entry contract.now.id (contract_of contract.now).program))) }
{
    names_of_fields(alloc, own_members(&contract.checked, &contract.id))
}

/// A row of one place. Where memory fails, what stands in it is let go.
fn alone(alloc: Global, place: Place) -> Result<Vec<Place>, AllocError>
    ensures { IfOk result (λ row. items_row row ≡ before (pure_place place) stop) }
{
    let mut row = Vec::new(alloc);
    match row.push(place) {
        Ok(()) => Ok(row),
        Err(refused) => {
            discard_place(refused.value);
            discard_row(row);
            Err(AllocError)
        }
    }
}

/// The value of a contract, with this label, in which no field is set.
fn empty_value(alloc: Global, label: u64, contract: &Contract) -> Result<Vec<Place>, AllocError>
    ensures { IfOk result (λ row. items_row row ≡ unset_row label (contract_of contract.now)) }
{
    let names = names_of_contract(alloc, contract)?;
    let place = unset_place(alloc, &contract.id, 0, names, label)?;
    alone(alloc, place)
}

/// A contract gets another value. It takes no memory.
fn with_value(contract: Contract, value: Vec<Place>) -> Contract
    ensures { contract_of result ≡ record (contract_of contract) { value = pure_row value.items } }
{
    let Contract {
        id,
        code,
        checked,
        value: old,
        is_running,
    } = contract;
    discard_row(old);
    Contract {
        id,
        code,
        checked,
        value,
        is_running,
    }
}

/// A contract whose value has this label, and no field set. Where memory fails, it is let go.
fn with_empty_value(alloc: Global, label: u64, contract: Contract) -> Result<Contract, AllocError>
    ensures { IfOk result (λ begun. contract_of begun ≡ spec.with_empty_value label (contract_of contract)) }
{
    match empty_value(alloc, label, &contract) {
        Ok(value) => Ok(with_value(contract, value)),
        Err(error) => {
            discard_contract(contract);
            Err(error)
        }
    }
}

/// A contract stands behind the others. Where memory fails, it is let go.
fn push_contract(state: &mut RunState, contract: Contract) -> Result<(), AllocError>
    ensures { OnOk result ((accounts : List Account) → state_over accounts state.new ≡ record (state_over accounts state.old) { contracts = (state_over accounts state.old).contracts ++ contract_of contract ∷ [] }) }
{
    match state.contracts.push(contract) {
        Ok(()) => Ok(()),
        Err(refused) => {
            discard_contract(refused.value);
            Err(AllocError)
        }
    }
}

/// A contract stands among the contracts, and its initializer may run: the label of its value, in which no field is set.
pub(crate) fn begin_contract(state: &mut RunState, contract: Contract) -> Result<u64, Stop>
    ensures { CarriesOut (λ (label : ℕ). label) (spec.begin_contract (contract_of contract)) state.old state.new result }
{
    let label = state.next_label;
    if label == u64::MAX {
        discard_contract(contract);
        return Err(Stop::Memory);
    }
    match with_empty_value(*state.making.allocator(), label, contract) {
        Ok(begun) => match push_contract(state, begun) {
            Ok(()) => {
                state.next_label = label + 1;
                Ok(label)
            }
            Err(_) => Err(Stop::Memory),
        },
        Err(_) => Err(Stop::Memory),
    }
}
