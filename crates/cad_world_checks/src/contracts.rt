// Whether contracts are sound, whatever programs their codes are.
ghost use Rattle.std.specs.Prelude.{◌≡◌, ◌↔◌, ◌≤◌, All, IsTrue, IfOk, length, map};
ghost use Rattle.cad_declarations.specs.Views.{tables_of};
ghost use Rattle.cad_rows.specs.Views.{pure_place, pure_row, pure_tree, taken};
ghost use Rattle.cad_shapes.specs.Held.{shapes_of};
ghost use Rattle.cad_state.specs.Views.{contract_of};
ghost use Rattle.cad_values.specs.Fits as of;
ghost use Rattle.cad_values.specs.Values.{pure_value};
ghost use Rattle.cad_world.specs.Fits.{Lasts};
ghost use Rattle.cad_world.specs.Orders as orders;
ghost use Rattle.cad_world.specs.Sound as spec;
ghost use Rattle.cad_world.specs.Trees.{value_of};
ghost use Rattle.cad_world_checks.specs.Checks as checks;

use crate::sound::{can_last, can_stand};
use cad_declarations::Tables;
use cad_fits::fits_contract;
use cad_rows::{Place, Tree};
use cad_shapes::DeclaredShapes;
use cad_state::{Contract, discard_value};
use cad_syntax::{Name, Numbers, TypeId};
use cad_value_trees::value_from_tree;
use cad_values::Value;
use std::alloc::{AllocError, Global};

// ---- order

/// The bytes of the first name.
fn first_text(names: &[Name]) -> &[u8]
    ensures { result.now ≡ checks.first_text names.now }
{
    match names {
        [] => &[],
        [name, ..] => name.0.as_bytes(),
    }
}

/// Whether the first name stands before another, by its bytes.
fn is_named_before(a: &[Name], b: &[Name]) -> bool
    ensures { result ≡ orders.text_before (checks.first_text a.now) (checks.first_text b.now) }
{
    first_text(a).cmp(first_text(b)).is_lt()
}

/// Whether a contract stands before another, where each has one name.
fn is_contract_before(a: &Contract, b: &Contract) -> bool
    ensures { result ≡ checks.named_before (contract_of a.now) (contract_of b.now) }
{
    a.id.address.0 < b.id.address.0
        || (a.id.address.0 == b.id.address.0
            && is_named_before(a.id.names.as_slice(), b.id.names.as_slice()))
}

/// Whether contracts stand in their order, each once, where each has one name.
fn contracts_rise(contracts: &[Contract]) -> bool
    ensures { result ≡ orders.rises checks.named_before (map contract_of contracts.now) }
{
    for i in 1..contracts.len() {
        if !is_contract_before(&contracts[i - 1], &contracts[i]) {
            return false;
        }
    }
    true
}

// ---- the value

/// Whether a value can be that of a contract between commands.
fn is_contract_value(
    alloc: Global,
    shapes: &DeclaredShapes,
    id: &TypeId,
    value: &Value,
) -> Result<bool, AllocError>
    ensures { IfOk result (λ b. IsTrue b ↔ checks.LastsOf (shapes_of shapes.now) id.now (pure_value value.now)) }
{
    if !can_last(value) {
        return Ok(false);
    }
    fits_contract(alloc, shapes, value, id)
}

/// Whether a tree can be the value of a contract between commands.
fn is_contract_tree(
    alloc: Global,
    shapes: &DeclaredShapes,
    id: &TypeId,
    tree: &Tree,
) -> Result<bool, AllocError>
    ensures { IfOk result (λ b. IsTrue b ↔ (of.FitsContract (shapes_of shapes.now) (value_of (pure_tree tree.now)) id.now × Lasts (shapes_of shapes.now) (pure_tree tree.now))) }
{
    if !can_stand(shapes, tree) {
        return Ok(false);
    }
    let value = value_from_tree(alloc, tree)?;
    let kept = is_contract_value(alloc, shapes, id, &value);
    discard_value(value);
    kept
}

/// Whether a tree without labels can.
fn is_contract_node(
    alloc: Global,
    shapes: &DeclaredShapes,
    id: &TypeId,
    labels: &Numbers,
    tree: &Tree,
) -> Result<bool, AllocError>
    ensures { IfOk result (λ b. IsTrue b ↔ checks.HoldsContract (shapes_of shapes.now) id.now (taken labels.now (pure_tree tree.now))) }
{
    if !labels.is_empty() {
        return Ok(false);
    }
    is_contract_tree(alloc, shapes, id, tree)
}

/// Whether the value of a contract stands in a place, without labels.
fn is_contract_place(
    alloc: Global,
    shapes: &DeclaredShapes,
    id: &TypeId,
    place: &Place,
) -> Result<bool, AllocError>
    ensures { IfOk result (λ b. IsTrue b ↔ checks.HoldsContract (shapes_of shapes.now) id.now (pure_place place.now)) }
{
    match place {
        Place::Empty => Ok(false),
        Place::Full(labels, tree) => is_contract_node(alloc, shapes, id, labels, tree),
    }
}

/// Whether in places the value of a contract stands, and nothing else.
fn is_value_of(
    alloc: Global,
    shapes: &DeclaredShapes,
    id: &TypeId,
    places: &[Place],
) -> Result<bool, AllocError>
    ensures { IfOk result (λ b. IsTrue b ↔ spec.IsValueOf (shapes_of shapes.now) id.now (pure_row places.now)) }
{
    match places {
        [place] => is_contract_place(alloc, shapes, id, place),
        _ => Ok(false),
    }
}

// ---- the contract

/// Whether there is one name.
fn is_one(names: &[Name]) -> bool
    ensures { IsTrue result ↔ (length names.now ≡ 1) }
{
    names.len() == 1
}

/// Whether an address is that of one of so many accounts, if it is an account's.
fn is_at_most(address: u64, count: usize) -> bool
    ensures { IsTrue result ↔ (address ≤ count) }
{
    address <= count as u64
}

/// Whether an identifier has the address of one of so many accounts, and one name.
fn is_contract_id(count: usize, id: &TypeId) -> bool
    ensures { IsTrue result ↔ checks.IsContractId count id.now }
{
    let address = id.address.0;
    if address < 1 {
        return false;
    }
    if !is_at_most(address, count) {
        return false;
    }
    let names = id.names.as_slice();
    is_one(names)
}

/// Whether a program is the contract of this identifier.
fn is_program_of(tables: &Tables, id: &TypeId) -> bool
    ensures { result ≡ checks.is_id (tables_of tables.now).contract id.now }
{
    match &tables.contract {
        Some(own) => own.same(id),
        None => false,
    }
}

/// Whether a contract is sound, whatever program its code is, where there are so many accounts.
fn is_sound_contract(
    alloc: Global,
    shapes: &DeclaredShapes,
    count: usize,
    contract: &Contract,
) -> Result<bool, AllocError>
    ensures { IfOk result (λ b. IsTrue b ↔ checks.StandsThere (shapes_of shapes.now) count (contract_of contract.now)) }
{
    let running = contract.is_running;
    if running {
        return Ok(false);
    }
    if !is_contract_id(count, &contract.id) {
        return Ok(false);
    }
    if !is_program_of(&contract.checked.tables, &contract.id) {
        return Ok(false);
    }
    let places = contract.value.as_slice();
    is_value_of(alloc, shapes, &contract.id, places)
}

/// Whether each contract is.
fn is_each_sound(
    alloc: Global,
    shapes: &DeclaredShapes,
    count: usize,
    contracts: &[Contract],
) -> Result<bool, AllocError>
    ensures { IfOk result (λ b. IsTrue b ↔ All (checks.StandsThere (shapes_of shapes.now) count) (map contract_of contracts.now)) }
{
    for contract in contracts {
        if !is_sound_contract(alloc, shapes, count, contract)? {
            return Ok(false);
        }
    }
    Ok(true)
}

/// Whether contracts are sound, each before the next.
pub(crate) fn are_sound_contracts(
    alloc: Global,
    shapes: &DeclaredShapes,
    count: usize,
    contracts: &[Contract],
) -> Result<bool, AllocError>
    ensures { IfOk result (λ b. IsTrue b ↔ checks.SoundContracts (shapes_of shapes.now) count (map contract_of contracts.now)) }
{
    if !is_each_sound(alloc, shapes, count, contracts)? {
        return Ok(false);
    }
    Ok(contracts_rise(contracts))
}
