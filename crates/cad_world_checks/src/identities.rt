// The identities of resources: each resource has one, no two are the same, and all were given.
ghost use Rattle.std.specs.Prelude.{◌≡◌, ◌↔◌, ◌++◌, nat_lt, IsTrue, IfOk, OnOk};
ghost use Rattle.std.specs.List.{flat_map, list_all};
ghost use Rattle.cad_rows.specs.Views.{pure_place, pure_row, pure_shape, pure_tree};
ghost use Rattle.cad_shapes.specs.Held.{shapes_of};
ghost use Rattle.cad_types.specs.Declarations as types;
ghost use Rattle.cad_values.specs.Keys.{Distinct};
ghost use Rattle.cad_values.specs.Shapes.{has_sort, shape_of};
ghost use Rattle.cad_world.specs.Fits as fits;
ghost use Rattle.cad_world.specs.Live as known;
ghost use Rattle.cad_world.specs.Rows.{alone};
ghost use Rattle.cad_world_checks.specs.Identities as spec;
ghost use Rattle.cad_worlds.specs.Standing.{world_of};

use cad_rows::{Place, Shape, Tree, add_row_identities};
use cad_shapes::DeclaredShapes;
use cad_state::{Account, Contract};
use cad_syntax::{Numbers, TypeId};
use cad_types::Sort;
use cad_worlds::World;
use std::alloc::{AllocError, Global};
use std::collections::BTreeSet;

// ---- each resource has one

/// Whether a sort is of resources.
fn is_resource_sort(sort: Sort) -> bool
    ensures { result ≡ types.is_resource_sort sort }
{
    matches!(sort, Sort::Resource | Sort::ResourceInterface)
}

/// Whether a declared type is one of resources.
fn is_resource(shapes: &DeclaredShapes, id: &TypeId) -> bool
    ensures { result ≡ has_sort types.is_resource_sort (shape_of (shapes_of shapes.now) id.now) }
{
    match shapes.find(id) {
        Some(shape) => is_resource_sort(shape.sort),
        None => false,
    }
}

/// Whether a node, without its parts, has an identity if it is a resource.
#[tactic(auto, using(crate::proofs::Resources::node_with, crate::proofs::Resources::node_without))]
fn has_identity(shapes: &DeclaredShapes, shape: &Shape) -> bool
    ensures { result ≡ fits.has_identity (shapes_of shapes.now) (pure_shape shape.now) }
{
    match shape {
        Shape::Composite { id, identity, .. } => {
            if *identity != 0 {
                return true;
            }
            !is_resource(shapes, id)
        }
        _ => true,
    }
}

/// Whether each resource in a tree has an identity.
#[cycle(have_identities)]
fn tree_has_identities(tree: &Tree, shapes: &DeclaredShapes) -> bool
    ensures { result ≡ spec.tree_has_identities (shapes_of shapes.now) (pure_tree tree.now) }
{
    let parts = tree.parts.as_slice();
    if !has_identity(shapes, &tree.shape) {
        return false;
    }
    row_has_identities(parts, shapes)
}

/// Whether each in a row has.
#[cycle(have_identities)]
fn row_has_identities(row: &[Place], shapes: &DeclaredShapes) -> bool
    ensures { result ≡ fits.have_identities (shapes_of shapes.now) (pure_row row.now) }
{
    for place in row {
        if !place_has_identities(place, shapes) {
            return false;
        }
    }
    true
}

/// Whether each in a place has.
#[cycle(have_identities)]
fn place_has_identities(place: &Place, shapes: &DeclaredShapes) -> bool
    ensures { result ≡ spec.place_has_identities (shapes_of shapes.now) (pure_place place.now) }
{
    match place {
        Place::Empty => true,
        Place::Full(_, tree) => tree_has_identities(tree, shapes),
    }
}

/// Whether each resource in a tree has an identity.
pub(crate) fn has_identities(tree: &Tree, shapes: &DeclaredShapes) -> bool
    ensures { result ≡ fits.have_identities (shapes_of shapes.now) (alone (pure_tree tree.now)) }
{
    tree_has_identities(tree, shapes)
}

// ---- those that live

/// Appends the identities in what accounts store.
fn add_stored(found: &mut Numbers, accounts: &[Account]) -> Result<(), AllocError>
    ensures { OnOk result (found.new ≡ found.old ++ flat_map spec.stored_identities accounts.now) }
{
    for account in accounts {
        add_row_identities(found, account.stored.as_slice())?;
    }
    Ok(())
}

/// Appends the identities in the values of contracts.
pub(crate) fn add_contracts(found: &mut Numbers, contracts: &[Contract]) -> Result<(), AllocError>
    ensures { OnOk result (found.new ≡ found.old ++ flat_map spec.contract_identities contracts.now) }
{
    for contract in contracts {
        add_row_identities(found, contract.value.as_slice())?;
    }
    Ok(())
}

/// The identities in what accounts store and in the values of contracts.
fn live(alloc: Global, accounts: &[Account], contracts: &[Contract]) -> Result<Numbers, AllocError>
    ensures { IfOk result (λ found. found ≡ flat_map spec.stored_identities accounts.now ++ flat_map spec.contract_identities contracts.now) }
{
    let mut found = Numbers::new(alloc);
    add_stored(&mut found, accounts)?;
    add_contracts(&mut found, contracts)?;
    Ok(found)
}

/// The identities in all that the accounts of a World store, and in the values of its contracts.
pub fn live_identities(alloc: Global, world: &World) -> Result<Numbers, AllocError>
    ensures { IfOk result (λ found. found ≡ known.live (world_of world.now)) }
{
    let accounts = world.accounts.as_slice();
    let contracts = world.contracts.as_slice();
    live(alloc, accounts, contracts)
}

// ---- no two are the same

/// Adds a number to those seen before. Tells whether it is new.
pub(crate) fn add_number(seen: &mut BTreeSet<u64>, number: u64) -> Result<bool, AllocError>
    ensures { IfOk result (λ added. spec.AddsNumber seen.old seen.new number added) }
{
    match seen.insert(number) {
        Ok(added) => Ok(added),
        Err(_) => Err(AllocError),
    }
}

/// Whether no two numbers are the same.
fn are_distinct(alloc: Global, numbers: &[u64]) -> Result<bool, AllocError>
    ensures { IfOk result (λ b. IsTrue b ↔ Distinct numbers.now) }
{
    let mut seen = BTreeSet::new(alloc);
    for number in numbers {
        if !add_number(&mut seen, *number)? {
            return Ok(false);
        }
    }
    Ok(true)
}

/// Whether all numbers were given before this one.
fn are_given(next: u64, numbers: &[u64]) -> bool
    ensures { result ≡ list_all (λ i. nat_lt i next) numbers.now }
{
    numbers.iter().all(|number| *number < next)
}

/// Whether numbers are identities of one resource each.
pub(crate) fn are_own_numbers(alloc: Global, next: u64, numbers: &[u64]) -> Result<bool, AllocError>
    ensures { IfOk result (λ b. IsTrue b ↔ spec.AreOwn next numbers.now) }
{
    if !are_given(next, numbers) {
        return Ok(false);
    }
    are_distinct(alloc, numbers)
}

/// Whether the identities in accounts and contracts are of one resource each, where this is the next one.
pub(crate) fn are_own(
    alloc: Global,
    next: u64,
    accounts: &[Account],
    contracts: &[Contract],
) -> Result<bool, AllocError>
    ensures { IfOk result (λ b. IsTrue b ↔ spec.AreOwn next (flat_map spec.stored_identities accounts.now ++ flat_map spec.contract_identities contracts.now)) }
{
    let numbers = live(alloc, accounts, contracts)?;
    are_own_numbers(alloc, next, numbers.as_slice())
}
