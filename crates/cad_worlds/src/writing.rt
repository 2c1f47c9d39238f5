// The registers of a World.
ghost use Rattle.std.specs.Prelude.{◌≡◌, ◌++◌, ◌∷◌, [], map, IfOk, OnOk};
ghost use Rattle.std.specs.List.{flat_map};
ghost use Rattle.cad_rows.specs.Views.{pure_place, pure_row};
ghost use Rattle.cad_state.specs.Views.{account_of};
ghost use Rattle.cad_wire.specs.Fields.{number_field};
ghost use Rattle.cad_world.specs.Registers as spec;
ghost use Rattle.cad_worlds.specs.Sections as sections;
ghost use Rattle.cad_worlds.specs.Standing.{coding, register_of, world_of};

use crate::kept::World;
use crate::rows::{
    code_row, controller_row, fields_row, head_row, next_row, published_row, stored_row,
};
use cad_accounts::Row;
use cad_rows::Place;
use cad_state::{Account, Contract, Controller, Publication};
use cad_syntax::{Name, TypeId};
use std::alloc::{AllocError, Global};

/// Of which kind registers are that stand side by side for all accounts.
#[derive(Clone, Copy)]
pub(crate) enum Section {
    Next,
    Stored,
    Published,
    Controllers,
}

// ---- of one account

/// The names behind that of a place, which has one if a node stands there.
fn names_left<'n>(names: &'n [Name], place: &Place) -> &'n [Name]
    ensures { result.now ≡ sections.names_left names.now (pure_place place.now) }
{
    match place {
        Place::Empty => names,
        Place::Full(_, _) => match names {
            [] => names,
            [_, rest @ ..] => rest,
        },
    }
}

/// Appends the register of what stands in a place, under the first of the names.
fn push_place(
    alloc: Global,
    address: u64,
    names: &[Name],
    place: &Place,
    rows: &mut Vec<Row>,
) -> Result<(), AllocError>
    ensures { OnOk result (map register_of rows.new.items ≡ map register_of rows.old.items ++ sections.place_registers address names.now (pure_place place.now)) }
{
    match place {
        Place::Empty => Ok(()),
        Place::Full(_, tree) => match names {
            [] => Ok(()),
            [name, ..] => {
                let row = stored_row(alloc, address, name, tree)?;
                push_row(row, rows)
            }
        },
    }
}

/// Appends the registers of what stands in places, under names.
fn push_places(
    alloc: Global,
    address: u64,
    names: &[Name],
    places: &[Place],
    rows: &mut Vec<Row>,
) -> Result<(), AllocError>
    ensures { OnOk result (map register_of rows.new.items ≡ map register_of rows.old.items ++ spec.stored_from coding address names.now (spec.row_values (pure_row places.now))) }
{
    let mut left = names;
    for place in places {
        push_place(alloc, address, left, place, rows)?;
        left = names_left(left, place);
    }
    Ok(())
}

/// Appends a register.
#[tactic(auto, using(crate::proofs::Sections::pushed))]
fn push_row(row: Row, rows: &mut Vec<Row>) -> Result<(), AllocError>
    ensures { OnOk result (map register_of rows.new.items ≡ map register_of rows.old.items ++ register_of row ∷ []) }
{
    rows.push(row)?;
    Ok(())
}

/// Appends the register of what an account publishes under an identifier.
fn push_publication(
    alloc: Global,
    address: u64,
    publication: &Publication,
    rows: &mut Vec<Row>,
) -> Result<(), AllocError>
    ensures { OnOk result (map register_of rows.new.items ≡ map register_of rows.old.items ++ sections.published_of address publication.now ∷ []) }
{
    let row = published_row(alloc, address, publication)?;
    push_row(row, rows)
}

/// Appends the registers of what an account publishes.
fn push_published(
    alloc: Global,
    address: u64,
    published: &[Publication],
    rows: &mut Vec<Row>,
) -> Result<(), AllocError>
    ensures { OnOk result (map register_of rows.new.items ≡ map register_of rows.old.items ++ map (sections.published_of address) published.now) }
{
    for publication in published {
        push_publication(alloc, address, publication, rows)?;
    }
    Ok(())
}

/// Appends the register of a controller of an account.
fn push_controller(
    alloc: Global,
    address: u64,
    controller: &Controller,
    rows: &mut Vec<Row>,
) -> Result<(), AllocError>
    ensures { OnOk result (map register_of rows.new.items ≡ map register_of rows.old.items ++ sections.controlled_of address controller.now ∷ []) }
{
    let row = controller_row(alloc, address, controller)?;
    push_row(row, rows)
}

/// Appends the registers of an account's controllers.
fn push_controllers(
    alloc: Global,
    address: u64,
    controllers: &[Controller],
    rows: &mut Vec<Row>,
) -> Result<(), AllocError>
    ensures { OnOk result (map register_of rows.new.items ≡ map register_of rows.old.items ++ map (sections.controlled_of address) controllers.now) }
{
    for controller in controllers {
        push_controller(alloc, address, controller, rows)?;
    }
    Ok(())
}

/// Appends the register of an account's next controller.
fn push_next(
    alloc: Global,
    address: u64,
    number: u64,
    rows: &mut Vec<Row>,
) -> Result<(), AllocError>
    ensures { OnOk result (map register_of rows.new.items ≡ map register_of rows.old.items ++ spec.register (spec.next_key address) (number_field number) ∷ []) }
{
    let row = next_row(alloc, address, number)?;
    push_row(row, rows)
}

/// Appends the registers of what an account stores.
fn push_stored(
    alloc: Global,
    address: u64,
    account: &Account,
    rows: &mut Vec<Row>,
) -> Result<(), AllocError>
    ensures { OnOk result (map register_of rows.new.items ≡ map register_of rows.old.items ++ spec.stored_registers coding address (account_of account.now)) }
{
    let names = account.identifiers.as_slice();
    let places = account.stored.as_slice();
    push_places(alloc, address, names, places, rows)
}

/// Appends the registers of all that an account publishes.
fn push_publications(
    alloc: Global,
    address: u64,
    account: &Account,
    rows: &mut Vec<Row>,
) -> Result<(), AllocError>
    ensures { OnOk result (map register_of rows.new.items ≡ map register_of rows.old.items ++ spec.published_registers coding address (account_of account.now)) }
{
    let published = account.published.as_slice();
    push_published(alloc, address, published, rows)
}

/// Appends the registers of all controllers of an account.
fn push_controlled(
    alloc: Global,
    address: u64,
    account: &Account,
    rows: &mut Vec<Row>,
) -> Result<(), AllocError>
    ensures { OnOk result (map register_of rows.new.items ≡ map register_of rows.old.items ++ spec.controller_registers coding address (account_of account.now)) }
{
    let controllers = account.controllers.as_slice();
    push_controllers(alloc, address, controllers, rows)
}

/// Appends the registers of an account, of one kind.
pub(crate) fn push_account(
    alloc: Global,
    section: Section,
    address: u64,
    account: &Account,
    rows: &mut Vec<Row>,
) -> Result<(), AllocError>
    ensures { OnOk result (map register_of rows.new.items ≡ map register_of rows.old.items ++ sections.of_section section address (account_of account.now)) }
{
    match section {
        Section::Next => push_next(alloc, address, account.next_controller, rows),
        Section::Stored => push_stored(alloc, address, account, rows),
        Section::Published => push_publications(alloc, address, account, rows),
        Section::Controllers => push_controlled(alloc, address, account, rows),
    }
}

// ---- of all accounts

/// Appends the registers of all accounts, of one kind.
fn push_section(
    alloc: Global,
    section: Section,
    accounts: &[Account],
    rows: &mut Vec<Row>,
) -> Result<(), AllocError>
    ensures { OnOk result (map register_of rows.new.items ≡ map register_of rows.old.items ++ spec.of_accounts (sections.of_section section) 1 (map account_of accounts.now)) }
{
    for i in 0..accounts.len() {
        push_account(alloc, section, i as u64 + 1, &accounts[i], rows)?;
    }
    Ok(())
}

// ---- of contracts

/// Appends the register of a contract's code.
fn push_code(alloc: Global, contract: &Contract, rows: &mut Vec<Row>) -> Result<(), AllocError>
    ensures { OnOk result (map register_of rows.new.items ≡ map register_of rows.old.items ++ sections.code_of contract.now ∷ []) }
{
    let row = code_row(alloc, contract)?;
    push_row(row, rows)
}

/// Appends the registers of the codes of contracts.
pub(crate) fn push_codes(
    alloc: Global,
    contracts: &[Contract],
    rows: &mut Vec<Row>,
) -> Result<(), AllocError>
    ensures { OnOk result (map register_of rows.new.items ≡ map register_of rows.old.items ++ map sections.code_of contracts.now) }
{
    for contract in contracts {
        push_code(alloc, contract, rows)?;
    }
    Ok(())
}

/// Appends the register of a contract's value, which stands in a place.
fn push_content(
    alloc: Global,
    id: &TypeId,
    place: &Place,
    rows: &mut Vec<Row>,
) -> Result<(), AllocError>
    ensures { OnOk result (map register_of rows.new.items ≡ map register_of rows.old.items ++ sections.place_fields id.now (pure_place place.now)) }
{
    match place {
        Place::Empty => Ok(()),
        Place::Full(_, tree) => {
            let row = fields_row(alloc, id, tree)?;
            push_row(row, rows)
        }
    }
}

/// Appends the registers of what stands in the places of a contract.
fn push_contents(
    alloc: Global,
    id: &TypeId,
    places: &[Place],
    rows: &mut Vec<Row>,
) -> Result<(), AllocError>
    ensures { OnOk result (map register_of rows.new.items ≡ map register_of rows.old.items ++ map (sections.fields_register id.now) (spec.row_values (pure_row places.now))) }
{
    for place in places {
        push_content(alloc, id, place, rows)?;
    }
    Ok(())
}

/// Appends the register of a contract's value.
fn push_value(alloc: Global, contract: &Contract, rows: &mut Vec<Row>) -> Result<(), AllocError>
    ensures { OnOk result (map register_of rows.new.items ≡ map register_of rows.old.items ++ sections.fields_of contract.now) }
{
    let places = contract.value.as_slice();
    push_contents(alloc, &contract.id, places, rows)
}

/// Appends the registers of the values of contracts.
pub(crate) fn push_values(
    alloc: Global,
    contracts: &[Contract],
    rows: &mut Vec<Row>,
) -> Result<(), AllocError>
    ensures { OnOk result (map register_of rows.new.items ≡ map register_of rows.old.items ++ flat_map sections.fields_of contracts.now) }
{
    for contract in contracts {
        push_value(alloc, contract, rows)?;
    }
    Ok(())
}

// ---- of a World

/// The register of how many accounts there are, where there is one.
pub(crate) fn head_rows(alloc: Global, count: u64, identity: u64) -> Result<Vec<Row>, AllocError>
    ensures { IfOk result (λ rows. map register_of rows.items ≡ sections.head count identity) }
{
    let mut rows = Vec::new(alloc);
    if count != 0 {
        let row = head_row(alloc, count, identity)?;
        push_row(row, &mut rows)?;
    }
    Ok(rows)
}

/// The register of how many accounts a World has, where it has one.
pub fn head_registers(alloc: Global, world: &World) -> Result<Vec<Row>, AllocError>
    ensures { IfOk result (λ rows. map register_of rows.items ≡ spec.head_registers (world_of world.now)) }
{
    let accounts = world.accounts.as_slice();
    head_rows(alloc, accounts.len() as u64, world.next_identity)
}

/// The registers of the codes of a World's contracts, and those of their values behind them. AllocError as of all registers.
pub fn contract_registers(alloc: Global, world: &World) -> Result<Vec<Row>, AllocError>
    ensures { IfOk result (λ rows. map register_of rows.items ≡ map spec.code_register (world_of world.now).contracts ++ flat_map (spec.fields_registers coding) (world_of world.now).contracts) }
{
    let contracts = world.contracts.as_slice();
    let mut rows = Vec::new(alloc);
    push_codes(alloc, contracts, &mut rows)?;
    push_values(alloc, contracts, &mut rows)?;
    Ok(rows)
}

/// The registers of a World, in byte order of their keys where it is sound. AllocError where memory runs out, where a value
/// holds a reference, or where a text or a list has 2^32 items or more.
pub fn registers_of(alloc: Global, world: &World) -> Result<Vec<Row>, AllocError>
    ensures { IfOk result (λ rows. map register_of rows.items ≡ spec.registers coding (world_of world.now)) }
{
    let accounts = world.accounts.as_slice();
    let contracts = world.contracts.as_slice();
    let mut rows = head_rows(alloc, accounts.len() as u64, world.next_identity)?;
    push_section(alloc, Section::Next, accounts, &mut rows)?;
    push_codes(alloc, contracts, &mut rows)?;
    push_values(alloc, contracts, &mut rows)?;
    push_section(alloc, Section::Stored, accounts, &mut rows)?;
    push_section(alloc, Section::Published, accounts, &mut rows)?;
    push_section(alloc, Section::Controllers, accounts, &mut rows)?;
    Ok(rows)
}
