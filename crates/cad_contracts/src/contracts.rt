// Deployed contracts, and what a program imports of them.
ghost use Rattle.std.specs.Prelude.{◌≡◌, ◌==◌, ◌++◌, ◌∷◌, [], map, filter_map, option_map, IfOk, IfSome, OnOk};
ghost use Rattle.std.specs.Cmp.Lexicographic.{pointwise};
ghost use Rattle.cad_syntax.specs.TypeIds.{same_id};
ghost use Rattle.cad_declarations.specs.Imports as spec;
ghost use Rattle.cad_contracts.specs.Views.{entry_of};

use cad_declarations::{Installed, Link, Links, Tables, is_same_name, reached_from};
use cad_grammar::Import;
use cad_syntax::{Address, Name, Names, TypeId, TypeIds};
use std::alloc::{AllocError, Global};

/// The tables of a deployed contract's program.
pub fn tables_in(contract: &Installed) -> &Tables
    ensures { result.now ≡ contract.now.checked.value.tables }
{
    &contract.checked.as_ref().tables
}

/// The identifier of a contract.
pub fn contract_id(alloc: Global, address: Address, name: &Name) -> Result<TypeId, AllocError>
    ensures { IfOk result (λ id. id ≡ spec.contract_id address.0 name.now) }
{
    let mut names = Names::new(alloc);
    names.push(name.clone()?)?;
    Ok(TypeId { address, names })
}

/// Whether an identifier is a contract's, or that of something declared in it.
pub fn is_part(contract: &Installed, id: &TypeId) -> bool
    ensures { result ≡ spec.is_part_of (entry_of contract.now).id id.now }
{
    id.address.0 == contract.address.0 && begins_with(id.names.as_slice(), &contract.name)
}

fn begins_with(names: &[Name], name: &Name) -> bool
    ensures { result ≡ spec.begin_with names.now (name.now ∷ []) }
{
    match names {
        [first, ..] => is_same_name(first, name),
        [] => false,
    }
}

/// Whether an identifier is a contract's.
pub(crate) fn is_contract(contract: &Installed, id: &TypeId) -> bool
    ensures { result ≡ same_id (entry_of contract.now).id id.now }
{
    contract.address.0 == id.address.0 && is_one_name(&contract.name, id.names.as_slice())
}

fn is_one_name(name: &Name, names: &[Name]) -> bool
    ensures { result ≡ pointwise (λ m n. pointwise ◌==◌ m.0 n.0) (name.now ∷ []) names.now }
{
    match names {
        [own] => is_same_name(name, own),
        _ => false,
    }
}

/// The first contract of an identifier.
pub(crate) fn find_contract<'a>(contracts: &'a [Installed], id: &TypeId) -> Option<&'a Installed>
    ensures { option_map (λ c. entry_of c.now) result ≡ spec.deployed_contract (map entry_of contracts.now) id.now }
{
    for contract in contracts {
        if is_contract(contract, id) {
            return Some(contract);
        }
    }
    None
}

/// Whether a contract has this name, at an address that is a number of any size.
fn is_contract_at(contract: &Installed, address: u128, name: &Name) -> bool
    ensures { result ≡ same_id (entry_of contract.now).id (spec.contract_id address name.now) }
{
    u128::from(contract.address.0) == address && is_same_name(&contract.name, name)
}

/// The first contract of a name at an address that is a number of any size.
pub fn find_contract_at<'a>(
    contracts: &'a [Installed],
    address: u128,
    name: &Name,
) -> Option<&'a Installed>
    ensures { option_map (λ c. entry_of c.now) result ≡ spec.deployed_contract (map entry_of contracts.now) (spec.contract_id address name.now) }
{
    for contract in contracts {
        if is_contract_at(contract, address, name) {
            return Some(contract);
        }
    }
    None
}

/// From a contract to those that it imports.
fn import_link(alloc: Global, contract: &Installed) -> Result<Link, AllocError>
    ensures { IfOk result (λ link. link ≡ record { id = (entry_of contract.now).id; to = (entry_of contract.now).imports }) }
{
    Ok(Link {
        id: contract_id(alloc, contract.address, &contract.name)?,
        to: tables_in(contract).imports.clone()?,
    })
}

/// From each contract to those that it imports, in order.
fn all_import_links(alloc: Global, contracts: &[Installed]) -> Result<Vec<Link>, AllocError>
    ensures { IfOk result (λ links. links.items ≡ spec.import_links (map entry_of contracts.now)) }
{
    let mut links = Vec::new(alloc);
    for contract in contracts {
        links.push(import_link(alloc, contract)?)?;
    }
    Ok(links)
}

/// From each contract to those that it imports.
pub fn import_links(alloc: Global, contracts: &[Installed]) -> Result<Links, AllocError>
    ensures { IfOk result (λ links. links ≡ spec.import_links (map entry_of contracts.now)) }
{
    let links = all_import_links(alloc, contracts)?;
    Links::new(alloc, links)
}

/// The address of an import, which is that of a contract.
pub fn import_address(address: u128) -> Result<Address, AllocError>
    ensures { IfOk result (λ a. a.0 ≡ address) }
{
    match u64::try_from(address) {
        Ok(number) => Ok(Address(number)),
        Err(_) => Err(AllocError),
    }
}

/// Appends the contracts that an import names.
fn push_imported(ids: &mut Vec<TypeId>, alloc: Global, import: &Import) -> Result<(), AllocError>
    ensures { OnOk result (ids.new.items ≡ ids.old.items ++ spec.imported import.now) }
{
    for name in import.names.as_slice() {
        let address = import_address(import.address)?;
        ids.push(contract_id(alloc, address, name)?)?;
    }
    Ok(())
}

/// The contracts that a program names by its imports. An address over 2^64-1 is that of no contract, and counts as want of
/// memory here: the program was refused before.
pub fn all_imported(alloc: Global, imports: &[Import]) -> Result<TypeIds, AllocError>
    ensures { IfOk result (λ ids. ids ≡ spec.all_imported imports.now) }
{
    let mut ids = Vec::new(alloc);
    for import in imports {
        push_imported(&mut ids, alloc, import)?;
    }
    Ok(TypeIds::from_vec(ids))
}

/// The contracts with these identifiers, as far as they are deployed.
fn found_contracts<'a>(
    alloc: Global,
    contracts: &'a [Installed],
    ids: &[TypeId],
) -> Result<Vec<&'a Installed>, AllocError>
    ensures { IfOk result (λ found. map (λ c. entry_of c.now) found.items ≡ filter_map (spec.deployed_contract (map entry_of contracts.now)) ids.now) }
{
    let mut found = Vec::new(alloc);
    for id in ids {
        if let Some(contract) = find_contract(contracts, id) {
            found.push(contract)?;
        }
    }
    Ok(found)
}

/// The closure of imports: the contracts that are imported, each with those that it imports behind it.
pub fn closure<'a>(
    alloc: Global,
    contracts: &'a [Installed],
    ids: &[TypeId],
) -> Result<Vec<&'a Installed>, AllocError>
    ensures { IfOk result (λ found. map (λ c. entry_of c.now) found.items ≡ spec.closure (map entry_of contracts.now) ids.now) }
{
    let links = import_links(alloc, contracts)?;
    let reached = reached_from(alloc, &links, ids)?;
    found_contracts(alloc, contracts, reached.as_slice())
}
