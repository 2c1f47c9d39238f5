// Where the names of a program's imports are refused.
ghost use Rattle.std.specs.Prelude.{◌≡◌, ◌&&◌, not, ◌∷◌, [], map, option_map, reverse, IfOk};
ghost use Rattle.cad_syntax.specs.TypeIds.{has};
ghost use Rattle.cad_declarations.specs.Build as spec;
ghost use Rattle.cad_declarations.specs.Imports.{contract_id as imported_id, import_links, is_deployed};
ghost use Rattle.cad_declarations.specs.Reached.{reached_from as reached};
ghost use Rattle.cad_contracts.specs.Views.{entry_of, own_of};
ghost use Rattle.cad_tables.specs.Code.Beside.{no_scope};

use cad_contracts::{Own, contract_id, find_contract_at, import_address, import_links as links_of};
use cad_declarations::{Installed, Links, Stop, reached_from};
use cad_grammar::Import;
use cad_stop_points::{NamesBefore, is_new, push_names, unless_right};
use cad_syntax::{Name, TypeId, contains};
use std::alloc::{AllocError, Global};

/// Whether a contract is reached by links from another one.
fn is_reached(
    alloc: Global,
    links: &Links,
    contract: &TypeId,
    from: TypeId,
) -> Result<bool, AllocError>
    ensures { IfOk result (λ b. b ≡ has (reached links.now (from ∷ [])) contract.now) }
{
    let mut start = Vec::new(alloc);
    start.push(from)?;
    let all = reached_from(alloc, links, start.as_slice())?;
    Ok(contains(all.as_slice(), contract))
}

/// Whether a contract leads by imports to the program's.
fn leads_to(
    alloc: Global,
    contracts: &[Installed],
    links: &Links,
    own: &Option<Own<'_>>,
    id: TypeId,
) -> Result<bool, AllocError>
    requires linked { links.now ≡ import_links (map entry_of contracts.now) }
    ensures { IfOk result (λ b. b ≡ spec.leads_to (map entry_of contracts.now) (option_map own_of own.now) id) }
{
    let _contracts = contracts;
    match own {
        Some(own) => is_reached(alloc, links, &own.id, id),
        None => Ok(false),
    }
}

/// Whether a contract is deployed.
fn is_deployed_at(contracts: &[Installed], address: u128, name: &Name) -> bool
    ensures { result ≡ is_deployed (map entry_of contracts.now) (imported_id address name.now) }
{
    match find_contract_at(contracts, address, name) {
        Some(_) => true,
        None => false,
    }
}

/// Whether a contract is deployed and doesn't lead back to the program.
fn is_importable(
    alloc: Global,
    contracts: &[Installed],
    links: &Links,
    own: &Option<Own<'_>>,
    address: u128,
    name: &Name,
) -> Result<bool, AllocError>
    requires linked { links.now ≡ import_links (map entry_of contracts.now) }
    ensures { IfOk result (λ b. b ≡ (is_deployed (map entry_of contracts.now) (imported_id address name.now) && not (spec.leads_to (map entry_of contracts.now) (option_map own_of own.now) (imported_id address name.now)))) }
{
    if !is_deployed_at(contracts, address, name) {
        return Ok(false);
    }
    let id = contract_id(alloc, import_address(address)?, name)?;
    Ok(!leads_to(alloc, contracts, links, own, id)?)
}

/// The stop of one name of an import.
fn import_stop(
    alloc: Global,
    contracts: &[Installed],
    links: &Links,
    own: &Option<Own<'_>>,
    before: &NamesBefore,
    address: u128,
    name: &Name,
) -> Result<Option<Stop>, AllocError>
    requires linked { links.now ≡ import_links (map entry_of contracts.now) }
    ensures { IfOk result (λ s. s ≡ spec.point_stop no_scope (spec.import_point (map entry_of contracts.now) (option_map own_of own.now) (reverse before.now) address name.now)) }
{
    let importable = is_importable(alloc, contracts, links, own, address, name)?;
    unless_right(alloc, is_new(before, name) && importable, &[], name)
}

/// The first stop of an import, behind the names before.
fn names_stop(
    alloc: Global,
    contracts: &[Installed],
    links: &Links,
    own: &Option<Own<'_>>,
    before: &NamesBefore,
    import: &Import,
) -> Result<Option<Stop>, AllocError>
    requires linked { links.now ≡ import_links (map entry_of contracts.now) }
    ensures { IfOk result (λ s. s ≡ spec.first_stop no_scope (spec.name_points (map entry_of contracts.now) (option_map own_of own.now) (reverse before.now) import.now.address import.now.names)) }
{
    let mut seen = before.copy(alloc)?;
    for name in import.names.as_slice() {
        if let Some(stop) = import_stop(
            alloc,
            contracts,
            links,
            own,
            &seen,
            import.address,
            name,
        )? {
            return Ok(Some(stop));
        }
        seen.push(name.clone()?)?;
    }
    Ok(None)
}

/// The first stop of imports whose contracts have these links.
#[tactic(auto, using(crate::proofs::Points::first_of_both))]
fn linked_stop(
    alloc: Global,
    contracts: &[Installed],
    links: &Links,
    own: &Option<Own<'_>>,
    imports: &[Import],
) -> Result<Option<Stop>, AllocError>
    requires linked { links.now ≡ import_links (map entry_of contracts.now) }
    ensures { IfOk result (λ s. s ≡ spec.first_stop no_scope (spec.import_points (map entry_of contracts.now) (option_map own_of own.now) [] imports.now)) }
{
    let mut before = NamesBefore::new(alloc);
    for import in imports {
        if let Some(stop) = names_stop(alloc, contracts, links, own, &before, import)? {
            return Ok(Some(stop));
        }
        push_names(&mut before, import.names.as_slice())?;
    }
    Ok(None)
}

/// The first stop of a program's imports.
pub(crate) fn imports_stop(
    alloc: Global,
    contracts: &[Installed],
    own: &Option<Own<'_>>,
    imports: &[Import],
) -> Result<Option<Stop>, AllocError>
    ensures { IfOk result (λ s. s ≡ spec.first_stop no_scope (spec.import_points (map entry_of contracts.now) (option_map own_of own.now) [] imports.now)) }
{
    let links = links_of(alloc, contracts)?;
    linked_stop(alloc, contracts, &links, own, imports)
}
