// From types to the interfaces that they name.
ghost use Rattle.std.specs.Prelude.{◌≡◌, ◌++◌, ◌∷◌, [], flat_map, map, option_map, IfOk, OnOk};
ghost use Rattle.cad_grammar.specs.Views.{contract_member_of};
ghost use Rattle.cad_declarations.specs.Deployed.{parent_links_of};
ghost use Rattle.cad_declarations.specs.Own as spec;
ghost use Rattle.cad_declarations.specs.Scopes as scopes;
ghost use Rattle.cad_scopes.specs.Views.{scope_of};
ghost use Rattle.cad_contracts.specs.Views.{own_of};
ghost use Rattle.cad_contracts.specs.Views.{entry_of};

use crate::contracts::{is_part, tables_in};
use crate::own::Own;
use cad_declarations::{Installed, Link, Links};
use cad_grammar::{ContractMember, Dotted};
use cad_scopes::{Scope, inside, resolved_interface};
use cad_syntax::{Name, TypeId, TypeIds};
use std::alloc::{AllocError, Global};

/// Those of the names that are interfaces.
#[tactic(auto, using(crate::proofs::Lists::one_more))]
pub fn parents_of(alloc: Global, scope: Scope<'_>, all: &[Dotted]) -> Result<TypeIds, AllocError>
    ensures { IfOk result (λ ids. ids ≡ spec.parents_of (scope_of scope.entry) all.now) }
{
    let mut ids = Vec::new(alloc);
    for names in all {
        if let Some(id) = resolved_interface(alloc, scope, names.as_slice())? {
            ids.push(id)?;
        }
    }
    Ok(TypeIds::from_vec(ids))
}

/// Appends links to the interfaces that the types of a deployed contract name.
fn push_imported_links(links: &mut Vec<Link>, contract: &Installed) -> Result<(), AllocError>
    ensures { OnOk result (links.new.items ≡ links.old.items ++ parent_links_of (entry_of contract.now)) }
{
    for t in tables_in(contract).types.as_slice() {
        if is_part(contract, &t.id) {
            links.push(Link {
                id: t.id.clone()?,
                to: t.parents.clone()?,
            })?;
        }
    }
    Ok(())
}

/// Links to the interfaces that the types of deployed contracts name, in order.
fn all_imported_links(alloc: Global, contracts: &[&Installed]) -> Result<Vec<Link>, AllocError>
    ensures { IfOk result (λ links. links.items ≡ flat_map parent_links_of (map (λ c. entry_of c.now) contracts.now)) }
{
    let mut links = Vec::new(alloc);
    for contract in contracts {
        push_imported_links(&mut links, contract)?;
    }
    Ok(links)
}

/// Links to the interfaces that the types of deployed contracts name.
pub fn imported_links(alloc: Global, contracts: &[&Installed]) -> Result<Links, AllocError>
    ensures { IfOk result (λ links. links ≡ flat_map parent_links_of (map (λ c. entry_of c.now) contracts.now)) }
{
    let links = all_imported_links(alloc, contracts)?;
    Links::new(alloc, links)
}

/// Appends a link from a type to the interfaces that it names.
fn push_link(
    links: &mut Vec<Link>,
    alloc: Global,
    scope: Scope<'_>,
    contract: &TypeId,
    name: &Name,
    all: &[Dotted],
) -> Result<(), AllocError>
    ensures { OnOk result (links.new.items ≡ links.old.items ++ record { id = scopes.inside contract.now name.now; to = spec.parents_of (scope_of scope.entry) all.now } ∷ []) }
{
    let to = parents_of(alloc, scope, all)?;
    links.push(Link {
        id: inside(contract, name)?,
        to,
    })?;
    Ok(())
}

/// Appends the link of a type that a member of a contract declares.
fn push_links_by(
    links: &mut Vec<Link>,
    alloc: Global,
    scope: Scope<'_>,
    contract: &TypeId,
    member: &ContractMember,
) -> Result<(), AllocError>
    ensures { OnOk result (links.new.items ≡ links.old.items ++ spec.parent_links_by (scope_of scope.entry) contract.now (contract_member_of member.now)) }
{
    match member {
        ContractMember::Composite(x) => {
            push_link(
                links,
                alloc,
                scope,
                contract,
                &x.name,
                x.conformances.as_slice(),
            )
        }
        ContractMember::Interface(x) => {
            push_link(
                links,
                alloc,
                scope,
                contract,
                &x.name,
                x.conformances.as_slice(),
            )
        }
        _ => Ok(()),
    }
}

/// Appends the links of a contract's types.
fn push_links_in(
    links: &mut Vec<Link>,
    alloc: Global,
    scope: Scope<'_>,
    own: &Own<'_>,
) -> Result<(), AllocError>
    ensures { OnOk result (links.new.items ≡ links.old.items ++ spec.parent_links_in (scope_of scope.entry) (own_of own.now)) }
{
    for member in own.members {
        push_links_by(links, alloc, scope, &own.id, member)?;
    }
    Ok(())
}

/// To the interfaces that a type names, of all types of a program and its imports.
pub fn parent_links(
    alloc: Global,
    scope: Scope<'_>,
    imports: &[&Installed],
    own: &Option<Own<'_>>,
) -> Result<Links, AllocError>
    ensures { IfOk result (λ links. links ≡ spec.parent_links (map (λ c. entry_of c.now) imports.now) (scope_of scope.entry) (option_map own_of own.now)) }
{
    let mut links = all_imported_links(alloc, imports)?;
    if let Some(own) = own {
        push_links_in(&mut links, alloc, scope, own)?;
    }
    Links::new(alloc, links)
}
