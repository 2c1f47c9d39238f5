// The contracts of all accounts.
ghost use Rattle.std.specs.Prelude.{◌≡◌, ◌++◌, ◌∷◌, [], map, IfOk, OnOk};
ghost use Rattle.cad_syntax.specs.TypeIds.{same_id};
ghost use Rattle.cad_types.specs.Views.{declarations};
ghost use Rattle.cad_declarations.specs.Deployed as spec;
ghost use Rattle.cad_declarations.specs.Views.{type_entry_of};
ghost use Rattle.cad_contracts.specs.Views.{entry_of};
ghost use Rattle.cad_tables.specs.Views.{contracts_of, with_entry};

use cad_contracts::imported_links;
use cad_declarations::{
    Deployed, EntitlementDeclarations, Installed, MappingDeclarations, Tables, TypeDeclarations,
    is_same_name,
};
use cad_discards::{discard_deployed, discard_installed, hold};
use cad_entries::linked_types;
use cad_syntax::TypeIds;
use cad_types::DeclaredTypes;
use std::alloc::{AllocError, Global};

/// No contract. It takes no memory.
pub fn no_contracts(alloc: Global) -> Deployed
    ensures { contracts_of result ≡ [] }
{
    Deployed {
        contracts: Vec::new(alloc),
    }
}

/// The same contract; its program is shared.
fn shared(contract: &Installed) -> Result<Installed, AllocError>
    ensures { IfOk result (λ copy. entry_of copy ≡ entry_of contract.now) }
{
    Ok(Installed {
        address: contract.address,
        name: contract.name.clone()?,
        code: contract.code.clone()?,
        checked: hold(&contract.checked)?,
    })
}

/// Whether two contracts have one address and name.
fn is_same_place(a: &Installed, b: &Installed) -> bool
    ensures { result ≡ same_id (entry_of a.now).id (entry_of b.now).id }
{
    a.address.0 == b.address.0 && is_same_name(&a.name, &b.name)
}

/// Appends a contract. Where memory fails, nothing is appended.
fn push_shared(all: &mut Vec<Installed>, contract: &Installed) -> Result<(), AllocError>
    ensures { OnOk result (map entry_of all.new.items ≡ map entry_of all.old.items ++ entry_of contract.now ∷ []) }
{
    match all.push(shared(contract)?) {
        Ok(()) => Ok(()),
        Err(refused) => {
            discard_installed(refused.value);
            Err(AllocError)
        }
    }
}

/// Appends the contracts with a new one among or behind them.
fn push_placed(
    all: &mut Vec<Installed>,
    contracts: &[Installed],
    new: &Installed,
) -> Result<(), AllocError>
    requires { all.old.items ≡ [] }
    ensures { OnOk result (map entry_of all.new.items ≡ with_entry (map entry_of contracts.now) (entry_of new.now)) }
{
    let mut is_placed = false;
    for contract in contracts {
        if !is_placed && is_same_place(contract, new) {
            push_shared(all, new)?;
            is_placed = true;
        } else {
            push_shared(all, contract)?;
        }
    }
    if !is_placed {
        push_shared(all, new)?;
    }
    Ok(())
}

/// The contracts with a new one among or behind them.
fn placed(
    alloc: Global,
    contracts: &[Installed],
    new: &Installed,
) -> Result<Vec<Installed>, AllocError>
    ensures { IfOk result (λ all. map entry_of all.items ≡ with_entry (map entry_of contracts.now) (entry_of new.now)) }
{
    let mut all = Vec::new(alloc);
    match push_placed(&mut all, contracts, new) {
        Ok(()) => Ok(all),
        Err(error) => {
            discard_deployed(Deployed { contracts: all });
            Err(error)
        }
    }
}

/// The same contracts with this one in the place of the one with its address and name, or at the end. Their programs are
/// shared.
pub fn with_contract(
    alloc: Global,
    deployed: &Deployed,
    contract: &Installed,
) -> Result<Deployed, AllocError>
    ensures { IfOk result (λ all. contracts_of all ≡ with_entry (contracts_of deployed.now) (entry_of contract.now)) }
{
    let contracts = placed(alloc, deployed.contracts.as_slice(), contract)?;
    Ok(Deployed { contracts })
}

/// All of these contracts.
fn each_contract<'a>(
    alloc: Global,
    contracts: &'a [Installed],
) -> Result<Vec<&'a Installed>, AllocError>
    ensures { IfOk result (λ all. map (λ c. entry_of c.now) all.items ≡ map entry_of contracts.now) }
{
    let mut all = Vec::new(alloc);
    for contract in contracts {
        all.push(contract)?;
    }
    Ok(all)
}

/// The types that contracts declare, with all interfaces that they have.
fn deployed_types(alloc: Global, contracts: &[Installed]) -> Result<TypeDeclarations, AllocError>
    ensures { IfOk result (λ all. map type_entry_of all ≡ spec.deployed_types (map entry_of contracts.now)) }
{
    let all = each_contract(alloc, contracts)?;
    let links = imported_links(alloc, all.as_slice())?;
    let types = linked_types(alloc, &links, all.as_slice())?;
    TypeDeclarations::new(alloc, types)
}

/// Tables that have these types alone.
#[tactic(auto, using(crate::proofs::Closed::deployed_closed))]
fn type_tables(alloc: Global, contracts: &[Installed]) -> Result<Tables, AllocError>
    ensures { IfOk result (λ t. map type_entry_of t.types ≡ spec.deployed_types (map entry_of contracts.now)) }
{
    let types = deployed_types(alloc, contracts)?;
    Ok(Tables {
        place: None,
        contract: None,
        imports: TypeIds::new(alloc),
        types,
        entitlements: EntitlementDeclarations::new(alloc, TypeIds::new(alloc))?,
        mappings: MappingDeclarations::new(alloc, Vec::new(alloc))?,
        functions: Vec::new(alloc),
    })
}

/// The types that deployed contracts declare, by which the order of types is judged.
pub fn deployed_kinds(alloc: Global, deployed: &Deployed) -> Result<DeclaredTypes, AllocError>
    ensures { IfOk result (λ types. declarations types ≡ spec.deployed_kinds (contracts_of deployed.now)) }
{
    let tables = type_tables(alloc, deployed.contracts.as_slice())?;
    tables.kinds(alloc)
}
