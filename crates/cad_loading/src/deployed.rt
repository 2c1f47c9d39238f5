// The contracts beside which code is checked.
ghost use Rattle.std.specs.Prelude.{◌≡◌, ◌++◌, ◌∷◌, [], IfOk, OnOk, map};
ghost use Rattle.cad_contracts.specs.Views as views;
ghost use Rattle.cad_declarations.specs.Imports.{contract_entry, is_deployed};
ghost use Rattle.cad_declarations.specs.Views.{tables_of};
ghost use Rattle.cad_loading.specs.Views.{held_of, shared_program};
ghost use Rattle.cad_loads.specs.Loads.{entries_of, loaded_by, loaded_of};
ghost use Rattle.cad_loads.specs.Views.{source_of};
ghost use Rattle.cad_state.specs.Views.{contract_of};
ghost use Rattle.cad_tables.specs.Views.{contracts_of};

use crate::held::Held;
use cad_contracts::find_contract_at;
use cad_declarations::{Checked, Deployed, Installed};
use cad_discards::{discard_deployed, discard_installed, hold};
use cad_loads::Source;
use cad_state::Contract;
use cad_syntax::{Bytes, Name, TypeId};
use cad_tables::no_contracts;
use std::alloc::{AllocError, Global};
use std::rc::Rc;

/// The name of a contract. Memory fails of an identifier that isn't one of a contract.
fn name_of(id: &TypeId) -> Result<&Name, AllocError>
    ensures { IfOk result (λ name. id.now.names ≡ name.now ∷ []) }
{
    match id.names.as_slice() {
        [name] => Ok(name),
        _ => Err(AllocError),
    }
}

/// A contract as those of all accounts are listed; its program is shared.
fn installed(id: &TypeId, code: &Rc<Bytes>, checked: &Rc<Checked>) -> Result<Installed, AllocError>
    ensures { IfOk result (λ it. views.entry_of it ≡ contract_entry id.now (tables_of checked.now.value.tables)) }
{
    let name = name_of(id)?;
    Ok(Installed {
        address: id.address,
        name: name.clone()?,
        code: code.clone()?,
        checked: hold(checked)?,
    })
}

/// Appends a contract. Where memory fails, what stands there stays.
pub(crate) fn push_installed(
    all: &mut Vec<Installed>,
    id: &TypeId,
    code: &Rc<Bytes>,
    checked: &Rc<Checked>,
) -> Result<(), AllocError>
    ensures { OnOk result (map views.entry_of all.new.items ≡ map views.entry_of all.old.items ++ contract_entry id.now (tables_of checked.now.value.tables) ∷ []) }
{
    match all.push(installed(id, code, checked)?) {
        Ok(()) => Ok(()),
        Err(refused) => {
            discard_installed(refused.value);
            Err(AllocError)
        }
    }
}

/// Appends contracts.
fn push_contracts(all: &mut Vec<Installed>, contracts: &[Contract]) -> Result<(), AllocError>
    ensures { OnOk result (map views.entry_of all.new.items ≡ map views.entry_of all.old.items ++ entries_of (map loaded_of (map contract_of contracts.now))) }
{
    for contract in contracts {
        push_installed(all, &contract.id, &contract.code, &contract.checked)?;
    }
    Ok(())
}

/// Contracts as code is checked beside them. Their programs are shared. Memory fails too of a contract whose identifier isn't an
/// address and one name.
pub fn deployed_of(alloc: Global, contracts: &[Contract]) -> Result<Deployed, AllocError>
    ensures { IfOk result (λ all. contracts_of all ≡ entries_of (map loaded_of (map contract_of contracts.now))) }
{
    let mut deployed = no_contracts(alloc);
    match push_contracts(&mut deployed.contracts, contracts) {
        Ok(()) => Ok(deployed),
        Err(error) => {
            discard_deployed(deployed);
            Err(error)
        }
    }
}

/// Appends sources with their programs, as many as there are of both.
fn push_sources(
    all: &mut Vec<Installed>,
    sources: &[Source],
    programs: &[Rc<Checked>],
) -> Result<(), AllocError>
    ensures { OnOk result (map views.entry_of all.new.items ≡ map views.entry_of all.old.items ++ entries_of (loaded_by (map source_of sources.now) (map shared_program programs.now))) }
{
    let mut left = programs;
    for source in sources {
        match left.split_first() {
            Some((checked, rest)) => {
                push_installed(all, &source.id, &source.code, checked)?;
                left = rest;
            }
            None => return Ok(()),
        }
    }
    Ok(())
}

/// Sources with their programs, as code is checked beside them, as many as there are of both. The programs are shared. Memory
/// fails too of an identifier that isn't an address and one name.
pub fn deployed_with(
    alloc: Global,
    sources: &[Source],
    programs: &[Rc<Checked>],
) -> Result<Deployed, AllocError>
    ensures { IfOk result (λ all. contracts_of all ≡ entries_of (loaded_by (map source_of sources.now) (map shared_program programs.now))) }
{
    let mut deployed = no_contracts(alloc);
    match push_sources(&mut deployed.contracts, sources, programs) {
        Ok(()) => Ok(deployed),
        Err(error) => {
            discard_deployed(deployed);
            Err(error)
        }
    }
}

/// Appends contracts with their programs.
fn push_all(all: &mut Vec<Installed>, held: &[Held]) -> Result<(), AllocError>
    ensures { OnOk result (map views.entry_of all.new.items ≡ map views.entry_of all.old.items ++ entries_of (map held_of held.now)) }
{
    for it in held {
        push_installed(all, &it.source.id, &it.source.code, &it.checked)?;
    }
    Ok(())
}

/// Contracts with their programs, as code is checked beside them. The programs are shared. Memory fails too of an identifier that
/// isn't an address and one name.
pub(crate) fn deployed_held(alloc: Global, held: &[Held]) -> Result<Deployed, AllocError>
    ensures { IfOk result (λ all. contracts_of all ≡ entries_of (map held_of held.now)) }
{
    let mut deployed = no_contracts(alloc);
    match push_all(&mut deployed.contracts, held) {
        Ok(()) => Ok(deployed),
        Err(error) => {
            discard_deployed(deployed);
            Err(error)
        }
    }
}

/// Whether a contract with this identifier is among these. Memory fails of an identifier that isn't one of a contract.
pub(crate) fn is_taken(id: &TypeId, deployed: &Deployed) -> Result<bool, AllocError>
    ensures { IfOk result (λ is. is ≡ is_deployed (contracts_of deployed.now) id.now) }
{
    let name = name_of(id)?;
    let found = find_contract_at(
        deployed.contracts.as_slice(),
        u128::from(id.address.0),
        name,
    );
    Ok(found.is_some())
}
