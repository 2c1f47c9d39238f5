// Contracts of their codes, their values and their programs.
ghost use Rattle.std.specs.Prelude.{◌≡◌, ◌++◌, ◌∷◌, [], IfOk, OnOk, length, map};
ghost use Rattle.cad_loading.specs.Views.{programs_of};
ghost use Rattle.cad_loads.specs.Views.{source_of};
ghost use Rattle.cad_rows.specs.Views.{pure_row};
ghost use Rattle.cad_state.specs.Views.{contract_of};
ghost use Rattle.cad_world.specs.State as s;
ghost use Rattle.cad_world_reading.specs.Loading as spec;
ghost use Rattle.cad_world_registers.specs.Meaning.{parts_of, value_row};
ghost use Rattle.cad_worlds.specs.Items as items;
ghost use Rattle.cad_worlds.specs.Standing.{IsSound, world_of};

use cad_declarations::Checked;
use cad_loading::{Programs, load_kept, one_loading};
use cad_loads::Source;
use cad_rows::{Place, add_last, discard_row};
use cad_state::{Contract, discard_accounts, discard_contract, discard_contracts, discard_shared};
use cad_value_trees::tree_from_value;
use cad_values::Value;
use cad_world_registers::{Parts, discard_contract_parts};
use cad_worlds::World;
use std::alloc::{AllocError, Global};
use std::rc::Rc;
use std::vec::IntoIter;

// ---- one contract

/// A row of one place, in which a value stands.
fn row_of(alloc: Global, value: &Value) -> Result<Vec<Place>, AllocError>
    ensures { IfOk result (λ row. pure_row row.items ≡ value_row value.now) }
{
    let tree = tree_from_value(alloc, value)?;
    let mut row = Vec::new(alloc);
    match add_last(&mut row, tree) {
        Ok(()) => Ok(row),
        Err(error) => {
            discard_row(row);
            Err(error)
        }
    }
}

/// The same code; its bytes are shared.
fn same_source(source: &Source) -> Result<Source, AllocError>
    ensures { IfOk result (λ s. source_of s ≡ source_of source.now) }
{
    let id = source.id.clone()?;
    let code = source.code.clone()?;
    Ok(Source { id, code })
}

/// A contract of its code, its program and the row of its value, which are let go where memory fails.
fn contract_in(
    source: &Source,
    checked: Rc<Checked>,
    row: Vec<Place>,
) -> Result<Contract, AllocError>
    ensures { IfOk result (λ c. contract_of c ≡ spec.contract_from (source_of source.now) (spec.program_in checked) (pure_row row.items)) }
{
    match same_source(source) {
        Ok(Source { id, code }) => Ok(Contract {
            id,
            code,
            checked,
            value: row,
            is_running: false,
        }),
        Err(error) => {
            discard_shared(checked);
            discard_row(row);
            Err(error)
        }
    }
}

/// A contract of its code, its program and its value. Where memory fails, the program is let go.
fn contract_from(
    alloc: Global,
    source: &Source,
    checked: Rc<Checked>,
    value: &Value,
) -> Result<Contract, AllocError>
    ensures { IfOk result (λ c. contract_of c ≡ spec.contract_from (source_of source.now) (spec.program_in checked) (value_row value.now)) }
{
    match row_of(alloc, value) {
        Ok(row) => contract_in(source, checked, row),
        Err(error) => {
            discard_shared(checked);
            Err(error)
        }
    }
}

/// Adds a contract of its code, its program and its value. Where memory fails, the program is let go.
#[tactic(auto, using(crate::proofs::Joined::contracts_more))]
fn push_contract(
    alloc: Global,
    source: &Source,
    checked: Rc<Checked>,
    value: &Value,
    contracts: &mut Vec<Contract>,
) -> Result<(), AllocError>
    ensures { OnOk result (map contract_of contracts.new.items ≡ map contract_of contracts.old.items ++ spec.contract_from (source_of source.now) (spec.program_in checked) (value_row value.now) ∷ []) }
{
    let contract = contract_from(alloc, source, checked, value)?;
    match contracts.push(contract) {
        Ok(()) => Ok(()),
        Err(refused) => {
            discard_contract(refused.value);
            Err(AllocError)
        }
    }
}

// ---- all contracts

/// Lets the programs go that are left.
fn discard_left(all: IntoIter<Rc<Checked>, Global>) {
    let mut left = all;
    while let Some(checked) = left.next() {
        discard_shared(checked);
    }
    left.destroy_empty()
}

/// Contracts of their codes, their programs and their values, in order. The programs are let go where memory fails.
fn contracts_from(
    alloc: Global,
    sources: &[Source],
    programs: Vec<Rc<Checked>>,
    values: &[Value],
) -> Result<Vec<Contract>, AllocError>
    requires programs { length programs.items ≡ length sources.now }
    requires values { length values.now ≡ length sources.now }
    ensures { IfOk result (λ cs. map contract_of cs.items ≡ items.contracts_from (map source_of sources.now) (programs_of programs) (map value_row values.now)) }
{
    let mut contracts = Vec::new(alloc);
    let mut left = programs.into_iter();
    while let Some(checked) = left.next() {
        let i = contracts.len();
        if let Err(error) = push_contract(alloc, &sources[i], checked, &values[i], &mut contracts) {
            discard_contracts(contracts);
            discard_left(left);
            return Err(error);
        }
    }
    left.destroy_empty();
    Ok(contracts)
}

/// Contracts of their codes, their programs and their values, in order; the codes and the values are let go.
fn join_contracts(
    alloc: Global,
    sources: Vec<Source>,
    programs: Vec<Rc<Checked>>,
    values: Vec<Value>,
) -> Result<Vec<Contract>, AllocError>
    requires programs { length programs.items ≡ length sources.items }
    requires values { length values.items ≡ length sources.items }
    ensures { IfOk result (λ cs. map contract_of cs.items ≡ items.contracts_from (map source_of sources.items) (programs_of programs) (map value_row values.items)) }
{
    let joined = contracts_from(alloc, sources.as_slice(), programs, values.as_slice());
    discard_contract_parts(sources, values);
    joined
}

/// The contracts of a World, by their codes and their values: their programs are found (`load_kept`). AllocError also where there are none.
pub(crate) fn load_contracts(
    alloc: Global,
    known: &mut Programs,
    sources: Vec<Source>,
    values: Vec<Value>,
) -> Result<Vec<Contract>, AllocError>
    ensures { (v : s.World) → map source_of sources.items ≡ (items.draft_of v).sources → map value_row values.items ≡ (items.draft_of v).values → IsSound v → IfOk result (λ cs. map contract_of cs.items ≡ v.contracts) }
{
    one_loading();
    if values.len() != sources.len() {
        discard_contract_parts(sources, values);
        return Err(AllocError);
    }
    match load_kept(alloc, known, sources.as_slice()) {
        Ok(Some(programs)) => join_contracts(alloc, sources, programs, values),
        Ok(None) => {
            discard_contract_parts(sources, values);
            Err(AllocError)
        }
        Err(error) => {
            discard_contract_parts(sources, values);
            Err(error)
        }
    }
}

/// The World of what registers made and of the programs of its contracts.
pub(crate) fn world_from(
    alloc: Global,
    parts: Parts,
    programs: Vec<Rc<Checked>>,
) -> Result<World, AllocError>
    requires programs { length programs.items ≡ length parts.sources.items }
    requires values { length parts.values.items ≡ length parts.sources.items }
    ensures { IfOk result (λ w. world_of w ≡ items.world_from (parts_of parts) (programs_of programs)) }
{
    let Parts {
        accounts,
        sources,
        values,
        next_identity,
    } = parts;
    match join_contracts(alloc, sources, programs, values) {
        Ok(contracts) => Ok(World {
            accounts,
            contracts,
            next_identity,
        }),
        Err(error) => {
            discard_accounts(accounts);
            Err(error)
        }
    }
}
