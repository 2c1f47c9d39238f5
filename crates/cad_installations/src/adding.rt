// `contracts.add`.
ghost use Rattle.std.specs.Prelude.{◌≡◌, IfOk, map, option_and_then, option_map};
ghost use Rattle.cad_evaluation.specs.Adding as spec;
ghost use Rattle.cad_evaluation.specs.Arguments.{argument, in_slot as slot_tree};
ghost use Rattle.cad_evaluation.specs.Texts as texts;
ghost use Rattle.cad_installations.specs.Code.Steps as parts;
ghost use Rattle.cad_installations.specs.Views.{items_row};
ghost use Rattle.cad_rows.specs.Places.{pure_slot};
ghost use Rattle.cad_rows.specs.Views.{pure_row, pure_tree};
ghost use Rattle.cad_state.specs.Views.{FindsAndCarriesOut, contract_of, program_of};
ghost use Rattle.cad_types.specs.Views.{declarations};
ghost use Rattle.cad_world.specs.Rows.{back};

use crate::fitting::{fit, initializer_parameters};
use crate::front_end::FrontEnd;
use crate::initializers::Initializers;
use crate::installing::install;
use crate::kinds::kinds_with;
use cad_access::contract_in;
use cad_declarations::Checked;
use cad_outcomes::{RunError, Stop};
use cad_rows::{Place, Slot, Tree, discard_place, discard_row, tree_at};
use cad_run_accounts::is_account;
use cad_state::{Contract, Question, RunState, discard_contract, discard_shared};
use cad_syntax::{Address, Bytes, Name, Names, Text, TypeId};
use cad_text_operators::{bytes_in, text_in};
use cad_types::DeclaredTypes;
use std::alloc::{AllocError, Global};
use std::rc::Rc;

/// Whether a contract has an identifier; one whose initializer runs has it too.
pub fn is_taken(contracts: &[Contract], id: &TypeId) -> bool
    ensures { result ≡ spec.is_taken (map contract_of contracts.now) id.now }
{
    contract_in(contracts, id).is_some()
}

/// Whether a program is one contract with an identifier.
pub fn is_contract_of(id: &TypeId, checked: &Checked) -> bool
    ensures { result ≡ spec.is_contract_of id.now (program_of checked.now) }
{
    match &checked.tables.contract {
        Some(own) => id.same(own),
        None => false,
    }
}

/// What stands in a place.
fn in_slot(slot: Slot<'_>) -> Option<&Tree>
    ensures { option_map (λ t. pure_tree t.now) result ≡ slot_tree (pure_slot slot.entry) }
{
    match slot {
        Slot::Full(tree) => Some(tree),
        _ => None,
    }
}

/// The text that is the first argument.
fn text_of(row: &[Place]) -> Option<&str>
    ensures { option_map (λ t. t.now) result ≡ option_and_then texts.text_in (argument 0 (pure_row row.now)) }
{
    match in_slot(tree_at(row, 0)) {
        Some(tree) => text_in(tree),
        None => None,
    }
}

/// The identifier of the contract of a name at an address.
fn contract_named(alloc: Global, address: Address, name: &str) -> Result<TypeId, AllocError>
    ensures { IfOk result (λ id. id ≡ spec.contract_named address name.now) }
{
    let mut names = Names::new(alloc);
    names.push(Name(Text::from_str(alloc, name)?))?;
    Ok(TypeId { address, names })
}

/// The identifier of the contract that the first argument names, at an address.
fn identifier_in(
    alloc: Global,
    address: Address,
    row: &[Place],
) -> Result<Option<TypeId>, AllocError>
    ensures { IfOk result (λ o. o ≡ option_map (spec.contract_named address) (option_and_then texts.text_in (argument 0 (pure_row row.now)))) }
{
    match text_of(row) {
        Some(name) => Ok(Some(contract_named(alloc, address, name)?)),
        None => Ok(None),
    }
}

/// The bytes that are the second argument.
fn code_in(alloc: Global, row: &[Place]) -> Result<Option<Bytes>, AllocError>
    ensures { IfOk result (λ o. o ≡ option_and_then texts.bytes_in (argument 1 (pure_row row.now))) }
{
    match in_slot(tree_at(row, 1)) {
        Some(tree) => bytes_in(alloc, tree),
        None => Ok(None),
    }
}

/// The first place of a row goes, where there is one.
fn drop_first(row: &mut Vec<Place>)
    ensures { pure_row row.new.items ≡ back 1 (pure_row row.old.items) }
{
    if !row.is_empty() {
        discard_place(row.remove(0));
    }
}

/// The arguments behind the first two.
fn further(row: Vec<Place>) -> Vec<Place>
    ensures { items_row result ≡ back 2 (pure_row row.items) }
{
    let mut left = row;
    drop_first(&mut left);
    drop_first(&mut left);
    left
}

/// A contract before its initializer runs. Where memory fails, the program is let go.
pub fn new_contract(
    alloc: Global,
    id: TypeId,
    code: Bytes,
    checked: Rc<Checked>,
) -> Result<Contract, AllocError>
    ensures { IfOk result (λ c. contract_of c ≡ spec.new_contract id code (program_of checked.value)) }
{
    match Rc::new(alloc, code) {
        Ok(held) => Ok(contract_over(alloc, id, held, checked)),
        Err(_) => {
            discard_shared(checked);
            Err(AllocError)
        }
    }
}

/// A contract of a program that is shared, before its initializer runs. It takes no memory.
fn contract_over(alloc: Global, id: TypeId, code: Rc<Bytes>, checked: Rc<Checked>) -> Contract
    ensures { contract_of result ≡ spec.new_contract id code.value (program_of checked.value) }
{
    Contract {
        id,
        code,
        checked,
        value: Vec::new(alloc),
        is_running: true,
    }
}

/// The arguments of a contract's initializer, by what is declared once the contract is there.
fn fit_for(
    state: &mut RunState,
    kinds: &DeclaredTypes,
    contract: &Contract,
    row: Vec<Place>,
) -> Result<Vec<Place>, Stop>
    ensures { FindsAndCarriesOut items_row (spec.fitted (declarations kinds.now) (spec.initializer_types contract.now.id (contract_of contract.now).program) (pure_row row.items)) state.old state.new result }
{
    let parameters = initializer_parameters(&contract.checked, &contract.id);
    fit(state, kinds, parameters, row)
}

/// A contract is installed on arguments that came to its parameters.
fn install_on<I: Initializers>(
    by: &I,
    contract: Contract,
    arguments: Result<Vec<Place>, Stop>,
    state: &mut RunState,
) -> Result<Tree, Stop>
    requires { I.is_ready by.now }
    ensures { parts.InstallsOn (I.calls by.now) (contract_of contract) arguments state.old state.new result }
{
    match arguments {
        Ok(row) => install(by, contract, row, state),
        Err(stop) => {
            discard_contract(contract);
            Err(stop)
        }
    }
}

/// A contract is installed on arguments: 125 where they don't fit its initializer, 113 of a reference to what is gone.
fn install_contract<I: Initializers>(
    by: &I,
    contract: Contract,
    row: Vec<Place>,
    state: &mut RunState,
) -> Result<Tree, Stop>
    requires { I.is_ready by.now }
    ensures { FindsAndCarriesOut pure_tree (parts.installed (I.calls by.now) (contract_of contract) (pure_row row.items)) state.old state.new result }
{
    match kinds_with(state, contract) {
        Ok(found) => {
            let (own, kinds) = found;
            let arguments = fit_for(state, &kinds, &own, row);
            install_on(by, own, arguments, state)
        }
        Err(stop) => {
            discard_row(row);
            Err(stop)
        }
    }
}

/// A program is installed as a contract of an identifier: 120 where it isn't one.
fn install_program<I: Initializers>(
    by: &I,
    id: TypeId,
    code: Bytes,
    checked: Rc<Checked>,
    row: Vec<Place>,
    state: &mut RunState,
) -> Result<Tree, Stop>
    requires { I.is_ready by.now }
    ensures { FindsAndCarriesOut pure_tree (spec.install_program (I.calls by.now) id code (pure_row row.items) (program_of checked.value)) state.old state.new result }
{
    if !is_contract_of(&id, &checked) {
        discard_shared(checked);
        discard_row(row);
        return Err(Stop::Failed(RunError::ContractName));
    }
    match new_contract(*state.making.allocator(), id, code, checked) {
        Ok(contract) => install_contract(by, contract, row, state),
        Err(_) => {
            discard_row(row);
            Err(Stop::Memory)
        }
    }
}

/// A code whose name is free is installed: 119 where it isn't accepted. Where memory fails of the front end, the state holds the code.
fn install_code<E: FrontEnd, I: Initializers>(
    end: &E,
    by: &I,
    id: TypeId,
    code: Bytes,
    row: Vec<Place>,
    state: &mut RunState,
) -> Result<Tree, Stop>
    requires { I.is_ready by.now }
    ensures { FindsAndCarriesOut pure_tree (parts.code_installed (E.front end.now) (I.calls by.now) id code (pure_row row.items)) state.old state.new result }
{
    match end.accept(
        *state.making.allocator(),
        state.contracts.as_slice(),
        id.address,
        code.as_slice(),
    ) {
        Ok(Some(checked)) => install_program(by, id, code, checked, row, state),
        Ok(None) => {
            discard_row(row);
            Err(Stop::Failed(RunError::ContractRejected))
        }
        Err(_) => {
            discard_row(row);
            state.asked = Some(Question {
                address: id.address,
                code,
            });
            Err(Stop::Memory)
        }
    }
}

/// A code is installed as a contract of an identifier: 118 where that is taken.
fn add_contract<E: FrontEnd, I: Initializers>(
    end: &E,
    by: &I,
    id: TypeId,
    code: Bytes,
    row: Vec<Place>,
    state: &mut RunState,
) -> Result<Tree, Stop>
    requires { I.is_ready by.now }
    ensures { FindsAndCarriesOut pure_tree (spec.add_contract (E.front end.now) (I.calls by.now) id code (pure_row row.items)) state.old state.new result }
{
    if is_taken(state.contracts.as_slice(), &id) {
        discard_row(row);
        return Err(Stop::Failed(RunError::ContractExists));
    }
    install_code(end, by, id, code, row, state)
}

/// The code that is the second argument is installed as a contract of an identifier, on the further arguments.
fn add_named<E: FrontEnd, I: Initializers>(
    end: &E,
    by: &I,
    id: TypeId,
    arguments: Vec<Place>,
    state: &mut RunState,
) -> Result<Tree, Stop>
    requires { I.is_ready by.now }
    ensures { FindsAndCarriesOut pure_tree (parts.named_added (E.front end.now) (I.calls by.now) id (pure_row arguments.items)) state.old state.new result }
{
    match code_in(*state.making.allocator(), arguments.as_slice()) {
        Ok(Some(code)) => add_contract(end, by, id, code, further(arguments), state),
        Ok(None) => {
            discard_row(arguments);
            Err(Stop::IllTyped)
        }
        Err(_) => {
            discard_row(arguments);
            Err(Stop::Memory)
        }
    }
}

/// A contract is added to an account that is there.
fn add_there<E: FrontEnd, I: Initializers>(
    end: &E,
    by: &I,
    address: Address,
    arguments: Vec<Place>,
    state: &mut RunState,
) -> Result<Tree, Stop>
    requires { I.is_ready by.now }
    ensures { FindsAndCarriesOut pure_tree (parts.there_added (E.front end.now) (I.calls by.now) (pure_row arguments.items) address) state.old state.new result }
{
    match identifier_in(*state.making.allocator(), address, arguments.as_slice()) {
        Ok(Some(id)) => add_named(end, by, id, arguments, state),
        Ok(None) => {
            discard_row(arguments);
            Err(Stop::IllTyped)
        }
        Err(_) => {
            discard_row(arguments);
            Err(Stop::Memory)
        }
    }
}

/// `contracts.add` at the account of an address, on its arguments: the name, the code, and those of the initializer. 118 where the
/// name is taken, 119 where the code isn't accepted beside the contracts whose initializer doesn't run, 120 where it isn't one
/// contract of that name, 125 and 113 of the further arguments, and the errors of the initializer, after which the contract is the
/// account's. IllTyped where there is no such account, name or code.
pub fn add<E: FrontEnd, I: Initializers>(
    end: &E,
    by: &I,
    address: Address,
    arguments: Vec<Place>,
    state: &mut RunState,
) -> Result<Tree, Stop>
    requires { I.is_ready by.now }
    ensures { FindsAndCarriesOut pure_tree (spec.add (E.front end.now) (I.calls by.now) (pure_row arguments.items) address) state.old state.new result }
{
    if is_account(state, address) {
        return add_there(end, by, address, arguments, state);
    }
    discard_row(arguments);
    Err(Stop::IllTyped)
}
