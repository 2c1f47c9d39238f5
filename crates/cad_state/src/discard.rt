// The state of a run and its parts are let go.
use crate::state::{Account, Accounts, Call, Contract, Known, RunState, Unknown};
use cad_declarations::Checked;
use cad_discards::discard_checked;
use cad_rows::{Place, Shape, discard_row, discard_shape};
use cad_values::Value;
use std::rc::Rc;

/// Lets a value go.
pub fn discard_value(value: Value) {
    discard_shape(Shape::Plain(value))
}

/// Lets values go.
pub fn discard_values(values: Vec<Value>) {
    let mut left = values;
    while let Some(value) = left.pop() {
        discard_value(value);
    }
    left.destroy_empty()
}

/// Lets a program go that others may hold.
pub fn discard_shared(checked: Rc<Checked>) {
    match Rc::into_inner(checked) {
        Some(last) => discard_checked(last),
        None => {}
    }
}

/// Lets the rows of a call go.
fn discard_rows(variables: Vec<Place>, before: Vec<Place>, aside: Vec<Place>) {
    discard_row(variables);
    discard_row(before);
    discard_row(aside)
}

/// Lets a call go.
pub fn discard_call(call: Call) {
    let Call {
        within,
        own: _,
        initializes: _,
        variables,
        before,
        result: aside,
    } = call;
    drop(within);
    discard_rows(variables, before, aside)
}

/// Lets calls go.
pub fn discard_calls(calls: Vec<Call>) {
    let mut left = calls;
    while let Some(call) = left.pop() {
        discard_call(call);
    }
    left.destroy_empty()
}

/// Lets an account go.
pub fn discard_account(account: Account) {
    let Account {
        identifiers,
        stored,
        published,
        controllers,
        next_controller: _,
    } = account;
    drop(identifiers);
    discard_row(stored);
    drop(published);
    drop(controllers)
}

/// Lets accounts go.
pub fn discard_accounts(accounts: Vec<Account>) {
    let mut left = accounts;
    while let Some(account) = left.pop() {
        discard_account(account);
    }
    left.destroy_empty()
}

/// Lets accounts that are known go.
pub fn discard_known(known: Vec<Known>) {
    let mut left = known;
    while let Some(one) = left.pop() {
        let Known { index: _, account } = one;
        discard_account(account);
    }
    left.destroy_empty()
}

/// Lets the accounts of a run go.
pub fn discard_run_accounts(accounts: Accounts) {
    match accounts {
        Accounts::All(all) => discard_accounts(all),
        Accounts::Part { count: _, known } => discard_known(known),
    }
}

/// Lets a contract go.
pub fn discard_contract(contract: Contract) {
    let Contract {
        id,
        code,
        checked,
        value,
        is_running: _,
    } = contract;
    drop(id);
    drop(code);
    discard_shared(checked);
    discard_row(value)
}

/// Lets contracts go.
pub fn discard_contracts(contracts: Vec<Contract>) {
    let mut left = contracts;
    while let Some(contract) = left.pop() {
        discard_contract(contract);
    }
    left.destroy_empty()
}

/// Lets a code go of which a run asked, and the contracts of the run.
pub fn discard_unknown(unknown: Unknown) {
    let Unknown {
        contracts,
        question,
    } = unknown;
    discard_contracts(contracts);
    drop(question)
}

/// Lets the state of a run go, but for the code of which it asked, if any.
pub fn unknown_of(state: RunState) -> Option<Unknown> {
    let RunState {
        calls,
        making,
        accounts,
        contracts,
        checked,
        events,
        made,
        destroyed,
        added,
        next_label: _,
        next_identity: _,
        units: _,
        depth: _,
        hints,
        asked,
        wanted: _,
    } = state;
    discard_calls(calls);
    discard_row(making);
    discard_run_accounts(accounts);
    discard_shared(checked);
    discard_values(events);
    drop(made);
    drop(destroyed);
    drop(added);
    drop(hints);
    match asked {
        Some(question) => Some(Unknown {
            contracts,
            question,
        }),
        None => {
            discard_contracts(contracts);
            None
        }
    }
}

/// Lets the state of a run go.
pub fn discard_state(state: RunState) {
    match unknown_of(state) {
        Some(unknown) => discard_unknown(unknown),
        None => {}
    }
}
