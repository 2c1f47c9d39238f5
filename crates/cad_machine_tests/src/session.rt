// What transactions over accounts come to, one behind the other, and what a script behind them gives.
use crate::running::{Closed, PLACE, checked, deployed, number_in, number_of, running};
use cad_command_runs::{run_script, run_transaction};
use cad_declarations::Deployed;
use cad_discards::discard_deployed;
use cad_outcomes::Stop;
use cad_run_starts::begin;
use cad_state::{
    Account, Accounts, Contract, Known, RunState, discard_account, discard_accounts,
    discard_run_accounts, discard_shared, discard_state, discard_values,
};
use cad_syntax::{Address, Num};
use cad_tables::no_contracts;
use cad_transaction_ends::{Left, left_accounts};
use std::alloc::Global;
use std::process::Abort;

/// The accounts that sign, each once.
const SIGNERS: [Address; 2] = [Address(1), Address(2)];

/// What stands between commands: the accounts 1 and 2, and a contract `C` of account 1.
struct Session {
    accounts: Accounts,
    contracts: Vec<Contract>,
    next_identity: u64,
}

/// An account that holds nothing.
fn empty_account(alloc: Global) -> Account {
    Account {
        identifiers: Vec::new(alloc),
        stored: Vec::new(alloc),
        published: Vec::new(alloc),
        controllers: Vec::new(alloc),
        next_controller: 1,
    }
}

/// Two accounts that hold nothing.
fn two_accounts(rt: &impl Abort, alloc: Global) -> Vec<Account> {
    let mut accounts = Vec::new(alloc);
    for _ in 0..2u64 {
        match accounts.push(empty_account(alloc)) {
            Ok(()) => {}
            Err(refused) => discard_account(refused.value),
        }
    }
    assert_eq!(rt; accounts.len(), 2usize);
    accounts
}

/// Lets an account that is known go.
fn discard_one(one: Known) {
    let Known { index: _, account } = one;
    discard_account(account)
}

/// An account comes to those that are known, if its index is one of these; else it is let go.
fn keep_known(known: &mut Vec<Known>, indices: &[u64], one: Known) {
    if !indices.contains(&one.index) {
        discard_one(one);
        return;
    }
    match known.push(one) {
        Ok(()) => {}
        Err(refused) => discard_one(refused.value),
    }
}

/// As many accounts, of which those with these indices are known, the last first; the others are let go.
fn part_of(alloc: Global, all: Vec<Account>, indices: &[u64]) -> Accounts {
    let count = all.len();
    let mut left = all;
    let mut known = Vec::new(alloc);
    for _ in 0..count {
        if let Some(account) = left.pop() {
            let index = left.len() as u64;
            keep_known(&mut known, indices, Known { index, account });
        }
    }
    discard_accounts(left);
    Accounts::Part {
        count: count as u64,
        known,
    }
}

/// What stands between commands, where those accounts are known that have these indices.
fn cut(alloc: Global, session: Session, indices: &[u64]) -> Session {
    let Session {
        accounts,
        contracts,
        next_identity,
    } = session;
    let known = match accounts {
        Accounts::All(all) => part_of(alloc, all, indices),
        Accounts::Part { count, known } => Accounts::Part { count, known },
    };
    Session {
        accounts: known,
        contracts,
        next_identity,
    }
}

/// Asserts that of two accounts those are known that have these indices, in their order.
fn assert_known(rt: &impl Abort, accounts: &Accounts, indices: &[u64]) {
    match accounts {
        Accounts::All(all) => assert_eq!(rt; all.len(), 0usize, "all are known"),
        Accounts::Part { count, known } => {
            assert_eq!(rt; *count, 2u64);
            assert_eq!(rt; known.len(), indices.len());
            for (one, index) in known.as_slice().iter().zip(indices) {
                assert_eq!(rt; one.index, *index);
            }
        }
    }
}

/// More fuel than a run can use.
fn fuel(units: u64) -> u64 {
    units.saturating_mul(2).saturating_add(2)
}

/// The state behind a transaction, and how it ended.
fn run_over(
    rt: &impl Abort,
    alloc: Global,
    session: Session,
    beside: &Deployed,
    code: &str,
    units: u64,
) -> (RunState, Result<(), Stop>) {
    let Session {
        accounts,
        contracts,
        next_identity,
    } = session;
    let program = checked(rt, alloc, code, None, beside);
    let held = program.clone().expect(rt, "memory");
    let mut state = begin(alloc, program, accounts, contracts, next_identity, units);
    let ended = match &held.bodies.transaction {
        Some(transaction) => run_transaction(
            fuel(units),
            &Closed,
            transaction,
            Vec::new(alloc),
            &SIGNERS,
            &mut state,
        ),
        None => Err(Stop::IllTyped),
    };
    discard_shared(held);
    (state, ended)
}

/// What a transaction leaves.
fn transact(
    rt: &impl Abort,
    alloc: Global,
    session: Session,
    beside: &Deployed,
    code: &str,
    units: u64,
) -> Result<Left, Stop> {
    let (state, ended) = run_over(rt, alloc, session, beside, code, units);
    match ended {
        Ok(()) => Ok(left_accounts(state).expect(rt, "memory")),
        Err(stop) => {
            discard_state(state);
            Err(stop)
        }
    }
}

/// What is left, as what stands between commands, and the numbers in the first fields of the events.
fn session_of(rt: &impl Abort, alloc: Global, left: Left) -> (Session, Vec<Option<Num>>) {
    let Left {
        accounts,
        contracts,
        next_identity,
        events,
        made: _,
        destroyed: _,
        added: _,
    } = left;
    let mut numbers = Vec::new(alloc);
    for event in events.as_slice() {
        numbers.push(number_in(event)).expect(rt, "memory");
    }
    discard_values(events);
    let session = Session {
        accounts,
        contracts,
        next_identity,
    };
    (session, numbers)
}

/// What stands behind all of these transactions, and the events of the last of them; or why one of them failed.
fn after(
    rt: &impl Abort,
    alloc: Global,
    session: Session,
    beside: &Deployed,
    codes: &[&str],
    units: u64,
) -> Result<(Session, Vec<Option<Num>>), Stop> {
    let mut now = session;
    let mut told = Vec::new(alloc);
    for code in codes {
        match transact(rt, alloc, now, beside, code, units) {
            Ok(left) => {
                let (next, numbers) = session_of(rt, alloc, left);
                now = next;
                told = numbers;
            }
            Err(stop) => return Err(stop),
        }
    }
    Ok((now, told))
}

/// Lets what stands between commands go.
fn discard_session(session: Session) {
    let Session {
        accounts,
        contracts,
        next_identity: _,
    } = session;
    discard_run_accounts(accounts);
    cad_state::discard_contracts(contracts);
}

/// The contract as a check and as a run have it, over accounts that hold nothing.
fn opened(rt: &impl Abort, alloc: Global, contract: &str) -> (Session, Deployed) {
    let none = no_contracts(alloc);
    let own = checked(rt, alloc, contract, Some(PLACE), &none);
    let contracts = running(rt, alloc, &own);
    let beside = deployed(rt, alloc, &none, own);
    discard_deployed(none);
    let session = Session {
        accounts: Accounts::All(two_accounts(rt, alloc)),
        contracts,
        next_identity: 1,
    };
    (session, beside)
}

/// What a command comes to over accounts of which some are known.
#[derive(Drop)]
pub(crate) struct End {
    /// The numbers that it tells; none where it stopped.
    pub told: Vec<Option<Num>>,
    pub stopped: Option<Stop>,
    /// The index of the account that it lacks, the first 0.
    pub wanted: Option<u64>,
}

/// A command that stopped.
fn end_by(alloc: Global, stop: Stop, wanted: Option<u64>) -> End {
    End {
        told: Vec::new(alloc),
        stopped: Some(stop),
        wanted,
    }
}

/// What a transaction comes to over accounts of which those with these indices are known; behind it the same are known.
fn transact_known(
    rt: &impl Abort,
    alloc: Global,
    session: Session,
    beside: &Deployed,
    indices: &[u64],
    code: &str,
    units: u64,
) -> End {
    let (state, ended) = run_over(rt, alloc, session, beside, code, units);
    let wanted = state.wanted;
    match ended {
        Ok(()) => {
            let left = left_accounts(state).expect(rt, "memory");
            let (last, told) = session_of(rt, alloc, left);
            assert_known(rt, &last.accounts, indices);
            discard_session(last);
            End {
                told,
                stopped: None,
                wanted,
            }
        }
        Err(stop) => {
            discard_state(state);
            end_by(alloc, stop, wanted)
        }
    }
}

/// What the second of two transactions comes to where those accounts are known that have these indices, the last first; the first has
/// all of them.
pub(crate) fn transacted_known(
    rt: &impl Abort,
    alloc: Global,
    contract: &str,
    first: &str,
    indices: &[u64],
    code: &str,
    units: u64,
) -> End {
    let (session, beside) = opened(rt, alloc, contract);
    let end = match after(rt, alloc, session, &beside, &[first], units) {
        Ok((now, _told)) => {
            let part = cut(alloc, now, indices);
            assert_known(rt, &part.accounts, indices);
            transact_known(rt, alloc, part, &beside, indices, code, units)
        }
        Err(stop) => end_by(alloc, stop, None),
    };
    discard_deployed(beside);
    end
}

/// What a script comes to over these accounts: it tells the number that it gives.
fn scripted(
    rt: &impl Abort,
    alloc: Global,
    session: Session,
    beside: &Deployed,
    script: &str,
    units: u64,
) -> End {
    let Session {
        accounts,
        contracts,
        next_identity,
    } = session;
    let program = checked(rt, alloc, script, None, beside);
    let mut state: RunState = begin(alloc, program, accounts, contracts, next_identity, units);
    let given = run_script(fuel(units), &Closed, Vec::new(alloc), &mut state);
    let wanted = state.wanted;
    discard_state(state);
    match given {
        Ok(value) => {
            let mut told = Vec::new(alloc);
            told.push(number_of(&value)).expect(rt, "memory");
            End {
                told,
                stopped: None,
                wanted,
            }
        }
        Err(stop) => end_by(alloc, stop, wanted),
    }
}

/// What a script comes to behind these transactions, or the one of them that stopped, where the script knows those accounts that have
/// these indices, the last first.
pub(crate) fn asked_known(
    rt: &impl Abort,
    alloc: Global,
    contract: &str,
    codes: &[&str],
    indices: &[u64],
    script: &str,
    units: u64,
) -> End {
    let (session, beside) = opened(rt, alloc, contract);
    let end = match after(rt, alloc, session, &beside, codes, units) {
        Ok((last, _told)) => {
            let part = cut(alloc, last, indices);
            assert_known(rt, &part.accounts, indices);
            scripted(rt, alloc, part, &beside, script, units)
        }
        Err(stop) => end_by(alloc, stop, None),
    };
    discard_deployed(beside);
    end
}
