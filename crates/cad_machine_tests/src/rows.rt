// Rows of tests over accounts: transactions beside a contract, and what they come to.
use crate::session::{End, asked_known, transacted_known};
use cad_outcomes::{RunError, Stop};
use cad_syntax::{Kind, Num};
use std::alloc::Global;
use std::process::Abort;

/// The units of a command, where a test says nothing else.
const UNITS: u64 = 9999;

/// The contract of account 1.
const CONTRACT: &str = "access(all) contract C {
    access(all) entitlement E
    access(all) entitlement F
    access(all) event Told(n: Int)
    access(all) struct S {
        access(all) var n: Int
        init(n: Int) { self.n = n }
        access(all) fun set(n: Int) { self.n = n }
    }
    access(all) resource R {
        access(all) var n: Int
        init(n: Int) { self.n = n }
        access(all) fun set(n: Int) { self.n = n }
        access(E) fun entitled(): Int { return self.n + 1 }
        access(all) fun place(): Address? { return self.owner?.address }
    }
    access(all) resource Outer {
        access(all) let n: Int
        access(all) var inner: @R
        access(all) var all: @[R]
        init(n: Int) { self.n = n
            self.inner <- create R(n: n + 1)
            self.all <- [<-create R(n: n + 2)] }
    }
    access(all) fun make(n: Int): @R { return <-create R(n: n) }
    access(all) fun outer(n: Int): @Outer { return <-create Outer(n: n) }
    access(all) fun tell(n: Int) { emit Told(n: n) }
    access(all) fun say(b: Bool) { emit Told(n: b ? 1 : 0) }
    access(all) fun keep(n: Int) { self.account.storage.save(n, to: /storage/kept) }
    access(all) fun replace(a: auth(Storage) &Account): Int { let x = a.storage.load<[Int]>(from: /storage/e)!
        a.storage.save([9], to: /storage/e)
        return 7 }
    access(all) fun take(a: auth(Storage) &Account): Int { let x = a.storage.load<[Int]>(from: /storage/e)!
        return 7 }
}";

/// A number of the kind Int.
fn int(rt: &impl Abort, value: u64) -> Num {
    Num::new(Kind::Int, false, value as u128).expect(rt, "in range")
}

/// A transaction of accounts 1 and 2 whose `prepare` has these statements.
fn code(rt: &impl Abort, alloc: Global, statements: &str) -> String {
    format!(in alloc;
        "import C from 0x1
        transaction {{ prepare(a: auth(Storage, Capabilities) &Account, b: auth(Storage, Capabilities) &Account) {{ {statements} }} }}"
    )
    .expect(rt, "memory")
}

/// A script whose `main` has these statements.
fn script(rt: &impl Abort, alloc: Global, statements: &str) -> String {
    let text = format!(in alloc;
        "import C from 0x1\naccess(all) fun main(): Int {{ {statements} }}"
    );
    text.expect(rt, "memory")
}

// ---- where some accounts are known

/// What a command over accounts of which some are known is to come to: its numbers, its error, or the index of the account that it
/// lacks, the first 0, for want of which memory fails.
#[derive(Clone, Copy)]
pub(crate) enum Expected<'a> {
    Tells(&'a [u64]),
    Fails(RunError),
    Lacks(u64),
}

/// A command that has a transaction over all accounts before it: the statements of that one, the indices of the accounts that are
/// known, the last first, its own statements, and what it is to come to.
pub(crate) type Part<'a> = (&'a str, &'a [u64], &'a str, Expected<'a>);

/// The numbers that a command is to tell.
fn numbers_of<'a>(expected: Expected<'a>) -> &'a [u64] {
    match expected {
        Expected::Tells(numbers) => numbers,
        _ => &[],
    }
}

/// Why it is to stop.
fn stop_of(expected: Expected<'_>) -> Option<Stop> {
    match expected {
        Expected::Tells(_) => None,
        Expected::Fails(error) => Some(Stop::Failed(error)),
        Expected::Lacks(_) => Some(Stop::Memory),
    }
}

/// The account that it is to lack.
fn lack_of(expected: Expected<'_>) -> Option<u64> {
    match expected {
        Expected::Lacks(index) => Some(index),
        _ => None,
    }
}

/// Asserts what a command came to.
fn assert_end(rt: &impl Abort, end: &End, expected: Expected<'_>, statements: &str) {
    assert_eq!(rt; end.stopped, stop_of(expected), "{statements}");
    assert_eq!(rt; end.wanted, lack_of(expected), "{statements}");
    let numbers = numbers_of(expected);
    assert_eq!(rt; end.told.len(), numbers.len(), "{statements}");
    for (number, one) in end.told.as_slice().iter().zip(numbers) {
        assert_eq!(rt; *number, Some(int(rt, *one)), "{statements}");
    }
}

/// Asserts what each row's transaction comes to.
pub(crate) fn end_known(rt: &impl Abort, alloc: Global, rows: &[Part<'_>]) {
    for (first, known, statements, expected) in rows {
        let before = code(rt, alloc, first);
        let text = code(rt, alloc, statements);
        let end = transacted_known(
            rt,
            alloc,
            CONTRACT,
            before.as_str(),
            known,
            text.as_str(),
            UNITS,
        );
        assert_end(rt, &end, *expected, statements);
    }
}

/// Asserts what each row's script comes to, which tells the number that it gives.
pub(crate) fn read_known(rt: &impl Abort, alloc: Global, rows: &[Part<'_>]) {
    for (first, known, statements, expected) in rows {
        let before = code(rt, alloc, first);
        let text = script(rt, alloc, statements);
        let codes = [before.as_str()];
        let end = asked_known(rt, alloc, CONTRACT, &codes, known, text.as_str(), UNITS);
        assert_end(rt, &end, *expected, statements);
    }
}
