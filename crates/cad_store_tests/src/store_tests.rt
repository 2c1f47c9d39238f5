// Commits of accounts, stores that are full or bad, and disk calls that fail.
ghost use Rattle.std.specs.Prelude.{List, ◌≡◌, ◌≢◌, ◌≤◌, ◌^◌, ◌↔◌, IfOk, IsTrue, None, option_map};
ghost use Rattle.std.specs.List.{AllByRecursion};
ghost use Rattle.cad_accounts.specs.Registers.{Map, Leads};
ghost use Rattle.cad_host.specs.Disk.{Event};
ghost use Rattle.cad_store.specs.Stores.{held, IsOn};

use crate::accounts_tests::key_of;
use crate::asserts::{assert_bytes, assert_number, assert_same};
use cad_accounts::{Changes, Registers};
use cad_host::{Failed, Host, MemHost, Tape};
use cad_store::{Judge, OpenStop, ReadyStop, Store, open};
use cad_syntax::Bytes;
use cad_wire::{Entry, Key, read_entries};
use std::alloc::{AllocError, Global};
use std::process::Abort;

// The tape with the record of one account alone.
const TAPE: [u8; 67] = [
    1, 0, 0, 0, 0, 0, 0, 0, 57, 1, 0, 0, 0, 2, 0, 0, 0, 1, 0, 1, 0, 0, 0, 16, 0, 0, 0, 0, 0, 0, 0,
    1, 0, 0, 0, 0, 0, 0, 0, 1, 0, 0, 0, 9, 1, 0, 0, 0, 0, 0, 0, 0, 1, 1, 0, 0, 0, 8, 0, 0, 0, 0, 0,
    0, 0, 1, 0,
];

const ROOM: u64 = 1 << 20;

// The key of a register that isn't accepted.
const REFUSED: u8 = 1;

// Registers without this key.
#[derive(Drop)]
struct Without {
    key: Key,
}

fn without_refused(rt: &impl Abort, alloc: Global) -> Without {
    Without {
        key: key_of(rt, alloc, &[REFUSED]),
    }
}

pub(crate) fn empty_host(rt: &impl Abort, alloc: Global) -> MemHost {
    MemHost::new(alloc, b"", &[], &[], &[]).expect(rt, "memory")
}

fn is_absent(store: &Store, key: &Key) -> bool
    ensures { IsTrue result ↔ (held store.now key.now.0 ≡ None) }
{
    match store.get(key) {
        None => true,
        Some(_) => false,
    }
}

impl Judge for Without {
    ghost accepts = { λ judge m. m judge.key.0 ≡ None };

    fn is_good(&self, _alloc: Global, store: &Store) -> Result<bool, AllocError> {
        Ok(is_absent(store, &self.key))
    }
}

// Whether a register's bytes aren't those.
fn differs(bytes: Option<&[u8]>, value: &Option<Bytes>) -> bool
    ensures { IsTrue result ↔ (option_map (λ b. b.now) bytes.entry ≢ value.now) }
{
    match (bytes, value) {
        (None, None) => false,
        (Some(left), Some(right)) => left != right.as_slice(),
        _ => true,
    }
}

// Whether an entry changes its register.
fn is_change(store: &Store, entry: &Entry) -> bool
    ensures { IsTrue result ↔ (held store.now entry.now.key.0 ≢ entry.now.value) }
{
    differs(store.get(&entry.key), &entry.value)
}

// Whether there are two entries, and each changes its register.
fn are_two_changes(store: &Store, entries: &[Entry]) -> bool
    ensures { IsTrue result → AllByRecursion (λ e. held store.now e.key.0 ≢ e.value) entries.now }
{
    match entries {
        [first, second] => is_change(store, first) && is_change(store, second),
        _ => false,
    }
}

// The changes of a record's body, where both change their registers.
fn changes_of(alloc: Global, store: &Store, body: &[u8]) -> Result<Changes, AllocError>
    ensures { IfOk result (λ changes. (new : Map) × Leads (held store.now) new changes) }
{
    let Ok(changes) = read_entries(alloc, body) else {
        return Err(AllocError);
    };
    if !are_two_changes(store, changes.as_slice()) {
        return Err(AllocError);
    }
    Ok(changes)
}

// How many registers a store has.
fn count_of(store: &Store) -> usize {
    let mut count = 0usize;
    for block in store.blocks() {
        count = count.saturating_add(block.rows().len());
    }
    count
}

// What makes one account more, of registers that are accounts alone.
fn account_changes(alloc: Global, store: &Store) -> Result<Changes, AllocError>
    ensures { IfOk result (λ changes. (new : Map) × Leads (held store.now) new changes) }
{
    let count = count_of(store).max(1).min(255) as u8;
    let mut bytes = TAPE;
    bytes[31] = count;
    bytes[52] = count;
    changes_of(alloc, store, &bytes[9..66])
}

fn add_account<H: Host>(alloc: Global, store: &mut Store, host: &mut H) -> Result<(), Failed>
    requires on { H.tells → IsOn (H.trace host.old) store.old }
{
    let Ok(changes) = account_changes(alloc, store) else {
        return Err(Failed);
    };
    let Ok(commit) = store.ready(changes) else {
        return Err(Failed);
    };
    store.commit(host, commit)
}

// Opens the store.
fn opened<H: Host>(
    rt: &impl Abort,
    alloc: Global,
    host: &mut H,
    room: u64,
) -> Result<Store, OpenStop>
    requires { room ≤ 2 ^ 30 }
    ensures on { IfOk result (λ store. H.tells → IsOn (H.trace host.new) store) }
{
    let judge = without_refused(rt, alloc);
    open(alloc, host, &judge, room)
}

// Opens the store, and commits one account more.
fn one_more<H: Host>(rt: &impl Abort, alloc: Global, host: &mut H) -> Result<Store, Failed> {
    let Ok(mut store) = opened(rt, alloc, host, ROOM) else {
        return Err(Failed);
    };
    match add_account(alloc, &mut store, host) {
        Ok(()) => Ok(store),
        Err(failed) => {
            drop(store);
            Err(failed)
        }
    }
}

// Discards a commit.
fn discard_one(rt: &impl Abort, alloc: Global, store: &mut Store)
    ensures held { held store.new ≡ held store.old }
    ensures on { (m : List Event) → IsOn m store.old → IsOn m store.new }
{
    let changes = account_changes(alloc, store).expect(rt, "memory");
    let commit = store.ready(changes).expect(rt, "room");
    store.discard(commit);
}

fn discard_and_add<H: Host>(rt: &impl Abort, alloc: Global, host: &mut H) -> Store {
    let mut store = opened(rt, alloc, host, ROOM).expect(rt, "a store");
    discard_one(rt, alloc, &mut store);
    add_account(alloc, &mut store, host).expect(rt, "no fault");
    store
}

// Whether one account more is over a store's room.
fn has_no_room(rt: &impl Abort, alloc: Global, store: &mut Store) -> bool {
    let changes = account_changes(alloc, store).expect(rt, "memory");
    match store.ready(changes) {
        Ok(commit) => {
            store.discard(commit);
            false
        }
        Err(ReadyStop::Full) => true,
        Err(ReadyStop::Memory) => panic!(rt; "memory"),
    }
}

// Whether a first account is over this room.
fn is_full(rt: &impl Abort, alloc: Global, room: u64) -> bool
    requires { room ≤ 2 ^ 30 }
{
    let mut host = empty_host(rt, alloc);
    let mut store = opened(rt, alloc, &mut host, room).expect(rt, "a store");
    drop(host);
    let full = has_no_room(rt, alloc, &mut store);
    drop(store);
    full
}

// A host with a tape that `pick` chooses.
fn host_of(rt: &impl Abort, alloc: Global, tape: Tape, bytes: &[u8], pick: &[u8]) -> MemHost {
    let mut host = empty_host(rt, alloc);
    host.fill(tape, bytes).expect(rt, "memory");
    host.fill(Tape::Pick, pick).expect(rt, "memory");
    host
}

// Whether tape a with these bytes is no store.
fn is_bad(rt: &impl Abort, alloc: Global, bytes: &[u8]) -> bool {
    let mut host = host_of(rt, alloc, Tape::A, bytes, &[1]);
    opened(rt, alloc, &mut host, ROOM).err() == Some(OpenStop::BadStore)
}

fn assert_tapes(rt: &impl Abort, host: &MemHost, length: u64) {
    assert_bytes(rt, "pick", host.tape(Tape::Pick), &[1]);
    assert_number(rt, "length", host.tape(Tape::A).len() as u64, length);
    assert!(rt; host.tape(Tape::B).is_empty());
}

// Commits one account more, and asserts the size of all registers then.
fn commit_one(rt: &impl Abort, alloc: Global, host: &mut MemHost, size: u64) {
    let store = one_more(rt, alloc, host).expect(rt, "no fault");
    assert_number(rt, "size", store.size(), size);
    drop(store);
}

#[test]
fn commits_accounts(rt: HostRuntime) {
    let alloc = rt.alloc();
    let mut host = empty_host(&rt, alloc);
    commit_one(&rt, alloc, &mut host, 67);
    assert_tapes(&rt, &host, 67);
    assert_bytes(&rt, "a", host.tape(Tape::A), &TAPE);

    commit_one(&rt, alloc, &mut host, 93);
    assert_tapes(&rt, &host, 133);
    drop(host);
}

// Asserts that a store has the two registers of one account, with this key first.
fn assert_first(rt: &impl Abort, store: &Store, key: &Key) {
    let rows = match store.blocks() {
        [block] => block.rows(),
        _ => panic!(rt; "there is one block"),
    };
    match rows {
        [first, _] => assert!(rt; first.key == *key),
        _ => panic!(rt; "there are two"),
    }
}

#[test]
fn reads_registers(rt: HostRuntime) {
    let alloc = rt.alloc();
    let mut host = host_of(&rt, alloc, Tape::B, &TAPE, &[2, 1]);
    let store = opened(&rt, alloc, &mut host, ROOM).expect(&rt, "a store");
    assert_number(&rt, "size", store.size(), 67);
    let head = key_of(&rt, alloc, &[0]);
    let found = store.get(&head).expect(&rt, "it is there");
    assert_bytes(
        &rt,
        "the head",
        found,
        &[0, 0, 0, 0, 0, 0, 0, 1, 0, 0, 0, 0, 0, 0, 0, 1],
    );
    assert_first(&rt, &store, &head);
    drop(store);
    drop(host);
}

#[test]
fn full(rt: HostRuntime) {
    let alloc = rt.alloc();
    assert!(rt; is_full(&rt, alloc, 66));
    assert!(rt; !is_full(&rt, alloc, 67));
}

#[test]
fn discarded(rt: HostRuntime) {
    let alloc = rt.alloc();
    let mut host = empty_host(&rt, alloc);
    let store = discard_and_add(&rt, alloc, &mut host);
    assert_number(&rt, "size", store.size(), 67);
    assert_bytes(&rt, "a", host.tape(Tape::A), &TAPE);
    drop(store);
    drop(host);
}

#[test]
fn bad_stores(rt: HostRuntime) {
    let alloc = rt.alloc();
    assert!(rt; is_bad(&rt, alloc, &TAPE[..40]));
    assert!(rt; is_bad(&rt, alloc, &TAPE[..66]));
    assert!(rt; !is_bad(&rt, alloc, &TAPE));
    // records with a register that is refused
    let mut refused = TAPE;
    refused[18] = REFUSED;
    assert!(rt; is_bad(&rt, alloc, &refused));
}

// The record of one account, a closed gate, and what is behind the gate of that record again.
fn closed_tape(rt: &impl Abort, alloc: Global) -> Vec<u8> {
    let mut bytes = Vec::from_slice(alloc, &TAPE[..66]).expect(rt, "memory");
    bytes.push(7).expect(rt, "memory");
    bytes.extend_from_slice(&TAPE[1..]).expect(rt, "memory");
    bytes
}

// Asserts that a tape has the records of two accounts.
fn assert_two(rt: &impl Abort, tape: &[u8]) {
    assert_number(rt, "length", tape.len() as u64, 133);
    assert!(rt; tape.starts_with(&TAPE[..66]));
    assert_same(rt, "the gate", tape.get(66), Some(&1));
    assert_same(rt, "the second account", tape.get(97), Some(&2));
}

#[test]
fn behind_a_closed_gate(rt: HostRuntime) {
    let alloc = rt.alloc();
    let bytes = closed_tape(&rt, alloc);
    let mut host = host_of(&rt, alloc, Tape::A, &bytes, &[1]);
    commit_one(&rt, alloc, &mut host, 93);
    assert_two(&rt, host.tape(Tape::A));
    drop(host);
}

// Whether a commit fails where the disk call of this number does.
fn fails_at(rt: &impl Abort, alloc: Global, call: u64) -> bool {
    let mut host = MemHost::new(alloc, b"", &[], &[], &[call]).expect(rt, "memory");
    one_more(rt, alloc, &mut host).is_err()
}

#[test]
fn disk_calls_fail(rt: HostRuntime) {
    let alloc = rt.alloc();
    // to read `pick`, two lengths, two syncs, and two writes with a sync each
    for call in 0..9u64 {
        assert!(rt; fails_at(&rt, alloc, call), "{call}");
    }
    assert!(rt; !fails_at(&rt, alloc, 9));
}
