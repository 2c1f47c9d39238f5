// Registers in memory: their order, their sizes, and what records fold to.
use crate::asserts::{assert_bytes, assert_number};
use cad_accounts::{Block, MapRegisters, Registers, Row, fold_records};
use cad_syntax::{Bytes, Items};
use cad_wire::{Entries, Entry, Key};
use std::alloc::Global;
use std::process::Abort;

// One account: the number of accounts and the next identity, and the account's next controller.
const HEAD: [u8; 16] = [0, 0, 0, 0, 0, 0, 0, 1, 0, 0, 0, 0, 0, 0, 0, 1];

const FIRST: [u8; 9] = [1, 0, 0, 0, 0, 0, 0, 0, 1];

const SECOND: [u8; 9] = [1, 0, 0, 0, 0, 0, 0, 0, 2];

const ONE: [u8; 8] = [0, 0, 0, 0, 0, 0, 0, 1];

// The key of what account 1 stores at x.
const X: [u8; 10] = [4, 0, 0, 0, 0, 0, 0, 0, 1, b'x'];

const SEVEN: [u8; 19] = [4, 0, 0, 0, 0, 0, 0, 0, 0, 0, 0, 0, 0, 0, 0, 0, 0, 0, 7];

fn bytes_of(rt: &impl Abort, alloc: Global, bytes: &[u8]) -> Bytes {
    Items::from_slice(alloc, bytes).expect(rt, "memory")
}

pub(crate) fn key_of(rt: &impl Abort, alloc: Global, bytes: &[u8]) -> Key {
    Key(bytes_of(rt, alloc, bytes))
}

fn put(rt: &impl Abort, alloc: Global, registers: &mut MapRegisters, key: &[u8], value: &[u8]) {
    let key = key_of(rt, alloc, key);
    let value = bytes_of(rt, alloc, value);
    registers.set(key, value).expect(rt, "memory");
}

fn one_account(rt: &impl Abort, alloc: Global) -> MapRegisters {
    let mut registers = MapRegisters::new(alloc);
    put(rt, alloc, &mut registers, &FIRST, &ONE);
    put(rt, alloc, &mut registers, &[0], &HEAD);
    registers
}

// Whether a key is there.
fn has(rt: &impl Abort, alloc: Global, registers: &MapRegisters, key: &[u8]) -> bool {
    let key = key_of(rt, alloc, key);
    registers.get(&key).is_some()
}

fn assert_value(
    rt: &impl Abort,
    alloc: Global,
    registers: &MapRegisters,
    key: &[u8],
    value: &[u8],
) {
    let key = key_of(rt, alloc, key);
    let found = registers.get(&key).expect(rt, "it is there");
    assert_bytes(rt, "the value", found, value);
}

fn assert_size(rt: &impl Abort, registers: &MapRegisters, size: u64) {
    assert_number(rt, "the size", registers.size(), size);
}

fn assert_len(rt: &impl Abort, when: &str, registers: &MapRegisters, len: u64) {
    assert_number(rt, when, registers.len() as u64, len);
}

#[test]
fn sets(rt: HostRuntime) {
    let alloc = rt.alloc();
    let mut registers = one_account(&rt, alloc);
    assert_len(&rt, "the length at first", &registers, 2);
    put(&rt, alloc, &mut registers, &FIRST, &[9]);
    assert_len(&rt, "the length then", &registers, 2);
    assert_value(&rt, alloc, &registers, &FIRST, &[9]);
    assert!(rt; !has(&rt, alloc, &registers, &SECOND));
    drop(registers);
}

// The rows of registers that are one block.
fn rows_of<'a>(rt: &impl Abort, registers: &'a MapRegisters) -> &'a [Row] {
    match registers.blocks() {
        [block] => block.rows(),
        _ => panic!(rt; "there is one block"),
    }
}

// Asserts a row of registers that are one block with so many rows.
fn assert_row(
    rt: &impl Abort,
    registers: &MapRegisters,
    rows: u64,
    i: usize,
    key: &[u8],
    value: &[u8],
) {
    let all = rows_of(rt, registers);
    assert_number(rt, "rows", all.len() as u64, rows);
    let row = all.get(i).expect(rt, "a row");
    assert_bytes(rt, "the key", row.key.0.as_slice(), key);
    assert_bytes(rt, "the value", row.value.as_slice(), value);
}

#[test]
fn in_byte_order(rt: HostRuntime) {
    let registers = one_account(&rt, rt.alloc());
    assert_row(&rt, &registers, 2, 0, &[0], &HEAD);
    assert_row(&rt, &registers, 2, 1, &FIRST, &ONE);
    drop(registers);
}

fn remove(rt: &impl Abort, alloc: Global, registers: &mut MapRegisters, key: &[u8]) {
    let key = key_of(rt, alloc, key);
    let removed = registers.apply(Entry { key, value: None });
    removed.expect(rt, "memory");
}

#[test]
fn removes(rt: HostRuntime) {
    let alloc = rt.alloc();
    let mut registers = one_account(&rt, alloc);
    remove(&rt, alloc, &mut registers, &[0]);
    assert_len(&rt, "the length at first", &registers, 1);
    assert_size(&rt, &registers, 41);
    assert_row(&rt, &registers, 1, 0, &FIRST, &ONE);
    remove(&rt, alloc, &mut registers, &[0]);
    assert_len(&rt, "the length then", &registers, 1);
    drop(registers);
}

fn push_record(
    rt: &impl Abort,
    alloc: Global,
    records: &mut Items<Entries>,
    key: &[u8],
    value: Option<&[u8]>,
) {
    let key = key_of(rt, alloc, key);
    let value = match value {
        None => None,
        Some(bytes) => Some(bytes_of(rt, alloc, bytes)),
    };
    let mut entries = Items::new(alloc);
    entries.push(Entry { key, value }).expect(rt, "memory");
    records.push(entries).expect(rt, "memory");
}

// Asserts that registers have the same rows, in one block each.
fn assert_same_rows(rt: &impl Abort, left: &MapRegisters, right: &MapRegisters) {
    assert!(rt; rows_of(rt, left) == rows_of(rt, right));
}

// Records that come to the registers of one account.
fn five_records(rt: &impl Abort, alloc: Global) -> Items<Entries> {
    let mut records = Items::new(alloc);
    push_record(rt, alloc, &mut records, &FIRST, Some(&[9]));
    push_record(rt, alloc, &mut records, &X, Some(&SEVEN));
    push_record(rt, alloc, &mut records, &[0], Some(&HEAD));
    push_record(rt, alloc, &mut records, &X, None);
    push_record(rt, alloc, &mut records, &FIRST, Some(&ONE));
    records
}

#[test]
fn folds(rt: HostRuntime) {
    let alloc = rt.alloc();
    let records = five_records(&rt, alloc);
    let registers = fold_records(alloc, records).expect(&rt, "memory");
    let same = one_account(&rt, alloc);
    assert_same_rows(&rt, &registers, &same);
    drop(registers);
    drop(same);
}

#[test]
fn sizes(rt: HostRuntime) {
    let alloc = rt.alloc();
    let none = MapRegisters::new(alloc);
    assert_size(&rt, &none, 15);
    drop(none);
    let one = one_account(&rt, alloc);
    assert_size(&rt, &one, 67);
    drop(one);
}

// Sets 2,048 registers with keys of two bytes, in no order.
fn many(rt: &impl Abort, alloc: Global) -> MapRegisters {
    let mut registers = MapRegisters::new(alloc);
    for i in 0..2048u16 {
        let key = i.wrapping_mul(1237) % 2048;
        put(rt, alloc, &mut registers, &key.to_be_bytes(), &[1]);
    }
    registers
}

// Whether the rows of blocks have as keys the numbers from a first on, and the number behind.
fn follows(rows: &[Row], first: u16) -> Option<u16> {
    let mut next = first;
    for row in rows {
        if row.key.0.as_slice() != next.to_be_bytes().as_slice() {
            return None;
        }
        next = next.checked_add(1)?;
    }
    Some(next)
}

// Asserts that blocks of at most 512 rows have as keys the numbers from 0 on, and tells the number behind.
fn count_in_order(rt: &impl Abort, blocks: &[Block]) -> u16 {
    let mut next = 0;
    for block in blocks {
        assert!(rt; block.rows().len() <= 512);
        next = follows(block.rows(), next).expect(rt, "in order");
    }
    next
}

#[test]
fn splits(rt: HostRuntime) {
    let alloc = rt.alloc();
    let registers = many(&rt, alloc);
    assert_len(&rt, "the length", &registers, 2048);
    assert!(rt; registers.blocks().len() > 3);
    let next = count_in_order(&rt, registers.blocks());
    assert_number(&rt, "keys", next as u64, 2048);
    assert!(rt; has(&rt, alloc, &registers, &[4, 210]));
    drop(registers);
}
