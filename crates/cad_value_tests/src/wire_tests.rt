// Fields and a record's body as bytes and back, and bytes that are none.
use crate::telling::{equals, holds};
use cad_syntax::{Bytes, Items};
use cad_wire::*;
use std::alloc::Global;
use std::process::Abort;

// The body of the record of one account: the count of accounts and the next identity, and the account's next number.
const BODY: [u8; 57] = [
    1, 0, 0, 0, 2, 0, 0, 0, 1, 0, 1, 0, 0, 0, 16, 0, 0, 0, 0, 0, 0, 0, 1, 0, 0, 0, 0, 0, 0, 0, 1,
    0, 0, 0, 9, 1, 0, 0, 0, 0, 0, 0, 0, 1, 1, 0, 0, 0, 8, 0, 0, 0, 0, 0, 0, 0, 1,
];

fn bytes_of(rt: &impl Abort, alloc: Global, bytes: &[u8]) -> Bytes {
    Items::from_slice(alloc, bytes).expect(rt, "memory")
}

fn entry(rt: &impl Abort, alloc: Global, key: &[u8], value: &[u8]) -> Entry {
    Entry {
        key: Key(bytes_of(rt, alloc, key)),
        value: Some(bytes_of(rt, alloc, value)),
    }
}

fn one_account(rt: &impl Abort, alloc: Global) -> Entries {
    let mut entries = Items::new(alloc);
    entries
        .push(entry(rt, alloc, &[0], &BODY[15..31]))
        .expect(rt, "memory");
    entries
        .push(entry(rt, alloc, &BODY[35..44], &BODY[49..]))
        .expect(rt, "memory");
    entries
}

/// Asserts that entries are written as the body.
fn are_written(rt: &impl Abort, alloc: Global, entries: &[Entry], body: &[u8]) {
    let written = write_entries(alloc, entries).expect(rt, "memory");
    equals(rt, &written.as_slice(), &body);
}

#[test]
fn writes_and_reads_one_account(rt: HostRuntime) {
    let entries = one_account(&rt, rt.alloc());
    are_written(&rt, rt.alloc(), entries.as_slice(), &BODY);
    let read = read_entries(rt.alloc(), &BODY).expect(&rt, "a body");
    holds(&rt, read == entries, "the entries are read");
}

/// Asserts that an entry is of the key 5, 6, and that it is removed.
fn is_removed(rt: &impl Abort, entry: &Entry) {
    equals(rt, &entry.key.0.as_slice(), &[5, 6].as_slice());
    holds(rt, entry.value.is_none(), "there is no value");
}

static REMOVED: [u8; 12] = [1, 0, 0, 0, 1, 0, 0, 0, 2, 5, 6, 0];

#[test]
fn removed(rt: HostRuntime) {
    let read = read_entries(rt.alloc(), &REMOVED).expect(&rt, "a body");
    equals(&rt, &read.len(), &1);
    for entry in read.as_slice() {
        is_removed(&rt, entry);
    }
    are_written(&rt, rt.alloc(), read.as_slice(), &REMOVED);
}

fn is_damaged(alloc: Global, bytes: &[u8]) -> bool {
    matches!(read_entries(alloc, bytes), Err(DecodeError::Damaged))
}

#[test]
fn each_front_is_damaged(rt: HostRuntime) {
    for n in 0..BODY.len() {
        holds(
            &rt,
            is_damaged(rt.alloc(), &BODY[..n]),
            "a front is damaged",
        );
    }
}

static DAMAGED: [&[u8]; 8] = [
    // another format
    &[0, 0, 0, 0, 0],
    &[2, 0, 0, 0, 0],
    // a byte too many
    &[1, 0, 0, 0, 0, 0],
    // neither removed nor present
    &[1, 0, 0, 0, 1, 0, 0, 0, 1, 7, 2],
    // a key twice
    &[1, 0, 0, 0, 2, 0, 0, 0, 1, 7, 0, 0, 0, 0, 1, 7, 0],
    // keys out of order
    &[1, 0, 0, 0, 2, 0, 0, 0, 1, 8, 0, 0, 0, 0, 1, 7, 0],
    &[1, 0, 0, 0, 2, 0, 0, 0, 2, 7, 0, 0, 0, 0, 0, 1, 7, 0],
    // a length past the end
    &[1, 0, 0, 0, 1, 255, 255, 255, 255, 7, 0],
];

#[test]
fn damaged(rt: HostRuntime) {
    for body in DAMAGED.iter() {
        holds(&rt, is_damaged(rt.alloc(), body), "the body is damaged");
    }
}

static IN_ORDER: [&[u8]; 3] = [
    &[1, 0, 0, 0, 0],
    &[1, 0, 0, 0, 2, 0, 0, 0, 0, 0, 0, 0, 0, 1, 0, 0],
    &[1, 0, 0, 0, 2, 0, 0, 0, 1, 7, 0, 0, 0, 0, 2, 7, 0, 0],
];

#[test]
fn in_order(rt: HostRuntime) {
    for body in IN_ORDER.iter() {
        let read = read_entries(rt.alloc(), body).expect(&rt, "a body");
        drop(read);
    }
}

/// A field of each sort.
static FIELDS: [u8; 19] = [
    9, 1, 2, 3, 4, 5, 6, 7, 8, 10, 11, 12, 13, 0, 0, 0, 2, b'h', b'i',
];

fn fields_are_written(rt: &impl Abort, alloc: Global) {
    let mut writer = Writer::new(alloc);
    writer.byte(9).expect(rt, "memory");
    writer.number(0x0102_0304_0506_0708).expect(rt, "memory");
    writer.length(0x0a0b_0c0d).expect(rt, "memory");
    writer.bytes(b"hi").expect(rt, "memory");
    let written = writer.finish();
    equals(rt, &written.as_slice(), &FIELDS.as_slice());
}

/// Asserts that the first three fields are read.
fn front_is_read(rt: &impl Abort, reader: &mut Reader<'_>) {
    equals(rt, &reader.byte(), &Ok(9));
    equals(rt, &reader.number(), &Ok(0x0102_0304_0506_0708));
    equals(rt, &reader.length(), &Ok(0x0a0b_0c0d));
}

/// Asserts that the last field is read.
fn end_is_read(rt: &impl Abort, reader: &mut Reader<'_>) {
    equals(rt, &reader.number(), &Err(Short));
    let bytes = reader.bytes().expect(rt, "bytes");
    equals(rt, &bytes, &b"hi".as_slice());
    equals(rt, &reader.left(), &0);
    equals(rt, &reader.byte(), &Err(Short));
}

#[test]
fn fields(rt: HostRuntime) {
    fields_are_written(&rt, rt.alloc());
    let mut reader = Reader::new(&FIELDS);
    front_is_read(&rt, &mut reader);
    end_is_read(&rt, &mut reader);
}

#[test]
fn stays_where_short(rt: HostRuntime) {
    let mut reader = Reader::new(&[0, 0, 0, 3, 1, 2]);
    holds(&rt, reader.bytes().is_err(), "the bytes are short");
    equals(&rt, &reader.left(), &6);
    equals(&rt, &reader.length(), &Ok(3));
    holds(&rt, reader.bytes().is_err(), "the bytes are short");
    holds(&rt, reader.length().is_err(), "the length is short");
    equals(&rt, &reader.left(), &2);
}
