// Records on a tape of bytes: whole ones, each front of one, damaged ones, and disk calls that fail.
ghost use Rattle.std.specs.Prelude.{[]};
ghost use Rattle.cad_host.specs.Faults.{IsCaused};

use crate::asserts::{assert_bytes, assert_number, assert_same};
use cad_host::{Failed, Host, Tape};
use cad_syntax::Items;
use cad_tape::{Records, ScanStop, append, checkpoint, frame, scan};
use cad_wire::{Entries, read_entries};
use std::alloc::{AllocError, Global};
use std::process::Abort;

// The body of the record of one account, and the tape with that record alone.
const BODY: [u8; 57] = [
    1, 0, 0, 0, 2, 0, 0, 0, 1, 0, 1, 0, 0, 0, 16, 0, 0, 0, 0, 0, 0, 0, 1, 0, 0, 0, 0, 0, 0, 0, 1,
    0, 0, 0, 9, 1, 0, 0, 0, 0, 0, 0, 0, 1, 1, 0, 0, 0, 8, 0, 0, 0, 0, 0, 0, 0, 1,
];

const TAPE: [u8; 67] = [
    1, 0, 0, 0, 0, 0, 0, 0, 57, 1, 0, 0, 0, 2, 0, 0, 0, 1, 0, 1, 0, 0, 0, 16, 0, 0, 0, 0, 0, 0, 0,
    1, 0, 0, 0, 0, 0, 0, 0, 1, 0, 0, 0, 9, 1, 0, 0, 0, 0, 0, 0, 0, 1, 1, 0, 0, 0, 8, 0, 0, 0, 0, 0,
    0, 0, 1, 0,
];

// A host that tells nothing: it reads at most `most` bytes a call, and fails from the disk call of number `calls` on.
#[derive(Drop)]
struct Tapes {
    a: Vec<u8>,
    b: Vec<u8>,
    pick: Vec<u8>,
    most: usize,
    calls: u64,
    bytes_read: u64,
    faults: u64,
}

fn make_tapes(rt: &impl Abort, alloc: Global, a: &[u8], most: usize, calls: u64) -> Tapes {
    Tapes {
        a: Vec::from_slice(alloc, a).expect(rt, "memory"),
        b: Vec::new(alloc),
        pick: Vec::new(alloc),
        most,
        calls,
        bytes_read: 0,
        faults: 0,
    }
}

impl Tapes {
    fn tape(&self, tape: Tape) -> &Vec<u8> {
        match tape {
            Tape::A => &self.a,
            Tape::B => &self.b,
            Tape::Pick => &self.pick,
        }
    }

    fn call(&mut self) -> Result<(), Failed>
        ensures { IsCaused result self.old.faults self.new.faults }
    {
        if self.calls == 0 {
            self.faults = self.faults.saturating_add(1);
            return Err(Failed);
        }
        self.calls -= 1;
        Ok(())
    }
}

fn put_bytes(tape: &mut Vec<u8>, at: u64, bytes: &[u8]) -> Result<(), AllocError> {
    for (i, byte) in bytes.iter().enumerate() {
        let place = (at as usize).saturating_add(i);
        if place < tape.len() {
            tape[place] = *byte;
        } else {
            tape.push(*byte)?;
        }
    }
    Ok(())
}

impl Host for Tapes {
    ghost tells = { ⊥ };

    ghost trace = { λ _. [] };

    ghost left = { λ _. [] };

    ghost input_faults = { λ _. 0 };

    ghost output_faults = { λ _. 0 };

    ghost disk_faults = { λ tapes. tapes.faults };

    fn take(&mut self, _into: &mut [u8]) -> Result<usize, Failed> {
        Ok(0)
    }

    fn put(&mut self, _bytes: &[u8]) -> Result<(), Failed> {
        Ok(())
    }

    fn length(&mut self, tape: Tape) -> Result<u64, Failed> {
        self.call()?;
        Ok(self.tape(tape).len() as u64)
    }

    fn read(&mut self, tape: Tape, at: u64, into: &mut [u8]) -> Result<usize, Failed> {
        self.call()?;
        let bytes = self.tape(tape);
        let from = bytes.len().min(at as usize);
        let count = (bytes.len() - from).min(into.len()).min(self.most);
        for i in 0..count {
            into[i] = bytes[from + i];
        }
        self.bytes_read = self.bytes_read.saturating_add(count as u64);
        Ok(count)
    }

    fn write(&mut self, tape: Tape, at: u64, bytes: &[u8]) -> Result<(), Failed> {
        self.call()?;
        let written = match tape {
            Tape::A => put_bytes(&mut self.a, at, bytes),
            Tape::B => put_bytes(&mut self.b, at, bytes),
            Tape::Pick => put_bytes(&mut self.pick, at, bytes),
        };
        if written.is_err() {
            self.faults = self.faults.saturating_add(1);
            return Err(Failed);
        }
        Ok(())
    }

    fn sync(&mut self, _tape: Tape) -> Result<(), Failed> {
        self.call()
    }

    ghost settled = { λ _ tell. absurd tell };
}

// Why tape a can't be read; None where it can.
fn stop_of(alloc: Global, host: &mut Tapes) -> Option<ScanStop> {
    scan(alloc, host, Tape::A).err()
}

fn is_damaged(rt: &impl Abort, alloc: Global, tape: &[u8]) -> bool {
    let mut host = make_tapes(rt, alloc, tape, 1000, 1000);
    stop_of(alloc, &mut host) == Some(ScanStop::Damaged)
}

// The records of tape a, which can be read.
fn read_a(rt: &impl Abort, alloc: Global, host: &mut Tapes) -> Records {
    scan(alloc, host, Tape::A).expect(rt, "records")
}

#[test]
fn frames(rt: HostRuntime) {
    let bytes = frame(rt.alloc(), &BODY).expect(&rt, "memory");
    assert_bytes(&rt, "a frame", bytes.as_slice(), &TAPE);
}

// Asserts that records are that of one account alone.
fn assert_one_account(rt: &impl Abort, alloc: Global, records: &Items<Entries>) {
    let mut expected = Items::new(alloc);
    let entries = read_entries(alloc, &BODY).expect(rt, "a body");
    expected.push(entries).expect(rt, "memory");
    assert!(rt; *records == expected);
}

// Asserts what is read of one account, at most so many bytes a call.
fn assert_reads_all(rt: &impl Abort, alloc: Global, most: usize) {
    let mut host = make_tapes(rt, alloc, &TAPE, most, 1000);
    let read = read_a(rt, alloc, &mut host);
    assert_number(rt, "ending", read.ending, 66);
    assert_number(rt, "bytes read", host.bytes_read, 67);
    assert_one_account(rt, alloc, &read.records);
}

#[test]
fn reads_one_account(rt: HostRuntime) {
    for most in [1usize, 3, 9, 66, 67, 1000] {
        assert_reads_all(&rt, rt.alloc(), most);
    }
}

// Asserts that a tape with these bytes has no records.
fn assert_none(rt: &impl Abort, alloc: Global, tape: &[u8]) {
    let mut host = make_tapes(rt, alloc, tape, 1000, 1000);
    assert_read(rt, alloc, &mut host, 0, 0);
}

#[test]
fn each_front(rt: HostRuntime) {
    let alloc = rt.alloc();
    assert_none(&rt, alloc, &[]);
    for n in 1..TAPE.len() {
        assert!(rt; is_damaged(&rt, alloc, &TAPE[..n]), "{n}");
    }
}

#[test]
fn damaged(rt: HostRuntime) {
    let damaged: [&[u8]; 6] = [
        // another format
        &[1, 0, 0, 0, 0, 0, 0, 0, 5, 2, 0, 0, 0, 0, 0],
        // a byte too many in the body
        &[1, 0, 0, 0, 0, 0, 0, 0, 6, 1, 0, 0, 0, 0, 0, 0],
        // a key twice
        &[
            1, 0, 0, 0, 0, 0, 0, 0, 17, 1, 0, 0, 0, 2, 0, 0, 0, 1, 7, 0, 0, 0, 0, 1, 7, 0, 0,
        ],
        // keys out of order
        &[
            1, 0, 0, 0, 0, 0, 0, 0, 17, 1, 0, 0, 0, 2, 0, 0, 0, 1, 8, 0, 0, 0, 0, 1, 7, 0, 0,
        ],
        // lengths past the end
        &[1, 255, 255, 255, 255, 255, 255, 255, 255, 1, 0, 0, 0, 0, 0],
        &[1, 0, 0, 0, 0, 0, 0, 0, 7, 1, 0, 0, 0, 0, 0],
    ];
    for tape in damaged {
        assert!(rt; is_damaged(&rt, rt.alloc(), tape));
    }
}

#[test]
fn closed_at_once(rt: HostRuntime) {
    for gate in [0u8, 2, 255] {
        assert_none(&rt, rt.alloc(), &[gate, 1, 2, 3]);
    }
}

// Asserts that a call fails where so many disk calls don't.
fn assert_fails(rt: &impl Abort, alloc: Global, calls: u64) {
    let mut host = make_tapes(rt, alloc, &TAPE, 1, calls);
    let why = stop_of(alloc, &mut host);
    assert_same(rt, "why", why, Some(ScanStop::Failed));
    assert_number(rt, "faults", host.faults, 1);
}

#[test]
fn disk_calls_fail(rt: HostRuntime) {
    let alloc = rt.alloc();
    // the length, and then 67 reads of a byte
    for calls in 0..68 {
        assert_fails(&rt, alloc, calls);
    }
    let mut host = make_tapes(&rt, alloc, &TAPE, 1, 68);
    assert_same(&rt, "why", stop_of(alloc, &mut host), None);
}

// Writes the record of one account, the first of tape a, and tells the place behind it.
fn write_first(rt: &impl Abort, alloc: Global, host: &mut Tapes) -> u64 {
    let Ok(record) = frame(alloc, &BODY) else {
        panic!(rt; "memory");
    };
    checkpoint(host, Tape::A, record.as_slice()).expect(rt, "no fault")
}

// Writes it again, at a place of tape a.
fn write_again(rt: &impl Abort, alloc: Global, host: &mut Tapes, at: u64) -> u64 {
    let Ok(record) = frame(alloc, &BODY) else {
        panic!(rt; "memory");
    };
    assert!(rt; !record.is_empty());
    append(host, Tape::A, at, &record.as_slice()[1..]).expect(rt, "no fault")
}

// Asserts where the records of tape a end, and how many they are.
fn assert_read(rt: &impl Abort, alloc: Global, host: &mut Tapes, records: u64, ending: u64) {
    let read = read_a(rt, alloc, host);
    assert_number(rt, "records", read.records.len() as u64, records);
    assert_number(rt, "ending", read.ending, ending);
}

#[test]
fn writes_and_reads(rt: HostRuntime) {
    let alloc = rt.alloc();
    let mut host = make_tapes(&rt, alloc, &[], 1000, 1000);
    let next = write_first(&rt, alloc, &mut host);
    assert_number(&rt, "next", next, 66);
    assert_bytes(&rt, "a", host.a.as_slice(), &TAPE);
    assert_bytes(&rt, "pick", host.pick.as_slice(), &[1]);
    let next = write_again(&rt, alloc, &mut host, next);
    assert_number(&rt, "next", next, 132);
    assert_number(&rt, "length", host.a.len() as u64, 133);
    assert_read(&rt, alloc, &mut host, 2, 132);
    drop(host);
}
