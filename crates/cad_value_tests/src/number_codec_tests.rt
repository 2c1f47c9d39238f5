// Numbers as bytes and back, and bytes that no value has.
use crate::telling::{equals, holds};
use cad_number_codec::*;
use cad_syntax::{Bytes, Kind, Num};
use std::alloc::Global;
use std::process::Abort;

const SEVEN: [u8; 19] = [4, 0, 0, 0, 0, 0, 0, 0, 0, 0, 0, 0, 0, 0, 0, 0, 0, 0, 7];

/// The bytes of a number; none where it is an address.
fn written(rt: &impl Abort, alloc: Global, n: Num) -> Bytes {
    if matches!(n.kind, Kind::Address) {
        return Bytes::new(alloc);
    }
    encode(alloc, &Value::Number(n)).expect(rt, "memory")
}

/// Asserts that a number has the bytes, and that these are read as the number.
fn is_number(rt: &impl Abort, alloc: Global, n: Num, bytes: &[u8]) {
    let written = written(rt, alloc, n);
    equals(rt, &written.as_slice(), &bytes);
    let read = decode(alloc, bytes).expect(rt, "a number");
    holds(rt, read == Value::Number(n), "the number is read");
}

#[test]
fn seven(rt: HostRuntime) {
    let n = Num::new(Kind::Int, false, 7).expect(&rt, "7 is an Int");
    is_number(&rt, rt.alloc(), n, &SEVEN);
}

// Kind byte, sign byte, magnitude.
static NUMBERS: [(Kind, u8, bool, u128); 8] = [
    (Kind::Int, 0, true, 1 << 127),
    (Kind::Int, 0, false, (1 << 127) - 1),
    (Kind::Int8, 1, true, 128),
    (
        Kind::UInt128,
        11,
        false,
        0xffff_ffff_ffff_ffff_ffff_ffff_ffff_ffff,
    ),
    (Kind::Word16, 13, false, 65535),
    (Kind::Fix64, 17, true, 1 << 63),
    (Kind::UFix64, 18, false, 0x0102_0304_0506_0708),
    (
        Kind::Int,
        0,
        false,
        0x0102_0304_0506_0708_090a_0b0c_0d0e_0f10,
    ),
];

fn bytes_of(kind: u8, negative: bool, magnitude: u128) -> [u8; 19] {
    let mut bytes = [0; 19];
    bytes[0] = 4;
    bytes[1] = kind;
    if negative {
        bytes[2] = 1;
    }
    let mut rest = magnitude;
    for i in 0..16 {
        bytes[18 - i] = (rest % 256) as u8;
        rest /= 256;
    }
    bytes
}

#[test]
fn both_ways(rt: HostRuntime) {
    for (kind, byte, negative, magnitude) in NUMBERS.iter() {
        let n = Num::new(*kind, *negative, *magnitude).expect(&rt, "in range");
        let expected = bytes_of(*byte, *negative, *magnitude);
        is_number(&rt, rt.alloc(), n, &expected);
    }
}

fn is_damaged(alloc: Global, bytes: &[u8]) -> bool {
    matches!(decode(alloc, bytes), Err(DecodeError::Damaged))
}

#[test]
fn each_front_is_damaged(rt: HostRuntime) {
    for n in 0..SEVEN.len() {
        holds(
            &rt,
            is_damaged(rt.alloc(), &SEVEN[..n]),
            "a front is damaged",
        );
    }
}

// Kind byte, sign byte, magnitude.
static NO_NUMBERS: [(u8, bool, u128); 7] = [
    // no such kind, and the kind of addresses
    (20, false, 1),
    (19, false, 1),
    // negative zero
    (0, true, 0),
    // out of range
    (0, true, (1 << 127) + 1),
    (0, false, 1 << 127),
    (1, false, 128),
    (7, true, 1),
];

fn none_is_a_number(rt: &impl Abort, alloc: Global) {
    for (kind, negative, magnitude) in NO_NUMBERS.iter() {
        let bytes = bytes_of(*kind, *negative, *magnitude);
        holds(rt, is_damaged(alloc, &bytes), "the bytes are damaged");
    }
}

// a byte of no value, a sign that is neither, and a byte too many
static OTHERS: [&[u8]; 3] = [
    &[14, 0, 0, 0, 0, 0, 0, 0, 0, 0, 0, 0, 0, 0, 0, 0, 0, 0, 7],
    &[4, 0, 2, 0, 0, 0, 0, 0, 0, 0, 0, 0, 0, 0, 0, 0, 0, 0, 7],
    &[4, 0, 0, 0, 0, 0, 0, 0, 0, 0, 0, 0, 0, 0, 0, 0, 0, 0, 7, 0],
];

#[test]
fn damaged(rt: HostRuntime) {
    none_is_a_number(&rt, rt.alloc());
    for bytes in OTHERS.iter() {
        holds(&rt, is_damaged(rt.alloc(), bytes), "the bytes are damaged");
    }
}
