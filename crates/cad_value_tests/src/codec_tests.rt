// Bytes of values both ways, and bytes of no value.
use crate::codec_rows::{DAMAGED, LEVELS, TYPE_LEVELS, VALUES};
use crate::telling::{equals, equals_in, holds};
use cad_codec::{decode, decode_type, encode, encode_type};
use cad_syntax::{CadType, Kind, Num};
use cad_text::decode_hex;
use cad_values::{Value, has_no_reference, height, same};
use cad_wire::DecodeError;
use std::alloc::Global;
use std::process::Abort;

/// The bytes of a row's digits.
fn bytes_of(rt: &impl Abort, alloc: Global, digits: &str) -> Vec<u8> {
    decode_hex(alloc, digits).expect(rt, "digits").into_vec()
}

/// The bytes of a row's digits behind its name.
fn bytes_in(rt: &impl Abort, alloc: Global, row: &str) -> Vec<u8> {
    let (_, digits) = row.split_once('~').unwrap_or((row, ""));
    bytes_of(rt, alloc, digits)
}

/// What bytes are read as. None where they are damaged.
fn read(rt: &impl Abort, alloc: Global, bytes: &[u8]) -> Option<Value> {
    match decode(alloc, bytes) {
        Ok(value) => Some(value),
        Err(error) => {
            equals(rt, &error, &DecodeError::Damaged);
            None
        }
    }
}

/// Whether a value is written as the bytes.
fn is_written(rt: &impl Abort, alloc: Global, value: &Value, bytes: &[u8]) -> bool {
    if !has_no_reference(value) {
        return false;
    }
    let again = encode(alloc, value).expect(rt, "memory");
    again.as_slice() == bytes
}

/// Whether bytes are read as a value that is written so again.
fn is_read(rt: &impl Abort, alloc: Global, bytes: &[u8]) -> bool {
    match read(rt, alloc, bytes) {
        Some(value) => {
            let is_same = is_written(rt, alloc, &value, bytes);
            drop(value);
            is_same
        }
        None => false,
    }
}

/// Whether no value has the bytes.
fn is_damaged(rt: &impl Abort, alloc: Global, bytes: &[u8]) -> bool {
    match read(rt, alloc, bytes) {
        Some(value) => {
            drop(value);
            false
        }
        None => true,
    }
}

/// Whether no value has one byte more.
fn more_is_damaged(rt: &impl Abort, alloc: Global, bytes: &[u8]) -> bool {
    let longer = repeated(rt, alloc, bytes, 1, &[0]);
    is_damaged(rt, alloc, longer.as_slice())
}

/// Whether no value has fewer of the bytes, from the front, or one byte more.
fn others_are_damaged(rt: &impl Abort, alloc: Global, bytes: &[u8]) -> bool {
    for n in 0..bytes.len() {
        if !is_damaged(rt, alloc, &bytes[..n]) {
            return false;
        }
    }
    more_is_damaged(rt, alloc, bytes)
}

/// The front so many times, and the end.
fn repeated(rt: &impl Abort, alloc: Global, front: &[u8], count: usize, end: &[u8]) -> Vec<u8> {
    let mut bytes = Vec::new(alloc);
    for _ in 0..count {
        bytes.extend_from_slice(front).expect(rt, "memory");
    }
    bytes.extend_from_slice(end).expect(rt, "memory");
    bytes
}

/// So many levels of a row: what stands before each of them, and what is innermost.
fn levels(rt: &impl Abort, alloc: Global, row: &str, count: usize) -> Vec<u8> {
    let (_, rest) = row.split_once('~').unwrap_or((row, ""));
    let (front, end) = rest.split_once('~').unwrap_or((rest, ""));
    let before = bytes_of(rt, alloc, front);
    let innermost = bytes_of(rt, alloc, end);
    repeated(rt, alloc, before.as_slice(), count, innermost.as_slice())
}

/// How high the value is of so many levels of a row. None where the bytes are damaged.
fn height_of(rt: &impl Abort, alloc: Global, row: &str, count: usize) -> Option<u64> {
    let bytes = levels(rt, alloc, row, count);
    match read(rt, alloc, bytes.as_slice()) {
        Some(value) => {
            let high = height(&value);
            drop(value);
            Some(high)
        }
        None => None,
    }
}

/// What type bytes are read as. None where they are damaged.
fn read_type(rt: &impl Abort, alloc: Global, bytes: &[u8]) -> Option<CadType> {
    match decode_type(alloc, bytes) {
        Ok(t) => Some(t),
        Err(error) => {
            equals(rt, &error, &DecodeError::Damaged);
            None
        }
    }
}

/// Whether a type is written as the bytes.
fn is_type_written(rt: &impl Abort, alloc: Global, t: &CadType, bytes: &[u8]) -> bool {
    let again = encode_type(alloc, t).expect(rt, "memory");
    again.as_slice() == bytes
}

/// How deep the type nests of so many levels of a row, and whether it is written so again. None where the bytes are damaged.
fn nesting_of(rt: &impl Abort, alloc: Global, row: &str, count: usize) -> Option<(u32, bool)> {
    let bytes = levels(rt, alloc, row, count);
    match read_type(rt, alloc, bytes.as_slice()) {
        Some(t) => {
            let nests = t.nesting(2000).unwrap_or(0);
            let is_same = is_type_written(rt, alloc, &t, bytes.as_slice());
            drop(t);
            Some((nests, is_same))
        }
        None => None,
    }
}

/// Asserts that the bytes of a row are read as a value that is written so again, and that no fewer and no more are.
fn is_of_one_value(rt: &impl Abort, alloc: Global, row: &str) {
    let bytes = bytes_in(rt, alloc, row);
    holds(rt, is_read(rt, alloc, bytes.as_slice()), row);
    holds(rt, others_are_damaged(rt, alloc, bytes.as_slice()), row);
}

#[test]
fn values_are_read_and_written_again(rt: HostRuntime) {
    for row in VALUES.lines() {
        is_of_one_value(&rt, rt.alloc(), row);
    }
}

/// Whether the bytes of a row are those of no value.
fn is_of_no_value(rt: &impl Abort, alloc: Global, row: &str) -> bool {
    let bytes = bytes_in(rt, alloc, row);
    is_damaged(rt, alloc, bytes.as_slice())
}

#[test]
fn other_bytes_are_damaged(rt: HostRuntime) {
    for row in DAMAGED.lines() {
        holds(&rt, is_of_no_value(&rt, rt.alloc(), row), row);
    }
}

/// Whether a value is the Int 7.
fn is_seven(rt: &impl Abort, value: &Value) -> bool {
    let seven = Value::Number(Num::new(Kind::Int, false, 7).expect(rt, "7 is an Int"));
    let is_same = same(value, &seven);
    drop(seven);
    is_same
}

#[test]
fn seven(rt: HostRuntime) {
    let bytes = bytes_of(&rt, rt.alloc(), "04000000000000000000000000000000000007");
    let value = decode(rt.alloc(), bytes.as_slice()).expect(&rt, "a value");
    holds(&rt, is_seven(&rt, &value), "the value is 7");
    drop(value);
}

#[test]
fn values_are_256_high_at_most(rt: HostRuntime) {
    for row in LEVELS.lines() {
        let most = height_of(&rt, rt.alloc(), row, 255);
        let more = height_of(&rt, rt.alloc(), row, 256);
        equals_in(&rt, row, &most, &Some(256));
        equals_in(&rt, row, &more, &None);
    }
}

#[test]
fn types_nest_1024_deep_at_most(rt: HostRuntime) {
    for row in TYPE_LEVELS.lines() {
        let most = nesting_of(&rt, rt.alloc(), row, 1024);
        let more = nesting_of(&rt, rt.alloc(), row, 1025);
        equals_in(&rt, row, &most, &Some((1024, true)));
        equals_in(&rt, row, &more, &None);
    }
}
