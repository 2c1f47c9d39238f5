// Worked examples. The expected values are those of the language's definition and of docs/ERRORS.md.
use crate::telling::equals;
use cad_grammar::BinaryOperator;
use cad_num::{BitOp, Op};
use cad_operators::Operation::{Difference, Product, Quotient, Remainder, Sum};
use cad_operators::*;
use cad_outcomes::RunError::{DivisionByZero, Overflow, Underflow};
use cad_outcomes::{RunError, Stop};
use cad_rows::{Tree, discard_tree};
use cad_syntax::{Address, Kind, Num, Text};
use cad_text_operators::*;
use std::alloc::Global;
use std::process::Abort;

/// A number of a kind; of a fixed-point kind scaled.
fn number(rt: &impl Abort, kind: Kind, value: i128) -> Num {
    Num::new(kind, value < 0, value.unsigned_abs()).expect(rt, "in range")
}

/// The number that a result is.
fn told(given: Result<Tree, Stop>) -> Result<Option<Num>, Stop> {
    match given {
        Ok(tree) => {
            let there = number_in(&tree);
            discard_tree(tree);
            Ok(there)
        }
        Err(stop) => Err(stop),
    }
}

/// An operation on two numbers.
fn calculated(alloc: Global, operation: Operation, a: Num, b: Num) -> Result<Option<Num>, Stop> {
    let x = number_tree(alloc, a);
    let y = number_tree(alloc, b);
    let result = told(on_numbers(alloc, operation, &x, &y));
    discard_tree(x);
    discard_tree(y);
    result
}

/// The number of a kind, or the error, that a row tells.
fn wanted(
    rt: &impl Abort,
    kind: Kind,
    expected: Result<i128, RunError>,
) -> Result<Option<Num>, Stop> {
    match expected {
        Ok(value) => Ok(Some(number(rt, kind, value))),
        Err(error) => Err(Stop::Failed(error)),
    }
}

/// A kind, a number of it, an operation, another number, and what comes of it.
type Row = (Kind, i128, Operation, i128, Result<i128, RunError>);

/// Asserts that the operation of each row gives its number or its error.
fn hold(rt: &impl Abort, alloc: Global, rows: &[Row]) {
    for (kind, a, operation, b, expected) in rows {
        let x = number(rt, *kind, *a);
        let y = number(rt, *kind, *b);
        let result = calculated(alloc, *operation, x, y);
        equals(rt, &result, &wanted(rt, *kind, *expected));
    }
}

static SUMS: [Row; 8] = [
    (Kind::Int8, 100, Sum, 27, Ok(127)),
    (Kind::Int8, 127, Sum, 1, Err(Overflow)),
    (Kind::Int8, -128, Difference, 1, Err(Underflow)),
    (Kind::UInt8, 0, Difference, 1, Err(Underflow)),
    (Kind::UInt64, 18446744073709551615, Sum, 1, Err(Overflow)),
    (Kind::Int, i128::MAX, Sum, 1, Err(Overflow)),
    (Kind::Word8, 255, Sum, 1, Ok(0)),
    (Kind::Word16, 0, Difference, 1, Ok(65535)),
];

#[test]
fn sums_and_differences_stay_in_range(rt: HostRuntime) {
    hold(&rt, rt.alloc(), &SUMS);
}

static PRODUCTS: [Row; 6] = [
    (Kind::Int8, -128, Quotient, -1, Err(Overflow)),
    (Kind::Int, 1, Quotient, 0, Err(DivisionByZero)),
    (Kind::Int, 1, Remainder, 0, Err(DivisionByZero)),
    (Kind::Int, -7, Remainder, 2, Ok(-1)),
    (Kind::UFix64, 150000000, Product, 150000000, Ok(225000000)),
    (Kind::Fix64, -100000000, Quotient, 300000000, Ok(-33333333)),
];

#[test]
fn products_and_quotients_stay_in_range(rt: HostRuntime) {
    hold(&rt, rt.alloc(), &PRODUCTS);
}

static OTHERS: [Row; 7] = [
    (Kind::Int8, 127, Operation::Saturation(Op::Add), 1, Ok(127)),
    (Kind::UInt8, 0, Operation::Saturation(Op::Sub), 1, Ok(0)),
    (
        Kind::Int8,
        -128,
        Operation::Saturation(Op::Mul),
        2,
        Ok(-128),
    ),
    (
        Kind::Int8,
        -128,
        Operation::Saturation(Op::Div),
        -1,
        Ok(127),
    ),
    (Kind::Int8, -1, Operation::Bits(BitOp::And), 15, Ok(15)),
    (Kind::Int16, -256, Operation::Bits(BitOp::Or), 1, Ok(-255)),
    (Kind::UInt8, 255, Operation::Bits(BitOp::Xor), 15, Ok(240)),
];

#[test]
fn saturation_and_bits(rt: HostRuntime) {
    hold(&rt, rt.alloc(), &OTHERS);
}

#[test]
fn numbers_of_two_kinds_are_ill_typed(rt: HostRuntime) {
    let a = number(&rt, Kind::Int8, 1);
    let b = number(&rt, Kind::Int, 1);
    let result = calculated(rt.alloc(), Operation::Sum, a, b);
    equals(&rt, &result, &Err(Stop::IllTyped));
}

/// A number as one of another kind.
fn in_kind(alloc: Global, kind: Kind, a: Num) -> Result<Option<Num>, Stop> {
    let x = number_tree(alloc, a);
    let result = told(converted(alloc, kind, &x));
    discard_tree(x);
    result
}

static CONVERTED: [(Kind, i128, Kind, Result<i128, RunError>); 6] = [
    (Kind::Int, 255, Kind::UInt8, Ok(255)),
    (Kind::Int, 256, Kind::UInt8, Err(Overflow)),
    (Kind::Int, -1, Kind::UInt8, Err(Underflow)),
    (Kind::Int, 256, Kind::Word8, Ok(0)),
    (Kind::Fix64, -150000000, Kind::Int, Ok(-1)),
    (Kind::Int, 2, Kind::UFix64, Ok(200000000)),
];

#[test]
fn numbers_are_converted(rt: HostRuntime) {
    for (from, a, to, expected) in CONVERTED.iter() {
        let result = in_kind(rt.alloc(), *to, number(&rt, *from, *a));
        equals(&rt, &result, &wanted(&rt, *to, *expected));
    }
}

/// The truth that a result is.
fn answered(given: Result<Tree, Stop>) -> Result<Option<bool>, Stop> {
    match given {
        Ok(tree) => {
            let there = truth_in(&tree);
            discard_tree(tree);
            Ok(there)
        }
        Err(stop) => Err(stop),
    }
}

/// A text as a tree.
fn text(rt: &impl Abort, alloc: Global, text: &str) -> Tree {
    text_tree(alloc, Text::from_str(alloc, text).expect(rt, "memory"))
}

/// A comparison of two texts.
fn compared(
    rt: &impl Abort,
    alloc: Global,
    operation: BinaryOperator,
    a: &str,
    b: &str,
) -> Result<Option<bool>, Stop> {
    let x = text(rt, alloc, a);
    let y = text(rt, alloc, b);
    let result = answered(binary(alloc, operation, &x, &y));
    discard_tree(x);
    discard_tree(y);
    result
}

static COMPARED: [(&str, BinaryOperator, &str, Result<Option<bool>, Stop>); 8] = [
    ("e\u{301}", BinaryOperator::Equal, "\u{E9}", Ok(Some(true))),
    ("a", BinaryOperator::NotEqual, "A", Ok(Some(true))),
    ("a", BinaryOperator::Less, "b", Ok(Some(true))),
    ("a", BinaryOperator::Less, "a", Ok(Some(false))),
    ("a", BinaryOperator::LessOrEqual, "a", Ok(Some(true))),
    ("e\u{301}", BinaryOperator::Greater, "f", Ok(Some(true))),
    ("ab", BinaryOperator::GreaterOrEqual, "a", Ok(Some(true))),
    ("a", BinaryOperator::Add, "b", Err(Stop::IllTyped)),
];

#[test]
fn texts_are_compared_by_their_forms(rt: HostRuntime) {
    for (a, operation, b, expected) in COMPARED.iter() {
        let result = compared(&rt, rt.alloc(), *operation, a, b);
        equals(&rt, &result, expected);
    }
}

/// The text that a result is.
fn read(rt: &impl Abort, alloc: Global, given: Result<Tree, Stop>) -> Result<Option<Text>, Stop> {
    match given {
        Ok(tree) => {
            let there = match text_in(&tree) {
                Some(text) => Some(Text::from_str(alloc, text).expect(rt, "memory")),
                None => None,
            };
            discard_tree(tree);
            Ok(there)
        }
        Err(stop) => Err(stop),
    }
}

/// Asserts that a result is the text, or the reason for which there is none.
fn is_text(
    rt: &impl Abort,
    alloc: Global,
    given: Result<Tree, Stop>,
    expected: Result<&str, Stop>,
) {
    let wanted = match expected {
        Ok(text) => Ok(Some(Text::from_str(alloc, text).expect(rt, "memory"))),
        Err(stop) => Err(stop),
    };
    let found = read(rt, alloc, given);
    equals(rt, &found, &wanted);
    drop(found);
    drop(wanted);
}

/// A part of a text.
fn cut(alloc: Global, text: &str, from: Num, up_to: Num) -> Result<Tree, Stop> {
    let x = number_tree(alloc, from);
    let y = number_tree(alloc, up_to);
    let result = text_slice(alloc, text, &x, &y);
    discard_tree(x);
    discard_tree(y);
    result
}

static PARTS: [(&str, i128, i128, Result<&str, Stop>); 6] = [
    ("abc", 1, 3, Ok("bc")),
    ("e\u{301}x", 0, 1, Ok("e\u{301}")),
    ("abc", 3, 3, Ok("")),
    ("abc", 1, 4, Err(Stop::Failed(RunError::SliceOutOfBounds))),
    ("abc", 2, 1, Err(Stop::Failed(RunError::SliceOutOfBounds))),
    ("abc", -1, 2, Err(Stop::Failed(RunError::SliceOutOfBounds))),
];

#[test]
fn texts_are_cut_by_characters(rt: HostRuntime) {
    for (text, from, up_to, expected) in PARTS.iter() {
        let x = number(&rt, Kind::Int, *from);
        let y = number(&rt, Kind::Int, *up_to);
        is_text(&rt, rt.alloc(), cut(rt.alloc(), text, x, y), *expected);
    }
}

/// The digits of the bytes that a result is.
fn digits(alloc: Global, given: Result<Tree, Stop>) -> Result<Tree, Stop> {
    match given {
        Ok(tree) => {
            let digits = text_encoded(alloc, &tree);
            discard_tree(tree);
            digits
        }
        Err(stop) => Err(stop),
    }
}

/// The bytes of a number.
fn bytes_of(alloc: Global, n: Num) -> Result<Tree, Stop> {
    let x = number_tree(alloc, n);
    let result = number_bytes(alloc, &x);
    discard_tree(x);
    result
}

static BYTES: [(Kind, i128, Result<&str, Stop>); 6] = [
    (Kind::Int16, -2, Ok("fffe")),
    (Kind::UInt32, 258, Ok("00000102")),
    (Kind::Word8, 255, Ok("ff")),
    (Kind::Int128, -1, Ok("ffffffffffffffffffffffffffffffff")),
    (Kind::Int, 1, Err(Stop::IllTyped)),
    (Kind::UFix64, 1, Err(Stop::IllTyped)),
];

#[test]
fn numbers_have_bytes(rt: HostRuntime) {
    for (kind, a, expected) in BYTES.iter() {
        let bytes = bytes_of(rt.alloc(), number(&rt, *kind, *a));
        is_text(&rt, rt.alloc(), digits(rt.alloc(), bytes), *expected);
    }
}

static DIGITS: [(&str, Result<&str, Stop>); 4] = [
    ("00aBFf", Ok("00abff")),
    ("", Ok("")),
    ("0", Err(Stop::Failed(RunError::InvalidHex))),
    ("0g", Err(Stop::Failed(RunError::InvalidHex))),
];

#[test]
fn hexadecimal_digits_are_read(rt: HostRuntime) {
    for (text, expected) in DIGITS.iter() {
        let bytes = text_decoded(rt.alloc(), text);
        is_text(&rt, rt.alloc(), digits(rt.alloc(), bytes), *expected);
    }
}

/// The text of a number.
fn text_of(alloc: Global, n: Num) -> Result<Tree, Stop> {
    let x = number_tree(alloc, n);
    let result = number_text(alloc, &x);
    discard_tree(x);
    result
}

static TEXTS: [(Kind, i128, &str); 4] = [
    (Kind::Int, -12, "-12"),
    (Kind::Fix64, -150000000, "-1.50000000"),
    (Kind::UFix64, 1, "0.00000001"),
    (Kind::Address, 5, "5"),
];

#[test]
fn numbers_and_addresses_have_texts(rt: HostRuntime) {
    let alloc = rt.alloc();
    for (kind, a, expected) in TEXTS.iter() {
        let text = text_of(alloc, number(&rt, *kind, *a));
        is_text(&rt, alloc, text, Ok(*expected));
    }
    let text = address_text(alloc, Address(255));
    is_text(&rt, alloc, text, Ok("0x00000000000000ff"));
}
