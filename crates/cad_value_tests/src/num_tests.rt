// Worked examples. The expected values are those of Python's integers and decimals.
ghost use Rattle.std.specs.Prelude.{◌≡◌};

use crate::telling::{equals, equals_in};
use cad_num::*;
use cad_syntax::{Kind, Num, Text};
use std::alloc::Global;
use std::cmp::Ordering;
use std::process::Abort;

#[derive(Clone, Copy)]
enum Call {
    Add,
    Sub,
    Mul,
    Div,
    Rem,
    Neg,
    Saturated(Op),
}

fn run(call: Call, a: Num, b: Num) -> Result<Num, NumError>
    requires { a.kind ≡ b.kind }
{
    match call {
        Call::Add => add(a, b),
        Call::Sub => sub(a, b),
        Call::Mul => mul(a, b),
        Call::Div => div(a, b),
        Call::Rem => rem(a, b),
        Call::Neg => neg(a),
        Call::Saturated(op) => saturate(op, a, b),
    }
}

/// A number of a kind; of a fixed-point kind scaled.
fn number(rt: &impl Abort, kind: Kind, value: i128) -> Num
    ensures { result.kind ≡ kind }
{
    Num::new(kind, value < 0, value.unsigned_abs()).expect(rt, "in range")
}

fn unsigned(rt: &impl Abort, kind: Kind, value: u128) -> Num
    ensures { result.kind ≡ kind }
{
    Num::new(kind, false, value).expect(rt, "in range")
}

fn outcome(rt: &impl Abort, kind: Kind, value: Result<i128, NumError>) -> Result<Num, NumError> {
    match value {
        Ok(value) => Ok(number(rt, kind, value)),
        Err(error) => Err(error),
    }
}

fn unsigned_outcome(
    rt: &impl Abort,
    kind: Kind,
    value: Result<u128, NumError>,
) -> Result<Num, NumError> {
    match value {
        Ok(value) => Ok(unsigned(rt, kind, value)),
        Err(error) => Err(error),
    }
}

/// A kind, a number of it, an operation, another number, and what comes of it.
type Row = (Kind, i128, Call, i128, Result<i128, NumError>);

/// Asserts what comes of each row.
fn hold(rt: &impl Abort, rows: &[Row]) {
    for (kind, a, operation, b, expected) in rows {
        let a = number(rt, *kind, *a);
        let b = number(rt, *kind, *b);
        let expected = outcome(rt, *kind, *expected);
        equals(rt, &run(*operation, a, b), &expected);
    }
}

/// The same of greater numbers.
type UnsignedRow = (Kind, u128, Call, u128, Result<u128, NumError>);

/// Asserts what comes of each row.
fn hold_unsigned(rt: &impl Abort, rows: &[UnsignedRow]) {
    for (kind, a, operation, b, expected) in rows {
        let a = unsigned(rt, *kind, *a);
        let b = unsigned(rt, *kind, *b);
        let expected = unsigned_outcome(rt, *kind, *expected);
        equals(rt, &run(*operation, a, b), &expected);
    }
}

static SIGNED: [Row; 18] = [
    (Kind::Int8, 127, Call::Add, 1, Err(NumError::Overflow)),
    (Kind::Int8, -128, Call::Sub, 1, Err(NumError::Underflow)),
    (Kind::Int8, -128, Call::Div, -1, Err(NumError::Overflow)),
    (Kind::Int8, -128, Call::Mul, -1, Err(NumError::Overflow)),
    (Kind::Int8, 127, Call::Mul, -2, Err(NumError::Underflow)),
    (Kind::Int8, -128, Call::Rem, -1, Ok(0)),
    (Kind::Int8, -7, Call::Div, 2, Ok(-3)),
    (Kind::Int8, -7, Call::Rem, 2, Ok(-1)),
    (Kind::Int8, 7, Call::Rem, -2, Ok(1)),
    (Kind::Int8, 5, Call::Div, 0, Err(NumError::DivisionByZero)),
    (Kind::Int8, -5, Call::Rem, 0, Err(NumError::DivisionByZero)),
    (Kind::Int16, 32_767, Call::Add, 1, Err(NumError::Overflow)),
    (
        Kind::Int32,
        -2_147_483_648,
        Call::Sub,
        1,
        Err(NumError::Underflow),
    ),
    (
        Kind::Int64,
        9_223_372_036_854_775_807,
        Call::Add,
        1,
        Err(NumError::Overflow),
    ),
    (
        Kind::Int128,
        i128::MAX,
        Call::Add,
        1,
        Err(NumError::Overflow),
    ),
    (Kind::Int, i128::MIN, Call::Sub, 1, Err(NumError::Underflow)),
    (
        Kind::Int,
        18_446_744_073_709_551_616,
        Call::Mul,
        -9_223_372_036_854_775_808,
        Ok(i128::MIN),
    ),
    (
        Kind::Int,
        18_446_744_073_709_551_616,
        Call::Mul,
        9_223_372_036_854_775_808,
        Err(NumError::Overflow),
    ),
];

#[test]
fn signed_kinds(rt: HostRuntime) {
    hold(&rt, &SIGNED);
}

static UNSIGNED: [UnsignedRow; 9] = [
    (Kind::UInt8, 255, Call::Add, 1, Err(NumError::Overflow)),
    (Kind::UInt16, 0, Call::Sub, 1, Err(NumError::Underflow)),
    (
        Kind::UInt32,
        4_294_967_295,
        Call::Add,
        1,
        Err(NumError::Overflow),
    ),
    (Kind::UInt64, 0, Call::Sub, 1, Err(NumError::Underflow)),
    (Kind::UInt, u128::MAX, Call::Add, 1, Err(NumError::Overflow)),
    (
        Kind::UInt128,
        3,
        Call::Sub,
        u128::MAX,
        Err(NumError::Underflow),
    ),
    (
        Kind::UInt,
        18_446_744_073_709_551_616,
        Call::Mul,
        18_446_744_073_709_551_615,
        Ok(340_282_366_920_938_463_444_927_863_358_058_659_840),
    ),
    (
        Kind::UInt,
        18_446_744_073_709_551_616,
        Call::Mul,
        18_446_744_073_709_551_616,
        Err(NumError::Overflow),
    ),
    (
        Kind::UInt128,
        u128::MAX,
        Call::Rem,
        100_000_000_000_000_000_000,
        Ok(63_374_607_431_768_211_455),
    ),
];

#[test]
fn unsigned_kinds(rt: HostRuntime) {
    hold_unsigned(&rt, &UNSIGNED);
}

static WORDS: [UnsignedRow; 7] = [
    (Kind::Word8, 255, Call::Add, 1, Ok(0)),
    (Kind::Word16, 0, Call::Sub, 1, Ok(65_535)),
    (Kind::Word32, 2_147_483_648, Call::Mul, 2, Ok(0)),
    (
        Kind::Word64,
        0,
        Call::Sub,
        1,
        Ok(18_446_744_073_709_551_615),
    ),
    (Kind::Word128, u128::MAX, Call::Add, 2, Ok(1)),
    (Kind::Word128, u128::MAX, Call::Mul, u128::MAX, Ok(1)),
    (Kind::Word8, 7, Call::Div, 0, Err(NumError::DivisionByZero)),
];

#[test]
fn word_kinds(rt: HostRuntime) {
    hold_unsigned(&rt, &WORDS);
}

static PRODUCTS: [Row; 5] = [
    (Kind::UFix64, 1, Call::Mul, 50_000_000, Ok(0)),
    (Kind::Fix64, -1, Call::Mul, 50_000_000, Ok(0)),
    (
        Kind::Fix64,
        -150_000_000,
        Call::Mul,
        150_000_000,
        Ok(-225_000_000),
    ),
    (
        Kind::UFix64,
        18_446_744_073_709_551_615,
        Call::Mul,
        100_000_000,
        Ok(18_446_744_073_709_551_615),
    ),
    (
        Kind::UFix64,
        18_446_744_073_709_551_615,
        Call::Mul,
        100_000_001,
        Err(NumError::Overflow),
    ),
];

#[test]
fn fixed_products(rt: HostRuntime) {
    hold(&rt, &PRODUCTS);
}

static QUOTIENTS: [Row; 6] = [
    (
        Kind::Fix64,
        -100_000_000,
        Call::Div,
        300_000_000,
        Ok(-33_333_333),
    ),
    (
        Kind::Fix64,
        9_223_372_036_854_775_807,
        Call::Div,
        1,
        Err(NumError::Overflow),
    ),
    (
        Kind::Fix64,
        -750_000_000,
        Call::Rem,
        200_000_000,
        Ok(-150_000_000),
    ),
    (Kind::UFix64, 0, Call::Sub, 1, Err(NumError::Underflow)),
    (
        Kind::Fix64,
        -9_223_372_036_854_775_808,
        Call::Div,
        -100_000_000,
        Err(NumError::Overflow),
    ),
    (Kind::Fix64, 1, Call::Div, 0, Err(NumError::DivisionByZero)),
];

#[test]
fn fixed_quotients_and_differences(rt: HostRuntime) {
    hold(&rt, &QUOTIENTS);
}

static SATURATED: [Row; 13] = [
    (Kind::Int8, 127, Call::Saturated(Op::Add), 1, Ok(127)),
    (Kind::Int8, -128, Call::Saturated(Op::Sub), 1, Ok(-128)),
    (Kind::Int8, -128, Call::Saturated(Op::Mul), -1, Ok(127)),
    (Kind::Int8, -128, Call::Saturated(Op::Mul), 2, Ok(-128)),
    (Kind::Int8, -128, Call::Saturated(Op::Div), -1, Ok(127)),
    (
        Kind::Int8,
        1,
        Call::Saturated(Op::Div),
        0,
        Err(NumError::DivisionByZero),
    ),
    (Kind::UInt8, 0, Call::Saturated(Op::Sub), 1, Ok(0)),
    (Kind::UInt8, 200, Call::Saturated(Op::Add), 100, Ok(255)),
    (
        Kind::Fix64,
        9_223_372_036_854_775_807,
        Call::Saturated(Op::Mul),
        200_000_000,
        Ok(9_223_372_036_854_775_807),
    ),
    (
        Kind::Fix64,
        -9_223_372_036_854_775_808,
        Call::Saturated(Op::Div),
        1,
        Ok(-9_223_372_036_854_775_808),
    ),
    (
        Kind::Int,
        i128::MIN,
        Call::Saturated(Op::Mul),
        i128::MIN,
        Ok(i128::MAX),
    ),
    (
        Kind::Int,
        i128::MIN,
        Call::Saturated(Op::Mul),
        2,
        Ok(i128::MIN),
    ),
    (Kind::Int16, 5, Call::Saturated(Op::Add), -7, Ok(-2)),
];

#[test]
fn saturation_stays_in_range(rt: HostRuntime) {
    hold(&rt, &SATURATED);
}

static CONVERTED: [(Kind, i128, Kind, Result<i128, NumError>); 15] = [
    (Kind::Int, 300, Kind::Int8, Err(NumError::Overflow)),
    (Kind::Int, -129, Kind::Int8, Err(NumError::Underflow)),
    (Kind::Int, -1, Kind::UInt, Err(NumError::Underflow)),
    (Kind::Int, 300, Kind::Word8, Ok(44)),
    (Kind::Int, -1, Kind::Word16, Ok(65_535)),
    (Kind::Fix64, -199_999_999, Kind::Int, Ok(-1)),
    (Kind::UFix64, 29_999_999_999, Kind::Word8, Ok(43)),
    (Kind::Int8, -3, Kind::Fix64, Ok(-300_000_000)),
    (Kind::Int8, -3, Kind::UFix64, Err(NumError::Underflow)),
    (
        Kind::Int,
        92_233_720_368,
        Kind::Fix64,
        Ok(9_223_372_036_800_000_000),
    ),
    (
        Kind::Int,
        92_233_720_369,
        Kind::Fix64,
        Err(NumError::Overflow),
    ),
    (Kind::Int, i128::MIN, Kind::Fix64, Err(NumError::Underflow)),
    (Kind::Fix64, -1, Kind::UFix64, Err(NumError::Underflow)),
    (
        Kind::UFix64,
        18_446_744_073_709_551_615,
        Kind::Fix64,
        Err(NumError::Overflow),
    ),
    (Kind::Word8, 255, Kind::Int16, Ok(255)),
];

#[test]
fn conversions(rt: HostRuntime) {
    for (from, a, kind, expected) in CONVERTED.iter() {
        let expected = outcome(&rt, *kind, *expected);
        equals(&rt, &convert(number(&rt, *from, *a), *kind), &expected);
    }
}

fn bits_of_integer(op: BitOp, a: Num, b: Num) -> Option<Num>
    requires { a.kind ≡ b.kind }
{
    if matches!(a.kind, Kind::Fix64 | Kind::UFix64) {
        return None;
    }
    Some(bits(op, a, b))
}

static BITS: [(Kind, i128, BitOp, i128, i128); 8] = [
    (Kind::Int8, -1, BitOp::And, 15, 15),
    (Kind::Int8, -128, BitOp::Or, 127, -1),
    (Kind::Int8, -1, BitOp::Xor, 1, -2),
    (Kind::Int8, -128, BitOp::And, -2, -128),
    (Kind::Int, i128::MIN, BitOp::Xor, i128::MAX, -1),
    (Kind::UInt8, 255, BitOp::Xor, 170, 85),
    (Kind::Word16, 65_295, BitOp::And, 4080, 3840),
    (
        Kind::Int64,
        -9_223_372_036_854_775_808,
        BitOp::Or,
        4_611_686_018_427_387_904,
        -4_611_686_018_427_387_904,
    ),
];

#[test]
fn bits_of_integers(rt: HostRuntime) {
    for (kind, a, op, b, expected) in BITS.iter() {
        let a = number(&rt, *kind, *a);
        let b = number(&rt, *kind, *b);
        let expected = number(&rt, *kind, *expected);
        equals(&rt, &bits_of_integer(*op, a, b), &Some(expected));
    }
}

static NEGATED: [Row; 3] = [
    (Kind::Int8, -128, Call::Neg, 0, Err(NumError::Overflow)),
    (Kind::Int8, 127, Call::Neg, 0, Ok(-127)),
    (Kind::UInt8, 1, Call::Neg, 0, Err(NumError::Underflow)),
];

static ORDERED: [(Kind, i128, i128, Ordering); 3] = [
    (Kind::Int8, -128, 127, Ordering::Less),
    (Kind::Int8, 127, 127, Ordering::Equal),
    (Kind::Int, -1, -2, Ordering::Greater),
];

fn order_holds(rt: &impl Abort) {
    for (kind, a, b, expected) in ORDERED.iter() {
        let a = number(rt, *kind, *a);
        let b = number(rt, *kind, *b);
        equals(rt, &compare(a, b), expected);
    }
}

#[test]
fn signs_and_order(rt: HostRuntime) {
    equals(&rt, &least(Kind::Int8), &number(&rt, Kind::Int8, -128));
    equals(&rt, &greatest(Kind::Int8), &number(&rt, Kind::Int8, 127));
    hold(&rt, &NEGATED);
    order_holds(&rt);
}

fn read(kind: Kind, text: &str) -> Option<Num> {
    if kind == Kind::Address {
        return None;
    }
    read_decimal(kind, text)
}

/// The text of a number; an empty one where it is an address.
fn write(rt: &impl Abort, alloc: Global, n: Num) -> Text {
    if matches!(n.kind, Kind::Address) {
        return Text::new(alloc);
    }
    write_decimal(alloc, n).expect(rt, "memory")
}

/// Asserts that a number is written as the text, and that the text is read as the number.
fn is_written(rt: &impl Abort, alloc: Global, n: Num, text: &str) {
    let written = write(rt, alloc, n);
    equals(rt, &written.as_str(), &text);
    equals(rt, &read(n.kind, text), &Some(n));
}

static WRITTEN: [(Kind, i128, &str); 11] = [
    (Kind::Int8, -128, "-128"),
    (
        Kind::Int,
        i128::MIN,
        "-170141183460469231731687303715884105728",
    ),
    (
        Kind::Int,
        i128::MAX,
        "170141183460469231731687303715884105727",
    ),
    (
        Kind::UInt64,
        18_446_744_073_709_551_615,
        "18446744073709551615",
    ),
    (Kind::Word8, 0, "0"),
    (Kind::Fix64, -1, "-0.00000001"),
    (
        Kind::Fix64,
        -9_223_372_036_854_775_808,
        "-92233720368.54775808",
    ),
    (
        Kind::Fix64,
        9_223_372_036_854_775_807,
        "92233720368.54775807",
    ),
    (
        Kind::UFix64,
        18_446_744_073_709_551_615,
        "184467440737.09551615",
    ),
    (Kind::UFix64, 0, "0.00000000"),
    (Kind::UFix64, 1_050_000_000, "10.50000000"),
];

#[test]
fn numbers_are_written(rt: HostRuntime) {
    for (kind, value, text) in WRITTEN.iter() {
        is_written(&rt, rt.alloc(), number(&rt, *kind, *value), text);
    }
}

#[test]
fn the_greatest_number_is_written(rt: HostRuntime) {
    let most = unsigned(&rt, Kind::UInt, u128::MAX);
    is_written(
        &rt,
        rt.alloc(),
        most,
        "340282366920938463463374607431768211455",
    );
}

static READ: [(Kind, &str, Option<i128>); 28] = [
    (Kind::Int8, "-0", Some(0)),
    (Kind::Int8, "-00128", Some(-128)),
    (
        Kind::UInt8,
        "000000000000000000000000000000000000000000255",
        Some(255),
    ),
    (Kind::Fix64, "-0.0", Some(0)),
    (Kind::Fix64, "-00.00000001", Some(-1)),
    (Kind::UFix64, "10.5", Some(1_050_000_000)),
    (Kind::UFix64, "010.5", Some(1_050_000_000)),
    (Kind::Int8, "", None),
    (Kind::Int8, "-", None),
    (Kind::Int8, "+1", None),
    (Kind::Int8, "--1", None),
    (Kind::Int8, "1 ", None),
    (Kind::Int8, "1.0", None),
    (Kind::Int8, "128", None),
    (Kind::Int8, "-129", None),
    (Kind::UInt8, "-0", None),
    (Kind::Word8, "256", None),
    (Kind::UInt, "340282366920938463463374607431768211456", None),
    (Kind::Int, "-170141183460469231731687303715884105729", None),
    (Kind::Fix64, "1", None),
    (Kind::Fix64, "1.", None),
    (Kind::Fix64, ".1", None),
    (Kind::Fix64, "1.123456789", None),
    (Kind::Fix64, "1.-1", None),
    (Kind::Fix64, "92233720368.54775808", None),
    (Kind::UFix64, "-1.0", None),
    (Kind::UFix64, "184467440737.09551616", None),
    (
        Kind::UFix64,
        "999999999999999999999999999999999999999.0",
        None,
    ),
];

#[test]
fn texts_are_read(rt: HostRuntime) {
    for (kind, text, value) in READ.iter() {
        let wanted = match *value {
            Some(value) => Some(number(&rt, *kind, value)),
            None => None,
        };
        equals_in(&rt, text, &read(*kind, text), &wanted);
    }
}
