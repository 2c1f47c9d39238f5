// Keys come, are found and go. The expected places are counted by hand; which texts are one is Unicode's.
ghost use Rattle.std.specs.Prelude.{◌<◌};

use crate::telling::equals;
use cad_keys::Keys;
use cad_syntax::{Address, Basic, CadType, Domain, Kind, Name, Num, Path, Text, TypeId};
use cad_values::{CompositeField, Value};
use std::alloc::Global;
use std::process::Abort;

/// How many keys a test has.
const COUNT: u64 = 100;

/// What the keys of a test are.
#[derive(Clone, Copy, Debug, PartialEq, Eq)]
enum Sort {
    Whole,
    Fixed,
    Ascii,
    Accented,
    Character,
    Address,
    Path,
    Case,
}

/// A text with a number behind letters.
fn numbered(rt: &impl Abort, alloc: Global, letters: &str, i: u64) -> Text {
    Text::from_string(format!(in alloc; "{letters}{i}").expect(rt, "memory"))
}

/// A number of a kind; of a fixed-point kind scaled.
fn number(rt: &impl Abort, kind: Kind, magnitude: u64) -> Value {
    Value::Number(Num::new(kind, false, magnitude as u128).expect(rt, "in range"))
}

/// A text as a key.
fn text(rt: &impl Abort, alloc: Global, text: &str) -> Value {
    Value::String(Text::from_str(alloc, text).expect(rt, "memory"))
}

/// One of the ideographs from U+4E00 on.
fn ideograph(rt: &impl Abort, alloc: Global, i: u64) -> Value
    requires { i < 1000 }
{
    let mut text = Text::new(alloc);
    let character = char::from_u32(0x4E00 + i as u32).expect(rt, "a character");
    text.push(character).expect(rt, "memory");
    Value::Character(text)
}

/// A field that a case has.
fn raw_value(rt: &impl Abort, alloc: Global, i: u64) -> CompositeField {
    let name = Name(Text::from_str(alloc, "rawValue").expect(rt, "memory"));
    let value = number(rt, Kind::UInt8, i);
    CompositeField { name, value }
}

/// The case of an enum that has this number.
fn case(rt: &impl Abort, alloc: Global, i: u64) -> Value {
    let id = TypeId::from_text(alloc, "A.0000000000000001.C.E").expect(rt, "memory");
    let id = id.expect(rt, "an identifier");
    let mut fields = Vec::new(alloc);
    fields.push(raw_value(rt, alloc, i)).expect(rt, "memory");
    Value::Composite {
        id,
        identity: 0,
        fields,
    }
}

/// The key of a sort that has this number.
fn key(rt: &impl Abort, alloc: Global, sort: Sort, i: u64) -> Value
    requires { i < 1000 }
{
    match sort {
        Sort::Whole => number(rt, Kind::Int, i),
        Sort::Fixed => number(rt, Kind::UFix64, 100_000_000 * i),
        Sort::Ascii => Value::String(numbered(rt, alloc, "key ", i)),
        Sort::Accented => Value::String(numbered(rt, alloc, "caf\u{E9} ", i)),
        Sort::Character => ideograph(rt, alloc, i),
        Sort::Address => Value::Address(Address(i)),
        Sort::Path => Value::Path(Path {
            domain: Domain::Public,
            identifier: Name(numbered(rt, alloc, "path", i)),
        }),
        Sort::Case => case(rt, alloc, i),
    }
}

/// Where a key stands. The key is let go.
fn place(rt: &impl Abort, alloc: Global, keys: &Keys, key: Value) -> Option<usize> {
    let found = keys.position(alloc, &key).expect(rt, "memory");
    drop(key);
    found
}

/// Asserts where a key stands, which is let go.
fn is_at(rt: &impl Abort, alloc: Global, keys: &Keys, key: Value, expected: Option<usize>) {
    equals(rt, &place(rt, alloc, keys, key), &expected);
}

/// Asserts where the key of a sort stands that has this number.
fn stands(rt: &impl Abort, alloc: Global, keys: &Keys, sort: Sort, i: u64, expected: Option<usize>)
    requires { i < 1000 }
{
    let found = place(rt, alloc, keys, key(rt, alloc, sort, i));
    let count = keys.len();
    assert_eq!(rt; found, expected, "{sort:?} {i} of {count}");
}

/// Lets the key at a place go.
fn leave(keys: &mut Keys, place: usize) {
    if place < keys.len() {
        drop(keys.remove(place));
    }
}

/// The keys of a sort with the numbers from 0 on.
fn filled(rt: &impl Abort, alloc: Global, sort: Sort) -> Keys {
    let mut keys = Keys::new(alloc);
    for i in 0..COUNT {
        keys.push(key(rt, alloc, sort, i)).expect(rt, "memory");
    }
    keys
}

/// Asserts where keys of a sort stand, while there are more and more of them.
fn come(rt: &impl Abort, alloc: Global, sort: Sort) {
    let mut keys = Keys::new(alloc);
    for i in 0..COUNT {
        stands(rt, alloc, &keys, sort, i, None);
        keys.push(key(rt, alloc, sort, i)).expect(rt, "memory");
        stands(rt, alloc, &keys, sort, 0, Some(0));
        stands(rt, alloc, &keys, sort, i, Some(i as usize));
    }
    equals(rt, &keys.len(), &100);
    drop(keys);
}

/// Lets the keys of even numbers go, the last first, and asserts where the others stand.
fn half_go(rt: &impl Abort, alloc: Global, keys: &mut Keys, sort: Sort) {
    for i in 0..50u64 {
        leave(keys, 98 - 2 * i as usize);
    }
    equals(rt, &keys.len(), &50);
    for i in 0..50u64 {
        stands(rt, alloc, keys, sort, 2 * i, None);
        stands(rt, alloc, keys, sort, 2 * i + 1, Some(i as usize));
    }
}

/// Asserts where keys of a sort stand when those of even numbers went, the last first, and one came again.
fn go(rt: &impl Abort, alloc: Global, sort: Sort) {
    let mut keys = filled(rt, alloc, sort);
    half_go(rt, alloc, &mut keys, sort);
    keys.push(key(rt, alloc, sort, 4)).expect(rt, "memory");
    stands(rt, alloc, &keys, sort, 4, Some(50));
    leave(&mut keys, 0);
    stands(rt, alloc, &keys, sort, 1, None);
    stands(rt, alloc, &keys, sort, 3, Some(0));
    stands(rt, alloc, &keys, sort, 4, Some(49));
    drop(keys);
}

/// Asserts it of all sorts of keys.
fn hold(rt: &impl Abort, alloc: Global, sort: Sort) {
    come(rt, alloc, sort);
    go(rt, alloc, sort);
}

#[test]
fn keys_of_each_kind_are_found(rt: HostRuntime) {
    let sorts = [
        Sort::Whole,
        Sort::Fixed,
        Sort::Ascii,
        Sort::Accented,
        Sort::Character,
        Sort::Address,
        Sort::Path,
        Sort::Case,
    ];
    for sort in sorts {
        hold(&rt, rt.alloc(), sort);
    }
}

/// The numbers from 0 on, and behind them a truth, a type, a truth and a type.
fn mixed(rt: &impl Abort, alloc: Global) -> Keys {
    let mut keys = filled(rt, alloc, Sort::Whole);
    keys.push(Value::Bool(false)).expect(rt, "memory");
    keys.push(meta(Basic::Bool)).expect(rt, "memory");
    keys.push(Value::Bool(true)).expect(rt, "memory");
    keys.push(meta(Basic::String)).expect(rt, "memory");
    keys
}

/// A basic type as a key.
fn meta(basic: Basic) -> Value {
    Value::Meta(CadType::Basic(basic))
}

#[test]
fn truths_and_types_are_found_among_many(rt: HostRuntime) {
    let alloc = rt.alloc();
    let keys = mixed(&rt, alloc);
    is_at(&rt, alloc, &keys, Value::Bool(false), Some(100));
    is_at(&rt, alloc, &keys, Value::Bool(true), Some(102));
    is_at(&rt, alloc, &keys, meta(Basic::Bool), Some(101));
    is_at(&rt, alloc, &keys, meta(Basic::String), Some(103));
    is_at(&rt, alloc, &keys, meta(Basic::Void), None);
    is_at(&rt, alloc, &keys, number(&rt, Kind::Int8, 3), None);
    is_at(&rt, alloc, &keys, Value::Nil, None);
    drop(keys);
}

#[test]
fn texts_are_found_by_their_normal_forms(rt: HostRuntime) {
    let alloc = rt.alloc();
    let mut keys = filled(&rt, alloc, Sort::Accented);
    keys.push(text(&rt, alloc, "K")).expect(&rt, "memory");
    is_at(
        &rt,
        alloc,
        &keys,
        text(&rt, alloc, "cafe\u{301} 7"),
        Some(7),
    );
    is_at(&rt, alloc, &keys, text(&rt, alloc, "cafe 7"), None);
    is_at(&rt, alloc, &keys, text(&rt, alloc, "\u{212A}"), Some(100));
    is_at(&rt, alloc, &keys, text(&rt, alloc, "k"), None);
    drop(keys);
}

/// Keys of which each stands ten times: the numbers from 0 to 9, over and over.
fn repeated(rt: &impl Abort, alloc: Global) -> Keys {
    let mut rows = Vec::new(alloc);
    for i in 0..COUNT {
        rows.push(number(rt, Kind::Int, i % 10))
            .expect(rt, "memory");
    }
    Keys::from_vec(alloc, rows).expect(rt, "memory")
}

#[test]
fn of_keys_that_are_the_same_the_first_is_found(rt: HostRuntime) {
    let alloc = rt.alloc();
    let mut keys = repeated(&rt, alloc);
    is_at(&rt, alloc, &keys, number(&rt, Kind::Int, 7), Some(7));
    leave(&mut keys, 7);
    is_at(&rt, alloc, &keys, number(&rt, Kind::Int, 7), Some(16));
    is_at(&rt, alloc, &keys, number(&rt, Kind::Int, 8), Some(7));
    is_at(&rt, alloc, &keys, number(&rt, Kind::Int, 10), None);
    drop(keys);
}
