// What is told of values that are read from bytes.
use crate::told_rows::{TOLD, UNTOLD};
use cad_codec::decode;
use cad_json_export::export;
use cad_syntax::{Address, Name, Names, Text, TypeId, TypeIds, Types};
use cad_text::decode_hex;
use cad_types::{Declared, DeclaredTypes, Sort, is_closed};
use cad_values::Value;
use std::alloc::Global;
use std::process::Abort;

fn name(rt: &impl Abort, alloc: Global, text: &str) -> Name {
    Name(Text::from_str(alloc, text).expect(rt, "memory"))
}

/// A type of the contract C at 0x1. What is told of a value doesn't look at the types of fields.
fn declared(rt: &impl Abort, alloc: Global, sort: Sort, text: &str) -> Declared {
    let mut names = Names::new(alloc);
    names.push(name(rt, alloc, "C")).expect(rt, "memory");
    names.push(name(rt, alloc, text)).expect(rt, "memory");
    Declared {
        id: TypeId {
            address: Address(1),
            names,
        },
        sort,
        fields: Types::new(alloc),
        interfaces: TypeIds::new(alloc),
    }
}

/// A type of each sort, as they are looked up.
fn types(rt: &impl Abort, alloc: Global) -> Option<DeclaredTypes> {
    let sorts = [
        (Sort::Struct, "S"),
        (Sort::Enum, "E"),
        (Sort::Resource, "R"),
        (Sort::Event, "V"),
        (Sort::Contract, "K"),
        (Sort::StructInterface, "I"),
        (Sort::ResourceInterface, "J"),
    ];
    let mut all = Vec::new(alloc);
    for (sort, text) in sorts {
        all.push(declared(rt, alloc, sort, text))
            .expect(rt, "memory");
    }
    if !is_closed(all.as_slice()) {
        return None;
    }
    Some(DeclaredTypes::new(alloc, all).expect(rt, "memory"))
}

/// Whether this is told of a value; nothing, if it is empty.
pub(crate) fn is_told(
    rt: &impl Abort,
    alloc: Global,
    kinds: &DeclaredTypes,
    value: &Value,
    expected: &str,
) -> bool {
    match export(alloc, kinds, value).expect(rt, "memory") {
        Some(text) => text.as_str() == expected,
        None => expected.is_empty(),
    }
}

/// Whether bytes are a value of which this is told.
fn tells(
    rt: &impl Abort,
    alloc: Global,
    kinds: &DeclaredTypes,
    bytes: &[u8],
    expected: &str,
) -> bool {
    let value = decode(alloc, bytes).expect(rt, "a value");
    let found = is_told(rt, alloc, kinds, &value, expected);
    drop(value);
    found
}

/// Whether a row of digits and what is told holds.
fn holds(rt: &impl Abort, alloc: Global, kinds: &DeclaredTypes, row: &str) -> bool {
    let (digits, expected) = row.split_once('~').unwrap_or((row, ""));
    let bytes = decode_hex(alloc, digits).expect(rt, "digits");
    tells(rt, alloc, kinds, bytes.as_slice(), expected)
}

/// The first row that doesn't hold.
fn wrong_row<'a>(rt: &impl Abort, alloc: Global, rows: &'a str) -> &'a str {
    let Some(kinds) = types(rt, alloc) else {
        return "the declared types are not closed";
    };
    for row in rows.lines() {
        if !holds(rt, alloc, &kinds, row) {
            return row;
        }
    }
    ""
}

#[test]
fn values_are_told(rt: HostRuntime) {
    assert_eq!(rt; wrong_row(&rt, rt.alloc(), TOLD), "");
}

#[test]
fn other_values_are_not_told(rt: HostRuntime) {
    assert_eq!(rt; wrong_row(&rt, rt.alloc(), UNTOLD), "");
}
