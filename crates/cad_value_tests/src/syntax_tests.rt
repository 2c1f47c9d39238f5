// Worked examples.
use crate::telling::{equals, equals_in, holds};
use cad_syntax::{
    Address, Authorization, Basic, CadType, Domain, Items, Kind, Name, Names, Num, Path, Text,
    TypeId, TypeIds, is_name,
};
use std::alloc::Global;
use std::process::Abort;

fn name(rt: &impl Abort, alloc: Global, text: &str) -> Name {
    Name(Text::from_str(alloc, text).expect(rt, "memory"))
}

fn nameless(alloc: Global) -> TypeId {
    TypeId {
        address: Address(1),
        names: Names::new(alloc),
    }
}

fn vault(rt: &impl Abort, alloc: Global) -> TypeId {
    let mut id = nameless(alloc);
    id.names.push(name(rt, alloc, "Token")).expect(rt, "memory");
    id.names.push(name(rt, alloc, "Vault")).expect(rt, "memory");
    id
}

static ADDRESSES: [(&str, Option<u64>); 11] = [
    ("0x1", Some(1)),
    ("0xF8d6e0586b0a20c7", Some(17930765636779778247)),
    ("0xffffffffffffffff", Some(18446744073709551615)),
    ("0x0000000000000000", Some(0)),
    ("0x", None),
    ("0x00000000000000001", None),
    ("0X1", None),
    ("1", None),
    ("0x1g", None),
    ("0x+1", None),
    ("", None),
];

/// The number of the address that a text is.
fn address_number(text: &str) -> Option<u64> {
    match Address::from_hex(text) {
        Some(address) => Some(address.0),
        None => None,
    }
}

#[test]
fn addresses_are_read(rt: HostRuntime) {
    for (text, address) in ADDRESSES.iter() {
        equals_in(&rt, text, &address_number(text), address);
    }
}

static HEXADECIMAL: [(u64, &str); 3] = [
    (1, "0x0000000000000001"),
    (17930765636779778247, "0xf8d6e0586b0a20c7"),
    (18446744073709551615, "0xffffffffffffffff"),
];

#[test]
fn addresses_are_written(rt: HostRuntime) {
    for (number, text) in HEXADECIMAL.iter() {
        let written = Address(*number).to_hex(rt.alloc()).expect(&rt, "memory");
        equals(&rt, &written.as_str(), text);
    }
}

#[test]
fn paths_are_copied(rt: HostRuntime) {
    let path = Path {
        domain: Domain::Public,
        identifier: name(&rt, rt.alloc(), "x"),
    };
    let copy = path.clone().expect(&rt, "memory");
    holds(&rt, copy == path, "the copy is the path");
    drop(copy);
    drop(path);
}

/// Whether a text is read as the identifier.
fn is_read(rt: &impl Abort, alloc: Global, text: &str, id: &TypeId) -> bool {
    let read = TypeId::from_text(alloc, text).expect(rt, "memory");
    match read {
        Some(read) => read == id.clone().expect(rt, "memory"),
        None => false,
    }
}

/// Asserts that an identifier has the text, and that the text is read as the identifier.
fn is_spelled(rt: &impl Abort, alloc: Global, id: &TypeId, text: &str) {
    let written = id.to_text(alloc).expect(rt, "memory");
    equals(rt, &written.as_str(), &text);
    holds(rt, is_read(rt, alloc, text, id), text);
}

#[test]
fn identifiers_are_written_and_read(rt: HostRuntime) {
    let id = vault(&rt, rt.alloc());
    is_spelled(&rt, rt.alloc(), &id, "A.0000000000000001.Token.Vault");
    let id = nameless(rt.alloc());
    is_spelled(&rt, rt.alloc(), &id, "A.0000000000000001");
}

static OTHER_FORMS: [&str; 10] = [
    "A.0000000000000001.",
    "A.0000000000000001.1T",
    "A.0000000000000001.resource",
    "A.0000000000000001..T",
    "A.000000000000000A",
    "A.000000000000001",
    "a.0000000000000001",
    "A0000000000000001",
    "A",
    "",
];

/// Whether a text is no identifier.
fn is_refused(rt: &impl Abort, alloc: Global, text: &str) -> bool {
    TypeId::from_text(alloc, text)
        .expect(rt, "memory")
        .is_none()
}

#[test]
fn identifiers_of_other_forms_are_refused(rt: HostRuntime) {
    for text in OTHER_FORMS.iter() {
        holds(&rt, is_refused(&rt, rt.alloc(), text), text);
    }
}

static NAMES: [(&str, bool); 13] = [
    ("a", true),
    ("_", true),
    ("a_1", true),
    ("all", true),
    ("Access", true),
    ("selfish", true),
    ("", false),
    ("1a", false),
    ("a-b", false),
    ("é", false),
    ("self", false),
    ("access", false),
    ("while", false),
];

#[test]
fn names_are_told_from_other_texts(rt: HostRuntime) {
    for (text, expected) in NAMES.iter() {
        holds(&rt, is_name(text) == *expected, text);
    }
}

/// Kinds, whether negative, magnitudes, and whether they are in range.
static RANGES: [(Kind, bool, u128, bool); 6] = [
    (Kind::UInt8, false, 255, true),
    (Kind::UInt8, false, 256, false),
    (Kind::Int8, true, 128, true),
    (Kind::Int8, true, 129, false),
    (Kind::UInt, true, 1, false),
    (Kind::Int, true, 1 << 127, true),
];

/// The first row of the ranges that is wrong.
fn wrong_range() -> Option<usize> {
    for (row, (kind, negative, magnitude, expected)) in RANGES.iter().enumerate() {
        if Num::new(*kind, *negative, *magnitude).is_some() != *expected {
            return Some(row);
        }
    }
    None
}

#[test]
fn numbers_are_in_range(rt: HostRuntime) {
    equals(&rt, &wrong_range(), &None);
    holds(
        &rt,
        Num::new(Kind::Int, true, 0) == Num::new(Kind::Int, false, 0),
        "there is one zero",
    );
}

fn boxed(rt: &impl Abort, alloc: Global, t: CadType) -> Box<CadType> {
    Box::new(alloc, t).expect(rt, "memory")
}

/// Int under as many optionals.
fn nested(rt: &impl Abort, alloc: Global, depth: u32) -> CadType {
    let mut t = boxed(rt, alloc, CadType::Basic(Basic::Number(Kind::Int)));
    for _ in 1..depth {
        t = boxed(rt, alloc, CadType::Optional(t));
    }
    CadType::Optional(t)
}

/// Asserts that a type's copy is the same.
fn is_copied(rt: &impl Abort, t: &CadType) {
    let copy = t.clone().expect(rt, "memory");
    holds(rt, t.same(&copy), "the copy is the same");
    holds(rt, *t == copy, "the copy is equal");
    drop(copy);
}

#[test]
fn walks_go_512_deep(rt: HostRuntime) {
    let t = nested(&rt, rt.alloc(), 512);
    equals(&rt, &(t.nesting(512), t.nesting(511)), &(Some(512), None));
    is_copied(&rt, &t);
    let less = nested(&rt, rt.alloc(), 511);
    holds(&rt, !t.same(&less), "a type less deep is another");
    drop(less);
    drop(t);
}

fn ids(rt: &impl Abort, alloc: Global) -> TypeIds {
    let mut ids = TypeIds::new(alloc);
    let id = vault(rt, alloc);
    ids.push(id.clone().expect(rt, "memory"))
        .expect(rt, "memory");
    ids
}

/// The type of dictionaries from texts to vaults.
fn dictionary(rt: &impl Abort, alloc: Global) -> CadType {
    let key = boxed(rt, alloc, CadType::Basic(Basic::String));
    let value = boxed(rt, alloc, CadType::Declared(vault(rt, alloc)));
    CadType::Dictionary(key, value)
}

/// A reference to copies of such a dictionary.
fn reference(rt: &impl Abort, alloc: Global, authorization: Authorization) -> CadType {
    let target = dictionary(rt, alloc);
    let copy = boxed(rt, alloc, target.clone().expect(rt, "memory"));
    drop(target);
    CadType::Reference(authorization, copy)
}

#[test]
fn types_are_compared(rt: HostRuntime) {
    let alloc = rt.alloc();
    let all = reference(&rt, alloc, Authorization::All(ids(&rt, alloc)));
    is_copied(&rt, &all);
    equals(&rt, &all.nesting(9), &Some(2));
    let any = reference(&rt, alloc, Authorization::Any(ids(&rt, alloc)));
    holds(&rt, !all.same(&any), "any of them is another");
    drop(any);
    let intersection = CadType::Intersection(ids(&rt, alloc));
    holds(
        &rt,
        !intersection.same(&all),
        "an intersection is no reference",
    );
    drop(intersection);
    drop(all);
}

/// One, two and three.
fn three(rt: &impl Abort, alloc: Global) -> Items<i32> {
    let mut list = Items::from_slice(alloc, &[1, 2]).expect(rt, "memory");
    list.push(3).expect(rt, "memory");
    list
}

/// Asserts that a list's copy is the list, which gives its items back.
fn list_is_copied(rt: &impl Abort, list: Items<i32>) {
    let copy = list.clone().expect(rt, "memory");
    equals(rt, &copy.as_slice().len(), &3);
    holds(rt, copy == list, "the copy is the list");
    let again = Items::from_vec(list.into_vec());
    holds(rt, again == copy, "the items come back");
}

fn items_come_back(rt: &impl Abort, alloc: Global) {
    let list = three(rt, alloc);
    equals(rt, &list.len(), &3);
    holds(rt, !list.is_empty(), "the list is not empty");
    list_is_copied(rt, list);
}

/// The first three letters.
fn abc(rt: &impl Abort, alloc: Global) -> Text {
    let mut text = Text::from_string(String::from_str(alloc, "a").expect(rt, "memory"));
    text.push('b').expect(rt, "memory");
    text.push_str("c").expect(rt, "memory");
    text
}

/// Asserts that a text's copy has the letters.
fn text_is_copied(rt: &impl Abort, alloc: Global, text: &Text) {
    let copy = text.clone().expect(rt, "memory");
    let expected = Text::from_str(alloc, "abc").expect(rt, "memory");
    holds(rt, copy == expected, "the text has the letters");
}

fn letters_come_back(rt: &impl Abort, alloc: Global) {
    let text = abc(rt, alloc);
    equals(rt, &text.as_bytes().len(), &3);
    text_is_copied(rt, alloc, &text);
    let empty = Text::new(alloc);
    holds(rt, empty.as_str() == "", "a new text is empty");
}

#[test]
fn lists_give_their_items_back(rt: HostRuntime) {
    items_come_back(&rt, rt.alloc());
    letters_come_back(&rt, rt.alloc());
}
