// What authorizations grant, and their images under mappings, as rows.
use crate::telling::holds_at;
use cad_auth::{Mapping, grants, image, weaker};
use cad_syntax::{Address, Authorization, Name, Names, Pairs, Text, TypeId, TypeIds};
use std::alloc::Global;
use std::process::Abort;

/// An authorization by the names of its entitlements.
#[derive(Clone, Copy)]
enum Form<'a> {
    Unauthorized,
    All(&'a [&'a str]),
    Any(&'a [&'a str]),
}

use Form::{All, Any, Unauthorized};

fn entitlement(rt: &impl Abort, alloc: Global, name: &str) -> TypeId {
    let text = Text::from_str(alloc, name).expect(rt, "memory");
    let mut names = Names::new(alloc);
    names.push(Name(text)).expect(rt, "memory");
    TypeId {
        address: Address(1),
        names,
    }
}

fn ids(rt: &impl Abort, alloc: Global, names: &[&str]) -> TypeIds {
    let mut ids = TypeIds::new(alloc);
    for name in names {
        ids.push(entitlement(rt, alloc, name)).expect(rt, "memory");
    }
    ids
}

fn authorization(rt: &impl Abort, alloc: Global, form: Form<'_>) -> Authorization {
    match form {
        Unauthorized => Authorization::Unauthorized,
        All(names) => Authorization::All(ids(rt, alloc, names)),
        Any(names) => Authorization::Any(ids(rt, alloc, names)),
    }
}

fn mapping(rt: &impl Abort, alloc: Global, identity: bool, rows: &[(&str, &str)]) -> Mapping {
    let mut pairs = Pairs::new(alloc);
    for (from, to) in rows {
        let pair = (entitlement(rt, alloc, from), entitlement(rt, alloc, to));
        pairs.push(pair).expect(rt, "memory");
    }
    Mapping { identity, pairs }
}

/// Whether the first grants the second, and whether it is weaker.
fn compared(rt: &impl Abort, alloc: Global, a: Form<'_>, b: Form<'_>) -> (bool, bool) {
    let first = authorization(rt, alloc, a);
    let second = authorization(rt, alloc, b);
    let result = (grants(&first, &second), weaker(&first, &second));
    drop(first);
    drop(second);
    result
}

/// A mapping, an authorization and its image; none where it has none.
type Image<'a> = (bool, &'a [(&'a str, &'a str)], Form<'a>, Option<Form<'a>>);

/// The authorization of a row; none where it has none.
fn wanted(rt: &impl Abort, alloc: Global, form: Option<Form<'_>>) -> Option<Authorization> {
    match form {
        Some(form) => Some(authorization(rt, alloc, form)),
        None => None,
    }
}

/// Whether the image is the one of the row.
fn is_image(rt: &impl Abort, alloc: Global, row: Image<'_>) -> bool {
    let (identity, pairs, given, expected) = row;
    let map = mapping(rt, alloc, identity, pairs);
    let of = authorization(rt, alloc, given);
    let found = image(alloc, &map, &of).expect(rt, "memory");
    drop(map);
    drop(of);
    let wanted = wanted(rt, alloc, expected);
    let is_one = found == wanted;
    drop(found);
    drop(wanted);
    is_one
}

/// Two authorizations, and whether the first grants the second.
static GRANTS: [(Form<'static>, Form<'static>, bool); 11] = [
    (All(&["E", "F"]), All(&["E"]), true),
    (Any(&["E", "F"]), All(&["E"]), false),
    (Any(&["E", "F"]), Any(&["E", "F"]), true),
    (Unauthorized, Unauthorized, true),
    (All(&["E"]), Any(&["E", "F"]), true),
    (Any(&["E", "F"]), Any(&["G", "F", "E"]), true),
    (Any(&["E", "F"]), Any(&["E", "G"]), false),
    (Unauthorized, All(&["E"]), false),
    (All(&["E"]), Unauthorized, true),
    (Unauthorized, Any(&[]), true),
    (Any(&[]), All(&[]), true),
];

#[test]
fn grants_by_sets(rt: HostRuntime) {
    for (row, (a, b, expected)) in GRANTS.iter().enumerate() {
        holds_at(&rt, compared(&rt, rt.alloc(), *a, *b).0 == *expected, row);
    }
}

/// Two authorizations, and whether the first is weaker than the second.
static WEAKER: [(Form<'static>, Form<'static>, bool); 2] = [
    (All(&["E"]), All(&["E", "F"]), true),
    (All(&["E", "F"]), All(&["E"]), false),
];

#[test]
fn weaker_by_sets(rt: HostRuntime) {
    for (row, (a, b, expected)) in WEAKER.iter().enumerate() {
        holds_at(&rt, compared(&rt, rt.alloc(), *a, *b).1 == *expected, row);
    }
}

static IMAGES: [Image<'static>; 10] = [
    (
        false,
        &[("E", "X"), ("F", "Y")],
        All(&["E", "F"]),
        Some(All(&["X", "Y"])),
    ),
    (
        false,
        &[("E", "X"), ("F", "Y")],
        Any(&["E", "F"]),
        Some(Any(&["X", "Y"])),
    ),
    (
        false,
        &[("F", "Y"), ("E", "X")],
        All(&["E", "F"]),
        Some(All(&["X", "Y"])),
    ),
    (
        false,
        &[("F", "Y"), ("E", "X")],
        Any(&["E", "F"]),
        Some(Any(&["X", "Y"])),
    ),
    (
        false,
        &[("E", "X"), ("E", "Y"), ("F", "Z")],
        Any(&["E", "F"]),
        None,
    ),
    (
        false,
        &[("E", "X"), ("F", "X")],
        Any(&["E", "F"]),
        Some(All(&["X"])),
    ),
    (
        true,
        &[("E", "X")],
        All(&["F", "E"]),
        Some(All(&["F", "E", "X"])),
    ),
    (
        false,
        &[("E", "A"), ("E", "B"), ("F", "B"), ("G", "A")],
        Any(&["E", "F", "G"]),
        Some(Any(&["A", "B"])),
    ),
    (
        false,
        &[("E", "A"), ("E", "B"), ("F", "B"), ("G", "A")],
        Any(&["E", "H"]),
        Some(Unauthorized),
    ),
    (
        false,
        &[("E", "A"), ("E", "B"), ("F", "B"), ("G", "A")],
        Unauthorized,
        Some(Unauthorized),
    ),
];

#[test]
fn images(rt: HostRuntime) {
    for (row, image) in IMAGES.iter().enumerate() {
        holds_at(&rt, is_image(&rt, rt.alloc(), *image), row);
    }
}
