// What parsing texts comes to.
use crate::rows::{BLOCKS, EXAMPLES, MEMBERS, PROGRAMS, PUBLISH, SETUP, TOKEN, TRANSFER, TREES};
use crate::telling::{Part, differences, told_program};
use std::alloc::{AllocError, Global};

#[test]
fn programs_are_parsed(rt: HostRuntime) {
    let alloc = rt.alloc();
    for rows in [PROGRAMS, MEMBERS, BLOCKS, EXAMPLES] {
        assert_eq!(rt;
            differences(alloc, Part::Program, rows)
                .expect(&rt, "memory")
                .as_str(),
            ""
        );
    }
    for code in [TOKEN, SETUP, PUBLISH, TRANSFER] {
        assert_eq!(rt;
            told_program(alloc, code).expect(&rt, "memory").as_str(),
            "ok"
        );
    }
}

#[test]
fn trees_are_told_apart(rt: HostRuntime) {
    assert_eq!(rt;
        differences(rt.alloc(), Part::TwoPrograms, TREES)
            .expect(&rt, "memory")
            .as_str(),
        ""
    );
}

// What a text comes to in whose middle so many of one piece stand, and as many of another behind the middle.
fn nested(alloc: Global, pieces: [&str; 5], count: usize) -> Result<String, AllocError> {
    let [front, opening, middle, closing, back] = pieces;
    let mut code = String::from_str(alloc, front)?;
    for _piece in 0..count {
        code.push_str(opening)?;
    }
    code.push_str(middle)?;
    for _piece in 0..count {
        code.push_str(closing)?;
    }
    code.push_str(back)?;
    told_program(alloc, code.as_str())
}

// 128 nestings are open in the middle, and one more is refused. A tree so deep is read and dropped.
#[test]
fn nestings_are_bounded(rt: HostRuntime) {
    let alloc = rt.alloc();
    for (pieces, most) in [
        (["access(all) fun f() { return ", "(", "a", ")", " }"], 127),
        (["access(all) fun f() { return ", "[", "a", "]", " }"], 127),
        (["access(all) fun f() { return ", "a[", "a", "]", " }"], 127),
        (["access(all) fun f() { return ", "-", "a", "", " }"], 127),
        (
            ["access(all) fun f() { return ", "& ", "a", " as T", " }"],
            63,
        ),
        (["access(all) fun f() { return a", "()", "", "", " }"], 127),
        (["access(all) fun f() { return a", "[0]", "", "", " }"], 127),
        (["access(all) fun f() { ", "if a {", "", "}", " }"], 127),
        (
            [
                "access(all) fun f() { ",
                "if a {} else ",
                "if a {}",
                "",
                " }",
            ],
            126,
        ),
        (
            [
                "access(all) contract C { access(all) let a: ",
                "[",
                "T",
                "]",
                " }",
            ],
            127,
        ),
        (
            [
                "access(all) contract C { access(all) let a: ",
                "",
                "T",
                "?",
                " }",
            ],
            127,
        ),
        (
            [
                "access(all) contract C { access(all) let a: ",
                "",
                "T",
                "??",
                " }",
            ],
            63,
        ),
    ] {
        assert_eq!(rt;
            nested(alloc, pieces, most).expect(&rt, "memory").as_str(),
            "ok"
        );
        assert_eq!(rt;
            nested(alloc, pieces, most.wrapping_add(1))
                .expect(&rt, "memory")
                .as_str(),
            "parse 0"
        );
    }
}
