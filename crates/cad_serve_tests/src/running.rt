// Runs over hosts in memory, and what they come to.
use cad_host::{MemHost, Tape};
use cad_serve::{Status, serve};
use cad_syntax::{Items, Text};
use std::alloc::Global;
use std::process::Abort;

/// Asserts that bytes are these. `row` and `part` say of what in the test.
pub(crate) fn assert_bytes(rt: &impl Abort, left: &[u8], right: &[u8], row: u64, part: u64) {
    assert_eq!(rt; left, right, "row {row}, {part}");
}

/// Asserts that a run ends so.
pub(crate) fn assert_status(rt: &impl Abort, left: Status, right: Status, row: u64) {
    assert_eq!(rt; left, right, "row {row}");
}

/// Asserts what holds.
pub(crate) fn assert_true(rt: &impl Abort, holds: bool, row: u64, part: u64) {
    assert!(rt; holds, "row {row}, {part}");
}

/// The words of a program.
pub(crate) fn words_of(rt: &impl Abort, alloc: Global, list: &[&str]) -> Items<Text> {
    let mut words = Items::new(alloc);
    for word in list {
        let text = Text::from_str(alloc, word).expect(rt, "memory");
        words.push(text).expect(rt, "memory");
    }
    words
}

/// Texts, one behind the other.
pub(crate) fn joined(rt: &impl Abort, alloc: Global, texts: &[&str]) -> String {
    let mut all = String::new(alloc);
    for text in texts {
        all.push_str(text).expect(rt, "memory");
    }
    all
}

/// The bytes of lists, one behind the other.
pub(crate) fn bytes_of(rt: &impl Abort, alloc: Global, lists: &[&[u8]]) -> Vec<u8> {
    let mut bytes = Vec::new(alloc);
    for list in lists {
        bytes.extend_from_slice(list).expect(rt, "memory");
    }
    bytes
}

/// A host with this input and empty tapes, of which these takes, puts and disk calls fail.
pub(crate) fn host_of(
    rt: &impl Abort,
    alloc: Global,
    input: &str,
    takes: &[u64],
    puts: &[u64],
    disks: &[u64],
) -> MemHost {
    MemHost::new(alloc, input.as_bytes(), takes, puts, disks).expect(rt, "memory")
}

/// A host with these tapes.
pub(crate) fn with_tapes(
    rt: &impl Abort,
    alloc: Global,
    input: &str,
    a: &[u8],
    b: &[u8],
    pick: &[u8],
) -> MemHost {
    let mut host = host_of(rt, alloc, input, &[], &[], &[]);
    host.fill(Tape::A, a).expect(rt, "memory");
    host.fill(Tape::B, b).expect(rt, "memory");
    host.fill(Tape::Pick, pick).expect(rt, "memory");
    host
}

/// A host with this input and the tapes of another.
pub(crate) fn next_of(rt: &impl Abort, alloc: Global, input: &str, host: &MemHost) -> MemHost {
    with_tapes(
        rt,
        alloc,
        input,
        host.tape(Tape::A),
        host.tape(Tape::B),
        host.tape(Tape::Pick),
    )
}

/// Runs the program on a host.
pub(crate) fn run(rt: &impl Abort, alloc: Global, host: &mut MemHost) -> Status {
    let words = words_of(rt, alloc, &["run", "accounts"]);
    serve(alloc, words.as_slice(), host)
}

/// Asserts how a run over a host ends, and what the output is behind it.
pub(crate) fn assert_run(
    rt: &impl Abort,
    alloc: Global,
    host: &mut MemHost,
    status: Status,
    output: &[u8],
    row: u64,
) {
    assert_status(rt, run(rt, alloc, host), status, row);
    assert_bytes(rt, host.output(), output, row, 0);
}

/// Asserts that a run over this input and empty tapes is done and gives these replies. The host behind it.
pub(crate) fn done(rt: &impl Abort, alloc: Global, input: &str, replies: &str) -> MemHost {
    let mut host = host_of(rt, alloc, input, &[], &[], &[]);
    assert_run(rt, alloc, &mut host, Status::Done, replies.as_bytes(), 0);
    host
}

/// Asserts that the next run over the tapes of a host is done and gives these replies.
pub(crate) fn assert_next(
    rt: &impl Abort,
    alloc: Global,
    host: &MemHost,
    input: &str,
    replies: &str,
    row: u64,
) {
    let mut next = next_of(rt, alloc, input, host);
    assert_run(rt, alloc, &mut next, Status::Done, replies.as_bytes(), row);
    drop(next);
}
