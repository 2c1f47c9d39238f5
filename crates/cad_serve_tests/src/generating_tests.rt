// Generated sessions.
use crate::running::{assert_bytes, assert_status, host_of, words_of};
use cad_generation::generate_lines;
use cad_host::{Host, SureHost};
use cad_serve::{Status, serve};
use std::alloc::Global;
use std::process::Abort;

// Numbers of transfers, with the line of the counts.
const SESSIONS: [(&str, &str); 2] = [
    (
        "0",
        "{\"destroyed\":\"3\",\"failed\":\"0\",\"lines\":\"15\",\"live\":\"4\",\"made\":\"7\",\"ok\":\"15\"}\n",
    ),
    (
        "1",
        "{\"destroyed\":\"4\",\"failed\":\"0\",\"lines\":\"16\",\"live\":\"4\",\"made\":\"8\",\"ok\":\"16\"}\n",
    ),
];

// Words that are no number up to 100,000 without a leading zero.
const REFUSED: [&str; 10] = [
    "",
    "x",
    "0x1",
    "007",
    "00",
    "+1",
    "-1",
    "1.0",
    "100001",
    "18446744073709551617",
];

// The last line of a session with one transfer.
const TRANSFER: &str =
    "{\"arguments\":[{\"type\":\"UFix64\",\"value\":\"67.00000000\"},{\"type\":\"Address\",\"value\":\"0x0000000000000002\"}],\"code\":";

// The status of `generate` with a number.
fn generate<H: Host>(rt: &impl Abort, alloc: Global, host: &mut H, number: &str) -> Status {
    let words = words_of(rt, alloc, &["generate", number]);
    serve(alloc, words.as_slice(), host)
}

// Asserts what a session comes to: one event, which puts this line.
fn assert_counts(rt: &impl Abort, alloc: Global, number: &str, want: &str) {
    let made = SureHost::new(alloc, "hello\n".as_bytes());
    let mut host = made.expect(rt, "memory");
    assert_status(rt, generate(rt, alloc, &mut host, number), Status::Done, 0);
    assert_bytes(rt, host.output(), want.as_bytes(), 0, 0);
    assert!(rt; host.now() == 1);
    drop(host);
}

#[test]
fn counts_replies_and_identities(rt: HostRuntime) {
    let alloc = rt.alloc();
    for (number, want) in SESSIONS {
        assert_counts(&rt, alloc, number, want);
    }
}

// Asserts that a word is no number of transfers.
fn assert_refused(rt: &impl Abort, alloc: Global, number: &str, row: u64) {
    let mut host = SureHost::new(alloc, &[]).expect(rt, "memory");
    assert_status(
        rt,
        generate(rt, alloc, &mut host, number),
        Status::Usage,
        row,
    );
    drop(host);
}

#[test]
fn refuses_other_numbers(rt: HostRuntime) {
    let alloc = rt.alloc();
    let mut row = 0u64;
    for number in REFUSED {
        assert_refused(&rt, alloc, number, row);
        row = row.saturating_add(1);
    }
}

#[test]
fn tells_that_a_line_broke(rt: HostRuntime) {
    let alloc = rt.alloc();
    let mut host = host_of(&rt, alloc, "", &[], &[0], &[]);
    let status = generate(&rt, alloc, &mut host, "0");
    assert_status(&rt, status, Status::WriteFault, 0);
    drop(host);
}

#[test]
fn writes_the_lines(rt: HostRuntime) {
    let alloc = rt.alloc();
    let lines = generate_lines(alloc, 1).expect(&rt, "memory");
    let text = str::from_utf8(lines.as_slice()).expect(&rt, "a text");
    let last = text.lines().nth(15).expect(&rt, "there are 16 lines");
    assert!(rt; last.as_bytes().starts_with(TRANSFER.as_bytes()));
}
