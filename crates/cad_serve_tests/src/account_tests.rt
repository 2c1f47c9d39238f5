// Accounts over a host in memory.
use crate::running::{
    assert_bytes, assert_next, assert_run, assert_status, assert_true, bytes_of, done, host_of,
    joined, next_of, run, with_tapes,
};
use cad_host::{MemHost, Tape};
use cad_serve::Status;
use cad_syntax::Items;
use std::alloc::Global;
use std::process::Abort;

const ACCOUNT: &str = "{\"kind\":\"account\"}\n";

const SAVE: &str =
    "{\"kind\":\"transaction\",\"signers\":[\"0x1\"],\"code\":\"transaction { prepare(a: auth(Storage) &Account) { a.storage.save(40 + 2, to: /storage/x) } }\"}\n";

const MOVE: &str =
    "{\"kind\":\"transaction\",\"signers\":[\"0x1\"],\"code\":\"transaction { prepare(a: auth(Storage) &Account) { a.storage.save(a.storage.load<Int>(from: /storage/x)! + 1, to: /storage/y) } }\"}\n";

const FIRST: &str = "{\"address\":\"0x0000000000000001\",\"reply\":\"ok\"}\n";

const SECOND: &str = "{\"address\":\"0x0000000000000002\",\"reply\":\"ok\"}\n";

const THIRD: &str = "{\"address\":\"0x0000000000000003\",\"reply\":\"ok\"}\n";

const DONE: &str = "{\"destroyed\":[],\"events\":[],\"made\":[],\"reply\":\"ok\"}\n";

const NOTHING: &str = "{\"error\":\"106\",\"reply\":\"failed\"}\n";

const OCCUPIED: &str = "{\"error\":\"111\",\"reply\":\"failed\"}\n";

const NO_ACCOUNT: &str = "{\"error\":\"26\",\"reply\":\"bad\"}\n";

const STRANGER: &str =
    "{\"kind\":\"transaction\",\"signers\":[\"0x9\"],\"code\":\"transaction { prepare(a: auth(Storage) &Account) { a.storage.save(1, to: /storage/x) } }\"}\n";

const TWO: &str = "{\"address\":\"0x0000000000000001\",\"reply\":\"ok\"}
{\"destroyed\":[],\"events\":[],\"made\":[],\"reply\":\"ok\"}
";

const THREE: &str = "{\"address\":\"0x0000000000000001\",\"reply\":\"ok\"}
{\"destroyed\":[],\"events\":[],\"made\":[],\"reply\":\"ok\"}
{\"destroyed\":[],\"events\":[],\"made\":[],\"reply\":\"ok\"}
";

// The replies to `SAVE` and `MOVE` where there is no account.
const NONE_MADE: &str = "{\"error\":\"26\",\"reply\":\"bad\"}
{\"error\":\"26\",\"reply\":\"bad\"}
";

// Where there is one without numbers.
const NONE_SAVED: &str = "{\"destroyed\":[],\"events\":[],\"made\":[],\"reply\":\"ok\"}
{\"destroyed\":[],\"events\":[],\"made\":[],\"reply\":\"ok\"}
";

// Where it has a number at x.
const SAVED: &str = "{\"error\":\"111\",\"reply\":\"failed\"}
{\"destroyed\":[],\"events\":[],\"made\":[],\"reply\":\"ok\"}
";

// Where it has one at y.
const MOVED: &str = "{\"destroyed\":[],\"events\":[],\"made\":[],\"reply\":\"ok\"}
{\"error\":\"111\",\"reply\":\"failed\"}
";

/// The tape with the record of one account.
pub const TAPE: [u8; 67] = [
    1, 0, 0, 0, 0, 0, 0, 0, 57, 1, 0, 0, 0, 2, 0, 0, 0, 1, 0, 1, 0, 0, 0, 16, 0, 0, 0, 0, 0, 0, 0,
    1, 0, 0, 0, 0, 0, 0, 0, 1, 0, 0, 0, 9, 1, 0, 0, 0, 0, 0, 0, 0, 1, 1, 0, 0, 0, 8, 0, 0, 0, 0, 0,
    0, 0, 1, 0,
];

// The record of a second account behind that one, the gate that ends it, and a byte that is left behind it.
const BEHIND: [u8; 68] = [
    1, 0, 0, 0, 0, 0, 0, 0, 57, 1, 0, 0, 0, 2, 0, 0, 0, 1, 0, 1, 0, 0, 0, 16, 0, 0, 0, 0, 0, 0, 0,
    2, 0, 0, 0, 0, 0, 0, 0, 1, 0, 0, 0, 9, 1, 0, 0, 0, 0, 0, 0, 0, 2, 1, 0, 0, 0, 8, 0, 0, 0, 0, 0,
    0, 0, 1, 0, 1,
];

#[test]
fn keeps_numbers(rt: HostRuntime) {
    let alloc = rt.alloc();
    let input = joined(&rt, alloc, &[SAVE, ACCOUNT, SAVE, SAVE, MOVE, MOVE]);
    let want = joined(
        &rt,
        alloc,
        &[NO_ACCOUNT, FIRST, DONE, OCCUPIED, DONE, NOTHING],
    );
    let host = done(&rt, alloc, &input, &want);
    assert_next(&rt, alloc, &host, ACCOUNT, SECOND, 1);
    drop(host);
}

// Asserts what the tapes of a host read.
fn assert_tapes(rt: &impl Abort, host: &MemHost, a: &[u8], b: &[u8], pick: &[u8]) {
    assert_bytes(rt, host.tape(Tape::A), a, 0, 0);
    assert_bytes(rt, host.tape(Tape::B), b, 0, 1);
    assert_bytes(rt, host.tape(Tape::Pick), pick, 0, 2);
}

#[test]
fn writes_one_record(rt: HostRuntime) {
    let alloc = rt.alloc();
    let host = done(&rt, alloc, ACCOUNT, FIRST);
    assert_tapes(&rt, &host, &TAPE, &[], &[1]);
    drop(host);
}

#[test]
fn leaves_the_tapes_empty(rt: HostRuntime) {
    let alloc = rt.alloc();
    let none = done(&rt, alloc, "", "");
    assert_tapes(&rt, &none, &[], &[], &[]);
    drop(none);
    let bad = done(&rt, alloc, STRANGER, NO_ACCOUNT);
    assert_tapes(&rt, &bad, &[], &[], &[]);
    drop(bad);
}

fn session(rt: &impl Abort, alloc: Global) -> String {
    joined(rt, alloc, &[ACCOUNT, SAVE, MOVE, MOVE])
}

// Asserts how a run over a host ends, and the replies to `SAVE` and `MOVE` over the tapes that it leaves: they tell after how
// many commands of `session` these are.
fn assert_ends(
    rt: &impl Abort,
    alloc: Global,
    ended: MemHost,
    status: Status,
    output: &[u8],
    next: &str,
    call: u64,
) {
    let mut host = ended;
    assert_run(rt, alloc, &mut host, status, output, call);
    let input = joined(rt, alloc, &[SAVE, MOVE]);
    assert_next(rt, alloc, &host, &input, next, call);
    drop(host);
}

// Asserts how a session ends where a disk call fails, for each call from a first one to before another.
fn assert_disk_faults(
    rt: &impl Abort,
    alloc: Global,
    from: u64,
    to: u64,
    output: &str,
    next: &str,
) {
    let input = session(rt, alloc);
    for call in from..to {
        let host = host_of(rt, alloc, &input, &[], &[], &[call]);
        assert_ends(
            rt,
            alloc,
            host,
            Status::DiskFault,
            output.as_bytes(),
            next,
            call,
        );
    }
}

// The disk calls are five of the opening, of which two are syncs, and four of each commit, of which the last is a sync of what
// takes effect. A write that fails leaves its first half.
#[test]
fn ends_at_each_disk_fault(rt: HostRuntime) {
    let alloc = rt.alloc();
    assert_disk_faults(&rt, alloc, 0, 8, "", NONE_MADE);
    assert_disk_faults(&rt, alloc, 8, 9, "", NONE_SAVED);
    assert_disk_faults(&rt, alloc, 9, 12, FIRST, NONE_SAVED);
    assert_disk_faults(&rt, alloc, 12, 13, FIRST, SAVED);
    assert_disk_faults(&rt, alloc, 13, 16, TWO, SAVED);
    assert_disk_faults(&rt, alloc, 16, 17, TWO, MOVED);
}

// There are no more disk calls than these.
#[test]
fn goes_on_after_all_disk_calls(rt: HostRuntime) {
    let alloc = rt.alloc();
    let input = session(&rt, alloc);
    let want = joined(&rt, alloc, &[TWO, DONE, NOTHING]);
    let mut host = host_of(&rt, alloc, &input, &[], &[], &[17]);
    assert_run(&rt, alloc, &mut host, Status::Done, want.as_bytes(), 17);
    drop(host);
}

// Asserts how a session ends where a call that puts a line fails: what was put before it, and half of the line.
fn assert_output_fault(
    rt: &impl Abort,
    alloc: Global,
    call: u64,
    whole: &str,
    line: &str,
    next: &str,
) {
    let half = &line.as_bytes()[..line.len() / 2];
    let output = bytes_of(rt, alloc, &[whole.as_bytes(), half]);
    let input = session(rt, alloc);
    let host = host_of(rt, alloc, &input, &[], &[call], &[]);
    assert_ends(rt, alloc, host, Status::WriteFault, &output, next, call);
}

#[test]
fn ends_at_each_output_fault(rt: HostRuntime) {
    let alloc = rt.alloc();
    assert_output_fault(&rt, alloc, 0, "", FIRST, NONE_SAVED);
    assert_output_fault(&rt, alloc, 1, FIRST, DONE, SAVED);
    assert_output_fault(&rt, alloc, 2, TWO, DONE, MOVED);
    assert_output_fault(&rt, alloc, 3, THREE, NOTHING, MOVED);
}

#[test]
fn ends_at_each_input_fault(rt: HostRuntime) {
    let alloc = rt.alloc();
    let input = session(&rt, alloc);
    let all = joined(&rt, alloc, &[TWO, DONE, NOTHING]);
    let first = host_of(&rt, alloc, &input, &[0], &[], &[]);
    assert_ends(&rt, alloc, first, Status::ReadFault, &[], NONE_MADE, 0);
    let second = host_of(&rt, alloc, &input, &[1], &[], &[]);
    assert_ends(
        &rt,
        alloc,
        second,
        Status::ReadFault,
        all.as_bytes(),
        MOVED,
        1,
    );
}

#[test]
fn refuses_bad_stores(rt: HostRuntime) {
    let alloc = rt.alloc();
    for length in [40usize, 66] {
        let mut host = with_tapes(&rt, alloc, ACCOUNT, &TAPE[..length], &[], &[1]);
        assert_run(&rt, alloc, &mut host, Status::BadStore, &[], length as u64);
        drop(host);
    }
}

// Asserts the reply to one more account over these tapes.
fn assert_reply(rt: &impl Abort, alloc: Global, a: &[u8], pick: &[u8], want: &str, row: u64) {
    let mut host = with_tapes(rt, alloc, ACCOUNT, a, &[], pick);
    assert_run(rt, alloc, &mut host, Status::Done, want.as_bytes(), row);
    drop(host);
}

// What a crash at a moment that a host has seen leaves.
fn crashed(rt: &impl Abort, host: &MemHost, moment: u64, fill: u8) -> MemHost {
    assert!(rt; moment <= host.now());
    host.crash(moment, fill).expect(rt, "memory")
}

// A crash between the write of `pick` and its sync, behind two syncs, a take, and the write and the sync of tape a: the byte
// may be any. Where it isn't there, tape b is in use.
#[test]
fn takes_effect_with_an_odd_byte(rt: HostRuntime) {
    let alloc = rt.alloc();
    let host = done(&rt, alloc, ACCOUNT, FIRST);
    for byte in 0..=255u8 {
        let left = crashed(&rt, &host, 6, byte);
        assert_bytes(&rt, left.tape(Tape::Pick), &[byte], byte as u64, 0);
        let want = if byte % 2 == 1 { SECOND } else { FIRST };
        assert_reply(
            &rt,
            alloc,
            left.tape(Tape::A),
            left.tape(Tape::Pick),
            want,
            byte as u64,
        );
        drop(left);
    }
    drop(host);
    assert_reply(&rt, alloc, &TAPE, &[], FIRST, 256);
}

// A whole record behind a closed gate, and a byte behind it that would open one: the next record goes where that gate is.
#[test]
fn leaves_what_is_behind_the_gate(rt: HostRuntime) {
    let alloc = rt.alloc();
    let bytes = bytes_of(&rt, alloc, &[&TAPE[..66], &[7], &TAPE[1..], &[1]]);
    let want = bytes_of(&rt, alloc, &[&TAPE[..66], &BEHIND]);
    let mut host = with_tapes(&rt, alloc, ACCOUNT, &bytes, &[], &[1]);
    assert_run(&rt, alloc, &mut host, Status::Done, SECOND.as_bytes(), 0);
    assert_bytes(&rt, host.tape(Tape::A), &want, 0, 1);
    drop(host);
    assert_reply(&rt, alloc, &want, &[1], THIRD, 1);
}

// Lines of which each changes something, and the replies over the tapes that the first of them leave, which all differ.
const COMMANDS: [&str; 4] = [ACCOUNT, SAVE, MOVE, ACCOUNT];

// Asserts that a run over a host is done.
fn run_done(rt: &impl Abort, alloc: Global, host: &mut MemHost) {
    assert_status(rt, run(rt, alloc, host), Status::Done, 0);
}

// A run over the first of the commands.
fn run_first(rt: &impl Abort, alloc: Global, count: usize) -> MemHost {
    let commands: &[&str] = &COMMANDS;
    let first = commands.get(..count).expect(rt, "so many");
    let input = joined(rt, alloc, first);
    let mut host = host_of(rt, alloc, &input, &[], &[], &[]);
    run_done(rt, alloc, &mut host);
    host
}

// The replies to lines that tell after how many of the commands these tapes stand.
fn told_by(rt: &impl Abort, alloc: Global, host: &MemHost) -> Items<u8> {
    let input = joined(rt, alloc, &[SAVE, MOVE, ACCOUNT]);
    let mut next = next_of(rt, alloc, &input, host);
    run_done(rt, alloc, &mut next);
    let replies = Items::from_slice(alloc, next.output()).expect(rt, "memory");
    drop(next);
    replies
}

// The replies that tell of no command, of the first, and so on.
fn told_of_each(rt: &impl Abort, alloc: Global) -> Items<Items<u8>> {
    let mut told = Items::new(alloc);
    for count in 0..=COMMANDS.len() {
        let host = run_first(rt, alloc, count);
        told.push(told_by(rt, alloc, &host)).expect(rt, "memory");
        drop(host);
    }
    told
}

// The moments when these commands' replies were put: just before the last take, of the input's end.
fn moments(rt: &impl Abort, alloc: Global) -> Items<u64> {
    let mut put_at = Items::new(alloc);
    for count in 0..=COMMANDS.len() {
        let host = run_first(rt, alloc, count);
        let moment = host.now().saturating_sub(1);
        put_at.push(moment).expect(rt, "memory");
        drop(host);
    }
    put_at
}

// How many commands had their replies at a moment.
fn known_at(put_at: &[u64], moment: u64) -> usize {
    let mut known = 0usize;
    for put in put_at {
        if *put <= moment {
            known = known.saturating_add(1);
        }
    }
    known.saturating_sub(1)
}

// Whether replies are those that tell of so many commands.
fn tells(told: &[Items<u8>], count: usize, replies: &[u8]) -> bool {
    match told.get(count) {
        Some(one) => one.as_slice() == replies,
        None => false,
    }
}

// Asserts that all of these, and no bytes, differ from those before them.
fn assert_all_differ(rt: &impl Abort, told: &[Items<u8>]) {
    let mut before: &[u8] = &[];
    for one in told {
        assert_true(rt, one.as_slice() != before, 0, 0);
        before = one.as_slice();
    }
}

// Asserts that the image of a moment stands for the accounts after as many commands as had their replies, or after one more.
fn assert_survives(
    rt: &impl Abort,
    alloc: Global,
    host: &MemHost,
    told: &[Items<u8>],
    known: usize,
    moment: u64,
    fill: u8,
) {
    let left = crashed(rt, host, moment, fill);
    let replies = told_by(rt, alloc, &left);
    drop(left);
    let here = tells(told, known, replies.as_slice());
    let one_more = tells(told, known.saturating_add(1), replies.as_slice());
    assert_true(rt, here || one_more, moment, known as u64);
}

// Runs over the first of the commands tell when each reply was put.
#[test]
fn survives_crashes(rt: HostRuntime) {
    let alloc = rt.alloc();
    let told = told_of_each(&rt, alloc);
    let put_at = moments(&rt, alloc);
    assert_all_differ(&rt, told.as_slice());
    let host = run_first(&rt, alloc, COMMANDS.len());
    for moment in 0..=host.now() {
        let known = known_at(put_at.as_slice(), moment);
        for fill in [0u8, 1, 7, 255] {
            assert_survives(&rt, alloc, &host, told.as_slice(), known, moment, fill);
        }
    }
    drop(host);
    drop(told);
}

// A line, blanks up to the end of the first take, and another line: so a second run on one host has one line left.
fn two_takes(rt: &impl Abort, alloc: Global) -> Vec<u8> {
    let mut input = bytes_of(rt, alloc, &[ACCOUNT.as_bytes()]);
    input.resize(1 << 16, b' ').expect(rt, "memory");
    let rest = joined(rt, alloc, &["\n", ACCOUNT]);
    input
        .extend_from_slice(rest.as_bytes())
        .expect(rt, "memory");
    input
}

// Asserts that a run over a host ends at a disk fault before its first reply, and that another replies. Whether that is behind
// a first account.
fn run_again(rt: &impl Abort, alloc: Global, host: &mut MemHost, call: u64) -> bool {
    assert_run(rt, alloc, host, Status::DiskFault, &[], call);
    assert_status(rt, run(rt, alloc, host), Status::Done, call);
    let second = host.output().ends_with(SECOND.as_bytes());
    let first = host.output() == FIRST.as_bytes();
    assert_true(rt, second || first, call, 0);
    second
}

// Asserts the reply to one more account after a crash.
fn assert_kept(rt: &impl Abort, alloc: Global, host: &MemHost, want: &str, call: u64, fill: u8) {
    let left = crashed(rt, host, host.now(), fill);
    let mut next = next_of(rt, alloc, ACCOUNT, &left);
    drop(left);
    run_done(rt, alloc, &mut next);
    assert_bytes(rt, next.output(), want.as_bytes(), call, fill as u64);
    drop(next);
}

// A disk call of the first commit fails, also the sync of `pick`, and the program runs again on the same tapes. What it then
// replies to survives a crash: its opening synced what the first run had left pending.
#[test]
fn keeps_what_was_acknowledged_after_a_fault(rt: HostRuntime) {
    let alloc = rt.alloc();
    let input = two_takes(&rt, alloc);
    for call in 3..9u64 {
        let made = MemHost::new(alloc, &input, &[], &[], &[call]);
        let mut host = made.expect(&rt, "memory");
        let second = run_again(&rt, alloc, &mut host, call);
        let want = if second { THIRD } else { SECOND };
        for fill in [0u8, 1, 7, 255] {
            assert_kept(&rt, alloc, &host, want, call, fill);
        }
        drop(host);
    }
}
