// Runs over a host in memory.
use crate::running::{assert_bytes, assert_run, assert_status, host_of, joined, words_of};
use cad_host::SureHost;
use cad_serve::{Status, serve};
use std::alloc::Global;
use std::process::Abort;

const SUM: &str =
    "{\"kind\":\"script\",\"code\":\"access(all) fun main(): Int { return 1 + 2 * 3 }\"}";

const SEVEN: &str = "{\"reply\":\"ok\",\"result\":{\"type\":\"Int\",\"value\":\"7\"}}\n";

const TOO_LONG: &str = "{\"error\":\"27\",\"reply\":\"bad\"}\n";

const UNREAD: &str = "{\"error\":\"21\",\"reply\":\"bad\"}\n";

// Lines that ask for nothing that can run, each with the number of its fault.
const FAULTS: [(&str, u16); 10] = [
    ("hello", 21),
    ("{}", 22),
    ("{\"kind\":\"dance\"}", 23),
    ("{\"kind\":\"script\"}", 22),
    ("{\"kind\":\"script\",\"code\":\"#\",\"limit\":0}", 28),
    (
        "{\"kind\":\"script\",\"code\":\"access(all) fun main(a: Address) {}\",\"arguments\":[{\"type\":\"Address\",\"value\":\"1\"}]}",
        24,
    ),
    (
        "{\"kind\":\"script\",\"code\":\"access(all) fun main() {}\",\"arguments\":[1]}",
        25,
    ),
    ("{\"kind\":\"script\",\"code\":\"transaction {}\"}", 26),
    (
        "{\"kind\":\"transaction\",\"code\":\"transaction { prepare(a: auth(Contracts) &Account) { let c = a.contracts } }\"}",
        26,
    ),
    (
        "{\"kind\":\"transaction\",\"code\":\"transaction {}\",\"signers\":[\"0x9\"]}",
        26,
    ),
];

// Scripts and a transaction that run, with their replies.
const SCRIPTS: [(&str, &str); 6] = [
    (
        "{\"kind\":\"script\",\"code\":\"access(all) fun main(): Bool { return 1 < 2 }\"}",
        "{\"reply\":\"ok\",\"result\":{\"type\":\"Bool\",\"value\":true}}\n",
    ),
    (
        "{\"kind\":\"script\",\"code\":\"access(all) fun main(a: Int8): Int8 { return a + 1 }\",\"arguments\":[{\"value\":\"127\",\"type\":\"Int8\"}]}",
        "{\"error\":\"101\",\"reply\":\"failed\"}\n",
    ),
    (
        "{\"kind\":\"script\",\"code\":\"access(all) fun main() { panic(\\\"stop\\\") }\"}",
        "{\"error\":\"109\",\"reply\":\"failed\"}\n",
    ),
    (
        "{\"kind\":\"script\",\"code\":\"access(all) fun main() { while true {} }\",\"limit\":5}",
        "{\"reply\":\"limit\"}\n",
    ),
    (
        "{\"kind\":\"script\",\"code\":\"access(all) fun main(): Address { return getAccount(0x1).address }\"}",
        "{\"reply\":\"ok\",\"result\":{\"type\":\"Address\",\"value\":\"0x0000000000000001\"}}\n",
    ),
    (
        "{\"kind\":\"transaction\",\"code\":\"transaction {}\"}",
        "{\"destroyed\":[],\"events\":[],\"made\":[],\"reply\":\"ok\"}\n",
    ),
];

const UNPARSED: &str = "{\"kind\":\"script\",\"code\":\"fun\"}";

const UNLEXED: &str = "{\"kind\":\"transaction\",\"code\":\"transaction { # }\",\"limit\":7}";

const REJECTED: &str = "{\"at\":\"0\",\"in\":\"\",\"phase\":\"parse\",\"reply\":\"rejected\"}
{\"at\":\"14\",\"in\":\"\",\"phase\":\"lex\",\"reply\":\"rejected\"}
";

const ILL_TYPED: &str =
    "{\"kind\":\"script\",\"code\":\"access(all) fun main() { let n: Int = true }\"}";

const LOST: &str = "{\"kind\":\"deploy\",\"address\":\"0x9\",\"name\":\"C\",\"code\":\"fun\"}";

const UNCHECKED: &str = "{\"at\":\"0\",\"in\":\"main\",\"phase\":\"types\",\"reply\":\"rejected\"}
{\"error\":\"26\",\"reply\":\"bad\"}
";

const OVERFLOW: &str = "{\"error\":\"101\",\"reply\":\"failed\"}\n";

// The sum that has no result.
const EDGE: &str =
    "{\"kind\":\"script\",\"code\":\"access(all) fun main(): Int { return 170141183460469231731687303715884105727 + 1 }\"}";

// Asserts the replies to an input.
fn assert_replies(rt: &impl Abort, alloc: Global, input: &[u8], want: &[u8], row: u64) {
    let words = words_of(rt, alloc, &["run", "accounts"]);
    let mut host = SureHost::new(alloc, input).expect(rt, "memory");
    let status = serve(alloc, words.as_slice(), &mut host);
    assert_status(rt, status, Status::Done, row);
    assert_bytes(rt, host.output(), want, row, 0);
    drop(host);
}

// Asserts the replies to pieces of an input, one behind the other.
fn assert_pieces(rt: &impl Abort, alloc: Global, input: &[&str], want: &[&str], row: u64) {
    let input = joined(rt, alloc, input);
    let want = joined(rt, alloc, want);
    assert_replies(rt, alloc, input.as_bytes(), want.as_bytes(), row);
}

#[test]
fn replies_to_lines(rt: HostRuntime) {
    let alloc = rt.alloc();
    assert_pieces(&rt, alloc, &[SUM], &[SEVEN], 0);
    assert_pieces(&rt, alloc, &[" \t\r\n\n", SUM, "\n \t"], &[SEVEN], 1);
    assert_pieces(&rt, alloc, &[SUM, "\n", SUM, "\n"], &[SEVEN, SEVEN], 2);
    assert_pieces(&rt, alloc, &[EDGE], &[OVERFLOW], 3);
    assert_pieces(&rt, alloc, &[""], &[""], 4);
    assert_pieces(&rt, alloc, &["hello\n", SUM], &[UNREAD, SEVEN], 5);
    assert_pieces(
        &rt,
        alloc,
        &[UNPARSED, "\n", UNLEXED, "\n", SUM],
        &[REJECTED, SEVEN],
        6,
    );
    assert_pieces(
        &rt,
        alloc,
        &[ILL_TYPED, "\n", LOST, "\n", SUM],
        &[UNCHECKED, SEVEN],
        7,
    );
}

#[test]
fn tells_faults_apart(rt: HostRuntime) {
    let alloc = rt.alloc();
    for (line, number) in FAULTS {
        let made = format!(in alloc; "{{\"error\":\"{number}\",\"reply\":\"bad\"}}\n");
        let want = made.expect(&rt, "memory");
        assert_replies(&rt, alloc, line.as_bytes(), want.as_bytes(), number as u64);
    }
}

#[test]
fn runs_scripts(rt: HostRuntime) {
    let alloc = rt.alloc();
    let mut row = 0u64;
    for (line, want) in SCRIPTS {
        assert_replies(&rt, alloc, line.as_bytes(), want.as_bytes(), row);
        row = row.saturating_add(1);
    }
}

#[test]
fn skips_the_rest_of_a_long_line(rt: HostRuntime) {
    let alloc = rt.alloc();
    let mut input = vec![in alloc; b'x'; 2_000_000].expect(&rt, "memory");
    input.push(b'\n').expect(&rt, "memory");
    input
        .extend_from_slice(SUM.as_bytes())
        .expect(&rt, "memory");
    let want = joined(&rt, alloc, &[TOO_LONG, SEVEN]);
    assert_replies(&rt, alloc, &input, want.as_bytes(), 0);
}

// Asserts what the program answers to words.
fn assert_answer(rt: &impl Abort, alloc: Global, list: &[&str], status: Status, row: u64) {
    let words = words_of(rt, alloc, list);
    let mut host = SureHost::new(alloc, SUM.as_bytes()).expect(rt, "memory");
    let answer = serve(alloc, words.as_slice(), &mut host);
    assert_status(rt, answer, status, row);
    drop(host);
}

#[test]
fn knows_one_form_of_words(rt: HostRuntime) {
    let alloc = rt.alloc();
    assert_answer(&rt, alloc, &[], Status::Usage, 0);
    assert_answer(&rt, alloc, &["run", "accounts"], Status::Done, 1);
    assert_answer(&rt, alloc, &["run", ""], Status::Usage, 2);
    assert_answer(&rt, alloc, &["run", "-x"], Status::Usage, 3);
    assert_answer(&rt, alloc, &["ran", "accounts"], Status::Usage, 4);
    assert_answer(&rt, alloc, &["run"], Status::Usage, 5);
    assert_answer(&rt, alloc, &["run", "accounts", "more"], Status::Usage, 6);
}

// Asserts how a run over a sum twice ends, of which these calls fail.
fn assert_two(
    rt: &impl Abort,
    alloc: Global,
    takes: &[u64],
    puts: &[u64],
    status: Status,
    output: &[u8],
) {
    let input = joined(rt, alloc, &[SUM, "\n", SUM, "\n"]);
    let mut host = host_of(rt, alloc, &input, takes, puts, &[]);
    assert_run(rt, alloc, &mut host, status, output, 0);
    drop(host);
}

#[test]
fn ends_at_the_first_fault(rt: HostRuntime) {
    let alloc = rt.alloc();
    let both = joined(&rt, alloc, &[SEVEN, SEVEN]);
    let half = &SEVEN.as_bytes()[..SEVEN.len() / 2];
    assert_two(&rt, alloc, &[0], &[], Status::ReadFault, &[]);
    assert_two(&rt, alloc, &[1], &[], Status::ReadFault, both.as_bytes());
    assert_two(&rt, alloc, &[], &[0], Status::WriteFault, half);
}

// Asserts the number of a status and the line that it prints.
fn assert_end(rt: &impl Abort, status: Status, number: u8, want: &str) {
    assert_bytes(rt, &[status.number()], &[number], number as u64, 0);
    let line = status.line().expect(rt, "a line");
    assert_bytes(rt, line.as_bytes(), want.as_bytes(), number as u64, 1);
}

#[test]
fn tells_how_it_ends(rt: HostRuntime) {
    assert_bytes(&rt, &[Status::Done.number()], &[0], 0, 0);
    assert!(rt; Status::Done.line().is_none());
    assert_end(&rt, Status::Usage, 2, "cadence: usage");
    assert_end(&rt, Status::ReadFault, 3, "cadence: read fault");
    assert_end(&rt, Status::WriteFault, 4, "cadence: write fault");
    assert_end(&rt, Status::DiskFault, 5, "cadence: disk fault");
    assert_end(&rt, Status::Memory, 6, "cadence: memory");
    assert_end(&rt, Status::BadStore, 7, "cadence: bad store");
    assert_end(&rt, Status::InputBound, 8, "cadence: input bound");
}
