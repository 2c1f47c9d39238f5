// Calls that fail, tapes in memory and as files, and what crashes leave.
use crate::asserts::{assert_bytes, assert_number, assert_same};
use crate::store_tests::empty_host;
use cad_host::{Failed, FileHost, Host, MemHost, SureHost, Tape};
use std::fs::{self, Files};
use std::process::Abort;

// A text that is written, at its place.
type Write<'a> = (u64, &'a str);

// The name of a take, what it answers, and what is in the room behind it.
type Take<'a> = (&'a str, Result<usize, Failed>, [u8; 2]);

// Asserts what takes into a room of two bytes answer, and what is in the room behind each.
fn assert_takes<H: Host>(rt: &impl Abort, host: &mut H, rows: &[Take<'_>]) {
    let mut room = [0; 2];
    for (name, answer, behind) in rows {
        assert_same(rt, name, host.take(&mut room), *answer);
        assert_same(rt, name, room, *behind);
    }
}

// Asserts what puts of texts answer.
fn assert_puts<H: Host>(rt: &impl Abort, host: &mut H, rows: &[(&str, Result<(), Failed>)]) {
    for (text, answer) in rows {
        assert_same(rt, text, host.put(text.as_bytes()), *answer);
    }
}

// Asserts that the next four disk calls fail, and the one behind them doesn't.
fn assert_four_fail<H: Host>(rt: &impl Abort, host: &mut H) {
    assert_same(rt, "length", host.length(Tape::A), Err(Failed));
    assert_same(rt, "write", host.write(Tape::A, 0, b"x"), Err(Failed));
    assert_same(rt, "sync", host.sync(Tape::A), Err(Failed));
    assert_same(rt, "read", host.read(Tape::A, 0, &mut [0; 2]), Err(Failed));
    assert_same(rt, "length behind them", host.length(Tape::A), Ok(0));
}

#[test]
fn calls_in_the_lists_fail(rt: HostRuntime) {
    let made = MemHost::new(rt.alloc(), b"abcde", &[1], &[0, 2], &[0, 1, 2, 3]);
    let mut host = made.expect(&rt, "memory");
    let takes = [
        ("take 0", Ok(2), *b"ab"),
        ("take 1", Err(Failed), *b"ab"),
        ("take 2", Ok(2), *b"cd"),
        ("take 3", Ok(1), *b"ed"),
        ("take 4", Ok(0), *b"ed"),
    ];
    assert_takes(&rt, &mut host, &takes);
    let puts = [
        ("12345", Err(Failed)),
        ("-", Ok(())),
        ("6789", Err(Failed)),
        (".", Ok(())),
    ];
    assert_puts(&rt, &mut host, &puts);
    assert_bytes(&rt, "output", host.output(), b"12-67.");
    assert_four_fail(&rt, &mut host);
}

// Writes texts on a tape, one after another.
fn write_each(rt: &impl Abort, host: &mut SureHost, tape: Tape, rows: &[Write<'_>]) {
    for (at, text) in rows {
        assert!(rt; *at <= host.tape(tape).len() as u64);
        assert_same(rt, text, host.write(tape, *at, text.as_bytes()), Ok(()));
    }
}

// Asserts what reads of a tape with `hipper!` answer, and what is in the room behind each.
fn assert_reads<H: Host>(rt: &impl Abort, host: &mut H, tape: Tape) {
    assert_same(rt, "length", host.length(tape), Ok(7));
    let mut room = *b"....";
    assert_same(rt, "read", host.read(tape, 5, &mut room), Ok(2));
    assert_same(rt, "the room", room, *b"r!..");
    assert_same(
        rt,
        "read behind the end",
        host.read(tape, 9, &mut room),
        Ok(0),
    );
    assert_same(rt, "the room then", room, *b"r!..");
}

// Asserts that a host with the input `in` takes it, into a room that holds more.
fn assert_input<H: Host>(rt: &impl Abort, host: &mut H) {
    let mut room = *b"r!..";
    assert_same(rt, "take", host.take(&mut room), Ok(2));
    assert_same(rt, "the room", room, *b"in..");
}

fn assert_tape(rt: &impl Abort, host: &SureHost, tape: Tape, text: &str) {
    assert_bytes(rt, text, host.tape(tape), text.as_bytes());
}

#[test]
fn tapes_read_what_was_written(rt: HostRuntime) {
    let mut host = SureHost::new(rt.alloc(), b"in").expect(&rt, "memory");
    write_each(
        &rt,
        &mut host,
        Tape::B,
        &[(0, "hello"), (1, "ipp"), (4, "er!")],
    );
    assert_same(&rt, "sync", host.sync(Tape::B), Ok(()));
    assert_tape(&rt, &host, Tape::B, "hipper!");
    assert_reads(&rt, &mut host, Tape::B);
    host.fill(Tape::Pick, b"7").expect(&rt, "memory");
    assert_tape(&rt, &host, Tape::Pick, "7");
    assert_tape(&rt, &host, Tape::A, "");
    assert_puts(&rt, &mut host, &[("out", Ok(()))]);
    assert_bytes(&rt, "output", host.output(), b"out");
    assert_input(&rt, &mut host);
}

// Writes `hipper!` on tape a, and one byte on `pick`.
fn write_files<R: Input + Print + Files + Drop>(rt: &impl Abort, host: &mut FileHost<R>) {
    assert_same(rt, "length", host.length(Tape::A), Ok(0));
    assert_same(rt, "write", host.write(Tape::A, 0, b"hello"), Ok(()));
    assert_same(rt, "write at 1", host.write(Tape::A, 1, b"ipp"), Ok(()));
    assert_same(rt, "write at 4", host.write(Tape::A, 4, b"er!"), Ok(()));
    assert_same(rt, "write on pick", host.write(Tape::Pick, 0, b"1"), Ok(()));
    assert_same(rt, "sync", host.sync(Tape::A), Ok(()));
}

// Asserts what a host over those files reads, and what its streams answer.
fn assert_kept<H: Host>(rt: &impl Abort, host: &mut H) {
    assert_reads(rt, host, Tape::A);
    assert_same(rt, "length of b", host.length(Tape::B), Ok(0));
    assert_same(rt, "take", host.take(&mut []), Ok(0));
    assert_same(rt, "put", host.put(b"put\n"), Ok(()));
}

#[test]
fn files_keep_what_was_written(rt: HostRuntime) {
    let alloc = rt.alloc();
    let mut host = FileHost::new(alloc, rt, "store").expect(&rt, "memory");
    assert_same(&rt, "no folder yet", host.length(Tape::A), Err(Failed));
    fs::create_dir(&rt, "store").expect(&rt, "a folder");
    write_files(&rt, &mut host);

    let mut again = FileHost::new(alloc, rt, "store").expect(&rt, "memory");
    assert_kept(&rt, &mut again);
    let pick = fs::read(&rt, "store/pick").expect(&rt, "a file");
    assert_bytes(&rt, "pick", pick.as_slice(), b"1");
    drop(again);
    drop(host);
}

// Asserts what tape a reads behind a crash at each of these moments, where `.` may be anything.
fn assert_images(rt: &impl Abort, host: &SureHost, rows: &[(u64, &str)]) {
    for (moment, image) in rows {
        assert!(rt; *moment <= host.now());
        let crashed = host.crash(*moment, b'.').expect(rt, "memory");
        assert_bytes(rt, image, crashed.tape(Tape::A), image.as_bytes());
        drop(crashed);
    }
}

#[test]
fn crashes_leave_images(rt: HostRuntime) {
    let mut host = SureHost::new(rt.alloc(), b"").expect(&rt, "memory");
    write_each(&rt, &mut host, Tape::A, &[(0, "hello")]);
    assert_same(&rt, "sync", host.sync(Tape::A), Ok(()));
    write_each(&rt, &mut host, Tape::A, &[(1, "ipp"), (5, "!?")]);
    assert_same(&rt, "the second sync", host.sync(Tape::A), Ok(()));
    assert_number(&rt, "now", host.now(), 5);
    let images = [
        (0, ""),
        (1, "....."),
        (2, "hello"),
        (3, "h...o"),
        (4, "h...o.."),
        (5, "hippo!?"),
    ];
    assert_images(&rt, &host, &images);
    drop(host);
}

// What a crash leaves at the moment, which is this.
fn crashed_at(rt: &impl Abort, host: &MemHost, moment: u64, fill: u8) -> MemHost {
    assert_number(rt, "now", host.now(), moment);
    assert!(rt; moment <= host.now());
    host.crash(moment, fill).expect(rt, "memory")
}

#[test]
fn a_filled_tape_has_nothing_pending(rt: HostRuntime) {
    let mut host = empty_host(&rt, rt.alloc());
    host.fill(Tape::Pick, b"1").expect(&rt, "memory");
    assert_same(&rt, "put", host.put(b"out"), Ok(()));
    let crashed = crashed_at(&rt, &host, 2, 0);
    assert_bytes(&rt, "tape behind a crash", crashed.tape(Tape::Pick), b"1");
    assert_bytes(&rt, "output behind a crash", crashed.output(), b"");
    drop(crashed);
    drop(host);
}

// Asserts that the next take takes one byte, and the one behind it fails.
fn assert_one_taken<H: Host>(rt: &impl Abort, host: &mut H) {
    assert_same(rt, "take", host.take(&mut [0]), Ok(1));
    assert_same(rt, "take behind it", host.take(&mut [0]), Err(Failed));
}

// Asserts that a write on tape a, at most at its end, fails, and that a sync and a look behind it do.
fn assert_write_fails(rt: &impl Abort, host: &mut MemHost, at: u64, bytes: &[u8]) {
    assert!(rt; at <= host.tape(Tape::A).len() as u64);
    assert_same(rt, "write", host.write(Tape::A, at, bytes), Err(Failed));
    assert_bytes(rt, "tape", host.tape(Tape::A), b"helwx");
    assert_same(rt, "sync", host.sync(Tape::A), Err(Failed));
    assert_same(rt, "length", host.length(Tape::A), Err(Failed));
}

// A write that fails leaves its first half, and a crash may leave anything in all of its range.
#[test]
fn a_write_that_fails_leaves_half(rt: HostRuntime) {
    let made = MemHost::new(rt.alloc(), b"ab", &[1], &[], &[2, 3, 4]);
    let mut host = made.expect(&rt, "memory");
    assert_same(&rt, "write", host.write(Tape::A, 0, b"hello"), Ok(()));
    assert_same(&rt, "sync", host.sync(Tape::A), Ok(()));
    assert_write_fails(&rt, &mut host, 3, b"wxyz");
    assert_one_taken(&rt, &mut host);
    assert_bytes(&rt, "tape then", host.tape(Tape::A), b"helwx");
    let crashed = crashed_at(&rt, &host, 7, b'.');
    assert_bytes(&rt, "tape behind a crash", crashed.tape(Tape::A), b"hel..");
    drop(crashed);
    drop(host);
}
