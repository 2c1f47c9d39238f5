// Assertions that name what they are of. A call of one of them is proved sooner than the macro in its place.
use std::fmt::Debug;
use std::process::Abort;

pub(crate) fn assert_same<T: Copy + Debug + PartialEq>(
    rt: &impl Abort,
    what: &str,
    found: T,
    expected: T,
) {
    assert_eq!(rt; found, expected, "{what}");
}

pub(crate) fn assert_bytes(rt: &impl Abort, what: &str, found: &[u8], expected: &[u8]) {
    assert_same(rt, what, found, expected);
}

pub(crate) fn assert_number(rt: &impl Abort, what: &str, found: u64, expected: u64) {
    assert_same(rt, what, found, expected);
}
