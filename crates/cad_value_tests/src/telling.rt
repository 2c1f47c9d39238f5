// What tests assert by, so that a message is put together in one place.
use std::fmt::Debug;
use std::process::Abort;

/// Asserts that what came is what is wanted.
pub(crate) fn equals<A: Debug + PartialEq>(rt: &impl Abort, found: &A, wanted: &A) {
    assert_eq!(rt; *found, *wanted);
}

/// Asserts that what came of a row is what is wanted.
pub(crate) fn equals_in<A: Debug + PartialEq>(rt: &impl Abort, row: &str, found: &A, wanted: &A) {
    assert_eq!(rt; *found, *wanted, "{row}");
}

/// Asserts what the row with a number tells.
pub(crate) fn holds_at(rt: &impl Abort, condition: bool, row: usize) {
    assert!(rt; condition, "{row}");
}

/// Asserts what a row tells.
pub(crate) fn holds(rt: &impl Abort, condition: bool, row: &str) {
    assert!(rt; condition, "{row}");
}
