// Worked examples. The lengths are those of Unicode's examples of segmentation, the forms those of Python's unicodedata.
use crate::telling::equals;
use cad_syntax::Text;
use cad_text::*;
use std::alloc::Global;
use std::cmp::Ordering;
use std::process::Abort;

static LENGTHS: [(&str, u64); 14] = [
    ("", 0),
    ("abc", 3),
    ("e\u{301}", 1),
    ("\u{E9}", 1),
    ("\r\n", 1),
    ("\n\r", 2),
    ("a\u{308}b", 2),
    ("\u{1F1E6}\u{1F1E7}\u{1F1E8}", 2),
    ("\u{1F476}\u{1F3FF}\u{1F476}", 2),
    ("a\u{200D}\u{1F6D1}", 2),
    ("\u{1F6D1}\u{200D}\u{1F6D1}", 1),
    ("\u{915}\u{94D}\u{924}", 1),
    ("\u{1100}\u{1161}\u{11A8}", 1),
    ("\u{E01}\u{E33}", 1),
];

#[test]
fn lengths_are_counts_of_clusters(rt: HostRuntime) {
    for (text, expected) in LENGTHS.iter() {
        equals(&rt, &length(text), expected);
    }
}

static EQUAL: [(&str, &str, bool); 8] = [
    ("e\u{301}", "\u{E9}", true),
    ("\u{212B}", "\u{C5}", true),
    ("\u{344}", "\u{308}\u{301}", true),
    ("\u{1100}\u{1161}", "\u{AC00}", true),
    ("a\u{323}\u{307}", "a\u{307}\u{323}", true),
    ("\u{FB01}", "fi", false),
    ("a", "A", false),
    ("", "", true),
];

fn equality_holds(rt: &impl Abort, alloc: Global) {
    for (a, b, expected) in EQUAL.iter() {
        let found = equal(alloc, a, b).expect(rt, "memory");
        equals(rt, &found, expected);
    }
}

static ORDERED: [(&str, &str, Ordering); 8] = [
    ("a", "b", Ordering::Less),
    ("b", "a", Ordering::Greater),
    ("a", "a", Ordering::Equal),
    ("a", "ab", Ordering::Less),
    ("e\u{301}", "f", Ordering::Greater),
    ("e\u{301}", "\u{E9}", Ordering::Equal),
    ("\u{FF5E}", "\u{10000}", Ordering::Less),
    ("Z", "a", Ordering::Less),
];

fn order_holds(rt: &impl Abort, alloc: Global) {
    for (a, b, expected) in ORDERED.iter() {
        let found = compare(alloc, a, b).expect(rt, "memory");
        equals(rt, &found, expected);
    }
}

#[test]
fn texts_are_compared_by_their_forms(rt: HostRuntime) {
    equality_holds(&rt, rt.alloc());
    order_holds(&rt, rt.alloc());
}

static PARTS: [(&str, i128, i128, &str); 6] = [
    ("abc", 1, 3, "bc"),
    ("abc", 0, 0, ""),
    ("abc", 3, 3, ""),
    ("e\u{301}x", 0, 1, "e\u{301}"),
    ("e\u{301}x", 1, 2, "x"),
    ("\u{1F1E6}\u{1F1E7}\u{1F1E8}", 1, 2, "\u{1F1E8}"),
];

fn parts_hold(rt: &impl Abort, alloc: Global) {
    for (text, from, up_to, expected) in PARTS.iter() {
        let part = slice(alloc, text, *from, *up_to).expect(rt, "a part");
        equals(rt, &part.as_str(), expected);
    }
}

static NO_PARTS: [(&str, i128, i128); 7] = [
    ("abc", 1, 4),
    ("abc", -1, 2),
    ("abc", 2, 1),
    ("abc", 4, 4),
    ("e\u{301}", 0, 2),
    ("", i128::MIN, i128::MAX),
    ("", 18_446_744_073_709_551_616, 18_446_744_073_709_551_616),
];

#[test]
fn parts_are_cut_by_clusters(rt: HostRuntime) {
    parts_hold(&rt, rt.alloc());
    for (text, from, up_to) in NO_PARTS.iter() {
        let error = slice(rt.alloc(), text, *from, *up_to).expect_err(&rt, "no part");
        equals(&rt, &error, &TextError::Slice);
    }
}

static HEXADECIMAL: [(&[u8], &str); 2] = [(&[255], "ff"), (&[0, 171, 9], "00ab09")];

fn bytes_are_encoded(rt: &impl Abort, alloc: Global) {
    for (bytes, text) in HEXADECIMAL.iter() {
        let written = encode_hex(alloc, bytes).expect(rt, "memory");
        equals(rt, &written.as_str(), text);
    }
}

static DIGITS: [(&str, &[u8]); 2] = [("00aBFf", &[0, 171, 255]), ("", &[])];

fn digits_are_read(rt: &impl Abort, alloc: Global) {
    for (text, bytes) in DIGITS.iter() {
        let read = decode_hex(alloc, text).expect(rt, "digits");
        equals(rt, &read.as_slice(), bytes);
    }
}

static NO_DIGITS: [&str; 7] = ["zz", "0", "0g", "abc", "0x00", " 00", "\u{FF10}0"];

#[test]
fn hexadecimal_forms(rt: HostRuntime) {
    bytes_are_encoded(&rt, rt.alloc());
    digits_are_read(&rt, rt.alloc());
    for text in NO_DIGITS.iter() {
        let error = decode_hex(rt.alloc(), text).expect_err(&rt, "no digits");
        equals(&rt, &error, &TextError::Hex);
    }
}

/// As many bytes in digits.
fn digits(alloc: Global, count: usize) -> Result<Text, TextError> {
    let bytes = vec![in alloc; 0; count]?;
    encode_hex(alloc, bytes.as_slice())
}

/// Asserts that the text is the greatest that there is.
fn is_largest(rt: &impl Abort, alloc: Global, text: &str) {
    let whole = concat(alloc, text, "").expect(rt, "memory");
    equals(rt, &whole.as_bytes().len(), &1_048_576);
    let error = concat(alloc, text, "a").expect_err(rt, "too large");
    equals(rt, &error, &TextError::TooLarge);
}

#[test]
fn texts_have_at_most_a_mebibyte(rt: HostRuntime) {
    let error = digits(rt.alloc(), 524_289).expect_err(&rt, "too large");
    equals(&rt, &error, &TextError::TooLarge);
    let largest = digits(rt.alloc(), 524_288).expect(&rt, "memory");
    is_largest(&rt, rt.alloc(), largest.as_str());
    let short = concat(rt.alloc(), "a", "b").expect(&rt, "memory");
    equals(&rt, &short.as_str(), &"ab");
}
