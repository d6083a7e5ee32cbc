//! Tests of pieces of texts: cuts at a byte, lines, bytes without spaces round them, and decimal numbers.

use cap_text::{number_of, split_line, split_once, trimmed, without_return};

/// Whether the bytes are cut at their first `=` into these two parts.
fn is_cut(bytes: &str, front: &str, rest: &str) -> bool {
    match split_once(bytes.as_bytes(), b'=') {
        Some(parts) => parts.0 == front.as_bytes() && parts.1 == rest.as_bytes(),
        None => false,
    }
}

#[test]
fn bytes_are_cut_at_the_first_separator(rt: HostRuntime) {
    for &(bytes, front, rest) in &[
        ("key=a=b", "key", "a=b"),
        ("key=", "key", ""),
        ("=value", "", "value"),
        ("=", "", ""),
    ] {
        assert!(rt; is_cut(bytes, front, rest), "{bytes}");
    }
    assert!(rt; split_once(b"key:a", b'=').is_none());
    assert!(rt; split_once(b"", b'=').is_none());
}

/// Whether the first line of a text and what comes after it are these. An empty text has none.
fn is_first_line(text: &str, line: &str, after: &str) -> bool {
    if text.is_empty() {
        return false;
    }
    let parts = split_line(text.as_bytes());
    parts.0 == line.as_bytes() && parts.1 == after.as_bytes()
}

/// A text, its first line, and what comes after it.
const FIRST_LINES: [(&str, &str, &str); 7] = [
    ("a\nb\n", "a", "b\n"),
    ("a\r\nb", "a", "b"),
    ("a\r\r\n", "a\r", ""),
    ("\r\n\n", "", "\n"),
    ("a", "a", ""),
    ("a\r", "a\r", ""),
    ("a\rb\n", "a\rb", ""),
];

#[test]
fn a_line_ends_at_its_line_feed(rt: HostRuntime) {
    for &(text, line, after) in &FIRST_LINES {
        assert!(rt; is_first_line(text, line, after), "{text}");
    }
    assert!(rt; without_return(b"a\r") == b"a".as_slice());
}

/// Bytes, and what is left without the spaces at their ends.
const TRIMMED: [(&str, &str); 7] = [
    ("  a b ", "a b"),
    ("a", "a"),
    (" a", "a"),
    ("a ", "a"),
    ("\ta\t", "\ta\t"),
    ("   ", ""),
    ("", ""),
];

#[test]
fn spaces_at_both_ends_are_dropped(rt: HostRuntime) {
    for &(bytes, inner) in &TRIMMED {
        assert!(rt; trimmed(bytes.as_bytes()) == inner.as_bytes(), "{bytes}");
    }
}

/// The number of 1 to 3 digits that a text spells, and that of 1 to 19 digits.
fn numbers(text: &str) -> (Option<u64>, Option<u64>) {
    (
        number_of(text.as_bytes(), 3),
        number_of(text.as_bytes(), 19),
    )
}

/// A text, and the number that it is with at most 3 digits and with at most 19.
const NUMBERS: [(&str, Option<u64>, Option<u64>); 13] = [
    ("0", Some(0), Some(0)),
    ("007", Some(7), Some(7)),
    ("999", Some(999), Some(999)),
    ("0999", None, Some(999)),
    ("9999999999999999999", None, Some(9_999_999_999_999_999_999)),
    ("09999999999999999999", None, None),
    ("", None, None),
    ("-1", None, None),
    ("+1", None, None),
    ("1 ", None, None),
    ("1/", None, None),
    (":", None, None),
    ("0x1", None, None),
];

#[test]
fn numbers_are_decimal_digits(rt: HostRuntime) {
    for &(text, few, many) in &NUMBERS {
        assert!(rt; numbers(text) == (few, many), "{text}");
    }
}
