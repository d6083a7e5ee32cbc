//! What a line has for an explanation (`Line`, `line_of`).

use cap_text::split_once;

/// The greatest number of digits that a connection's number may have.
const DIGITS_MAX: usize = 10;

/// What a line has for an explanation.
#[derive(Clone, Copy)]
pub(crate) enum Line<'a> {
    /// Nothing.
    Other,
    /// A connection opens.
    Open(u64),
    /// A connection ends.
    End(u64),
    /// A piece comes on a connection, in hexadecimal.
    Bytes(u64, &'a [u8]),
    /// A frame is answered on a connection, in hexadecimal.
    Out(u64, &'a [u8]),
}

/// What the line has.
pub(crate) fn line_of(line: &[u8]) -> Line<'_> {
    if let Some(number) = line.strip_prefix(b"open ") {
        return match cap_text::number_of(number, DIGITS_MAX) {
            Some(number) => Line::Open(number),
            None => Line::Other,
        };
    }
    if let Some(number) = line.strip_prefix(b"end ") {
        return match cap_text::number_of(number, DIGITS_MAX) {
            Some(number) => Line::End(number),
            None => Line::Other,
        };
    }
    if let Some(Some((number, digits))) = line.strip_prefix(b"bytes ").map(numbered) {
        return Line::Bytes(number, digits);
    }
    if let Some(Some((number, digits))) = line.strip_prefix(b"out ").map(numbered) {
        return Line::Out(number, digits);
    }
    Line::Other
}

/// The number before the first space, and what comes after it.
fn numbered(words: &[u8]) -> Option<(u64, &[u8])> {
    let (number, rest) = split_once(words, b' ')?;
    match cap_text::number_of(number, DIGITS_MAX) {
        Some(number) => Some((number, rest)),
        None => None,
    }
}
