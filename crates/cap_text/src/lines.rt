//! The lines of a text, one after the other (`split_line`), and a line without its carriage return (`without_return`).
ghost use Rattle.std.specs.Prelude.{◌≡◌, ◌∷◌, ◌<◌, length};
ghost use Rattle.std.specs.Str.Lines.{lines, strip_carriage_return};

use crate::cut::split_once;

/// The first line of a text that is not empty, and the text after it. A line ends at a line feed or at the text's end,
/// and a carriage return before the line feed is no part of it.
pub fn split_line(text: &[u8]) -> (&[u8], &[u8])
    requires { 0 < length text.now }
    ensures lines { lines text.now ≡ result.0.now ∷ lines result.1.now }
    ensures shorter { length result.1.now < length text.now }
{
    match split_once(text, b'\n') {
        Some((line, after)) => (without_return(line), after),
        None => (text, b""),
    }
}

/// The bytes of a line without the one carriage return at its end, if it has one there.
pub fn without_return(line: &[u8]) -> &[u8]
    ensures { result.now ≡ strip_carriage_return line.now }
{
    match line {
        [front @ .., b'\r'] => front,
        _ => line,
    }
}
