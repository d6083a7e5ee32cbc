//! The path of a queue as text (`text_of`).
ghost use Rattle.std.specs.Prelude.{◌≡◌};

use cap_base::PathText;
use std::str;

/// The path of a queue as text.
pub(crate) fn text_of(path: &PathText) -> &str
    ensures { result.now ≡ path.now }
{
    let Ok(text) = str::from_utf8(path.as_bytes()) else {
        unreachable!()
    };
    text
}
