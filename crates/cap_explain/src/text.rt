//! A text with words under each line that completes a frame (`explain`).

use crate::explainer::Explainer;
use cap_text::split_line;
use std::alloc::{AllocError, Global};

/// A script of `capsched replay`, what it prints, or both one after the other, with words: each line of the text again, without
/// a carriage return before its line feed, and under it a line that begins with `# ` for each frame that the line completes. Of a
/// line `bytes` that is `# C -> ` and the request on connection C, however it is cut into pieces; of a line `out`, `# C <- ` and
/// the reply. A number opens once. A length that no frame has is told once: it ends its connection, as a line `end` does, and what
/// comes on it then has no words. Any text has words; every other line, and digits that are no frame, have none. `AllocError` if an
/// allocation fails.
pub fn explain(alloc: Global, text: &[u8]) -> Result<Vec<u8>, AllocError> {
    let mut explained = Vec::new(alloc);
    let mut explainer = Explainer::new(alloc);
    let mut rest = text;
    while !rest.is_empty() {
        let (line, after) = split_line(rest);
        put_line(alloc, &mut explained, &mut explainer, line)?;
        rest = after;
    }
    Ok(explained)
}

/// The line again, and its words.
fn put_line(
    alloc: Global,
    explained: &mut Vec<u8>,
    explainer: &mut Explainer,
    line: &[u8],
) -> Result<(), AllocError> {
    explained.extend_from_slice(line)?;
    explained.extend_from_slice(b"\n")?;
    let words = explainer.words(alloc, line)?;
    explained.extend_from_slice(words.as_bytes())
}
