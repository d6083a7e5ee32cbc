//! Words for a stream that failed (`explain_streams`).

use cap_session::Counted;
use std::alloc::{AllocError, Global};
use std::io::{Read, Write};

/// Adds a line of words: which stream failed, and the system's error. If an allocation fails, a part of it may have been added.
pub(crate) fn explain_streams<R: Read, W: Write>(
    alloc: Global,
    reader: &Counted<R>,
    writer: &Counted<W>,
    complaint: &mut String,
) -> Result<(), AllocError> {
    let (stream, error, otherwise) = if writer.failures() > 0 {
        ("standard output", writer.error(), "it took no byte")
    } else if reader.quiets() > 0 {
        ("standard input", None, "nothing came in time")
    } else {
        (
            "standard input",
            reader.error(),
            "it did not end within 4294967296 reads",
        )
    };
    let line = match error {
        Some(error) => format!(in alloc; "{stream}: {error}\n")?,
        None => format!(in alloc; "{stream}: {otherwise}\n")?,
    };
    complaint.push_str(line.as_str())
}
