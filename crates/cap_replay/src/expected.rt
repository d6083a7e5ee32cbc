//! What is expected where a line of the script is bad, and words for it (`Expected`).

/// What is expected where a line is bad.
#[derive(Clone, Copy)]
pub(crate) enum Expected {
    /// The first word of a line.
    Command,
    /// What follows `open` and `end`.
    Connection,
    /// What follows `bytes`.
    Piece,
    /// What follows `copy` and `commit`.
    Worker,
    /// What follows `propose`.
    Start,
    /// A property line before the first step.
    Earlier,
}

impl Expected {
    /// What is expected in a line that is none of a script, by its first word.
    pub(crate) fn after(line: &[u8]) -> Expected {
        if line.starts_with(b"open ") || line.starts_with(b"end ") {
            Expected::Connection
        } else if line.starts_with(b"bytes ") {
            Expected::Piece
        } else if line.starts_with(b"copy ") || line.starts_with(b"commit ") {
            Expected::Worker
        } else if line.starts_with(b"propose ") {
            Expected::Start
        } else {
            Expected::Command
        }
    }

    /// The words for it.
    pub(crate) fn words(self) -> &'static str {
        match self {
            Expected::Command => {
                "a line begins with # or with one of conf, open, bytes, end, copy, propose, commit and a space"
            }
            Expected::Connection => {
                "after the space the number of a connection is expected, 0 to 4294967295"
            }
            Expected::Piece => {
                "after the space the number of a connection, a space and an even number of hexadecimal digits are expected"
            }
            Expected::Worker => {
                "after the space the number of a worker is expected, 0 to 4294967295"
            }
            Expected::Start => {
                "after the space the number of a worker, a space and the number of a first node are expected, each 0 to 4294967295"
            }
            Expected::Earlier => "a conf line is expected before all steps",
        }
    }
}
