//! The frames that a line completes, in words (`Explainer`).

use crate::line::{Line, line_of};
use crate::messages::{put_answer, put_request};
use crate::names::put_count;
use cap_frames::{FrameFault, Framer};
use cap_grammar::{MessageFault, read_reply, read_request};
use indexmap::IndexMap;
use std::alloc::{AllocError, Global};

/// What came on each connection of frames that are not whole yet. On one that has ended nothing comes any more (`None`).
#[derive(Drop)]
pub(crate) struct Explainer {
    streams: IndexMap<u64, Option<Framer>>,
}

impl Explainer {
    /// Before the first line.
    pub(crate) fn new(alloc: Global) -> Explainer {
        Explainer {
            streams: IndexMap::new(alloc),
        }
    }

    /// The words for a line: one line for each frame that it completes.
    pub(crate) fn words(&mut self, alloc: Global, line: &[u8]) -> Result<String, AllocError> {
        let mut words = String::new(alloc);
        match line_of(line) {
            Line::Other => {}
            Line::Open(connection) => self.open(alloc, connection)?,
            Line::End(connection) => self.end(connection),
            Line::Bytes(connection, digits) => {
                let Some(piece) = bytes_of(alloc, digits)? else {
                    return Ok(words);
                };
                let Some(Some(framer)) = self.streams.get_mut(&connection) else {
                    return Ok(words);
                };
                let goes_on = put_requests(alloc, &mut words, connection, framer, &piece)?;
                if !goes_on {
                    self.end(connection);
                }
            }
            Line::Out(connection, digits) => {
                if let Some(frame) = bytes_of(alloc, digits)? {
                    put_out(alloc, &mut words, connection, &frame)?;
                }
            }
        }
        Ok(words)
    }

    /// A connection opens, if its number was never opened.
    fn open(&mut self, alloc: Global, connection: u64) -> Result<(), AllocError> {
        if self.streams.contains_key(&connection) {
            return Ok(());
        }
        let Ok(framer) = Framer::new(alloc) else {
            return Err(AllocError);
        };
        match self.streams.insert(connection, Some(framer)) {
            Ok(_) => Ok(()),
            Err(_) => Err(AllocError),
        }
    }

    /// A connection ends, if it was opened.
    fn end(&mut self, connection: u64) {
        if let Some(stream) = self.streams.get_mut(&connection) {
            *stream = None;
        }
    }
}

/// The bytes that hexadecimal digits write; `None` where they write none.
fn bytes_of(alloc: Global, digits: &[u8]) -> Result<Option<Vec<u8>>, AllocError> {
    let mut bytes = Vec::new(alloc);
    bytes.resize(digits.len() / 2, 0)?;
    match hex::decode_to_slice(digits, &mut bytes) {
        Ok(()) => Ok(Some(bytes)),
        Err(_) => Ok(None),
    }
}

/// The requests that a piece completes. Whether more may come: not after a length that no frame has.
fn put_requests(
    alloc: Global,
    words: &mut String,
    connection: u64,
    framer: &mut Framer,
    piece: &[u8],
) -> Result<bool, AllocError> {
    let Ok(()) = framer.feed(piece) else {
        return Err(AllocError);
    };
    loop {
        match framer.next() {
            Ok(Some(payload)) => put_payload(alloc, words, connection, payload.as_slice())?,
            Ok(None) => return Ok(true),
            Err(FrameFault::BadLength) => {
                write!(words, "# {connection} -> no frame has this length\n")?;
                return Ok(false);
            }
            Err(FrameFault::NoMemory) => return Err(AllocError),
        }
    }
}

/// The request of a payload.
fn put_payload(
    alloc: Global,
    words: &mut String,
    connection: u64,
    payload: &[u8],
) -> Result<(), AllocError> {
    write!(words, "# {connection} -> ")?;
    match read_request(alloc, payload) {
        Ok((head, request)) => put_request(words, head, &request)?,
        Err(MessageFault::Bad) => {
            put_count(words, "no request, ", payload.len() as u64, "byte")?;
        }
        Err(MessageFault::NoMemory) => return Err(AllocError),
    }
    words.push_str("\n")
}

/// The reply of a frame.
fn put_out(
    alloc: Global,
    words: &mut String,
    connection: u64,
    frame: &[u8],
) -> Result<(), AllocError> {
    let [_, _, _, _, payload @ ..] = frame else {
        return Ok(());
    };
    match read_reply(alloc, payload) {
        Ok(answer) => {
            write!(words, "# {connection} <- ")?;
            put_answer(words, &answer)?;
            words.push_str("\n")
        }
        Err(MessageFault::Bad) => Ok(()),
        Err(MessageFault::NoMemory) => Err(AllocError),
    }
}
