//! Readers and writers whose failures are counted (`Counted`), and bytes written out to one (`write_out`).
ghost use Rattle.std.specs.Prelude.{◌≡◌, ◌<◌, ◌++◌, length, take, OnOk};
ghost use Rattle.std.specs.Io.KnownBytes.{Appends, Keeps};
ghost use Rattle.cap_session.specs.Counted.{state_of, inner_of, new_stream, bytes_in, CanCount, after_read, after_write, after_writes, after_flush, one_failure, CountsWrite, Gives, Takes, sent_count, IsSentCount, got_of, put_of};

use http_server::Log;
use std::io;
use std::io::{ErrorKind, Read, Write};

/// A reader or a writer, and how often it failed, was quiet, and was found at its end, each counted from 0. Contracts see the
/// three counts, how many reads gave bytes, the bytes that its reads gave, and those that its writes took.
#[derive(Drop)]
pub struct Counted<T> {
    inner: T,
    failures: u64,
    quiets: u64,
    ends: u64,
    error: Option<io::Error>,
    // These exist for contracts alone: an entry for each read that gave bytes, the bytes, and those that were taken.
    reads: Log<(), ()>,
    given: Log<u8, ()>,
    taken: Log<u8, ()>,
}

/// What a read gave.
#[derive(Clone, Copy, Debug, PartialEq, Eq)]
pub enum Got {
    /// So many bytes, at least one.
    Bytes(usize),
    /// The input has ended.
    End,
    /// Nothing came in time.
    Quiet,
    /// The reader failed.
    Fault,
}

/// What a write took.
#[derive(Clone, Copy, Debug, PartialEq, Eq)]
pub enum Put {
    /// So many bytes, at least one.
    Bytes(usize),
    /// The writer failed.
    Fault,
}

/// What was written out of some bytes.
#[derive(Clone, Copy, Debug, PartialEq, Eq)]
pub enum Sent {
    /// All, so many bytes.
    All(usize),
    /// So many first bytes, and then the writer failed.
    Fault { sent: usize },
}

impl Sent {
    /// How many bytes were written out.
    pub fn count(self) -> usize
        ensures { result ≡ sent_count self }
    {
        match self {
            Sent::All(count) => count,
            Sent::Fault { sent } => sent,
        }
    }
}

/// A writer did not pass on what it held back.
#[derive(Clone, Copy, Debug, PartialEq, Eq)]
pub struct StreamFailed;

impl<T> Counted<T> {
    /// The reader or writer, with nothing counted yet.
    pub fn new(inner: T) -> Counted<T>
        ensures inner { inner_of result ≡ inner }
        ensures state { state_of result ≡ new_stream }
    {
        Counted {
            inner,
            failures: 0,
            quiets: 0,
            ends: 0,
            error: None,
            reads: Log::new(),
            given: Log::new(),
            taken: Log::new(),
        }
    }

    /// How many calls failed.
    pub fn failures(&self) -> u64
        ensures { result ≡ (state_of self.now).failures }
    {
        self.failures
    }

    /// How many reads gave nothing in time.
    pub fn quiets(&self) -> u64
        ensures { result ≡ (state_of self.now).quiets }
    {
        self.quiets
    }

    /// How many reads found the end of the input.
    pub fn ends(&self) -> u64
        ensures { result ≡ (state_of self.now).ends }
    {
        self.ends
    }

    /// The error of the last call that failed. `None` where none did, or where it was a write that took no byte.
    pub fn error(&self) -> Option<io::Error>
        ensures { result ≡ self.now.error }
    {
        self.error
    }

    /// The reader or writer. What was counted of it is given up.
    pub fn into_inner(self) -> T
        ensures { result ≡ inner_of self }
    {
        let Counted {
            inner,
            failures: _,
            quiets: _,
            ends: _,
            error: _,
            reads: _,
            given: _,
            taken: _,
        } = self;
        inner
    }

    /// Counts a failure, and keeps its error.
    fn fail(&mut self, error: Option<io::Error>)
        requires { CanCount (state_of self.old) }
        ensures state { state_of self.new ≡ one_failure (state_of self.old) }
        ensures inner { inner_of self.new ≡ inner_of self.old }
        ensures error { self.new.error ≡ error }
    {
        self.failures += 1;
        self.error = error;
    }
}

impl<R: Read> Counted<R> {
    /// Reads once into `buf`, which has room, and counts what the read gave, unless it gave bytes. An error of the reader is a
    /// failure, an interrupted call too; `WouldBlock` and `TimedOut` are none, and the reader is then quiet.
    pub fn read(&mut self, buf: &mut [u8]) -> Got
        requires counts { CanCount (state_of self.old) }
        requires room { 0 < length buf.old }
        ensures state { state_of self.new ≡ after_read (state_of self.old) result buf.new }
        ensures bytes { Gives (R.remaining (inner_of self.old)) (R.remaining (inner_of self.new))
            buf.new result }
    {
        let answer = self.inner.read(buf);
        let got = classify_read(&answer);
        match got {
            Got::Bytes(n) => {
                self.reads = self.reads.and(&(), &());
                log_bytes(&mut self.given, &buf[..n]);
            }
            Got::End => self.ends += 1,
            Got::Quiet => self.quiets += 1,
            Got::Fault => self.fail(answer.err()),
        }
        got
    }
}

impl<W: Write> Counted<W> {
    /// Writes once from `buf`, which is not empty, and counts a failure: any error of the writer, and a write of no byte.
    pub fn write(&mut self, buf: &[u8]) -> Put
        requires counts { CanCount (state_of self.old) }
        requires some { 0 < length buf.now }
        ensures state { state_of self.new ≡ after_write (state_of self.old) result buf.now }
        ensures bytes { Takes (W.contents (inner_of self.old)) (W.contents (inner_of self.new))
            buf.now result }
    {
        let answer = self.inner.write(buf);
        let put = classify_write(&answer);
        match put {
            Put::Bytes(n) => log_bytes(&mut self.taken, &buf[..n]),
            Put::Fault => self.fail(answer.err()),
        }
        put
    }

    /// Writes all of the bytes, in as many writes as it takes, up to the first that fails, which is counted.
    pub fn write_all(&mut self, bytes: &[u8]) -> Sent
        requires { CanCount (state_of self.old) }
        ensures count { IsSentCount bytes.now result }
        ensures state { state_of self.new
            ≡ after_writes (state_of self.old) (take (sent_count result) bytes.now) result }
        ensures bytes { Appends (W.contents (inner_of self.old)) (W.contents (inner_of self.new))
            (take (sent_count result) bytes.now) }
    {
        let mut sent = 0;
        while sent < bytes.len() {
            match self.write(&bytes[sent..]) {
                Put::Bytes(n) => sent += n,
                Put::Fault => return Sent::Fault { sent },
            }
        }
        Sent::All(sent)
    }

    /// Passes on what the writer holds back. Where that fails it is counted.
    pub fn flush(&mut self) -> Result<(), StreamFailed>
        requires { CanCount (state_of self.old) }
        ensures state { state_of self.new ≡ after_flush (state_of self.old) result }
        ensures bytes { Keeps (W.contents (inner_of self.old)) (W.contents (inner_of self.new)) }
    {
        match self.inner.flush() {
            Ok(()) => Ok(()),
            Err(error) => {
                self.fail(Some(error));
                Err(StreamFailed)
            }
        }
    }
}

/// Writes all the bytes and flushes. An error means that one of the two failed, which the writer counts as one failure; a beginning
/// of the bytes may have been written.
pub fn write_out<W: Write>(writer: &mut Counted<W>, bytes: &[u8]) -> Result<(), StreamFailed>
    requires { CanCount (state_of writer.old) }
    ensures counts { CountsWrite result (state_of writer.old) (state_of writer.new) }
    ensures bytes { OnOk result (Appends
        (W.contents (inner_of writer.old)) (W.contents (inner_of writer.new)) bytes.now) }
{
    match writer.write_all(bytes) {
        Sent::All(_) => writer.flush(),
        Sent::Fault { .. } => Err(StreamFailed),
    }
}

// What a read into free room gave.
fn classify_read(answer: &io::Result<usize>) -> Got
    ensures { result ≡ got_of answer.now }
{
    match answer {
        Ok(0) => Got::End,
        Ok(n) => Got::Bytes(*n),
        Err(error) => match error.kind() {
            ErrorKind::WouldBlock | ErrorKind::TimedOut => Got::Quiet,
            _ => Got::Fault,
        },
    }
}

// What a write of some bytes took.
fn classify_write(answer: &io::Result<usize>) -> Put
    ensures { result ≡ put_of answer.now }
{
    match answer {
        Ok(0) | Err(_) => Put::Fault,
        Ok(n) => Put::Bytes(*n),
    }
}

/// Adds the bytes to a history that only contracts read. It does nothing else.
pub fn log_bytes(history: &mut Log<u8, ()>, bytes: &[u8])
    ensures { bytes_in history.new.items ≡ bytes_in history.old.items ++ bytes.now }
{
    for byte in bytes {
        *history = history.and(byte, &());
    }
}
