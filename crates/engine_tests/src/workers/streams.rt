//! Readers and writers in memory.
use std::io::{self, ErrorKind, Read, Write};

/// When a reader is quiet.
#[derive(Clone, Copy, PartialEq, Eq)]
pub enum Quiet {
    Never,
    /// Once, between two pieces.
    Between,
    /// Before each time that it gives something.
    Before,
}

/// Gives the bytes of two pieces, at most so many a read, and is quiet at times; it fails or ends after them.
#[derive(Clone, Copy)]
pub struct Source<'a> {
    pub first: &'a [u8],
    pub second: Option<&'a [u8]>,
    pub step: usize,
    pub quiet: Quiet,
    pub was_quiet: bool,
    pub failure: Option<ErrorKind>,
}

impl Source<'_> {
    /// Goes on to the second piece after the first, and says whether it is quiet now.
    fn is_quiet(&mut self) -> bool {
        if self.first.is_empty()
            && let Some(second) = self.second
        {
            self.first = second;
            self.second = None;
            return self.quiet == Quiet::Between;
        }
        self.was_quiet = self.quiet == Quiet::Before && !self.first.is_empty() && !self.was_quiet;
        self.was_quiet
    }
}

impl Read for Source<'_> {
    fn read(&mut self, buf: &mut [u8]) -> io::Result<usize> {
        if self.is_quiet() {
            return Err(io::Error::from(ErrorKind::WouldBlock));
        }
        if self.first.is_empty() {
            return match self.failure {
                Some(kind) => Err(io::Error::from(kind)),
                None => Ok(0),
            };
        }
        let count = self.first.len().min(self.step).min(buf.len());
        let (given, rest) = self.first.split_at(count);
        buf[..count].copy_from_slice(given);
        self.first = rest;
        Ok(count)
    }
}

/// Takes so many bytes a write, and fails after a limit.
#[derive(Drop)]
pub struct Sink {
    pub kept: Vec<u8>,
    pub step: usize,
    pub limit: usize,
}

impl Write for Sink {
    fn write(&mut self, buf: &[u8]) -> io::Result<usize> {
        let left = self.limit.saturating_sub(self.kept.len());
        if left == 0 {
            return Err(io::Error::from(ErrorKind::BrokenPipe));
        }
        let count = buf.len().min(self.step).min(left);
        self.kept.extend_from_slice(&buf[..count])?;
        Ok(count)
    }

    fn flush(&mut self) -> io::Result<()> {
        Ok(())
    }
}
