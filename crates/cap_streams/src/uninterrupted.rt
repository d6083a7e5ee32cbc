//! Streams of which a call that a signal interrupts is no failure (`Uninterrupted`).
ghost use Rattle.std.specs.Prelude.{◌≡◌};
ghost use Rattle.cap_streams.specs.Interrupts.{IsUninterrupted};

use std::io::{self, ErrorKind, Read, Write};

/// How often a write that was interrupted is made again.
const WRITES_MAX: u32 = 100;

/// A stream of which an interrupted call is no failure: a read gave nothing in time, and a write is made again. Linux interrupts the calls on a
/// socket with a timeout when a process that was stopped continues (signal(7)).
#[derive(Drop)]
pub struct Uninterrupted<T> {
    inner: T,
}

impl<T> Uninterrupted<T> {
    /// A stream with none of its calls made yet.
    pub fn new(inner: T) -> Uninterrupted<T>
        ensures { result.inner ≡ inner }
    {
        Uninterrupted { inner }
    }
}

impl<R: Read> Read for Uninterrupted<R> {
    ghost remaining = { λ s. R.remaining s.inner };

    fn read(&mut self, buf: &mut [u8]) -> io::Result<usize> {
        let answer = self.inner.read(buf);
        without_interruption(answer)
    }
}

impl<W: Write> Write for Uninterrupted<W> {
    ghost contents = { λ s. W.contents s.inner };

    fn write(&mut self, buf: &[u8]) -> io::Result<usize> {
        for _ in 0..WRITES_MAX {
            match self.inner.write(buf) {
                Err(error) if error.kind() == ErrorKind::Interrupted => {}
                answer => return answer,
            }
        }
        self.inner.write(buf)
    }

    fn flush(&mut self) -> io::Result<()> {
        self.inner.flush()
    }
}

/// The answer of a read, where an interrupted one gave nothing in time.
fn without_interruption(answer: io::Result<usize>) -> io::Result<usize>
    ensures { IsUninterrupted answer result }
{
    match answer {
        Err(error) if error.kind() == ErrorKind::Interrupted => {
            Err(io::Error::from(ErrorKind::WouldBlock))
        }
        answer => answer,
    }
}
