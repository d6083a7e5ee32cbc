//! Streams whose calls are interrupted.
ghost use Rattle.std.specs.Prelude.{◌≤◌, IfOk};

use cap_streams::Uninterrupted;
use std::io::{self, ErrorKind, Read, Write};
use std::test::*;

/// Interrupts its first calls. After those it fails with this kind, or gives or takes a byte a call.
#[derive(Drop)]
struct Interrupting {
    left: u32,
    failure: Option<ErrorKind>,
}

impl Interrupting {
    fn answer(&mut self, room: usize) -> io::Result<usize>
        ensures { IfOk result (λ n. n ≤ room) }
    {
        if self.left > 0 {
            self.left -= 1;
            return Err(io::Error::from(ErrorKind::Interrupted));
        }
        match self.failure {
            Some(kind) => Err(io::Error::from(kind)),
            None => Ok(room.min(1)),
        }
    }
}

impl Read for Interrupting {
    fn read(&mut self, buf: &mut [u8]) -> io::Result<usize> {
        self.answer(buf.len())
    }
}

impl Write for Interrupting {
    fn write(&mut self, buf: &[u8]) -> io::Result<usize> {
        self.answer(buf.len())
    }

    fn flush(&mut self) -> io::Result<()> {
        Ok(())
    }
}

fn stream(left: u32, failure: Option<ErrorKind>) -> Uninterrupted<Interrupting> {
    Uninterrupted::new(Interrupting { left, failure })
}

#[test]
fn interrupted_reads_are_quiet(rt: HostRuntime) {
    let reset = ErrorKind::ConnectionReset;
    for &(left, failure, want) in &[
        (0, None, Ok(1)),
        (1, None, Err(ErrorKind::WouldBlock)),
        (0, Some(ErrorKind::TimedOut), Err(ErrorKind::TimedOut)),
        (0, Some(reset), Err(reset)),
    ] {
        let mut buf = [0; 4];
        let got = stream(left, failure).read(&mut buf);
        assert!(rt; got.map_err(|error| error.kind()) == want);
    }
}

#[test]
fn interrupted_writes_are_made_again(rt: HostRuntime) {
    let broken = ErrorKind::BrokenPipe;
    for &(left, failure, want) in &[
        (0, None, Ok(1)),
        (1, None, Ok(1)),
        (100, None, Ok(1)),
        (101, None, Err(ErrorKind::Interrupted)),
        (1, Some(broken), Err(broken)),
    ] {
        let put = stream(left, failure).write(&[7, 8]);
        assert!(rt; put.map_err(|error| error.kind()) == want);
    }
}
