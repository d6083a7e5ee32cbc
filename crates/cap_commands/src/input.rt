//! All bytes of an input, read to its end (`read_all`).
ghost use Rattle.std.specs.Prelude.{◌<◌};
ghost use Rattle.cap_session.specs.Counted.{state_of, CanCount};

use cap_session::{Counted, Got};
use std::alloc::Global;
use std::io::Read;

/// How many bytes are read at once.
const CHUNK: usize = 65536;

/// How many reads are made at most.
const READS_MAX: u64 = 1 << 32;

/// Why an input was not read to its end.
#[derive(Clone, Copy, Debug)]
pub(crate) enum Unread {
    /// The reader failed or was quiet, or the input did not end within 2^32 reads.
    Failed,
    NoMemory,
}

impl Unread {
    /// The exit status: 1 if the reader failed, 3 if an allocation failed.
    pub(crate) fn status(self) -> u8
        ensures { result < 4 }
    {
        match self {
            Unread::Failed => 1,
            Unread::NoMemory => 3,
        }
    }
}

/// All bytes of an input.
pub(crate) fn read_all<R: Read>(alloc: Global, reader: &mut Counted<R>) -> Result<Vec<u8>, Unread>
    requires { CanCount (state_of reader.old) }
{
    let mut chunk = [0u8; CHUNK];
    let mut text = Vec::new(alloc);
    for _reads in 0..READS_MAX {
        match reader.read(&mut chunk) {
            Got::Bytes(n) => {
                let Ok(()) = text.extend_from_slice(&chunk[..n]) else {
                    return Err(Unread::NoMemory);
                };
            }
            Got::End => return Ok(text),
            Got::Quiet | Got::Fault => return Err(Unread::Failed),
        }
    }
    Err(Unread::Failed)
}
