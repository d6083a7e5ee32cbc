//! One connection, whose frames are written back as they came (`accept_and_echo`).

use bytes::BytesMut;
use cap_frames::{FrameFault, Framer, put_frame};
use std::alloc::Global;
use std::io::{self, ErrorKind, Read, Write};
use std::net::TcpListener;
use std::sync::Wait;

/// Accepts a connection, and writes back each frame that comes on it, until its input ends.
pub fn accept_and_echo<H: Wait>(rt: &H, alloc: Global, listener: &TcpListener) -> io::Result<()> {
    let (mut stream, _) = listener.accept()?;
    stream.set_nodelay(true)?;
    let mut framer = Framer::new(alloc).map_err(|_| ErrorKind::OutOfMemory)?;
    let mut out = BytesMut::new(alloc);
    let mut piece = [0u8; 4096];
    for _ in rt.forever() {
        let count = stream.read(&mut piece)?;
        if count == 0 {
            return Ok(());
        }
        framer
            .feed(&piece[..count])
            .map_err(|_| ErrorKind::OutOfMemory)?;
        put_frames(&mut framer, &mut out)?;
        stream.write_all(out.as_slice())?;
        out.clear();
    }
    unreachable!()
}

/// Adds each frame that has come whole to `out`.
fn put_frames(framer: &mut Framer, out: &mut BytesMut) -> io::Result<()> {
    loop {
        match framer.next() {
            Ok(Some(payload)) => {
                put_frame(out, payload.as_slice()).map_err(|_| ErrorKind::OutOfMemory)?;
            }
            Ok(None) => return Ok(()),
            Err(FrameFault::BadLength) => return Err(ErrorKind::InvalidData.into()),
            Err(FrameFault::NoMemory) => return Err(ErrorKind::OutOfMemory.into()),
        }
    }
}
