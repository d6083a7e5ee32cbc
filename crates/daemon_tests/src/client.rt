//! The client's end of a connection.
use cap_testing::{Call, frame};
use std::alloc::Global;
use std::io::{self, Read, Write};
use std::net::{Net, Shutdown, TcpListener, TcpStream};
use std::time::Duration;

/// ClusterInfo with call id 1, and its answer from an empty cluster.
pub const ASK: [u8; 10] = [0, 0, 0, 6, 1, 10, 0, 0, 0, 1];

pub const ANSWER: [u8; 55] = [
    0, 0, 0, 51, 1, 10, 0, 0, 0, 1, 0, 0, 0, 0, 0, 0, 0, 0, 0, 0, 0, 0, 0, //
    0, 0, 0, 0, 0, 0, 0, 0, 0, 0, 0, 0, 0, 0, 0, 0, //
    0, 0, 0, 0, 0, 0, 0, 0, 0, 0, 0, 0, 0, 0, 0, 0,
];

/// The fault reply with status 40.
pub const BAD_LENGTH: [u8; 11] = [0, 0, 0, 7, 1, 0, 0, 0, 0, 0, 40];

/// A connection to the daemon. A read fails after 10 seconds.
pub fn connect<H: Net<Listener = TcpListener, Stream = TcpStream>>(
    rt: &H,
    port: u16,
) -> io::Result<TcpStream> {
    let stream = TcpStream::connect(rt, ("127.0.0.1", port))?;
    stream.set_read_timeout(Some(Duration::from_secs(10)))?;
    Ok(stream)
}

/// Sends these bytes and closes the writing side, and reads all that is answered.
pub fn ask_last(alloc: Global, stream: &TcpStream, bytes: &[u8]) -> io::Result<Vec<u8>> {
    let mut stream = stream;
    stream.write_all(bytes)?;
    stream.shutdown(Shutdown::Write)?;
    let mut answer = Vec::new(alloc);
    let _count = stream.read_to_end(&mut answer)?;
    Ok(answer)
}

/// Whether a ClusterInfo of the empty cluster is answered.
pub fn is_answered(stream: &TcpStream) -> io::Result<bool> {
    send(stream, &ASK)?;
    let mut answer = [0u8; 55];
    receive(stream, &mut answer)?;
    Ok(answer == ANSWER)
}

/// Sends so many ClusterInfos at once and closes the writing side. Whether they are answered, and nothing more.
pub fn are_answered(alloc: Global, stream: &TcpStream, count: usize) -> io::Result<bool> {
    let asked = ASK.repeat(alloc, count)?;
    let answer = ask_last(alloc, stream, asked.as_slice())?;
    Ok(are_answers(answer.as_slice(), count))
}

/// Whether the bytes are so many answers of an empty cluster.
pub fn are_answers(bytes: &[u8], count: usize) -> bool {
    bytes.len() == count.saturating_mul(55) && bytes.chunks(55).all(|it| it == ANSWER.as_slice())
}

/// Sends these bytes so often, or until no more is taken. Whether all were taken.
pub fn is_taken(stream: &TcpStream, bytes: &[u8], times: u32) -> bool {
    for _ in 0..times {
        if send(stream, bytes).is_err() {
            return false;
        }
    }
    true
}

/// Makes a call with call id 1, and reads the payload of its reply.
pub fn call(alloc: Global, stream: &TcpStream, call: &Call<'_>) -> io::Result<Vec<u8>> {
    send(stream, frame(alloc, 1, 1, call)?.as_slice())?;
    let mut payload = Vec::new(alloc);
    payload.resize(reply_length(stream)?, 0)?;
    receive(stream, payload.as_mut_slice())?;
    Ok(payload)
}

pub fn send(stream: &TcpStream, bytes: &[u8]) -> io::Result<()> {
    let mut stream = stream;
    stream.write_all(bytes)
}

pub fn receive(stream: &TcpStream, bytes: &mut [u8]) -> io::Result<()> {
    let mut stream = stream;
    stream.read_exact(bytes)
}

/// The length of the next payload.
fn reply_length(stream: &TcpStream) -> io::Result<usize> {
    let mut length = [0u8; 4];
    receive(stream, &mut length)?;
    Ok(u32::from_be_bytes(length) as usize)
}
