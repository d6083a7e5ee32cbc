//! Tests of bytes that are no message, of requests written again, and of the words for a fault of a message.

use cap_messages::{
    Answer, MessageFault, Out, REQUEST_ROOM, has_spelling, read_reply, read_request,
    replies_have_one_spelling, requests_have_one_spelling, write_request,
};
use std::alloc::Global;

/// A request of each kind: in version 2 where it has amounts, whose third is 5 GPUs, and else in version 1.
const REQUESTS: [&[u8]; 12] = [
    b"\x01\x01\x00\x00\x00\x07\x06root.a\x03ann",
    b"\x01\x02\x00\x00\x00\x07\x00\x00\x00\x00\x00\x00\x01\x02",
    b"\x02\x03\x00\x00\x00\x07\x00\x00\x00\x00\x00\x00\x00\x01\x00\x00\x00\x09\x00\x01\
\x00\x00\x00\x04\x00\x00\x00\x00\x00\x00\x00\x08\x00\x00\x00\x03\x00\x00\x00\x00\x00\x00\x04\x00\
\x00\x00\x00\x00\x00\x00\x00\x02\x00\x00\x00\x00\x00\x00\x00\x05\x01*\
\x00\x02\x00\x00\x00\x00\x00\x00\x00\x0b\x00\x00\x00\x00\x00\x00\x00\x0c",
    b"\x01\x03\x00\x00\x00\x07\x00\x00\x00\x00\x00\x00\x00\x01\x00\x00\x00\x09\x00\x00\x00\x00",
    b"\x01\x04\x00\x00\x00\x07\xff\xff\xff\xff\xff\xff\xff\xff",
    b"\x02\x05\x00\x00\x00\x07\x02n1\x03/r1\x00\x00\x00\x00\x00\x00\x20\x00\
\x00\x00\x00\x00\x00\x00\x00\x08\x00\x00\x00\x00\x00\x00\x00\x05",
    b"\x01\x06\x00\x00\x00\x07\x00\x00\x00\x00\x00\x00\x00\x01\x00\x00\x00\x09\x00\x01\
\x00\x00\x00\x00\x00\x00\x00\x0b",
    b"\x01\x07\x00\x00\x00\x07\x00\x00\x00\x00\x00\x00\x00\x01",
    b"\x01\x08\x00\x00\x00\x07\x04root",
    b"\x01\x09\x00\x00\x00\x07\x06root.a\x01",
    b"\x01\x0a\x00\x00\x00\x07",
    b"\x01\x0b\x00\x00\x00\x07\x00\x00\x00\x03a=b",
];

/// Bytes that are no reply: none, refusals of kinds that no request has, one of property lines without its line or without what
/// is wrong there, a fault of another status, one in version 2, and a refusal in version 3.
const NO_REPLIES: [&[u8]; 8] = [
    &[],
    &[1, 0, 0, 0, 0, 0, 20],
    &[1, 12, 0, 0, 0, 0, 20],
    &[1, 11, 0, 0, 0, 0, 17],
    &[1, 11, 0, 0, 0, 0, 17, 0, 0, 0, 1],
    &[1, 0, 0, 0, 0, 0, 42],
    &[2, 0, 0, 0, 0, 0, 41],
    &[3, 10, 0, 0, 0, 0, 20],
];

/// Whether bytes are no request.
fn is_bad_request(alloc: Global, bytes: &[u8]) -> bool {
    matches!(read_request(alloc, bytes), Err(MessageFault::Bad))
}

/// Whether bytes are no reply.
fn is_bad_reply(alloc: Global, bytes: &[u8]) -> bool {
    matches!(read_reply(alloc, bytes), Err(MessageFault::Bad))
}

/// The status of a fault reply.
fn fault_status(alloc: Global, bytes: &[u8]) -> Option<u8> {
    match read_reply(alloc, bytes) {
        Ok(Answer::Fault(status)) => Some(status),
        _ => None,
    }
}

/// Whether a request is read from these bytes, and is written in the same bytes again.
fn is_written_again(alloc: Global, bytes: &[u8]) -> bool {
    let Ok((head, request)) = read_request(alloc, bytes) else {
        return false;
    };
    let Ok(mut out) = Out::with_capacity(alloc, REQUEST_ROOM) else {
        return false;
    };
    if !has_spelling(head.version, &request) {
        return false;
    }
    write_request(head, &request, &mut out);
    out.as_slice() == bytes
}

/// Whether a request that is read from these bytes has a spelling in version 1.
fn has_first_spelling(alloc: Global, bytes: &[u8]) -> bool {
    match read_request(alloc, bytes) {
        Ok((_, request)) => has_spelling(1, &request),
        Err(_) => false,
    }
}

#[test]
fn requests_are_written_as_they_were_read(rt: HostRuntime) {
    for &bytes in &REQUESTS {
        assert!(rt; is_written_again(rt.alloc(), bytes), "{bytes:?}");
    }
}

// The longest payload: a Refresh with 65,526 bytes of property lines.
#[test]
fn the_longest_request_is_written(rt: HostRuntime) {
    let mut bytes = Vec::from_slice(rt.alloc(), b"\x02\x0b\x00\x00\x00\x07\x00\x00\xff\xf6").expect(
        &rt, "room",
    );
    bytes.resize(65_536, b'x').expect(&rt, "room");
    assert!(rt; is_written_again(rt.alloc(), &bytes));
}

// Version 1 spells no GPUs.
#[test]
fn gpus_have_no_spelling_in_version_1(rt: HostRuntime) {
    for (i, &bytes) in REQUESTS.iter().enumerate() {
        assert!(rt;
            has_first_spelling(rt.alloc(), bytes) == (i != 2 && i != 5),
            "{i}"
        );
    }
}

// No frame has an empty payload.
#[test]
fn what_is_no_message_is_bad(rt: HostRuntime) {
    assert!(rt; is_bad_request(rt.alloc(), &[]));
    for &bytes in &NO_REPLIES {
        assert!(rt; is_bad_reply(rt.alloc(), bytes), "{bytes:?}");
    }
    for &status in &[40, 41] {
        let given = fault_status(rt.alloc(), &[1, 0, 0, 0, 0, 0, status]);
        assert!(rt; given == Some(status));
    }
}

#[test]
fn a_fault_has_words_and_the_laws_are_called(rt: HostRuntime) {
    requests_have_one_spelling();
    replies_have_one_spelling();
    let said = format!(in rt.alloc(); "{}", MessageFault::Bad);
    assert!(rt; said.is_ok());
}
