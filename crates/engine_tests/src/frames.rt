//! Tests of frames: streams in any cutting, bad lengths, the longest payload.
ghost use Rattle.std.specs.Prelude.{◌<◌};

use bytes::BytesMut;
use cap_frames::{FrameFault, Framer, put_frame};
use std::alloc::Global;

// Two frames, and a length of which one byte is missing.
const STREAM: &[u8] = &[0, 0, 0, 3, 111, 110, 101, 0, 0, 0, 1, 9, 0, 0, 1];

/// The payloads of the two frames.
const PAYLOADS: [&[u8]; 2] = [b"one", &[9]];

/// The longest payload.
const LONGEST: &[u8] = &[0; 65536];

/// What a framer gives next.
#[derive(Clone, Copy, PartialEq)]
enum Given {
    Nothing,
    /// The payload that is wanted.
    Wanted,
    Other,
    BadLength,
    NoMemory,
}

/// What a framer gives next, which it shows before, and of which it says before whether it is nothing yet.
fn next(framer: &mut Framer, wanted: &[u8]) -> Given {
    let is_wanted = framer.peek() == Some(wanted);
    let is_shown = framer.peek().is_some();
    let is_at_rest = framer.is_at_rest();
    let given = match framer.next() {
        Ok(None) if !is_shown => Given::Nothing,
        Ok(Some(payload)) if is_shown => {
            if payload.as_slice() == wanted && is_wanted {
                Given::Wanted
            } else {
                Given::Other
            }
        }
        Ok(_) => Given::Other,
        Err(FrameFault::BadLength) => Given::BadLength,
        Err(FrameFault::NoMemory) => Given::NoMemory,
    };
    if is_at_rest == (given == Given::Nothing) {
        given
    } else {
        Given::Other
    }
}

/// What a framer gives next once it was fed a piece.
fn next_after(framer: &mut Framer, piece: &[u8], wanted: &[u8]) -> Option<Given> {
    framer.feed(piece).ok()?;
    Some(next(framer, wanted))
}

/// How many payloads came once a piece was fed, where so many came before. `None` if one is not the next of the stream.
fn count_after(framer: &mut Framer, piece: &[u8], before: usize) -> Option<usize> {
    framer.feed(piece).ok()?;
    let mut count = before;
    for _ in 0..3 {
        match next(framer, PAYLOADS.get(count).copied().unwrap_or(&[])) {
            Given::Nothing => {}
            Given::Wanted => count = count.saturating_add(1),
            _ => return None,
        }
    }
    Some(count)
}

/// How many payloads come of the stream in pieces of so many bytes.
fn count_in_pieces(framer: &mut Framer, step: usize) -> Option<usize>
    requires { 0 < step }
{
    let mut count = 0;
    for piece in STREAM.chunks(step) {
        count = count_after(framer, piece, count)?;
    }
    Some(count)
}

#[test]
fn frames_come_back_in_any_cutting(rt: HostRuntime) {
    for step in 1..16usize {
        let mut framer = Framer::new(rt.alloc()).expect(&rt, "no memory");
        assert!(rt;
            count_in_pieces(&mut framer, step) == Some(2),
            "in pieces of {step}"
        );
    }
}

/// What is given after three bytes of a length, after the fourth, then, and after more of the stream.
fn after_length(framer: &mut Framer, length: [u8; 4]) -> Option<[Given; 4]> {
    let [a, b, c, d] = length;
    Some([
        next_after(framer, &[a, b, c], &[])?,
        next_after(framer, &[d], &[])?,
        next(framer, &[]),
        next_after(framer, STREAM, &[])?,
    ])
}

#[test]
fn a_bad_length_is_known_with_its_fourth_byte_and_stays(rt: HostRuntime) {
    let bad = Given::BadLength;
    for &length in &[[0u8, 0, 0, 0], [0, 1, 0, 1], [255, 255, 255, 255]] {
        let mut framer = Framer::new(rt.alloc()).expect(&rt, "no memory");
        let given = after_length(&mut framer, length);
        assert!(rt; given == Some([Given::Nothing, bad, bad, bad]));
    }
}

/// What is given of the longest payload in quarters: before each of them, and at the end twice.
fn in_quarters(framer: &mut Framer) -> Option<[Given; 6]> {
    let quarter = &[0; 16384];
    Some([
        next_after(framer, &[0, 1, 0, 0], &[])?,
        next_after(framer, quarter, &[])?,
        next_after(framer, quarter, &[])?,
        next_after(framer, quarter, &[])?,
        next_after(framer, quarter, LONGEST)?,
        next(framer, &[]),
    ])
}

#[test]
fn the_longest_payload_is_a_frame(rt: HostRuntime) {
    let mut framer = Framer::new(rt.alloc()).expect(&rt, "no memory");
    let none = Given::Nothing;
    let given = in_quarters(&mut framer);
    assert!(rt; given == Some([none, none, none, none, Given::Wanted, none]));
}

fn put_both(out: &mut BytesMut) -> Option<()> {
    put_frame(out, b"one").ok()?;
    put_frame(out, &[9]).ok()
}

#[test]
fn a_frame_is_its_length_and_its_payload(rt: HostRuntime) {
    let mut out = BytesMut::new(rt.alloc());
    assert!(rt; put_both(&mut out).is_some());
    assert!(rt; out.as_slice() == &STREAM[..12]);
}
