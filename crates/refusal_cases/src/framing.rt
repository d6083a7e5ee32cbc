//! A framer of which each allocation is refused, and what comes of it (`came`).
use cap_frames::{FrameFault, Framer};
use memory_testing::{Came, Hoard};
use std::alloc::Global;

/// Two frames, and a length of which one byte is missing.
const STREAM: &[u8] = &[0, 0, 0, 3, 111, 110, 101, 0, 0, 0, 1, 9, 0, 0, 1];

/// The payloads of the two frames.
const PAYLOADS: [&[u8]; 2] = [b"one", &[9]];

/// What a framer gives.
#[derive(Clone, Copy, PartialEq, Eq)]
enum Given {
    /// Both payloads, and then nothing.
    All,
    /// No memory was found for one of them.
    NoMemory,
    Other,
}

fn payloads_of(framer: &mut Framer) -> Given {
    for payload in PAYLOADS {
        match framer.next() {
            Ok(Some(given)) if given.as_slice() == payload => {}
            Err(FrameFault::NoMemory) => return Given::NoMemory,
            _ => return Given::Other,
        }
    }
    match framer.next() {
        Ok(None) => Given::All,
        _ => Given::Other,
    }
}

/// Whether nothing more is taken, and want of memory is told again.
fn is_spent(framer: &mut Framer) -> bool {
    framer.feed(STREAM).is_err() && payloads_of(framer) == Given::NoMemory
}

/// What comes of a framer that is fed where so many bytes are left: what was not taken may be fed again.
pub fn came(alloc: Global, hoard: &mut Hoard, bytes: usize) -> Came {
    let Ok(mut framer) = Framer::new(alloc) else {
        return Came::Beside;
    };
    hoard.leave(alloc, bytes);
    let was_fed = framer.feed(STREAM).is_ok();
    let first = if was_fed {
        payloads_of(&mut framer)
    } else {
        Given::NoMemory
    };
    hoard.give();
    let is_told = match (was_fed, first) {
        (true, Given::All) => return Came::Done,
        (true, Given::NoMemory) => is_spent(&mut framer),
        (false, _) => framer.feed(STREAM).is_ok() && payloads_of(&mut framer) == Given::All,
        (true, Given::Other) => false,
    };
    if is_told { Came::Refused } else { Came::Other }
}
