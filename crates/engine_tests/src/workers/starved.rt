//! A session that is served where memory is short: a call that finds none is answered so, and those behind it are made.

use crate::workers::epochs::serve_epoch;
use crate::workers::serving::{Ending, Line};
use crate::workers::sessions::{NOTHING, ONE_QUEUE};
use crate::workers::streams::Sink;
use cap_session::Counted;
use memory_testing::Hoard;
use std::alloc::Global;
use std::io::{self, Read};
use std::sync::Wait;
use std::test::*;

/// ClusterInfo with the call ids 1 to 3. Whoever has answered them has room to read and to answer three requests more.
const FIRST: &[u8] = &[
    0, 0, 0, 6, 1, 10, 0, 0, 0, 1, 0, 0, 0, 6, 1, 10, 0, 0, 0, 2, 0, 0, 0, 6, 1, 10, 0, 0, 0, 3,
];

/// ClusterInfo with call id 4, RegisterNode of `n1` in `/r1` with (8192, 8) and call id 5, and ClusterInfo with call id 6.
const SECOND: &[u8] = &[
    0, 0, 0, 6, 1, 10, 0, 0, 0, 4, //
    0, 0, 0, 29, 1, 5, 0, 0, 0, 5, 2, b'n', b'1', 3, b'/', b'r', b'1', //
    0, 0, 0, 0, 0, 0, 32, 0, 0, 0, 0, 0, 0, 0, 0, 8, //
    0, 0, 0, 6, 1, 10, 0, 0, 0, 6,
];

/// What the RegisterNode is answered where it finds no memory.
const REFUSED: &[u8] = &[0, 0, 0, 7, 1, 5, 0, 0, 0, 5, 20];

/// What the six are answered then: the others by a cluster with nothing in it.
fn starved(alloc: Global) -> Option<Vec<u8>> {
    let mut answers = Vec::new(alloc);
    for id in 1..7 {
        let mut reply = NOTHING;
        reply[9] = id;
        let answer = if id == 5 { REFUSED } else { &reply };
        answers.extend_from_slice(answer).ok()?;
    }
    Some(answers)
}

/// Gives two pieces, one a read. From the second on, no memory is left until the next read.
#[derive(Drop)]
struct Starving<'a> {
    pieces: &'a [&'a [u8]],
    alloc: Global,
    hoard: &'a mut Hoard,
}

impl Read for Starving<'_> {
    fn read(&mut self, buf: &mut [u8]) -> io::Result<usize> {
        let [piece, rest @ ..] = self.pieces else {
            self.hoard.give();
            return Ok(0);
        };
        let count = piece.len().min(buf.len());
        buf[..count].copy_from_slice(&piece[..count]);
        self.pieces = rest;
        if rest.is_empty() {
            self.hoard.leave(self.alloc, 0);
        }
        Ok(count)
    }
}

/// How a session over a new cluster ended that finds no memory from its second piece on, and how many entries the journal has.
fn served<H: Wait>(rt: &H, alloc: Global, sink: &mut Sink) -> Option<(Ending, usize)> {
    let mut hoard = Hoard::new(alloc)?;
    let mut line = Line::new(alloc, ONE_QUEUE)?;
    let mut reader = Counted::new(Starving {
        pieces: &[FIRST, SECOND],
        alloc,
        hoard: &mut hoard,
    });
    let mut writer = Counted::new(sink);
    if !serve_epoch(rt, alloc, 100, &mut line, &mut reader, &mut writer) {
        return None;
    }
    if !hoard.is_short() {
        return None;
    }
    Some((line.endings.last?, line.entries))
}

/// The calls of the second piece are read together; each that finds memory is made.
#[test]
fn calls_behind_one_that_finds_no_memory_are_made(rt: HostRuntime) {
    let wanted = starved(rt.alloc()).expect(&rt, "no memory");
    let mut sink = Sink {
        kept: Vec::with_capacity(rt.alloc(), 4096).expect(&rt, "no memory"),
        step: 4096,
        limit: 4096,
    };
    let end = served(&rt, rt.alloc(), &mut sink);
    assert!(rt; end == Some((Ending::InputEnded, 5)));
    assert!(rt; sink.kept.as_slice() == wanted.as_slice());
}
