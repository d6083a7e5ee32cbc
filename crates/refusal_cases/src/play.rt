//! A script played in memory: its exit status, and the lines that it prints (`play_into`).

use cap_replay::{Counted, replay};
use std::alloc::Global;

/// Plays a script into this room: the status, and what it prints.
pub fn play_into<'a>(alloc: Global, script: &[u8], room: &'a mut [u8]) -> (u8, &'a [u8]) {
    let mut input = script;
    let mut output = &mut *room;
    let status = replay(
        alloc,
        &mut Counted::new(&mut input),
        &mut Counted::new(&mut output),
    );
    let left = output.len();
    let count = room.len().saturating_sub(left);
    (status, room.get(..count).unwrap_or(&[]))
}

fn ends_line(byte: &u8) -> bool {
    *byte == b'\n'
}

/// How many lines there are: one more than line feeds.
pub fn count_lines(printed: &[u8]) -> usize {
    printed.split(ends_line).count()
}

/// A line by its number, the first of which is 0.
pub fn line_of(printed: &[u8], number: usize) -> Option<&[u8]> {
    printed.split(ends_line).nth(number)
}
