//! Scripts of which each allocation is refused (`SCRIPTS`), and what comes of one (`came`).
use crate::cases::Case;
use crate::play::{count_lines, line_of, play_into};
use memory_testing::{Came, Hoard};
use std::alloc::Global;

/// A script.
#[derive(Clone, Copy)]
pub enum Script {
    /// Two workers propose the same container.
    Workers,
    /// A master makes a call of each kind.
    Masters,
}

pub static SCRIPTS: [Case; 2] = [Case::Replay(Script::Workers), Case::Replay(Script::Masters)];

/// Two workers propose the same container.
const SCRIPT: &[u8] = b"conf yarn.scheduler.capacity.root.queues=a,b
conf yarn.scheduler.capacity.root.a.capacity=[memory=4096,vcores=4]
conf yarn.scheduler.capacity.root.a.maximum-capacity=[memory=16384,vcores=16]
conf yarn.scheduler.capacity.root.a.user-limit-factor=4
conf yarn.scheduler.capacity.root.b.capacity=[memory=2048,vcores=8]
open 1
bytes 1 0000001d010500000001026e31032f723100000000000020000000000000000008
bytes 1 0000001001010000000206726f6f742e61027531
bytes 1 0000000e0102000000030000000000000001
bytes 1 0000003801030000000500000000000000010000000000010000000100000000000000000000000100000000000004000000000000000001012a0000
copy 0
copy 1
propose 0 0
propose 1 0
commit 0
commit 1
commit 1
";

const PRINTED: &[u8] = b"opened 1
out 1 0000000f010500000001000000000000000001
out 1 0000000f010100000002000000000000000001
out 1 00000027010200000003000000000000000400000000000000000100000000000020000000000000000004
out 1 0000000f010300000005000000000100000000
copied 0
copied 1
proposed 0 grant 1 1 0 1 1024 1
proposed 1 grant 1 1 0 1 1024 1
done 0 grant 1
rejected 1 2
idle
";

/// How many lines are printed, whatever the calls are answered.
const LINES: usize = 12;

/// Whether this is what a call that takes memory is answered where it is refused.
fn is_refusal(line: &[u8]) -> bool {
    line == b"out 1 0000000701050000000114".as_slice()
        || line == b"out 1 0000000701010000000214".as_slice()
        || line == b"out 1 0000000701030000000514".as_slice()
}

/// Whether the lines are the first that are printed, up to one of a call that memory was refused. What follows it depends on it.
fn is_refused(printed: &[u8]) -> bool {
    for number in 0..=LINES {
        let line = line_of(printed, number);
        if line != line_of(PRINTED, number) {
            return line.is_some_and(is_refusal);
        }
    }
    false
}

/// What came of a script that ended with this status and printed this.
fn judged(status: u8, printed: &[u8]) -> Came {
    if status == 0 && printed == PRINTED {
        return Came::Done;
    }
    let front = match printed.strip_suffix(b"no memory\n") {
        Some(front) if status == 3 => front,
        None if status == 0 && count_lines(printed) == LINES + 1 => printed,
        _ => return Came::Other,
    };
    let is_whole = front.is_empty() || front.ends_with(b"\n");
    let is_beginning = status == 3 && PRINTED.starts_with(front);
    if is_whole && (is_beginning || is_refused(front)) {
        Came::Refused
    } else {
        Came::Other
    }
}

/// What comes of the script where so many bytes are left.
fn came_of_workers(alloc: Global, hoard: &mut Hoard, bytes: usize) -> Came {
    let mut room = [0u8; 1024];
    hoard.leave(alloc, bytes);
    let (status, printed) = play_into(alloc, SCRIPT, &mut room);
    hoard.give();
    judged(status, printed)
}

/// A call of each kind that a master makes.
const MASTERS: &[u8] = b"conf yarn.scheduler.capacity.root.queues=a\n\
    open 1\n\
    bytes 1 0000001001010000000106726f6f742e61027531\n\
    bytes 1 0000000e0102000000030000000000000001\n\
    bytes 1 0000003801030000000500000000000000010000000000010000000100000000000000000000000100000000000004000000000000000001012a0000\n\
    bytes 1 0000003801030000000500000000000000010000000000010000000100000000000000000000000100000000000004000000000000000001012a0000\n\
    bytes 1 0000000e0104000000040000000000000001\n";

/// What it prints, line by line.
static ANSWERS: [&[u8]; 7] = [
    b"opened 1",
    b"out 1 0000000f010100000001000000000000000001",
    b"out 1 00000027010200000003000000000000000400000000000000000100000000000020000000000000000004",
    b"out 1 0000000f010300000005000000000100000000",
    b"out 1 0000000f010300000005000000000100000000",
    b"out 1 0000000b0104000000040000000000",
    b"",
];

/// The first line that is neither as ever, nor of a Submit or an Allocate that memory was refused, nor of an application that such a Submit did
/// not make, nor the last of a script that stops.
fn first_unlike(status: u8, printed: &[u8]) -> Option<usize> {
    let mut is_unknown = false;
    for (i, answer) in ANSWERS.iter().enumerate() {
        let Some(line) = line_of(printed, i) else {
            break;
        };
        let is_refused = matches!(i, 1 | 3 | 4) && line.ends_with(b"14");
        is_unknown = is_unknown || is_refused && i == 1;
        let is_last = status == 3 && (line.is_empty() || line == b"no memory".as_slice());
        if line != *answer && !is_refused && !(is_unknown && line.ends_with(b"05")) && !is_last {
            return Some(i);
        }
    }
    None
}

/// Whether a script that has ended has printed all lines, or says last that there was no memory.
fn has_ended(status: u8, printed: &[u8]) -> bool {
    match status {
        0 => count_lines(printed) == 7,
        _ => status == 3 && printed.ends_with(b"no memory\n"),
    }
}

/// Whether the lines are those of a script that no memory was refused.
fn is_as_ever(status: u8, printed: &[u8]) -> bool {
    for (i, answer) in ANSWERS.iter().enumerate() {
        if line_of(printed, i) != Some(*answer) {
            return false;
        }
    }
    status == 0 && count_lines(printed) == ANSWERS.len()
}

/// What comes of the calls of a master where so many bytes are left.
fn came_of_masters(alloc: Global, hoard: &mut Hoard, bytes: usize) -> Came {
    let mut room = [0u8; 400];
    hoard.leave(alloc, bytes);
    let (status, printed) = play_into(alloc, MASTERS, &mut room);
    hoard.give();
    if is_as_ever(status, printed) {
        return Came::Done;
    }
    if first_unlike(status, printed).is_none() && has_ended(status, printed) {
        Came::Refused
    } else {
        Came::Other
    }
}

/// What comes of a script where so many bytes are left.
pub fn came(alloc: Global, hoard: &mut Hoard, bytes: usize, script: Script) -> Came {
    match script {
        Script::Workers => came_of_workers(alloc, hoard, bytes),
        Script::Masters => came_of_masters(alloc, hoard, bytes),
    }
}
