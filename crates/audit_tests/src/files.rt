//! Tests of a file of settings and one epoch: what is written, by hand from `docs/FORMATS.md`, and what an audit of it prints; writers that
//! fail, and memory that is refused. The epoch is on one thread: another needs memory of its own.
ghost use Rattle.std.specs.Prelude.{◌≡◌, ◌≤◌};

use cap_archive::{ArchiveFault, write_epoch, write_settings};
use cap_audit::audit;
use cap_base::RESOURCES;
use cap_commit::Cluster;
use cap_messages::read_request;
use cap_session::Counted;
use cap_shared::{Blank, Closed, Entry, Naming, Seat, Shared};
use cap_testing::{Call, cluster, frame};
use memory_testing::{Came, Hoard, Turns, refuse_in_turn};
use std::alloc::Global;
use std::marker::Brand;
use std::sync::Wait;
use std::test::*;

const SETTINGS: &[u8] = b"yarn.scheduler.capacity.root.queues=default
yarn.scheduler.capacity.root.default.capacity=[memory=4096,vcores=4,yarn.io/gpu=2]
";

/// What the only seat, of number 0, calls: a node of 8192 MiB, 8 vcores and 2 GPUs.
const REGISTER: Call<'static> = Call::RegisterNode(b"n1", b"/r1", [8192, 8, 2]);

/// The file of an epoch in which that was called.
const FILE: &[u8] = b"conf yarn.scheduler.capacity.root.queues=default
conf yarn.scheduler.capacity.root.default.capacity=[memory=4096,vcores=4,yarn.io/gpu=2]
epoch 1
call 0 020500000000026e31032f7231000000000000200000000000000000080000000000000002 020500000000000000000000000001
closed 1
";

const TOTALS: &[u8] = b"audited epochs=1 entries=1 calls=1 grants=0 reservations=0\n";

/// Of how many digits the reply is.
const REPLY: usize = 30;

/// How many bytes stand behind it: the ends of two lines, and the last of them.
const BEHIND: usize = 10;

/// How many entries the journal may have.
const LIMIT: usize = 4;

/// Makes the call.
fn call<J: Naming, H: Wait>(rt: &H, alloc: Global, shared: &Shared<J>, seat: &mut Seat<J>) {
    let Ok(bytes) = frame(alloc, 2, 1, &REGISTER) else {
        return;
    };
    let Ok((_, request)) = read_request(alloc, bytes.get(4..).unwrap_or(&[])) else {
        return;
    };
    let _answer = shared.call(rt, seat, request);
}

/// The epoch, under a name.
fn named_epoch<J: Naming, H: Wait>(
    rt: &H,
    alloc: Global,
    blank: Blank,
    cluster: Cluster<RESOURCES>,
    limit: usize,
) -> Option<Closed>
    requires named { blank.0 ≡ J.table }
    requires opening { cluster.flat ≡ J.opening }
    requires limit { limit ≡ J.limit }
    requires seats { blank.1 ≡ J.seats }
    requires some { (1 ≤ J.limit) × (J.limit ≤ 1000000) }
    requires few { (1 ≤ J.seats) × (J.seats ≤ 256) }
{
    let Ok((shared, mut seats)) = Shared::<J>::open(alloc, blank, cluster, limit) else {
        return None;
    };
    if let Some(seat) = seats.first_mut() {
        call(rt, alloc, &shared, seat);
    }
    Some(shared.close(seats))
}

/// The epoch. `None` if an allocation fails.
fn epoch<H: Wait>(rt: &H, alloc: Global) -> Option<Closed> {
    let opened = cluster(alloc, SETTINGS)?;
    let Ok(blank) = Blank::new(alloc, 1) else {
        return None;
    };
    named_epoch::<Brand, H>(rt, alloc, blank, opened, LIMIT)
}

/// Writes the settings and the first epoch into this room: whether all was written, and what was.
fn write_into<'a>(
    alloc: Global,
    journal: &[Entry],
    room: &'a mut [u8],
) -> (Result<(), ArchiveFault>, &'a [u8]) {
    let mut output = &mut *room;
    let mut writer = Counted::new(&mut output);
    let result = match write_settings(alloc, SETTINGS, &mut writer) {
        Ok(()) => write_epoch(alloc, 1, journal, &mut writer),
        Err(fault) => Err(fault),
    };
    let left = output.len();
    let count = room.len().saturating_sub(left);
    (result, room.get(..count).unwrap_or(&[]))
}

/// Audits a file: the status, and what is printed into this room.
fn audit_into<'a>(alloc: Global, file: &[u8], room: &'a mut [u8]) -> (u8, &'a [u8]) {
    let mut input = file;
    let mut output = &mut *room;
    let status = audit(
        alloc,
        &mut Counted::new(&mut input),
        &mut Counted::new(&mut output),
    );
    let left = output.len();
    let count = room.len().saturating_sub(left);
    (status, room.get(..count).unwrap_or(&[]))
}

/// Whether the epoch is written as the file.
fn is_written(alloc: Global, journal: &[Entry]) -> bool {
    let mut room = [0; 512];
    write_into(alloc, journal, &mut room) == (Ok(()), FILE)
}

/// The first so many bytes of room in which the epoch is not the beginning of the file, with the words of a writer that failed.
fn first_unlike(alloc: Global, journal: &[Entry]) -> Option<usize> {
    let mut room = [0; 512];
    for size in 0..FILE.len() {
        let Some(part) = room.get_mut(..size) else {
            return Some(size);
        };
        let (result, written) = write_into(alloc, journal, part);
        if result != Err(ArchiveFault::Output) || Some(written) != FILE.get(..size) {
            return Some(size);
        }
    }
    None
}

#[test]
fn an_epoch_is_written_as_its_file(rt: HostRuntime) {
    let closed = epoch(&rt, rt.alloc());
    assert!(rt; closed.is_some_and(|closed| is_written(rt.alloc(), &closed.journal)));
}

#[test]
fn a_writer_that_fails_has_a_beginning_of_the_file(rt: HostRuntime) {
    let closed = epoch(&rt, rt.alloc());
    assert!(rt; closed.is_some_and(|closed| first_unlike(rt.alloc(), &closed.journal).is_none()));
}

/// Whether an audit of this file ends with this status and prints this.
fn is_audited(alloc: Global, file: &[u8], status: u8, words: &[u8]) -> bool {
    let mut room = [0; 128];
    audit_into(alloc, file, &mut room) == (status, words)
}

#[test]
fn the_file_is_true(rt: HostRuntime) {
    assert!(rt; is_audited(rt.alloc(), FILE, 0, TOTALS));
}

/// Whether an audit ends at the line of the reply where this digit of it is another one, counted from its last.
fn is_told(alloc: Global, digit: usize) -> bool {
    let Ok(mut file) = Vec::from_slice(alloc, FILE) else {
        return false;
    };
    let at = FILE.len().saturating_sub(BEHIND + 1).saturating_sub(digit);
    let Some(byte) = file.get_mut(at) else {
        return false;
    };
    *byte = if *byte == b'7' { b'8' } else { b'7' };
    is_audited(
        alloc,
        &file,
        2,
        b"line 4: the cluster gives another reply\n",
    )
}

/// The first digit of the reply, from its last on, that can be another one.
fn first_untold(alloc: Global) -> Option<usize> {
    for digit in 0..REPLY {
        if !is_told(alloc, digit) {
            return Some(digit);
        }
    }
    None
}

#[test]
fn another_reply_is_told_with_its_line(rt: HostRuntime) {
    assert_eq!(rt; first_untold(rt.alloc()), None);
}

/// The first so many bytes of room, too few for the totals, in which an audit does not end with status 1.
fn first_unfailed(alloc: Global) -> Option<usize> {
    let mut room = [0; 128];
    for size in 0..TOTALS.len() {
        let Some(part) = room.get_mut(..size) else {
            return Some(size);
        };
        let (status, printed) = audit_into(alloc, FILE, part);
        if status != 1 || Some(printed) != TOTALS.get(..size) {
            return Some(size);
        }
    }
    None
}

#[test]
fn an_audit_tells_a_writer_that_fails(rt: HostRuntime) {
    assert_eq!(rt; first_unfailed(rt.alloc()), None);
}

/// What comes of writing the epoch where so many bytes are left.
fn came_of_writing(alloc: Global, hoard: &mut Hoard, bytes: usize, journal: &[Entry]) -> Came {
    let mut room = [0; 512];
    hoard.leave(alloc, bytes);
    let (result, written) = write_into(alloc, journal, &mut room);
    hoard.give();
    match result {
        Ok(()) if written == FILE => Came::Done,
        Err(ArchiveFault::NoMemory) if FILE.starts_with(written) => Came::Refused,
        _ => Came::Other,
    }
}

/// What comes of an audit of the file where so many bytes are left.
fn came_of_audit(alloc: Global, hoard: &mut Hoard, bytes: usize) -> Came {
    let mut room = [0; 128];
    hoard.leave(alloc, bytes);
    let (status, printed) = audit_into(alloc, FILE, &mut room);
    hoard.give();
    match status {
        0 if printed == TOTALS => Came::Done,
        3 if printed == b"no memory\n".as_slice() => Came::Refused,
        _ => Came::Other,
    }
}

/// How writing the epoch goes in more and more memory.
fn turns_of_writing(alloc: Global, journal: &[Entry]) -> Turns {
    refuse_in_turn(
        alloc,
        |alloc, hoard, bytes| came_of_writing(alloc, hoard, bytes, journal),
    )
}

#[test]
fn writing_is_refused_memory(rt: HostRuntime) {
    let closed = epoch(&rt, rt.alloc());
    assert!(rt;
        closed.is_some_and(|closed| turns_of_writing(rt.alloc(), &closed.journal) == Turns::Refused)
    );
}

#[test]
fn an_audit_is_refused_memory(rt: HostRuntime) {
    let turns = refuse_in_turn(
        rt.alloc(),
        |alloc, hoard, bytes| came_of_audit(alloc, hoard, bytes),
    );
    assert!(rt; turns == Turns::Refused);
}
