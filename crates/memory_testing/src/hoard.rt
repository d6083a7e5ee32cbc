//! A hoard: all memory that the system gives this process, kept but for what a test leaves (`Hoard`).
ghost use Rattle.std.specs.Prelude.{◌≤◌};

use std::alloc::Global;

/// Blocks at most that a hoard takes from the system.
const BLOCKS: usize = 200_000;

/// Pieces at most into which it cuts its room.
const PIECES: usize = 20_000;

/// The room is so many blocks of so many bytes, each too small to be mapped by itself.
const ROOM_BLOCKS: usize = 128;

const ROOM_BLOCK: usize = 65_536;

/// A piece so large that what remains of it is split for smaller ones.
const WHOLE: usize = 8_192;

/// The least that an allocation takes.
const LEAST: usize = 32;

/// What an allocation takes beside its bytes.
const HEAD: usize = 8;

/// The largest block that is asked for at first, as large as half of all addresses of a process.
const LARGEST: usize = 1 << 46;

/// The largest piece of the room, as large as the room.
const LARGEST_PIECE: usize = ROOM_BLOCKS * ROOM_BLOCK;

/// Where so many bytes are left, an allocation of so many more is refused.
const MORE: usize = 64;

/// How many bytes of the stack a hoard fills: 1 MiB.
const STACK: usize = 1 << 20;

/// All that the system gives this process, kept so that nobody else has it, but for a room of 128 blocks of 65,536 bytes in which fixtures
/// are made. It lasts until it is dropped.
#[derive(Drop)]
pub struct Hoard {
    kept: Vec<Vec<u8>>,
    pieces: Vec<Vec<u8>>,
    takes: bool,
    is_short: bool,
}

/// Takes blocks of this size until one is refused.
fn take_all(alloc: Global, kept: &mut Vec<Vec<u8>>, size: usize) {
    for _ in 0..BLOCKS {
        if kept.len() >= kept.capacity() {
            return;
        }
        let Ok(block) = Vec::with_capacity(alloc, size) else {
            return;
        };
        if kept.push(block).is_err() {
            return;
        }
    }
}

/// Takes all that is there, in blocks of at most this size and then of half of it, and so on.
fn take_rest(alloc: Global, kept: &mut Vec<Vec<u8>>, most: usize) {
    let mut size = most;
    for _ in 0..64 {
        if size <= 1024 {
            break;
        }
        take_all(alloc, kept, size);
        size /= 2;
    }
    for step in 0..65usize {
        take_all(
            alloc,
            kept,
            1032usize.saturating_sub(step.saturating_mul(16)),
        );
    }
    take_all(alloc, kept, 1);
}

/// The blocks of a room.
fn room(alloc: Global) -> Option<Vec<Vec<u8>>> {
    let mut blocks = Vec::with_capacity(alloc, ROOM_BLOCKS).ok()?;
    for _ in 0..ROOM_BLOCKS {
        blocks
            .push(Vec::with_capacity(alloc, ROOM_BLOCK).ok()?)
            .ok()?;
    }
    Some(blocks)
}

/// Whether all bytes are this one. It reads each of them and stands apart, so that no compiler leaves out what fills them.
#[inline(never)]
fn are_all(bytes: &[u8], byte: u8) -> bool {
    for other in bytes {
        if *other != byte {
            return false;
        }
    }
    true
}

/// Fills so many bytes of the stack below, so that the system has given it their addresses: where others have those, a stack can't grow any
/// more.
#[inline(never)]
fn touch_stack<const N: usize>(byte: u8) -> bool
    requires { N ≤ 1048576 }
{
    let room = [byte; N];
    are_all(&room, byte)
}

impl Hoard {
    /// Takes all memory but the room. At least 1 MiB of this thread's stack is then there. `None` where the system gives too little for it.
    pub fn new(alloc: Global) -> Option<Hoard> {
        Hoard::beside_threads(alloc, 0)
    }

    /// The same, but for the addresses of so many bytes more, in one piece, for the stacks of threads that begin later and what they
    /// allocate. `leave` takes those too that no thread has by then. Less than 32,000,000 bytes, and before any thread begins: glibc makes a
    /// heap of 64 MiB for a thread where it can, out of which no hoard takes anything; where it can't, each allocation of the thread takes
    /// pages of the system's.
    pub fn beside_threads(alloc: Global, bytes: usize) -> Option<Hoard> {
        if !touch_stack::<STACK>(b'f') {
            return None;
        }
        let mut kept = Vec::with_capacity(alloc, BLOCKS).ok()?;
        let pieces = Vec::with_capacity(alloc, PIECES).ok()?;
        let blocks = room(alloc)?;
        let stacks = Vec::<u8>::with_capacity(alloc, bytes).ok()?;
        take_rest(alloc, &mut kept, LARGEST);
        drop(stacks);
        drop(blocks);
        Some(Hoard {
            kept,
            pieces,
            takes: true,
            is_short: false,
        })
    }

    /// One that takes nothing and leaves all: with it, what is refused is up to whoever runs the program.
    pub fn of_nothing(alloc: Global) -> Hoard {
        Hoard {
            kept: Vec::new(alloc),
            pieces: Vec::new(alloc),
            takes: false,
            is_short: false,
        }
    }

    /// Takes the room too, but for so many bytes in one piece: an allocation that needs more than what is left of them is refused, until
    /// `give`. What is made while they are left is no message of a test, which needs memory itself. At most 1 MiB can be left.
    pub fn leave(&mut self, alloc: Global, bytes: usize) {
        if !self.takes {
            return;
        }
        self.is_short = false;
        self.take_but(alloc, bytes);
        self.is_short = !self.has_left(alloc, bytes.saturating_add(MORE));
    }

    /// Takes all but so many bytes in one piece.
    fn take_but(&mut self, alloc: Global, bytes: usize) {
        let Ok(piece) = Vec::<u8>::with_capacity(alloc, WHOLE.saturating_add(bytes)) else {
            return;
        };
        take_rest(alloc, &mut self.pieces, LARGEST_PIECE);
        drop(piece);
        let Ok(front) = Vec::with_capacity(alloc, WHOLE) else {
            return;
        };
        let _ = self.pieces.push(front);
    }

    /// Whether 64 bytes more than the last `leave` left could not be had right after it.
    pub fn is_short(&self) -> bool {
        self.is_short
    }

    /// Whether `leave` left so many bytes, a multiple of 16 and at least 32, and nothing has taken of them since.
    pub fn has_left(&self, alloc: Global, bytes: usize) -> bool {
        Vec::<u8>::with_capacity(alloc, bytes.saturating_sub(HEAD)).is_ok()
    }

    /// Gives the room back.
    pub fn give(&mut self) {
        self.pieces.clear();
    }
}
