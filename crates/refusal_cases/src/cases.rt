//! Whatever is made where memory is short (`Case`), and what comes of it (`came`).
use crate::copies::{self, Taken};
use crate::epochs::Task;
use crate::fixture::{self, Row};
use crate::replays::{self, Script};
use crate::table::Before;
use crate::{framing, readings, sessions, shared, worlds};
use memory_testing::{Came, Hoard};
use std::alloc::Global;
use std::sync::Wait;

/// What is made where memory is short.
#[derive(Clone, Copy)]
pub enum Case {
    /// A call or a commit on a cluster.
    Step(Row),
    /// A payload is read.
    Reading(readings::Row),
    /// A snapshot of a cluster.
    Snapshot(Taken),
    /// A session is fed.
    Session(sessions::Row),
    /// A step of a world.
    World(worlds::Row),
    /// A piece of bytes for a world, with two requests.
    Piece,
    /// Something with a shared cluster, which is one after some steps.
    Task(Before, Task),
    /// Lanes of workers.
    Lanes,
    /// A framer is fed.
    Framer,
    /// A script.
    Replay(Script),
}

/// What comes of a case where so many bytes are left.
pub fn came<H: Wait>(rt: &H, alloc: Global, hoard: &mut Hoard, bytes: usize, case: &Case) -> Came {
    match case {
        Case::Step(row) => fixture::came(alloc, hoard, bytes, *row),
        Case::Reading(row) => readings::came(alloc, hoard, bytes, *row),
        Case::Snapshot(taken) => copies::came(alloc, hoard, bytes, *taken),
        Case::Session(row) => sessions::came(alloc, hoard, bytes, *row),
        Case::World(row) => worlds::came(alloc, hoard, bytes, row),
        Case::Piece => worlds::came_of_bytes(alloc, hoard, bytes),
        Case::Task(before, task) => shared::came(rt, alloc, hoard, bytes, *before, *task),
        Case::Lanes => shared::made_lanes(alloc, hoard, bytes),
        Case::Framer => framing::came(alloc, hoard, bytes),
        Case::Replay(script) => replays::came(alloc, hoard, bytes, *script),
    }
}
