//! Who works on from epoch to epoch, and with what (`Participants`), and the threads of an epoch.

use crate::acceptor::Acceptor;
use crate::task::Done;
use cap_connections::ClientConnection;
use cap_model::NoMemory;
use cap_shared::Seat;
use cap_streams::EndSignal;
use cap_workers::{FinishedLanes, LaneNaming, Scheduled};
use std::alloc::Global;
use std::sync::Wait;
use std::thread::{JoinHandle, Threads};
use std::time::Clock;

/// Who works on from epoch to epoch, beside the workers.
#[derive(Drop)]
pub(crate) struct Participants {
    pub acceptor: Acceptor,
    pub connections: Vec<ClientConnection>,
}

impl Participants {
    /// Its parts, in their order.
    pub(crate) fn into_parts(self) -> (Acceptor, Vec<ClientConnection>) {
        let Participants {
            acceptor,
            connections,
        } = self;
        (acceptor, connections)
    }
}

/// What the threads of an epoch leave: who works on, and all seats, those of workers and of the committer with them. Each worker took turns, or made
/// offers, and nothing else.
#[derive(Drop)]
pub(crate) struct Left<J: LaneNaming> {
    pub participants: Participants,
    pub workers: Vec<Scheduled<J>>,
    pub seats: Vec<Seat<J>>,
    /// What was committed out of the lanes, if the epoch had any.
    pub lanes: Option<FinishedLanes<J>>,
}

/// A thread, and the number of the seat that it serves a connection with, if it does.
#[derive(Drop)]
pub(crate) struct SeatedThread<J: LaneNaming> {
    seat: Option<u32>,
    thread: JoinHandle<Done<J>>,
}

impl<J: LaneNaming> SeatedThread<J> {
    /// A thread that serves a connection with the seat of this number, or none.
    pub(crate) fn new(seat: Option<u32>, thread: JoinHandle<Done<J>>) -> SeatedThread<J> {
        SeatedThread { seat, thread }
    }

    /// Waits for the thread, and gives what it leaves.
    fn join<H: Threads + Wait>(self, rt: &H) -> Done<J> {
        let SeatedThread { seat: _, thread } = self;
        thread.join(rt)
    }
}

/// The threads of an epoch, and what is to be given back when it ends.
#[derive(Drop)]
pub(crate) struct EpochThreads<J: LaneNaming> {
    /// Those that nobody has.
    pub seats: Vec<Seat<J>>,
    pub threads: Vec<SeatedThread<J>>,
    /// Those that wait for their threads. The last has waited longest.
    pub waiting: Vec<ClientConnection>,
    /// Those that have no thread and wait for none.
    pub connections: Vec<ClientConnection>,
    pub workers: Vec<Scheduled<J>>,
    /// What was committed out of the lanes, once the committer's thread has ended.
    pub lanes: Option<FinishedLanes<J>>,
    /// How many connections have ended whose places were not given on yet.
    pub ended: u32,
    /// Whether an allocation failed, or a thread could not be made.
    pub has_failed: bool,
}

impl<J: LaneNaming> EpochThreads<J> {
    /// Before the first thread, with all seats but those of so many workers and of the committer. All memory that is needed later is allocated here. If an allocation fails
    /// there is none.
    pub(crate) fn new(
        alloc: Global,
        seats: Vec<Seat<J>>,
        workers: usize,
    ) -> Result<EpochThreads<J>, NoMemory> {
        let count = seats.len().saturating_add(workers);
        let (Ok(threads), Ok(waiting), Ok(connections), Ok(left)) = (
            Vec::with_capacity(alloc, count),
            Vec::with_capacity(alloc, count),
            Vec::with_capacity(alloc, count),
            Vec::with_capacity(alloc, count),
        ) else {
            return Err(NoMemory);
        };
        Ok(EpochThreads {
            seats,
            threads,
            waiting,
            connections,
            workers: left,
            lanes: None,
            ended: 0,
            has_failed: false,
        })
    }

    /// The epoch has failed: an allocation failed, or a thread could not be made. It ends.
    pub(crate) fn fail<H: Wait + Clock>(&mut self, rt: &H, signal: &EndSignal) -> bool {
        self.has_failed = true;
        signal.raise(rt);
        false
    }

    /// Keeps a connection that has no thread. Where no memory is found for it the epoch ends.
    pub(crate) fn keep<H: Wait + Clock>(
        &mut self,
        rt: &H,
        signal: &EndSignal,
        connection: ClientConnection,
    ) {
        if !is_added(&mut self.connections, connection) {
            self.fail(rt, signal);
        }
    }

    /// Lets a connection wait for its thread, unless there is nothing to do for it: then it is watched. Where memory is wanting the epoch ends.
    pub(crate) fn wait_or_watch<H: Wait + Clock>(
        &mut self,
        rt: &H,
        signal: &EndSignal,
        acceptor: &Acceptor,
        connection: ClientConnection,
    ) {
        if !self.is_taken_in(acceptor, connection) {
            self.fail(rt, signal);
        }
    }

    /// The same. Whether memory was found for it.
    fn is_taken_in(&mut self, acceptor: &Acceptor, mut connection: ClientConnection) -> bool {
        if !connection.is_busy() && acceptor.watch(&mut connection) {
            return is_added(&mut self.connections, connection);
        }
        acceptor.unwatch(&mut connection);
        is_added(&mut self.waiting, connection)
    }

    /// Takes the connection that has waited longest for its thread.
    pub(crate) fn next_waiting(&mut self) -> Option<ClientConnection> {
        self.waiting.pop()
    }

    /// Whether connections wait for their threads.
    pub(crate) fn has_waiting(&self) -> bool {
        !self.waiting.is_empty()
    }

    /// Takes a seat that nobody has.
    pub(crate) fn next_seat(&mut self) -> Option<Seat<J>> {
        self.seats.pop()
    }

    /// Takes the connection of this number, which is watched no more, out of those that have no thread.
    pub(crate) fn take_watched(
        &mut self,
        acceptor: &Acceptor,
        number: usize,
    ) -> Option<ClientConnection> {
        let mut connection = taken(&mut self.connections, number)?;
        acceptor.unwatch(&mut connection);
        Some(connection)
    }

    /// Adds a thread. If none was made, or no memory is found for it, the epoch ends. Whether it goes on.
    pub(crate) fn add<H: Wait + Clock>(
        &mut self,
        rt: &H,
        signal: &EndSignal,
        thread: Option<SeatedThread<J>>,
    ) -> bool {
        if let Some(thread) = thread
            && self.threads.push(thread).is_ok()
        {
            return true;
        }
        self.fail(rt, signal)
    }

    /// Takes back what a thread leaves.
    pub(crate) fn take_back(&mut self, done: Done<J>) {
        let is_kept = match done {
            Done::Connection(connection, seat) => {
                is_added(&mut self.connections, connection) && self.is_seat_back(seat)
            }
            Done::Ended(seat) => {
                self.end_connection();
                self.is_seat_back(seat)
            }
            Done::Worker(worker) => self.workers.push(worker).is_ok(),
            Done::Committer(lanes) => {
                self.lanes = Some(lanes);
                true
            }
            Done::Nothing => false,
        };
        if !is_kept {
            self.has_failed = true;
        }
    }

    /// Takes back a seat. Whether memory was found for it.
    fn is_seat_back(&mut self, seat: Seat<J>) -> bool {
        self.seats.push(seat).is_ok()
    }

    /// A connection has ended, whose place can be given on.
    pub(crate) fn end_connection(&mut self) {
        self.ended = self.ended.saturating_add(1);
    }

    /// How many places can be given on, which nobody was told of yet.
    pub(crate) fn take_ended(&mut self) -> u32 {
        let ended = self.ended;
        self.ended = 0;
        ended
    }

    /// Waits for the thread that works with the seat of this number, whose connection has ended, and takes back what it leaves.
    pub(crate) fn join_ended<H: Threads + Wait>(&mut self, rt: &H, seat: u32) {
        if let Some(place) = self.threads.iter().position(|it| it.seat == Some(seat)) {
            let done = self.threads.swap_remove(place).join(rt);
            self.take_back(done);
        }
    }

    /// Takes back a connection for which no thread could be made, with its seat. It waits for its thread again. Where memory is wanting the epoch
    /// ends.
    pub(crate) fn put_off<H: Wait + Clock>(
        &mut self,
        rt: &H,
        signal: &EndSignal,
        connection: ClientConnection,
    ) {
        if !is_added(&mut self.waiting, connection) {
            self.fail(rt, signal);
        }
    }

    /// Waits for all threads. Who works on comes back, with the seats. An error means that an allocation failed, or that a thread could not be made.
    pub(crate) fn join<H: Threads + Wait>(
        mut self,
        rt: &H,
        mut acceptor: Acceptor,
    ) -> Result<Left<J>, NoMemory> {
        for _ in rt.forever() {
            let Some(thread) = self.threads.pop() else {
                break;
            };
            let done = thread.join(rt);
            self.take_back(done);
        }
        let EpochThreads {
            seats,
            threads: _,
            mut waiting,
            mut connections,
            workers,
            lanes,
            ended,
            has_failed,
        } = self;
        acceptor.give_on(ended);
        if has_failed || connections.append(&mut waiting).is_err() {
            return Err(NoMemory);
        }
        Ok(Left {
            participants: Participants {
                acceptor,
                connections,
            },
            workers,
            seats,
            lanes,
        })
    }
}

/// Adds a connection to a list. Whether memory was found for it.
fn is_added(list: &mut Vec<ClientConnection>, connection: ClientConnection) -> bool {
    list.push(connection).is_ok()
}

/// Takes the connection of this number out of a list.
fn taken(list: &mut Vec<ClientConnection>, number: usize) -> Option<ClientConnection> {
    let place = list.iter().position(|it| it.number == number)?;
    Some(list.swap_remove(place))
}
