//! What the threads of an epoch do: those of workers and of the committer (`Task`), and those that serve connections.
ghost use Rattle.std.specs.Prelude.{◌≡◌};

use crate::state::SharedState;
use cap_connections::{ClientConnection, Given, Place};
use cap_shared::{Entry, Seat, SeatReport, Shared};
use cap_streams::EndSignal;
use cap_workers::{
    Coordinator, Direction, FinishedLanes, Gate, LaneCommitter, LaneNaming, Scheduled, Scheduler,
    StopSignal, commit_all,
};
use std::sync::Wait;
use std::time::{Clock, Duration};

/// What is left of a closed epoch beside its cluster.
#[derive(Drop)]
pub(crate) struct Records {
    pub journal: Vec<Entry>,
    pub seats: Vec<SeatReport>,
}

/// What a thread does in an epoch that serves no connection.
#[derive(Drop)]
pub(crate) enum Task<J: LaneNaming> {
    /// Schedules, through its lane if it has one.
    Schedule(Scheduler<J>),
    /// Commits what workers put into their lanes.
    Commit(LaneCommitter<J>),
}

/// When those that schedule leave an epoch: as it ends.
#[derive(Drop)]
struct Leaving<'a> {
    signal: &'a EndSignal,
}

impl<'a> Leaving<'a> {
    /// As this signal is raised.
    fn by(signal: &'a EndSignal) -> Leaving<'a> {
        Leaving { signal }
    }
}

impl StopSignal for Leaving<'_> {
    fn is_raised<R: Wait>(&self, _rt: &R) -> bool {
        self.signal.is_over()
    }

    fn wait<R: Wait + Clock>(&self, rt: &R, pause: Duration) {
        self.signal.wait(rt, pause);
    }
}

/// What a thread leaves.
#[derive(Drop)]
pub(crate) enum Done<J: LaneNaming> {
    /// A connection that is served on, and its seat.
    Connection(ClientConnection, Seat<J>),
    /// The connection has ended that was served with this seat.
    Ended(Seat<J>),
    Worker(Scheduled<J>),
    /// What the lanes are closed with.
    Committer(FinishedLanes<J>),
    /// Nothing was given to the thread, or it has nothing to give back.
    Nothing,
}

impl<J: LaneNaming> Task<J> {
    /// Does the task in an epoch. It ends once the epoch does; the committer's once the workers have ended.
    pub(crate) fn work<H: Wait + Clock, G: Gate>(
        self,
        rt: &H,
        shared: &Shared<J>,
        state: &SharedState<'_, G>,
        coordinator: &Coordinator<J>,
    ) -> Done<J> {
        match self {
            Task::Schedule(scheduler) => {
                Done::Worker(propose(rt, shared, state, coordinator, scheduler))
            }
            Task::Commit(lanes) => {
                match commit_all(rt, shared, coordinator, &state.gate, lanes) {
                    Some(lanes) => Done::Committer(lanes),
                    None => Done::Nothing,
                }
            }
        }
    }
}

/// Serves the connection that was given in an epoch, until it ends or the epoch does. Where it has ended, that is noted at its place.
pub(crate) fn serve<J: LaneNaming, H: Wait + Clock, G>(
    rt: &H,
    shared: &Shared<J>,
    state: &SharedState<'_, G>,
    place: &Place<J>,
) -> Done<J> {
    let Some(
        Given {
            connection,
            mut seat,
        },
    ) = place.take(rt)
    else {
        return Done::Nothing;
    };
    match connection.serve(rt, shared, &mut seat, &state.signal) {
        Some(connection) => Done::Connection(connection, seat),
        None => {
            state.end_connections(rt, 1);
            place.note_end();
            state.wake();
            Done::Ended(seat)
        }
    }
}

/// Schedules until the journal is full or the epoch ends; where the journal is full the epoch ends.
fn propose<J: LaneNaming, H: Wait + Clock, G: Gate>(
    rt: &H,
    shared: &Shared<J>,
    state: &SharedState<'_, G>,
    coordinator: &Coordinator<J>,
    scheduler: Scheduler<J>,
) -> Scheduled<J>
    ensures first { result.first ≡ scheduler.worker }
    ensures number { result.worker.number ≡ scheduler.worker.number }
{
    let leaving = Leaving::by(&state.signal);
    let direction = Direction {
        coordinator,
        signal: &leaving,
        gate: &state.gate,
    };
    let scheduled = scheduler.schedule(rt, shared, &direction);
    state.signal.raise(rt);
    scheduled
}
