//! A worker whose proposal is rejected rests, unless it is worker 0. A client takes back what it asks for once that was chosen.
use crate::epochs::{Play, call_all, play_with};
use cap_shared::{Seat, Shared};
use cap_testing::{Call, WantedContainers};
use cap_workers::{Coordinator, Direction, Gate, LaneNaming, Point, Scheduler, StopSignal};
use std::alloc::Global;
use std::sync::{Mutex, Wait};
use std::test::*;
use std::time::{Clock, Duration};

/// How many pauses are seen before the epoch ends.
const PAUSES: usize = 5;

/// Whether the client takes back what it asks for, at each commit of the epoch. After the last it asks no more.
const TAKES_BACK: [bool; 5] = [false, true, true, false, true];

/// So many containers of (1024, 1), anywhere.
const fn wanted(count: u32) -> [WantedContainers<'static>; 1] {
    [WantedContainers {
        priority: 1,
        request: 0,
        count,
        resource: [1024, 1, 0],
        place: b"*",
    }]
}

/// Two nodes, and an application.
static OPENED: [Call; 4] = [
    Call::Submit(b"root.a", b"u1"),
    Call::RegisterMaster(1),
    Call::RegisterNode(b"n1", b"/r1", [8192, 8, 0]),
    Call::RegisterNode(b"n2", b"/r1", [8192, 8, 0]),
];

/// A pause: how many commits there were before, and how long it is, in microseconds.
#[derive(Clone, Copy, Debug, PartialEq, Eq)]
struct Pause {
    commits: usize,
    length: u128,
}

/// A client, and what is seen beside it.
#[derive(Drop)]
struct Client<J: LaneNaming> {
    seat: Seat<J>,
    response: u32,
    /// Whether it asks for a container.
    asks: bool,
    commits: usize,
    pauses: [Pause; PAUSES],
    paused: usize,
    /// Whether a call was not made.
    has_failed: bool,
}

impl<J: LaneNaming> Client<J> {
    fn new(seat: Seat<J>) -> Client<J> {
        Client {
            seat,
            response: 0,
            asks: false,
            commits: 0,
            pauses: [Pause {
                commits: 0,
                length: 0,
            }; PAUSES],
            paused: 0,
            has_failed: false,
        }
    }

    /// Asks for a container, or takes that back.
    fn ask<H: Wait>(&mut self, rt: &H, alloc: Global, shared: &Shared<J>, asks: bool) {
        let wanted = wanted(if asks { 1 } else { 0 });
        let call = Call::Allocate(1, self.response, &wanted, &[]);
        if call_all(rt, alloc, shared, &mut self.seat, &[call]).is_none() {
            self.has_failed = true;
        }
        self.response = self.response.saturating_add(1);
        self.asks = asks;
    }

    /// The worker has looked, and commits if it has found something.
    fn before_commit<H: Wait>(&mut self, rt: &H, alloc: Global, shared: &Shared<J>) {
        if self.asks && TAKES_BACK.get(self.commits).copied() == Some(true) {
            self.ask(rt, alloc, shared, false);
        }
    }

    /// The worker's commit is answered.
    fn after_commit<H: Wait>(&mut self, rt: &H, alloc: Global, shared: &Shared<J>) {
        self.commits = self.commits.saturating_add(1);
        if self.commits < TAKES_BACK.len() {
            self.ask(rt, alloc, shared, true);
        }
    }

    fn note_pause(&mut self, length: u128) {
        let pause = Pause {
            commits: self.commits,
            length,
        };
        if let Some(place) = self.pauses.get_mut(self.paused) {
            *place = pause;
        }
        self.paused = self.paused.saturating_add(1);
    }
}

/// Makes the client's calls where the worker is held, and keeps its pauses, which take no time, until so many are seen that the epoch ends.
#[derive(Drop)]
struct Beside<'a, J: LaneNaming, H> {
    rt: &'a H,
    alloc: Global,
    shared: &'a Shared<J>,
    client: Mutex<Client<J>>,
}

impl<J: LaneNaming, H: Wait> Gate for Beside<'_, J, H> {
    fn at(&self, _worker: u32, point: Point) {
        let mut client = self.client.lock(self.rt);
        match point {
            Point::Copied => {}
            Point::Proposed => client.before_commit(self.rt, self.alloc, self.shared),
            Point::Committed(_) => client.after_commit(self.rt, self.alloc, self.shared),
        }
    }
}

impl<J: LaneNaming, H: Wait> StopSignal for Beside<'_, J, H> {
    fn is_raised<R: Wait>(&self, rt: &R) -> bool {
        self.client.lock(rt).paused >= PAUSES
    }

    fn wait<R: Wait + Clock>(&self, rt: &R, pause: Duration) {
        self.client.lock(rt).note_pause(pause.as_micros());
    }
}

/// A worker schedules until five pauses were seen: what they were.
struct Schedule;

impl Play for Schedule {
    type Seen = [Pause; PAUSES];

    fn play<J: LaneNaming, H: Wait + Clock>(
        &self,
        rt: &H,
        alloc: Global,
        shared: &Shared<J>,
        caller: Seat<J>,
        own: Scheduler<J>,
    ) -> Option<[Pause; PAUSES]> {
        let mut client = Client::new(caller);
        call_all(rt, alloc, shared, &mut client.seat, &OPENED)?;
        client.ask(rt, alloc, shared, true);
        let beside = Beside {
            rt,
            alloc,
            shared,
            client: Mutex::new(client),
        };
        let coordinator = Coordinator::new();
        let direction = Direction {
            coordinator: &coordinator,
            signal: &beside,
            gate: &beside,
        };
        let _scheduled = own.schedule(rt, shared, &direction);
        let client = beside.client.lock(rt);
        if client.has_failed || client.commits != TAKES_BACK.len() {
            return None;
        }
        let pauses = client.pauses;
        Some(pauses)
    }
}

/// Pauses after so many commits, of so many milliseconds.
fn pauses_of(expected: &[(usize, u128); PAUSES]) -> [Pause; PAUSES] {
    let mut pauses = [Pause {
        commits: 0,
        length: 0,
    }; PAUSES];
    for (pause, (commits, millis)) in pauses.iter_mut().zip(expected) {
        *pause = Pause {
            commits: *commits,
            length: millis.saturating_mul(1000),
        };
    }
    pauses
}

/// How often the worker is let schedule. A look that takes longer than a pause makes the pause after it longer.
const RUNS: usize = 20;

/// The pauses of so many runs, each as long as it was at least. `None` if something failed that must not, or a pause came elsewhere than in the run before.
fn least_pauses<H: Wait + Clock>(
    rt: &H,
    alloc: Global,
    number: u32,
    copies: bool,
) -> Option<[Pause; PAUSES]> {
    let mut least = play_with(rt, alloc, number, copies, &Schedule)?;
    for _ in 1..RUNS {
        let pauses = play_with(rt, alloc, number, copies, &Schedule)?;
        for (shortest, pause) in least.iter_mut().zip(&pauses) {
            if pause.commits != shortest.commits {
                return None;
            }
            shortest.length = shortest.length.min(pause.length);
        }
    }
    Some(least)
}

/// One proposal is made, two are rejected, one is made, and one more is rejected; then there is nothing to propose. Any worker but worker 0 rests after each
/// that is rejected, twice as long after the second, and after what was made as long as at first. Worker 0 rests once there is nothing to propose.
#[test]
fn all_but_the_first_worker_rest_after_a_rejection(rt: HostRuntime) {
    let first = [(5, 1), (5, 2), (5, 4), (5, 8), (5, 10)];
    let other = [(2, 1), (3, 2), (5, 1), (5, 2), (5, 4)];
    for &(number, copies, expected) in &[
        (0, false, first),
        (0, true, first),
        (1, false, other),
        (1, true, other),
        (7, false, other),
    ] {
        let least = least_pauses(&rt, rt.alloc(), number, copies);
        assert_eq!(rt;
            least,
            Some(pauses_of(&expected)),
            "worker {number}, by copies: {copies}"
        );
    }
}
