//! Workers that take turns.
use bumpalo::Bump;
use cap_model::{Event, Reason};
use cap_shared::{Naming, Seat, Shared};
use cap_workers::{Gate, OpenGate, Point, Turn, TurnEnd, Worker};
use std::alloc::Global;
use std::sync::atomic::{AtomicU64, Ordering};
use std::sync::{Mutex, Wait};

/// What came of a turn.
#[derive(Clone, Copy, PartialEq, Eq)]
pub enum Came {
    Nothing,
    /// A container of this number was granted on this node.
    Granted { container: u64, node: u64 },
    Reserved { node: u64 },
    Rejected(Reason),
    /// The journal was full. The proposal was for this node.
    Sealed { node: u64 },
    NoMemory,
    /// The arena was not reset.
    Spent,
    /// These points were come to, a digit each.
    Points(u64),
}

pub fn came_of(turn: &Turn) -> Came {
    if !turn.reset {
        return Came::Spent;
    }
    match &turn.end {
        TurnEnd::Nothing => Came::Nothing,
        TurnEnd::Done(Event::Grant { container }) => Came::Granted {
            container: container.number,
            node: container.node,
        },
        TurnEnd::Done(Event::Reserve { reservation }) => Came::Reserved {
            node: reservation.node,
        },
        TurnEnd::Done(Event::Call { .. }) => Came::Spent,
        TurnEnd::Rejected(reason) => Came::Rejected(*reason),
        TurnEnd::Sealed(proposal) => Came::Sealed {
            node: proposal.node(),
        },
        TurnEnd::NoMemory => Came::NoMemory,
    }
}

/// A worker takes a turn: what came of it.
fn one_turn<J: Naming, H: Wait, G: Gate>(
    rt: &H,
    shared: &Shared<J>,
    seat: &mut Seat<J>,
    worker: &mut Worker,
    arena: &mut Bump<Global>,
    gate: &G,
) -> Came {
    came_of(&worker.turn(rt, shared, seat, arena, gate))
}

/// Notes each point as a digit.
#[derive(Drop)]
struct Noting {
    points: AtomicU64,
}

fn digit(point: Point) -> u64 {
    match point {
        Point::Copied => 1,
        Point::Proposed => 2,
        Point::Committed(_) => 3,
    }
}

impl Gate for Noting {
    fn at(&self, _worker: u32, point: Point) {
        let before = self.points.load(Ordering::SeqCst);
        self.points.store(
            before.wrapping_mul(10).wrapping_add(digit(point)),
            Ordering::SeqCst,
        );
    }
}

/// A worker of this number takes three turns: what came of each, and the points of all.
pub fn in_turn<J: Naming, H: Wait>(
    rt: &H,
    alloc: Global,
    shared: &Shared<J>,
    seat: &mut Seat<J>,
    number: u32,
    came: &mut Vec<Came>,
) {
    let mut arena = Bump::new(alloc);
    let mut worker = Worker::new(number);
    let gate = Noting {
        points: AtomicU64::new(0),
    };
    for _ in 0..3 {
        let turn = one_turn(rt, shared, seat, &mut worker, &mut arena, &gate);
        let _kept = came.push(turn);
    }
    let _kept = came.push(Came::Points(gate.points.load(Ordering::SeqCst)));
}

/// Worker 1 takes its turn when another worker has proposed and has not committed.
#[derive(Drop)]
struct Overtaking<'a, J: Naming, H: Wait> {
    rt: &'a H,
    alloc: Global,
    shared: &'a Shared<J>,
    seat: Mutex<Seat<J>>,
    came: Mutex<Came>,
}

impl<J: Naming, H: Wait> Gate for Overtaking<'_, J, H> {
    fn at(&self, _worker: u32, point: Point) {
        if point != Point::Proposed {
            return;
        }
        let mut arena = Bump::new(self.alloc);
        let mut seat = self.seat.lock(self.rt);
        let mut worker = Worker::new(1);
        let came = one_turn(
            self.rt,
            self.shared,
            &mut seat,
            &mut worker,
            &mut arena,
            &OpenGate,
        );
        *self.came.lock(self.rt) = came;
    }
}

/// Worker 0 takes a turn, in which worker 1 overtakes it: what came of worker 1's, and of its own.
pub fn overtaken<J: Naming, H: Wait>(
    rt: &H,
    alloc: Global,
    shared: &Shared<J>,
    mut own: Seat<J>,
    other: Seat<J>,
    came: &mut Vec<Came>,
) {
    let mut arena = Bump::new(alloc);
    let gate = Overtaking {
        rt,
        alloc,
        shared,
        seat: Mutex::new(other),
        came: Mutex::new(Came::Spent),
    };
    let mut worker = Worker::new(0);
    let turn = one_turn(rt, shared, &mut own, &mut worker, &mut arena, &gate);
    let first = *gate.came.lock(rt);
    let _kept = came.push(first);
    let _kept = came.push(turn);
}
