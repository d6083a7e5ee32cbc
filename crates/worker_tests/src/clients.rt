//! Clients that make calls of all kinds, each in a thread of its own (`begin_clients`, `join_clients`).
use cap_messages::read_request;
use cap_shared::{Naming, Seat, Shared};
use cap_testing::{Mark, RandomClient};
use cap_workers::StopSignal;
use std::alloc::Global;
use std::sync::Wait;
use std::thread::{JoinHandle, Scope, SpawnError, Threads, yield_now};
use std::time::{Clock, Duration};

/// How many clients call.
pub const CLIENTS: u32 = 8;

/// How many calls each makes.
pub const CALLS: u32 = 1000;

/// How clients and who looks at what they do wait for one another.
#[derive(Drop)]
pub struct Course {
    ended: Mark,
    looks: Mark,
    /// After so many calls each client waits until it was looked at once more. With 0 it never waits.
    every: u32,
}

impl Course {
    pub fn new(every: u32) -> Course {
        Course {
            ended: Mark::new(),
            looks: Mark::new(),
            every,
        }
    }

    /// Tells that it was looked at what they do.
    pub fn has_looked(&self) {
        self.looks.add_one();
    }

    /// Waits before the call of this number as long as it has to. False if that takes too long.
    fn awaits(&self, call: u32) -> bool {
        match call.checked_div(self.every) {
            Some(looks) => self.looks.awaits(u64::from(looks)),
            None => true,
        }
    }
}

/// Who works beside the clients leaves once all of them have ended.
impl StopSignal for Course {
    fn is_raised<R: Wait>(&self, _rt: &R) -> bool {
        self.ended.is_reached(u64::from(CLIENTS))
    }

    fn wait<R: Wait + Clock>(&self, _rt: &R, _pause: Duration) {
        yield_now();
    }
}

/// Makes the calls of a client with a seat. `None` if one is not made.
fn call_at_random<J: Naming, H: Wait>(
    rt: &H,
    alloc: Global,
    shared: &Shared<J>,
    course: &Course,
    seat: &mut Seat<J>,
) -> Option<()> {
    let mut client = RandomClient::new(u64::from(seat.number()));
    for call in 0..CALLS {
        if !course.awaits(call) {
            return None;
        }
        let bytes = client.next_frame(alloc)?;
        let (_, request) = read_request(alloc, bytes.get(4..)?).ok()?;
        let reply = shared.call(rt, seat, request).ok()?;
        client.note(&reply.view());
    }
    Some(())
}

/// A client that has ended: its seat, and whether all its calls were made.
#[derive(Drop)]
pub struct Called<J: Naming> {
    pub seat: Seat<J>,
    pub are_made: bool,
}

/// Makes the calls of a client, and tells that it has ended.
fn serve_client<J: Naming, H: Wait>(
    rt: &H,
    alloc: Global,
    shared: &Shared<J>,
    course: &Course,
    mut seat: Seat<J>,
) -> Called<J> {
    let are_made = call_at_random(rt, alloc, shared, course, &mut seat).is_some();
    course.ended.add_one();
    Called { seat, are_made }
}

/// Begins the thread of a client. `None` if none can be made: then it has ended.
fn begin_client<'s, E, J: Naming + Send + Sync, H: Wait + Sync>(
    scope: &'s Scope<'s, E>,
    rt: &'s H,
    alloc: Global,
    shared: &'s Shared<J>,
    course: &'s Course,
    seat: Seat<J>,
) -> Option<JoinHandle<Called<J>>> {
    match scope.spawn(move || serve_client(rt, alloc, shared, course, seat)) {
        Ok(thread) => Some(thread),
        Err(SpawnError { value }) => {
            drop(value);
            course.ended.add_one();
            None
        }
    }
}

/// Begins a thread for each client. `None` if one can't be made, or an allocation fails.
pub fn begin_clients<'s, E, J: Naming + Send + Sync, H: Wait + Sync>(
    scope: &'s Scope<'s, E>,
    rt: &'s H,
    alloc: Global,
    shared: &'s Shared<J>,
    course: &'s Course,
    seats: Vec<Seat<J>>,
) -> Option<Vec<JoinHandle<Called<J>>>> {
    let mut threads = Vec::with_capacity(alloc, seats.len()).ok()?;
    for seat in seats {
        let thread = begin_client(scope, rt, alloc, shared, course, seat)?;
        threads.push(thread).ok()?;
    }
    Some(threads)
}

/// Waits for the threads of the clients. `None` if an allocation fails.
pub fn join_clients<J: Naming, H: Threads + Wait>(
    rt: &H,
    alloc: Global,
    threads: Vec<JoinHandle<Called<J>>>,
) -> Option<Vec<Called<J>>> {
    let mut called = Vec::with_capacity(alloc, threads.len()).ok()?;
    for thread in threads {
        called.push(thread.join(rt)).ok()?;
    }
    Some(called)
}

/// The seats of clients. `None` if one has not made all its calls, or an allocation fails.
pub fn seats_of<J: Naming>(alloc: Global, called: Vec<Called<J>>) -> Option<Vec<Seat<J>>> {
    let mut seats = Vec::with_capacity(alloc, called.len()).ok()?;
    for Called { seat, are_made } in called {
        let Ok(()) = seats.push(seat) else {
            return None;
        };
        if !are_made {
            return None;
        }
    }
    Some(seats)
}
