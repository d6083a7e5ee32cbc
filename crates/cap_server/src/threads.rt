//! The threads of an epoch, which the thread of the daemon begins and ends (`run_threads`).
ghost use denote.Param.Send.{IsSend, IsSync};

use crate::acceptor::{Accept, Acceptor};
use crate::participants::{EpochThreads, Left, Participants, SeatedThread};
use crate::state::SharedState;
use crate::task::{Done, Task, serve};
use cap_connections::{ClientConnection, Given, Place, Places, Refused};
use cap_model::NoMemory;
use cap_shared::Shared;
use cap_streams::Course;
use cap_workers::{Coordinator, Gate, LaneCommitter, LaneNaming, Scheduler};
use std::alloc::Global;
use std::io::Input;
use std::net::{Net, TcpStream};
use std::sync::Wait;
use std::thread::{self, Builder, JoinHandle, Scope, SpawnError, Threads, sleep};
use std::time::{Clock, Duration};

/// How long the thread of the daemon waits at most where nothing happens, in milliseconds.
const LOOK_AGAIN: u64 = 50;

/// How many of the connections that wait for their threads get them at once, and after how many milliseconds others do.
const AT_ONCE: u32 = 16;

const BEGIN_MORE: u64 = 4;

/// The stack of a connection's thread, in bytes. Of threads that end, glibc keeps 40 MiB of stacks for those that begin.
const STACK: usize = 512 * 1024;

/// How often it is tried to make a thread for a task, and after how many milliseconds again: for 5 seconds together.
const TRIES: u32 = 100;

const TRY_AGAIN: u64 = 50;

/// What the threads of an epoch share beside the cluster.
#[derive(Drop)]
pub(crate) struct Common<J: LaneNaming> {
    pub coordinator: Coordinator<J>,
    pub places: Places<J>,
}

/// What an epoch begins with: its threads, which are none yet, the workers, and what is committed out of its lanes, if it has any.
type BegunThreads<J> = (EpochThreads<J>, Vec<Scheduler<J>>, Option<LaneCommitter<J>>);

/// Begins the threads of an epoch, and waits for them.
pub(crate) fn run_threads<
    J: LaneNaming + Send + Sync,
    H: Net + Threads + Wait + Clock + Eprint + Input + Sync,
    G: Gate + Sync,
>(
    rt: &H,
    alloc: Global,
    shared: &Shared<J>,
    state: &SharedState<'_, G>,
    common: &Common<J>,
    begun: BegunThreads<J>,
    participants: Participants,
) -> Result<Left<J>, NoMemory> {
    thread::scope(
        thread::scope_env(),
        rt,
        move |scope|
            requires { IsSend J.row × IsSync J.row × IsSync H.row × IsSync G.row }
        {
            let epoch = EpochScope {
                scope,
                rt,
                alloc,
                shared,
                state,
                common,
            };
            epoch.run(begun, participants)
        },
    )
}

/// What all threads of an epoch are begun with.
#[derive(Drop)]
struct EpochScope<'s, 'a, E, J: LaneNaming, H, G> {
    scope: &'s Scope<'s, E>,
    rt: &'s H,
    alloc: Global,
    shared: &'s Shared<J>,
    state: &'s SharedState<'a, G>,
    common: &'s Common<J>,
}

impl<
    's,
    'a,
    E,
    J: LaneNaming + Send + Sync,
    H: Net + Threads + Wait + Clock + Eprint + Input + Sync,
    G: Gate + Sync,
> EpochScope<'s, 'a, E, J, H, G> {
    /// The epoch, from its first thread to its last.
    fn run(&self, begun: BegunThreads<J>, participants: Participants) -> Result<Left<J>, NoMemory> {
        let (mut running, schedulers, lanes) = begun;
        let (mut acceptor, connections) = participants.into_parts();
        if !self.begin_tasks(&mut running, schedulers, lanes) {
            return Err(NoMemory);
        }
        for connection in connections {
            running.wait_or_watch(self.rt, &self.state.signal, &acceptor, connection);
        }
        self.begin_waiting(&mut running);
        self.clear();
        self.attend(&mut running, &mut acceptor);
        running.join(self.rt, acceptor)
    }

    /// Begins the threads of the committer, if there are lanes, and of the workers. Whether the committer's was made.
    fn begin_tasks(
        &self,
        running: &mut EpochThreads<J>,
        schedulers: Vec<Scheduler<J>>,
        lanes: Option<LaneCommitter<J>>,
    ) -> bool {
        if let Some(lanes) = lanes
            && !self.begin(running, Task::Commit(lanes))
        {
            return false;
        }
        for scheduler in schedulers {
            self.begin(running, Task::Schedule(scheduler));
        }
        true
    }

    /// Begins a thread for a connection. Where the epoch is ending that is left to the next one. Whether a thread could be made, or none was to be:
    /// else the connection waits for it.
    fn begin_connection(
        &self,
        running: &mut EpochThreads<J>,
        connection: ClientConnection,
    ) -> bool {
        let signal = &self.state.signal;
        if signal.is_over() {
            running.keep(self.rt, signal, connection);
            return true;
        }
        let Some(seat) = running.next_seat() else {
            return running.fail(self.rt, signal);
        };
        let number = seat.number();
        let Some(place) = self.common.places.of(number) else {
            return running.fail(self.rt, signal);
        };
        place.give(self.rt, connection, seat);
        match begin_serving(self.scope, self.rt, self.shared, self.state, place) {
            Some(thread) => {
                running.add(
                    self.rt,
                    signal,
                    Some(SeatedThread::new(Some(number), thread)),
                )
            }
            None => self.take_back(running, place),
        }
    }

    /// Takes back a connection and its seat, since no thread could be made for it. It is tried again for 5 seconds; then the connection alone is
    /// closed.
    fn take_back(&self, running: &mut EpochThreads<J>, place: &Place<J>) -> bool {
        let signal = &self.state.signal;
        let Some(
            Given {
                mut connection,
                seat,
            },
        ) = place.take(self.rt)
        else {
            return running.fail(self.rt, signal);
        };
        if running.seats.push(seat).is_err() {
            return running.fail(self.rt, signal);
        }
        match connection.refuse(self.rt) {
            Refused::GivenUp => {
                let _told = eprintln!(self.rt; "connection: no thread can be made, it is closed");
                drop(connection);
                running.end_connection();
                self.state.end_connections(self.rt, 1);
            }
            Refused::First => {
                let _told = eprintln!(self.rt;
                    "connection: no thread can be made; it is tried again"
                );
                running.put_off(self.rt, signal, connection);
            }
            Refused::Again => running.put_off(self.rt, signal, connection),
        }
        false
    }

    /// Begins a thread for a task. Where none can be made for 5 seconds the epoch ends. Whether it goes on.
    fn begin(&self, running: &mut EpochThreads<J>, task: Task<J>) -> bool {
        let begun = begin_thread(
            self.scope,
            self.rt,
            self.shared,
            self.state,
            &self.common.coordinator,
            task,
        );
        match begun {
            Begun::Thread(thread) => {
                let thread = SeatedThread::new(None, thread);
                running.add(self.rt, &self.state.signal, Some(thread))
            }
            Begun::Done(done) => {
                running.take_back(done);
                true
            }
            Begun::GivenUp => running.fail(self.rt, &self.state.signal),
        }
    }

    /// Begins threads for some of the connections that wait for theirs, those first that have waited longest, unless the epoch is ending: then
    /// they are the first in the next. All at once would take longer than a short epoch, and the first would fill its journal meanwhile.
    fn begin_waiting(&self, running: &mut EpochThreads<J>) {
        for _ in 0..AT_ONCE {
            if self.state.signal.is_over() {
                return;
            }
            let Some(connection) = running.next_waiting() else {
                return;
            };
            if !self.begin_connection(running, connection) {
                return;
            }
        }
    }

    /// Writes what is left of the last epoch to the audit file, if there is one, and drops it, in a thread of its own if one can be made. The epoch
    /// is not closed before that is done.
    fn clear(&self) {
        if self.state.has_records(self.rt) {
            self.state.note_change(self.rt);
            begin_clearing(self.scope, self.rt, self.alloc, self.state);
        }
    }

    /// Accepts connections, and begins a thread for each connection to which something comes, until the epoch ends.
    fn attend(&self, running: &mut EpochThreads<J>, acceptor: &mut Acceptor) {
        for _ in self.rt.forever() {
            self.renew(running, acceptor);
            self.accept_all(running, acceptor);
            self.state
                .look_at_stats(self.rt, self.shared, acceptor.accepted());
            if self.shared.is_full() {
                self.state.signal.raise(self.rt);
            }
            if self.state.signal.is_over() {
                return;
            }
            let pause = if running.has_waiting() {
                BEGIN_MORE
            } else {
                LOOK_AGAIN
            };
            if acceptor.wait(pause).is_err() {
                self.state
                    .signal
                    .wait(self.rt, Duration::from_millis(pause));
            }
            self.begin_ready(running, acceptor);
            self.begin_waiting(running);
        }
    }

    /// Gives on the places of connections that have ended, and looks whether the daemon is to end.
    fn renew(&self, running: &mut EpochThreads<J>, acceptor: &mut Acceptor) {
        if !acceptor.renews() {
            return;
        }
        for number in 0..self.state.seats {
            if self.common.places.has_ended(number) {
                running.join_ended(self.rt, number);
            }
        }
        acceptor.give_on(running.take_ended());
        match acceptor.course(self.rt) {
            Course::On => {}
            Course::Drains => {
                let _told = eprintln!(self.rt;
                    "standard input has ended: no more connections are accepted"
                );
                self.state.end_connections(self.rt, 1);
            }
            Course::Over => self.state.end_all(self.rt),
        }
    }

    /// Begins a thread for each connection to which something came, unless the epoch is ending.
    fn begin_ready(&self, running: &mut EpochThreads<J>, acceptor: &mut Acceptor) {
        for _ in self.rt.forever() {
            let Some(number) = acceptor.next_ready() else {
                return;
            };
            if let Some(connection) = running.take_watched(acceptor, number) {
                let _begun = self.begin_connection(running, connection);
            }
        }
    }

    /// Accepts the connections that wait.
    fn accept_all(&self, running: &mut EpochThreads<J>, acceptor: &mut Acceptor) {
        for _ in self.rt.forever() {
            if self.state.signal.is_over() {
                return;
            }
            match acceptor.accept(self.rt) {
                Accept::Accepted(stream, number) => {
                    self.state.add_connection();
                    self.welcome(running, acceptor, stream, number);
                }
                Accept::GivenUp => {}
                Accept::Nobody => return,
                Accept::Refused(error) => {
                    let _told = eprintln!(self.rt; "listener: {error}; it is tried again");
                    return;
                }
                Accept::Failed(error, left) => {
                    let _told = eprintln!(self.rt; "listener: {error}");
                    self.state.end_connections(self.rt, left);
                    return;
                }
            }
        }
    }

    /// Watches a connection that was accepted: it gets its thread as soon as something comes. Where its stream can't be set up it has ended.
    fn welcome(
        &self,
        running: &mut EpochThreads<J>,
        acceptor: &Acceptor,
        stream: TcpStream,
        number: usize,
    ) {
        let signal = &self.state.signal;
        match ClientConnection::new(self.rt, self.alloc, stream, number, signal) {
            Ok(connection) => running.wait_or_watch(self.rt, signal, acceptor, connection),
            Err(error) => {
                let _told = eprintln!(self.rt; "connection: {error}");
                running.end_connection();
                self.state.end_connections(self.rt, 1);
            }
        }
    }
}

/// What came of beginning a thread.
#[derive(Drop)]
enum Begun<J: LaneNaming> {
    Thread(JoinHandle<Done<J>>),
    /// None could be made until the epoch was ending. The task was done without, which then took no time.
    Done(Done<J>),
    /// None could be made for 5 seconds.
    GivenUp,
}

/// Begins a thread for the connection that was given, which it takes. `None` if none can be made: what was given stays.
fn begin_serving<'s, 'a, E, J: LaneNaming + Send + Sync, H: Wait + Clock + Sync, G: Sync>(
    scope: &'s Scope<'s, E>,
    rt: &'s H,
    shared: &'s Shared<J>,
    state: &'s SharedState<'a, G>,
    place: &'s Place<J>,
) -> Option<JoinHandle<Done<J>>> {
    let work = move || serve(rt, shared, state, place);
    Builder::new()
        .stack_size(STACK)
        .spawn_scoped(scope, work)
        .ok()
}

/// Begins a thread for a task. While none can be made it is tried again for 5 seconds, and then the epoch ends. A worker's task is done here once the
/// epoch is ending, which then takes no time, and ends its lane; nothing waits for a committer that has not begun.
fn begin_thread<
    's,
    'a,
    E,
    J: LaneNaming + Send + Sync,
    H: Wait + Clock + Eprint + Sync,
    G: Gate + Sync,
>(
    scope: &'s Scope<'s, E>,
    rt: &'s H,
    shared: &'s Shared<J>,
    state: &'s SharedState<'a, G>,
    coordinator: &'s Coordinator<J>,
    task: Task<J>,
) -> Begun<J> {
    let ends_alone = !matches!(task, Task::Commit(..));
    let mut work = move || task.work(rt, shared, state, coordinator);
    for tries in 0..TRIES {
        match scope.spawn(work) {
            Ok(thread) => return Begun::Thread(thread),
            Err(SpawnError { value }) => work = value,
        }
        if ends_alone && state.signal.is_over() {
            return Begun::Done(work());
        }
        if tries == 0 {
            let _told = eprintln!(rt; "scheduling: no thread can be made; it is tried again");
        }
        sleep(rt, Duration::from_millis(TRY_AGAIN));
    }
    state.signal.raise(rt);
    if ends_alone {
        drop(work());
    }
    Begun::GivenUp
}

/// Clears what is left of the last epoch, in a thread of its own if one can be made.
fn begin_clearing<'s, 'a, E, H: Wait + Clock + Sync, G: Sync>(
    scope: &'s Scope<'s, E>,
    rt: &'s H,
    alloc: Global,
    state: &'s SharedState<'a, G>,
) {
    if let Err(SpawnError { value: work }) = scope.spawn(move || state.clear(rt, alloc)) {
        work();
    }
}
