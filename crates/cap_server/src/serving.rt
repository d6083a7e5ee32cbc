//! The daemon's run: its sizes (`Sizes`), one epoch after the other, and what it prints (`serve_on`).
ghost use Rattle.std.specs.Prelude.{◌≡◌, ◌<◌, ◌≤◌, ◌↔◌, Err, IfOk, IfErr, OnOk, MatchResult, IsTrue, map};
ghost use Rattle.std.specs.Io.KnownBytes.{Appends};
ghost use Rattle.cap_model.specs.Flat.{opened_cluster};
ghost use Rattle.cap_session.specs.Counted.{state_of, inner_of, CanCount};
ghost use Rattle.cap_workers.specs.Idle.{AllAre};
ghost use Rattle.cap_server.specs.Bounds.{IsAllowed};
ghost use Rattle.cap_server.specs.Epochs.{LeadsThrough, new_workers, one_more, standing};
ghost use Rattle.cap_server.specs.Printed.{Prints, IsStarved, IsRefused, Closes, Ends, listening_line};

use crate::acceptor::Acceptor;
use crate::epoch::{Carried, epoch};
use crate::participants::Participants;
use crate::state::SharedState;
use cap_base::RESOURCES;
use cap_commit::Cluster;
use cap_config::Config;
use cap_model::NoMemory;
use cap_records::{AuditFile, Stats};
use cap_session::{Counted, write_out};
use cap_streams::EndSignal;
use cap_workers::{Gate, IdleWorker, Worker};
use std::alloc::Global;
use std::fs::File;
use std::io::{self, ErrorKind, Input, Write};
use std::net::{Net, TcpListener};
use std::sync::Wait;
use std::thread::Threads;
use std::time::Clock;

/// How many bytes `keep_memory` asks for: a bit less than 32 MiB.
const KEPT: usize = 33_000_000;

/// How the workers of a daemon see the cluster.
#[derive(Clone, Copy, Debug, PartialEq, Eq)]
pub enum Scheduling {
    /// Each has a cluster of its own, which follows the journal.
    Follow,
    /// Each copies the cluster for each turn.
    Copy,
}

/// How large a daemon is.
#[derive(Clone, Copy, Debug)]
pub struct Sizes {
    /// How many workers schedule: 1 to 8.
    pub workers: u32,
    pub scheduling: Scheduling,
    /// How many connections are accepted: 1 to 128.
    pub connections: u32,
    /// How many entries an epoch's journal has at most: 1 to 1,000,000.
    pub journal: usize,
    /// How many proposals wait for the committer at most: 8 to 1,024. `None` if each worker
    /// commits what it proposes.
    pub lanes: Option<usize>,
    /// For how many seconds connections are served on once standard input has ended, at most 3,600, where the place of a connection that has
    /// ended is given to the next: then `connections` are served at once. `None` if as many are accepted in all.
    pub drain: Option<u32>,
    /// Each how many seconds standard error is told what was done since the beginning: 1 to 3,600. `None` if it is not.
    pub stats: Option<u32>,
}

impl Sizes {
    /// Whether a daemon can be so large.
    pub fn is_allowed(&self) -> bool
        ensures { IsTrue result ↔ IsAllowed self.now }
    {
        let places = self.lanes.unwrap_or(8);
        let stats = self.stats.unwrap_or(1);
        (1..=8).contains(&self.workers)
            && (1..=128).contains(&self.connections)
            && (1..=1_000_000).contains(&self.journal)
            && (8..=1024).contains(&places)
            && self.drain.unwrap_or(0) <= 3600
            && (1..=3600).contains(&stats)
    }
}

/// What the system has opened for a daemon.
#[derive(Drop)]
pub struct Opened {
    pub listener: TcpListener,
    /// Where closed epochs are written, if they are.
    pub audit: Option<AuditFile<File>>,
}

/// How many epochs there were, and how many entries their journals had together. Both stop at `u64::MAX`.
#[derive(Clone, Copy)]
struct Totals {
    epochs: u64,
    entries: u64,
}

impl Totals {
    /// With one more epoch, whose journal has so many entries.
    fn with_epoch(self, entries: usize) -> Totals
        ensures { result ≡ one_more self entries }
    {
        Totals {
            epochs: self.epochs.saturating_add(1),
            entries: self.entries.saturating_add(entries as u64),
        }
    }
}

/// Serves connections that the listener accepts, exactly as many as `sizes` says, each in a thread of its own, over one cluster with the
/// queues of the settings, on which workers schedule, until all connections have ended. With the last connection the listener is closed. Where `sizes`
/// has `drain` the place of a connection that has ended is given to the next, until standard input has ended. Prints `listening` with the port first,
/// and at the end `closed` with the number of epochs and the sum of their journals' lengths: the journals, one after the other, lead from the cluster
/// of the settings to the last one. Each is written to the audit file, if there is one. A connection that fails ends alone; the others go on. The
/// result is the exit status: 0 done; 1 if the writer failed, the system has no descriptor for the daemon, a connection could not be accepted, after
/// which those that were accepted are still served, or an epoch could not be written, after which none is; 3 if an allocation of the daemon's own
/// failed or a thread could not be made, after it has printed `no memory`. Standard error is told why a connection could not be accepted or set up, or
/// an epoch not be written, and at the end how many changes of epochs there were and how long they took at most.
pub fn serve_on<H: Net + Threads + Wait + Clock + Eprint + Input + Sync, G: Gate + Sync, W: Write>(
    rt: &H,
    alloc: Global,
    opened: Opened,
    sizes: &Sizes,
    config: &Config<RESOURCES>,
    gate: &G,
    writer: &mut Counted<W>,
) -> u8
    requires sizes { IsAllowed sizes.now }
    requires writer { CanCount (state_of writer.old) }
    ensures status { result < 4 }
    ensures failed { (state_of writer.old).failures < (state_of writer.new).failures → result ≡ 1 }
    ensures printed { Prints (state_of writer.old) (state_of writer.new)
        (W.contents (inner_of writer.old)) (W.contents (inner_of writer.new))
        (Ends sizes.now.journal record {
          cluster = opened_cluster config.now;
          workers = new_workers sizes.now.workers;
        } result) }
{
    let Opened { listener, audit } = opened;
    let port = match port_of(&listener) {
        Ok(port) => port,
        Err(error) => return without_descriptor(rt, error, writer),
    };
    let signal = match EndSignal::new(rt) {
        Ok(signal) => signal,
        Err(error) => return without_descriptor(rt, error, writer),
    };
    let acceptor = match Acceptor::new(rt, alloc, listener, sizes, &signal) {
        Ok(acceptor) => acceptor,
        Err(error) => return without_descriptor(rt, error, writer),
    };
    let waker = match acceptor.waker() {
        Ok(waker) => waker,
        Err(error) => return without_descriptor(rt, error, writer),
    };
    let Ok(carried) = begin(alloc, config, sizes, acceptor) else {
        return no_memory(writer);
    };
    let stats = Stats::each(rt, sizes.stats);
    let state = SharedState::new(gate, sizes, signal, waker, stats, audit);
    match announce(alloc, port, writer) {
        Ok(()) => serve_all(rt, alloc, &state, carried, writer),
        Err(status) => status,
    }
}

/// The listener can't be set up or waited for, or an allocation failed. The result is the exit status.
fn without_descriptor<H: Eprint, W: Write>(rt: &H, error: io::Error, writer: &mut Counted<W>) -> u8
    requires { CanCount (state_of writer.old) }
    ensures status { result < 4 }
    ensures failed { (state_of writer.old).failures < (state_of writer.new).failures → result ≡ 1 }
    ensures printed { Prints (state_of writer.old) (state_of writer.new)
        (W.contents (inner_of writer.old)) (W.contents (inner_of writer.new))
        (IsRefused result) }
{
    if error.kind() == ErrorKind::OutOfMemory {
        return no_memory(writer);
    }
    let _told = eprintln!(rt; "listener: it can't be waited for: {error}");
    1
}

/// Prints the port of the listener. The error is the exit status.
fn announce<W: Write>(alloc: Global, port: u16, writer: &mut Counted<W>) -> Result<(), u8>
    requires { CanCount (state_of writer.old) }
    ensures status { IfErr result (λ status. status < 4) }
    ensures failed { (state_of writer.old).failures < (state_of writer.new).failures
        → result ≡ Err 1 }
    ensures printed { OnOk result (Appends
        (W.contents (inner_of writer.old)) (W.contents (inner_of writer.new))
        (listening_line port)) }
    ensures refused { IfErr result (λ status. Prints (state_of writer.old) (state_of writer.new)
        (W.contents (inner_of writer.old)) (W.contents (inner_of writer.new))
        (IsRefused status)) }
    ensures same { OnOk result
        ((state_of writer.new).failures ≡ (state_of writer.old).failures) }
    ensures more { OnOk result (CanCount (state_of writer.new)) }
{
    let Ok(listening) = format!(in alloc; "listening {port}\n") else {
        return Err(no_memory(writer));
    };
    match write_out(writer, listening.as_bytes()) {
        Ok(()) => Ok(()),
        Err(_) => Err(1),
    }
}

/// Serves until all connections have ended, and prints how many epochs and entries there were. The result is the exit status.
fn serve_all<H: Net + Threads + Wait + Clock + Eprint + Input + Sync, G: Gate + Sync, W: Write>(
    rt: &H,
    alloc: Global,
    state: &SharedState<'_, G>,
    carried: Carried,
    writer: &mut Counted<W>,
) -> u8
    requires writer { CanCount (state_of writer.old) }
    requires workers { AllAre carried.cluster.flat carried.workers.items }
    ensures status { result < 4 }
    ensures failed { (state_of writer.old).failures < (state_of writer.new).failures → result ≡ 1 }
    ensures printed { Prints (state_of writer.old) (state_of writer.new)
        (W.contents (inner_of writer.old)) (W.contents (inner_of writer.new))
        (Closes state.now.limit (standing carried.cluster.flat carried.workers.items) result) }
{
    let Ok((totals, carried)) = run_all(rt, alloc, state, carried) else {
        return no_memory(writer);
    };
    let has_failed = has_failed(rt, state, &carried);
    drop(carried);
    tell_changes(rt, state);
    let Totals { epochs, entries } = totals;
    let Ok(closed) = format!(in alloc; "closed epochs={epochs} entries={entries}\n") else {
        return no_memory(writer);
    };
    match write_out(writer, closed.as_bytes()) {
        Ok(()) => closing_status(has_failed),
        Err(_) => 1,
    }
}

/// Whether a connection could not be accepted, or an epoch not be written to the audit file.
fn has_failed<H: Wait, G>(rt: &H, state: &SharedState<'_, G>, carried: &Carried) -> bool {
    carried.participants.acceptor.has_failed() || state.audit_failure(rt).is_some()
}

/// The exit status once all is printed: 1 if a connection could not be accepted, or an epoch not be written to the audit file.
fn closing_status(has_failed: bool) -> u8
    ensures { result ≤ 1 }
{
    if has_failed { 1 } else { 0 }
}

/// Tells standard error how many changes of epochs there were, and how long they took at most.
fn tell_changes<H: Eprint, G>(rt: &H, state: &SharedState<'_, G>) {
    let (count, longest) = state.changes();
    let _told = eprintln!(rt; "epochs: {count} changes, at most {longest} microseconds");
}

/// Prints that an allocation failed. The result is the exit status: 3, or 1 if the writer failed.
fn no_memory<W: Write>(writer: &mut Counted<W>) -> u8
    requires { CanCount (state_of writer.old) }
    ensures status { result < 4 }
    ensures failed { (state_of writer.old).failures < (state_of writer.new).failures → result ≡ 1 }
    ensures printed { Prints (state_of writer.old) (state_of writer.new)
        (W.contents (inner_of writer.old)) (W.contents (inner_of writer.new))
        (IsStarved result) }
{
    match write_out(writer, b"no memory\n") {
        Ok(()) => 3,
        Err(_) => 1,
    }
}

/// The port of the listener, which does not wait for connections any more. An error means that the system refuses.
fn port_of(listener: &TcpListener) -> io::Result<u16> {
    listener.set_nonblocking(true)?;
    Ok(listener.local_addr()?.port())
}

/// The cluster of the settings, and the workers, each with the same if it follows the journal. An error means that an allocation failed.
fn begin(
    alloc: Global,
    config: &Config<RESOURCES>,
    sizes: &Sizes,
    acceptor: Acceptor,
) -> Result<Carried, NoMemory>
    ensures cluster { IfOk result (λ carried. carried.cluster.flat ≡ opened_cluster config.now) }
    ensures workers { IfOk result (λ carried.
        AllAre (opened_cluster config.now) carried.workers.items) }
    ensures new { IfOk result (λ carried.
        map (λ w. w.worker) carried.workers.items ≡ new_workers sizes.now.workers) }
{
    let workers = workers_of(alloc, config, sizes)?;
    Ok(Carried {
        cluster: Cluster::from_config(alloc, config)?,
        workers,
        participants: Participants {
            acceptor,
            connections: Vec::new(alloc),
        },
        entries: 0,
    })
}

/// So many workers, numbered from 0, each with the cluster of the settings if it follows the journal. An error means that an allocation failed.
fn workers_of(
    alloc: Global,
    config: &Config<RESOURCES>,
    sizes: &Sizes,
) -> Result<Vec<IdleWorker>, NoMemory>
    ensures same { IfOk result (λ workers. AllAre (opened_cluster config.now) workers.items) }
    ensures new { IfOk result (λ workers.
        map (λ w. w.worker) workers.items ≡ new_workers sizes.now.workers) }
{
    let mut workers = Vec::new(alloc);
    for number in 0..sizes.workers {
        let cluster = match sizes.scheduling {
            Scheduling::Follow => Some(Cluster::from_config(alloc, config)?),
            Scheduling::Copy => None,
        };
        let worker = Worker::new(number);
        let Ok(()) = workers.push(IdleWorker { worker, cluster }) else {
            return Err(NoMemory);
        };
    }
    Ok(workers)
}

/// Lets the memory that an epoch frees be kept for the next. glibc's malloc takes a block above a threshold anew from the system, and gives
/// it back when it is freed. Freeing such a block of up to 32 MiB raises that threshold to its size, and to twice its size the one for
/// giving back what is free at the end of the heap (mallopt(3), M_MMAP_THRESHOLD). Nothing is written to the block, so it costs no memory.
fn keep_memory(alloc: Global) {
    drop(Vec::<u8>::with_capacity(alloc, KEPT));
}

/// All epochs, as `run_epochs`, and what is left of the last one is written to the audit file, if there is one. Standard error is told why an epoch
/// could not be written.
fn run_all<H: Net + Threads + Wait + Clock + Eprint + Input + Sync, G: Gate + Sync>(
    rt: &H,
    alloc: Global,
    state: &SharedState<'_, G>,
    carried: Carried,
) -> Result<(Totals, Carried), NoMemory>
    requires { AllAre carried.cluster.flat carried.workers.items }
    ensures { IfOk result (λ run. LeadsThrough state.now.limit
        (standing carried.cluster.flat carried.workers.items) run.0
        (standing run.1.cluster.flat run.1.workers.items)) }
{
    let run = run_epochs(rt, alloc, state, carried);
    state.clear(rt, alloc);
    if let Some(error) = state.audit_failure(rt) {
        let _told = eprintln!(rt; "audit file: {error}");
    }
    run
}

/// One epoch after the other, each over the cluster that the last one closed, until all connections have ended: how many there were, and what the
/// last one left. The events of all journals, one after the other, lead from the first cluster to the last one. An error means that an
/// allocation failed, or that a thread could not be made.
fn run_epochs<H: Net + Threads + Wait + Clock + Eprint + Input + Sync, G: Gate + Sync>(
    rt: &H,
    alloc: Global,
    state: &SharedState<'_, G>,
    carried: Carried,
) -> Result<(Totals, Carried), NoMemory>
    requires { AllAre carried.cluster.flat carried.workers.items }
    ensures { IfOk result (λ run. LeadsThrough state.now.limit
        (standing carried.cluster.flat carried.workers.items) run.0
        (standing run.1.cluster.flat run.1.workers.items)) }
{
    keep_memory(alloc);
    let mut carried = carried;
    let mut totals = Totals {
        epochs: 0,
        entries: 0,
    };
    for _ in rt.forever() {
        carried = epoch(rt, alloc, carried, state)?;
        totals = totals.with_epoch(carried.entries);
        if state.is_over() {
            return Ok((totals, carried));
        }
    }
    unreachable!()
}
