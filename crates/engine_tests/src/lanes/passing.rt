//! Workers that put, each in a thread of its own, and a committer that takes.
ghost use Rattle.std.specs.Prelude.{◌≡◌, ◌<◌, ◌≤◌, IfOk};
ghost use Rattle.engine_tests.specs.Same.{SameLanes};

use cap_base::RESOURCES;
use cap_lanes::{Committer, Ended, Putter, lanes};
use cap_model::{Key, NoMemory, Proposal, ProposalKind};
use cap_vector::Resource;
use std::alloc::Global;
use std::sync::Wait;
use std::thread;
use std::thread::Threads;

/// A proposal for this application.
pub fn proposal(app: u64) -> Proposal<RESOURCES> {
    Proposal {
        kind: ProposalKind::Grant,
        app,
        key: Key {
            priority: 1,
            request: 1,
        },
        node: 1,
        resource: Resource::zero(),
    }
}

/// Each worker puts its end.
pub fn finish_all<R: Wait>(
    rt: &R,
    alloc: Global,
    putters: [Putter; 8],
) -> Result<[Ended; 8], NoMemory>
    ensures { IfOk result (λ ended. ended ≡ putters) }
{
    let Ok(mut ended) = Vec::with_capacity(alloc, 8) else {
        return Err(NoMemory);
    };
    for p in putters {
        ended.push_reserved(p.finish(rt));
    }
    match <[Ended; 8]>::try_from(ended) {
        Ok(ended) => Ok(ended),
        Err(_) => Err(NoMemory),
    }
}

/// A worker puts proposals for the applications 0 to `count`, until one comes back, and then its end.
fn put_all<R: Wait>(rt: &R, mut putter: Putter, count: u64) -> Ended
    ensures { result.lanes ≡ putter.lanes }
{
    for app in 0..count {
        match putter.put(rt, proposal(app)) {
            Ok(()) => {}
            Err(_) => break,
        }
    }
    putter.finish(rt)
}

/// Each worker puts its proposals in a thread of its own.
fn put_in_threads<R: Threads + Wait + Sync>(
    rt: &R,
    putters: Vec<Putter>,
    count: u64,
) -> Result<Vec<Ended>, NoMemory>
    ensures { IfOk result (λ ended. SameLanes putters.items ended.items) }
{
    let each = |p: Putter| -> Ended
        ensures { result.lanes ≡ p.lanes }
    { put_all(rt, p, count) };
    match thread::map_vec(rt, putters, &each) {
        Ok(ended) => Ok(ended),
        Err(_) => Err(NoMemory),
    }
}

/// The committer takes until the ends of all workers were taken: the worker and the application of each proposal. It goes on where
/// there is no memory for one, which is then missing.
pub fn take_all<R: Wait>(
    rt: &R,
    alloc: Global,
    mut committer: Committer,
) -> (Committer, Vec<(u32, u64)>)
    ensures { result.0.lanes ≡ committer.lanes }
{
    let mut taken = Vec::new(alloc);
    for _ in rt.forever() {
        let Some((worker, proposal)) = committer.take(rt) else {
            break;
        };
        let _ = taken.push((worker, proposal.app()));
    }
    (committer, taken)
}

/// Eight workers put `count` proposals each, and the committer takes them in a thread of its own: what it took, and how many were left.
pub fn exchanged<R: Threads + Wait + Sync>(
    rt: &R,
    alloc: Global,
    capacity: usize,
    count: u64,
) -> Result<(Vec<(u32, u64)>, usize), NoMemory>
    requires { (0 < capacity) × (capacity ≤ 1024) }
{
    let (committer, putters) = lanes(alloc, capacity)?;
    let Ok(putters) = Vec::from_array(alloc, putters) else {
        return Err(NoMemory);
    };
    let ((committer, taken), ended) = thread::join(
        rt,
        move || -> (Committer, Vec<(u32, u64)>)
            ensures { result.0.lanes ≡ committer.lanes }
        { take_all(rt, alloc, committer) },
        move || -> Result<Vec<Ended>, NoMemory>
            ensures { IfOk result (λ ended. SameLanes putters.items ended.items) }
        { put_in_threads(rt, putters, count) },
    );
    let ended = ended?;
    let Ok(ended) = <[Ended; 8]>::try_from(ended) else {
        return Err(NoMemory);
    };
    let closed = committer.close(rt, ended);
    Ok((taken, closed.left.len()))
}

/// Worker 0 fills lanes of capacity 1, and puts once more in a thread of its own while the committer takes: what it took.
pub fn put_while_full<R: Threads + Wait + Sync>(
    rt: &R,
    alloc: Global,
) -> Result<Vec<(u32, u64)>, NoMemory> {
    let (committer, mut putters) = lanes(alloc, 1)?;
    match putters[0].put(rt, proposal(1)) {
        Ok(()) => {}
        Err(_) => return Ok(Vec::new(alloc)),
    }
    let ((_committer, taken), ended) = thread::join(
        rt,
        move || take_all(rt, alloc, committer),
        move || put_and_finish(rt, alloc, putters),
    );
    let _ended = ended?;
    Ok(taken)
}

/// Worker 0 puts a second proposal, and then each worker its end.
fn put_and_finish<R: Wait>(
    rt: &R,
    alloc: Global,
    mut putters: [Putter; 8],
) -> Result<[Ended; 8], NoMemory> {
    match putters[0].put(rt, proposal(2)) {
        Ok(()) => {}
        Err(_) => {}
    }
    finish_all(rt, alloc, putters)
}
