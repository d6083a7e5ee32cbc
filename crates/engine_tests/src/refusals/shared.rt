//! Tests of epochs and lanes that close in no memory.
ghost use Rattle.std.specs.Prelude.{◌≡◌, IfSome};

use cap_workers::{Ended, Putter, lanes};
use memory_testing::Hoard;
use refusal_cases::shared::epoch;
use refusal_cases::{Before, Task, cluster_after, grant};
use std::alloc::Global;
use std::sync::Wait;
use std::test::*;

/// How many entries and seats an epoch of two calls has that is closed where no bytes are left.
fn closed<H: Wait>(rt: &H, alloc: Global) -> Option<(usize, usize)> {
    let mut hoard = Hoard::new(alloc)?;
    let cluster = cluster_after(alloc, Before::Nothing)?;
    let epoch = epoch(rt, alloc, &mut hoard, 0, cluster, Task::Close)?;
    if !hoard.is_short() {
        return None;
    }
    Some((epoch.entries, epoch.reports))
}

/// Each worker puts its end.
fn finish_all<H: Wait>(rt: &H, alloc: Global, putters: [Putter; 8]) -> Option<[Ended; 8]>
    ensures { IfSome result (λ ended. ended ≡ putters) }
{
    let Ok(mut ended) = Vec::with_capacity(alloc, 8) else {
        return None;
    };
    for putter in putters {
        ended.push_reserved(putter.finish(rt));
    }
    match <[Ended; 8]>::try_from(ended) {
        Ok(ended) => Some(ended),
        Err(_) => None,
    }
}

/// Worker 0 puts two proposals, and all finish. The committer takes one and closes the lanes where no bytes are left: of which worker it is, and
/// how many are left.
fn taken<H: Wait>(rt: &H, alloc: Global, hoard: &mut Hoard) -> Option<(u32, usize)> {
    let (grant, other) = (grant()?, grant()?);
    let (mut committer, mut putters) = lanes(alloc, 64).ok()?;
    putters[0].put(rt, grant).ok()?;
    putters[0].put(rt, other).ok()?;
    let ended = finish_all(rt, alloc, putters)?;
    hoard.leave(alloc, 0);
    let first = committer.take(rt);
    let closed = committer.close(rt, ended);
    hoard.give();
    if !hoard.is_short() {
        return None;
    }
    let (worker, _) = first?;
    Some((worker, closed.left.len()))
}

fn taken_in_none<H: Wait>(rt: &H, alloc: Global) -> Option<(u32, usize)> {
    taken(rt, alloc, &mut Hoard::new(alloc)?)
}

#[test]
fn closings_take_no_memory(rt: HostRuntime) {
    assert!(rt; closed(&rt, rt.alloc()) == Some((2, 2)));
    assert!(rt; taken_in_none(&rt, rt.alloc()) == Some((0, 1)));
}
