//! One epoch of a shared cluster.
ghost use Rattle.std.specs.Prelude.{◌≡◌, ◌≤◌};

use cap_base::RESOURCES;
use cap_commit::Cluster;
use cap_shared::{Blank, Closed, Naming, Seat, Shared};
use std::alloc::Global;
use std::marker::Brand;
use std::sync::Wait;
use std::thread::{Threads, map_vec};

/// What is done with seats.
pub trait Work {
    /// What a thread does with its seat, which it gives back.
    fn work<J: Naming, H: Wait>(&self, rt: &H, shared: &Shared<J>, seat: Seat<J>) -> Seat<J>;

    /// What is done with the first seat once all threads have ended.
    fn finish<J: Naming, H: Wait>(&self, rt: &H, shared: &Shared<J>, seat: &mut Seat<J>);
}

/// An epoch over a cluster, in which so many seats are used in a thread each: what is left. `None` if an allocation fails, or the journal is
/// to have no entry or more than 1,000,000, or there are to be no seats or more than 256.
pub fn epoch<H: Threads + Wait + Sync, W: Work + Sync>(
    rt: &H,
    alloc: Global,
    cluster: Cluster<RESOURCES>,
    seats: u32,
    limit: usize,
    work: &W,
) -> Option<Closed> {
    if seats == 0 || seats > 256 || limit == 0 || limit > 1_000_000 {
        return None;
    }
    let Ok(blank) = Blank::new(alloc, seats) else {
        return None;
    };
    named_epoch::<Brand, H, W>(rt, alloc, blank, cluster, limit, work)
}

/// The same under a name.
fn named_epoch<J: Naming + Send + Sync, H: Threads + Wait + Sync, W: Work + Sync>(
    rt: &H,
    alloc: Global,
    blank: Blank,
    cluster: Cluster<RESOURCES>,
    limit: usize,
    work: &W,
) -> Option<Closed>
    requires named { blank.0 ≡ J.table }
    requires opening { cluster.flat ≡ J.opening }
    requires limit { limit ≡ J.limit }
    requires seats { blank.1 ≡ J.seats }
    requires some { (1 ≤ J.limit) × (J.limit ≤ 1000000) }
    requires few { (1 ≤ J.seats) × (J.seats ≤ 256) }
{
    let Ok((shared, seats)) = Shared::<J>::open(alloc, blank, cluster, limit) else {
        return None;
    };
    let lent = &shared;
    let Ok(mut back) = map_vec(rt, seats, &|seat| work.work(rt, lent, seat)) else {
        return None;
    };
    if let Some(first) = back.first_mut() {
        work.finish(rt, &shared, first);
    }
    Some(shared.close(back))
}
