//! Epochs of a shared cluster.
ghost use Rattle.std.specs.Prelude.{◌≡◌, ◌≤◌};

use crate::workers::serving::{Line, serve};
use crate::workers::turning::{Came, in_turn, overtaken};
use cap_base::RESOURCES;
use cap_commit::Cluster;
use cap_session::Counted;
use cap_shared::{Blank, Closed, Naming, Shared};
use std::alloc::Global;
use std::io::{Read, Write};
use std::marker::Brand;
use std::sync::Wait;

/// An epoch in which the first seat serves the session, if it can be served on.
fn session_epoch<J: Naming, H: Wait, R: Read, W: Write>(
    rt: &H,
    alloc: Global,
    blank: Blank,
    cluster: Cluster<RESOURCES>,
    limit: usize,
    line: &mut Line,
    reader: &mut Counted<R>,
    writer: &mut Counted<W>,
) -> Option<Closed>
    requires named { blank.0 ≡ J.table }
    requires opening { cluster.flat ≡ J.opening }
    requires limit { limit ≡ J.limit }
    requires seats { blank.1 ≡ J.seats }
    requires some { (1 ≤ J.limit) × (J.limit ≤ 1000000) }
    requires few { (1 ≤ J.seats) × (J.seats ≤ 256) }
{
    let Ok((shared, mut seats)) = Shared::<J>::open(alloc, blank, cluster, limit) else {
        return None;
    };
    if let Some(seat) = seats.first_mut() {
        serve(rt, &shared, seat, line, reader, writer);
    }
    Some(shared.close(seats))
}

/// An epoch of one seat, which serves the session over its cluster. Whether it could be begun.
pub fn serve_epoch<H: Wait, R: Read, W: Write>(
    rt: &H,
    alloc: Global,
    limit: usize,
    line: &mut Line,
    reader: &mut Counted<R>,
    writer: &mut Counted<W>,
) -> bool {
    if limit == 0 || limit > 1_000_000 {
        return false;
    }
    let Ok(blank) = Blank::new(alloc, 1) else {
        return false;
    };
    let Some(cluster) = line.cluster.take() else {
        return false;
    };
    let closed = session_epoch::<Brand, H, R, W>(
        rt, alloc, blank, cluster, limit, line, reader, writer,
    );
    let Some(closed) = closed else {
        return false;
    };
    line.entries = closed.journal.len();
    line.cluster = Some(closed.cluster);
    true
}

/// An epoch of two seats: each takes so many turns, or the first is overtaken once by the second.
fn turns_epoch<J: Naming, H: Wait>(
    rt: &H,
    alloc: Global,
    blank: Blank,
    cluster: Cluster<RESOURCES>,
    limit: usize,
    start: u32,
    came: &mut Vec<Came>,
)
    requires named { blank.0 ≡ J.table }
    requires opening { cluster.flat ≡ J.opening }
    requires limit { limit ≡ J.limit }
    requires seats { blank.1 ≡ J.seats }
    requires some { (1 ≤ J.limit) × (J.limit ≤ 1000000) }
    requires few { (1 ≤ J.seats) × (J.seats ≤ 256) }
{
    let Ok((shared, mut seats)) = Shared::<J>::open(alloc, blank, cluster, limit) else {
        return;
    };
    let (other, own) = (seats.pop(), seats.pop());
    match (own, other) {
        (Some(own), Some(other)) => overtaken(rt, alloc, &shared, own, other, came),
        (None, Some(mut only)) => in_turn(rt, alloc, &shared, &mut only, start, came),
        _ => {}
    }
}

/// What came of the turns in an epoch of one seat or of two.
pub fn take_turns<H: Wait>(
    rt: &H,
    alloc: Global,
    cluster: Cluster<RESOURCES>,
    limit: usize,
    seats: u32,
    start: u32,
    came: &mut Vec<Came>,
) {
    if limit == 0 || limit > 1_000_000 || seats == 0 || seats > 256 {
        return;
    }
    let Ok(blank) = Blank::new(alloc, seats) else {
        return;
    };
    turns_epoch::<Brand, H>(rt, alloc, blank, cluster, limit, start, came);
}
