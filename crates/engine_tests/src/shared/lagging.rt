//! A replica that lags behind the journal, and catches up in pieces.
ghost use Rattle.std.specs.Prelude.{◌≡◌, OnSome};
ghost use Rattle.cap_shared.specs.Following.{Follows};

use cap_base::RESOURCES;
use cap_commit::Cluster;
use cap_config::read_config;
use cap_model::{PathText, Request, ShortText};
use cap_shared::{Blank, Naming, Piece, Replica, Seat, Shared};
use cap_testing::TWO_QUEUES;
use std::alloc::Global;
use std::marker::Brand;
use std::sync::Wait;
use std::test::*;

/// How many entries the journal has at most.
const LIMIT: usize = 1000;

/// How many entries each of three pieces has, and whether they are all; and the number of the next application on the replica then.
type Seen = ([(usize, bool); 3], u64);

/// Submits so many applications.
fn submit<J: Naming, H: Wait>(
    rt: &H,
    shared: &Shared<J>,
    seat: &mut Seat<J>,
    count: u64,
) -> Option<()> {
    for _ in 0..count {
        let request = Request::Submit {
            path: PathText::new(b"root.a")?,
            user: ShortText::new(b"u1")?,
        };
        shared.call(rt, seat, request).ok()?;
    }
    Some(())
}

/// Makes the next piece again on the replica: how many entries it has, and whether they are all.
fn follow<J: Naming, H: Wait>(
    rt: &H,
    shared: &Shared<J>,
    seat: &mut Seat<J>,
    replica: &mut Replica<J>,
) -> Option<(usize, bool)>
    requires { Follows replica.old.log seat.old.past }
    ensures { OnSome result (Follows replica.new.log seat.new.past) }
{
    let Ok(piece) = shared.hold_to_schedule(rt).news(seat, replica) else {
        return None;
    };
    let Piece { news, are_all } = piece;
    let count = news.count();
    let Ok(()) = replica.catch_up(news) else {
        return None;
    };
    Some((count, are_all))
}

/// What is seen of a replica that has followed nothing yet of so many entries.
fn lagged<H: Wait>(rt: &H, alloc: Global, entries: u64) -> Option<Seen> {
    let config = read_config(alloc, TWO_QUEUES).ok()?;
    let Ok(cluster) = Cluster::from_config(alloc, &config) else {
        return None;
    };
    let Ok(same) = Cluster::from_config(alloc, &config) else {
        return None;
    };
    let Ok(blank) = Blank::new(alloc, 1) else {
        return None;
    };
    named_lag::<Brand, H>(rt, alloc, blank, cluster, same, entries)
}

/// The same under a name.
fn named_lag<J: Naming, H: Wait>(
    rt: &H,
    alloc: Global,
    blank: Blank,
    cluster: Cluster<RESOURCES>,
    same: Cluster<RESOURCES>,
    entries: u64,
) -> Option<Seen>
    requires named { blank.0 ≡ J.table }
    requires opening { cluster.flat ≡ J.opening }
    requires same { same.flat ≡ J.opening }
    requires limit { 1000 ≡ J.limit }
    requires seats { blank.1 ≡ J.seats }
    requires few { 1 ≡ J.seats }
{
    let Ok((shared, mut seats)) = Shared::<J>::open(alloc, blank, cluster, LIMIT) else {
        return None;
    };
    let mut seat = seats.pop()?;
    submit(rt, &shared, &mut seat, entries)?;
    let mut replica = Replica::open(alloc, same);
    let first = follow(rt, &shared, &mut seat, &mut replica)?;
    let second = follow(rt, &shared, &mut seat, &mut replica)?;
    let third = follow(rt, &shared, &mut seat, &mut replica)?;
    let next = replica.cluster().apps().next();
    Some(([first, second, third], next))
}

#[test]
fn a_replica_that_lags_catches_up_in_pieces(rt: HostRuntime) {
    let rows = [
        (600, [(256, false), (256, false), (88, true)]),
        (512, [(256, false), (256, true), (0, true)]),
    ];
    for &(entries, pieces) in &rows {
        let seen = lagged(&rt, rt.alloc(), entries);
        assert!(rt; seen == Some((pieces, entries + 1)), "{entries}");
    }
}
