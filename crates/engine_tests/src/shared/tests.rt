//! Tests of a shared cluster: a full journal, calls of two threads, and a journal of eight threads, played again.

use crate::shared::audit::{has_receipts, is_played, looks_alike};
use crate::shared::steps::{Counted, Counts, Step, Work};
use cap_base::RESOURCES;
use cap_commit::Cluster;
use cap_messages::dispatch;
use cap_model::{ReplyWith, Request};
use cap_shared::{Closed, Entry, Receipt, SeatReport};
use cap_testing::{TWO_QUEUES, cluster, epoch};
use std::alloc::Global;
use std::mem::size_of;
use std::sync::Wait;
use std::sync::atomic::{AtomicU64, Ordering};
use std::test::*;
use std::thread::Threads;

/// One epoch over a cluster, with a last step of the first seat: what is left, how many calls and proposals came back, and how many could
/// not be made.
fn one_epoch<H: Threads + Wait + Sync>(
    rt: &H,
    alloc: Global,
    cluster: Cluster<RESOURCES>,
    (seats, limit): (u32, usize),
    work: Work<'_>,
    last: Option<Step<'_>>,
) -> Option<(Closed, u64, u64)> {
    let counts = Counts {
        sealed: AtomicU64::new(0),
        failed: AtomicU64::new(0),
    };
    let work = Counted {
        alloc,
        work,
        last,
        counts: &counts,
    };
    let closed = epoch(rt, alloc, cluster, seats, limit, &work)?;
    Some((
        closed,
        counts.sealed.load(Ordering::SeqCst),
        counts.failed.load(Ordering::SeqCst),
    ))
}

/// The position of a receipt, the status of its reply (0 if the call was not refused), and how many applications it shows.
fn row_of(receipt: &Receipt) -> (u64, u8, u32) {
    match receipt {
        Receipt::Call {
            position,
            reply,
            ..
        } => match reply {
            ReplyWith::Refused(refusal) => (*position, refusal.status(), 0),
            ReplyWith::QueueInfo { report } => (*position, 0, report.apps),
            ReplyWith::ClusterInfo { report } => (*position, 0, report.apps),
            _ => (*position, 0, 0),
        },
        Receipt::Commit { position, .. } => (*position, 0, 0),
    }
}

/// How many nodes, applications and containers there are.
fn sizes(alloc: Global, cluster: &mut Cluster<RESOURCES>) -> Option<(u32, u32, u32)> {
    match dispatch(alloc, cluster, &Request::ClusterInfo) {
        ReplyWith::ClusterInfo { report } => Some((report.nodes, report.apps, report.containers)),
        _ => None,
    }
}

/// The receipts of the first seat, if they are two.
fn two_rows(seats: &[SeatReport]) -> Option<[(u64, u8, u32); 2]> {
    let [first, second] = seats.first()?.receipts() else {
        return None;
    };
    Some([row_of(first), row_of(second)])
}

type OneSeat = (
    Option<[(u64, u8, u32); 2]>,
    usize,
    u64,
    Option<(u32, u32, u32)>,
);

/// What a seat is answered in an epoch of two entries: its receipts, how many entries there are, how many calls came back, and what is
/// left of the cluster.
fn of_one_seat<H: Threads + Wait + Sync>(
    rt: &H,
    alloc: Global,
    steps: &[Step<'_>],
) -> Option<OneSeat> {
    let opening = cluster(alloc, TWO_QUEUES)?;
    let work = Work::Steps(steps);
    let (mut closed, sealed, _failed) = one_epoch(rt, alloc, opening, (1, 2), work, None)?;
    let left = sizes(alloc, &mut closed.cluster);
    Some((two_rows(&closed.seats), closed.journal.len(), sealed, left))
}

/// In another order, and with another line, which has no `=`.
const NO_LINE: &[u8] = b"yarn.scheduler.capacity.root.queues=b,a
x";

/// A third call comes back; so does a Refresh, whether its lines could be read or not. Those that are refused are entered.
#[test]
fn a_full_journal_seals_the_third_call(rt: HostRuntime) {
    let lines = Step::Refresh(TWO_QUEUES);
    let no_lines = Step::Refresh(NO_LINE);
    let missing = Step::Submit(b"root.missing");
    for &(steps, statuses) in &[
        ([Step::ClusterInfo, missing, Step::ClusterInfo], [0, 1]),
        ([lines, no_lines, lines], [0, 17]),
        (
            [
                Step::Refresh(b"yarn.scheduler.capacity.root.queues=a"),
                lines,
                no_lines,
            ],
            [18, 0],
        ),
    ] {
        let [first, second] = statuses;
        let rows = Some([(0, first, 0), (1, second, 0)]);
        let answer = of_one_seat(&rt, rt.alloc(), &steps);
        assert!(rt; answer == Some((rows, 2, 1, Some((0, 0, 0)))));
    }
}

/// Whether a seat's two receipts are of calls that were not refused, and the second shows one application or two.
fn shows_its_own(seat: &SeatReport) -> bool {
    match seat.receipts() {
        [first, second] => {
            let (_, submitted, _) = row_of(first);
            let (_, read, apps) = row_of(second);
            submitted == 0 && read == 0 && (apps == 1 || apps == 2)
        }
        _ => false,
    }
}

/// What a seat's first call is answered in an epoch over this cluster.
fn first_answer<H: Threads + Wait + Sync>(
    rt: &H,
    alloc: Global,
    cluster: Cluster<RESOURCES>,
) -> Option<(u64, u8, u32)> {
    let steps = [Step::ClusterInfo];
    let work = Work::Steps(&steps);
    let (closed, _sealed, _failed) = one_epoch(rt, alloc, cluster, (1, 4), work, None)?;
    first_row(&closed.seats)
}

fn first_row(seats: &[SeatReport]) -> Option<(u64, u8, u32)> {
    Some(row_of(seats.first()?.receipts().first()?))
}

/// Two seats submit to `root.a` in threads and read its report, in an epoch of four entries; then the first asks for a ClusterInfo. Whether
/// each report shows the seat's own, how many entries there are, how many calls came back, and what a ClusterInfo is answered in the next
/// epoch.
fn of_two_seats<H: Threads + Wait + Sync>(
    rt: &H,
    alloc: Global,
) -> Option<(bool, usize, u64, Option<(u64, u8, u32)>)> {
    let steps = [Step::Submit(b"root.a"), Step::QueueInfo(b"root.a")];
    let opening = cluster(alloc, TWO_QUEUES)?;
    let work = Work::Steps(&steps);
    let last = Some(Step::ClusterInfo);
    let (closed, sealed, _failed) = one_epoch(rt, alloc, opening, (2, 4), work, last)?;
    let shown = closed.seats.iter().all(shows_its_own);
    let entries = closed.journal.len();
    let answer = first_answer(rt, alloc, closed.cluster);
    Some((shown, entries, sealed, answer))
}

#[test]
fn two_threads_share_a_cluster_and_the_next_epoch_goes_on_from_it(rt: HostRuntime) {
    let answer = of_two_seats(&rt, rt.alloc());
    assert!(rt; answer == Some((true, 4, 1, Some((0, 0, 2)))));
}

/// Whether the journal, played on the cluster of two queues, comes to the same and leaves the same cluster, with the receipts of each seat.
fn is_audited(alloc: Global, closed: &mut Closed) -> Option<bool> {
    let mut again = cluster(alloc, TWO_QUEUES)?;
    let played = is_played(alloc, &mut again, &closed.journal);
    let same = looks_alike(alloc, &mut closed.cluster, &mut again);
    Some(played && same && has_receipts(closed))
}

/// An epoch, audited; how many entries it has, how many calls and proposals came back because it was full, and how many could not be made.
fn audited<H: Threads + Wait + Sync>(
    rt: &H,
    alloc: Global,
    seats: u32,
    limit: usize,
    work: Work<'_>,
) -> Option<(Option<bool>, usize, u64, u64)> {
    let opening = cluster(alloc, TWO_QUEUES)?;
    let (mut closed, sealed, failed) = one_epoch(rt, alloc, opening, (seats, limit), work, None)?;
    let same = is_audited(alloc, &mut closed);
    Some((same, closed.journal.len(), sealed, failed))
}

#[test]
fn calls_of_two_threads_come_back_from_a_full_journal(rt: HostRuntime) {
    let steps = [
        Step::Submit(b"root.a"),
        Step::QueueInfo(b"root.a"),
        Step::ClusterInfo,
    ];
    let answer = audited(&rt, rt.alloc(), 2, 4, Work::Steps(&steps));
    assert!(rt; answer == Some((Some(true), 4, 2, 0)));
}

#[test]
fn eight_threads_leave_a_journal_that_can_be_played(rt: HostRuntime) {
    let answer = audited(&rt, rt.alloc(), 8, 10_000, Work::Mixed(500));
    assert!(rt; matches!(answer, Some((Some(true), entries, 0, 0)) if entries > 3_200));
}

#[test]
fn entries_and_receipts_are_small(rt: HostRuntime) {
    let (entry, receipt) = (size_of::<Entry>(), size_of::<Receipt>());
    assert!(rt;
        entry <= 200 && receipt <= 200,
        "{entry} and {receipt} bytes"
    );
    assert!(rt; 4_096 * (entry + receipt) < 2_000_000);
}
