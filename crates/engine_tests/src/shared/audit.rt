//! The journal of a closed epoch, played again.
use cap_base::RESOURCES;
use cap_commit::Cluster;
use cap_messages::dispatch;
use cap_model::{Event, OwnedReply, PathText, Proposal, ProposalKind, Request, Verdict};
use cap_shared::{Closed, Entry, Receipt, SeatReport};
use cap_testing::is_same;
use std::alloc::Global;

/// Whether each entry of the journal comes to the same on this cluster, one after the other.
pub fn is_played(alloc: Global, cluster: &mut Cluster<RESOURCES>, journal: &[Entry]) -> bool {
    for entry in journal {
        let same = match &entry.event {
            Event::Call { by, request, reply } => {
                let Ok(request) = request.request(alloc) else {
                    return false;
                };
                *by == entry.seat && is_answered(alloc, cluster, &request, reply)
            }
            Event::Grant { container } => {
                let proposal = Proposal {
                    kind: ProposalKind::Grant,
                    app: container.app,
                    key: container.key,
                    node: container.node,
                    resource: container.resource,
                };
                is_granted(cluster, proposal, container.number)
            }
            Event::Reserve { reservation } => {
                let proposal = Proposal {
                    kind: ProposalKind::Reserve,
                    app: reservation.app,
                    key: reservation.key,
                    node: reservation.node,
                    resource: reservation.resource,
                };
                is_reserved(cluster, proposal)
            }
        };
        if !same {
            return false;
        }
    }
    true
}

fn is_answered(
    alloc: Global,
    cluster: &mut Cluster<RESOURCES>,
    request: &Request<RESOURCES>,
    reply: &OwnedReply<RESOURCES>,
) -> bool {
    let given = dispatch(alloc, cluster, request);
    is_same(&cluster.view(&given), &reply.view())
}

fn is_granted(
    cluster: &mut Cluster<RESOURCES>,
    proposal: Proposal<RESOURCES>,
    number: u64,
) -> bool {
    let Ok(verdict) = cluster.try_commit(proposal) else {
        return false;
    };
    match &verdict {
        Verdict::Done(Event::Grant { container }) => container.number == number,
        _ => false,
    }
}

fn is_reserved(cluster: &mut Cluster<RESOURCES>, proposal: Proposal<RESOURCES>) -> bool {
    let Ok(verdict) = cluster.try_commit(proposal) else {
        return false;
    };
    matches!(&verdict, Verdict::Done(Event::Reserve { .. }))
}

/// Whether two clusters of two queues report the same of themselves and of their queues.
pub fn looks_alike(alloc: Global, a: &mut Cluster<RESOURCES>, b: &mut Cluster<RESOURCES>) -> bool {
    let paths: [&[u8]; 3] = [b"root", b"root.a", b"root.b"];
    for path in paths {
        let Some(path) = PathText::new(path) else {
            return false;
        };
        if !answer_alike(alloc, a, b, &Request::QueueInfo { path }) {
            return false;
        }
    }
    answer_alike(alloc, a, b, &Request::ClusterInfo)
}

fn answer_alike(
    alloc: Global,
    a: &mut Cluster<RESOURCES>,
    b: &mut Cluster<RESOURCES>,
    request: &Request<RESOURCES>,
) -> bool {
    let (first, second) = (dispatch(alloc, a, request), dispatch(alloc, b, request));
    is_same(&a.view(&first), &b.view(&second))
}

/// Whether the receipts of each seat are those for its entries, in order.
pub fn has_receipts(closed: &Closed) -> bool {
    closed
        .seats
        .iter()
        .all(|seat| is_report(seat, &closed.journal))
}

fn is_report(seat: &SeatReport, journal: &[Entry]) -> bool {
    let mut receipts = seat.receipts().iter();
    for (position, entry) in journal.iter().enumerate() {
        if entry.seat != seat.number() {
            continue;
        }
        match receipts.next() {
            Some(receipt) if is_for(receipt, position as u64, entry) => {}
            _ => return false,
        }
    }
    receipts.next().is_none()
}

/// Whether it is the receipt for the entry at a position.
fn is_for(receipt: &Receipt, at: u64, entry: &Entry) -> bool {
    match (receipt, &entry.event) {
        (
            Receipt::Call {
                position,
                reply,
                ..
            },
            Event::Call { reply: entered, .. },
        ) => { *position == at && is_same(&reply.view(), &entered.view()) }
        (Receipt::Commit { .. }, Event::Call { .. }) => false,
        (Receipt::Commit { position, .. }, _) => *position == at,
        _ => false,
    }
}
