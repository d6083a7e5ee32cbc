//! Whether two replies are the same (`is_same`), and two clusters, as far as anybody can see (`are_alike`, `report_alike`).
ghost use Rattle.cap_model.specs.Reporting.{HasNumbers};

use crate::spelling::{Call, frame};
use cap_asks::App;
use cap_base::RESOURCES;
use cap_commit::Cluster;
use cap_messages::{dispatch, read_request};
use cap_model::{Refusal, Reply, ReplyView, ReplyWith, Request, Reservation};
use cap_nodes::Node;
use std::alloc::Global;

/// Whether two replies are the same.
pub fn is_same(a: &ReplyView<'_, RESOURCES>, b: &ReplyView<'_, RESOURCES>) -> bool {
    match (a, b) {
        (ReplyWith::Refused(a), ReplyWith::Refused(b)) => a == b,
        (ReplyWith::Submit { app: a }, ReplyWith::Submit { app: b }) => a == b,
        (ReplyWith::Allocate { reply: a }, ReplyWith::Allocate { reply: b }) => {
            a.response == b.response
                && a.ignored == b.ignored
                && a.grants() == b.grants()
                && a.ends() == b.ends()
        }
        (ReplyWith::FinishMaster { ended: a }, ReplyWith::FinishMaster { ended: b }) => a == b,
        (ReplyWith::RegisterNode { node: a }, ReplyWith::RegisterNode { node: b }) => a == b,
        (ReplyWith::Heartbeat { reply: a }, ReplyWith::Heartbeat { reply: b }) => a == b,
        (ReplyWith::NodeGone { ended: a }, ReplyWith::NodeGone { ended: b }) => a == b,
        (ReplyWith::SetQueueState, ReplyWith::SetQueueState)
        | (ReplyWith::Refresh, ReplyWith::Refresh) => true,
        _ => is_same_report(a, b),
    }
}

/// Whether two replies report the same limits of containers, of a queue, or of the cluster.
fn is_same_report(a: &ReplyView<'_, RESOURCES>, b: &ReplyView<'_, RESOURCES>) -> bool {
    match (a, b) {
        (
            ReplyWith::RegisterMaster { minimum, maximum },
            ReplyWith::RegisterMaster {
                minimum: least,
                maximum: most,
            },
        ) => minimum == least && maximum == most,
        (ReplyWith::QueueInfo { report: a }, ReplyWith::QueueInfo { report: b }) => {
            a.running == b.running
                && a.leaf == b.leaf
                && a.guaranteed == b.guaranteed
                && a.maximum == b.maximum
                && a.used == b.used
                && a.apps == b.apps
        }
        (ReplyWith::ClusterInfo { report: a }, ReplyWith::ClusterInfo { report: b }) => {
            a.nodes == b.nodes
                && a.apps == b.apps
                && a.containers == b.containers
                && a.totals == b.totals
                && a.used == b.used
        }
        _ => false,
    }
}

/// The queues of all settings of tests.
const PATHS: [&[u8]; 5] = [b"root", b"root.a", b"root.a.x", b"root.a.y", b"root.b"];

/// Whether two clusters of the settings of tests show the same: their limits, each queue, application, node, container and reservation, and
/// the numbers to come. What is not yet reported to applications is no part of it.
pub fn are_alike(a: &Cluster<RESOURCES>, b: &Cluster<RESOURCES>) -> bool {
    a.settings() == b.settings()
        && have_same_queues(a, b)
        && have_same_apps(a, b)
        && have_same_nodes(a, b)
        && have_same_containers(a, b)
}

fn have_same_queues(a: &Cluster<RESOURCES>, b: &Cluster<RESOURCES>) -> bool {
    for path in PATHS {
        let same = match (a.report(path), b.report(path)) {
            (None, None) => true,
            (Some(a), Some(b)) => is_same_report(
                &ReplyWith::QueueInfo { report: a },
                &ReplyWith::QueueInfo { report: b },
            ),
            _ => false,
        };
        if !same {
            return false;
        }
    }
    true
}

fn have_same_apps(a: &Cluster<RESOURCES>, b: &Cluster<RESOURCES>) -> bool {
    let (a, b) = (a.apps(), b.apps());
    if a.next() != b.next() {
        return false;
    }
    for number in 1..a.next() {
        let same = match (a.app(number), b.app(number)) {
            (None, None) => true,
            (Some(a), Some(b)) => is_same_app(a, b),
            _ => false,
        };
        if !same {
            return false;
        }
    }
    true
}

fn is_same_app(a: &App<RESOURCES>, b: &App<RESOURCES>) -> bool {
    let last = a.response().saturating_sub(1);
    a.leaf() == b.leaf()
        && a.user() == b.user()
        && a.is_registered() == b.is_registered()
        && a.response() == b.response()
        && a.live() == b.live()
        && a.asks() == b.asks()
        && a.repeated(last) == b.repeated(last)
}

fn have_same_nodes(a: &Cluster<RESOURCES>, b: &Cluster<RESOURCES>) -> bool {
    let (a, b) = (a.nodes(), b.nodes());
    if a.next_node() != b.next_node() || a.reservation_count() != b.reservation_count() {
        return false;
    }
    for number in 1..a.next_node() {
        let same = match (a.node(number), b.node(number)) {
            (None, None) => true,
            (Some(node), Some(other)) => {
                is_same_node(node, other)
                    && a.free_of(number) == b.free_of(number)
                    && is_same_reservation(a.reservation_on(number), b.reservation_on(number))
            }
            _ => false,
        };
        if !same {
            return false;
        }
    }
    true
}

fn is_same_node(a: &Node<RESOURCES>, b: &Node<RESOURCES>) -> bool {
    let last = a.response().saturating_sub(1);
    a.host() == b.host()
        && a.rack() == b.rack()
        && a.total() == b.total()
        && a.response() == b.response()
        && a.repeated(last) == b.repeated(last)
}

fn is_same_reservation(
    a: Option<Reservation<RESOURCES>>,
    b: Option<Reservation<RESOURCES>>,
) -> bool {
    match (a, b) {
        (None, None) => true,
        (Some(a), Some(b)) => {
            (a.app(), a.key(), a.node(), a.resource()) == (b.app(), b.key(), b.node(), b.resource())
        }
        _ => false,
    }
}

fn have_same_containers(a: &Cluster<RESOURCES>, b: &Cluster<RESOURCES>) -> bool {
    let (a, b) = (a.nodes(), b.nodes());
    if a.next_container() != b.next_container() {
        return false;
    }
    for number in 1..a.next_container() {
        let same = match (a.container(number), b.container(number)) {
            (None, None) => true,
            (Some(a), Some(b)) => {
                (a.app(), a.key(), a.node(), a.resource())
                    == (b.app(), b.key(), b.node(), b.resource())
            }
            _ => false,
        };
        if !same {
            return false;
        }
    }
    true
}

/// The reply to a request, which is made once more where an allocation failed.
fn reply(
    alloc: Global,
    cluster: &mut Cluster<RESOURCES>,
    request: &Request<RESOURCES>,
) -> Reply<RESOURCES>
    ensures { HasNumbers cluster.new.flat result }
{
    match dispatch(alloc, cluster, request) {
        ReplyWith::Refused(Refusal::NoMemory) => dispatch(alloc, cluster, request),
        reply => reply,
    }
}

/// An Allocate of an application that asks for nothing.
fn news(alloc: Global, app: u64, response: u32) -> Option<Request<RESOURCES>> {
    let bytes = frame(alloc, 2, 1, &Call::Allocate(app, response, &[], &[])).ok()?;
    let (_, request) = read_request(alloc, bytes.get(4..)?).ok()?;
    Some(request)
}

/// Whether both report the same to an application, which is 64 grants and 64 ends at most; also where none has the number.
fn report_alike_to(
    alloc: Global,
    a: &mut Cluster<RESOURCES>,
    b: &mut Cluster<RESOURCES>,
    number: u64,
) -> bool {
    let response = match a.apps().app(number) {
        Some(app) => app.response(),
        None => 0,
    };
    let request = match news(alloc, number, response) {
        Some(request) => Some(request),
        None => news(alloc, number, response),
    };
    let Some(request) = request else {
        return false;
    };
    let (first, second) = (reply(alloc, a, &request), reply(alloc, b, &request));
    is_same(&a.view(&first), &b.view(&second))
}

/// Whether two clusters report the same to each of their applications, which is 64 grants and 64 ends at most. One refused allocation changes
/// nothing of the answer.
pub fn report_alike(alloc: Global, a: &mut Cluster<RESOURCES>, b: &mut Cluster<RESOURCES>) -> bool {
    let next = a.apps().next();
    for number in 1..next {
        if !report_alike_to(alloc, a, b, number) {
            return false;
        }
    }
    true
}
