//! The cluster of a run: its queues, nodes and applications.

use crate::commits::size::Size;
use cap_base::RESOURCES;
use cap_commit::Cluster;
use cap_model::Key;
use cap_testing::{Call, WantedContainers, cluster, make_call};
use std::alloc::{AllocError, Global};

/// The one key of each application.
pub const KEY: Key = Key {
    priority: 1,
    request: 0,
};

/// What each container has.
pub const CONTAINER: [u64; RESOURCES] = [1024, 1, 0];

/// What each node has, room for 65,536 containers.
pub const NODE: [u64; RESOURCES] = [1 << 26, 1 << 16, 0];

/// What the last node has, less than a container.
const SMALL_NODE: [u64; RESOURCES] = [512, 1, 0];

/// What each application asks for under its key: 70,000 containers anywhere.
const ASKS: &[WantedContainers<'static>] = &[WantedContainers {
    priority: 1,
    request: 0,
    count: 70_000,
    resource: CONTAINER,
    place: b"*",
}];

/// The cluster with the leaf queues of this size.
pub fn open(alloc: Global, size: &Size) -> Option<Cluster<RESOURCES>> {
    let mut lines = String::new(alloc);
    match put_lines(&mut lines, size.leaves) {
        Ok(()) => cluster(alloc, lines.as_bytes()),
        Err(_) => None,
    }
}

/// Adds the nodes of this size, and the small node after them.
pub fn add_nodes(alloc: Global, cluster: &mut Cluster<RESOURCES>, size: &Size) -> Option<()> {
    for number in 0..size.nodes {
        join(alloc, cluster, number, NODE)?;
    }
    join(alloc, cluster, size.nodes, SMALL_NODE)
}

/// Adds the applications of this size, each with an ask for containers anywhere.
pub fn add_applications(
    alloc: Global,
    cluster: &mut Cluster<RESOURCES>,
    size: &Size,
) -> Option<()> {
    for app in 0..size.applications {
        enter(alloc, cluster, app.checked_rem(size.leaves)?)?;
        ask(alloc, cluster, app.checked_add(1)?)?;
    }
    Some(())
}

/// Property lines of so many leaf queues, each with a capacity of 65,536 containers.
pub fn put_lines(lines: &mut String, leaves: u64) -> Result<(), AllocError> {
    lines.push_str("yarn.scheduler.capacity.maximum-applications=1000000\n")?;
    lines.push_str("yarn.scheduler.capacity.root.queues=q0")?;
    for leaf in 1..leaves {
        write!(lines, ",q{leaf}")?;
    }
    for leaf in 0..leaves {
        write!(
            lines,
            "\nyarn.scheduler.capacity.root.q{leaf}.capacity=[memory=67108864,vcores=65536]"
        )?;
    }
    Ok(())
}

/// One more application, in this leaf.
fn enter(alloc: Global, cluster: &mut Cluster<RESOURCES>, leaf: u64) -> Option<()> {
    let mut path = String::new(alloc);
    write!(path, "root.q{leaf}").ok()?;
    make_call(alloc, cluster, &Call::Submit(path.as_bytes(), b"u"))
}

/// Registers the master of an application, which asks for its containers.
fn ask(alloc: Global, cluster: &mut Cluster<RESOURCES>, app: u64) -> Option<()> {
    make_call(alloc, cluster, &Call::RegisterMaster(app))?;
    make_call(alloc, cluster, &Call::Allocate(app, 0, ASKS, &[]))
}

/// One more node, of this number and total.
fn join(
    alloc: Global,
    cluster: &mut Cluster<RESOURCES>,
    number: u64,
    total: [u64; RESOURCES],
) -> Option<()> {
    let mut host = String::new(alloc);
    write!(host, "n{number}").ok()?;
    let call = Call::RegisterNode(host.as_bytes(), b"/r", total);
    make_call(alloc, cluster, &call)
}
