//! What fills the cluster of a work: queues (`put_queues`), and calls that add nodes and applications (`fill`).

use crate::following::work::{Place, Work};
use cap_base::RESOURCES;
use cap_messages::read_request;
use cap_model::ReplyWith;
use cap_shared::{Naming, Seat, Shared};
use cap_testing::{Call, WantedContainers, frame};
use std::alloc::{AllocError, Global};
use std::sync::Wait;

/// How many vcores a node has.
const VCORES: u64 = 1 << 16;

/// How many containers each ask is for: more than are granted.
const COUNT: u32 = 70_000;

/// What the application beside the others asks for.
const BESIDE: &[WantedContainers<'static>] = &[WantedContainers {
    priority: 1,
    request: 0,
    count: COUNT,
    resource: [1024, 1, 0],
    place: b"*",
}];

/// The property lines of the leaf queues of a work, and of the wide one beside them where it has one.
pub fn put_queues(lines: &mut String, work: &Work) -> Result<(), AllocError> {
    lines.push_str("yarn.scheduler.capacity.maximum-applications=1000000\n")?;
    lines.push_str("yarn.scheduler.capacity.root.queues=q0")?;
    for leaf in 1..work.leaves {
        write!(lines, ",q{leaf}")?;
    }
    if work.beside != 0 {
        lines.push_str(",wide\nyarn.scheduler.capacity.root.wide.capacity=")?;
        lines.push_str("[memory=67108864,vcores=65536]")?;
    }
    for leaf in 0..work.leaves {
        write!(
            lines,
            "\nyarn.scheduler.capacity.root.q{leaf}.capacity=[memory={},vcores=65536]",
            work.guarantee
        )?;
    }
    Ok(())
}

/// An application with its asks, that enters a leaf queue for a user under this number.
#[derive(Drop)]
struct Entry<'a> {
    number: u64,
    leaf: &'a [u8],
    user: &'a [u8],
    asks: &'a [WantedContainers<'static>],
}

/// Adds the nodes and the applications of a work, each with its asks, and the host that comes last where it has one.
pub fn fill<J: Naming, H: Wait>(
    rt: &H,
    alloc: Global,
    shared: &Shared<J>,
    seat: &mut Seat<J>,
    work: &Work,
) -> Option<()> {
    add_nodes(rt, alloc, shared, seat, work)?;
    add_applications(rt, alloc, shared, seat, work)?;
    if work.place == Place::LateHost {
        let node = Call::RegisterNode(work.place.spelling(), b"/r", [work.node, VCORES, 0]);
        call(rt, alloc, shared, seat, &node)?;
    }
    if work.beside == 0 {
        return Some(());
    }
    let entry = Entry {
        number: work.applications.checked_add(1)?,
        leaf: b"root.wide",
        user: b"w",
        asks: BESIDE,
    };
    enter(rt, alloc, shared, seat, &entry)
}

fn add_nodes<J: Naming, H: Wait>(
    rt: &H,
    alloc: Global,
    shared: &Shared<J>,
    seat: &mut Seat<J>,
    work: &Work,
) -> Option<()> {
    for number in 0..work.nodes {
        let mut host = String::new(alloc);
        write!(host, "n{number}").ok()?;
        let node = Call::RegisterNode(host.as_bytes(), b"/r", [work.node, VCORES, 0]);
        call(rt, alloc, shared, seat, &node)?;
    }
    Some(())
}

fn add_applications<J: Naming, H: Wait>(
    rt: &H,
    alloc: Global,
    shared: &Shared<J>,
    seat: &mut Seat<J>,
    work: &Work,
) -> Option<()> {
    let asks = asks(alloc, work.asks, work.size, work.place)?;
    for app in 0..work.applications {
        let mut leaf = String::new(alloc);
        write!(leaf, "root.q{}", app.checked_rem(work.leaves)?).ok()?;
        let mut user = String::new(alloc);
        write!(user, "u{}", app.checked_rem(work.users)?).ok()?;
        let entry = Entry {
            number: app.checked_add(1)?,
            leaf: leaf.as_bytes(),
            user: user.as_bytes(),
            asks: &asks,
        };
        enter(rt, alloc, shared, seat, &entry)?;
    }
    Some(())
}

/// An application enters, its master registers and asks.
fn enter<J: Naming, H: Wait>(
    rt: &H,
    alloc: Global,
    shared: &Shared<J>,
    seat: &mut Seat<J>,
    entry: &Entry<'_>,
) -> Option<()> {
    let number = entry.number;
    let submit = Call::Submit(entry.leaf, entry.user);
    call(rt, alloc, shared, seat, &submit)?;
    call(rt, alloc, shared, seat, &Call::RegisterMaster(number))?;
    let allocate = Call::Allocate(number, 0, entry.asks, &[]);
    call(rt, alloc, shared, seat, &allocate)
}

/// So many asks for containers of so many MiB at a place.
pub fn asks(
    alloc: Global,
    count: usize,
    size: u64,
    place: Place,
) -> Option<Vec<WantedContainers<'static>>> {
    let mut asks = Vec::with_capacity(alloc, count).ok()?;
    for request in 0..count as u64 {
        asks.push(WantedContainers {
            priority: 1,
            request,
            count: COUNT,
            resource: [size, 1, 0],
            place: place.spelling(),
        })
        .ok()?;
    }
    Some(asks)
}

/// Makes a call that is not refused.
fn call<J: Naming, H: Wait>(
    rt: &H,
    alloc: Global,
    shared: &Shared<J>,
    seat: &mut Seat<J>,
    call: &Call<'_>,
) -> Option<()> {
    let bytes = frame(alloc, 2, 1, call).ok()?;
    let (_, request) = read_request(alloc, bytes.get(4..)?).ok()?;
    match shared.call(rt, seat, request) {
        Ok(ReplyWith::Refused(_)) | Err(_) => None,
        Ok(_) => Some(()),
    }
}
