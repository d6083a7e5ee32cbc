//! What threads do with their seats.
use bumpalo::Bump;
use cap_base::RESOURCES;
use cap_model::{Ask, Asks, Key, List, NoMemory, Numbers, PathText, Proposal, Request, ShortText};
use cap_propose::propose;
use cap_shared::{CallFault, CommitFault, Naming, Seat, Shared};
use cap_vector::Resource;
use std::alloc::Global;
use std::sync::Wait;
use std::sync::atomic::{AtomicU64, Ordering};

/// A step of a seat.
#[derive(Clone, Copy)]
pub enum Step<'a> {
    ClusterInfo,
    Submit(&'a [u8]),
    QueueInfo(&'a [u8]),
    RegisterMaster(u64),
    /// An application asks for two containers, in its first allocate.
    Allocate(u64),
    RegisterNode(&'a [u8]),
    /// The property lines become the settings.
    Refresh(&'a [u8]),
    /// What is proposed on a copy, from a starting node.
    Commit(u32),
}

/// What a seat does.
#[derive(Clone, Copy)]
pub enum Work<'a> {
    Steps(&'a [Step<'a>]),
    /// So many steps of all kinds.
    Mixed(u64),
}

/// The work of each seat, what the first seat does once all threads have ended, and what is counted.
#[derive(Clone, Copy)]
pub struct Counted<'a> {
    pub alloc: Global,
    pub work: Work<'a>,
    pub last: Option<Step<'a>>,
    pub counts: &'a Counts,
}

impl cap_testing::Work for Counted<'_> {
    fn work<J: Naming, H: Wait>(&self, rt: &H, shared: &Shared<J>, seat: Seat<J>) -> Seat<J> {
        worked(rt, self.alloc, shared, seat, self.work, self.counts)
    }

    fn finish<J: Naming, H: Wait>(&self, rt: &H, shared: &Shared<J>, seat: &mut Seat<J>) {
        if let Some(step) = self.last {
            made(rt, self.alloc, shared, seat, step, self.counts);
        }
    }
}

/// How many calls and proposals came back because the journal was full, and how many could not be made at all.
#[derive(Drop)]
pub struct Counts {
    pub sealed: AtomicU64,
    pub failed: AtomicU64,
}

impl Counts {
    fn seal(&self) {
        self.sealed.fetch_add(1, Ordering::SeqCst);
    }

    fn fail(&self) {
        self.failed.fetch_add(1, Ordering::SeqCst);
    }
}

/// Does the work with the seat.
pub fn worked<J: Naming, H: Wait>(
    rt: &H,
    alloc: Global,
    shared: &Shared<J>,
    mut seat: Seat<J>,
    work: Work<'_>,
    counts: &Counts,
) -> Seat<J> {
    match work {
        Work::Steps(steps) => {
            for step in steps {
                made(rt, alloc, shared, &mut seat, *step, counts);
            }
        }
        Work::Mixed(count) => {
            for i in 0..count {
                let step = mixed(i, seat.number());
                made(rt, alloc, shared, &mut seat, step, counts);
            }
        }
    }
    seat
}

/// The hosts that seats register first.
const HOSTS: [&[u8]; 8] = [b"h0", b"h1", b"h2", b"h3", b"h4", b"h5", b"h6", b"h7"];

/// The step of an index for a seat: a node, and then calls for applications of about this number, and commits.
fn mixed(i: u64, seat: u32) -> Step<'static> {
    if i == 0 {
        return match HOSTS.get(seat as usize) {
            Some(host) => Step::RegisterNode(host),
            None => Step::ClusterInfo,
        };
    }
    let app = i / 5 % 64 + 1;
    match i % 5 {
        0 => Step::Submit(b"root.a"),
        1 => Step::RegisterMaster(app),
        2 => Step::Allocate(app),
        3 => Step::Commit(seat),
        _ => Step::QueueInfo(b"root"),
    }
}

/// Makes a step, and counts it if it came back.
fn made<J: Naming, H: Wait>(
    rt: &H,
    alloc: Global,
    shared: &Shared<J>,
    seat: &mut Seat<J>,
    step: Step<'_>,
    counts: &Counts,
) {
    if let Step::Commit(start) = step {
        return committed(rt, alloc, shared, seat, start, counts);
    }
    match request_of(alloc, step) {
        Some(request) => called(rt, shared, seat, request, step, counts),
        None => counts.fail(),
    }
}

/// Makes the call of a step, and counts it if its request came back.
fn called<J: Naming, H: Wait>(
    rt: &H,
    shared: &Shared<J>,
    seat: &mut Seat<J>,
    request: Request<RESOURCES>,
    step: Step<'_>,
    counts: &Counts,
) {
    match shared.call(rt, seat, request) {
        Ok(_) => {}
        Err(CallFault::Sealed(back)) => count_sealed(&back, step, counts),
        Err(CallFault::NoMemory(_)) => counts.fail(),
    }
}

/// Counts a request that came back from a full journal, as sealed if it is that of the step.
fn count_sealed(back: &Request<RESOURCES>, step: Step<'_>, counts: &Counts) {
    if is_of(back, step) {
        counts.seal();
    } else {
        counts.fail();
    }
}

/// Whether the request is that of the step.
fn is_of(request: &Request<RESOURCES>, step: Step<'_>) -> bool {
    match (request, step) {
        (Request::ClusterInfo, Step::ClusterInfo) => true,
        (Request::Submit { path, .. }, Step::Submit(wanted)) => path.as_bytes() == wanted,
        (Request::QueueInfo { path }, Step::QueueInfo(wanted)) => path.as_bytes() == wanted,
        (Request::RegisterMaster { app }, Step::RegisterMaster(wanted)) => *app == wanted,
        (Request::Allocate { app, .. }, Step::Allocate(wanted)) => *app == wanted,
        (Request::RegisterNode { host, .. }, Step::RegisterNode(wanted)) => {
            host.as_bytes() == wanted
        }
        (Request::Refresh { text }, Step::Refresh(wanted)) => text.as_slice() == wanted,
        _ => false,
    }
}

/// What is proposed on a copy from a starting node. An error means that there is no copy.
fn proposed<J: Naming, H: Wait>(
    rt: &H,
    alloc: Global,
    shared: &Shared<J>,
    seat: &mut Seat<J>,
    start: u32,
) -> Result<Option<Proposal<RESOURCES>>, NoMemory> {
    let arena = Bump::new(alloc);
    match shared.copy(rt, &arena, seat) {
        Ok(snapshot) => Ok(propose(&snapshot, start)),
        Err(error) => Err(error),
    }
}

/// Proposes on a copy from a starting node, and commits what is proposed.
fn committed<J: Naming, H: Wait>(
    rt: &H,
    alloc: Global,
    shared: &Shared<J>,
    seat: &mut Seat<J>,
    start: u32,
    counts: &Counts,
) {
    let Ok(proposal) = proposed(rt, alloc, shared, seat, start) else {
        return counts.fail();
    };
    let Some(proposal) = proposal else {
        return;
    };
    match shared.commit(rt, seat, proposal) {
        Ok(_) => {}
        Err(CommitFault::Sealed(_)) => counts.seal(),
        Err(CommitFault::NoMemory(_)) => counts.fail(),
    }
}

/// The request of a step that is a call.
fn request_of(alloc: Global, step: Step<'_>) -> Option<Request<RESOURCES>> {
    Some(match step {
        Step::ClusterInfo => Request::ClusterInfo,
        Step::Submit(path) => Request::Submit {
            path: PathText::new(path)?,
            user: ShortText::new(b"u")?,
        },
        Step::QueueInfo(path) => Request::QueueInfo {
            path: PathText::new(path)?,
        },
        Step::RegisterMaster(app) => Request::RegisterMaster { app },
        Step::Allocate(app) => Request::Allocate {
            app,
            response: 0,
            asks: asks(alloc)?,
            releases: Numbers::empty(),
        },
        Step::RegisterNode(host) => Request::RegisterNode {
            host: ShortText::new(host)?,
            rack: ShortText::new(b"rack")?,
            total: Resource::new([16_384, 16, 0])?,
        },
        Step::Refresh(text) => refresh(alloc, text)?,
        Step::Commit(_) => return None,
    })
}

/// A Refresh of these property lines, 65,526 bytes at most.
pub fn refresh(alloc: Global, text: &[u8]) -> Option<Request<RESOURCES>> {
    if text.len() > 65_526 {
        return None;
    }
    let lines = Vec::from_slice(alloc, text).ok()?;
    let text = List::of(alloc, lines).ok()?;
    Some(Request::Refresh { text })
}

/// One ask for two containers of (512, 1), anywhere.
fn asks(alloc: Global) -> Option<Asks<RESOURCES>> {
    let key = Key {
        priority: 1,
        request: 1,
    };
    let resource = Resource::new([512, 1, 0])?;
    let mut asks = Vec::new(alloc);
    asks.push(Ask::new(&key, 2, &resource, &ShortText::any()))
        .ok()?;
    List::of(alloc, asks).ok()
}
