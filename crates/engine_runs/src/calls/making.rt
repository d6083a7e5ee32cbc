//! The calls of a run, made alone or by threads with their seats (`call_alone`, `Calls`).

use crate::calls::work::{Kind, Work};
use cap_base::RESOURCES;
use cap_commit::Cluster;
use cap_messages::dispatch;
use cap_model::{
    Ask, Asks, Key, List, Numbers, Reply, ReplyWith, Request, SettingsText, ShortText,
};
use cap_shared::{Naming, Seat, Shared};
use cap_testing::{Call, TWO_QUEUES, make_call};
use cap_vector::Resource;
use std::alloc::Global;
use std::sync::Wait;
use std::sync::atomic::{AtomicU64, Ordering};

/// How many containers an Allocate with long lists releases.
const RELEASES: usize = 1024;

/// How many bytes of lines a Refresh has.
const LINES: usize = 65_526;

/// So many applications in `root.a`, whose masters are registered.
pub fn add_applications(alloc: Global, cluster: &mut Cluster<RESOURCES>, count: u64) -> Option<()> {
    for app in 0..count {
        make_call(alloc, cluster, &Call::Submit(b"root.a", b"u1"))?;
        make_call(alloc, cluster, &Call::RegisterMaster(app.saturating_add(1)))?;
    }
    Some(())
}

/// Makes the calls without a lock. The result is how many were not refused.
pub fn call_alone(alloc: Global, cluster: &mut Cluster<RESOURCES>, work: Work) -> Option<u64> {
    let mut answered = 0u64;
    for index in 0..work.calls {
        let request = request(alloc, work.kind, 1, index)?;
        match dispatch(alloc, cluster, &request) {
            Reply::Refused(_) => {}
            _ => answered = answered.saturating_add(1),
        }
    }
    Some(answered)
}

/// What each thread does, and how many calls of all were not refused.
#[derive(Clone, Copy)]
pub struct Calls<'a> {
    pub alloc: Global,
    pub work: Work,
    pub answered: &'a AtomicU64,
}

impl cap_testing::Work for Calls<'_> {
    fn work<J: Naming, H: Wait>(&self, rt: &H, shared: &Shared<J>, mut seat: Seat<J>) -> Seat<J> {
        let answered = call_all(rt, self.alloc, shared, &mut seat, self.work);
        self.answered.fetch_add(answered, Ordering::SeqCst);
        seat
    }

    fn finish<J: Naming, H: Wait>(&self, _rt: &H, _shared: &Shared<J>, _seat: &mut Seat<J>) {}
}

/// Makes the calls of a seat, those of an application by the one of its number. The result is how many were not refused.
fn call_all<J: Naming, H: Wait>(
    rt: &H,
    alloc: Global,
    shared: &Shared<J>,
    seat: &mut Seat<J>,
    work: Work,
) -> u64 {
    let app = seat.number() as u64 + 1;
    let mut answered = 0u64;
    for index in 0..work.calls {
        let Some(request) = request(alloc, work.kind, app, index) else {
            return answered;
        };
        match shared.call(rt, seat, request) {
            Ok(ReplyWith::Refused(_)) | Err(_) => {}
            Ok(_) => answered = answered.saturating_add(1),
        }
    }
    answered
}

/// The call of an index, by an application whose allocates are numbered from 0.
fn request(alloc: Global, kind: Kind, app: u64, index: u32) -> Option<Request<RESOURCES>> {
    match kind {
        Kind::ClusterInfo => Some(Request::ClusterInfo),
        Kind::Allocate => Some(Request::Allocate {
            app,
            response: index,
            asks: asks(alloc, 20)?,
            releases: Numbers::empty(),
        }),
        Kind::Lists => Some(Request::Allocate {
            app,
            response: index,
            asks: asks(alloc, 256)?,
            releases: releases(alloc)?,
        }),
        Kind::Refresh => Some(Request::Refresh {
            text: lines(alloc)?,
        }),
    }
}

/// So many asks for two containers of (1024, 1) each, anywhere.
fn asks(alloc: Global, count: u64) -> Option<Asks<RESOURCES>> {
    let resource = Resource::new([1024, 1, 0])?;
    let mut asks = Vec::with_capacity(alloc, count as usize).ok()?;
    for request in 1..=count {
        let key = Key {
            priority: 1,
            request,
        };
        asks.push(Ask::new(&key, 2, &resource, &ShortText::any()))
            .ok()?;
    }
    if asks.len() > 256 {
        return None;
    }
    List::of(alloc, asks).ok()
}

/// The numbers of 1,024 containers that are not there.
fn releases(alloc: Global) -> Option<Numbers> {
    let mut numbers = Vec::with_capacity(alloc, RELEASES).ok()?;
    for number in 1..=RELEASES as u64 {
        numbers.push(number).ok()?;
    }
    if numbers.len() > 1024 {
        return None;
    }
    List::of(alloc, numbers).ok()
}

/// The lines of two queues, and as many empty ones as a frame has room for.
fn lines(alloc: Global) -> Option<SettingsText> {
    let mut lines = Vec::with_capacity(alloc, LINES).ok()?;
    lines.extend_from_slice(TWO_QUEUES).ok()?;
    lines.resize(LINES, b'\n').ok()?;
    if lines.len() > 65_526 {
        return None;
    }
    List::of(alloc, lines).ok()
}
