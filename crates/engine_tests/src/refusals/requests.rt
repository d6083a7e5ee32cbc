//! Tests of copies of a request, which share what it lists.
use cap_base::RESOURCES;
use cap_model::{Ask, Asks, Key, List, NoMemory, Numbers, Request, ShortText, StoredRequest};
use cap_vector::Resource;
use memory_testing::Hoard;
use std::alloc::Global;

/// The most asks that a request has: for one container of (1024, 1) each, anywhere, with request ids from 0.
fn asks(alloc: Global) -> Option<Asks<RESOURCES>> {
    let resource = Resource::new([1024, 1, 0])?;
    let mut asks = Vec::with_capacity(alloc, 256).ok()?;
    for request in 0..256u64 {
        let key = Key {
            priority: 1,
            request,
        };
        asks.push(Ask::new(&key, 1, &resource, &ShortText::any()))
            .ok()?;
    }
    if asks.len() > 256 {
        return None;
    }
    List::of(alloc, asks).ok()
}

/// The most releases that a request has: of the containers from 1 to 1,024.
fn releases(alloc: Global) -> Option<Numbers> {
    let mut releases = Vec::with_capacity(alloc, 1024).ok()?;
    for container in 1..=1024u64 {
        releases.push(container).ok()?;
    }
    if releases.len() > 1024 {
        return None;
    }
    List::of(alloc, releases).ok()
}

/// Whether a request is the Allocate of these asks and releases, by their first and last.
fn is_long_allocate(request: &Request<RESOURCES>) -> bool {
    let Request::Allocate { asks, releases, .. } = request else {
        return false;
    };
    let (asks, releases) = (asks.as_slice(), releases.as_slice());
    asks.len() == 256
        && asks.last().is_some_and(|ask| ask.key().request == 255)
        && releases.len() == 1024
        && releases.first() == Some(&1)
        && releases.last() == Some(&1024)
}

/// A copy of a request, as an entry and a receipt keep it, and as it is read out of them again.
fn copied(alloc: Global, request: &Request<RESOURCES>) -> Result<Request<RESOURCES>, NoMemory> {
    let entry = StoredRequest::of(alloc, &request.copy(alloc)?)?;
    let receipt = entry.share()?;
    drop(entry);
    receipt.request(alloc)
}

/// Whether a request of the longest lists is copied, kept, shared and read again where no bytes are left.
fn shares_lists(alloc: Global) -> Option<bool> {
    let mut hoard = Hoard::new(alloc)?;
    let request = Request::Allocate {
        app: 9,
        response: 0,
        asks: asks(alloc)?,
        releases: releases(alloc)?,
    };
    hoard.leave(alloc, 0);
    let copy = copied(alloc, &request);
    hoard.give();
    Some(hoard.is_short() && matches!(&copy, Ok(copy) if is_long_allocate(copy)))
}

#[test]
fn copies_of_a_request_share_its_lists(rt: HostRuntime) {
    assert!(rt; shares_lists(rt.alloc()) == Some(true));
}
