//! A worker that offers what it proposes to a committer.
use bumpalo::Bump;
use cap_model::NoMemory;
use cap_shared::{Naming, Seat, Shared};
use cap_testing::Work;
use cap_workers::{Committer, Offer, OfferEnd, OpenGate, Putter, Worker, lanes};
use std::alloc::Global;
use std::sync::Wait;
use std::sync::atomic::{AtomicU64, Ordering};

/// What came of an offer.
#[derive(Clone, Copy, PartialEq, Eq)]
pub enum Offered {
    Nothing,
    /// The committer took a proposal for this application and node, of a worker with this number.
    Taken { worker: u32, app: u64, node: u64 },
    Refused,
    NoMemory,
    /// The arena was not reset.
    Spent,
}

/// Worker 0 offers what it proposes, the committer commits it, and worker 0 offers again.
#[derive(Drop)]
pub struct Offering {
    pub alloc: Global,
    /// What is to come of both offers.
    pub wanted: [Offered; 2],
    /// How often that came.
    pub right: AtomicU64,
}

/// What came of an offer; `None` if its proposal was put.
fn offered_of(offer: &Offer) -> Option<Offered> {
    if !offer.reset {
        return Some(Offered::Spent);
    }
    match &offer.end {
        OfferEnd::Put => None,
        OfferEnd::Nothing => Some(Offered::Nothing),
        OfferEnd::NoMemory => Some(Offered::NoMemory),
        _ => Some(Offered::Refused),
    }
}

/// Takes a proposal out of the lanes, and commits it.
fn take_one<J: Naming, H: Wait>(
    rt: &H,
    shared: &Shared<J>,
    seat: &mut Seat<J>,
    committer: &mut Committer,
) -> Offered {
    let Some((worker, proposal)) = committer.take(rt) else {
        return Offered::Refused;
    };
    let app = proposal.app();
    let node = proposal.node();
    let _verdict = shared.commit(rt, seat, proposal);
    Offered::Taken { worker, app, node }
}

/// Lanes of 18 places, so that ten proposals and the ends of eight workers fit. An error means that an allocation failed.
fn new_lanes(alloc: Global) -> Result<(Committer, Vec<Putter>), NoMemory> {
    let (committer, putters) = lanes(alloc, 18)?;
    let Ok(putters) = Vec::from_array(alloc, putters) else {
        return Err(NoMemory);
    };
    Ok((committer, putters))
}

/// A worker offers what it proposes, and the committer commits that: what came of the offer.
fn offer_one<J: Naming, H: Wait>(
    rt: &H,
    shared: &Shared<J>,
    seat: &mut Seat<J>,
    worker: &mut Worker,
    arena: &mut Bump<Global>,
    putter: &mut Putter,
    committer: &mut Committer,
) -> Offered {
    let offer = worker.offer(rt, shared, seat, putter, arena, &OpenGate);
    match offered_of(&offer) {
        Some(came) => came,
        None => take_one(rt, shared, seat, committer),
    }
}

impl Offering {
    /// Counts the offers of which came what is to come of them.
    fn offer<J: Naming, H: Wait>(
        &self,
        rt: &H,
        shared: &Shared<J>,
        seat: &mut Seat<J>,
        putter: &mut Putter,
        committer: &mut Committer,
    ) {
        let mut arena = Bump::new(self.alloc);
        let mut worker = Worker::new(0);
        for wanted in self.wanted {
            let came = offer_one(rt, shared, seat, &mut worker, &mut arena, putter, committer);
            if came == wanted {
                self.right.fetch_add(1, Ordering::SeqCst);
            }
        }
    }
}

impl Work for Offering {
    fn work<J: Naming, H: Wait>(&self, rt: &H, shared: &Shared<J>, seat: Seat<J>) -> Seat<J> {
        let mut seat = seat;
        let Ok((mut committer, mut putters)) = new_lanes(self.alloc) else {
            return seat;
        };
        if let Some(own) = putters.first_mut() {
            self.offer(rt, shared, &mut seat, own, &mut committer);
        }
        seat
    }

    fn finish<J: Naming, H: Wait>(&self, _rt: &H, _shared: &Shared<J>, _seat: &mut Seat<J>) {}
}
