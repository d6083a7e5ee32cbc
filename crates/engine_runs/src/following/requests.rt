//! The requests of rounds (`Requests`).

use crate::following::filling::{asks, put_queues};
use crate::following::work::{Kind, Place, Work};
use cap_base::RESOURCES;
use cap_messages::read_request;
use cap_model::Request;
use cap_testing::{Call, WantedContainers, frame};
use std::alloc::Global;

/// How many calls a round has.
pub const ROUND: u64 = 16;

/// How many asks each Allocate has.
const ASKS: usize = 20;

/// What each node has.
const NODE: [u64; RESOURCES] = [8192, 8, 0];

/// Requests of one kind, with the lines of a Refresh and the asks of an Allocate.
#[derive(Drop)]
pub struct Requests {
    alloc: Global,
    kind: Kind,
    lines: String,
    asks: Vec<WantedContainers<'static>>,
}

impl Requests {
    /// Requests of this kind in the cluster of a work. `None` if an allocation fails.
    pub fn new(alloc: Global, work: &Work, kind: Kind) -> Option<Requests> {
        let mut lines = String::new(alloc);
        put_queues(&mut lines, work).ok()?;
        let asks = asks(alloc, ASKS, 1024, Place::Anywhere)?;
        Some(Requests {
            alloc,
            kind,
            lines,
            asks,
        })
    }

    /// The request of an index: the application and the node are those of number 1, and have made no such call before the first but an Allocate.
    pub fn request(&self, index: u64) -> Option<Request<RESOURCES>> {
        let response = u32::try_from(index).ok()?;
        match self.kind {
            Kind::Allocate => self.read(&Call::Allocate(
                1,
                response.wrapping_add(1),
                &self.asks,
                &[],
            )),
            Kind::Heartbeat => self.read(&Call::Heartbeat(1, response, &[])),
            Kind::Refresh => self.read(&Call::Refresh(self.lines.as_bytes())),
            Kind::RegisterNode => {
                let mut host = String::new(self.alloc);
                write!(host, "h{index}").ok()?;
                self.read(&Call::RegisterNode(host.as_bytes(), b"/r", NODE))
            }
        }
    }

    /// A call as the engine reads it.
    fn read(&self, call: &Call<'_>) -> Option<Request<RESOURCES>> {
        let bytes = frame(self.alloc, 2, 1, call).ok()?;
        let (_, request) = read_request(self.alloc, bytes.get(4..)?).ok()?;
        Some(request)
    }
}
