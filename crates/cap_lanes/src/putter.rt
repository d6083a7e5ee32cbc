//! A worker's end of the lanes (`Putter`), and that of a worker that has finished (`Ended`).
ghost use Rattle.std.specs.Prelude.{◌≡◌, MatchResult};
ghost use Rattle.cap_lanes.specs.Sides.{after_put};

use crate::faults::PutFault;
use crate::putting::{Back, LanePass, put_end, put_proposal};
use cap_base::RESOURCES;
use cap_model::Proposal;
use std::marker::Model;
use std::sync::Wait;

/// What a worker puts its proposals with. Contracts see which lanes it is of, the worker's number, and what the worker put, in order.
/// One that is dropped puts no end, so that the committer waits for it for ever: each is to be finished.
#[derive(Drop)]
pub struct Putter {
    pub(crate) worker: u32,
    pub(crate) back: Back,
    pub(crate) pass: LanePass,
}

impl Model for Putter {
    ghost use Rattle.cap_lanes.specs.Sides.{WorkerSide};

    ghost Value = { WorkerSide };

    ghost use Rattle.crossbeam_channel.specs.Ends.{sends_on};
    ghost use Rattle.cap_lanes.specs.Ends.{lanes_id, put_in, IsOpen};

    ghost view = { λ p. record {
      lanes = lanes_id (sends_on p.back);
      worker = p.worker;
      put = put_in p.pass;
    } };

    ghost invariant = { λ p. IsOpen (sends_on p.back) p.worker p.pass };
}

/// The end of a worker that has finished. Contracts see what they saw of its `Putter`.
#[derive(Drop)]
pub struct Ended {
    pub(crate) worker: u32,
    pub(crate) back: Back,
    pub(crate) pass: LanePass,
}

impl Model for Ended {
    ghost use Rattle.cap_lanes.specs.Sides.{WorkerSide};

    ghost Value = { WorkerSide };

    ghost use Rattle.crossbeam_channel.specs.Ends.{sends_on};
    ghost use Rattle.cap_lanes.specs.Ends.{lanes_id, put_in, IsShut};

    ghost view = { λ p. record {
      lanes = lanes_id (sends_on p.back);
      worker = p.worker;
      put = put_in p.pass;
    } };

    ghost invariant = { λ p. IsShut (sends_on p.back) p.worker p.pass };
}

impl Putter {
    /// The number of the worker whose lane this is.
    pub fn worker(&self) -> u32
        ensures { result ≡ self.now.worker }
    {
        self.worker
    }

    /// Puts a proposal behind all that this worker put. Waits while the channel is full. An error hands the proposal back, and
    /// nothing changes.
    pub fn put<R: Wait>(&mut self, rt: &R, proposal: Proposal<RESOURCES>) -> Result<(), PutFault>
        ensures { MatchResult result
            (λ _. self.new ≡ after_put self.old proposal)
            (λ e. (e.back ≡ proposal) × (self.new ≡ self.old)) }
    {
        put_proposal(rt, &self.back, &mut self.pass, self.worker, proposal)
    }

    /// Puts the worker's end, behind all that this worker put. Waits while the channel is full, and tries again where the end is
    /// handed back.
    pub fn finish<R: Wait>(self, rt: &R) -> Ended
        ensures { result ≡ self }
    {
        let Putter {
            worker,
            back,
            mut pass,
        } = self;
        put_end(rt, &back, &mut pass, worker);
        Ended { worker, back, pass }
    }
}
