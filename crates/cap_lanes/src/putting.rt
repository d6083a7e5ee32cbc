//! What a worker does with the parts of its end of the lanes: it puts a proposal, or its end, into the channel.
ghost use Rattle.std.specs.Prelude.{◌≡◌, ◌++◌, ◌∷◌, [], MatchResult};
ghost use Rattle.crossbeam_channel.specs.Ends.{sends_on};
ghost use Rattle.cap_lanes.specs.Ends.{IsOpen, IsShut, put_in};

use crate::channel_rule::{LanesRule, Puts};
use crate::faults::PutFault;
use crate::item::{Item, Message};
use crate::view::View;
use cap_base::RESOURCES;
use cap_model::Proposal;
use crossbeam_channel::{Pass, RuledSender};
use std::alloc::Global;
use std::sync::Wait;

/// The back of the channel.
pub(crate) type Back = RuledSender<Item, View, LanesRule, Global>;

/// A pass: the committer's, or that of a worker.
pub(crate) type LanePass = Pass<Item, View>;

/// A worker puts a proposal.
pub(crate) fn put_proposal<R: Wait>(
    rt: &R,
    back: &Back,
    pass: &mut LanePass,
    worker: u32,
    proposal: Proposal<RESOURCES>,
) -> Result<(), PutFault>
    requires { IsOpen (sends_on back.now) worker pass.old }
    ensures is { IsOpen (sends_on back.now) worker pass.new }
    ensures put { MatchResult result
        (λ _. put_in pass.new ≡ put_in pass.old ++ proposal ∷ [])
        (λ e. (e.back ≡ proposal) × (put_in pass.new ≡ put_in pass.old)) }
{
    let item = Item {
        worker,
        message: Message::Put(proposal),
    };
    match back.send_as::<Puts, R>(rt, pass, item) {
        Ok(()) => Ok(()),
        Err(_) => Err(PutFault { back: proposal }),
    }
}

/// A worker puts its end, and tries again where that is handed back.
pub(crate) fn put_end<R: Wait>(rt: &R, back: &Back, pass: &mut LanePass, worker: u32)
    requires { IsOpen (sends_on back.now) worker pass.old }
    ensures is { IsShut (sends_on back.now) worker pass.new }
    ensures put { put_in pass.new ≡ put_in pass.old }
{
    for _ in rt.forever() {
        let item = Item {
            worker,
            message: Message::End,
        };
        if let Ok(()) = back.send_as::<Puts, R>(rt, pass, item) {
            return;
        }
    }
    unreachable!()
}
