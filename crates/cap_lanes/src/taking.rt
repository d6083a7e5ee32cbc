//! What the committer does with the parts of its end: it takes what comes next, and at the close what is left.
ghost use Rattle.std.specs.Prelude.{◌≡◌, ◌<◌, ◌≤◌, ◌↔◌, ℕ, true, [], IfSome, IfNone, IsTrue, length, vec_capacity};
ghost use Rattle.crossbeam_channel.specs.Ends.{sends_on, receives_on};
ghost use Rattle.crossbeam_channel.specs.Claims.{view, IsSeatAt};
ghost use Rattle.cap_lanes.specs.ChannelRule.{taker, times};
ghost use Rattle.cap_lanes.specs.Sides.{AllOf, AllOver, IsNext, StayOver};
ghost use Rattle.cap_lanes.specs.Ends.{Flags, AllEnded, AreAllIn, HasLaneOf, HasLanesOf, SameSeat, lanes_id, taken_in};

use crate::channel_rule::{Handover, LanesRule, Takes};
use crate::item::Item;
use crate::putter::Ended;
use crate::putting::{Back, LanePass};
use crate::view::View;
use cap_base::RESOURCES;
use cap_model::Proposal;
use crossbeam_channel::RuledReceiver;
use std::alloc::Global;
use std::sync::Wait;

/// The front of the channel.
pub(crate) type Front = RuledReceiver<Item, View, LanesRule, Global>;

/// Whether all ends are marked.
pub(crate) fn all_over(over: &[bool; 8]) -> bool
    ensures { IsTrue result ↔ AllOver over.now }
{
    over.iter().all(|e| *e)
}

/// Takes the next proposal, and marks the ends that come before it. None once all are marked.
pub(crate) fn take_next<R: Wait>(
    rt: &R,
    front: &Front,
    pass: &mut LanePass,
    over: &mut [bool; 8],
) -> Option<(u32, Proposal<RESOURCES>)>
    requires seat { IsSeatAt (receives_on front.now) pass.old }
    requires takes { view pass.old ≡ taker (view pass.old).took [] }
    requires flags { Flags over.old (view pass.old).took }
    ensures seat { IsSeatAt (receives_on front.now) pass.new }
    ensures same { SameSeat pass.old pass.new }
    ensures takes { view pass.new ≡ taker (view pass.new).took [] }
    ensures flags { Flags over.new (view pass.new).took }
    ensures some { IfSome result (IsNext over.old (taken_in pass.old) (taken_in pass.new)) }
    ensures none { IfNone result ((taken_in pass.new ≡ taken_in pass.old) × AllOver over.new) }
    ensures kept { StayOver over.old over.new }
{
    for _ in rt.forever() {
        if all_over(over) {
            return None;
        }
        let Ok(item) = front.recv_as::<Takes, R>(rt, pass) else {
            continue;
        };
        match item.message.proposal() {
            Some(proposal) => return Some((item.worker, proposal)),
            None => over[item.worker as usize] = true,
        }
    }
    unreachable!()
}

/// Takes what comes next if it has come: a proposal, or an end, which is marked.
pub(crate) fn take_at_once<R: Wait>(
    rt: &R,
    front: &Front,
    pass: &mut LanePass,
    over: &mut [bool; 8],
) -> Option<(u32, Proposal<RESOURCES>)>
    requires seat { IsSeatAt (receives_on front.now) pass.old }
    requires takes { view pass.old ≡ taker (view pass.old).took [] }
    requires flags { Flags over.old (view pass.old).took }
    ensures seat { IsSeatAt (receives_on front.now) pass.new }
    ensures same { SameSeat pass.old pass.new }
    ensures takes { view pass.new ≡ taker (view pass.new).took [] }
    ensures flags { Flags over.new (view pass.new).took }
    ensures some { IfSome result (IsNext over.old (taken_in pass.old) (taken_in pass.new)) }
    ensures none { IfNone result (taken_in pass.new ≡ taken_in pass.old) }
    ensures kept { StayOver over.old over.new }
{
    let Ok(item) = front.try_recv_as::<Takes, R>(rt, pass) else {
        return None;
    };
    match item.message.proposal() {
        Some(proposal) => Some((item.worker, proposal)),
        None => {
            over[item.worker as usize] = true;
            None
        }
    }
}

/// The committer's pass takes over the lane of a worker.
fn gather(back: &Back, pass: &mut LanePass, ended: Ended)
    requires seat { IsSeatAt (sends_on back.now) pass.old }
    requires lanes { ended.lanes ≡ lanes_id (sends_on back.now) }
    requires takes { (view pass.old).takes ≡ true }
    ensures same { SameSeat pass.old pass.new × (pass.new.me.1 ≡ []) }
    ensures lane { HasLaneOf ended pass.old pass.new }
{
    let Ended {
        worker: _,
        back: _,
        pass: own,
    } = ended;
    back.absorb::<Handover>(pass, own);
}

/// The committer's pass takes over the lanes of all eight workers.
pub(crate) fn gather_all(back: &Back, pass: &mut LanePass, ended: [Ended; 8])
    requires seat { IsSeatAt (sends_on back.now) pass.old }
    requires lanes { AllOf (lanes_id (sends_on back.now)) ended }
    requires takes { view pass.old ≡ taker (view pass.old).took [] }
    ensures same { SameSeat pass.old pass.new × (pass.new.me.1 ≡ []) }
    ensures lanes { HasLanesOf ended pass.old pass.new }
    ensures eight { length (view pass.new).lanes ≡ 8 }
{
    for e in ended {
        gather(back, pass, e);
    }
}

/// Takes what is left, once all eight workers have ended. There is room for it.
pub(crate) fn take_rest<R: Wait>(
    rt: &R,
    back: &Back,
    front: &Front,
    pass: &mut LanePass,
    left: &mut Vec<(u32, Proposal<RESOURCES>)>,
)
    requires back { IsSeatAt (sends_on back.now) pass.old }
    requires front { IsSeatAt (receives_on front.now) pass.old }
    requires takes { (view pass.old).takes ≡ true }
    requires eight { length (view pass.old).lanes ≡ 8 }
    requires empty { left.old.items ≡ [] }
    requires room { 1024 ≤ vec_capacity left.old }
    ensures each { (w : ℕ) → AreAllIn w pass.old left.new.items }
    ensures none { AllEnded (view pass.old).took → left.new.items ≡ [] }
    ensures once { (w : ℕ) → w < 8 → times w (view pass.old).lanes ≡ 1 }
{
    back.learn_as::<Takes>(pass);
    for _ in rt.forever() {
        match front.try_recv_as::<Takes, R>(rt, pass) {
            Ok(item) => match item.message.proposal() {
                Some(proposal) => left.push_reserved((item.worker, proposal)),
                None => {}
            },
            Err(_) => return,
        }
    }
    unreachable!()
}
