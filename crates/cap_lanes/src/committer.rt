//! The committer's end of the lanes (`Committer`), and what is left when they are closed (`LanesClosed`).
ghost use Rattle.std.specs.Prelude.{◌≡◌, ◌<◌, ◌↔◌, ℕ, [], ◌++◌, IfSome, IfNone, IsTrue};
ghost use Rattle.cap_lanes.specs.Items.{tagged};
ghost use Rattle.cap_lanes.specs.Sides.{AllOf, AllOver, IsTakenNext, StayOver, ends_of, put_by};

use crate::putter::Ended;
use crate::putting::{Back, LanePass};
use crate::taking::{Front, all_over, gather_all, take_at_once, take_next, take_rest};
use cap_base::RESOURCES;
use cap_model::Proposal;
use std::marker::Model;
use std::sync::Wait;

/// What the committer takes proposals with. Contracts see which lanes it is of, the proposals that it took, in order and each with
/// its worker's number, and of which workers it took the end.
#[derive(Drop)]
pub struct Committer {
    pub(crate) back: Back,
    pub(crate) front: Front,
    pub(crate) pass: LanePass,
    pub(crate) over: [bool; 8],
    pub(crate) left: Vec<(u32, Proposal<RESOURCES>)>,
}

impl Model for Committer {
    ghost use Rattle.cap_lanes.specs.Sides.{CommitterSide};

    ghost Value = { CommitterSide };

    ghost use Rattle.std.specs.Prelude.{vec_capacity};
    ghost use Rattle.crossbeam_channel.specs.Ends.{sends_on, receives_on};
    ghost use Rattle.cap_lanes.specs.Ends.{lanes_id, taken_in, IsCommitter};

    ghost view = { λ c. record {
      lanes = lanes_id (sends_on c.back);
      taken = taken_in c.pass;
      over = c.over;
    } };

    ghost invariant = { λ c. IsCommitter (sends_on c.back) (receives_on c.front) c.pass c.over
        c.left.items (vec_capacity c.left) };
}

/// The proposals that the committer had not taken when the lanes were closed, each with its worker's number. Those of one worker stand in
/// the order in which it put them.
#[derive(Drop)]
pub struct LanesClosed {
    pub left: Vec<(u32, Proposal<RESOURCES>)>,
}

impl Committer {
    /// Takes the next proposal, with the number of the worker that put it, and waits for it. None once the ends of all eight workers
    /// were taken. It takes no memory.
    pub fn take<R: Wait>(&mut self, rt: &R) -> Option<(u32, Proposal<RESOURCES>)>
        ensures lanes { self.new.lanes ≡ self.old.lanes }
        ensures some { IfSome result (IsTakenNext self.old self.new) }
        ensures none { IfNone result ((self.new.taken ≡ self.old.taken) × AllOver self.new.over) }
        ensures kept { StayOver self.old.over self.new.over }
    {
        take_next(rt, &self.front, &mut self.pass, &mut self.over)
    }

    /// Takes what comes next if it has come, and does not wait for it: a proposal, with the number of the worker that put it. None if nothing
    /// has come, or if it is the end of a worker. It takes no memory.
    pub fn try_take<R: Wait>(&mut self, rt: &R) -> Option<(u32, Proposal<RESOURCES>)>
        ensures lanes { self.new.lanes ≡ self.old.lanes }
        ensures some { IfSome result (IsTakenNext self.old self.new) }
        ensures none { IfNone result (self.new.taken ≡ self.old.taken) }
        ensures kept { StayOver self.old.over self.new.over }
    {
        take_at_once(rt, &self.front, &mut self.pass, &mut self.over)
    }

    /// Whether the ends of all eight workers were taken. Then nothing comes any more.
    pub fn is_over(&self) -> bool
        ensures { IsTrue result ↔ AllOver self.now.over }
    {
        all_over(&self.over)
    }

    /// Closes the lanes, once all eight workers have finished: takes what the channel still holds. What each worker put is what was
    /// taken of it, and then what is left of it. It takes no memory.
    pub fn close<R: Wait>(self, rt: &R, ended: [Ended; 8]) -> LanesClosed
        requires { AllOf self.lanes ended }
        ensures each { (w : ℕ) →
            tagged w self.taken ++ tagged w result.left.items ≡ put_by w ended }
        ensures empty { AllOver self.over → result.left.items ≡ [] }
        ensures once { (w : ℕ) → w < 8 → ends_of w ended ≡ 1 }
    {
        let Committer {
            back,
            front,
            mut pass,
            over: _,
            mut left,
        } = self;
        gather_all(&back, &mut pass, ended);
        take_rest(rt, &back, &front, &mut pass, &mut left);
        LanesClosed { left }
    }
}
