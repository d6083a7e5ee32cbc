//! One worker of a world: its snapshot, its proposal, and the verdict of its last commit (`WorkerSlot`).
ghost use Rattle.std.specs.Prelude.{◌≡◌, None, Some, option_map};
ghost use Rattle.cap_base.specs.Limits.{resources};
ghost use Rattle.cap_model.specs.Candidates.{choice_from};
ghost use Rattle.cap_copy.specs.Snapshot.{sight_in};
ghost use Rattle.cap_world.specs.Worker.{with_choice, with_copy, with_verdict};

use cap_base::RESOURCES;
use cap_copy::Snapshot;
use cap_model::{Proposal, Verdict};
use cap_propose::propose;
use std::alloc::Global;
use std::marker::Model;

/// One worker: its snapshot, its proposal that is not committed yet, if any, and the verdict of its last commit, if any.
pub(crate) struct WorkerSlot {
    snapshot: Snapshot<RESOURCES, Global>,
    choice: Option<Proposal<RESOURCES>>,
    verdict: Option<Verdict<RESOURCES>>,
}

impl Drop for WorkerSlot {
    fn drop(self) {
        let WorkerSlot {
            snapshot: _,
            choice: _,
            verdict: _,
        } = self;
    }
}

impl Model for WorkerSlot {
    ghost use Rattle.std.specs.Coded.{codes};
    ghost use Rattle.cap_tree.specs.Queue.{users_code};
    ghost use Rattle.cap_world.specs.Worker.{WorkerState};

    ghost Value = { WorkerState };

    ghost coded = { Prim.hlevel (codes, users_code) };

    ghost view = { λ w. record { seen = w.snapshot; choice = w.choice; verdict = w.verdict } };
}

impl WorkerSlot {
    /// A worker with this snapshot, and nothing else.
    pub(crate) fn new(snapshot: Snapshot<RESOURCES, Global>) -> WorkerSlot
        ensures { result ≡ with_copy snapshot None }
    {
        WorkerSlot {
            snapshot,
            choice: None,
            verdict: None,
        }
    }

    /// Takes another snapshot. The proposal is dropped, and the verdict stays.
    pub(crate) fn renew(&mut self, snapshot: Snapshot<RESOURCES, Global>)
        ensures { self.new ≡ with_copy snapshot (Some self.old) }
    {
        self.snapshot = snapshot;
        self.choice = None;
    }

    /// The proposal that is not committed yet.
    pub(crate) fn choice(&self) -> Option<Proposal<RESOURCES>>
        ensures { result ≡ self.now.choice }
    {
        self.choice
    }

    /// The verdict of its last commit.
    pub(crate) fn verdict(&self) -> Option<&Verdict<RESOURCES>>
        ensures { option_map (λ verdict. verdict.now) result ≡ self.now.verdict }
    {
        self.verdict.as_ref()
    }

    /// Proposes on its snapshot, with the nodes as a ring from the node at `start` on. The choice takes the place of the proposal
    /// before, and none where there is none.
    pub(crate) fn propose(&mut self, start: u32)
        ensures { self.new ≡
            with_choice (choice_from (sight_in resources self.old.seen) start) self.old }
    {
        self.choice = propose(&self.snapshot, start);
    }

    /// Keeps the verdict of its proposal, which is dropped.
    pub(crate) fn conclude(&mut self, verdict: Verdict<RESOURCES>)
        ensures { self.new ≡ with_verdict verdict self.old }
    {
        self.choice = None;
        self.verdict = Some(verdict);
    }
}
