//! Making a proposal, a grant or a reservation, exactly where it is admissible now (`Cluster::make`, `Cluster::try_commit`).
ghost use Rattle.std.specs.Prelude.{◌≡◌, ◌+◌, None, IsSome, IfOk, OnOk, OnErr, true, false};
ghost use Rattle.cap_model.specs.Flat.{app_at};
ghost use Rattle.cap_model.specs.Sight.{sight_of};
ghost use Rattle.cap_model.specs.Admission.{IsAdmissible, is_grant, reason_of};
ghost use Rattle.cap_model.specs.Verdicts.{IsOf, IsVerdict};
ghost use Rattle.cap_model.specs.Events.{Step, after_grant, after_reserve, grant_proposal, reserve_proposal};
ghost use Rattle.cap_asks.specs.Apps.{HasRooms, UsesRoom, live_of};
ghost use Rattle.cap_commit.specs.Admission.{taken_back};
ghost use Rattle.cap_commit.specs.Making.{KeepsIfRejected, event_of_made};

use crate::cluster::Cluster;
use crate::following::follow_app;
use crate::made::Made;
use cap_model::{Container, Grant, NoMemory, Proposal, Reservation, Verdict};
use cap_vector::Resource;

impl<const K: usize> Cluster<K> {
    /// Makes room for one more grant of an active application, and for the ends of all its live containers and of one more.
    /// `NoMemory` changes nothing that calls see.
    fn room_for_grant(&mut self, number: u64) -> Result<(), NoMemory>
        requires { IsSome (app_at self.old.flat number) }
        ensures flat { self.new.flat ≡ self.old.flat }
        ensures rows { self.new.rows ≡ self.old.rows }
        ensures ok { OnOk result
            (HasRooms number 0 1 (live_of number self.new.accounts + 1) self.new.accounts) }
    {
        let Some(app) = self.apps.app(number) else {
            unreachable!()
        };
        let ends = app.live() as usize + 1;
        self.room(number, 0, 1, ends)
    }

    /// Makes a grant that may be made: the container takes the next number and becomes live, the reservation of its node is
    /// converted and the room for it taken back, its ask falls by one, and it is to be reported to its application. `NoMemory`
    /// changes nothing that calls see.
    fn grant(&mut self, proposal: &Proposal<K>, old: &Resource<K>) -> Result<Container<K>, NoMemory>
        requires kind { is_grant proposal.now.kind ≡ true }
        requires passes { reason_of (sight_of self.old.flat) proposal.now ≡ None }
        requires old { old.now ≡ taken_back (sight_of self.old.flat) proposal.now }
        ensures proposed { IfOk result (λ c. grant_proposal c ≡ proposal.now) }
        ensures number { IfOk result (λ c. c.number ≡ self.old.flat.nodes.next_container) }
        ensures ok { IfOk result (λ c. self.new.flat ≡ after_grant self.old.flat c) }
        ensures err { OnErr result (self.new.flat ≡ self.old.flat) }
    {
        let (app, key, node) = (proposal.app(), proposal.key(), proposal.node());
        let (resource, old) = (proposal.resource(), old.copied());
        match self.room_for_grant(app) {
            Ok(()) => {}
            Err(NoMemory) => return Err(NoMemory),
        }
        let number = match self.nodes.place(app, &key, node, &resource) {
            Ok(number) => number,
            Err(NoMemory) => return Err(NoMemory),
        };
        self.nodes.unreserve(node);
        let Some(home) = self.nodes.node(node) else {
            unreachable!()
        };
        let grant = Grant::new(number, &key, node, home.host(), &resource);
        let Some(owner) = self.apps.app(app) else {
            unreachable!()
        };
        let tree = &mut *self.tree;
        tree.apply(owner.position(), owner.user(), &old, &resource);
        self.apps.numbers_rise();
        self.apps.take_one(app, &key);
        self.apps.add_grant(app, &grant);
        let tree = &mut *self.tree;
        let is_left = follow_app(tree, &self.apps, app);
        self.asleep = self.asleep | is_left;
        Ok(Container {
            number,
            app,
            key,
            node,
            resource,
        })
    }

    /// Makes a reservation that may be made, after all others. `NoMemory` changes nothing.
    fn reserve(&mut self, proposal: &Proposal<K>) -> Result<Reservation<K>, NoMemory>
        requires kind { is_grant proposal.now.kind ≡ false }
        requires passes { reason_of (sight_of self.old.flat) proposal.now ≡ None }
        ensures proposed { IfOk result (λ r. reserve_proposal r ≡ proposal.now) }
        ensures ok { IfOk result (λ r. self.new.flat ≡ after_reserve self.old.flat r) }
        ensures err { OnErr result (self.new.flat ≡ self.old.flat) }
    {
        let (app, key, node) = (proposal.app(), proposal.key(), proposal.node());
        let resource = proposal.resource();
        match self.nodes.reserve(app, &key, node, &resource) {
            Ok(()) => {}
            Err(NoMemory) => return Err(NoMemory),
        }
        let Some(owner) = self.apps.app(app) else {
            unreachable!()
        };
        let old = Resource::zero();
        let tree = &mut *self.tree;
        tree.apply(owner.position(), owner.user(), &old, &resource);
        Ok(Reservation {
            app,
            key,
            node,
            resource,
        })
    }

    /// Makes a proposal that `admit` has found admissible, and takes back the room that it said: the grant or the reservation is the
    /// result. `NoMemory` changes nothing that calls see.
    pub fn make(&mut self, proposal: &Proposal<K>, old: &Resource<K>) -> Result<Made<K>, NoMemory>
        requires passes { reason_of (sight_of self.old.flat) proposal.now ≡ None }
        requires old { old.now ≡ taken_back (sight_of self.old.flat) proposal.now }
        ensures of { IfOk result (λ made. IsOf proposal.now (event_of_made made)) }
        ensures step { IfOk result (λ made. Step self.old.flat (event_of_made made) self.new.flat) }
        ensures err { OnErr result (self.new.flat ≡ self.old.flat) }
    {
        if proposal.is_grant() {
            match self.grant(proposal, old) {
                Ok(container) => Ok(Made::Grant(container)),
                Err(NoMemory) => Err(NoMemory),
            }
        } else {
            match self.reserve(proposal) {
                Ok(reservation) => Ok(Made::Reserve(reservation)),
                Err(NoMemory) => Err(NoMemory),
            }
        }
    }

    /// Tries a proposal: it is made exactly where it is admissible now, whatever was seen before. Else it is rejected for the first
    /// reason that holds, and nothing changes at all, room included. `NoMemory` comes only where it is admissible, and changes
    /// nothing that calls see.
    pub fn try_commit(&mut self, proposal: Proposal<K>) -> Result<Verdict<K>, NoMemory>
        ensures ok { IfOk result (IsVerdict proposal.entry self.old.flat self.new.flat) }
        ensures rejected { IfOk result (KeepsIfRejected self.old self.new) }
        ensures admissible { OnErr result (IsAdmissible (sight_of self.old.flat) proposal.entry) }
        ensures err { OnErr result (self.new.flat ≡ self.old.flat) }
    {
        self.nodes();
        let old = match self.admit(&proposal) {
            Ok(old) => old,
            Err(reason) => return Ok(Verdict::Rejected(reason)),
        };
        match self.make(&proposal, &old) {
            Ok(made) => Ok(Verdict::Done(made.event())),
            Err(NoMemory) => Err(NoMemory),
        }
    }
}
