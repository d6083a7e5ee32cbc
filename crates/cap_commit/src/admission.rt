//! Whether a proposal may be made, and the first reason why not (`Cluster::admit`, `Cluster::reason`).
ghost use Rattle.std.specs.Prelude.{◌≡◌, ◌&&◌, ◌||◌, Some, IfSome, IfOk, option_map};
ghost use Rattle.std.specs.Option.{option_or};
ghost use Rattle.std.specs.Result.{result_err};
ghost use Rattle.cap_base.specs.Cascade.{earliest};
ghost use Rattle.cap_model.specs.Flat.{app_at, is_for};
ghost use Rattle.cap_model.specs.Sight.{app_sight, seen_app, seen_node, sight_of};
ghost use Rattle.cap_model.specs.Admission.{asks_resource, fits_free, fits_total, is_grant, is_wanted, node_reservation, proposed_ask, reason_of, suits_place};
ghost use Rattle.cap_vector.specs.Vector.{Fits};
ghost use Rattle.cap_asks.specs.Apps.{account_of};
ghost use Rattle.cap_commit.specs.Admission.{is_own, limit_tests, load_sight, size_tests, taken_back};

use crate::cluster::Cluster;
use cap_asks::App;
use cap_model::{Ask, LIVE_MAX, NUMBER_END, Proposal, Reason, Reservation, takes_place};
use cap_nodes::Load;
use cap_tree::OverLimit;
use cap_vector::{Resource, fits};

impl<const K: usize> Cluster<K> {
    /// The first reason to reject a proposal now, none exactly where it may be made. It takes no memory, and looks at one
    /// application, one of its asks, the reservations for it, one node and its reservation, and the queues from `root` to the
    /// application's leaf; and at no more of these than the tests up to that reason need.
    pub fn reason(&self, proposal: &Proposal<K>) -> Option<Reason>
        ensures { result ≡ reason_of (sight_of self.now.flat) proposal.now }
    {
        self.admit(proposal).err()
    }

    /// Where a proposal may be made now, the room that it takes back, in MiB, vcores and GPUs: 0 of each where it converts no
    /// reservation. Else the first reason to reject it. It takes no memory, and looks at no more than `reason` does.
    pub fn admit(&self, proposal: &Proposal<K>) -> Result<Resource<K>, Reason>
        ensures reason { result_err result ≡ reason_of (sight_of self.now.flat) proposal.now }
        ensures old { IfOk result (λ old. old ≡ taken_back (sight_of self.now.flat) proposal.now) }
    {
        let Some(app) = self.registered(proposal.app()) else {
            return Err(Reason::NoApp);
        };
        let Some(ask) = app.ask(&proposal.key()) else {
            return Err(Reason::NoAsk);
        };
        let load = self.load(proposal);
        let held = self.held(proposal, load);
        let own = self.is_own(proposal, &held);
        if !self.wants(proposal, &ask, own) {
            return Err(Reason::NoAsk);
        }
        if !self.asks_resource(proposal, &ask) {
            return Err(Reason::OtherAsk);
        }
        let Some(load) = load else {
            return Err(Reason::NoNode);
        };
        if !self.suits(proposal, &ask, load) {
            return Err(Reason::WrongPlace);
        }
        if held.is_some() & !own {
            return Err(Reason::ReservedByOther);
        }
        let free = self.fits_free(proposal, load);
        if proposal.is_grant() & !free {
            return Err(Reason::NoRoom);
        }
        let old = self.taken_back(proposal, &held, own);
        if let Some(reason) = self.limit_reason(proposal, app, &old) {
            return Err(reason);
        }
        match self.size_reason(proposal, load, free) {
            Some(reason) => Err(reason),
            None => Ok(old),
        }
    }

    /// The registered application of a number.
    fn registered(&self, number: u64) -> Option<&App<K>>
        ensures seen { option_map (λ app. app_sight app.now.app) result
            ≡ seen_app (sight_of self.now.flat) number }
        ensures app { IfSome result (λ app. app_at self.now.flat number ≡ Some app.now.app) }
        ensures account { IfSome result
            (λ app. account_of number self.now.accounts ≡ Some app.now.account) }
    {
        self.apps.numbers_rise();
        let Some(app) = self.apps.app(number) else {
            return None;
        };
        if !app.is_registered() {
            return None;
        }
        Some(app)
    }

    /// The node of a proposal, with what it has left and the reservation that it holds.
    fn load(&self, proposal: &Proposal<K>) -> Option<&Load<K>>
        ensures seen { option_map (λ load. load_sight load.now) result
            ≡ seen_node (sight_of self.now.flat) proposal.now.node }
        ensures fits { IfSome result (λ load. Fits load.now.held load.now.node.total) }
    {
        let Some(load) = self.nodes.load(proposal.node()) else {
            return None;
        };
        Some(load)
    }

    /// The reservation that the node of a proposal holds.
    fn held(&self, proposal: &Proposal<K>, load: Option<&Load<K>>) -> Option<Reservation<K>>
        requires { option_map (λ load. load_sight load.now) load
            ≡ seen_node (sight_of self.now.flat) proposal.now.node }
        ensures { result ≡ node_reservation (sight_of self.now.flat) proposal.now }
    {
        match load {
            Some(load) => load.reservation(),
            None => None,
        }
    }

    /// Whether it is a grant that converts the reservation that its node holds.
    fn is_own(&self, proposal: &Proposal<K>, held: &Option<Reservation<K>>) -> bool
        requires { held.now ≡ node_reservation (sight_of self.now.flat) proposal.now }
        ensures { result ≡ is_own (sight_of self.now.flat) proposal.now }
    {
        match held {
            Some(reservation) => converts(proposal, reservation),
            None => false,
        }
    }

    /// Whether a container is wanted for the ask beyond those that room is reserved for, or the proposal converts a reservation.
    fn wants(&self, proposal: &Proposal<K>, ask: &Ask<K>, own: bool) -> bool
        requires ask { proposed_ask (sight_of self.now.flat) proposal.now ≡ Some ask.now }
        requires own { own ≡ is_own (sight_of self.now.flat) proposal.now }
        ensures { result ≡ (is_wanted (sight_of self.now.flat) proposal.now
            || is_own (sight_of self.now.flat) proposal.now) }
    {
        self.nodes.numbers_rise();
        own || ask.count() > self.nodes.reserved_for(proposal.app(), &ask.key())
    }

    /// Whether the ask is for this very resource.
    fn asks_resource(&self, proposal: &Proposal<K>, ask: &Ask<K>) -> bool
        requires { proposed_ask (sight_of self.now.flat) proposal.now ≡ Some ask.now }
        ensures { result ≡ asks_resource (sight_of self.now.flat) proposal.now }
    {
        ask.resource().amounts() == proposal.resource().amounts()
    }

    /// Whether the ask's place is anywhere, the node's host or its rack.
    fn suits(&self, proposal: &Proposal<K>, ask: &Ask<K>, load: &Load<K>) -> bool
        requires ask { proposed_ask (sight_of self.now.flat) proposal.now ≡ Some ask.now }
        requires seen { seen_node (sight_of self.now.flat) proposal.now.node
            ≡ Some (load_sight load.now) }
        ensures { result ≡ suits_place (sight_of self.now.flat) proposal.now }
    {
        let node = load.node();
        takes_place(&ask.place(), node.host(), node.rack())
    }

    /// Whether the resource fits what the node has left.
    fn fits_free(&self, proposal: &Proposal<K>, load: &Load<K>) -> bool
        requires seen { seen_node (sight_of self.now.flat) proposal.now.node
            ≡ Some (load_sight load.now) }
        requires fits { Fits load.now.held load.now.node.total }
        ensures { result ≡ fits_free (sight_of self.now.flat) proposal.now }
    {
        fits(&proposal.resource(), &load.free())
    }

    /// Whether the resource fits what the node has in all.
    fn fits_total(&self, proposal: &Proposal<K>, load: &Load<K>) -> bool
        requires { seen_node (sight_of self.now.flat) proposal.now.node
            ≡ Some (load_sight load.now) }
        ensures { result ≡ fits_total (sight_of self.now.flat) proposal.now }
    {
        fits(&proposal.resource(), &load.node().total())
    }

    /// The room that the proposal takes back, in MiB, vcores and GPUs: 0 of each where it converts no reservation.
    fn taken_back(
        &self,
        proposal: &Proposal<K>,
        held: &Option<Reservation<K>>,
        own: bool,
    ) -> Resource<K>
        requires held { held.now ≡ node_reservation (sight_of self.now.flat) proposal.now }
        requires own { own ≡ is_own (sight_of self.now.flat) proposal.now }
        ensures { result ≡ taken_back (sight_of self.now.flat) proposal.now }
    {
        match held {
            Some(reservation) if own => reservation.resource(),
            _ => Resource::zero(),
        }
    }

    /// The first reason of those that look at the maximum capacities of queues and at the user limit.
    fn limit_reason(
        &self,
        proposal: &Proposal<K>,
        app: &App<K>,
        old: &Resource<K>,
    ) -> Option<Reason>
        requires seen { seen_app (sight_of self.now.flat) proposal.now.app
            ≡ Some (app_sight app.now.app) }
        requires app { app_at self.now.flat proposal.now.app ≡ Some app.now.app }
        requires account { account_of proposal.now.app self.now.accounts ≡ Some app.now.account }
        requires old { old.now ≡ taken_back (sight_of self.now.flat) proposal.now }
        ensures { earliest (limit_tests (sight_of self.now.flat) proposal.now) ≡ option_or
            result (earliest (size_tests (sight_of self.now.flat) proposal.now)) }
    {
        let tree = &*self.tree;
        match tree.accept(app.position(), app.user(), old, &proposal.resource()) {
            Ok(()) => None,
            Err(OverLimit::Maximum { level }) => Some(Reason::OverMaximum { level }),
            Err(OverLimit::User) => Some(Reason::OverUser),
        }
    }

    /// The first reason of those that look at what the cluster and the node can have.
    fn size_reason(&self, proposal: &Proposal<K>, load: &Load<K>, free: bool) -> Option<Reason>
        requires seen { seen_node (sight_of self.now.flat) proposal.now.node
            ≡ Some (load_sight load.now) }
        requires free { free ≡ fits_free (sight_of self.now.flat) proposal.now }
        ensures { result ≡ earliest (size_tests (sight_of self.now.flat) proposal.now) }
    {
        if self.nodes.live_count() >= LIVE_MAX {
            return Some(Reason::TooManyLive);
        }
        if !proposal.is_grant() && free {
            return Some(Reason::FitsNow);
        }
        if !proposal.is_grant() && !self.fits_total(proposal, load) {
            return Some(Reason::NeverFits);
        }
        if self.nodes.next_container() >= NUMBER_END {
            return Some(Reason::NumbersSpent);
        }
        None
    }
}

/// Whether a proposal is a grant that may convert the reservation: it is for the same application and key.
fn converts<const K: usize>(proposal: &Proposal<K>, reservation: &Reservation<K>) -> bool
    ensures { result ≡
        (is_grant proposal.now.kind && is_for proposal.now.app proposal.now.key reservation.now) }
{
    proposal.is_grant()
        && reservation.app() == proposal.app()
        && reservation.key().is_same(&proposal.key())
}
