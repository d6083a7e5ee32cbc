//! What a proposal looks at (`Farm`), and the ring of its nodes (`wrapped`).
ghost use Rattle.std.specs.Prelude.{◌≡◌, ℕ, ◌<◌, ◌≤◌, true, IfSome, MatchOption, None, Option, Some, length, option_and_then, option_map};
ghost use Rattle.std.specs.List.{slice_get};
ghost use Rattle.cap_base.specs.Amounts.{fits};
ghost use Rattle.cap_base.specs.Cascade.{holds_of};
ghost use Rattle.cap_model.specs.Admission.{takes_place};
ghost use Rattle.cap_model.specs.Flat.{ask_at};
ghost use Rattle.cap_model.specs.declared.ask.Key.{Key as Wish};
ghost use Rattle.cap_model.specs.Sight.{AppSight, Sight, seen_app, still_wanted};
ghost use Rattle.cap_farm.specs.Offers.{IsWhole};
ghost use Rattle.cap_farm.specs.Ring.{IsReserved, IsTurn, ring_index};
ghost use Rattle.cap_farm.specs.Rooms.{AreImpossible, IsIdle, IsShut, IsUnfit, in_limits};
ghost use Rattle.cap_farm.specs.Service.{HasNoNextApp, IsNextApp};

use cap_model::{Ask, Key, Reservation, ShortText};
use cap_vector::Resource;

/// What a proposal looks at: nodes in order of number, each known by its index, and the registered applications that have asks, in the
/// order of service. Contracts see the sight of a cluster.
pub trait Farm<const K: usize> {
    /// An application of it.
    type App: Copy;

    ghost sight: { Self → Sight K };

    ghost shown: { Self → Self.App → AppSight };

    ghost has: { Self → Self.App → Type 0 };

    /// An application that the walk in the order of service gives, from which it goes on.
    ghost served: { Self → Self.App → Type 0 };

    /// How many nodes there are.
    fn node_count(&self) -> usize
        ensures count { result ≡ length (sight self.now).nodes }
        ensures whole { IsWhole (sight self.now) };

    /// A turn of the ring from the node at index `first` on, from `turn` on, before which each node holds a reservation.
    fn next_unreserved(&self, first: usize, turn: usize) -> usize
        requires first { first < length (sight self.now).nodes }
        requires turn { turn ≤ length (sight self.now).nodes }
        ensures { IsTurn IsReserved (sight self.now).nodes first turn result };

    /// The same, before which no node can convert one: it holds none, or what it has left has no room for the ask. It may stop at
    /// `end`.
    fn next_reserved(&self, first: usize, turn: usize, end: usize) -> usize
        requires first { first < length (sight self.now).nodes }
        requires turn { turn ≤ end }
        requires end { end ≤ length (sight self.now).nodes }
        ensures { IsTurn (IsIdle (sight self.now)) (sight self.now).nodes first turn result };

    /// The same, before which no node takes the ask: each holds a reservation, is elsewhere, or has too little room in all.
    fn next_fit(&self, first: usize, turn: usize, ask: &Ask<K>) -> usize
        requires first { first < length (sight self.now).nodes }
        requires turn { turn ≤ length (sight self.now).nodes }
        ensures { IsTurn (IsUnfit ask.now) (sight self.now).nodes first turn result };

    /// The number of a node.
    fn number(&self, index: usize) -> u64
        requires { index < length (sight self.now).nodes }
        ensures { option_map (λ node. node.number) (slice_get (sight self.now).nodes index)
            ≡ Some result };

    /// Whether so much fits what a node has left.
    fn fits_free(&self, index: usize, resource: &Resource<K>) -> bool
        requires { index < length (sight self.now).nodes }
        ensures { result ≡
            holds_of (λ node. fits resource.now node.free) (slice_get (sight self.now).nodes index) };

    /// Whether so much fits what a node has in all.
    fn fits_total(&self, index: usize, resource: &Resource<K>) -> bool
        requires { index < length (sight self.now).nodes }
        ensures { result ≡ holds_of
            (λ node. fits resource.now node.total) (slice_get (sight self.now).nodes index) };

    /// Whether a place is anywhere, a node's host or its rack.
    fn is_at(&self, index: usize, place: &ShortText) -> bool
        requires { index < length (sight self.now).nodes }
        ensures { result ≡ holds_of (takes_place place.now) (slice_get (sight self.now).nodes index) };

    /// The reservation that a node holds, if any.
    fn reservation(&self, index: usize) -> Option<Reservation<K>>
        requires { index < length (sight self.now).nodes }
        ensures { result ≡
            option_and_then (λ node. node.reservation) (slice_get (sight self.now).nodes index) };

    /// The application that is served first, none where none has asks. It may leave out those that are shut: none of their asks may be
    /// proposed on a node that holds no reservation.
    fn first_app(&self) -> Option<Self::App>
        ensures has { IfSome result (λ app. has self.now app) }
        ensures served { IfSome result (λ app. served self.now app) }
        ensures first { MatchOption result (HasNoNextApp (sight self.now) None)
            (λ next. IsNextApp (sight self.now) None (shown self.now next)) };

    /// The application that is served next after that one, which this walk gave, none where none is left. It may leave out those that
    /// are shut, in the same way.
    fn next_app(&self, last: Self::App) -> Option<Self::App>
        requires has { has self.now last }
        requires served { served self.now last }
        ensures has { IfSome result (λ app. has self.now app) }
        ensures served { IfSome result (λ app. served self.now app) }
        ensures next { MatchOption result (HasNoNextApp (sight self.now) (Some (shown self.now last)))
            (λ next. IsNextApp (sight self.now) (Some (shown self.now last)) (shown self.now next)) };

    /// The registered application of a number, if it has asks.
    fn app_of(&self, number: u64) -> Option<Self::App>
        ensures has { IfSome result (λ app. has self.now app) }
        ensures found { IfSome result (λ found.
            seen_app (sight self.now) number ≡ Some (shown self.now found)) }
        ensures none { result ≡ None → (other : AppSight) (key : Wish) →
            seen_app (sight self.now) number ≡ Some other → ask_at key other.asks ≡ None };

    /// The number of an application.
    fn app_number(&self, of: Self::App) -> u64
        requires { has self.now of }
        ensures { result ≡ (shown self.now of).number };

    /// How many asks an application has.
    fn ask_count(&self, of: Self::App) -> usize
        requires { has self.now of }
        ensures { result ≡ length (shown self.now of).asks };

    /// An ask of an application, in order of key.
    fn ask(&self, of: Self::App, index: usize) -> &Ask<K>
        requires has { has self.now of }
        requires index { index < length (shown self.now of).asks }
        ensures { slice_get (shown self.now of).asks index ≡ Some result.now };

    /// The ask of a key of an application, if there is one.
    fn ask_of(&self, of: Self::App, key: &Key) -> Option<&Ask<K>>
        requires { has self.now of }
        ensures { option_map (λ ask. ask.now) result ≡ ask_at key.now (shown self.now of).asks };

    /// How many containers an ask of an application wants beyond those that nodes keep room for.
    fn wanted(&self, of: Self::App, index: usize) -> u32
        requires has { has self.now of }
        requires index { index < length (shown self.now of).asks }
        ensures { option_map (still_wanted (sight self.now) (shown self.now of).number)
            (slice_get (shown self.now of).asks index) ≡ Some result };

    /// Whether the use of an application's queues and user stays within their limits with `old` taken away and `new` added, in MiB, vcores
    /// and GPUs.
    fn stays_within(&self, of: Self::App, old: &Resource<K>, new: &Resource<K>) -> bool
        requires { has self.now of }
        ensures { result ≡ in_limits (sight self.now) (shown self.now of) old.now new.now };

    /// Whether it is known at once, with no look at its asks, that none of them may be proposed on a node that holds no reservation:
    /// each is more than any node takes, or more than its limits allow. False where that is not sure.
    fn is_shut(&self, of: Self::App) -> bool
        requires { has self.now of }
        ensures { result ≡ true → IsShut (sight self.now) (shown self.now of) };

    /// The index of an ask of an application, from `from` on, before which no ask may be taken by any node that holds no
    /// reservation. It may stop early.
    fn next_possible(&self, of: Self::App, from: usize) -> usize
        requires has { has self.now of }
        requires from { from ≤ length (shown self.now of).asks }
        ensures { AreImpossible (sight self.now) (shown self.now of).asks from result };

    /// How many containers are live.
    fn live(&self) -> usize
        ensures { result ≡ (sight self.now).live };

    /// The number of the next container.
    fn next_container(&self) -> u64
        ensures { result ≡ (sight self.now).next_container };
}

/// The index of the node that is so many after the first, where the first comes again after the last.
pub fn wrapped(first: usize, turn: usize, count: usize) -> usize
    requires first { first < count }
    requires turn { turn < count }
    ensures within { result < count }
    ensures ring { result ≡ ring_index first turn count }
{
    if turn < count - first {
        first + turn
    } else {
        turn - (count - first)
    }
}
