//! The choice of a proposal, on one node and from a starting node over the ring of all nodes (`propose_on`).
ghost use Rattle.std.specs.Prelude.{◌≡◌, ◌<◌, ◌≤◌, None, Some, length};
ghost use Rattle.std.specs.List.{slice_get};
ghost use Rattle.cap_model.specs.Candidates.{choice_from, choice_on};
ghost use Rattle.cap_model.specs.Sight.{NodeSight};
ghost use Rattle.cap_choice.specs.Admitting.{IsFirstTaker};
ghost use Rattle.cap_choice.specs.Nearest.{IsNearestBefore, IsNearestUpTo};
ghost use Rattle.cap_choice.specs.Sizes.{FarmFitsInMemory};
ghost use Rattle.cap_farm.specs.Offers.{IsOffer, IsWhole};
ghost use Rattle.cap_farm.specs.Ring.{IsReserved, IsTurn};
ghost use Rattle.cap_farm.specs.Rooms.{IsUnfit};
ghost use Rattle.cap_farm.specs.Service.{IsWaiter};

use crate::admission::{is_open, may_convert, proposal, taken_as};
use cap_farm::{Farm, wrapped};
use cap_model::{Ask, Proposal, ProposalKind};

/// What a scheduler thread proposes on what it sees, with the nodes as a ring from the node at `start` on (beyond the last it begins
/// again with the first): the choice on the first node that has one, `None` if no node has one. The choice on a node is the
/// admissible grant or reservation there that is served first: the less full queue first, from below `root` down to the leaf, then
/// the earlier application, then the smaller priority number and the smaller allocation request id.
pub fn propose_on<const K: usize, F: Farm<K>>(farm: &F, start: u32) -> Option<Proposal<K>>
    requires { FarmFitsInMemory K.row F.row }
    ensures { result ≡ choice_from (F.sight farm.now) start }
{
    let count = farm.node_count();
    if count == 0 {
        return None;
    }
    let first = start as usize % count;
    let nearest = nearest_taker(farm, first, count);
    let mut turn = farm.next_reserved(first, 0, nearest.turn);
    while turn < nearest.turn {
        if let Some(proposal) = conversion(farm, wrapped(first, turn, count)) {
            return Some(proposal);
        }
        turn = farm.next_reserved(first, turn + 1, nearest.turn);
    }
    nearest.proposal
}

/// A node of the ring that holds no reservation and takes an ask: how many nodes come before it, and the choice there. Where there is
/// none, all nodes come before it.
#[derive(Clone, Copy)]
struct Nearest<const K: usize> {
    turn: usize,
    proposal: Option<Proposal<K>>,
}

/// The nearest node that holds no reservation and takes an ask, in the ring from the node at index `first` on. It goes from one
/// application to the next in the order of service, and no further once the first node of the ring that holds no reservation takes
/// an ask. Applications that this walk leaves out are shut: none of their asks may be proposed on a node that holds no reservation.
fn nearest_taker<const K: usize, F: Farm<K>>(farm: &F, first: usize, count: usize) -> Nearest<K>
    requires fits { FarmFitsInMemory K.row F.row }
    requires whole { IsWhole (F.sight farm.now) }
    requires count { count ≡ length (F.sight farm.now).nodes }
    requires first { first < count }
    ensures { IsNearestBefore (F.sight farm.now) first None result.turn result.proposal }
{
    let mut nearest = Nearest {
        turn: count,
        proposal: None,
    };
    let least = farm.next_unreserved(first, 0);
    if least >= count {
        return nearest;
    }
    let mut next = farm.first_app();
    while let Some(app) = next {
        nearest = nearer_taker(farm, first, count, least, app, nearest);
        if nearest.turn <= least {
            return nearest;
        }
        next = farm.next_app(app);
    }
    nearest
}

/// The nearest taker where `nearest` is the one of all asks of applications that are served before that one: a node that takes one of
/// its asks, if one comes before it, and else `nearest`. The first `least` nodes of the ring hold reservations, so that none of
/// them takes an ask. An application that is shut to all its asks is passed over at once, and so are asks that no node could take.
/// Any other ask that no node fits is passed over by one search, then one that no limits allow, and then nodes are looked at.
fn nearer_taker<const K: usize, F: Farm<K>>(
    farm: &F,
    first: usize,
    count: usize,
    least: usize,
    app: F::App,
    mut nearest: Nearest<K>,
) -> Nearest<K>
    requires fits { FarmFitsInMemory K.row F.row }
    requires whole { IsWhole (F.sight farm.now) }
    requires count { count ≡ length (F.sight farm.now).nodes }
    requires first { first < count }
    requires least { IsTurn IsReserved (F.sight farm.now).nodes first 0 least }
    requires has { F.has farm.now app }
    requires waits { IsWaiter (F.sight farm.now) (F.shown farm.now app) }
    requires nearest { IsNearestBefore (F.sight farm.now) first (Some (F.shown farm.now app))
        nearest.turn nearest.proposal }
    ensures { IsNearestUpTo (F.sight farm.now) first (F.shown farm.now app)
        (length (F.shown farm.now app).asks) result.turn result.proposal }
{
    let asks = farm.ask_count(app);
    // Of a single ask the same is found out below, by the look at that ask.
    if asks > 1 && farm.is_shut(app) {
        return nearest;
    }
    let mut from = 0;
    while from < asks {
        if nearest.turn <= least {
            return nearest;
        }
        let index = farm.next_possible(app, from);
        if index >= asks {
            return nearest;
        }
        from = index + 1;
        let ask = farm.ask(app, index);
        let begin = farm.next_fit(first, 0, ask);
        if begin >= nearest.turn {
            continue;
        }
        if !is_open(farm, app, index, ask) {
            continue;
        }
        let Some(taker) = first_taker(farm, first, count, app, ask, begin, nearest.turn) else {
            continue;
        };
        let node = farm.number(wrapped(first, taker.turn, count));
        nearest = Nearest {
            turn: taker.turn,
            proposal: Some(proposal(taker.kind, farm.app_number(app), node, ask)),
        };
    }
    nearest
}

/// A node that takes an ask: how many nodes of the ring come before it, and as what it takes the ask.
#[derive(Clone, Copy)]
struct Taker {
    turn: usize,
    kind: ProposalKind,
}

/// The first node of the ring that takes the ask, `None` if none of the first `end` nodes takes it. It begins at the node that is
/// `begin` nodes after the first, before which none takes it.
fn first_taker<const K: usize, F: Farm<K>>(
    farm: &F,
    first: usize,
    count: usize,
    app: F::App,
    ask: &Ask<K>,
    begin: usize,
    end: usize,
) -> Option<Taker>
    requires fits { FarmFitsInMemory K.row F.row }
    requires whole { IsWhole (F.sight farm.now) }
    requires count { count ≡ length (F.sight farm.now).nodes }
    requires first { first < count }
    requires begin { IsTurn (IsUnfit ask.now) (F.sight farm.now).nodes first 0 begin }
    requires end { end ≤ count }
    requires offer { IsOffer (F.sight farm.now)
        (record { app = F.shown farm.now app; ask = ask.now }) }
    ensures { IsFirstTaker (F.sight farm.now) first end
        (record { app = F.shown farm.now app; ask = ask.now }) result }
{
    let mut turn = begin;
    while turn < end {
        if let Some(kind) = taken_as(farm, wrapped(first, turn, count), ask) {
            return Some(Taker { turn, kind });
        }
        turn = farm.next_fit(first, turn + 1, ask);
    }
    None
}

/// The choice on a node that holds a reservation: the grant of the ask that it is for, where that is admissible there.
fn conversion<const K: usize, F: Farm<K>>(farm: &F, index: usize) -> Option<Proposal<K>>
    requires fits { FarmFitsInMemory K.row F.row }
    requires whole { IsWhole (F.sight farm.now) }
    requires index { index < length (F.sight farm.now).nodes }
    ensures reserved { (node : NodeSight) → slice_get (F.sight farm.now).nodes index ≡ Some node →
        IsReserved node → result ≡ choice_on (F.sight farm.now) node.number }
    ensures unreserved { (node : NodeSight) → slice_get (F.sight farm.now).nodes index ≡ Some node
        → node.reservation ≡ None → result ≡ None }
{
    let Some(reservation) = farm.reservation(index) else {
        return None;
    };
    let Some(app) = farm.app_of(reservation.app()) else {
        return None;
    };
    let Some(ask) = farm.ask_of(app, &reservation.key()) else {
        return None;
    };
    if !may_convert(farm, index, &reservation, app, ask) {
        return None;
    }
    Some(proposal(
        ProposalKind::Grant,
        farm.app_number(app),
        farm.number(index),
        ask,
    ))
}
