//! Whether an ask may be proposed on a node, and as what.
ghost use Rattle.std.specs.Prelude.{◌≡◌, ◌<◌, Some, false, length, true};
ghost use Rattle.std.specs.List.{slice_get};
ghost use Rattle.cap_model.specs.Sight.{NodeSight};
ghost use Rattle.cap_choice.specs.Admitting.{IsClosed, IsOpen, has_numbers, may_convert, may_hold};
ghost use Rattle.cap_choice.specs.Sizes.{FarmFitsInMemory};
ghost use Rattle.cap_farm.specs.Offers.{IsSeenApp, IsWhole};
ghost use Rattle.cap_farm.specs.Rooms.{kind_by_room, taken_as};

use cap_farm::Farm;
use cap_model::{Ask, LIVE_MAX, NUMBER_END, Proposal, ProposalKind, Reservation};
use cap_vector::Resource;

/// As what a node takes an ask: as a grant where what it has left has room, as a reservation where it has room in all. None where
/// it holds a reservation, is elsewhere, or has too little room.
pub(crate) fn taken_as<const K: usize, F: Farm<K>>(
    farm: &F,
    index: usize,
    ask: &Ask<K>,
) -> Option<ProposalKind>
    requires fits { FarmFitsInMemory K.row F.row }
    requires index { index < length (F.sight farm.now).nodes }
    ensures { (node : NodeSight) → slice_get (F.sight farm.now).nodes index ≡ Some node → result
        ≡ taken_as node ask.now }
{
    if farm.reservation(index).is_some() {
        return None;
    }
    let kind = kind_by_room(farm, index, ask)?;
    if !farm.is_at(index, &ask.place()) {
        return None;
    }
    Some(kind)
}

/// The kind of proposal for which a node without a reservation has room.
fn kind_by_room<const K: usize, F: Farm<K>>(
    farm: &F,
    index: usize,
    ask: &Ask<K>,
) -> Option<ProposalKind>
    requires fits { FarmFitsInMemory K.row F.row }
    requires index { index < length (F.sight farm.now).nodes }
    ensures { (node : NodeSight) → slice_get (F.sight farm.now).nodes index ≡ Some node → result
        ≡ kind_by_room node ask.now }
{
    let resource = ask.resource();
    if farm.fits_free(index, &resource) {
        Some(ProposalKind::Grant)
    } else if farm.fits_total(index, &resource) {
        Some(ProposalKind::Reserve)
    } else {
        None
    }
}

/// Whether an ask may be proposed at all on nodes that hold no reservation: it wants a container that no room is reserved for, and its
/// application may hold one. None of that depends on the node.
pub(crate) fn is_open<const K: usize, F: Farm<K>>(
    farm: &F,
    app: F::App,
    index: usize,
    ask: &Ask<K>,
) -> bool
    requires fits { FarmFitsInMemory K.row F.row }
    requires whole { IsWhole (F.sight farm.now) }
    requires has { F.has farm.now app }
    requires seen { IsSeenApp (F.sight farm.now) (F.shown farm.now app) }
    requires index { index < length (F.shown farm.now app).asks }
    requires at { slice_get (F.shown farm.now app).asks index ≡ Some ask.now }
    ensures admits { result ≡ true → IsOpen (F.sight farm.now)
        (record { app = F.shown farm.now app; ask = ask.now }) }
    ensures closed { result ≡ false → IsClosed (F.sight farm.now)
        (record { app = F.shown farm.now app; ask = ask.now }) }
{
    if farm.wanted(app, index) == 0 {
        return false;
    }
    may_hold(farm, app, &Resource::zero(), &ask.resource())
}

/// Whether the grant of the ask that a node's reservation is for is admissible there.
pub(crate) fn may_convert<const K: usize, F: Farm<K>>(
    farm: &F,
    index: usize,
    reservation: &Reservation<K>,
    app: F::App,
    ask: &Ask<K>,
) -> bool
    requires fits { FarmFitsInMemory K.row F.row }
    requires index { index < length (F.sight farm.now).nodes }
    requires has { F.has farm.now app }
    ensures { (node : NodeSight) → slice_get (F.sight farm.now).nodes index ≡ Some node →
        result ≡ may_convert (F.sight farm.now) node reservation.now.resource
        (record { app = F.shown farm.now app; ask = ask.now }) }
{
    let resource = ask.resource();
    farm.fits_free(index, &resource)
        && farm.is_at(index, &ask.place())
        && may_hold(farm, app, &reservation.resource(), &resource)
}

/// Whether an application may hold a container of a size `new`, where it gives up `old`: another one may be live and has a number,
/// and its queues and its user stay within their limits.
fn may_hold<const K: usize, F: Farm<K>>(
    farm: &F,
    app: F::App,
    old: &Resource<K>,
    new: &Resource<K>,
) -> bool
    requires fits { FarmFitsInMemory K.row F.row }
    requires has { F.has farm.now app }
    ensures { result ≡ may_hold (F.sight farm.now) (F.shown farm.now app) old.now new.now }
{
    has_numbers(farm) && farm.stays_within(app, old, new)
}

/// Whether another container may be live, and there is a number for it.
fn has_numbers<const K: usize, F: Farm<K>>(farm: &F) -> bool
    requires { FarmFitsInMemory K.row F.row }
    ensures { result ≡ has_numbers (F.sight farm.now) }
{
    farm.live() < LIVE_MAX && farm.next_container() < NUMBER_END
}

/// The ask as a proposal on a node.
pub(crate) fn proposal<const K: usize>(
    kind: ProposalKind,
    app: u64,
    node: u64,
    ask: &Ask<K>,
) -> Proposal<K>
    ensures { result ≡ record {
      kind = kind;
      app = app;
      key = ask.now.key;
      node = node;
      resource = ask.now.resource;
    } }
{
    Proposal {
        kind,
        app,
        key: ask.key(),
        node,
        resource: ask.resource(),
    }
}
