//! What the asks of a snapshot want beside the reservations that nodes hold (`take_reserved`).
ghost use Rattle.std.specs.Prelude.{◌≡◌, ◌≤◌, length, map};
ghost use Rattle.cap_base.specs.Limits.{resources_max};
ghost use Rattle.cap_copy.specs.AskRanges.{AreApart, AreInside, AreRanges};
ghost use Rattle.cap_copy.specs.Entries.{beside, beside_one};
ghost use Rattle.cap_copy.specs.SeenApp.{range_in};

use crate::ranges::{AskRange, range_of};
use crate::seen::{SeenAsk, SeenNode};
use crate::seen_app::SeenApp;
use cap_model::Reservation;
use std::alloc::Allocator;

/// Takes the reservations that the nodes hold away from what the asks want that they are for. Of each node it looks at the asks of one
/// application alone.
pub(crate) fn take_reserved<const K: usize, B: Allocator + Copy>(
    asks: &mut Vec<SeenAsk<K>, B>,
    apps: &[SeenApp<K>],
    nodes: &[SeenNode<K>],
)
    requires resources { K ≤ resources_max }
    requires ranges { AreRanges asks.old.items (map range_in apps.now) }
    requires apart { AreApart (map range_in apps.now) }
    ensures { asks.new.items ≡ map (beside nodes.now) asks.old.items }
{
    for node in nodes {
        let Some(reservation) = node.reservation else {
            continue;
        };
        let Some(range) = range_of(apps, reservation.app()) else {
            continue;
        };
        take_one(asks, &range, &reservation);
    }
}

/// Takes a reservation away from what the ask of its application wants that it is for.
fn take_one<const K: usize, B: Allocator + Copy>(
    asks: &mut Vec<SeenAsk<K>, B>,
    range: &AskRange,
    reservation: &Reservation<K>,
)
    requires within { range.now.end ≤ length asks.old.items }
    requires inside { AreInside asks.old.items
        reservation.now.app range.now.start range.now.end }
    ensures { asks.new.items ≡ map (beside_one reservation.now) asks.old.items }
{
    for index in range.start..range.end {
        asks[index].take_reserved(reservation);
    }
}
