//! The rule of the channel, and its steps. It is there for the proof alone: nothing is lost, and nothing taken twice.
use crate::item::Item;
use crate::view::View;
use crossbeam_channel::protocol::{Join, Lesson, Outcome, Protocol, Split};

/// What each worker put is what was taken of it, and then what the channel holds of it.
pub struct LanesRule;

impl Protocol<Item, View> for LanesRule {
    ghost use Rattle.cap_lanes.specs.ChannelRule.{Holds, first_view};

    ghost holds = { Holds };

    ghost first = { first_view };
}

/// The first lane of a pass is handed to another.
pub struct Handover;

impl Split<View> for Handover {
    ghost use Rattle.cap_lanes.specs.ChannelRule.{without_first, only_first};

    ghost left = { without_first };

    ghost right = { only_first };
}

impl Join<View> for Handover {
    ghost use Rattle.cap_lanes.specs.ChannelRule.{with_guest, nobody};

    ghost both = { with_guest };

    ghost spent = { nobody };
}

/// A worker puts an item.
pub struct Puts;

impl Outcome<Item, View> for Puts {
    ghost use Rattle.cap_lanes.specs.ChannelRule.{IsPut};

    ghost then = { IsPut };
}

impl Lesson<Item, View> for Puts {
    ghost fact = { λ v items. Unit {0} };
}

/// The committer takes an item.
pub struct Takes;

impl Outcome<Item, View> for Takes {
    ghost use Rattle.cap_lanes.specs.ChannelRule.{IsTaken};

    ghost then = { IsTaken };
}

impl Lesson<Item, View> for Takes {
    ghost use Rattle.cap_lanes.specs.ChannelRule.{Tells};

    ghost fact = { Tells };
}
