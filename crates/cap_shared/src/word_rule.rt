//! The rule of the word beside the lock, and its steps.
ghost use Rattle.std.specs.Prelude.{ℕ};

use crate::history::{Mark, View};
use atomic_table::{Join, Play, Split, TableRule};

/// One pass keeps the journal, and every sitting fits it.
pub struct JournalRule;

impl TableRule<Mark, View, u64> for JournalRule {
    ghost use Rattle.cap_shared.specs.WordRule.{Holds, first_view};

    ghost holds = { Holds };

    ghost first = { first_view };
}

/// The first sitting of a pass is handed to another.
pub struct Handover;

impl Split<View> for Handover {
    ghost use Rattle.cap_shared.specs.WordRule.{without_first, only_first};

    ghost left = { without_first };

    ghost right = { only_first };
}

impl Join<View> for Handover {
    ghost use Rattle.cap_shared.specs.WordRule.{with_guest, nobody};

    ghost both = { with_guest };

    ghost spent = { nobody };
}

/// The keeper adds what a mark says to the journal, and to the sittings that it has.
pub struct Adds;

impl Play<Mark, View> for Adds {
    ghost use Rattle.cap_shared.specs.WordRule.{IsAdded};

    ghost then = { IsAdded };
}

/// The keeper compares the sittings that it has with the journal.
pub struct Compares;

impl Play<Mark, View> for Compares {
    ghost use Rattle.cap_shared.specs.WordRule.{IsCompared};

    ghost then = { IsCompared };
}
