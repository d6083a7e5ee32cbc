//! A step under the lock: the pass of a seat lends its sitting to the keeper, which adds what happened.
ghost use Rattle.std.specs.Prelude.{◌≡◌, ◌<◌, [], ◌∷◌};
ghost use Rattle.cap_shared.specs.WordRule.{addition_of, keeper, sitter, sitting_of, IsOf, IsKeeper, IsSitter, Fits, log_after, sitting_after};

use crate::history::{Mark, View};
use crate::word_rule::{Adds, Handover, JournalRule};
use atomic_table::{Seat, Shared};

/// The word beside the lock.
pub(crate) type Word = Shared<Mark, View, u64, JournalRule>;

/// A pass: the keeper's under the lock, or that of a seat.
pub(crate) type Pass = Seat<Mark, View>;

/// The keeper adds what the mark says to the journal and to the sitting of the seat.
pub(crate) fn add(word: &Word, desk: &mut Pass, seat: &mut Pass, mark: &Mark)
    requires word { 0 < word.now.table_id.words }
    requires tables { (desk.old.table_id ≡ word.now.table_id)
        × (seat.old.table_id ≡ word.now.table_id) }
    requires views { IsKeeper desk.old.me × IsSitter seat.old.me }
    requires mine { IsOf (sitting_of seat.old.me.0).seat (addition_of mark.now) }
    ensures tables { (desk.new.table_id ≡ desk.old.table_id)
        × (seat.new.table_id ≡ seat.old.table_id) }
    ensures desk { desk.new.me ≡ (keeper (log_after desk.old.me.0.log (addition_of mark.now)), []) }
    ensures seat { seat.new.me ≡ (
      sitter
          (sitting_after desk.old.me.0.log (addition_of mark.now) (sitting_of seat.old.me.0)),
      [],
    ) }
    ensures fits { Fits desk.old.me.0.log (sitting_of seat.old.me.0) }
{
    let guest = word.split_seat::<Handover>(seat);
    word.join_seat::<Handover>(desk, guest);
    word.compare_exchange_with::<Adds>(desk, 0, 0, 0, mark);
    let guest = word.split_seat::<Handover>(desk);
    word.join_seat::<Handover>(seat, guest);
}
