//! New lanes, with the committer's end and those of eight workers (`lanes`).
ghost use Rattle.std.specs.Prelude.{◌≡◌, ◌≤◌, ◌<◌, ◌+◌, [], IfOk};
ghost use Rattle.crossbeam_channel.specs.Ends.{sends_on, ruled_capacity};
ghost use Rattle.crossbeam_channel.specs.Claims.{view, IsSeatAt};
ghost use Rattle.cap_lanes.specs.ChannelRule.{taker, fresh};
ghost use Rattle.cap_lanes.specs.Ends.{lanes_id};
ghost use Rattle.cap_lanes.specs.Sides.{worker_side, eight_workers, NoneOver};

use crate::channel_rule::{Handover, LanesRule};
use crate::committer::Committer;
use crate::item::Item;
use crate::putter::Putter;
use crate::putting::{Back, LanePass};
use crate::view::View;
use cap_model::{NoMemory, Proposal};
use crossbeam_channel::bounded_with;
use std::alloc::Global;

/// The next worker's end: the pass gives up its first lane. If an allocation fails there is none.
fn next_putter(
    back: &Back,
    pass: &mut LanePass,
    worker: u32,
    count: u32,
) -> Result<Putter, NoMemory>
    requires seat { IsSeatAt (sends_on back.now) pass.old }
    requires room { ruled_capacity (sends_on back.now) ≤ 1024 }
    requires worker { (worker < 8) × (count < 8) }
    requires fresh { view pass.old ≡ taker [] (fresh worker (count + 1)) }
    ensures seat { IsSeatAt (sends_on back.now) pass.new }
    ensures fresh { view pass.new ≡ taker [] (fresh (worker + 1) count) }
    ensures is { IfOk result (λ p. p ≡ worker_side (lanes_id (sends_on back.now)) worker []) }
{
    let own = back.another::<Handover>(pass);
    let Ok(back) = back.try_clone() else {
        return Err(NoMemory);
    };
    Ok(Putter {
        worker,
        back,
        pass: own,
    })
}

/// Lanes for eight workers, numbered from 0, in which nothing was put: the committer's end, and an end for each worker. The channel
/// holds at most `capacity` items, 1 to 1,024; a proposal is an item, and so is a worker's end. All that `Committer::close` needs is
/// allocated here. If an allocation fails there are none.
pub fn lanes(alloc: Global, capacity: usize) -> Result<(Committer, [Putter; 8]), NoMemory>
    requires { (0 < capacity) × (capacity ≤ 1024) }
    ensures committer { IfOk result (λ r. (r.0.taken ≡ []) × NoneOver r.0.over) }
    ensures workers { IfOk result (λ r. r.1 ≡ eight_workers r.0.lanes) }
{
    let made = bounded_with::<Item, View, LanesRule, Global>(alloc, capacity);
    let Ok((back, front, mut pass)) = made else {
        return Err(NoMemory);
    };
    let Ok(left) = Vec::with_capacity(alloc, 1024) else {
        return Err(NoMemory);
    };
    let putters = [
        next_putter(&back, &mut pass, 0, 7)?,
        next_putter(&back, &mut pass, 1, 6)?,
        next_putter(&back, &mut pass, 2, 5)?,
        next_putter(&back, &mut pass, 3, 4)?,
        next_putter(&back, &mut pass, 4, 3)?,
        next_putter(&back, &mut pass, 5, 2)?,
        next_putter(&back, &mut pass, 6, 1)?,
        next_putter(&back, &mut pass, 7, 0)?,
    ];
    let committer = Committer {
        back,
        front,
        pass,
        over: [false; 8],
        left,
    };
    Ok((committer, putters))
}
