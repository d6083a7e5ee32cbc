//! What workers put into their lanes is committed by whoever holds the cluster: the committer, or a worker (`commit_all`, `commit_lanes`).
ghost use Rattle.std.specs.Prelude.{◌≡◌, ◌++◌, IfSome, MatchOption};
ghost use Rattle.std.specs.Option.{option_to_list};
ghost use Rattle.cap_lanes.specs.Sides.{AllOver};
ghost use Rattle.cap_workers.specs.Committing.{CommitsNext, CommitsTaken, held_in};
ghost use Rattle.cap_workers.specs.Lanes.{IsCommitting};

use crate::committer::{FinishedLanes, LaneCommitter};
use crate::coordinator::{BATCH, Coordinator, Outcomes};
use crate::gate::{CommitOutcome, Gate};
use crate::lane::LaneNaming;
use crate::mailbox::{Mailboxes, Posted};
use cap_lanes::Committer;
use cap_shared::{Hold, Naming, Seat, Shared};
use std::sync::Wait;

/// How often the lanes are looked into while the cluster is held: for what each worker has put, and for its end.
const LOOKS: usize = 2 * BATCH;

/// The committer commits what the workers put, in the order in which it is taken, when it begins and whenever a worker has finished, until all have;
/// in between, workers that wait for an answer take and commit what waits, with the same seat. What is taken once the journal is full is not made, as is
/// a proposal that an allocation fails for. What comes back is what the lanes are closed with: the ends of all workers were taken, all that the seat was
/// answered is commits of what was taken, in order, each once, and what came of each was put into the mailbox of its worker.
pub fn commit_all<J: LaneNaming, R: Wait, G: Gate>(
    rt: &R,
    shared: &Shared<J>,
    coordinator: &Coordinator<J>,
    gate: &G,
    lanes: LaneCommitter<J>,
) -> Option<FinishedLanes<J>>
    ensures over { IfSome result (λ lanes. AllOver lanes.side.over) }
    ensures commits { IfSome result (λ lanes.
        IsCommitting J.lanes J.limit lanes.side lanes.seat lanes.posted) }
{
    coordinator.open_lanes(rt, lanes);
    for _ in rt.forever() {
        let outcomes = commit_lanes(rt, shared, coordinator)?;
        coordinator.notify(gate, &outcomes);
        if let Some(lanes) = coordinator.take_over(rt) {
            return Some(FinishedLanes::of(lanes));
        }
        if outcomes.iter().any(|outcome| outcome.is_none()) {
            coordinator.await_finished(rt);
        }
    }
    unreachable!()
}

/// Holds the cluster, and commits the proposals that wait in the lanes, once the committer has begun: what came of them. `None` if it has not.
pub(crate) fn commit_lanes<J: LaneNaming, R: Wait>(
    rt: &R,
    shared: &Shared<J>,
    coordinator: &Coordinator<J>,
) -> Option<Outcomes> {
    let mut held = shared.hold_to_schedule(rt);
    let mut open = coordinator.lanes(rt);
    Some(
        open.as_mut()?
            .commit_waiting(rt, &mut held, &coordinator.mailboxes),
    )
}

/// Commits the proposals that wait in the lanes. Each worker has one there at most, and its end. What came of them, in their order; it lies in the
/// workers' mailboxes.
pub(crate) fn commit_waiting<J: Naming, R: Wait>(
    rt: &R,
    held: &mut Hold<'_, J>,
    seat: &mut Seat<J>,
    committer: &mut Committer,
    mailboxes: &Mailboxes,
    posted: &mut Posted,
) -> Outcomes
    ensures lanes { committer.new.lanes ≡ committer.old.lanes }
    ensures taken { CommitsTaken J.limit seat.old seat.new committer.old committer.new
        (held_in result) }
    ensures posted { posted.new ≡ posted.old ++ held_in result }
{
    let mut outcomes = [None; BATCH];
    let mut count = 0;
    for _ in 0..LOOKS {
        if count >= BATCH {
            break;
        }
        if let Some(outcome) = commit_next(rt, held, seat, committer, mailboxes, posted) {
            outcomes[count] = Some(outcome);
            count += 1;
        }
    }
    outcomes
}

/// Commits the proposal that comes next in the lanes, if one has come, and puts what came of it into the mailbox of the worker that put it: the number of
/// that worker, and what came of it.
fn commit_next<J: Naming, R: Wait>(
    rt: &R,
    held: &mut Hold<'_, J>,
    seat: &mut Seat<J>,
    committer: &mut Committer,
    mailboxes: &Mailboxes,
    posted: &mut Posted,
) -> Option<(u32, CommitOutcome)>
    ensures lanes { committer.new.lanes ≡ committer.old.lanes }
    ensures next { MatchOption result
        ((seat.new ≡ seat.old) × (committer.new.taken ≡ committer.old.taken))
        (CommitsNext J.limit seat.old seat.new committer.old committer.new) }
    ensures posted { posted.new ≡ posted.old ++ option_to_list result }
{
    let (worker, proposal) = committer.try_take(rt)?;
    let answer = held.commit(seat, proposal);
    let outcome = CommitOutcome::of(&answer);
    mailboxes.put(rt, posted, worker, outcome);
    Some((worker, outcome))
}
