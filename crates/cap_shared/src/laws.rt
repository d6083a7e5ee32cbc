//! Laws of journals, for callers to cite. The functions do nothing.
ghost use Rattle.cap_shared.specs.Laws.{FirstJournalsStayBounded, JournalsLeadToStates, JournalsStayBounded};

/// Whatever threads do, every state of the cluster is bounded, where the opening is: always each queue's use is the sum under it and
/// within its maximum, or not risen since the lowering that put it over (since the opening, where it was over then), and each user's
/// the same of the user limit; no node is over its total, reservations are on different nodes, and no container number is there
/// twice. So the closing cluster opens the next epoch; and the first opens with the queues of a daemon's settings and nothing else,
/// which is bounded and within its limits.
pub fn journals_stay_bounded()
    ensures further { JournalsStayBounded }
    ensures first { FirstJournalsStayBounded }
{}

/// After so many entries of a journal the cluster is the one state that their events lead to, which is computed from the opening
/// cluster; the journal goes on from there.
pub fn journals_lead_to_states()
    ensures { JournalsLeadToStates }
{}
