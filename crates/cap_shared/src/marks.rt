//! What is added under the lock: an entry with its receipt, a note of an answer without one, or nothing.
ghost use Rattle.std.specs.Prelude.{◌≡◌, ◌<◌, ◌++◌, ◌∷◌, [], length, vec_len, vec_capacity};
ghost use Rattle.cap_shared.specs.declared.history.NotedAnswer.TheVariants as answer;
ghost use Rattle.cap_shared.specs.Journal.{receipt_for};
ghost use Rattle.cap_shared.specs.WordRule.{sitting_of};
ghost use Rattle.cap_shared.specs.Passes.{AreHere, IsCompared, IsEntered, IsNoted};

use crate::entry::{Entry, Receipt};
use crate::history::Mark;
use crate::passes::{Pass, Word, add};
use cap_base::RESOURCES;
use cap_model::{Proposal, Reason, Request};
use http_server::Log;

/// Appends an entry to the journal, and its receipt to those of the seat. There is room for both.
#[inline(always)]
pub(crate) fn enter(
    word: &Word,
    desk: &mut Pass,
    journal: &mut Vec<Entry>,
    seat: &mut Pass,
    receipts: &mut Vec<Receipt>,
    entry: Entry,
    receipt: Receipt,
)
    requires here { AreHere word.now.table_id journal.old.items desk.old seat.old }
    requires mine { entry.seat ≡ (sitting_of seat.old.me.0).seat }
    requires receipt { receipt ≡ receipt_for (length journal.old.items) entry.event }
    requires room { vec_len journal.old < vec_capacity journal.old }
    requires receipts { vec_len receipts.old < vec_capacity receipts.old }
    ensures entered { IsEntered journal.old.items entry receipt desk.old desk.new seat.old
        seat.new }
    ensures journal { journal.new.items ≡ journal.old.items ++ entry ∷ [] }
    ensures capacity { vec_capacity journal.new ≡ vec_capacity journal.old }
    ensures receipts { receipts.new.items ≡ receipts.old.items ++ receipt ∷ [] }
{
    let mark = Mark::Entry(Log::new().and(&entry, &()));
    add(word, desk, seat, &mark);
    journal.push_reserved(entry);
    receipts.push_reserved(receipt);
}

/// The position of the next entry of the journal.
pub(crate) fn next_position(journal: &Vec<Entry>) -> u64
    ensures { result ≡ length journal.now.items }
{
    journal.len() as u64
}

/// Notes that a call was not made because the journal was full.
pub(crate) fn note_sealed_call(
    word: &Word,
    desk: &mut Pass,
    journal: &Vec<Entry>,
    seat: &mut Pass,
    request: &Request<RESOURCES>,
)
    requires { AreHere word.now.table_id journal.now.items desk.old seat.old }
    ensures { IsNoted journal.now.items (answer.SealedCall request.now)
        desk.old desk.new seat.old seat.new }
{
    let _journal = journal;
    let mark = Mark::SealedCall(Log::new().and(request, &()));
    add(word, desk, seat, &mark);
}

/// Notes that a proposal was not tried because the journal was full.
pub(crate) fn note_sealed_commit(
    word: &Word,
    desk: &mut Pass,
    journal: &Vec<Entry>,
    seat: &mut Pass,
    proposal: &Proposal<RESOURCES>,
)
    requires { AreHere word.now.table_id journal.now.items desk.old seat.old }
    ensures { IsNoted journal.now.items (answer.SealedCommit proposal.now)
        desk.old desk.new seat.old seat.new }
{
    let _journal = journal;
    let mark = Mark::SealedCommit(Log::new().and(proposal, &()));
    add(word, desk, seat, &mark);
}

/// Notes that a proposal was rejected for this reason.
pub(crate) fn note_rejected(
    word: &Word,
    desk: &mut Pass,
    journal: &Vec<Entry>,
    seat: &mut Pass,
    proposal: &Proposal<RESOURCES>,
    reason: &Reason,
)
    requires { AreHere word.now.table_id journal.now.items desk.old seat.old }
    ensures { IsNoted journal.now.items (answer.Rejected proposal.now reason.now)
        desk.old desk.new seat.old seat.new }
{
    let _journal = journal;
    let mark = Mark::Rejected(Log::new().and(proposal, reason));
    add(word, desk, seat, &mark);
}

/// Notes that an allocation failed when a proposal was to be made.
pub(crate) fn note_no_memory(
    word: &Word,
    desk: &mut Pass,
    journal: &Vec<Entry>,
    seat: &mut Pass,
    proposal: &Proposal<RESOURCES>,
)
    requires { AreHere word.now.table_id journal.now.items desk.old seat.old }
    ensures { IsNoted journal.now.items (answer.NoMemory proposal.now)
        desk.old desk.new seat.old seat.new }
{
    let _journal = journal;
    let mark = Mark::NoMemory(Log::new().and(proposal, &()));
    add(word, desk, seat, &mark);
}

/// Notes that the cluster was copied.
pub(crate) fn note_copied(word: &Word, desk: &mut Pass, journal: &Vec<Entry>, seat: &mut Pass)
    requires { AreHere word.now.table_id journal.now.items desk.old seat.old }
    ensures { IsNoted journal.now.items answer.Copied desk.old desk.new seat.old seat.new }
{
    let _journal = journal;
    add(word, desk, seat, &Mark::Copied);
}

/// Adds nothing, and compares what the seat was answered with the journal.
pub(crate) fn compare(word: &Word, desk: &mut Pass, journal: &Vec<Entry>, seat: &mut Pass)
    requires { AreHere word.now.table_id journal.now.items desk.old seat.old }
    ensures { IsCompared journal.now.items desk.old desk.new seat.old seat.new }
{
    let _journal = journal;
    add(word, desk, seat, &Mark::Nothing);
}
