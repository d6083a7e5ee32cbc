//! Where workers are answered: a mailbox of each (`Mailboxes`), and what was put into them (`Posted`).
ghost use Rattle.std.specs.Prelude.{◌≡◌, ◌<◌, ◌++◌, ◌∷◌, [], IfSome, map};

use crate::gate::CommitOutcome;
use http_server::Log;
use std::marker::Model;
use std::sync::{Mutex, Wait};
use std::thread::Parker;

/// What was put into mailboxes, in order: the number of the mailbox's worker, and the answer. It takes no room. Only mailboxes add to it.
#[derive(Drop)]
pub(crate) struct Posted {
    answers: Log<u32, CommitOutcome>,
}

impl Model for Posted {
    ghost use Rattle.std.specs.Prelude.{ℕ, List};
    ghost use Rattle.cap_workers.specs.declared.gate.CommitOutcome.{CommitOutcome};

    ghost Value = { List (ℕ × CommitOutcome) };

    ghost view = { λ p. p.answers.items };
}

impl Posted {
    /// Before the first answer.
    pub(crate) fn new() -> Posted
        ensures { result ≡ [] }
    {
        Posted {
            answers: Log::new(),
        }
    }
}

/// What was taken out of a mailbox: the number of its worker, and the answer.
#[derive(Clone, Copy)]
pub(crate) struct Answer {
    pub worker: u32,
    pub outcome: CommitOutcome,
}

/// What is answered to a worker.
#[derive(Drop)]
struct Mailbox {
    /// The number of the worker.
    number: u32,
    /// What came of the proposal that the worker has put, until the worker has seen it.
    outcome: Mutex<Option<CommitOutcome>>,
    /// Where the worker waits for it.
    worker: Parker,
}

impl Mailbox {
    fn new(number: u32) -> Mailbox
        ensures { result.number ≡ number }
    {
        Mailbox {
            number,
            outcome: Mutex::new(None),
            worker: Parker::new(),
        }
    }

    /// Puts an answer here, and notes that.
    fn put<R: Wait>(&self, rt: &R, posted: &mut Posted, outcome: CommitOutcome)
        ensures { posted.new ≡ posted.old ++ (self.now.number, outcome) ∷ [] }
    {
        *self.outcome.lock(rt) = Some(outcome);
        posted.answers = posted.answers.and(&self.number, &outcome);
    }

    /// Waits until the worker's proposal is answered, and takes the answer.
    fn await_answer<R: Wait>(&self, rt: &R) -> Answer
        ensures { result.worker ≡ self.now.number }
    {
        for _ in rt.forever() {
            let answered = self.outcome.lock(rt).take();
            if let Some(outcome) = answered {
                return Answer {
                    worker: self.number,
                    outcome,
                };
            }
            self.worker.park(rt);
        }
        unreachable!()
    }
}

/// The mailboxes of eight workers, by their numbers.
#[derive(Drop)]
pub(crate) struct Mailboxes {
    all: [Mailbox; 8],
    ghost numbered: { map (λ m. m.number) all ≡ 0 ∷ 1 ∷ 2 ∷ 3 ∷ 4 ∷ 5 ∷ 6 ∷ 7 ∷ [] },
}

impl Mailboxes {
    /// Mailboxes in which nothing lies.
    pub(crate) fn new() -> Mailboxes {
        Mailboxes {
            all: [
                Mailbox::new(0),
                Mailbox::new(1),
                Mailbox::new(2),
                Mailbox::new(3),
                Mailbox::new(4),
                Mailbox::new(5),
                Mailbox::new(6),
                Mailbox::new(7),
            ],
        }
    }

    /// The mailbox of the worker of this number.
    fn of(&self, worker: u32) -> &Mailbox
        requires { worker < 8 }
        ensures { result.now.number ≡ worker }
    {
        &self.all[worker as usize]
    }

    /// Puts an answer into the mailbox of the worker of this number, and notes that. The worker is not woken.
    pub(crate) fn put<R: Wait>(
        &self,
        rt: &R,
        posted: &mut Posted,
        worker: u32,
        outcome: CommitOutcome,
    )
        requires { worker < 8 }
        ensures { posted.new ≡ posted.old ++ (worker, outcome) ∷ [] }
    {
        self.of(worker).put(rt, posted, outcome);
    }

    /// Wakes the worker of this number, if it waits at its mailbox.
    pub(crate) fn wake(&self, worker: u32) {
        if worker < 8 {
            self.of(worker).worker.unpark();
        }
    }

    /// Waits until something lies in the mailbox of the worker of this number, and takes it. `None` if there is no such mailbox.
    pub(crate) fn await_answer<R: Wait>(&self, rt: &R, worker: u32) -> Option<Answer>
        ensures { IfSome result (λ answer. answer.worker ≡ worker) }
    {
        if worker < 8 {
            Some(self.of(worker).await_answer(rt))
        } else {
            None
        }
    }
}
