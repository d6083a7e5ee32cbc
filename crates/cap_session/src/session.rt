//! A session (`Session`): bytes are fed, requests handed out and answered, and the answers written out.
ghost use Rattle.std.specs.Prelude.{◌≡◌, ◌<◌, ◌≤◌, ◌++◌, IfOk, [], take};
ghost use Rattle.std.specs.Io.KnownBytes.{Appends};
ghost use Rattle.cap_session.specs.Counted.{state_of, inner_of, CanCount, after_writes, sent_count, IsSentCount};
ghost use Rattle.cap_session.specs.Session.{new_session, FeedGives, NextGives, OpensNext, MayAnswer, after_answer, SpellsAnswer, after_sent, IsSession, bytes_unanswered};

use crate::ahead::read_all;
use crate::asked::Asked;
use crate::counted::{Counted, Sent};
use crate::find::{Answered, find, put_reply};
use bytes::BytesMut;
use cap_base::RESOURCES;
use cap_frames::Framer;
use cap_model::{NoMemory, OwnedReply, Request};
use http_server::Log;
use std::alloc::Global;
use std::collections::VecDeque;
use std::io::Write;
use std::marker::Model;

/// Why a session has ended.
#[derive(Clone, Copy, Debug, PartialEq, Eq)]
pub enum SessionCause {
    /// A length came that no frame has: 0, or over 65,536.
    BadLength,
    /// An allocation failed.
    NoMemory,
    /// The writer failed.
    WriteFault,
}

/// What became of a piece.
#[derive(Clone, Copy, Debug, PartialEq, Eq)]
pub enum Fed {
    /// All of it was taken.
    Taken,
    /// None of it was taken: the session has ended.
    Ended(SessionCause),
}

/// What comes next.
#[derive(Drop)]
pub enum Next {
    /// A request, which is open until it is answered.
    Request(Request<RESOURCES>),
    /// More bytes are needed.
    Need,
    /// Nothing more: the session has ended.
    Ended(SessionCause),
}

/// One connection. Contracts see the bytes that it was fed, the payloads that it answered, the requests that are open, its calls
/// (each a request with its reply), the bytes of its answers, written out or not yet, and why it has ended.
pub struct Session {
    alloc: Global,
    framer: Framer,
    // What is kept of the requests that were read and are not answered: those that are open, and those read ahead.
    asked: VecDeque<Asked>,
    // The requests that were read ahead.
    ahead: VecDeque<Request<RESOURCES>>,
    unsent: BytesMut,
    ended: Option<SessionCause>,
    // These exist for contracts alone.
    answered: Answered,
    sent: Log<BytesMut, usize>,
}

impl Drop for Session {
    fn drop(self) {
        let Session {
            alloc: _,
            framer: _,
            asked: _,
            ahead: _,
            unsent: _,
            ended: _,
            answered: _,
            sent: _,
        } = self;
    }
}

impl Model for Session {
    ghost use Rattle.cap_session.specs.Session.{SessionState};
    ghost use Rattle.cap_session.specs.Kept.{state_inside, IsKept};

    ghost Value = { SessionState };

    ghost view = { state_inside };

    ghost invariant = { IsKept };
}

impl Session {
    /// A session that was fed nothing. `NoMemory` where an allocation failed.
    pub fn open(alloc: Global) -> Result<Session, NoMemory>
        ensures { IfOk result (λ s. s ≡ new_session) }
    {
        let Ok(framer) = Framer::new(alloc) else {
            return Err(NoMemory);
        };
        Ok(Session {
            alloc,
            framer,
            asked: VecDeque::new(alloc),
            ahead: VecDeque::new(alloc),
            unsent: BytesMut::new(alloc),
            ended: None,
            answered: Log::new(),
            sent: Log::new(),
        })
    }

    /// Takes the next piece of the stream, all of it, unless the session has ended. Where an allocation fails the session ends,
    /// and takes none of the piece. What was answered stays.
    pub fn feed(&mut self, piece: &[u8]) -> Fed
        ensures gives { FeedGives piece.now self.old self.new result }
        ensures session { IsSession self.new }
    {
        if let Some(cause) = self.ended {
            return Fed::Ended(cause);
        }
        match self.framer.feed(piece) {
            Ok(()) => Fed::Taken,
            Err(_) => {
                self.ended = Some(SessionCause::NoMemory);
                Fed::Ended(SessionCause::NoMemory)
            }
        }
    }

    /// Reads the requests that were fed, up to a payload that is none, so that `next_ahead` can open them. If an allocation fails, it
    /// stops there.
    pub fn read_ahead(&mut self)
        ensures { self.new ≡ self.old }
    {
        if self.ended.is_some() {
            return;
        }
        read_all(
            self.alloc,
            &mut self.framer,
            &mut self.asked,
            &mut self.ahead,
            &mut self.unsent,
        );
    }

    /// Opens the next request that was read ahead, after those that are open. `None` where there is no such request, and then nothing
    /// changes.
    pub fn next_ahead(&mut self) -> Option<Request<RESOURCES>>
        ensures opens { OpensNext self.old self.new result }
        ensures session { IsSession self.new }
    {
        self.ahead.pop_front()
    }

    /// The next request of the stream. It is open until `answer` answers it, and no other may be open. Each payload before it that
    /// is no request is answered with status 41. At a length that no frame has the session ends, with a last reply of status 40;
    /// it ends with no reply where an allocation fails, and every later call answers `Ended` with the same cause.
    #[inline(always)]
    pub fn next_request(&mut self) -> Next
        requires { self.old.opens ≡ [] }
        ensures gives { NextGives self.old self.new result }
        ensures session { IsSession self.new }
        ensures less { bytes_unanswered self.new ≤ bytes_unanswered self.old }
    {
        if let Some(cause) = self.ended {
            return Next::Ended(cause);
        }
        if !self.ahead.is_empty() {
            let Some(request) = self.ahead.pop_front() else {
                unreachable!()
            };
            return Next::Request(request);
        }
        if self.framer.is_at_rest() {
            return Next::Need;
        }
        find(
            self.alloc,
            &mut self.framer,
            &mut self.asked,
            &mut self.unsent,
            &mut self.answered,
            &mut self.ended,
        )
    }

    /// Answers the first open request with a reply that is a refusal or one of its kind. It takes no memory and cannot fail.
    #[inline(always)]
    pub fn answer(&mut self, reply: &OwnedReply<RESOURCES>)
        requires { MayAnswer self.old.opens reply.now }
        ensures answered { self.new ≡ after_answer self.old reply.now }
        ensures spells { SpellsAnswer self.old.opens reply.now }
        ensures less { bytes_unanswered self.new < bytes_unanswered self.old }
    {
        let Some(asked) = self.asked.pop_front() else {
            unreachable!()
        };
        let (head, opened) = asked.parts();
        put_reply(head, reply, &mut self.unsent);
        self.answered = self.answered.and(&opened, &Log::new().and(reply, &()));
    }

    /// The bytes of answers that were not written out yet.
    pub fn unsent(&self) -> &[u8]
        ensures value { result.now ≡ self.now.unsent }
        // The payloads that were answered are the first of the stream, and all that was ever answered answers them.
        ensures session { IsSession self.now }
    {
        self.unsent.as_slice()
    }

    /// Writes out the bytes of answers that were not written yet, and takes away those that the writer took. Where the writer fails
    /// the session has ended, unless it had ended before.
    pub fn write_out<W: Write>(&mut self, writer: &mut Counted<W>) -> Sent
        requires { CanCount (state_of writer.old) }
        ensures count { IsSentCount self.old.unsent result }
        ensures session { self.new ≡ after_sent self.old result }
        ensures writer { state_of writer.new
            ≡ after_writes (state_of writer.old) (take (sent_count result) self.old.unsent) result }
        ensures bytes { Appends
            (W.contents (inner_of writer.old)) (W.contents (inner_of writer.new))
            (take (sent_count result) self.old.unsent) }
    {
        let sent = writer.write_all(self.unsent.as_slice());
        let count = sent.count();
        self.sent = self.sent.and(&self.unsent, &count);
        self.unsent.advance(count);
        if let Sent::Fault { .. } = sent
            && self.ended.is_none()
        {
            self.ended = Some(SessionCause::WriteFault);
        }
        sent
    }
}
