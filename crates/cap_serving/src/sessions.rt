//! A session served from a shared cluster: rounds of answering, writing out and reading (`serve_session`).
ghost use Rattle.std.specs.Prelude.{◌≡◌, ◌≢◌, ℕ, ◌-◌, ◌^◌, List, length, min, None, Some};
ghost use Rattle.std.specs.Option.{option_to_list};
ghost use Rattle.cap_session.specs.Counted.{state_of, inner_of, CanCount};
ghost use Rattle.cap_session.specs.Session.{after_sent, open_requests, IsSession};
ghost use Rattle.cap_session.specs.declared.counted.Sent.{Sent};
ghost use Rattle.cap_serving.specs.Batches.{IsBatchMade};
ghost use Rattle.cap_serving.specs.Sessions.{IsServed, IsRound, IsPause, IsRead, IsWritten, IsWrittenOut, GoesOn, ReadsOn, end_of};

use crate::batches::answer_batch;
use cap_base::RESOURCES;
use cap_model::Request;
use cap_session::{Counted, Fed, Got, Next, Sent, Session, SessionCause};
use cap_shared::{Naming, Seat, Shared};
use std::io::{Read, Write};
use std::sync::Wait;

/// Why serving a session ended.
#[derive(Drop)]
pub enum EndCause {
    /// The input has ended, and all requests were answered.
    InputEnded,
    /// A length came that no frame has: it was answered with status 40.
    Faulted,
    /// The journal is full. The request comes back; it was not called, and is still open.
    Sealed(Request<RESOURCES>),
    /// Nothing came in time.
    Quiet,
    /// The reader failed.
    ReadFault,
    /// The writer failed.
    WriteFault,
    /// An allocation failed.
    NoMemory,
}

/// A session that was served.
#[derive(Drop)]
pub struct SessionEnd {
    pub session: Session,
    /// How many bytes went out. It stops at `u64::MAX`.
    pub sent: u64,
    /// How many bytes of answers are still to be written.
    pub unsent: usize,
    pub cause: EndCause,
}

/// Why no payload is answered now.
#[derive(Drop)]
pub(crate) enum Pause {
    /// More bytes are needed.
    Need,
    /// The journal is full.
    Sealed(Request<RESOURCES>),
    /// The session has ended.
    Ended(SessionCause),
}

/// Serves a session that has not ended; `pending` is its open request, if it has one. Reads, makes the calls that are asked for,
/// the pending one first, and writes their answers out, until one of the causes comes. A call that finds no memory is answered with
/// status 20. Unless the writer failed, all answers were written out. After `Quiet` the session can be served again, after `Sealed` with
/// the request as `pending` in another epoch.
pub fn serve_session<J: Naming, H: Wait, R: Read, W: Write>(
    rt: &H,
    shared: &Shared<J>,
    seat: &mut Seat<J>,
    session: Session,
    pending: Option<Request<RESOURCES>>,
    reader: &mut Counted<R>,
    writer: &mut Counted<W>,
) -> SessionEnd
    requires goes_on { session.ended ≡ None }
    requires pending { open_requests session.opens ≡ option_to_list pending }
    requires reader { CanCount (state_of reader.old) }
    requires writer { CanCount (state_of writer.old) }
    ensures served { IsServed J.limit session result.session seat.old seat.new result.cause }
    ensures session { IsSession result.session }
    ensures read { IsRead (Some result.cause) (state_of reader.old) (state_of reader.new)
        (R.remaining (inner_of reader.old)) (R.remaining (inner_of reader.new))
        session.fed result.session.fed }
    ensures written { (out : List ℕ) × IsWritten (Some result.cause)
        (state_of writer.old) (state_of writer.new)
        (W.contents (inner_of writer.old)) (W.contents (inner_of writer.new))
        session.sent result.session.sent out
        × (result.sent ≡ min (length out) (2 ^ 64 - 1)) }
    ensures unsent { result.unsent ≡ length result.session.unsent }
    ensures out { IsWrittenOut (Some result.cause) result.session.unsent }
{
    let mut session = session;
    let mut pending = pending;
    let mut sent = 0u64;
    for _ in rt.forever() {
        let Round {
            session: served,
            sent: out,
            end,
        } = serve_once(rt, shared, seat, session, pending, reader, writer);
        session = served;
        sent = sent.saturating_add(out);
        if let Some(cause) = end {
            let unsent = session.unsent().len();
            return SessionEnd {
                session,
                sent,
                unsent,
                cause,
            };
        }
        pending = None;
    }
    unreachable!()
}

/// What a round did: the session, how many bytes went out, and why it is not served on, if so.
#[derive(Drop)]
struct Round {
    session: Session,
    sent: u64,
    end: Option<EndCause>,
}

/// Answers what was fed, writes it out, and reads once.
fn serve_once<J: Naming, H: Wait, R: Read, W: Write>(
    rt: &H,
    shared: &Shared<J>,
    seat: &mut Seat<J>,
    session: Session,
    pending: Option<Request<RESOURCES>>,
    reader: &mut Counted<R>,
    writer: &mut Counted<W>,
) -> Round
    requires goes_on { session.ended ≡ None }
    requires pending { open_requests session.opens ≡ option_to_list pending }
    requires reader { CanCount (state_of reader.old) }
    requires writer { CanCount (state_of writer.old) }
    ensures round { IsRound J.limit session result.session seat.old seat.new result.end }
    ensures read { IsRead result.end (state_of reader.old) (state_of reader.new)
        (R.remaining (inner_of reader.old)) (R.remaining (inner_of reader.new))
        session.fed result.session.fed }
    ensures written { (out : List ℕ) × IsWritten result.end
        (state_of writer.old) (state_of writer.new)
        (W.contents (inner_of writer.old)) (W.contents (inner_of writer.new))
        session.sent result.session.sent out
        × (result.sent ≡ length out) }
    ensures out { IsWrittenOut result.end result.session.unsent }
{
    let mut session = session;
    let pause = answer_all(rt, shared, seat, &mut session, pending);
    match pause {
        Pause::Need => go_on(session, reader, writer),
        Pause::Sealed(request) => finish(session, writer, EndCause::Sealed(request)),
        Pause::Ended(SessionCause::BadLength) => finish(session, writer, EndCause::Faulted),
        Pause::Ended(SessionCause::NoMemory) => finish(session, writer, EndCause::NoMemory),
        Pause::Ended(SessionCause::WriteFault) => unreachable!(),
    }
}

/// Writes out the unsent answers of a session that is not served on.
#[tactic(auto, using(crate::proofs::Rounds::all_written))]
fn finish<W: Write>(session: Session, writer: &mut Counted<W>, cause: EndCause) -> Round
    requires counts { CanCount (state_of writer.old) }
    requires cause { cause ≢ EndCause.WriteFault }
    ensures sent { (sent : Sent) × (result.session ≡ after_sent session sent)
        × (result.end ≡ Some (end_of cause sent)) }
    ensures written { (out : List ℕ) × IsWritten result.end
        (state_of writer.old) (state_of writer.new)
        (W.contents (inner_of writer.old)) (W.contents (inner_of writer.new))
        session.sent result.session.sent out
        × (result.sent ≡ length out) }
    ensures out { IsWrittenOut result.end result.session.unsent }
{
    let mut session = session;
    match session.write_out(writer) {
        Sent::All(count) => Round {
            session,
            sent: count as u64,
            end: Some(cause),
        },
        Sent::Fault { sent } => Round {
            session,
            sent: sent as u64,
            end: Some(EndCause::WriteFault),
        },
    }
}

/// Writes out the unsent answers of a session, and reads more for it.
fn go_on<R: Read, W: Write>(
    session: Session,
    reader: &mut Counted<R>,
    writer: &mut Counted<W>,
) -> Round
    requires goes_on { session.ended ≡ None }
    requires reader { CanCount (state_of reader.old) }
    requires writer { CanCount (state_of writer.old) }
    ensures sent { (sent : Sent)
        × GoesOn sent (after_sent session sent) result.session result.end }
    ensures read { IsRead result.end (state_of reader.old) (state_of reader.new)
        (R.remaining (inner_of reader.old)) (R.remaining (inner_of reader.new))
        session.fed result.session.fed }
    ensures written { (out : List ℕ) × IsWritten result.end
        (state_of writer.old) (state_of writer.new)
        (W.contents (inner_of writer.old)) (W.contents (inner_of writer.new))
        session.sent result.session.sent out
        × (result.sent ≡ length out) }
    ensures out { IsWrittenOut result.end result.session.unsent }
{
    let mut session = session;
    let written = session.write_out(writer);
    match written {
        Sent::All(count) => {
            let end = read_more(&mut session, reader);
            Round {
                session,
                sent: count as u64,
                end,
            }
        }
        Sent::Fault { sent } => Round {
            session,
            sent: sent as u64,
            end: Some(EndCause::WriteFault),
        },
    }
}

/// Reads once, and feeds what came.
fn read_more<R: Read>(session: &mut Session, reader: &mut Counted<R>) -> Option<EndCause>
    requires goes_on { session.old.ended ≡ None }
    requires reader { CanCount (state_of reader.old) }
    ensures step { ReadsOn session.old session.new result }
    ensures read { IsRead result (state_of reader.old) (state_of reader.new)
        (R.remaining (inner_of reader.old)) (R.remaining (inner_of reader.new))
        session.old.fed session.new.fed }
    ensures sent { session.new.sent ≡ session.old.sent }
{
    let mut buffer = [0u8; 1024];
    match reader.read(&mut buffer) {
        Got::Bytes(count) => match session.feed(&buffer[..count]) {
            Fed::Taken => None,
            Fed::Ended(_) => Some(EndCause::NoMemory),
        },
        Got::End => Some(EndCause::InputEnded),
        Got::Quiet => Some(EndCause::Quiet),
        Got::Fault => Some(EndCause::ReadFault),
    }
}

/// Answers all that was fed, a pending request first.
fn answer_all<J: Naming, H: Wait>(
    rt: &H,
    shared: &Shared<J>,
    seat: &mut Seat<J>,
    session: &mut Session,
    pending: Option<Request<RESOURCES>>,
) -> Pause
    requires goes_on { session.old.ended ≡ None }
    requires pending { open_requests session.old.opens ≡ option_to_list pending }
    ensures pause { IsPause J.limit session.old session.new seat.old seat.new result }
    ensures same { (session.new.fed ≡ session.old.fed) × (session.new.sent ≡ session.old.sent) }
{
    if let Some(back) = answer_pending(rt, shared, seat, session, pending) {
        return Pause::Sealed(back);
    }
    for _ in rt.forever() {
        match session.next_request() {
            Next::Request(request) => {
                if let Some(back) = answer_batch(rt, shared, seat, session, request) {
                    return Pause::Sealed(back);
                }
            }
            Next::Need => return Pause::Need,
            Next::Ended(cause) => return Pause::Ended(cause),
        }
    }
    unreachable!()
}

/// Answers the pending request, if any, and those that have come after it.
fn answer_pending<J: Naming, H: Wait>(
    rt: &H,
    shared: &Shared<J>,
    seat: &mut Seat<J>,
    session: &mut Session,
    pending: Option<Request<RESOURCES>>,
) -> Option<Request<RESOURCES>>
    requires goes_on { session.old.ended ≡ None }
    requires pending { open_requests session.old.opens ≡ option_to_list pending }
    ensures batch { IsBatchMade J.limit session.old session.new seat.old seat.new result }
    ensures same { (session.new.fed ≡ session.old.fed) × (session.new.sent ≡ session.old.sent) }
{
    let request = pending?;
    answer_batch(rt, shared, seat, session, request)
}
