//! The requests of a session that have come, called together under one lock, and answered (`answer_batch`). The lock is given back
//! where property lines are to be read.
ghost use Rattle.std.specs.Prelude.{◌≡◌, List, [], ◌∷◌, None};
ghost use Rattle.cap_base.specs.Limits.{resources};
ghost use Rattle.cap_session.specs.Answers.{Call};
ghost use Rattle.cap_session.specs.Session.{open_requests};
ghost use Rattle.cap_serving.specs.Batches.{CallsAll, CallsOn, GoesFurther, IsAnsweredBy, AnsweredAll, IsBatchMade};

use cap_base::RESOURCES;
use cap_model::{Refusal, ReplyWith, Request};
use cap_session::Session;
use cap_shared::{Fault, Hold, Naming, ReadyRequest, Receipt, Seat, Shared};
use std::sync::Wait;

/// What became of the calls of some requests.
#[derive(Drop)]
pub(crate) enum Called {
    /// All were made.
    Made,
    /// An allocation failed in the last, which changed nothing.
    Starved,
    /// The journal was full for this request.
    Sealed(Request<RESOURCES>),
}

/// What became of the calls under one hold.
#[derive(Drop)]
pub(crate) enum GivenBack {
    /// The calls ended so.
    Ended(Called),
    /// Those before this Refresh were made. It is open, and its property lines are to be read while the cluster is not held.
    Unread(Request<RESOURCES>),
}

/// Answers the open request and those that have come after it, up to a payload that is none: they are read before the cluster is held,
/// called while it is held, and their replies are written down after, out of the receipts. It is held once, and once more for each Refresh
/// that is not the first, whose property lines are read in between. Where an allocation fails for one, those after it are left. Where the
/// journal is full, the request that was not called is open, and comes back.
pub(crate) fn answer_batch<J: Naming, H: Wait>(
    rt: &H,
    shared: &Shared<J>,
    seat: &mut Seat<J>,
    session: &mut Session,
    first: Request<RESOURCES>,
) -> Option<Request<RESOURCES>>
    requires opens { open_requests session.old.opens ≡ first ∷ [] }
    requires goes_on { session.old.ended ≡ None }
    ensures batch { IsBatchMade J.limit session.old session.new seat.old seat.new result }
    ensures same { (session.new.fed ≡ session.old.fed) × (session.new.sent ≡ session.old.sent) }
{
    session.read_ahead();
    let earlier = seat.receipts().len();
    let called = call_all(rt, shared, seat, session, first);
    answer_calls(session, &seat.receipts()[earlier..]);
    match called {
        Called::Made => None,
        Called::Starved => {
            session.answer(&ReplyWith::Refused(Refusal::NoMemory));
            None
        }
        Called::Sealed(back) => Some(back),
    }
}

/// Makes the calls, in order: it holds the cluster for some, gives it back where property lines are to be read, and so on. Where an
/// allocation fails for one, or where the journal is full, those after it are left.
fn call_all<J: Naming, H: Wait>(
    rt: &H,
    shared: &Shared<J>,
    seat: &mut Seat<J>,
    session: &mut Session,
    first: Request<RESOURCES>,
) -> Called
    requires { open_requests session.old.opens ≡ first ∷ [] }
    ensures { CallsAll J.limit session.old session.new seat.old seat.new result }
{
    let mut request = first;
    loop {
        match call_held(rt, shared, seat, session, request) {
            GivenBack::Ended(called) => return called,
            GivenBack::Unread(next) => request = next,
        }
    }
}

/// Makes the call of the request that was opened last, whose property lines are read first, and of those after it up to a Refresh. The
/// cluster is held for the calls alone.
fn call_held<J: Naming, H: Wait>(
    rt: &H,
    shared: &Shared<J>,
    seat: &mut Seat<J>,
    session: &mut Session,
    first: Request<RESOURCES>,
) -> GivenBack
    ensures calls { CallsOn J.limit (first ∷ [])
        session.old session.new seat.old seat.new result }
    ensures further { GoesFurther session.old session.new result }
{
    let ready = shared.ready(&first);
    let mut held = shared.hold(rt);
    match held.call(seat, &ready) {
        Ok(()) => call_rest(&mut held, seat, session),
        Err(Fault::NoMemory) => GivenBack::Ended(Called::Starved),
        Err(Fault::Sealed) => {
            drop(held);
            drop(ready);
            GivenBack::Ended(Called::Sealed(first))
        }
    }
}

/// Opens the requests that were read ahead and makes their calls, in order, up to a Refresh, which is opened alone.
fn call_rest<J: Naming>(
    held: &mut Hold<'_, J>,
    seat: &mut Seat<J>,
    session: &mut Session,
) -> GivenBack
    ensures calls { CallsOn J.limit [] session.old session.new seat.old seat.new result }
    ensures further { GoesFurther session.old session.new result }
{
    loop {
        let Some(next) = session.next_ahead() else {
            return GivenBack::Ended(Called::Made);
        };
        let Some(ready) = ReadyRequest::at_once(&next) else {
            return GivenBack::Unread(next);
        };
        match held.call(seat, &ready) {
            Ok(()) => {}
            Err(Fault::NoMemory) => return GivenBack::Ended(Called::Starved),
            Err(Fault::Sealed) => {
                drop(ready);
                return GivenBack::Ended(Called::Sealed(next));
            }
        }
    }
}

/// Answers the first open requests with the replies of these receipts.
fn answer_calls(session: &mut Session, receipts: &[Receipt])
    requires calls { (calls : List (Call resources))
        × IsAnsweredBy session.old.opens receipts.now calls }
    ensures { (calls : List (Call resources))
        → IsAnsweredBy session.old.opens receipts.now calls
        → AnsweredAll session.old session.new calls }
{
    for receipt in receipts {
        let Receipt::Call { reply, .. } = receipt else {
            unreachable!()
        };
        session.answer(reply);
    }
}
