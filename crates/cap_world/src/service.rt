//! The requests of a connection that are complete, each made as a call on the cluster and answered (`answer_all`).
ghost use Rattle.std.specs.Prelude.{◌≡◌, ◌<◌, ◌++◌, ◌∷◌, [], vec_len, vec_capacity, None, IfOk, OnOk};
ghost use Rattle.cap_base.specs.Limits.{resources};
ghost use Rattle.cap_model.specs.News.{Reply};
ghost use Rattle.cap_model.specs.Replies.{Replies};
ghost use Rattle.cap_model.specs.Reporting.{HasRoomForReplies};
ghost use Rattle.cap_session.specs.Session.{SpellsAnswer, after_answer, bytes_unanswered};
ghost use Rattle.cap_world.specs.Answers.{call_event};
ghost use Rattle.cap_world.specs.Serving.{IsServed, IsOpenFor, standing_of};

use crate::connection::Standing;
use cap_base::RESOURCES;
use cap_commit::Cluster;
use cap_messages::dispatch;
use cap_model::{Event, NoMemory, ReplyRoom, Request, StoredRequest};
use cap_session::{Next, Session, SessionCause};
use std::alloc::Global;

/// Answers each request that is complete, and gives the state of the connection then.
pub(crate) fn answer_all(
    alloc: Global,
    by: u32,
    session: &mut Session,
    cluster: &mut Cluster<RESOURCES>,
    events: &mut Vec<Event<RESOURCES>>,
) -> Standing
    requires open { session.old.opens ≡ [] }
    requires ended { session.old.ended ≡ None }
    ensures { IsServed by result session.old session.new
        cluster.old.flat cluster.new.flat events.old.items events.new.items }
{
    loop {
        match session.next_request() {
            Next::Request(request) => {
                let Ok(room) = CallRoom::of(alloc, cluster, &request, events) else {
                    return Standing::Starved;
                };
                perform(alloc, by, request, room, session, cluster, events);
            }
            Next::Need => return Standing::Open,
            Next::Ended(cause) => return standing_after(cause),
        }
    }
}

/// The memory for the event of a call: its request, and room for its reply.
#[derive(Drop)]
struct CallRoom {
    request: StoredRequest<RESOURCES>,
    reply: ReplyRoom<RESOURCES>,
}

impl CallRoom {
    /// The memory for a call, whatever it is answered now, with room for its event. If an allocation fails there is none.
    fn of(
        alloc: Global,
        cluster: &Cluster<RESOURCES>,
        request: &Request<RESOURCES>,
        events: &mut Vec<Event<RESOURCES>>,
    ) -> Result<CallRoom, NoMemory>
        ensures request { IfOk result (λ room. room.request ≡ request.now) }
        ensures reply { IfOk result
            (λ room. HasRoomForReplies cluster.now.flat request.now room.reply) }
        ensures room { OnOk result (vec_len events.new < vec_capacity events.new) }
        ensures events { events.new.items ≡ events.old.items }
    {
        if events.reserve(1).is_err() {
            return Err(NoMemory);
        }
        Ok(CallRoom {
            request: StoredRequest::of(alloc, request)?,
            reply: cluster.reply_room(alloc, request)?,
        })
    }
}

/// The state of a connection whose session has ended.
fn standing_after(cause: SessionCause) -> Standing
    ensures { result ≡ standing_of cause }
{
    match cause {
        SessionCause::BadLength => Standing::Faulted,
        SessionCause::NoMemory | SessionCause::WriteFault => Standing::Starved,
    }
}

/// Makes the call of the open request, and answers it. There is room for its event, with the grants and ends of its reply.
fn perform(
    alloc: Global,
    by: u32,
    request: Request<RESOURCES>,
    room: CallRoom,
    session: &mut Session,
    cluster: &mut Cluster<RESOURCES>,
    events: &mut Vec<Event<RESOURCES>>,
)
    requires open { IsOpenFor request session.old.opens }
    requires room { vec_len events.old < vec_capacity events.old }
    requires request { room.request ≡ request }
    requires reply { HasRoomForReplies cluster.old.flat request room.reply }
    ensures performed { (reply : Reply resources)
        × Replies cluster.old.flat request reply cluster.new.flat
        × (session.new ≡ after_answer session.old reply)
        × SpellsAnswer session.old.opens reply
        × (events.new.items ≡ events.old.items ++ call_event by request reply ∷ []) }
    ensures less { bytes_unanswered session.new < bytes_unanswered session.old }
{
    let given = dispatch(alloc, cluster, &request);
    let reply = room.reply.own(&cluster.view(&given));
    session.answer(&reply);
    let request = room.request;
    events.push_reserved(Event::Call { by, request, reply });
}
