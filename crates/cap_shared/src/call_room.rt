//! What a call needs beside what the cluster itself needs: its request, for its entry and its receipt, and room for its reply
//! (`CallRoom`).
ghost use Rattle.std.specs.Prelude.{◌≡◌, ◌<◌, true, IfOk, OnOk, vec_len, vec_capacity};
ghost use Rattle.cap_base.specs.Limits.{resources};
ghost use Rattle.cap_model.specs.Flat.{Flat};
ghost use Rattle.cap_model.specs.Events.{is_no_memory};
ghost use Rattle.cap_model.specs.Reporting.{HasNumbers, RepliesInFull, full_reply};
ghost use Rattle.cap_grammar.specs.Spelling.{IsOfKind, kind_of};
ghost use Rattle.cap_shared.specs.Rooms.{IsRoomFor, AreRoomsFor, HasRoomsFor, AreCopiesOf, tells_nothing};

use crate::entry::Receipt;
use cap_base::RESOURCES;
use cap_commit::Cluster;
use cap_messages::{ReadyRequest, make};
use cap_model::{
    AllocateReply, NoMemory, OwnedReply, Refusal, Reply, ReplyRoom, ReplyWith, Request,
    StoredRequest,
};
use std::alloc::Global;

/// Room for the lists of the reply to an Allocate, in its entry and in its receipt.
#[derive(Drop)]
pub struct NewsRooms {
    pub entry: ReplyRoom<RESOURCES>,
    pub receipt: ReplyRoom<RESOURCES>,
}

/// A reply twice: in its entry and in its receipt.
#[derive(Drop)]
pub struct ReplyCopies {
    pub entry: OwnedReply<RESOURCES>,
    pub receipt: OwnedReply<RESOURCES>,
}

/// Room for the replies to an Allocate, whatever it is answered now; the reply to any other call needs none. If an allocation fails
/// there is none.
#[inline(always)]
fn news_rooms(
    alloc: Global,
    cluster: &Cluster<RESOURCES>,
    request: &Request<RESOURCES>,
) -> Result<Option<NewsRooms>, NoMemory>
    ensures { IfOk result (AreRoomsFor cluster.now.flat request.now) }
{
    let Request::Allocate {
        app,
        response,
        releases,
        ..
    } = request
    else {
        return Ok(None);
    };
    let Some(app) = cluster.apps().app(*app) else {
        return Ok(None);
    };
    let releases = releases.as_slice().len();
    Ok(Some(NewsRooms {
        entry: app.reply_room(alloc, *response, releases)?,
        receipt: app.reply_room(alloc, *response, releases)?,
    }))
}

/// The reply that the cluster has just given, twice. It takes no memory.
#[inline(always)]
pub(crate) fn own_copies(
    alloc: Global,
    news: Option<NewsRooms>,
    cluster: &Cluster<RESOURCES>,
    reply: &Reply<RESOURCES>,
) -> ReplyCopies
    requires numbers { HasNumbers cluster.now.flat reply.now }
    requires room { HasRoomsFor (full_reply cluster.now.flat reply.now) news }
    ensures { AreCopiesOf (full_reply cluster.now.flat reply.now) result }
{
    if tells_nothing(reply) {
        return ReplyCopies {
            entry: own_without_lists(alloc, reply),
            receipt: own_without_lists(alloc, reply),
        };
    }
    let Some(news) = news else { unreachable!() };
    let reply = cluster.view(reply);
    ReplyCopies {
        entry: news.entry.own(&reply),
        receipt: news.receipt.own(&reply),
    }
}

/// Whether a reply reports no grant and no end.
fn tells_nothing(reply: &Reply<RESOURCES>) -> bool
    ensures { result ≡ tells_nothing reply.now }
{
    match reply {
        ReplyWith::Allocate { reply } => reply.reported.grants == 0 && reply.reported.ends == 0,
        _ => true,
    }
}

/// The reply that a cluster has just given, where it reports no grant and no end. It takes no memory.
#[inline(always)]
fn own_without_lists(alloc: Global, reply: &Reply<RESOURCES>) -> OwnedReply<RESOURCES>
    requires { tells_nothing reply.now ≡ true }
    ensures { (cluster : Flat resources) → HasNumbers cluster reply.now
        → result ≡ full_reply cluster reply.now }
{
    let ReplyWith::Allocate { reply } = reply else {
        return reply.other();
    };
    ReplyWith::Allocate {
        reply: AllocateReply {
            response: reply.reported.response,
            ignored: reply.reported.ignored,
            grants: Vec::new(alloc),
            ends: Vec::new(alloc),
        },
    }
}

/// All the memory that a call needs beside what the cluster itself needs.
#[derive(Drop)]
pub struct CallRoom {
    pub entry: StoredRequest<RESOURCES>,
    pub receipt: StoredRequest<RESOURCES>,
    pub news: Option<NewsRooms>,
}

impl CallRoom {
    /// The memory for a call, whatever it is answered now, with room for its receipt. If an allocation fails there is none.
    #[inline(always)]
    pub fn of(
        alloc: Global,
        cluster: &Cluster<RESOURCES>,
        receipts: &mut Vec<Receipt>,
        request: &Request<RESOURCES>,
    ) -> Result<CallRoom, NoMemory>
        ensures ok { IfOk result (IsRoomFor cluster.now.flat request.now) }
        ensures room { OnOk result (vec_len receipts.new < vec_capacity receipts.new) }
        ensures receipts { receipts.new.items ≡ receipts.old.items }
    {
        if receipts.reserve(1).is_err() {
            return Err(NoMemory);
        }
        let entry = StoredRequest::of(alloc, request)?;
        Ok(CallRoom {
            receipt: entry.share()?,
            entry,
            news: news_rooms(alloc, cluster, request)?,
        })
    }
}

/// Makes the call that a request names which is ready. What is entered of it is a step of the run: the reply is the reply function's, and
/// so is the cluster.
pub(crate) fn make_call(
    cluster: &mut Cluster<RESOURCES>,
    ready: &ReadyRequest<'_>,
) -> Reply<RESOURCES>
    ensures replies { RepliesInFull cluster.old.flat ready.now result cluster.new.flat }
    ensures numbers { HasNumbers cluster.new.flat result }
    ensures kind { IsOfKind (kind_of ready.now) (full_reply cluster.new.flat result) }
{
    make(cluster, ready)
}

/// Whether a reply says that no memory was found, so that the call changed nothing.
pub(crate) fn is_no_memory(reply: &Reply<RESOURCES>) -> bool
    ensures { (cluster : Flat resources) → result ≡ is_no_memory (full_reply cluster reply.now) }
{
    match reply {
        ReplyWith::Refused(Refusal::NoMemory) => true,
        _ => false,
    }
}
