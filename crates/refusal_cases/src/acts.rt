//! What is done with a seat of an epoch where memory is short, and what comes of it.
use crate::fixture::{came_of, proposal, request};
use crate::shortage::Shortage;
use bumpalo::Bump;
use cap_base::RESOURCES;
use cap_model::{Event, OwnedReply, Proposal, ProposalKind, ReplyWith, Request, Verdict};
use cap_shared::{CallFault, CommitFault, Naming, Receipt, Seat, Shared};
use cap_testing::Call;
use cap_workers::{Committer, OfferEnd, OpenGate, Putter, TurnEnd, Worker, lanes};
use memory_testing::Came;
use std::alloc::Global;
use std::sync::Wait;

/// What is done with a seat of a cluster of which application 1 asks for a container, but a Submit, which is the first call.
#[derive(Clone, Copy)]
pub enum Act {
    Call(Call<'static>),
    Commit,
    Turn,
    Offer,
}

/// What came of an act.
#[derive(Clone, Copy, PartialEq, Eq)]
enum ActEnd {
    /// It was made, and answered as it should be.
    Made,
    Refused,
    Other,
}

/// What an act is made with.
#[derive(Drop)]
struct Tools {
    alloc: Global,
    /// What a call asks for.
    request: Option<Request<RESOURCES>>,
    worker: Worker,
    arena: Bump,
}

impl Tools {
    fn new(alloc: Global, act: Act) -> Tools {
        Tools {
            alloc,
            request: match act {
                Act::Call(call) => request(alloc, &call),
                _ => None,
            },
            worker: Worker::new(0),
            arena: Bump::new(alloc),
        }
    }

    /// Another arena takes the place of one that was not reset.
    fn keep_arena(&mut self, is_reset: bool) {
        if !is_reset {
            self.arena = Bump::new(self.alloc);
        }
    }
}

/// How many entries the epoch has, of which the seat has the receipts: none, or one at position 0.
fn entered<J: Naming>(shared: &Shared<J>, seat: &Seat<J>) -> Option<u64> {
    let position = match seat.receipts() {
        [] => return if shared.entries() == 0 { Some(0) } else { None },
        [Receipt::Call { position, .. }] | [Receipt::Commit { position, .. }] => *position,
        _ => return None,
    };
    if shared.entries() == 1 && position == 0 {
        Some(1)
    } else {
        None
    }
}

/// What a call came to that gives application 1 or the second reply to an Allocate, or is a Refresh.
fn end_of_call(reply: &OwnedReply<RESOURCES>) -> ActEnd {
    let is_made = match reply {
        ReplyWith::Submit { app } => *app == 1,
        ReplyWith::Allocate { reply } => reply.response == 2,
        ReplyWith::Refresh => true,
        _ => false,
    };
    if is_made { ActEnd::Made } else { ActEnd::Other }
}

/// Makes the call. The request comes back where memory was refused.
fn call<J: Naming, H: Wait>(
    rt: &H,
    shared: &Shared<J>,
    seat: &mut Seat<J>,
    tools: &mut Tools,
) -> ActEnd {
    let Some(request) = tools.request.take() else {
        return ActEnd::Other;
    };
    match shared.call(rt, seat, request) {
        Ok(reply) => end_of_call(&reply),
        Err(CallFault::NoMemory(back)) => {
            tools.request = Some(back);
            ActEnd::Refused
        }
        Err(CallFault::Sealed(_)) => ActEnd::Other,
    }
}

/// A grant of the container that application 1 asks for.
pub fn grant() -> Option<Proposal<RESOURCES>> {
    proposal(ProposalKind::Grant, (1, (1, 0), 1), [1024, 1])
}

/// Whether it is that grant.
fn is_grant(proposal: &Proposal<RESOURCES>) -> bool {
    let key = proposal.key();
    proposal.is_grant()
        && (proposal.app(), proposal.node()) == (1, 1)
        && (key.priority, key.request) == (1, 0)
        && proposal.resource().amounts() == [1024, 1, 0]
}

fn end_of_commit(verdict: &Verdict<RESOURCES>) -> ActEnd {
    match verdict {
        Verdict::Done(Event::Grant { container }) if container.number == 1 => ActEnd::Made,
        _ => ActEnd::Other,
    }
}

fn end_of_fault(fault: &CommitFault) -> ActEnd {
    match fault {
        CommitFault::NoMemory(back) if is_grant(back) => ActEnd::Refused,
        _ => ActEnd::Other,
    }
}

/// Commits that grant, which makes container 1 or comes back.
fn commit<J: Naming, H: Wait>(rt: &H, shared: &Shared<J>, seat: &mut Seat<J>) -> ActEnd {
    let Some(grant) = grant() else {
        return ActEnd::Other;
    };
    match shared.commit(rt, seat, grant) {
        Ok(verdict) => end_of_commit(&verdict),
        Err(fault) => end_of_fault(&fault),
    }
}

fn end_of_turn(end: &TurnEnd) -> ActEnd {
    match end {
        TurnEnd::Done(_) => ActEnd::Made,
        TurnEnd::NoMemory => ActEnd::Refused,
        _ => ActEnd::Other,
    }
}

fn turn<J: Naming, H: Wait>(
    rt: &H,
    shared: &Shared<J>,
    seat: &mut Seat<J>,
    tools: &mut Tools,
) -> ActEnd {
    let turn = tools
        .worker
        .turn(rt, shared, seat, &mut tools.arena, &OpenGate);
    tools.keep_arena(turn.reset);
    end_of_turn(&turn.end)
}

fn offer<J: Naming, H: Wait>(
    rt: &H,
    shared: &Shared<J>,
    seat: &mut Seat<J>,
    tools: &mut Tools,
    putter: &mut Putter,
) -> ActEnd {
    let offer = tools
        .worker
        .offer(rt, shared, seat, putter, &mut tools.arena, &OpenGate);
    tools.keep_arena(offer.reset);
    match &offer.end {
        OfferEnd::Put => ActEnd::Made,
        OfferEnd::NoMemory => ActEnd::Refused,
        _ => ActEnd::Other,
    }
}

/// Makes an act. An offer is put by the first of the putters.
fn make<J: Naming, H: Wait>(
    rt: &H,
    shared: &Shared<J>,
    seat: &mut Seat<J>,
    tools: &mut Tools,
    act: Act,
    putters: &mut [Putter],
) -> ActEnd {
    match (act, putters.first_mut()) {
        (Act::Call(_), _) => call(rt, shared, seat, tools),
        (Act::Commit, _) => commit(rt, shared, seat),
        (Act::Turn, _) => turn(rt, shared, seat, tools),
        (Act::Offer, Some(putter)) => offer(rt, shared, seat, tools, putter),
        (Act::Offer, None) => ActEnd::Other,
    }
}

/// What comes of an act where memory is short: a refusal enters nothing, and the act is made once memory is there. An offer enters nothing.
fn judged<J: Naming, H: Wait>(
    rt: &H,
    shortage: &mut Shortage<'_>,
    shared: &Shared<J>,
    seat: &mut Seat<J>,
    tools: &mut Tools,
    act: Act,
    putters: &mut [Putter],
) -> Came {
    shortage.begin();
    let first = make(rt, shared, seat, tools, act, putters);
    shortage.end();
    let was_refused = first == ActEnd::Refused;
    if was_refused && entered(shared, seat) != Some(0) {
        return Came::Other;
    }
    let last = if was_refused {
        make(rt, shared, seat, tools, act, putters)
    } else {
        first
    };
    let wanted = match act {
        Act::Offer => 0,
        Act::Call(_) | Act::Commit | Act::Turn => 1,
    };
    let is_so = last == ActEnd::Made && entered(shared, seat) == Some(wanted);
    came_of(was_refused, is_so)
}

/// Whether the committer takes the grant of worker 0 and then, once all putters have finished, nothing else.
fn takes_one<H: Wait>(rt: &H, committer: &mut Committer, putters: [Putter; 8]) -> bool {
    let first = match committer.take(rt) {
        Some((worker, proposal)) => worker == 0 && is_grant(&proposal),
        None => false,
    };
    for putter in putters {
        let _ended = putter.finish(rt);
    }
    first && committer.take(rt).is_none()
}

fn offered<J: Naming, H: Wait>(
    rt: &H,
    shortage: &mut Shortage<'_>,
    shared: &Shared<J>,
    seat: &mut Seat<J>,
    tools: &mut Tools,
) -> Option<Came> {
    let (mut committer, mut putters) = lanes(shortage.alloc, 64).ok()?;
    let came = judged(rt, shortage, shared, seat, tools, Act::Offer, &mut putters);
    let is_taken = takes_one(rt, &mut committer, putters);
    Some(if is_taken { came } else { Came::Other })
}

/// What comes of an act where memory is short.
pub fn make_act<J: Naming, H: Wait>(
    rt: &H,
    shortage: &mut Shortage<'_>,
    shared: &Shared<J>,
    seat: &mut Seat<J>,
    act: Act,
) -> Came {
    let mut tools = Tools::new(shortage.alloc, act);
    match act {
        Act::Call(_) if tools.request.is_none() => Came::Beside,
        Act::Offer => { offered(rt, shortage, shared, seat, &mut tools).unwrap_or(Came::Beside) }
        _ => judged(rt, shortage, shared, seat, &mut tools, act, &mut []),
    }
}
