//! What an entry of the journal made of the cluster, as another cluster makes it again (`Deed`).
ghost use Rattle.std.specs.Prelude.{◌≡◌, IfOk, OnOk, OnErr};
ghost use Rattle.cap_model.specs.Events.{is_no_memory};
ghost use Rattle.cap_model.specs.Replies.{after_request};
ghost use Rattle.cap_shared.specs.declared.deed.Deed.TheVariants as deed;
ghost use Rattle.cap_shared.specs.Following.{deed_of, IsMadeAgain};

use crate::call_room::is_no_memory;
use cap_base::RESOURCES;
use cap_commit::Cluster;
use cap_messages::dispatch_view;
use cap_model::{
    Event, NoMemory, OwnedReply, Proposal, ProposalKind, Refusal, ReplyWith, StoredRequest,
};
use std::alloc::Global;

/// What an entry made of the cluster, without what it was answered.
#[derive(Drop)]
pub enum Deed {
    /// A call that found no memory, and changed nothing.
    Nothing,
    /// A call that was answered.
    Call(StoredRequest<RESOURCES>),
    /// A proposal that was made.
    Propose(Proposal<RESOURCES>),
}

impl Deed {
    /// What an event made; it shares the request of a call. It takes no memory. If a request has too many owners there is none.
    pub(crate) fn of(event: &Event<RESOURCES>) -> Result<Deed, NoMemory>
        ensures { IfOk result (λ made. made ≡ deed_of event.now) }
    {
        match event {
            Event::Call { request, reply, .. } => {
                if found_no_memory(reply) {
                    return Ok(Deed::Nothing);
                }
                Ok(Deed::Call(request.share()?))
            }
            Event::Grant { container } => Ok(Deed::Propose(Proposal {
                kind: ProposalKind::Grant,
                app: container.app,
                key: container.key,
                node: container.node,
                resource: container.resource,
            })),
            Event::Reserve { reservation } => Ok(Deed::Propose(Proposal {
                kind: ProposalKind::Reserve,
                app: reservation.app,
                key: reservation.key,
                node: reservation.node,
                resource: reservation.resource,
            })),
        }
    }

    /// Makes the same of a cluster. If an allocation fails nothing changes.
    pub(crate) fn make(
        &self,
        alloc: Global,
        cluster: &mut Cluster<RESOURCES>,
    ) -> Result<(), NoMemory>
        ensures ok { OnOk result (IsMadeAgain cluster.old.flat self.now cluster.new.flat) }
        ensures err { OnErr result (cluster.new.flat ≡ cluster.old.flat) }
    {
        match self {
            Deed::Nothing => Ok(()),
            Deed::Call(request) => call_again(alloc, cluster, request),
            Deed::Propose(proposal) => commit_again(cluster, proposal),
        }
    }
}

/// Whether a reply says that no memory was found.
fn found_no_memory(reply: &OwnedReply<RESOURCES>) -> bool
    ensures { result ≡ is_no_memory reply.now }
{
    match reply {
        ReplyWith::Refused(Refusal::NoMemory) => true,
        _ => false,
    }
}

/// Makes a call of a cluster as it was made of another that was the same. If an allocation fails nothing changes.
fn call_again(
    alloc: Global,
    cluster: &mut Cluster<RESOURCES>,
    request: &StoredRequest<RESOURCES>,
) -> Result<(), NoMemory>
    ensures ok { OnOk result (IsMadeAgain cluster.old.flat (deed.Call request.now) cluster.new.flat) }
    ensures err { OnErr result (cluster.new.flat ≡ cluster.old.flat) }
{
    let answer = dispatch_view(alloc, cluster, request.view());
    if is_no_memory(&answer) {
        return Err(NoMemory);
    }
    Ok(())
}

/// Makes a proposal of a cluster as it was made of another that was the same. If an allocation fails nothing changes.
fn commit_again(
    cluster: &mut Cluster<RESOURCES>,
    proposal: &Proposal<RESOURCES>,
) -> Result<(), NoMemory>
    ensures ok { OnOk result
        (IsMadeAgain cluster.old.flat (deed.Propose proposal.now) cluster.new.flat) }
    ensures err { OnErr result (cluster.new.flat ≡ cluster.old.flat) }
{
    match cluster.try_commit(*proposal) {
        Ok(_verdict) => Ok(()),
        Err(NoMemory) => Err(NoMemory),
    }
}
