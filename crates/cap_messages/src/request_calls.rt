//! The call that a request names, made on the cluster and answered (`dispatch`, `dispatch_view` for one lent, `make` for one ready).
ghost use Rattle.cap_model.specs.Reporting.{HasNumbers, RepliesInFull, full_reply};
ghost use Rattle.cap_model.specs.Stored.{request_of};
ghost use Rattle.std.specs.Prelude.{◌≡◌};
ghost use Rattle.cap_grammar.specs.Spelling.{IsOfKind, kind_of};
ghost use Rattle.cap_messages.specs.Ready.{lines_of};

use crate::ready::ReadyRequest;
use cap_base::RESOURCES;
use cap_commit::Cluster;
use cap_masters::{allocate, finish_master, register_master, submit};
use cap_model::{Reply, Request, RequestView};
use cap_trackers::{
    ReadSettings, cluster_info, heartbeat, node_gone, queue_info, refresh, refresh_with,
    register_node, set_queue_state,
};
use std::alloc::Global;

/// Makes ready the call that the request names, makes it, and answers it; `Cluster::view` lends the reply in full. A refusal changes
/// nothing, and neither does a failed allocation.
pub fn dispatch(
    alloc: Global,
    cluster: &mut Cluster<RESOURCES>,
    request: &Request<RESOURCES>,
) -> Reply<RESOURCES>
    ensures replies { RepliesInFull cluster.old.flat request.now result cluster.new.flat }
    ensures numbers { HasNumbers cluster.new.flat result }
    ensures kind { IsOfKind (kind_of request.now) (full_reply cluster.new.flat result) }
{
    dispatch_view(alloc, cluster, request.view())
}

/// Makes the call that a lent request names, as `dispatch` does; no list and no text of it is copied.
pub fn dispatch_view(
    alloc: Global,
    cluster: &mut Cluster<RESOURCES>,
    request: RequestView<'_, RESOURCES>,
) -> Reply<RESOURCES>
    ensures replies { RepliesInFull cluster.old.flat (request_of request.entry) result
        cluster.new.flat }
    ensures numbers { HasNumbers cluster.new.flat result }
    ensures kind { IsOfKind (kind_of (request_of request.entry))
        (full_reply cluster.new.flat result) }
{
    match request {
        RequestView::Refresh { text } => refresh(alloc, cluster, text),
        _ => make_named(cluster, request, &None),
    }
}

/// Makes the call that a request names which is ready, as `dispatch` does of any: a Refresh takes the settings that were read.
pub fn make(cluster: &mut Cluster<RESOURCES>, ready: &ReadyRequest<'_>) -> Reply<RESOURCES>
    ensures replies { RepliesInFull cluster.old.flat ready.now result cluster.new.flat }
    ensures numbers { HasNumbers cluster.new.flat result }
    ensures kind { IsOfKind (kind_of ready.now) (full_reply cluster.new.flat result) }
{
    make_named(cluster, ready.request.view(), &ready.settings)
}

/// Makes the call that a request names; a Refresh takes these settings, which are those of its lines.
#[inline(always)]
fn make_named(
    cluster: &mut Cluster<RESOURCES>,
    request: RequestView<'_, RESOURCES>,
    settings: &Option<ReadSettings<'_>>,
) -> Reply<RESOURCES>
    requires { settings.now ≡ lines_of (request_of request) }
    ensures replies { RepliesInFull cluster.old.flat (request_of request.entry) result
        cluster.new.flat }
    ensures numbers { HasNumbers cluster.new.flat result }
    ensures kind { IsOfKind (kind_of (request_of request.entry))
        (full_reply cluster.new.flat result) }
{
    match request {
        RequestView::Submit { path, user } => submit(cluster, path, user),
        RequestView::RegisterMaster { app } => register_master(cluster, app),
        RequestView::Allocate {
            app,
            response,
            asks,
            releases,
        } => allocate(cluster, app, response, asks, releases),
        RequestView::FinishMaster { app } => finish_master(cluster, app),
        RequestView::RegisterNode { host, rack, total } => {
            register_node(cluster, host, rack, total)
        }
        RequestView::Heartbeat {
            node,
            response,
            ended,
        } => heartbeat(cluster, node, response, ended),
        RequestView::NodeGone { node } => node_gone(cluster, node),
        RequestView::QueueInfo { path } => queue_info(cluster, path),
        RequestView::SetQueueState { path, running } => set_queue_state(cluster, path, running),
        RequestView::ClusterInfo => cluster_info(cluster),
        RequestView::Refresh { .. } => {
            let Some(settings) = settings else {
                unreachable!()
            };
            refresh_with(cluster, settings)
        }
    }
}
