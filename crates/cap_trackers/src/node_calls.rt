//! RegisterNode, Heartbeat and NodeGone: a node manager joins, reports what has ended, and is declared lost.
ghost use Rattle.std.specs.Prelude.{◌≡◌};
ghost use Rattle.cap_model.specs.declared.request.Request.TheVariants.{RegisterNode, Heartbeat, NodeGone};
ghost use Rattle.cap_model.specs.Reporting.{HasNumbers, RepliesInFull, RepliesInFullAlways};
ghost use Rattle.cap_model.specs.RegisterNode.{register_node_refusal};

use cap_commit::{Cluster, Owner};
use cap_model::{
    Cause, NODES_MAX, NUMBER_END, NoMemory, Numbers, Refusal, Reply, ShortText, first_refusal,
};
use cap_vector::{Resource, checked_add};

/// A node manager joins with a host, a rack and a total in MiB, vcores and GPUs, and with no container; the reply gives the
/// node's number, which no other node has or had. Refused with `HostTaken`, `TotalTooLarge`, `TooManyNodes`, `ZeroResource` or
/// `NumbersSpent`, or with `NoMemory` if an allocation fails; a refusal changes nothing.
pub fn register_node<const K: usize>(
    cluster: &mut Cluster<K>,
    host: &ShortText,
    rack: &ShortText,
    total: &Resource<K>,
) -> Reply<K>
    ensures replies { RepliesInFull cluster.old.flat (RegisterNode host.now rack.now total.now)
        result cluster.new.flat }
    ensures numbers { HasNumbers cluster.new.flat result }
{
    match refusal(cluster, host, total) {
        Some(refusal) => Reply::Refused(refusal),
        None => match cluster.add_node(host, rack, total) {
            Ok(node) => Reply::RegisterNode { node },
            Err(NoMemory) => Reply::Refused(Refusal::NoMemory),
        },
    }
}

/// The first refusal that holds for such a node, memory aside.
fn refusal<const K: usize>(
    cluster: &Cluster<K>,
    host: &ShortText,
    total: &Resource<K>,
) -> Option<Refusal>
    ensures { result ≡ register_node_refusal cluster.now.flat host.now total.now }
{
    let nodes = cluster.nodes();
    first_refusal(&[
        (nodes.is_host_taken(host.as_bytes()), Refusal::HostTaken),
        (
            checked_add(&nodes.total(), total).is_none(),
            Refusal::TotalTooLarge,
        ),
        (nodes.count() >= NODES_MAX, Refusal::TooManyNodes),
        (total.is_zero(), Refusal::ZeroResource),
        (nodes.next_node() >= NUMBER_END, Refusal::NumbersSpent),
    ])
}

/// A node manager reports which containers have ended on it. Those that are live there end, which is to be reported to their
/// applications; the others, and those named before, are counted as ignored. The reply gives the new response id, how many were ignored,
/// and how many are live there now. `response` is the response id of the last reply to the node, 0 at first. A report that comes
/// again with the id of the last processed one is answered with the kept reply and changes nothing. Refused with
/// `BadResponseId` or `UnknownNode`, which changes nothing. It takes no memory.
pub fn heartbeat<const K: usize>(
    cluster: &mut Cluster<K>,
    node: u64,
    response: u32,
    ended: &Numbers,
) -> Reply<K>
    ensures replies { RepliesInFullAlways cluster.old.flat (Heartbeat node response ended.now)
        result cluster.new.flat }
    ensures numbers { HasNumbers cluster.new.flat result }
{
    let nodes = cluster.nodes();
    nodes.numbers_rise();
    let Some(found) = nodes.node(node) else {
        return Reply::Refused(Refusal::UnknownNode);
    };
    if found.is_bad_id(response) {
        return Reply::Refused(Refusal::BadResponseId);
    }
    if let Some(reply) = found.repeated(response) {
        return Reply::Heartbeat { reply };
    }
    let ignored = cluster.end_named(Owner::Node(node), ended.as_slice(), Cause::EndedOnNode);
    let reply = cluster.beat(node, ignored);
    Reply::Heartbeat { reply }
}

/// A node is declared lost: its containers end, in order of number, which is to be reported to their applications. Its
/// number is unknown from then on, and its host is free again. The reply gives how many containers ended. Refused with
/// `UnknownNode`, which changes nothing. It takes no memory.
pub fn node_gone<const K: usize>(cluster: &mut Cluster<K>, node: u64) -> Reply<K>
    ensures replies { RepliesInFullAlways cluster.old.flat (NodeGone node) result cluster.new.flat }
    ensures numbers { HasNumbers cluster.new.flat result }
{
    if cluster.nodes().node(node).is_none() {
        return Reply::Refused(Refusal::UnknownNode);
    }
    let ended = cluster.end_all(Owner::Node(node), Cause::NodeLost);
    cluster.drop_node(node);
    Reply::NodeGone { ended }
}
