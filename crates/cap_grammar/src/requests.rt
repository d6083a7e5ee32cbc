//! Requests: the numbers of the eleven kinds (`kind`), and a payload read as a request of one of them (`read_request`).
ghost use Rattle.std.specs.Prelude.{◌≡◌, ◌⊎◌, IfOk, IsErrOf};
ghost use Rattle.std.specs.Int.{w16, w32};
ghost use Rattle.cap_base.specs.Limits.{resources};
ghost use Rattle.cap_model.specs.declared.request.Request.{Request};
ghost use Rattle.cap_grammar.specs.Spelling.{IsRequest, IsNoRequest, kind_of};
ghost use Rattle.cap_grammar.specs.Fields.{Gives, all_at, made_at};
ghost use Rattle.cap_grammar.specs.Descriptions.{nothing, u64, text_that};
ghost use Rattle.cap_grammar.specs.Texts.{is_path};
ghost use Rattle.cap_grammar.specs.Versions.{amounts_in};
ghost use Rattle.cap_grammar.specs.declared.head.Head.{Head};
ghost use Rattle.cap_grammar.specs.Bodies.{submission, wishes, registration, node_report, queue_state, lines, body_at, HasItemsAt, ListsItems};
ghost use Rattle.cap_grammar.specs.Reading.{GivesInMemory, CarriesItems, a_head, request_at};

use crate::fault::MessageFault;
use crate::fields::{amounts_of, byte_of, flag_of, text_of, u32_of, u64_of};
use crate::head::{Head, has_version};
use crate::lists::{asks_of, lines_of, numbers_of};
use crate::texts::{host_from, path_from, rack_from, user_from};
use cap_base::RESOURCES;
use cap_model::Request;
use cap_vector::Resource;
use std::alloc::Global;

pub(crate) const SUBMIT: u8 = 1;

pub(crate) const REGISTER_MASTER: u8 = 2;

pub(crate) const ALLOCATE: u8 = 3;

pub(crate) const FINISH_MASTER: u8 = 4;

pub(crate) const REGISTER_NODE: u8 = 5;

pub(crate) const HEARTBEAT: u8 = 6;

pub(crate) const NODE_GONE: u8 = 7;

pub(crate) const QUEUE_INFO: u8 = 8;

pub(crate) const SET_QUEUE_STATE: u8 = 9;

pub(crate) const CLUSTER_INFO: u8 = 10;

pub(crate) const REFRESH: u8 = 11;

/// The last of the kinds.
pub(crate) const LAST_KIND: u8 = REFRESH;

/// The number of the request's kind, which its reply repeats: 1 for Submit, 2 for RegisterMaster, 3 for Allocate,
/// 4 for FinishMaster, 5 for RegisterNode, 6 for Heartbeat, 7 for NodeGone, 8 for QueueInfo, 9 for SetQueueState,
/// 10 for ClusterInfo, 11 for Refresh.
pub fn kind(request: &Request<RESOURCES>) -> u8
    ensures { result ≡ kind_of request.now }
{
    match request {
        Request::Submit { .. } => SUBMIT,
        Request::RegisterMaster { .. } => REGISTER_MASTER,
        Request::Allocate { .. } => ALLOCATE,
        Request::FinishMaster { .. } => FINISH_MASTER,
        Request::RegisterNode { .. } => REGISTER_NODE,
        Request::Heartbeat { .. } => HEARTBEAT,
        Request::NodeGone { .. } => NODE_GONE,
        Request::QueueInfo { .. } => QUEUE_INFO,
        Request::SetQueueState { .. } => SET_QUEUE_STATE,
        Request::ClusterInfo => CLUSTER_INFO,
        Request::Refresh { .. } => REFRESH,
    }
}

// A body that is one number.
fn number_of(bytes: &[u8]) -> Result<u64, MessageFault>
    ensures { Gives (λ n. n) result (all_at u64.read bytes.now) }
{
    let (number, rest) = u64_of(bytes)?;
    if !rest.is_empty() {
        return Err(MessageFault::Bad);
    }
    Ok(number)
}

// The body of a Submit, all of the bytes.
#[tactic(auto, unfolding(crate::specs::Bodies::submission))]
fn submit_of(bytes: &[u8]) -> Result<Request<RESOURCES>, MessageFault>
    ensures { Gives (λ x. x) result
        (all_at (made_at (λ x. Request.Submit x.0 x.1) submission.read) bytes.now) }
{
    let (path, rest) = text_of(bytes)?;
    let path = path_from(path)?;
    let (user, rest) = text_of(rest)?;
    let user = user_from(user)?;
    if !rest.is_empty() {
        return Err(MessageFault::Bad);
    }
    Ok(Request::Submit { path, user })
}

// The body of an Allocate, all of the bytes.
#[tactic(auto, unfolding(crate::specs::Bodies::wishes))]
fn allocate_of(alloc: Global, version: u8, bytes: &[u8]) -> Result<Request<RESOURCES>, MessageFault>
    ensures gives { GivesInMemory (λ x. x) result
        (all_at (made_at (λ x. Request.Allocate x.0 x.1.0 x.1.1.0 x.1.1.1)
        (wishes resources (amounts_in version)).read) bytes.now) }
    ensures memory { IsErrOf result MessageFault.NoMemory
        → HasItemsAt w16 12 bytes.now ⊎ HasItemsAt w16 14 bytes.now }
{
    let (app, rest) = u64_of(bytes)?;
    let (response, rest) = u32_of(rest)?;
    let (asks, rest) = asks_of(alloc, version, rest)?;
    let (releases, rest) = numbers_of(alloc, rest)?;
    if !rest.is_empty() {
        return Err(MessageFault::Bad);
    }
    Ok(Request::Allocate {
        app,
        response,
        asks,
        releases,
    })
}

// The body of a RegisterNode, all of the bytes.
#[tactic(auto, unfolding(crate::specs::Bodies::registration))]
fn register_node_of(version: u8, bytes: &[u8]) -> Result<Request<RESOURCES>, MessageFault>
    ensures { Gives (λ x. x) result
        (all_at (made_at (λ x. Request.RegisterNode x.0 x.1.0 x.1.1)
        (registration resources (amounts_in version)).read) bytes.now) }
{
    let (host, rest) = text_of(bytes)?;
    let host = host_from(host)?;
    let (rack, rest) = text_of(rest)?;
    let rack = rack_from(rack)?;
    let (amounts, rest) = amounts_of(version, rest)?;
    let Some(total) = Resource::new(amounts) else {
        return Err(MessageFault::Bad);
    };
    if !rest.is_empty() {
        return Err(MessageFault::Bad);
    }
    Ok(Request::RegisterNode { host, rack, total })
}

// The body of a Heartbeat, all of the bytes.
#[tactic(auto, unfolding(crate::specs::Bodies::node_report))]
fn heartbeat_of(alloc: Global, bytes: &[u8]) -> Result<Request<RESOURCES>, MessageFault>
    ensures gives { GivesInMemory (λ x. x) result
        (all_at (made_at (λ x. Request.Heartbeat x.0 x.1.0 x.1.1) node_report.read) bytes.now) }
    ensures memory { IsErrOf result MessageFault.NoMemory → HasItemsAt w16 12 bytes.now }
{
    let (node, rest) = u64_of(bytes)?;
    let (response, rest) = u32_of(rest)?;
    let (ended, rest) = numbers_of(alloc, rest)?;
    if !rest.is_empty() {
        return Err(MessageFault::Bad);
    }
    Ok(Request::Heartbeat {
        node,
        response,
        ended,
    })
}

// The body of a QueueInfo, all of the bytes.
fn queue_info_of(bytes: &[u8]) -> Result<Request<RESOURCES>, MessageFault>
    ensures { Gives (λ x. x) result
        (all_at (made_at Request.QueueInfo (text_that is_path).read) bytes.now) }
{
    let (path, rest) = text_of(bytes)?;
    let path = path_from(path)?;
    if !rest.is_empty() {
        return Err(MessageFault::Bad);
    }
    Ok(Request::QueueInfo { path })
}

// The body of a SetQueueState, all of the bytes.
#[tactic(auto, unfolding(crate::specs::Bodies::queue_state))]
fn set_queue_state_of(bytes: &[u8]) -> Result<Request<RESOURCES>, MessageFault>
    ensures { Gives (λ x. x) result
        (all_at (made_at (λ x. Request.SetQueueState x.0 x.1) queue_state.read) bytes.now) }
{
    let (path, rest) = text_of(bytes)?;
    let path = path_from(path)?;
    let (running, rest) = flag_of(rest)?;
    if !rest.is_empty() {
        return Err(MessageFault::Bad);
    }
    Ok(Request::SetQueueState { path, running })
}

// The body of a ClusterInfo, which is empty.
fn cluster_info_of(bytes: &[u8]) -> Result<Request<RESOURCES>, MessageFault>
    ensures { Gives (λ x. x) result
        (all_at (made_at (λ x. Request.ClusterInfo) nothing.read) bytes.now) }
{
    if !bytes.is_empty() {
        return Err(MessageFault::Bad);
    }
    Ok(Request::ClusterInfo)
}

// The body of a Refresh, all of the bytes.
fn refresh_of(alloc: Global, bytes: &[u8]) -> Result<Request<RESOURCES>, MessageFault>
    ensures gives { GivesInMemory (λ x. x) result
        (all_at (made_at Request.Refresh lines.read) bytes.now) }
    ensures memory { IsErrOf result MessageFault.NoMemory → HasItemsAt w32 0 bytes.now }
{
    let (text, rest) = lines_of(alloc, bytes)?;
    if !rest.is_empty() {
        return Err(MessageFault::Bad);
    }
    Ok(Request::Refresh { text })
}

// Version, kind and call id.
#[tactic(auto, unfolding(crate::specs::Reading::a_head))]
pub(crate) fn head_of(bytes: &[u8]) -> Result<((u8, u8, u32), &[u8]), MessageFault>
    ensures { Gives (λ x. ((x.0.0, (x.0.1, x.0.2)), x.1.now)) result (a_head.read bytes.now) }
{
    let (version, rest) = byte_of(bytes)?;
    let (kind, rest) = byte_of(rest)?;
    let (call_id, rest) = u32_of(rest)?;
    Ok(((version, kind, call_id), rest))
}

#[tactic(auto, unfolding(crate::specs::Bodies::body_at))]
fn body_of(
    alloc: Global,
    version: u8,
    kind: u8,
    bytes: &[u8],
) -> Result<Request<RESOURCES>, MessageFault>
    ensures gives { GivesInMemory (λ x. x) result
        (all_at (body_at resources version kind) bytes.now) }
    ensures memory { IsErrOf result MessageFault.NoMemory → ListsItems kind bytes.now }
{
    match kind {
        SUBMIT => submit_of(bytes),
        REGISTER_MASTER => Ok(Request::RegisterMaster {
            app: number_of(bytes)?,
        }),
        ALLOCATE => allocate_of(alloc, version, bytes),
        FINISH_MASTER => Ok(Request::FinishMaster {
            app: number_of(bytes)?,
        }),
        REGISTER_NODE => register_node_of(version, bytes),
        HEARTBEAT => heartbeat_of(alloc, bytes),
        NODE_GONE => Ok(Request::NodeGone {
            node: number_of(bytes)?,
        }),
        QUEUE_INFO => queue_info_of(bytes),
        SET_QUEUE_STATE => set_queue_state_of(bytes),
        CLUSTER_INFO => cluster_info_of(bytes),
        REFRESH => refresh_of(alloc, bytes),
        _ => Err(MessageFault::Bad),
    }
}

#[tactic(auto, unfolding(crate::specs::Reading::request_at))]
fn request_of(alloc: Global, bytes: &[u8]) -> Result<(Head, Request<RESOURCES>), MessageFault>
    ensures gives { GivesInMemory (λ x. (x.0, x.1)) result (request_at resources bytes.now) }
    ensures memory { IsErrOf result MessageFault.NoMemory → CarriesItems bytes.now }
{
    let ((version, kind, call_id), rest) = head_of(bytes)?;
    if !has_version(version) {
        return Err(MessageFault::Bad);
    }
    let request = body_of(alloc, version, kind, rest)?;
    Ok((Head { version, call_id }, request))
}

/// The head and the request that a payload spells, with all of its bytes. `Bad` exactly where it spells none: a version other
/// than 1 and 2, another kind, a text, a list or an amount over its bound, a text with length 0 or another byte, a host that is
/// `*` or begins with `/`, a rack that does not, a state other than 0 and 1, bytes missing or left over. `NoMemory` if an
/// allocation fails, which only a payload of version 1 or 2 with a list or property lines that are not empty can meet. Amounts
/// are in MiB of memory, in vcores and, in version 2, in GPUs, of which each vector in version 1 has 0.
pub fn read_request(alloc: Global, bytes: &[u8]) -> Result<(Head, Request<RESOURCES>), MessageFault>
    // What is read is spelled so.
    ensures found { IfOk result (λ x. IsRequest bytes.now x.0 x.1) }
    // What is spelled so is read, and nothing else.
    ensures only { (head : Head) (request : Request resources) → IsRequest bytes.now head request
        → IfOk result (λ x. (x.0 ≡ head) × (x.1 ≡ request)) }
    ensures bad { IsErrOf result MessageFault.Bad → IsNoRequest resources bytes.now }
    ensures memory { IsErrOf result MessageFault.NoMemory → CarriesItems bytes.now }
{
    request_of(alloc, bytes)
}
