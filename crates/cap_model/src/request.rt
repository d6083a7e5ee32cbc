//! The eleven calls of clients, application masters, node managers and operators (`Request`).
ghost use Rattle.std.specs.Prelude.{◌≡◌, IfOk};

use crate::list::{Asks, Numbers, SettingsText};
use cap_base::{NoMemory, PathText, ShortText};
use cap_vector::Resource;
use std::alloc::Global;

/// A call of an application master, a node manager or an operator.
#[derive(Drop)]
pub enum Request<const K: usize> {
    /// An application enters a leaf queue for a user.
    Submit {
        path: PathText,
        user: ShortText,
    },
    /// The master of an application reports, once.
    RegisterMaster {
        app: u64,
    },
    /// A master asks for containers, releases some, and reads what was granted and what has ended.
    Allocate {
        app: u64,
        response: u32,
        asks: Asks<K>,
        releases: Numbers,
    },
    /// An application ends, and its containers with it.
    FinishMaster {
        app: u64,
    },
    /// A node manager joins the cluster.
    RegisterNode {
        host: ShortText,
        rack: ShortText,
        total: Resource<K>,
    },
    /// A node manager reports which containers have ended on it.
    Heartbeat {
        node: u64,
        response: u32,
        ended: Numbers,
    },
    /// A node is declared lost.
    NodeGone {
        node: u64,
    },
    /// What an operator sees of a queue.
    QueueInfo {
        path: PathText,
    },
    /// A queue is started or stopped: `yarn.scheduler.capacity.<queue-path>.state`.
    SetQueueState {
        path: PathText,
        running: bool,
    },
    /// What the cluster holds.
    ClusterInfo,
    /// All settings become those of property lines, as by `yarn rmadmin -refreshQueues`.
    Refresh {
        text: SettingsText,
    },
}

impl<const K: usize> Request<K> {
    /// The same request, which shares its lists with this one. If there is no memory for it there is none.
    pub fn copy(&self, _alloc: Global) -> Result<Request<K>, NoMemory>
        ensures { IfOk result (λ copy. copy ≡ self.now) }
    {
        Ok(match self {
            Request::Submit { path, user } => Request::Submit {
                path: *path,
                user: *user,
            },
            Request::RegisterMaster { app } => Request::RegisterMaster { app: *app },
            Request::Allocate {
                app,
                response,
                asks,
                releases,
            } => Request::Allocate {
                app: *app,
                response: *response,
                asks: asks.share()?,
                releases: releases.share()?,
            },
            Request::FinishMaster { app } => Request::FinishMaster { app: *app },
            Request::RegisterNode { host, rack, total } => Request::RegisterNode {
                host: *host,
                rack: *rack,
                total: *total,
            },
            Request::Heartbeat {
                node,
                response,
                ended,
            } => Request::Heartbeat {
                node: *node,
                response: *response,
                ended: ended.share()?,
            },
            Request::NodeGone { node } => Request::NodeGone { node: *node },
            Request::QueueInfo { path } => Request::QueueInfo { path: *path },
            Request::SetQueueState { path, running } => Request::SetQueueState {
                path: *path,
                running: *running,
            },
            Request::ClusterInfo => Request::ClusterInfo,
            Request::Refresh { text } => Request::Refresh {
                text: text.share()?,
            },
        })
    }
}
