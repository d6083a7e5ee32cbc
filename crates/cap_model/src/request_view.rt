//! A request whose lists and texts are lent from where they lie (`RequestView`).
ghost use Rattle.std.specs.Prelude.{◌≡◌};
ghost use Rattle.cap_model.specs.Stored.{request_of};

use crate::list::{Asks, Numbers, SettingsText};
use crate::request::Request;
use cap_base::{PathText, ShortText};
use cap_vector::Resource;

/// A request: its numbers, and its lists and texts lent.
#[derive(Clone, Copy)]
pub enum RequestView<'a, const K: usize> {
    Submit {
        path: &'a PathText,
        user: &'a ShortText,
    },
    RegisterMaster {
        app: u64,
    },
    Allocate {
        app: u64,
        response: u32,
        asks: &'a Asks<K>,
        releases: &'a Numbers,
    },
    FinishMaster {
        app: u64,
    },
    RegisterNode {
        host: &'a ShortText,
        rack: &'a ShortText,
        total: &'a Resource<K>,
    },
    Heartbeat {
        node: u64,
        response: u32,
        ended: &'a Numbers,
    },
    NodeGone {
        node: u64,
    },
    QueueInfo {
        path: &'a PathText,
    },
    SetQueueState {
        path: &'a PathText,
        running: bool,
    },
    ClusterInfo,
    Refresh {
        text: &'a SettingsText,
    },
}

impl<const K: usize> Request<K> {
    /// The same request, lent.
    #[inline(always)]
    pub fn view(&self) -> RequestView<'_, K>
        ensures { request_of result ≡ self.now }
    {
        match self {
            Request::Submit { path, user } => RequestView::Submit { path, user },
            Request::RegisterMaster { app } => RequestView::RegisterMaster { app: *app },
            Request::Allocate {
                app,
                response,
                asks,
                releases,
            } => RequestView::Allocate {
                app: *app,
                response: *response,
                asks,
                releases,
            },
            Request::FinishMaster { app } => RequestView::FinishMaster { app: *app },
            Request::RegisterNode { host, rack, total } => {
                RequestView::RegisterNode { host, rack, total }
            }
            Request::Heartbeat {
                node,
                response,
                ended,
            } => RequestView::Heartbeat {
                node: *node,
                response: *response,
                ended,
            },
            Request::NodeGone { node } => RequestView::NodeGone { node: *node },
            Request::QueueInfo { path } => RequestView::QueueInfo { path },
            Request::SetQueueState { path, running } => RequestView::SetQueueState {
                path,
                running: *running,
            },
            Request::ClusterInfo => RequestView::ClusterInfo,
            Request::Refresh { text } => RequestView::Refresh { text },
        }
    }
}
