//! A request as events and journals keep it: a short one in place, any other behind a pointer that all its owners share
//! (`StoredRequest`).
ghost use Rattle.std.specs.Prelude.{◌≡◌, ◌≤◌, IfOk};
ghost use Rattle.cap_base.specs.Limits.{resources_max};
ghost use Rattle.cap_model.specs.Stored.{request_of};

use crate::list::{Asks, Numbers};
use crate::request::Request;
use crate::request_view::RequestView;
use cap_base::NoMemory;
use std::alloc::Global;
use std::marker::Model;
use std::sync::Arc;

/// How a request is kept: one of the kinds that are named here in place, and any other, as those with texts, which are long,
/// behind a pointer.
#[derive(Drop)]
pub enum RequestForm<const K: usize> {
    RegisterMaster {
        app: u64,
    },
    Allocate {
        response: u32,
        app: u64,
        asks: Asks<K>,
        releases: Numbers,
    },
    FinishMaster {
        app: u64,
    },
    Heartbeat {
        response: u32,
        node: u64,
        ended: Numbers,
    },
    NodeGone {
        node: u64,
    },
    ClusterInfo,
    Long(Arc<Request<K>>),
}

/// A request, in at most 40 bytes and what its lists and texts take, which its owners share. Contracts see the request.
pub struct StoredRequest<const K: usize> {
    form: RequestForm<K>,
}

impl<const K: usize> Drop for StoredRequest<K> {
    fn drop(self) {
        let StoredRequest { form: _ } = self;
    }
}

impl<const K: usize> Model for StoredRequest<K> {
    ghost use Rattle.std.specs.Prelude.{◌≤◌};
    ghost use Rattle.cap_base.specs.Limits.{resources_max};
    ghost use Rattle.cap_model.specs.declared.request.Request.{Request};
    ghost use Rattle.cap_model.specs.Stored.{request_in};

    ghost Value = { Request K };

    ghost view = { λ r. request_in r.form };

    // So the size of a request is known wherever one is dropped.
    ghost invariant = { λ r. K ≤ resources_max };
}

impl<const K: usize> StoredRequest<K> {
    /// The same request, which shares its lists with this one. If there is no memory for it there is none.
    pub fn of(alloc: Global, request: &Request<K>) -> Result<StoredRequest<K>, NoMemory>
        requires { K ≤ resources_max }
        ensures { IfOk result (λ stored. stored ≡ request.now) }
    {
        let form = match request {
            Request::RegisterMaster { app } => RequestForm::RegisterMaster { app: *app },
            Request::Allocate {
                app,
                response,
                asks,
                releases,
            } => RequestForm::Allocate {
                app: *app,
                response: *response,
                asks: asks.share()?,
                releases: releases.share()?,
            },
            Request::FinishMaster { app } => RequestForm::FinishMaster { app: *app },
            Request::Heartbeat {
                node,
                response,
                ended,
            } => RequestForm::Heartbeat {
                node: *node,
                response: *response,
                ended: ended.share()?,
            },
            Request::NodeGone { node } => RequestForm::NodeGone { node: *node },
            Request::ClusterInfo => RequestForm::ClusterInfo,
            _ => RequestForm::Long(shared(alloc, request.copy(alloc)?)?),
        };
        Ok(StoredRequest { form })
    }

    /// The same request, shared with this one: it takes no memory. If it has too many owners there is none.
    pub fn share(&self) -> Result<StoredRequest<K>, NoMemory>
        ensures { IfOk result (λ other. other ≡ self.now) }
    {
        let form = match &self.form {
            RequestForm::RegisterMaster { app } => RequestForm::RegisterMaster { app: *app },
            RequestForm::Allocate {
                app,
                response,
                asks,
                releases,
            } => RequestForm::Allocate {
                app: *app,
                response: *response,
                asks: asks.share()?,
                releases: releases.share()?,
            },
            RequestForm::FinishMaster { app } => RequestForm::FinishMaster { app: *app },
            RequestForm::Heartbeat {
                node,
                response,
                ended,
            } => RequestForm::Heartbeat {
                node: *node,
                response: *response,
                ended: ended.share()?,
            },
            RequestForm::NodeGone { node } => RequestForm::NodeGone { node: *node },
            RequestForm::ClusterInfo => RequestForm::ClusterInfo,
            RequestForm::Long(request) => match Arc::try_clone(request) {
                Ok(request) => RequestForm::Long(request),
                Err(_) => return Err(NoMemory),
            },
        };
        Ok(StoredRequest { form })
    }

    /// The request, which shares its lists with this one. If there is no memory for it there is none.
    pub fn request(&self, alloc: Global) -> Result<Request<K>, NoMemory>
        ensures { IfOk result (λ request. request ≡ self.now) }
    {
        match &self.form {
            RequestForm::RegisterMaster { app } => Ok(Request::RegisterMaster { app: *app }),
            RequestForm::Allocate {
                app,
                response,
                asks,
                releases,
            } => Ok(Request::Allocate {
                app: *app,
                response: *response,
                asks: asks.share()?,
                releases: releases.share()?,
            }),
            RequestForm::FinishMaster { app } => Ok(Request::FinishMaster { app: *app }),
            RequestForm::Heartbeat {
                node,
                response,
                ended,
            } => Ok(Request::Heartbeat {
                node: *node,
                response: *response,
                ended: ended.share()?,
            }),
            RequestForm::NodeGone { node } => Ok(Request::NodeGone { node: *node }),
            RequestForm::ClusterInfo => Ok(Request::ClusterInfo),
            RequestForm::Long(request) => request.copy(alloc),
        }
    }

    /// The same request, lent: nothing is copied.
    #[inline(always)]
    pub fn view(&self) -> RequestView<'_, K>
        ensures { request_of result ≡ self.now }
    {
        match &self.form {
            RequestForm::RegisterMaster { app } => RequestView::RegisterMaster { app: *app },
            RequestForm::Allocate {
                app,
                response,
                asks,
                releases,
            } => RequestView::Allocate {
                app: *app,
                response: *response,
                asks,
                releases,
            },
            RequestForm::FinishMaster { app } => RequestView::FinishMaster { app: *app },
            RequestForm::Heartbeat {
                node,
                response,
                ended,
            } => RequestView::Heartbeat {
                node: *node,
                response: *response,
                ended,
            },
            RequestForm::NodeGone { node } => RequestView::NodeGone { node: *node },
            RequestForm::ClusterInfo => RequestView::ClusterInfo,
            RequestForm::Long(request) => request.view(),
        }
    }
}

/// The request behind a pointer. If an allocation fails there is none.
fn shared<const K: usize>(alloc: Global, request: Request<K>) -> Result<Arc<Request<K>>, NoMemory>
    requires { K ≤ resources_max }
    ensures { IfOk result (λ shared. shared.value ≡ request.entry) }
{
    match Arc::new(alloc, request) {
        Ok(shared) => Ok(shared),
        Err(_) => Err(NoMemory),
    }
}
