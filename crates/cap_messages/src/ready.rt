//! A request with all that can be made ready before there is a cluster to call (`ReadyRequest`).
ghost use Rattle.std.specs.Prelude.{◌≡◌, IfSome};
ghost use Rattle.cap_base.specs.Limits.{resources};
ghost use Rattle.cap_messages.specs.Ready.{unless_refresh};

use cap_base::RESOURCES;
use cap_model::Request;
use cap_trackers::ReadSettings;
use std::alloc::Global;
use std::marker::Model;

/// A request that is ready to be made: a Refresh has its property lines read, which takes long and needs no cluster. Contracts see the
/// request.
#[derive(Drop)]
pub struct ReadyRequest<'a> {
    pub(crate) request: &'a Request<RESOURCES>,
    pub(crate) settings: Option<ReadSettings<'a>>,
}

impl<'a> Model for ReadyRequest<'a> {
    ghost use Rattle.std.specs.Prelude.{◌≡◌};
    ghost use Rattle.cap_base.specs.Limits.{resources};
    ghost use Rattle.cap_model.specs.declared.request.Request.{Request};
    ghost use Rattle.cap_messages.specs.Ready.{lines_of};

    ghost Value = { Request resources };

    ghost view = { λ r. r.request.now };

    ghost invariant = { λ r. r.settings ≡ lines_of r.request.now };
}

impl<'a> ReadyRequest<'a> {
    /// Makes a request ready; the lines of a Refresh are read here. Where an allocation fails for them, `make` answers so.
    pub fn of(alloc: Global, request: &'a Request<RESOURCES>) -> ReadyRequest<'a>
        ensures { result ≡ request.now }
    {
        let settings = match request {
            Request::Refresh { text } => Some(ReadSettings::read(alloc, text)),
            _ => None,
        };
        ReadyRequest { request, settings }
    }

    /// A request that has nothing to be read, as it is. There is none of a Refresh. It takes no memory.
    pub fn at_once(request: &'a Request<RESOURCES>) -> Option<ReadyRequest<'a>>
        ensures ready { result ≡ unless_refresh request.now }
        ensures same { IfSome result (λ ready. ready ≡ request.now) }
    {
        match request {
            Request::Refresh { .. } => None,
            _ => Some(ReadyRequest {
                request,
                settings: None,
            }),
        }
    }

    /// The request.
    pub fn request(&self) -> &'a Request<RESOURCES>
        ensures { result.now ≡ self.now }
    {
        self.request
    }
}
