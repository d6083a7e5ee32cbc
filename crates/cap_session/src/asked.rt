//! What is kept of a payload that is a request until it is answered (`Asked`).
ghost use Rattle.std.specs.Prelude.{◌≡◌, Ok};
ghost use Rattle.cap_grammar.specs.Spelling.{kind_of};
ghost use Rattle.cap_session.specs.Asked.{IsAsked, IsOpened, HasParts, first_open};

use cap_base::RESOURCES;
use cap_frames::Frame;
use cap_grammar::{Head, MessageFault, kind};
use cap_model::Request;
use http_server::Log;
use std::marker::Model;

/// What was read from a payload: a head and a request, if it is one.
pub(crate) type ReadResult = Result<(Head, Request<RESOURCES>), MessageFault>;

/// A payload with what was read from it. It exists for contracts alone.
pub(crate) type ReadPayload = Log<Frame, ReadResult>;

/// What the reply to a request repeats of it: its head and its kind.
#[derive(Clone, Copy)]
pub(crate) struct ReplyHead {
    pub(crate) of_request: Head,
    pub(crate) kind: u8,
}

/// What is kept of a payload that is a request, beside the request. Contracts see it as an open request.
#[derive(Drop)]
pub(crate) struct Asked {
    head: ReplyHead,
    // It exists for contracts alone.
    opened: ReadPayload,
}

impl Model for Asked {
    ghost use Rattle.cap_session.specs.Session.{OpenRequest};
    ghost use Rattle.cap_session.specs.Asked.{first_open, IsAsked};

    ghost Value = { OpenRequest };

    ghost view = { λ a. first_open a.opened.items };

    ghost invariant = { λ a. IsAsked a.opened.items a.head };
}

impl Asked {
    /// What is kept of a payload from which this head and this request were read.
    pub(crate) fn new(head: Head, request: &Request<RESOURCES>, opened: ReadPayload) -> Asked
        requires { IsOpened opened.items (Ok (head, request.now)) }
        ensures { result ≡ first_open opened.items }
    {
        let head = ReplyHead {
            of_request: head,
            kind: kind(request),
        };
        Asked { head, opened }
    }

    /// The kind of the request.
    pub(crate) fn kind(&self) -> u8
        ensures { result ≡ kind_of self.now.request }
    {
        self.head.kind
    }

    /// The head and the kind of the request, and the payload for contracts.
    pub(crate) fn parts(self) -> (ReplyHead, ReadPayload)
        ensures { HasParts self result.0 result.1.items }
    {
        let Asked { head, opened } = self;
        (head, opened)
    }
}
