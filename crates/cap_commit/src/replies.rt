//! A reply in full, lent by the cluster (`Cluster::view`), and room to own one (`Cluster::reply_room`).
ghost use Rattle.std.specs.Prelude.{◌≡◌, IfOk};
ghost use Rattle.cap_model.specs.Reporting.{HasNumbers, HasRoomForReplies, full_reply, reports_most};

use crate::cluster::Cluster;
use cap_model::{NoMemory, Reply, ReplyRoom, ReplyView, ReplyWith, Request};
use std::alloc::Global;

impl<const K: usize> Cluster<K> {
    /// The reply in full, as one of its calls has just given it: the grants and ends of an Allocate are lent from where they lie, until
    /// the cluster changes.
    #[inline(always)]
    pub fn view(&self, reply: &Reply<K>) -> ReplyView<'_, K>
        requires { HasNumbers self.now.flat reply.now }
        ensures { result ≡ full_reply self.now.flat reply.now }
    {
        let apps = self.apps();
        let ReplyWith::Allocate { reply } = reply else {
            return reply.other();
        };
        ReplyWith::Allocate {
            reply: apps.reply(reply.app, &reply.reported),
        }
    }

    /// Room for the grants and ends of the reply to a request, whatever it is answered now, and for no more. If an allocation fails
    /// there is none.
    pub fn reply_room(&self, alloc: Global, request: &Request<K>) -> Result<ReplyRoom<K>, NoMemory>
        ensures room { IfOk result (λ room. HasRoomForReplies self.now.flat request.now room) }
        ensures most { IfOk result (λ room. room ≡ reports_most self.now.flat request.now) }
    {
        let Request::Allocate {
            app,
            response,
            releases,
            ..
        } = request
        else {
            return ReplyRoom::new(alloc, 0, 0);
        };
        match self.apps().app(*app) {
            Some(app) => app.reply_room(alloc, *response, releases.as_slice().len()),
            None => ReplyRoom::new(alloc, 0, 0),
        }
    }
}
