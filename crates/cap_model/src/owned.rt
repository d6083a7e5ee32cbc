//! Room for the grants and ends of a reply, made before the call (`ReplyRoom`); the reply is then owned in it.
ghost use Rattle.std.specs.Prelude.{◌≡◌, ◌≤◌, IfOk};
ghost use Rattle.cap_model.specs.Reporting.{HasRoomFor};

use crate::news::{End, Grant};
use crate::replies::AllocateReply;
use crate::reply::{OwnedReply, ReplyView, ReplyWith};
use cap_base::NoMemory;
use std::alloc::Global;
use std::marker::Model;

/// Room for the grants and ends of a reply, made before the call that is answered. Contracts see for how many there is room.
#[derive(Drop)]
pub struct ReplyRoom<const K: usize> {
    grants: Vec<Grant<K>>,
    ends: Vec<End>,
}

impl<const K: usize> Model for ReplyRoom<K> {
    ghost use Rattle.std.specs.Prelude.{◌≡◌, [], vec_capacity};
    ghost use Rattle.cap_model.specs.Reporting.{NewsRoom};

    ghost Value = { NewsRoom };

    ghost view = { λ r. record { grants = vec_capacity r.grants; ends = vec_capacity r.ends } };

    ghost invariant = { λ r. (r.grants.items ≡ []) × (r.ends.items ≡ []) };
}

impl<const K: usize> ReplyRoom<K> {
    /// Room for so many grants and ends. If an allocation fails there is none.
    pub fn new(alloc: Global, grants: usize, ends: usize) -> Result<ReplyRoom<K>, NoMemory>
        ensures { IfOk result (λ room. room ≡ record { grants = grants; ends = ends }) }
    {
        let Ok(grants) = Vec::with_capacity(alloc, grants) else {
            return Err(NoMemory);
        };
        let Ok(ends) = Vec::with_capacity(alloc, ends) else {
            return Err(NoMemory);
        };
        Ok(ReplyRoom { grants, ends })
    }

    /// The reply, owned in this room. It takes no memory.
    #[inline(always)]
    pub fn own(self, reply: &ReplyView<'_, K>) -> OwnedReply<K>
        requires { HasRoomFor reply.now self }
        ensures { result ≡ reply.now }
    {
        let ReplyWith::Allocate { reply } = reply else {
            return reply.other();
        };
        let ReplyRoom {
            mut grants,
            mut ends,
        } = self;
        let (Ok(()), Ok(())) = (
            grants.extend_from_slice(reply.grants()),
            ends.extend_from_slice(reply.ends()),
        ) else {
            unreachable!()
        };
        ReplyWith::Allocate {
            reply: AllocateReply {
                response: reply.response,
                ignored: reply.ignored,
                grants,
                ends,
            },
        }
    }
}

impl<const K: usize> ReplyWith<K, AllocateReply<K>> {
    /// The same reply, lent.
    #[inline(always)]
    pub fn view(&self) -> ReplyView<'_, K>
        ensures { result ≡ self.now }
    {
        let ReplyWith::Allocate { reply } = self else {
            return self.other();
        };
        ReplyWith::Allocate {
            reply: reply.view(),
        }
    }
}
