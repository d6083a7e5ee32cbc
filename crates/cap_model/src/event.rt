//! The events of a cluster (`Event`): calls with their replies, grants and reservations.

use crate::container::{Container, Reservation};
use crate::reply::OwnedReply;
use crate::stored::StoredRequest;

/// One step of the cluster.
#[derive(Drop)]
pub enum Event<const K: usize> {
    /// A call and its reply; `by` is the connection that made it.
    Call {
        by: u32,
        request: StoredRequest<K>,
        reply: OwnedReply<K>,
    },
    /// A container was granted, and is live from then on.
    Grant {
        container: Container<K>,
    },
    /// Room was reserved on a node.
    Reserve {
        reservation: Reservation<K>,
    },
}
