//! What changes of a present node with a container or a reservation (`Change`).
use cap_model::Reservation;
use cap_vector::Resource;

/// What changes of a present node.
#[derive(Clone, Copy)]
pub(crate) enum Change<'a, const K: usize> {
    /// One more container of this resource is live on it.
    Hold(&'a Resource<K>),
    /// One container of this resource is live on it no longer.
    Lift(&'a Resource<K>),
    /// It holds this reservation from now on, if it held none.
    Reserve(&'a Reservation<K>),
    /// It holds no reservation any longer.
    Unreserve,
}
