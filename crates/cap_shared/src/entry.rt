//! What a journal holds (`Entry`), and what a seat keeps of its own entries (`Receipt`).
use cap_base::RESOURCES;
use cap_model::{Event, OwnedReply, StoredRequest};

/// One entry of the journal: an event, and the number of the seat that made it.
#[derive(Drop)]
pub struct Entry {
    pub seat: u32,
    pub event: Event<RESOURCES>,
}

/// What was entered for a seat, with the position of its entry in the journal: a call that was answered, or a proposal that was
/// made.
#[derive(Drop)]
pub enum Receipt {
    Call {
        position: u64,
        request: StoredRequest<RESOURCES>,
        reply: OwnedReply<RESOURCES>,
    },
    Commit {
        position: u64,
        event: Event<RESOURCES>,
    },
}
