//! What passes of the channel know: what each worker has put, and what was taken. It exists for contracts alone.
use crate::item::{Item, Message};
use std::collections::LinkedList;

/// A worker's number, and all that it put, in order.
pub struct Lane {
    pub worker: u32,
    pub put: LinkedList<Message>,
}

/// What a pass knows: the committer's all that was taken, and a worker's its lane.
pub struct View {
    pub takes: bool,
    pub took: LinkedList<Item>,
    pub lanes: LinkedList<Lane>,
}
