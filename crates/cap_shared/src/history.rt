//! What a seat was answered (`Sitting`), and what passes know of it (`View`). These types exist for contracts alone.
use crate::entry::{Entry, Receipt};
use cap_base::RESOURCES;
use cap_model::{Proposal, Reason, Request};
use http_server::Log;
use std::collections::LinkedList;

/// What was answered without an entry.
#[derive(Drop)]
pub enum NotedAnswer {
    /// A proposal was rejected.
    Rejected(Proposal<RESOURCES>, Reason),
    /// The journal was full when the call was to be made.
    SealedCall(Request<RESOURCES>),
    /// The journal was full when the proposal was to be made.
    SealedCommit(Proposal<RESOURCES>),
    /// An allocation failed when the proposal was to be made.
    NoMemory(Proposal<RESOURCES>),
    /// The cluster was copied.
    Copied,
}

/// What a seat was answered: with an entry, which its receipt names, or without one, with the entries that the journal had then.
pub enum Moment {
    Entered(Receipt),
    Noted(LinkedList<Entry>, NotedAnswer),
}

/// A seat's number, and all that it was answered, in order.
pub struct Sitting {
    pub seat: u32,
    pub past: LinkedList<Moment>,
}

/// What a pass knows: the one under the lock the whole journal, and that of a seat its sitting.
pub struct View {
    pub keeps: bool,
    pub log: LinkedList<Entry>,
    pub sits: LinkedList<Sitting>,
}

/// What a step under the lock adds: an entry, a note of an answer without one, or nothing. It takes no memory.
#[derive(Drop)]
pub enum Mark {
    Entry(Log<Entry, ()>),
    Rejected(Log<Proposal<RESOURCES>, Reason>),
    SealedCall(Log<Request<RESOURCES>, ()>),
    SealedCommit(Log<Proposal<RESOURCES>, ()>),
    NoMemory(Log<Proposal<RESOURCES>, ()>),
    Copied,
    Nothing,
}
