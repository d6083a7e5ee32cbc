//! The cluster, seen by contracts as the flat cluster: its queues, applications and nodes, and the changes of calls.
#![tactic(auto)]

mod admission;
mod cluster;
mod commit;
mod following;
mod limits;
mod made;
mod owner;
mod queue_report;
mod replies;
mod reservations;

pub use cap_asks::{App, Apps, Position};
pub use cap_model::{
    AllocateReply, Event, HeartbeatReply, Proposal, ProposalKind, QueueReport, Reason, Reply,
    ReplyView, Reported, Request, Verdict,
};
pub use cap_nodes::{Container, Node, Nodes};
pub use cap_tree::{Found, QueueTree};
pub use cluster::Cluster;
pub use limits::Limits;
pub use made::Made;
pub use owner::Owner;
