//! The vocabulary of the engine: the plain data that travels between the crates, and in `specs/` what it all means.
//! There stand the flat cluster, the reply to each request, and runs. There is no engine code here, but for tests of
//! refusals that several crates need.
#![tactic(auto)]

mod ask;
mod container;
mod event;
pub mod laws;
mod list;
mod news;
mod owned;
mod proposal;
mod refusal;
mod replies;
mod reply;
mod report;
mod request;
mod request_view;
mod response_ids;
mod stored;

pub use ask::{Ask, Key, takes_place};
pub use cap_base::{Config, NoMemory, PathText, QueueRow, ShortText, Text};
pub use container::{Container, Reservation};
pub use event::Event;
pub use list::{Asks, List, Numbers, SettingsText};
pub use news::{Cause, End, Grant};
pub use owned::ReplyRoom;
pub use proposal::{Proposal, ProposalKind, Reason, Verdict, first_reason};
pub use refusal::{Refusal, first_refusal};
pub use replies::{
    AllocateNumbers, AllocateReply, AllocateView, HeartbeatReply, NEWS_MAX, Reported,
};
pub use reply::{OwnedReply, Reply, ReplyView, ReplyWith};
pub use report::{ClusterReport, QueueReport};
pub use request::Request;
pub use request_view::RequestView;
pub use response_ids::{is_bad, next_response, repeats};
pub use stored::StoredRequest;

/// Node, application and container numbers begin at 1 and stay below this.
pub const NUMBER_END: u64 = 1 << 62;

/// The greatest number of nodes that are present at once.
pub const NODES_MAX: usize = 4096;

/// The greatest number of containers that are live at once.
pub const LIVE_MAX: usize = 65_536;

const _: () = prove!(NUMBER_END == 4_611_686_018_427_387_904);

const _: () = prove!(NODES_MAX == 4_096);

const _: () = prove!(LIVE_MAX == 65_536);

const _: () = prove!(NEWS_MAX == 64);
