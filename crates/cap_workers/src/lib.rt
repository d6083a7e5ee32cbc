//! Workers that take turns over a cluster that threads share.
#![tactic(auto)]

mod committer;
mod committing;
mod coordinator;
mod follower;
mod gate;
mod idle;
mod lane;
mod mailbox;
mod pause;
mod scheduler;
mod seeing;
mod worker;

pub use cap_lanes::{Committer, Ended, LanesClosed, PutFault, Putter, lanes};
pub use committer::{FinishedLanes, LaneCommitter};
pub use committing::commit_all;
pub use coordinator::Coordinator;
pub use follower::Follower;
pub use gate::{CommitOutcome, Gate, OpenGate, Point, Tally};
pub use idle::{BegunEpoch, IdleWorker, begin_epoch, close_epoch, in_order};
pub use lane::{BlankLanes, EndedLane, Lane, LaneNaming};
pub use scheduler::{Direction, Scheduled, Scheduler, StopSignal};
pub use seeing::Seeing;
pub use worker::{Offer, OfferEnd, Turn, TurnEnd, Worker};
