//! One cluster that threads share, under a lock: a journal of all that was done, and receipts of each thread's calls.
#![tactic(auto)]

mod blank;
mod call_room;
mod closed;
mod deed;
mod desk;
mod entry;
mod faults;
mod history;
mod laws;
mod making;
mod marks;
mod news;
mod passes;
mod replica;
mod seat;
mod shared;
mod tally;
mod turnstile;
mod word_rule;

pub use blank::Blank;
pub use cap_messages::ReadyRequest;
pub use closed::{Closed, SeatReport};
pub use entry::{Entry, Receipt};
pub use faults::{CallFault, CommitFault, Fault};
pub use history::{Mark, Moment, NotedAnswer, Sitting, View};
pub use laws::{journals_lead_to_states, journals_stay_bounded};
pub use news::{News, PIECE_MAX, Piece};
pub use replica::Replica;
pub use seat::{Naming, Seat};
pub use shared::{Hold, Shared};
