//! What is made where memory is short, as data (`Case`), and what comes of it: a refusal is told, changes nothing, and the same is made once
//! memory is there.
//! Tests of `engine_tests` and `daemon_tests` leave more and more bytes by a hoard; the program `lone_refusals` makes each case twice, while whoever
//! runs it has one allocation refused.
#![tactic(auto)]

mod acts;
mod calls;
mod cases;
mod copies;
mod epochs;
mod fixture;
mod framing;
mod play;
mod readings;
mod replays;
pub mod sessions;
pub mod shared;
mod shortage;
pub mod table;
pub mod worlds;

pub use acts::grant;
pub use calls::CALLS;
pub use cases::{Case, came};
pub use copies::SNAPSHOTS;
pub use epochs::Task;
pub use fixture::{Answered, Row, Step, cluster_after, takes_none};
pub use play::{count_lines, line_of, play_into};
pub use readings::READINGS;
pub use replays::SCRIPTS;
pub use sessions::SESSIONS;
pub use shared::TASKS;
pub use table::Before;
pub use worlds::WORLDS;
