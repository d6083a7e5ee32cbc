//! Memory that is refused: a hoard takes all that the system gives a test, but for what the test leaves.
//! So each allocation of a call can be refused in turn. It takes addresses and next to no memory of the machine, and gives them back when
//! its process ends. It is made for Linux with the allocator of glibc.
#![tactic(auto)]

mod hoard;
mod turns;

pub use hoard::Hoard;
pub use turns::{Came, Turns, refuse_in_turn};
