//! What a worker or a replica does that follows the journal of a cluster, and calls that a replica makes again (`print`).

mod alone;
mod epoch;
mod filling;
mod requests;
mod rounds;
mod work;

use crate::following::alone::call_alone;
use crate::following::epoch::run;
use crate::following::work::{By, Task, Work, read_work};
use std::alloc::Global;
use std::io;
use std::sync::Wait;

/// Prints how many containers the turns of a line granted, how many entries its looks took, or how many of its calls were made.
pub fn print<H: Print + Wait>(rt: &H, alloc: Global, line: &str) -> io::Result<()> {
    let Some(work) = read_work(line) else {
        return println!(rt; "five numbers are wanted, or ten");
    };
    let done = match work.task {
        Task::Turns(_) => "granted",
        Task::Looks { .. } => "taken",
        Task::Rounds { .. } => "made",
    };
    match run_work(rt, alloc, &work) {
        Some(count) => println!(rt; "{count} {done}"),
        None => println!(rt; "no memory"),
    }
}

/// Does a work in a cluster that is shared, or alone.
fn run_work<H: Wait>(rt: &H, alloc: Global, work: &Work) -> Option<u64> {
    match work.task {
        Task::Rounds {
            kind,
            by: By::Caller,
            rounds,
        } => call_alone(alloc, work, kind, rounds),
        _ => run(rt, alloc, work),
    }
}
