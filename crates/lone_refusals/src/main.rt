//! Makes each case of `refusal_cases` twice, and prints how many were made both times, or which was not.
//! Whoever runs it may have one allocation refused, which one does not matter: a case that meets the refusal is made all the same the other time.
#![tactic(auto)]

use memory_testing::{Came, Hoard};
use refusal_cases::{CALLS, Case, READINGS, SCRIPTS, SESSIONS, SNAPSHOTS, TASKS, WORLDS, came};
use std::alloc::Global;
use std::io;
use std::sync::Wait;

/// Whether a case was made at least once of two times, and else was refused, or something beside it.
fn is_made<H: Wait>(rt: &H, alloc: Global, case: &Case) -> bool {
    let mut nothing = Hoard::of_nothing(alloc);
    let first = came(rt, alloc, &mut nothing, 0, case);
    let second = came(rt, alloc, &mut nothing, 0, case);
    match (first, second) {
        (Came::Done, Came::Done | Came::Refused | Came::Beside) => true,
        (Came::Refused | Came::Beside, Came::Done) => true,
        _ => false,
    }
}

/// How many of the cases were made before the first that was not.
fn made<H: Wait>(rt: &H, alloc: Global, cases: &[Case]) -> usize {
    for (i, case) in cases.iter().enumerate() {
        if !is_made(rt, alloc, case) {
            return i;
        }
    }
    cases.len()
}

fn main(rt: HostRuntime) -> io::Result<()> {
    let alloc = rt.alloc();
    let kinds: [(&str, &[Case]); 7] = [
        ("calls and commits", &CALLS),
        ("readings", &READINGS),
        ("snapshots", &SNAPSHOTS),
        ("framers and sessions", &SESSIONS),
        ("steps of a world", &WORLDS),
        ("shared clusters and lanes", &TASKS),
        ("scripts", &SCRIPTS),
    ];
    for (kind, cases) in kinds {
        println!(rt; "{kind}: {} of {}", made(&rt, alloc, cases), cases.len())?;
    }
    Ok(())
}
