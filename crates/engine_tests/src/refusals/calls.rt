//! Tests of calls, commits, payloads, snapshots, sessions, worlds and shared clusters of which each allocation is refused from some size on.
use memory_testing::{Turns, refuse_in_turn};
use refusal_cases::{CALLS, Case, READINGS, SESSIONS, SNAPSHOTS, TASKS, WORLDS, came};
use std::alloc::Global;
use std::sync::Wait;
use std::test::*;

/// The first of these cases that is not refused in turn, and what came of it.
fn unlike<H: Wait>(rt: &H, alloc: Global, cases: &[Case]) -> Option<(usize, Turns)> {
    for (i, case) in cases.iter().enumerate() {
        let turns = refuse_in_turn(
            alloc,
            |alloc, hoard, bytes| came(rt, alloc, hoard, bytes, case),
        );
        if turns != Turns::Refused {
            return Some((i, turns));
        }
    }
    None
}

#[test]
fn calls_and_commits_are_refused(rt: HostRuntime) {
    assert_eq!(rt; unlike(&rt, rt.alloc(), &CALLS), None);
}

#[test]
fn readings_are_refused(rt: HostRuntime) {
    assert_eq!(rt; unlike(&rt, rt.alloc(), &READINGS), None);
}

#[test]
fn snapshots_are_refused(rt: HostRuntime) {
    assert_eq!(rt; unlike(&rt, rt.alloc(), &SNAPSHOTS), None);
}

#[test]
fn sessions_are_refused(rt: HostRuntime) {
    assert_eq!(rt; unlike(&rt, rt.alloc(), &SESSIONS), None);
}

#[test]
fn steps_are_refused(rt: HostRuntime) {
    assert_eq!(rt; unlike(&rt, rt.alloc(), &WORLDS), None);
}

#[test]
fn shared_clusters_and_lanes_are_refused(rt: HostRuntime) {
    assert_eq!(rt; unlike(&rt, rt.alloc(), &TASKS), None);
}
