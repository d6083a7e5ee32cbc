//! Scripts of which each allocation is refused from some size on.
use memory_testing::{Turns, refuse_in_turn};
use refusal_cases::{SCRIPTS, came};

#[test]
fn replays_are_refused(rt: HostRuntime) {
    for (i, script) in SCRIPTS.iter().enumerate() {
        let turns = refuse_in_turn(
            rt.alloc(),
            |alloc, hoard, bytes| came(&rt, alloc, hoard, bytes, script),
        );
        assert_eq!(rt; turns, Turns::Refused, "script {i}");
    }
}
