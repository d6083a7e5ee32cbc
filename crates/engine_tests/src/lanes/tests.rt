//! Tests of the lanes: what was not taken is left in order, eight workers share one place, a put waits for room.

use crate::lanes::passing::{exchanged, finish_all, proposal, put_while_full};
use cap_base::RESOURCES;
use cap_lanes::lanes;
use cap_model::Proposal;
use std::test::*;

/// The worker and the application of each proposal that was left.
fn rows(left: &[(u32, Proposal<RESOURCES>)]) -> Option<[(u32, u64); 2]> {
    let [(first, p), (second, q)] = left else {
        return None;
    };
    Some([(*first, p.app()), (*second, q.app())])
}

#[test]
fn what_was_not_taken_is_left_in_order(rt: HostRuntime) -> Result<(), Fail> {
    let (mut committer, mut putters) = lanes(rt.alloc(), 10)?;
    putters[0].put(&rt, proposal(1))?;
    putters[0].put(&rt, proposal(2))?;
    let first = committer.take(&rt);
    putters[0].put(&rt, proposal(3))?;
    let ended = finish_all(&rt, rt.alloc(), putters)?;
    let closed = committer.close(&rt, ended);
    assert!(rt; matches!(first, Some((0, p)) if p.app() == 1));
    assert_eq!(rt; rows(closed.left.as_slice()), Some([(0, 2), (0, 3)]));
    Ok(())
}

/// Whether each of the eight workers has the applications 0 to `count`, in order.
fn are_in_order(taken: &[(u32, u64)], count: u64) -> bool {
    let mut next = [0; 8];
    for (worker, app) in taken {
        match next.get_mut(*worker as usize) {
            Some(n) if *n == *app => *n = app.wrapping_add(1),
            _ => return false,
        }
    }
    next == [count; 8]
}

#[test]
fn eight_workers_put_through_one_place(rt: HostRuntime) -> Result<(), Fail> {
    let (taken, left) = exchanged(&rt, rt.alloc(), 1, 100)?;
    assert_eq!(rt; (taken.len(), left), (800, 0));
    assert!(rt; are_in_order(taken.as_slice(), 100));
    Ok(())
}

#[test]
fn a_put_waits_for_room(rt: HostRuntime) -> Result<(), Fail> {
    let taken = put_while_full(&rt, rt.alloc())?;
    assert_eq!(rt; taken.as_slice(), [(0, 1), (0, 2)].as_slice());
    Ok(())
}
