//! What a replica does with calls that a seat makes: it takes them and lets them go (`look_on`), or makes them again round by round (`follow_rounds`).

use crate::following::requests::{ROUND, Requests};
use cap_model::ReplyWith;
use cap_shared::{Naming, Seat, Shared};
use cap_testing::Looker;
use std::sync::Wait;

/// Makes so many calls, and then so many looks at them: how many entries these took in all. `None` if a call is refused.
pub fn look_on<J: Naming, H: Wait>(
    rt: &H,
    shared: &Shared<J>,
    caller: &mut Seat<J>,
    looker: &mut Looker<J>,
    requests: &Requests,
    entries: u64,
    looks: u64,
) -> Option<u64> {
    make_calls(rt, shared, caller, requests, 0, entries)?;
    let mut taken = 0u64;
    for _ in 0..looks {
        taken = taken.saturating_add(looker.look(rt, shared)?);
    }
    Some(taken)
}

/// Makes so many rounds of calls, each of which the replica makes again: how many calls were made. `None` if one is refused.
pub fn follow_rounds<J: Naming, H: Wait>(
    rt: &H,
    shared: &Shared<J>,
    caller: &mut Seat<J>,
    looker: &mut Looker<J>,
    requests: &Requests,
    rounds: u64,
) -> Option<u64> {
    let mut made = 0u64;
    for _ in 0..rounds {
        make_calls(rt, shared, caller, requests, made, ROUND)?;
        looker.take_piece(rt, shared)?;
        made = made.saturating_add(ROUND);
    }
    Some(made)
}

/// Makes so many calls from this index on.
fn make_calls<J: Naming, H: Wait>(
    rt: &H,
    shared: &Shared<J>,
    caller: &mut Seat<J>,
    requests: &Requests,
    first: u64,
    count: u64,
) -> Option<()> {
    for place in 0..count {
        let request = requests.request(first.saturating_add(place))?;
        match shared.call(rt, caller, request) {
            Ok(ReplyWith::Refused(_)) | Err(_) => return None,
            Ok(_) => {}
        }
    }
    Some(())
}
