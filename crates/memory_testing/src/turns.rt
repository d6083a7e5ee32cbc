//! A call that is made where 0 bytes are left, then 16 more each time, until it is done (`refuse_in_turn`).

use crate::hoard::Hoard;
use std::alloc::Global;

/// How many bytes more are left at each turn.
const STEP: usize = 16;

/// Turns at most.
const TURNS: usize = 65_536;

/// What a call was answered where so many bytes were left, and what stands then.
#[derive(Clone, Copy, Debug, PartialEq, Eq)]
pub enum Came {
    /// That an allocation was refused; what stands is as it should be.
    Refused,
    /// What it is answered with all memory; so is what stands.
    Done,
    /// An allocation was refused before the call or after it.
    Beside,
    /// Anything else.
    Other,
}

/// How a call went in more and more memory.
#[derive(Clone, Copy, Debug, PartialEq, Eq)]
pub enum Turns {
    /// It was refused at least once, and then done.
    Refused,
    /// It was done with no bytes left.
    NeverRefused,
    /// It was refused in the last turn too.
    NeverDone,
    /// Something else came where so many bytes were left.
    Other(usize),
    /// There were more than so many bytes where no more were to be left.
    NotShort(usize),
    /// There is no hoard.
    NoHoard,
}

/// Makes a call where 0 bytes are left, then where 16 are left, and so on, until it is done. `call` is given the hoard and the bytes to be
/// left: it makes its fixture, calls `leave`, makes the call and calls `give`, before it looks at anything.
pub fn refuse_in_turn<F: Fn(Global, &mut Hoard, usize) -> Came>(alloc: Global, call: F) -> Turns
    requires { F.IsAlwaysCallable call }
{
    let Some(mut hoard) = Hoard::new(alloc) else {
        return Turns::NoHoard;
    };
    for turn in 0..TURNS {
        let bytes = turn.saturating_mul(STEP);
        match call(alloc, &mut hoard, bytes) {
            Came::Beside | Came::Other => return Turns::Other(bytes),
            _ if !hoard.is_short() => return Turns::NotShort(bytes),
            Came::Refused => {}
            Came::Done if turn == 0 => return Turns::NeverRefused,
            Came::Done => return Turns::Refused,
        }
    }
    Turns::NeverDone
}
