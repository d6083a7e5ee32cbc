//! Response ids: the next one, and whether a request repeats the last processed one (`next_response`, `repeats`).
ghost use Rattle.std.specs.Prelude.{◌≡◌, ◌<◌};
ghost use Rattle.cap_base.specs.Limits.{response_end};
ghost use Rattle.cap_model.specs.ResponseIds.{next_response, repeats, is_bad};

/// Response ids stay below this, and begin again at 0.
const RESPONSE_END: u32 = 1 << 31;

/// The response id that answers a processed request of this one.
pub fn next_response(id: u32) -> u32
    requires { id < response_end }
    ensures { result ≡ next_response id }
{
    (id + 1) % RESPONSE_END
}

/// Whether a request of this response id repeats the one that was processed last: `last` is the id that answered it, and its
/// reply is kept.
pub fn repeats(last: u32, is_kept: bool, id: u32) -> bool
    ensures { result ≡ repeats last is_kept id }
{
    is_kept && id < RESPONSE_END && next_response(id) == last
}

/// Whether a request of this response id is neither the next one, which has the id that was answered last, nor repeats the last.
pub fn is_bad(last: u32, is_kept: bool, id: u32) -> bool
    ensures { result ≡ is_bad last is_kept id }
{
    !(id == last || repeats(last, is_kept, id))
}
