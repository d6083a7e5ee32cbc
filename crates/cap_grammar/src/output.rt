//! What messages are written into (`Out`), the room that they take (`REPLY_ROOM`, `FAULT_ROOM`, `REQUEST_ROOM`), and amounts
//! written.
ghost use Rattle.std.specs.Prelude.{◌≡◌, ◌≤◌, ◌+◌, ◌++◌, length};
ghost use Rattle.cap_base.specs.Limits.{resources};
ghost use Rattle.cap_vector.specs.Vector.{IsVector};
ghost use Rattle.cap_grammar.specs.Spelling.{resource};
ghost use Rattle.cap_grammar.specs.Versions.{amounts_in};

use crate::head::VERSION_1;
use bytes::BytesMut;
use cap_base::RESOURCES;
use cap_vector::Amounts;

/// What replies and requests are written into.
pub type Out = BytesMut;

/// The room that the longest reply takes, in bytes, with the four bytes of a frame's length before it. It is one to an Allocate.
pub const REPLY_ROOM: usize = 8083;

/// The room that the longest reply takes that is none to an Allocate.
pub(crate) const SHORT_ROOM: usize = 90;

/// The room that the reply to a payload or a frame that is no request takes, in bytes.
pub const FAULT_ROOM: usize = 7;

/// The room that the longest request takes, in bytes: as many as a frame's payload has.
pub const REQUEST_ROOM: usize = 65_536;

const _: () = prove!(REPLY_ROOM == 8_083 && SHORT_ROOM == 90);

const _: () = prove!(FAULT_ROOM == 7 && REQUEST_ROOM == 65_536);

// The amounts of a vector that a version spells: memory and vcores, and in version 2 GPUs.
#[tactic(auto, unfolding(crate::specs::Spelling::resource))]
pub(crate) fn put_amounts<const MAX: u64>(
    version: u8,
    amounts: &Amounts<RESOURCES, MAX>,
    out: &mut Out,
)
    requires { 24 ≤ out.old.spare }
    ensures appends { out.new.items ≡ out.old.items ++ resource (amounts_in version) amounts.now }
    ensures spare { out.new.spare + length (resource (amounts_in version) amounts.now)
        ≡ out.old.spare }
    ensures len { length (resource (amounts_in version) amounts.now) ≤ 24 }
    ensures vector { IsVector resources MAX amounts.now }
{
    let [memory, vcores, gpus] = amounts.amounts();
    out.extend_reserved(&memory.to_be_bytes());
    out.extend_reserved(&vcores.to_be_bytes());
    if version != VERSION_1 {
        out.extend_reserved(&gpus.to_be_bytes());
    }
}
