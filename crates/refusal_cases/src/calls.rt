//! Calls and commits of which each allocation is refused (`CALLS`): they say so, change nothing, and are made once memory is there.
use crate::cases::Case;
use crate::fixture::{Answered, Step};
use crate::table::{Before, GRANT, NODE, ONE, OTHER_LIMITS, RESERVE, SUBMIT};
use cap_testing::Call;

/// A Submit; an Allocate of one ask and a release of a container that is not live; one of eight more asks where two grants and an end are to be
/// reported; a node that registers; a grant; a reservation where six containers leave
/// (2048, 2); the conversion of a reservation while eight grants are not yet reported; and a Refresh: one that sets a maximum below
/// what is used, one with a bad line, and one of other queues.
pub static CALLS: [Case; 10] = [
    Case::Step((Before::Nothing, SUBMIT, Answered::Numbers([1, 0, 0, 0]))),
    Case::Step((
        Before::Registered,
        Step::Call(Call::Allocate(1, 0, &[ONE], &[7])),
        Answered::Numbers([1, 1, 0, 0]),
    )),
    Case::Step((
        Before::OneLive,
        Step::AskForKeys(1, 1, 8),
        Answered::Numbers([2, 0, 2, 1]),
    )),
    Case::Step((Before::Nothing, NODE, Answered::Numbers([1, 0, 0, 0]))),
    Case::Step((Before::Asking, GRANT, Answered::Numbers([1, 1024, 1, 0]))),
    Case::Step((Before::SixLive, RESERVE, Answered::Numbers([0, 9216, 7, 0]))),
    Case::Step((
        Before::Unreported,
        Step::Grant(1, (1, 1), 1, [3072, 1]),
        Answered::Numbers([9, 8192, 6, 0]),
    )),
    Case::Step((
        Before::SixLive,
        Step::Call(Call::Refresh(OTHER_LIMITS)),
        Answered::Numbers([0, 0, 0, 0]),
    )),
    Case::Step((
        Before::SixLive,
        Step::Call(Call::Refresh(b"yarn.scheduler.capacity.root.queues=a,b\nx")),
        Answered::Status(17),
    )),
    Case::Step((
        Before::SixLive,
        Step::Call(Call::Refresh(b"yarn.scheduler.capacity.root.queues=a")),
        Answered::Status(18),
    )),
];
