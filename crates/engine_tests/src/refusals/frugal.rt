//! Tests of calls and commits that take no memory: they are answered where no bytes are left, and take none of many.
//! A call that is refused, repeated or rejected is among them. No test reaches the last number of an application, a node or a container,
//! nor 65,536 live containers.
use cap_model::Reason;
use cap_testing::{Call, WantedContainers};
use memory_testing::Hoard;
use refusal_cases::table::{ALLOCATE, BEAT, MASTER, NODE, ONE, OTHER_LIMITS};
use refusal_cases::{Answered, Before, Row, Step, takes_none};
use std::alloc::Global;

/// The first of these rows whose step does take memory or is answered otherwise; the number of rows where there is no hoard.
fn greedy(alloc: Global, rows: &[Row]) -> Option<usize> {
    let Some(mut hoard) = Hoard::new(alloc) else {
        return Some(rows.len());
    };
    for (i, row) in rows.iter().enumerate() {
        if !takes_none(alloc, &mut hoard, *row) {
            return Some(i);
        }
    }
    None
}

/// More than the maximum allocation.
const ASK_TOO_LARGE: Step = Step::Call(Call::Allocate(
    1,
    0,
    &[WantedContainers {
        resource: [9000, 1, 0],
        ..ONE
    }],
    &[],
));

/// The same with other response ids, and of an application that is not there.
const ALLOCATE_AT_5: Step = Step::Call(Call::Allocate(1, 5, &[ONE], &[]));

const ALLOCATE_AT_1: Step = Step::Call(Call::Allocate(1, 1, &[ONE], &[]));

const ALLOCATE_OF_9: Step = Step::Call(Call::Allocate(9, 0, &[ONE], &[]));

/// More than all nodes may have.
const NODE_TOO_LARGE: Step = Step::Call(Call::RegisterNode(b"n2", b"/r1", [1 << 40, 1, 0]));

const NODE_OF_NOTHING: Step = Step::Call(Call::RegisterNode(b"n1", b"/r1", [0, 0, 0]));

static ROWS: [Row; 48] = [
    // A call, and the status that refuses it.
    (
        Before::Nothing,
        Step::Call(Call::Submit(b"root.c", b"u1")),
        Answered::Status(1),
    ),
    (
        Before::Nothing,
        Step::Call(Call::QueueInfo(b"root.c")),
        Answered::Status(1),
    ),
    (
        Before::Nothing,
        Step::Call(Call::SetQueueState(b"root.c", true)),
        Answered::Status(1),
    ),
    (
        Before::Nothing,
        Step::Call(Call::Submit(b"root", b"u1")),
        Answered::Status(2),
    ),
    (
        Before::Nested,
        Step::Call(Call::Submit(b"root.a.y", b"u1")),
        Answered::Status(3),
    ),
    (
        Before::NestedAndFull,
        Step::Call(Call::Submit(b"root.b", b"u1")),
        Answered::Status(4),
    ),
    (
        Before::Nothing,
        Step::Call(Call::RegisterMaster(9)),
        Answered::Status(5),
    ),
    (Before::Nothing, ALLOCATE_OF_9, Answered::Status(5)),
    (
        Before::Nothing,
        Step::Call(Call::FinishMaster(9)),
        Answered::Status(5),
    ),
    (Before::Registered, MASTER, Answered::Status(6)),
    (Before::Submitted, ALLOCATE, Answered::Status(7)),
    (
        Before::Submitted,
        Step::Call(Call::FinishMaster(1)),
        Answered::Status(7),
    ),
    (Before::Registered, ALLOCATE_AT_5, Answered::Status(8)),
    (
        Before::Node,
        Step::Call(Call::Heartbeat(1, 5, &[])),
        Answered::Status(8),
    ),
    (Before::Registered, ASK_TOO_LARGE, Answered::Status(9)),
    (Before::AskedForMany, ALLOCATE_AT_1, Answered::Status(10)),
    (Before::Nothing, BEAT, Answered::Status(11)),
    (
        Before::Nothing,
        Step::Call(Call::NodeGone(9)),
        Answered::Status(11),
    ),
    (Before::Node, NODE, Answered::Status(12)),
    (Before::Node, NODE_TOO_LARGE, Answered::Status(13)),
    (Before::ManyNodes, NODE, Answered::Status(14)),
    (Before::Nothing, NODE_OF_NOTHING, Answered::Status(15)),
    // Calls that are made: each that has no answer for want of memory, two that are repeated, and an Allocate that asks for nothing, releases a
    // container or asks again where it asked before. Also the loss of a node with the other of two containers: a grant made the room for its
    // container's end. And the conversion of a reservation after one of six containers has ended, which takes the room of that one.
    (
        Before::Submitted,
        MASTER,
        Answered::Numbers([1024, 1, 8192, 4]),
    ),
    (
        Before::TwoLive,
        Step::Call(Call::FinishMaster(1)),
        Answered::Numbers([2, 0, 0, 0]),
    ),
    (Before::TwoLive, BEAT, Answered::Numbers([1, 0, 1, 0])),
    (Before::OneLive, BEAT, Answered::Numbers([1, 0, 1, 0])),
    (
        Before::TwoLive,
        Step::Call(Call::NodeGone(1)),
        Answered::Numbers([2, 0, 0, 0]),
    ),
    (
        Before::TwoLive,
        Step::Call(Call::QueueInfo(b"root.a")),
        Answered::Numbers([1, 1, 2048, 2]),
    ),
    (
        Before::TwoLive,
        Step::Call(Call::SetQueueState(b"root.a", false)),
        Answered::Numbers([0, 0, 0, 0]),
    ),
    (
        Before::TwoLive,
        Step::Call(Call::ClusterInfo),
        Answered::Numbers([1, 1, 2, 2048]),
    ),
    (Before::Asking, ALLOCATE, Answered::Numbers([1, 0, 0, 0])),
    (
        Before::OneLive,
        Step::Call(Call::Allocate(1, 1, &[], &[])),
        Answered::Numbers([2, 0, 2, 1]),
    ),
    (
        Before::TwoLive,
        Step::Call(Call::Allocate(1, 1, &[], &[2])),
        Answered::Numbers([2, 0, 2, 1]),
    ),
    (
        Before::Granted,
        ALLOCATE_AT_1,
        Answered::Numbers([2, 0, 1, 0]),
    ),
    (
        Before::OneLive,
        Step::Call(Call::NodeGone(1)),
        Answered::Numbers([1, 0, 0, 0]),
    ),
    (
        Before::Reserved,
        Step::Grant(1, (1, 1), 1, [3072, 1]),
        Answered::Numbers([7, 8192, 6, 0]),
    ),
    // Settings of the same queues, in another order.
    (
        Before::Reserved,
        Step::Settings(OTHER_LIMITS),
        Answered::Numbers([1, 7, 0, 0]),
    ),
    // A proposal, and why it is rejected.
    (
        Before::Asked,
        Step::Grant(9, (9, 0), 9, [1, 1]),
        Answered::Rejected(Reason::NoApp),
    ),
    (
        Before::Asked,
        Step::Grant(1, (9, 0), 9, [1, 1]),
        Answered::Rejected(Reason::NoAsk),
    ),
    (
        Before::Asked,
        Step::Grant(1, (1, 0), 9, [2048, 1]),
        Answered::Rejected(Reason::OtherAsk),
    ),
    (
        Before::Asked,
        Step::Grant(1, (1, 0), 3, [1024, 1]),
        Answered::Rejected(Reason::NoNode),
    ),
    (
        Before::Asked,
        Step::Grant(1, (3, 0), 1, [1024, 1]),
        Answered::Rejected(Reason::WrongPlace),
    ),
    (
        Before::Kept,
        Step::Grant(2, (2, 0), 2, [2048, 1]),
        Answered::Rejected(Reason::ReservedByOther),
    ),
    (
        Before::Asked,
        Step::Grant(2, (2, 0), 2, [2048, 1]),
        Answered::Rejected(Reason::NoRoom),
    ),
    (
        Before::Asked,
        Step::Grant(1, (2, 0), 1, [3072, 1]),
        Answered::Rejected(Reason::OverMaximum { level: 1 }),
    ),
    (
        Before::Asked,
        Step::Grant(2, (1, 0), 1, [3072, 1]),
        Answered::Rejected(Reason::OverUser),
    ),
    (
        Before::Asked,
        Step::Reserve(1, (1, 0), 1, [1024, 1]),
        Answered::Rejected(Reason::FitsNow),
    ),
    (
        Before::Asked,
        Step::Reserve(2, (2, 0), 2, [2048, 1]),
        Answered::Rejected(Reason::NeverFits),
    ),
];

#[test]
fn calls_that_take_no_memory(rt: HostRuntime) {
    assert_eq!(rt; greedy(rt.alloc(), &ROWS), None);
}
