//! What was done before a step (`Before`), and steps that rows share.
use crate::fixture::Step;
use cap_testing::{Call, NESTED_QUEUES, SMALL_QUEUES, TWO_QUEUES, WantedContainers};

/// What was done before a step.
#[derive(Clone, Copy)]
pub enum Before {
    /// Nothing, in the cluster of two queues.
    Nothing,
    /// The same in that of nested queues, one of which is stopped.
    Nested,
    /// There two applications run, as many as may.
    NestedAndFull,
    /// Node 1 is there; 4,096 nodes are.
    Node,
    ManyNodes,
    /// Application 1 is there; its master is; it has asked under 256 keys.
    Submitted,
    Registered,
    AskedForMany,
    /// It asks for a container on node 1; it has that, and wants none; two containers are live; one of the two has ended.
    Asking,
    Granted,
    TwoLive,
    OneLive,
    /// Six containers are live; then room is reserved for a large one, and one of the six has ended.
    SixLive,
    Reserved,
    /// Eight containers are live; then room is reserved for a large one, and three of the eight have ended. None of the eight is reported yet.
    Unreported,
    /// Two applications ask, and there are two nodes.
    Asked,
    /// One of them has a container on node 2, and a reservation after it.
    Kept,
}

/// Other settings of the two queues, the second first.
pub const OTHER_LIMITS: &[u8] = b"yarn.scheduler.capacity.root.queues=b,a
yarn.scheduler.capacity.root.a.maximum-capacity=[memory=1024,vcores=1]
yarn.scheduler.capacity.maximum-applications=7
";

/// One container wanted anywhere.
pub const ONE: WantedContainers<'static> = WantedContainers {
    priority: 1,
    request: 0,
    count: 1,
    resource: [1024, 1, 0],
    place: b"*",
};

/// Room for three of them.
const LARGE: WantedContainers<'static> = WantedContainers {
    request: 1,
    resource: [3072, 1, 0],
    ..ONE
};

/// Node 1, of (8192, 8).
pub const NODE: Step = Step::Call(Call::RegisterNode(b"n1", b"/r1", [8192, 8, 0]));

/// Application 1 of `u1` in `root.a`, and its master.
pub const SUBMIT: Step = Step::Call(Call::Submit(b"root.a", b"u1"));

pub const MASTER: Step = Step::Call(Call::RegisterMaster(1));

/// Its first Allocate: one container.
pub const ALLOCATE: Step = Step::Call(Call::Allocate(1, 0, &[ONE], &[]));

/// Its first Allocate: two containers.
const ALLOCATE_TWO: Step = Step::Call(Call::Allocate(
    1,
    0,
    &[WantedContainers { count: 2, ..ONE }],
    &[],
));

/// Its first Allocate: six containers, and a large one.
const ALLOCATE_SEVEN: Step = Step::Call(Call::Allocate(
    1,
    0,
    &[WantedContainers { count: 6, ..ONE }, LARGE],
    &[],
));

/// A container of its first ask, and room for its second, on node 1.
pub const GRANT: Step = Step::Grant(1, (1, 0), 1, [1024, 1]);

pub const RESERVE: Step = Step::Reserve(1, (1, 1), 1, [3072, 1]);

/// The first report of node 1: container 1 has ended.
pub const BEAT: Step = Step::Call(Call::Heartbeat(1, 0, &[1]));

/// The application asks for a container.
static ASKING: &[Step] = &[NODE, SUBMIT, MASTER, ALLOCATE];

/// Containers 1 and 2 are live; then container 1 has ended.
static TWO_LIVE: &[Step] = &[NODE, SUBMIT, MASTER, ALLOCATE_TWO, GRANT, GRANT];

static ONE_LIVE: &[Step] = &[NODE, SUBMIT, MASTER, ALLOCATE_TWO, GRANT, GRANT, BEAT];

/// Six containers are live; then room is reserved for the large one, and container 1 has ended.
static SIX_LIVE: &[Step] = &[
    NODE,
    SUBMIT,
    MASTER,
    ALLOCATE_SEVEN,
    GRANT,
    GRANT,
    GRANT,
    GRANT,
    GRANT,
    GRANT,
];

static RESERVED: &[Step] = &[
    NODE,
    SUBMIT,
    MASTER,
    ALLOCATE_SEVEN,
    GRANT,
    GRANT,
    GRANT,
    GRANT,
    GRANT,
    GRANT,
    RESERVE,
    BEAT,
];

/// Its first Allocate: eight containers, and a large one.
const ALLOCATE_NINE: Step = Step::Call(Call::Allocate(
    1,
    0,
    &[WantedContainers { count: 8, ..ONE }, LARGE],
    &[],
));

/// Eight containers are live; then room is reserved for the large one, and containers 1 to 3 have ended.
static UNREPORTED: &[Step] = &[
    NODE,
    SUBMIT,
    MASTER,
    ALLOCATE_NINE,
    GRANT,
    GRANT,
    GRANT,
    GRANT,
    GRANT,
    GRANT,
    GRANT,
    GRANT,
    RESERVE,
    Step::Call(Call::Heartbeat(1, 0, &[1, 2, 3])),
];

static ONE_NODE: &[Step] = &[NODE];

static MANY_NODES: &[Step] = &[Step::Nodes(4096)];

static SUBMITTED: &[Step] = &[SUBMIT];

static REGISTERED: &[Step] = &[SUBMIT, MASTER];

static ASKED_FOR_MANY: &[Step] = &[SUBMIT, MASTER, Step::AskForKeys(1, 0, 256)];

static GRANTED: &[Step] = &[NODE, SUBMIT, MASTER, ALLOCATE, GRANT];

/// Applications of `u1` and `u2`, as many as nested queues may have.
static TWO_NESTED: &[Step] = &[
    Step::Call(Call::Submit(b"root.a.x", b"u1")),
    Step::Call(Call::Submit(b"root.a.x", b"u2")),
];

/// What application 1 in `root.a` and application 2 in `root.b` ask for.
const ASKS_OF_1: &[WantedContainers<'static>] = &[
    ONE,
    WantedContainers {
        priority: 2,
        resource: [3072, 1, 0],
        ..ONE
    },
    WantedContainers {
        priority: 3,
        place: b"n2",
        ..ONE
    },
];

const ASKS_OF_2: &[WantedContainers<'static>] = &[
    WantedContainers {
        resource: [3072, 1, 0],
        ..ONE
    },
    WantedContainers {
        priority: 2,
        resource: [2048, 1, 0],
        place: b"/r2",
        ..ONE
    },
];

const SUBMIT_2: Step = Step::Call(Call::Submit(b"root.b", b"u2"));

const MASTER_2: Step = Step::Call(Call::RegisterMaster(2));

const ALLOCATE_1: Step = Step::Call(Call::Allocate(1, 0, ASKS_OF_1, &[]));

const ALLOCATE_2: Step = Step::Call(Call::Allocate(2, 0, ASKS_OF_2, &[]));

/// Node 2, of (1024, 1).
const NODE_2: Step = Step::Call(Call::RegisterNode(b"n2", b"/r2", [1024, 1, 0]));

static ASKED: &[Step] = &[
    SUBMIT, SUBMIT_2, MASTER, ALLOCATE_1, MASTER_2, ALLOCATE_2, NODE, NODE_2,
];

static KEPT: &[Step] = &[
    SUBMIT,
    SUBMIT_2,
    MASTER,
    ALLOCATE_1,
    MASTER_2,
    ALLOCATE_2,
    NODE,
    NODE_2,
    Step::Grant(1, (1, 0), 2, [1024, 1]),
    Step::Reserve(1, (3, 0), 2, [1024, 1]),
];

/// The settings and the steps.
pub fn done(before: Before) -> (&'static [u8], &'static [Step]) {
    match before {
        Before::Nothing => (TWO_QUEUES, &[]),
        Before::Nested => (NESTED_QUEUES, &[]),
        Before::NestedAndFull => (NESTED_QUEUES, TWO_NESTED),
        Before::Node => (TWO_QUEUES, ONE_NODE),
        Before::ManyNodes => (TWO_QUEUES, MANY_NODES),
        Before::Submitted => (TWO_QUEUES, SUBMITTED),
        Before::Registered => (TWO_QUEUES, REGISTERED),
        Before::AskedForMany => (TWO_QUEUES, ASKED_FOR_MANY),
        Before::Asking => (TWO_QUEUES, ASKING),
        Before::Granted => (TWO_QUEUES, GRANTED),
        Before::TwoLive => (TWO_QUEUES, TWO_LIVE),
        Before::OneLive => (TWO_QUEUES, ONE_LIVE),
        Before::SixLive => (TWO_QUEUES, SIX_LIVE),
        Before::Reserved => (TWO_QUEUES, RESERVED),
        Before::Unreported => (TWO_QUEUES, UNREPORTED),
        Before::Asked => (SMALL_QUEUES, ASKED),
        Before::Kept => (SMALL_QUEUES, KEPT),
    }
}
