//! Trees of queues, proposals and frames: none of their calls takes memory, where the room of a frame was made.
ghost use Rattle.cap_tree.specs.Spot.{IsPosition};

use bytes::BytesMut;
use cap_base::RESOURCES;
use cap_commit::Cluster;
use cap_config::{Config, read_config};
use cap_copy::Snapshot;
use cap_frames::put_frame;
use cap_model::ShortText;
use cap_propose::propose;
use cap_testing::{Change, ChangeAt, TWO_QUEUES, change_queues, tree_after};
use cap_tree::{Found, OverLimit, Path, QueueTree};
use cap_vector::Resource;
use memory_testing::Hoard;
use refusal_cases::{Before, cluster_after};
use std::alloc::Global;

type Tree = QueueTree<RESOURCES, Global>;

/// What is seen of a leaf and of a user there: whether it runs, what they use, how many applications are active, and whether two containers are
/// accepted.
#[derive(Clone, Copy, PartialEq, Eq)]
struct Seen {
    runs: bool,
    active: u64,
    used: [u64; RESOURCES],
    user_used: [u64; RESOURCES],
    accepted: [Result<(), OverLimit>; 2],
}

/// What is seen once it has grown, which child of `root` is served first then, and what is seen at the end.
type Changed = (Option<Seen>, Option<u32>, Option<Seen>);

fn shown_at(tree: &Tree, leaf: &Path<Global>) -> Option<Seen>
    requires { IsPosition tree.now leaf.now.items }
{
    let user = ShortText::new(b"ann")?;
    let (small, large) = (
        Resource::new([1024, 1, 0])?,
        Resource::new([16_384, 16, 0])?,
    );
    Some(Seen {
        runs: tree.running(leaf),
        active: tree.row(leaf).active(),
        used: tree.use_of(leaf).amounts(),
        user_used: tree.user_use(leaf, &user).amounts(),
        accepted: [
            tree.accept(leaf, &user, &Resource::zero(), &small),
            tree.accept(leaf, &user, &Resource::zero(), &large),
        ],
    })
}

fn shown(tree: &Tree) -> Option<Seen> {
    match tree.find(b"root.a") {
        Found::Leaf(position) => shown_at(tree, &position),
        _ => None,
    }
}

/// The child of `root` that is served first.
fn first_child(tree: &Tree) -> Option<u32> {
    match tree.find(b"root") {
        Found::Parent(position) => tree.next_child(&position, None),
        _ => None,
    }
}

/// A container of `ann` comes and grows.
static GROWN: [ChangeAt; 2] = [
    ("root.a", "ann", Change::Apply([0, 0, 0], [1024, 1, 0])),
    ("root.a", "ann", Change::Apply([1024, 1, 0], [2048, 2, 0])),
];

/// The queue is stopped, and the container and the application end.
static ENDED: [ChangeAt; 3] = [
    ("root.a", "ann", Change::State(false)),
    ("root.a", "ann", Change::GiveBack([2048, 2, 0])),
    ("root.a", "ann", Change::Leave),
];

/// Sets the limits of its own settings. Whether their paths are the same.
fn set_limits(tree: &mut Tree, config: &Config<RESOURCES>) -> bool {
    let same = tree.same_paths(config);
    if same {
        tree.set_limits(config);
    }
    same
}

/// What is seen after the first of these changes and after the others, and which child of `root` is served first between them, where no bytes
/// are left. The limits that it has are set between them.
fn changed(
    alloc: Global,
    hoard: &mut Hoard,
    tree: &mut Tree,
    config: &Config<RESOURCES>,
) -> Option<Changed> {
    hoard.leave(alloc, 0);
    let grew = change_queues(tree, &GROWN).is_some() && set_limits(tree, config);
    let (grown, child) = (shown(tree), first_child(tree));
    let did_end = change_queues(tree, &ENDED).is_some();
    let ended = shown(tree);
    hoard.give();
    if grew && did_end && hoard.is_short() {
        Some((grown, child, ended))
    } else {
        None
    }
}

fn changed_in_none(alloc: Global) -> Option<Changed> {
    let mut hoard = Hoard::new(alloc)?;
    let config = read_config(alloc, TWO_QUEUES).ok()?;
    let mut tree = tree_after(alloc, TWO_QUEUES, &[("root.a", "ann", Change::Enter)])?;
    changed(alloc, &mut hoard, &mut tree, &config)
}

#[test]
fn trees_take_no_memory(rt: HostRuntime) {
    let grown = Seen {
        runs: true,
        active: 1,
        used: [2048, 2, 0],
        user_used: [2048, 2, 0],
        accepted: [Ok(()), Err(OverLimit::Maximum { level: 1 })],
    };
    let ended = Seen {
        runs: false,
        active: 0,
        used: [0, 0, 0],
        user_used: [0, 0, 0],
        accepted: [Ok(()), Ok(())],
    };
    // `b` uses nothing of its capacity, and `a` half of it.
    let answer = Some((Some(grown), Some(1), Some(ended)));
    assert!(rt; changed_in_none(rt.alloc()) == answer);
}

/// Whether a proposal is made of a snapshot where no bytes are left, on which node and of how many MiB.
fn proposed(
    alloc: Global,
    hoard: &mut Hoard,
    snapshot: &Snapshot<RESOURCES, Global>,
) -> Option<(u64, u64)> {
    hoard.leave(alloc, 0);
    let proposal = propose(snapshot, 0);
    hoard.give();
    if !hoard.is_short() {
        return None;
    }
    let proposal = proposal?;
    let [memory, ..] = proposal.resource().amounts();
    Some((proposal.node(), memory))
}

/// The same of a snapshot of the cluster.
fn proposed_of(
    alloc: Global,
    hoard: &mut Hoard,
    cluster: &Cluster<RESOURCES>,
) -> Option<(u64, u64)> {
    match Snapshot::take(alloc, cluster.tree(), cluster.apps(), cluster.nodes()) {
        Ok(snapshot) => proposed(alloc, hoard, &snapshot),
        Err(_) => None,
    }
}

fn proposed_in_none(alloc: Global) -> Option<(u64, u64)> {
    let mut hoard = Hoard::new(alloc)?;
    let cluster = cluster_after(alloc, Before::Asking)?;
    proposed_of(alloc, &mut hoard, &cluster)
}

#[test]
fn proposals_take_no_memory(rt: HostRuntime) {
    assert!(rt; proposed_in_none(rt.alloc()) == Some((1, 1024)));
}

/// Whether a frame is put where no bytes are left but the room that was made for it.
fn put(alloc: Global, hoard: &mut Hoard, out: &mut BytesMut) -> bool {
    hoard.leave(alloc, 0);
    let put = put_frame(out, b"one");
    hoard.give();
    hoard.is_short() && put.is_ok() && out.as_slice() == b"\0\0\0\x03one".as_slice()
}

fn put_in_room(alloc: Global) -> bool {
    let mut out = BytesMut::new(alloc);
    match (Hoard::new(alloc), out.reserve(7)) {
        (Some(mut hoard), Ok(())) => put(alloc, &mut hoard, &mut out),
        _ => false,
    }
}

#[test]
fn frames_in_their_room_take_no_memory(rt: HostRuntime) {
    assert!(rt; put_in_room(rt.alloc()));
}
