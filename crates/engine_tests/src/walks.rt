//! Tests of what waits in the tree of a snapshot: the order in which it is served.
ghost use Rattle.std.specs.Prelude.{◌≡◌, ◌<◌, ◌≤◌, [], map, length, IfSome};
ghost use Rattle.cap_tree.specs.Spot.{IsPosition};

use cap_base::RESOURCES;
use cap_copy::SeenTree;
use cap_testing::{Change, ChangeAt, tree_after};
use cap_tree::{Found, Path, QueueTree};
use std::alloc::Global;

type Tree = QueueTree<RESOURCES, Global>;

type Waiting = SeenTree<RESOURCES, Global>;

const WALKED_QUEUES: &[u8] = b"yarn.scheduler.capacity.root.queues=a,b,c
yarn.scheduler.capacity.root.a.queues=x,y
yarn.scheduler.capacity.root.a.capacity=[memory=4096,vcores=4]
yarn.scheduler.capacity.root.a.x.capacity=[memory=2048,vcores=2]
yarn.scheduler.capacity.root.a.y.capacity=[memory=2048,vcores=2]
yarn.scheduler.capacity.root.b.capacity=[memory=2048,vcores=8]
yarn.scheduler.capacity.root.c.capacity=[memory=4096,vcores=4]
";

/// A half of `root.a.x` is used, which is a quarter of `root.a`, and all of `root.b`; nothing of `root.a.y` and `root.c`.
const USES: [ChangeAt; 4] = [
    ("root.a.x", "ann", Change::Enter),
    ("root.a.x", "ann", Change::Apply([0, 0, 0], [1024, 1, 0])),
    ("root.b", "ann", Change::Enter),
    ("root.b", "ann", Change::Apply([0, 0, 0], [2048, 2, 0])),
];

/// No index.
const NONE: u64 = 99;

/// Where what waits does so, by index, and the indexes in the order of service: at each level the least full queue that something
/// waits in comes first and the full one last, a queue before those under it, and of two at one queue the earlier index.
const WALKS: [(&[&str], [u64; 8]); 8] = [
    (&[], [NONE, NONE, NONE, NONE, NONE, NONE, NONE, NONE]),
    (&["root.b"], [0, NONE, NONE, NONE, NONE, NONE, NONE, NONE]),
    (
        &["root.b", "root.b"],
        [0, 1, NONE, NONE, NONE, NONE, NONE, NONE],
    ),
    (
        &["root.b", "root.c"],
        [1, 0, NONE, NONE, NONE, NONE, NONE, NONE],
    ),
    (
        &["root.a.x", "root.a.y"],
        [1, 0, NONE, NONE, NONE, NONE, NONE, NONE],
    ),
    (
        &["root.b", "root.a.x", "root.a.y", "root.b", "root.a.x"],
        [2, 1, 4, 0, 3, NONE, NONE, NONE],
    ),
    (
        &["root.a.x", "root.b", "root.a.x", "root.b"],
        [0, 2, 1, 3, NONE, NONE, NONE, NONE],
    ),
    (
        &[
            "root.b", "root.a.x", "root.a.y", "root.b", "root.a.x", "root.c", "root.a", "root",
        ],
        [7, 5, 6, 2, 1, 4, 0, 3],
    ),
];

fn position_of(tree: &Tree, path: &str) -> Option<Path<Global>>
    ensures { IfSome result (λ position. IsPosition tree.now position.items) }
{
    match tree.find(path.as_bytes()) {
        Found::Leaf(position) | Found::Parent(position) => Some(position),
        Found::Missing => None,
    }
}

/// The positions of these paths, at each of which one waits.
fn wait_at_each(
    alloc: Global,
    tree: &Tree,
    waiting: &mut Waiting,
    paths: &[&str],
) -> Option<Vec<Path<Global>>>
    requires rows { waiting.old.rows ≡ tree.now }
    requires none { waiting.old.waiting ≡ [] }
    requires room { length paths.now ≤ waiting.old.room }
    requires few { length paths.now ≤ 8 }
    ensures { IfSome result (λ places.
        waiting.new.waiting ≡ map (λ place. place.items) places.items) }
{
    let mut places = Vec::new(alloc);
    for path in paths {
        let position = position_of(tree, path)?;
        waiting.wait(&position);
        places.push(position).ok()?;
    }
    Some(places)
}

/// The index that is served after that one, the first where none is named.
fn next_of(waiting: &Waiting, places: &[Path<Global>], last: Option<u64>) -> Option<u64>
    requires places { waiting.now.waiting ≡ map (λ place. place.items) places.now }
    requires last { IfSome last (λ index. index < length places.now) }
    ensures { IfSome result (λ index. index < length places.now) }
{
    match last {
        None => waiting.first_served(),
        Some(index) => waiting.next_served(index, places[index as usize].as_slice()),
    }
}

/// The indexes of what waits at these paths, in the order of service, where the queues are sorted before or not. `None` if more comes
/// after 8, or an allocation fails.
fn walked(alloc: Global, tree: &Tree, paths: &[&str], is_sorted: bool) -> Option<[u64; 8]> {
    if paths.len() > 8 {
        return None;
    }
    let Ok(mut waiting) = SeenTree::copy_of(alloc, tree, paths.len()) else {
        return None;
    };
    let places = wait_at_each(alloc, tree, &mut waiting, paths)?;
    if is_sorted {
        waiting.sort();
    }
    let mut order = [NONE; 8];
    let mut next = next_of(&waiting, &places, None);
    for i in 0..8 {
        let Some(index) = next else {
            return Some(order);
        };
        order[i] = index;
        next = next_of(&waiting, &places, Some(index));
    }
    if next.is_some() { None } else { Some(order) }
}

fn walked_in_uses(alloc: Global, paths: &[&str], is_sorted: bool) -> Option<[u64; 8]> {
    let tree = tree_after(alloc, WALKED_QUEUES, &USES)?;
    walked(alloc, &tree, paths, is_sorted)
}

#[test]
fn what_waits_is_served_in_order(rt: HostRuntime) {
    for &(paths, order) in &WALKS {
        for is_sorted in [false, true] {
            let given = walked_in_uses(rt.alloc(), paths, is_sorted);
            assert!(rt; given == Some(order));
        }
    }
}
