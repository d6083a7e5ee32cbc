//! Tests of the tree of queues: all that is seen of a queue after changes, and the first limit that is passed.
ghost use Rattle.cap_tree.specs.Spot.{IsPosition};

use cap_base::RESOURCES;
use cap_config::{Config, read_config};
use cap_model::ShortText;
use cap_testing::{Change, ChangeAt, NESTED_QUEUES, change_queue, first, tree_after};
use cap_tree::{Found, OverLimit, Path, QueueTree};
use cap_vector::Resource;
use std::alloc::Global;

type Tree = QueueTree<RESOURCES, Global>;

/// All that is seen of a queue, and of a user in it.
#[derive(Clone, Copy, PartialEq)]
struct Seen {
    is_leaf: bool,
    /// The child index on the way to it at each level, as the digits of a number after a 1.
    at: u32,
    capacity: [u64; RESOURCES],
    runs: bool,
    active: u64,
    used: [u64; RESOURCES],
    user_active: u64,
    user_used: [u64; RESOURCES],
}

fn digits(steps: &[u32]) -> u32 {
    match steps {
        [] => 1,
        [a] => (*a % 10).saturating_add(10),
        [a, b, ..] => (*a % 10)
            .saturating_mul(10)
            .saturating_add(*b % 10)
            .saturating_add(100),
    }
}

fn seen_at(tree: &Tree, position: &Path<Global>, user: &ShortText, is_leaf: bool) -> Seen
    requires { IsPosition tree.now position.now.items }
{
    let queue = tree.row(position);
    Seen {
        is_leaf,
        at: digits(position.as_slice()),
        capacity: queue.guaranteed().amounts(),
        runs: tree.running(position),
        active: queue.active(),
        used: tree.use_of(position).amounts(),
        user_active: queue.user_active(user),
        user_used: tree.user_use(position, user).amounts(),
    }
}

fn shown(tree: &Tree, path: &str, user: &str) -> Option<Seen> {
    let user = ShortText::new(user.as_bytes())?;
    match tree.find(path.as_bytes()) {
        Found::Leaf(position) => Some(seen_at(tree, &position, &user, true)),
        Found::Parent(position) => Some(seen_at(tree, &position, &user, false)),
        Found::Missing => None,
    }
}

/// What is seen after these steps.
fn seen_after(
    alloc: Global,
    lines: &[u8],
    steps: &[ChangeAt],
    path: &str,
    user: &str,
) -> Option<Seen> {
    shown(&tree_after(alloc, lines, steps)?, path, user)
}

/// A running queue in which nothing has happened, and others of the nested queues.
const ROOT: Seen = Seen {
    is_leaf: false,
    at: 1,
    capacity: [0, 0, 0],
    runs: true,
    active: 0,
    used: [0, 0, 0],
    user_active: 0,
    user_used: [0, 0, 0],
};

const A: Seen = Seen {
    at: 10,
    capacity: [4096, 4, 0],
    ..ROOT
};

const X: Seen = Seen {
    is_leaf: true,
    at: 100,
    ..ROOT
};

const Y: Seen = Seen { at: 101, ..X };

const STOPPED_X: Seen = Seen { runs: false, ..X };

const STOPPED_Y: Seen = Seen { runs: false, ..Y };

const B: Seen = Seen {
    at: 11,
    capacity: [2048, 8, 0],
    ..X
};

/// Paths, and what is found there.
const FOUND: [(&str, Option<Seen>); 10] = [
    ("root", Some(ROOT)),
    ("root.a", Some(A)),
    ("root.a.x", Some(X)),
    ("root.a.y", Some(STOPPED_Y)),
    ("root.b", Some(B)),
    ("root.c", None),
    ("roo", None),
    ("root.a.", None),
    ("root.a.x.y", None),
    ("", None),
];

#[test]
fn queues_are_found(rt: HostRuntime) {
    for &(path, answer) in &FOUND {
        let given = seen_after(rt.alloc(), NESTED_QUEUES, &[], path, "ann");
        assert!(rt; given == answer, "{path}");
    }
}

#[test]
fn a_stopped_queue_stops_those_under_it(rt: HostRuntime) {
    let steps = [
        ("root.a.y", "ann", Change::State(true)),
        ("root.a", "ann", Change::State(false)),
    ];
    for &(made, path, answer) in &[
        (0, "root.a.y", STOPPED_Y),
        (1, "root.a.y", Y),
        (2, "root.a.x", STOPPED_X),
        (2, "root.b", B),
        (2, "root", ROOT),
    ] {
        let given = seen_after(rt.alloc(), NESTED_QUEUES, first(&steps, made), path, "ann");
        assert!(rt; given == Some(answer), "{made} {path}");
    }
}

/// Two applications of `ann` in `root.a.x` and one of `bob` in `root.b`; then those of `ann` end.
const ANN_AND_BOB: [ChangeAt; 5] = [
    ("root.a.x", "ann", Change::Enter),
    ("root.b", "bob", Change::Enter),
    ("root.a.x", "ann", Change::Enter),
    ("root.a.x", "ann", Change::Leave),
    ("root.a.x", "ann", Change::Leave),
];

/// How many of these are made, a queue and a user; what is seen of the queue without applications; and how many there are, and of the user.
const ACTIVE: [(usize, &str, &str, Seen, u64, u64); 15] = [
    (3, "root", "ann", ROOT, 3, 0),
    (3, "root.a", "ann", A, 2, 0),
    (3, "root.a.x", "ann", X, 2, 2),
    (3, "root.a.x", "bob", X, 2, 0),
    (3, "root.a.y", "ann", STOPPED_Y, 0, 0),
    (3, "root.b", "ann", B, 1, 0),
    (3, "root.b", "bob", B, 1, 1),
    (4, "root", "ann", ROOT, 2, 0),
    (4, "root.a", "ann", A, 1, 0),
    (4, "root.a.x", "ann", X, 1, 1),
    (4, "root.b", "bob", B, 1, 1),
    (5, "root", "ann", ROOT, 1, 0),
    (5, "root.a", "ann", A, 0, 0),
    (5, "root.a.x", "ann", X, 0, 0),
    (5, "root.b", "bob", B, 1, 1),
];

#[test]
fn applications_count_along_the_way_and_for_their_user(rt: HostRuntime) {
    for &(made, path, user, queue, active, user_active) in &ACTIVE {
        let steps = first(&ANN_AND_BOB, made);
        let given = seen_after(rt.alloc(), NESTED_QUEUES, steps, path, user);
        let answer = Seen {
            active,
            user_active,
            ..queue
        };
        assert!(rt; given == Some(answer), "{made} {path} {user}");
    }
}

#[test]
fn nothing_given_back_is_no_change(rt: HostRuntime) {
    let steps = [
        ("root.a.x", "ann", Change::Enter),
        ("root.a.x", "ann", Change::Enter),
        ("root.a.x", "ann", Change::GiveBack([0, 0, 0])),
    ];
    for &(path, queue, user_active) in &[("root", ROOT, 0), ("root.a", A, 0), ("root.a.x", X, 2)] {
        let given = seen_after(rt.alloc(), NESTED_QUEUES, &steps, path, "ann");
        let answer = Seen {
            active: 2,
            user_active,
            ..queue
        };
        assert!(rt; given == Some(answer), "{path}");
    }
}

/// Whether one more step can be made after the first so many of these.
fn can(alloc: Global, made: usize, step: ChangeAt) -> Option<bool> {
    let mut tree = tree_after(alloc, NESTED_QUEUES, first(&ANN_AND_BOB, made))?;
    Some(change_queue(&mut tree, step).is_some())
}

#[test]
fn only_a_user_with_applications_leaves_and_gives_back(rt: HostRuntime) {
    for &(made, user, change, answer) in &[
        (3, "bob", Change::Leave, false),
        (3, "ann", Change::Leave, true),
        (5, "ann", Change::Leave, false),
        (3, "ann", Change::GiveBack([0, 0, 0]), true),
        (3, "ann", Change::GiveBack([1, 0, 0]), false),
        (3, "bob", Change::GiveBack([0, 0, 0]), false),
    ] {
        let given = can(rt.alloc(), made, ("root.a.x", user, change));
        assert!(rt; given == Some(answer), "{made} {user}");
    }
}

/// `root.g` may grow to (3072, 3), and its leaf `r` to (512, 1). Nothing bounds `root`, `root.b` and the leaf `q` of `root.g`.
const LIMITED_QUEUES: &[u8] = b"yarn.scheduler.capacity.root.queues=b,g
yarn.scheduler.capacity.root.b.capacity=[memory=2048,vcores=8]
yarn.scheduler.capacity.root.g.queues=q,r
yarn.scheduler.capacity.root.g.capacity=[memory=3072,vcores=3]
yarn.scheduler.capacity.root.g.maximum-capacity=[memory=3072,vcores=3]
yarn.scheduler.capacity.root.g.q.capacity=[memory=1024,vcores=1]
yarn.scheduler.capacity.root.g.q.user-limit-factor=4
yarn.scheduler.capacity.root.g.r.capacity=[memory=512,vcores=1]
yarn.scheduler.capacity.root.g.r.maximum-capacity=[memory=512,vcores=1]
yarn.scheduler.capacity.root.g.r.user-limit-factor=9
";

/// Containers of `ann`: two in `root.g.q` and two in `root.b`; one in `root.g.q` grows and is given back.
const CONTAINERS: [ChangeAt; 8] = [
    ("root.g.q", "ann", Change::Enter),
    ("root.b", "ann", Change::Enter),
    ("root.g.q", "ann", Change::Apply([0, 0, 0], [1024, 1, 0])),
    ("root.g.q", "ann", Change::Apply([0, 0, 0], [1024, 1, 0])),
    ("root.b", "ann", Change::Apply([0, 0, 0], [1024, 1, 0])),
    ("root.b", "ann", Change::Apply([0, 0, 0], [1024, 1, 0])),
    ("root.g.q", "ann", Change::Apply([1024, 1, 0], [2048, 1, 0])),
    ("root.g.q", "ann", Change::GiveBack([2048, 1, 0])),
];

/// The limited queues, each with the applications of `ann`.
const ALL: Seen = Seen { active: 2, ..ROOT };

const G: Seen = Seen {
    at: 11,
    capacity: [3072, 3, 0],
    active: 1,
    ..ROOT
};

const Q: Seen = Seen {
    at: 110,
    capacity: [1024, 1, 0],
    active: 1,
    user_active: 1,
    ..X
};

const R: Seen = Seen {
    at: 111,
    capacity: [512, 1, 0],
    ..X
};

const WITHOUT_MAXIMUM: Seen = Seen {
    at: 10,
    capacity: [2048, 8, 0],
    active: 1,
    user_active: 1,
    ..X
};

/// How many of these are made and a queue; what is seen of the queue without containers; and what is used, and by `ann`.
const USED: [(usize, &str, Seen, [u64; RESOURCES], [u64; RESOURCES]); 13] = [
    (2, "root", ALL, [0, 0, 0], [0, 0, 0]),
    (6, "root", ALL, [4096, 4, 0], [0, 0, 0]),
    (6, "root.g", G, [2048, 2, 0], [0, 0, 0]),
    (6, "root.g.q", Q, [2048, 2, 0], [2048, 2, 0]),
    (6, "root.g.r", R, [0, 0, 0], [0, 0, 0]),
    (6, "root.b", WITHOUT_MAXIMUM, [2048, 2, 0], [2048, 2, 0]),
    (7, "root", ALL, [5120, 4, 0], [0, 0, 0]),
    (7, "root.g", G, [3072, 2, 0], [0, 0, 0]),
    (7, "root.g.q", Q, [3072, 2, 0], [3072, 2, 0]),
    (8, "root", ALL, [3072, 3, 0], [0, 0, 0]),
    (8, "root.g", G, [1024, 1, 0], [0, 0, 0]),
    (8, "root.g.q", Q, [1024, 1, 0], [1024, 1, 0]),
    (8, "root.b", WITHOUT_MAXIMUM, [2048, 2, 0], [2048, 2, 0]),
];

#[test]
fn containers_count_along_the_way_and_for_their_user(rt: HostRuntime) {
    for &(made, path, queue, used, user_used) in &USED {
        let steps = first(&CONTAINERS, made);
        let given = seen_after(rt.alloc(), LIMITED_QUEUES, steps, path, "ann");
        let answer = Seen {
            used,
            user_used,
            ..queue
        };
        assert!(rt; given == Some(answer), "{made} {path}");
    }
}

/// Whether `ann` may change a use in a leaf, and the limit that it would pass.
fn accepts(
    tree: &Tree,
    path: &str,
    old: [u64; RESOURCES],
    new: [u64; RESOURCES],
) -> Option<Result<(), OverLimit>> {
    let user = ShortText::new(b"ann")?;
    let (old, new) = (Resource::new(old)?, Resource::new(new)?);
    match tree.find(path.as_bytes()) {
        Found::Leaf(position) => Some(tree.accept(&position, &user, &old, &new)),
        _ => None,
    }
}

/// Other limits of the nested queues, in another order. `root.a.y` has no state, and so runs.
const OTHER_LIMITS: &[u8] = b"yarn.scheduler.capacity.root.queues=b,a
yarn.scheduler.capacity.root.b.state=STOPPED
yarn.scheduler.capacity.root.b.capacity=[memory=512,vcores=1]
yarn.scheduler.capacity.root.a.queues=y,x
yarn.scheduler.capacity.root.a.capacity=[memory=1024,vcores=2]
yarn.scheduler.capacity.root.a.maximum-capacity=[memory=2048,vcores=3]
yarn.scheduler.capacity.root.a.x.user-limit-factor=7
";

/// Property lines, and whether their queues have the paths of the nested queues.
const PATHS: [(&[u8], bool); 6] = [
    (NESTED_QUEUES, true),
    (OTHER_LIMITS, true),
    (b"yarn.scheduler.capacity.root.queues=a,b", false),
    (
        b"yarn.scheduler.capacity.root.queues=a,b\nyarn.scheduler.capacity.root.a.queues=x",
        false,
    ),
    (
        b"yarn.scheduler.capacity.root.queues=a,b\nyarn.scheduler.capacity.root.a.queues=x,z",
        false,
    ),
    (
        b"yarn.scheduler.capacity.root.queues=a,b,c\nyarn.scheduler.capacity.root.a.queues=x,y",
        false,
    ),
];

/// Whether the nested queues have the paths of these property lines.
fn same_paths(alloc: Global, lines: &[u8]) -> Option<bool> {
    let config = read_config(alloc, lines).ok()?;
    let tree = tree_after(alloc, NESTED_QUEUES, &[])?;
    Some(tree.same_paths(&config))
}

#[test]
fn paths_are_the_same_in_any_order(rt: HostRuntime) {
    for &(lines, answer) in &PATHS {
        assert!(rt; same_paths(rt.alloc(), lines) == Some(answer));
    }
}

/// `ann` uses so much in `root.a.x` that it is over the other maximum of `root.a`.
const OVER: [ChangeAt; 3] = [
    ("root.b", "bob", Change::Enter),
    ("root.a.x", "ann", Change::Enter),
    ("root.a.x", "ann", Change::Apply([0, 0, 0], [4096, 4, 0])),
];

/// Sets the limits, where the paths are the same.
fn with_limits(mut tree: Tree, config: &Config<RESOURCES>) -> Option<Tree> {
    if !tree.same_paths(config) {
        return None;
    }
    tree.set_limits(config);
    Some(tree)
}

/// What is seen once the other limits are set, and whether `ann` may have one MiB more in `root.a.x`.
fn seen_in_limits(alloc: Global, path: &str) -> Option<(Seen, Result<(), OverLimit>)> {
    let config = read_config(alloc, OTHER_LIMITS).ok()?;
    let tree = with_limits(tree_after(alloc, NESTED_QUEUES, &OVER)?, &config)?;
    let more = accepts(&tree, "root.a.x", [0, 0, 0], [1, 0, 0])?;
    Some((shown(&tree, path, "ann")?, more))
}

#[test]
fn limits_are_set_and_what_is_counted_stays(rt: HostRuntime) {
    let used = [4096, 4, 0];
    let a = Seen {
        capacity: [1024, 2, 0],
        active: 1,
        used,
        ..A
    };
    let x = Seen {
        active: 1,
        used,
        user_active: 1,
        user_used: used,
        ..X
    };
    let b = Seen {
        capacity: [512, 1, 0],
        runs: false,
        active: 1,
        ..B
    };
    let root = Seen {
        active: 2,
        used,
        ..ROOT
    };
    let over = Err(OverLimit::Maximum { level: 1 });
    for &(path, answer) in &[
        ("root", root),
        ("root.a", a),
        ("root.a.x", x),
        ("root.a.y", Y),
        ("root.b", b),
    ] {
        let given = seen_in_limits(rt.alloc(), path);
        assert!(rt; given == Some((answer, over)), "{path}");
    }
}

/// The most that a resource may have.
const MOST: u64 = 1_099_511_627_776;

const OVER_1: Result<(), OverLimit> = Err(OverLimit::Maximum { level: 1 });

const OVER_2: Result<(), OverLimit> = Err(OverLimit::Maximum { level: 2 });

const OVER_USER: Result<(), OverLimit> = Err(OverLimit::User);

/// A leaf, a change of a use there, and whether it is accepted.
const CHANGES: [(
    &str,
    [u64; RESOURCES],
    [u64; RESOURCES],
    Result<(), OverLimit>,
); 13] = [
    // A third container of (1024, 1) fills `root.g`, and a larger one does not fit.
    ("root.g.q", [0, 0, 0], [1024, 1, 0], Ok(())),
    ("root.g.q", [0, 0, 0], [1025, 1, 0], OVER_1),
    ("root.g.q", [0, 0, 0], [1024, 2, 0], OVER_1),
    ("root.g.q", [1024, 1, 0], [2048, 2, 0], Ok(())),
    ("root.g.q", [1024, 1, 0], [2049, 1, 0], OVER_1),
    // The maximum of the leaf `r` is at level 2. The one above it is named first.
    ("root.g.r", [0, 0, 0], [512, 1, 0], Ok(())),
    ("root.g.r", [0, 0, 0], [513, 1, 0], OVER_2),
    ("root.g.r", [0, 0, 0], [513, 2, 0], OVER_1),
    // In `root.b` the user limit alone bounds a user.
    ("root.b", [0, 0, 0], [0, 1, 0], Ok(())),
    ("root.b", [0, 0, 0], [1024, 1, 0], OVER_USER),
    ("root.b", [1024, 1, 0], [1024, 7, 0], Ok(())),
    ("root.b", [1024, 1, 0], [1024, 8, 0], OVER_USER),
    ("root.b", [0, 0, 0], [MOST, MOST, MOST], OVER_USER),
];

#[test]
fn the_first_limit_that_is_passed_is_named(rt: HostRuntime) {
    let steps = first(&CONTAINERS, 6);
    let tree = tree_after(rt.alloc(), LIMITED_QUEUES, steps).expect(&rt, "no tree");
    for &(path, old, new, answer) in &CHANGES {
        let given = accepts(&tree, path, old, new);
        assert!(rt; given == Some(answer), "{path} {new:?}");
    }
}
