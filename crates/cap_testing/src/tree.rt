//! Changes of a tree of queues, in tables (`ChangeAt`, `tree_after`).
ghost use Rattle.cap_tree.specs.Spot.{IsPosition};

use cap_base::RESOURCES;
use cap_config::read_config;
use cap_model::ShortText;
use cap_tree::{Found, Path, QueueTree};
use cap_vector::{Resource, checked_add, fits, minus};
use std::alloc::Global;

type Tree = QueueTree<RESOURCES, Global>;

/// A change at a queue, made where its condition holds.
#[derive(Clone, Copy)]
pub enum Change {
    /// The queue is RUNNING or STOPPED.
    State(bool),
    /// One more active application of the user.
    Enter,
    /// One less.
    Leave,
    /// The user gives so much back.
    GiveBack([u64; RESOURCES]),
    /// The user's use changes from the first amounts to the second.
    Apply([u64; RESOURCES], [u64; RESOURCES]),
}

/// A change at the queue of a path, for a user.
pub type ChangeAt = (&'static str, &'static str, Change);

fn enter(tree: &mut Tree, position: &Path<Global>, user: &ShortText) -> Option<()>
    requires { IsPosition tree.old position.now.items }
{
    if tree.active() >= 10 {
        return None;
    }
    tree.enter(position, user).ok()
}

fn leave(tree: &mut Tree, position: &Path<Global>, user: &ShortText) -> Option<()>
    requires { IsPosition tree.old position.now.items }
{
    let active = tree.row(position).user_active(user);
    let used = tree.user_use(position, user);
    if active == 0 || !used.is_zero() {
        return None;
    }
    tree.leave(position, user);
    Some(())
}

fn give_back(
    tree: &mut Tree,
    position: &Path<Global>,
    user: &ShortText,
    r: [u64; RESOURCES],
) -> Option<()>
    requires { IsPosition tree.old position.now.items }
{
    let r = Resource::new(r)?;
    let active = tree.row(position).user_active(user);
    let used = tree.user_use(position, user);
    if active == 0 || !fits(&r, &used) {
        return None;
    }
    tree.give_back(position, user, &r);
    Some(())
}

fn apply(
    tree: &mut Tree,
    position: &Path<Global>,
    user: &ShortText,
    old: [u64; RESOURCES],
    new: [u64; RESOURCES],
) -> Option<()>
    requires { IsPosition tree.old position.now.items }
{
    let (old, new) = (Resource::new(old)?, Resource::new(new)?);
    let active = tree.row(position).user_active(user);
    let used = tree.user_use(position, user);
    let all = tree.used();
    if active == 0 || !fits(&old, &used) || !fits(&old, &all) {
        return None;
    }
    checked_add(&minus(&all, &old), &new)?;
    tree.apply(position, user, &old, &new);
    Some(())
}

fn make_at(tree: &mut Tree, position: &Path<Global>, user: &ShortText, change: Change) -> Option<()>
    requires { IsPosition tree.old position.now.items }
{
    match change {
        Change::State(running) => Some(tree.set_state(position, running)),
        Change::Enter => enter(tree, position, user),
        Change::Leave => leave(tree, position, user),
        Change::GiveBack(r) => give_back(tree, position, user, r),
        Change::Apply(old, new) => apply(tree, position, user, old, new),
    }
}

/// Makes a change. `None` if its condition does not hold, or an allocation fails.
pub fn change_queue(tree: &mut Tree, at: ChangeAt) -> Option<()> {
    let (path, user, change) = at;
    let user = ShortText::new(user.as_bytes())?;
    match tree.find(path.as_bytes()) {
        Found::Leaf(position) | Found::Parent(position) => {
            make_at(tree, &position, &user, change)
        }
        Found::Missing => None,
    }
}

/// Makes changes. `None` if the condition of one does not hold, or an allocation fails.
pub fn change_queues(tree: &mut Tree, changes: &[ChangeAt]) -> Option<()> {
    for change in changes {
        change_queue(tree, *change)?;
    }
    Some(())
}

/// The tree of these settings after these changes. `None` if the condition of one does not hold, or an allocation fails.
pub fn tree_after(alloc: Global, lines: &[u8], changes: &[ChangeAt]) -> Option<Tree> {
    let mut tree = tree(alloc, lines)?;
    match change_queues(&mut tree, changes) {
        Some(()) => Some(tree),
        None => None,
    }
}

/// The tree of these settings.
fn tree(alloc: Global, lines: &[u8]) -> Option<Tree> {
    let config = read_config(alloc, lines).ok()?;
    QueueTree::from_config(alloc, &config).ok()
}
