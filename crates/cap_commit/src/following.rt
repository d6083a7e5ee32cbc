//! How the tree of a cluster follows whether an application waits for containers: one of which all asks are impossible is left out.
ghost use Rattle.std.specs.Prelude.{◌≡◌, ◌≤◌, [], IfSome, IsSome, None, true};
ghost use Rattle.cap_base.specs.Limits.{resources_max};
ghost use Rattle.cap_base.specs.Members.{IsIn};
ghost use Rattle.cap_model.specs.Flat.{app_in};
ghost use Rattle.cap_asks.specs.Apps.{position_of};
ghost use Rattle.cap_tree.specs.Spot.{IsPosition};
ghost use Rattle.cap_tree.specs.Waiting.{waiting_at};
ghost use Rattle.cap_commit.specs.ClusterState.{FollowsWaiting};
ghost use Rattle.cap_commit.specs.Waiting.{IsFollowedAs, IsInCluster, IsSettled, IsWoken, MayBegin};

use cap_asks::{App, Apps, Position};
use cap_tree::QueueTree;
use std::alloc::Global;

/// An application of the leaf at this position waits in the tree from now on, or does not. It takes no memory.
pub(crate) fn settle<const K: usize>(
    tree: &mut QueueTree<K, Global>,
    position: &Position,
    number: u64,
    waits: bool,
)
    requires resources { K ≤ resources_max }
    requires position { IsPosition tree.old position.now.items }
    requires begins { waits ≡ true → ¬ IsIn number (waiting_at position.now.items tree.old)
        → MayBegin number position.now.items tree.old }
    ensures { IsSettled number position.now.items waits tree.old tree.new }
{
    let waited = tree.has_waiting(position, number);
    if waits == waited {
        return;
    }
    if waits {
        tree.wait(position, number);
    } else {
        tree.serve(position, number);
    }
}

/// The tree follows an application as it is now: it waits there where it waits, and one of its asks may be possible. The result is whether
/// it waits and is left out.
pub(crate) fn follow<const K: usize>(tree: &mut QueueTree<K, Global>, app: &App<K>) -> bool
    requires resources { K ≤ resources_max }
    requires position { IsPosition tree.old app.now.account.position }
    requires begins { ¬ IsIn app.now.app.number (waiting_at app.now.account.position tree.old)
        → MayBegin app.now.app.number app.now.account.position tree.old }
    ensures { IsFollowedAs app.now.app app.now.account.position app.now.impossible result
        tree.old tree.new }
{
    let is_left = app.is_impossible();
    if !app.is_waiting() {
        settle(tree, app.position(), app.number(), false);
        return false;
    }
    settle(tree, app.position(), app.number(), !is_left);
    is_left
}

/// The same of the application of a number. Where none of this number is active, nothing changes.
pub(crate) fn follow_app<const K: usize>(
    tree: &mut QueueTree<K, Global>,
    apps: &Apps<K>,
    number: u64,
) -> bool
    requires resources { K ≤ resources_max }
    requires position { IsSome (app_in apps.now.table number)
        → IsPosition tree.old (position_of number apps.now.accounts) }
    requires begins { IsSome (app_in apps.now.table number)
        → ¬ IsIn number (waiting_at (position_of number apps.now.accounts) tree.old)
        → MayBegin number (position_of number apps.now.accounts) tree.old }
    ensures none { app_in apps.now.table number ≡ None → tree.new ≡ tree.old }
    ensures some { IfSome (app_in apps.now.table number) (λ app.
        IsFollowedAs app (position_of number apps.now.accounts) apps.now.impossible result
        tree.old tree.new) }
{
    match apps.app(number) {
        Some(app) => follow(tree, app),
        None => false,
    }
}

/// The tree follows each application that waits, once a node has come. The result is whether one is left out.
pub(crate) fn wake<const K: usize>(tree: &mut QueueTree<K, Global>, apps: &Apps<K>) -> bool
    requires resources { K ≤ resources_max }
    requires cluster { IsInCluster K apps.now tree.old }
    requires waiting { FollowsWaiting true [] apps.now.table.active tree.old }
    ensures { IsWoken K apps.now result tree.old tree.new }
{
    apps.numbers_rise();
    let mut asleep = false;
    for index in 0..apps.waiting_count() {
        let is_left = follow(tree, apps.nth_waiting(index));
        asleep = asleep | is_left;
    }
    asleep
}
