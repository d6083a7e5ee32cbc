//! Submit: an application enters a leaf queue (`submit`).
ghost use Rattle.std.specs.Prelude.{◌≡◌, None, Some, IfOk, IfErr};
ghost use Rattle.cap_model.specs.declared.request.Request.TheVariants.{Submit};
ghost use Rattle.cap_model.specs.Reporting.{HasNumbers, RepliesInFull};
ghost use Rattle.cap_model.specs.Submit.{submit_refusal};
ghost use Rattle.cap_tree.specs.Rows.{IsAt};

use cap_commit::{Cluster, Found, Position};
use cap_model::{NUMBER_END, NoMemory, PathText, Refusal, Reply, ShortText};

/// An application enters the leaf queue of this path for a user. It is active from then on, its master is yet to report, and the
/// reply gives its number, which no other application has or had. Refused with `UnknownQueue`, `NotLeaf`, `QueueStopped`,
/// `TooManyApplications` or `NumbersSpent`, or with `NoMemory` if an allocation fails; a refusal changes nothing.
pub fn submit<const K: usize>(
    cluster: &mut Cluster<K>,
    path: &PathText,
    user: &ShortText,
) -> Reply<K>
    ensures replies { RepliesInFull cluster.old.flat (Submit path.now user.now)
        result cluster.new.flat }
    ensures numbers { HasNumbers cluster.new.flat result }
{
    match admit(cluster, path) {
        Err(refusal) => Reply::Refused(refusal),
        Ok(position) => match cluster.add_app(path, position, user) {
            Ok(app) => Reply::Submit { app },
            Err(NoMemory) => Reply::Refused(Refusal::NoMemory),
        },
    }
}

/// Where the leaf queue of this path is; else the first refusal that holds, memory aside.
fn admit<const K: usize>(cluster: &Cluster<K>, path: &PathText) -> Result<Position, Refusal>
    ensures position { IfOk result (λ position. IsAt cluster.now.rows path.now position.items) }
    ensures ok { IfOk result (λ position. submit_refusal cluster.now.flat path.now ≡ None) }
    ensures err { IfErr result
        (λ refusal. submit_refusal cluster.now.flat path.now ≡ Some refusal) }
{
    let apps = cluster.apps();
    let tree = cluster.tree();
    let position = match tree.find(path.as_bytes()) {
        Found::Leaf(position) => position,
        Found::Parent(_) => return Err(Refusal::NotLeaf),
        Found::Missing => return Err(Refusal::UnknownQueue),
    };
    if !tree.running(&position) {
        return Err(Refusal::QueueStopped);
    }
    if cluster.settings().application_limit <= apps.count() as u64 {
        return Err(Refusal::TooManyApplications);
    }
    if apps.next() >= NUMBER_END {
        return Err(Refusal::NumbersSpent);
    }
    Ok(position)
}
