//! FinishMaster: a registered application ends, with all that it has (`finish_master`).
ghost use Rattle.std.specs.Prelude.{◌≡◌, ◌≤◌};
ghost use Rattle.cap_model.specs.declared.request.Request.TheVariants.{FinishMaster};
ghost use Rattle.cap_model.specs.Reporting.{HasNumbers, RepliesInFullAlways};
ghost use Rattle.cap_base.specs.Limits.{resources_max};
ghost use Rattle.cap_model.specs.FinishMaster.{finish_master_refusal};

use cap_commit::Cluster;
use cap_model::{Refusal, Reply};

/// A registered application ends: its containers end, its asks are dropped, and what was not reported to it is forgotten. Its number is
/// unknown from then on. The reply gives how many containers ended. Refused with `UnknownApplication` or `NotRegistered`, which
/// changes nothing. It takes no memory.
pub fn finish_master<const K: usize>(cluster: &mut Cluster<K>, app: u64) -> Reply<K>
    ensures replies { RepliesInFullAlways cluster.old.flat (FinishMaster app)
        result cluster.new.flat }
    ensures numbers { HasNumbers cluster.new.flat result }
{
    match refusal(cluster, app) {
        Some(refusal) => Reply::Refused(refusal),
        None => Reply::FinishMaster {
            ended: cluster.finish(app),
        },
    }
}

/// The first refusal that holds for such an application.
fn refusal<const K: usize>(cluster: &Cluster<K>, app: u64) -> Option<Refusal>
    ensures refusal { result ≡ finish_master_refusal cluster.now.flat app }
    ensures resources { K ≤ resources_max }
{
    match cluster.apps().app(app) {
        None => Some(Refusal::UnknownApplication),
        Some(app) if !app.is_registered() => Some(Refusal::NotRegistered),
        Some(_) => None,
    }
}
