//! RegisterMaster: the master of an application reports, once (`register_master`).
ghost use Rattle.std.specs.Prelude.{◌≡◌};
ghost use Rattle.cap_model.specs.declared.request.Request.TheVariants.{RegisterMaster};
ghost use Rattle.cap_model.specs.Reporting.{HasNumbers, RepliesInFullAlways};
ghost use Rattle.cap_model.specs.RegisterMaster.{register_master_refusal};

use cap_commit::Cluster;
use cap_model::{Refusal, Reply};

/// The master of an application reports, once, and may ask and finish from then on; the reply gives the least and the most that a
/// container may have, in MiB, vcores and GPUs. Refused with `UnknownApplication` or `AlreadyRegistered`, which changes
/// nothing. It takes no memory.
pub fn register_master<const K: usize>(cluster: &mut Cluster<K>, app: u64) -> Reply<K>
    ensures replies { RepliesInFullAlways cluster.old.flat (RegisterMaster app)
        result cluster.new.flat }
    ensures numbers { HasNumbers cluster.new.flat result }
{
    match refusal(cluster, app) {
        Some(refusal) => Reply::Refused(refusal),
        None => {
            cluster.register(app);
            Reply::RegisterMaster {
                minimum: cluster.settings().minimum_allocation,
                maximum: cluster.settings().maximum_allocation,
            }
        }
    }
}

/// The first refusal that holds for the master of such an application.
fn refusal<const K: usize>(cluster: &Cluster<K>, app: u64) -> Option<Refusal>
    ensures { result ≡ register_master_refusal cluster.now.flat app }
{
    match cluster.apps().app(app) {
        None => Some(Refusal::UnknownApplication),
        Some(app) if app.is_registered() => Some(Refusal::AlreadyRegistered),
        Some(_) => None,
    }
}
