//! What a QueueInfo and a ClusterInfo give, written as bytes and read from them.
ghost use Rattle.std.specs.Prelude.{◌≡◌, ◌≤◌, ◌+◌, ◌++◌, length, IfOk, IfSome};
ghost use Rattle.cap_base.specs.Limits.{resources};
ghost use Rattle.cap_vector.specs.Vector.{IsResource};
ghost use Rattle.cap_grammar.specs.Spelling.{limit, queue_report, FitsQueueReport, cluster_report, FitsClusterReport};
ghost use Rattle.cap_grammar.specs.Answers.{IsReadAs};
ghost use Rattle.cap_grammar.specs.Versions.{amounts_in};

use crate::fault::MessageFault;
use crate::fields::{flag_of, numbers_in, u32_of, vector_of};
use crate::output::{Out, put_amounts};
use cap_base::RESOURCES;
use cap_model::{ClusterReport, OwnedReply, QueueReport, ReplyWith};
use cap_vector::Resource;

// Whether a queue has a maximum, and the maximum, zeros where it has none.
fn put_limit(version: u8, maximum: &Option<Resource<RESOURCES>>, out: &mut Out)
    requires { 25 ≤ out.old.spare }
    ensures appends { out.new.items
        ≡ out.old.items ++ limit resources (amounts_in version) maximum.now }
    ensures spare { out.new.spare + length (limit resources (amounts_in version) maximum.now)
        ≡ out.old.spare }
    ensures len { length (limit resources (amounts_in version) maximum.now) ≤ 25 }
    ensures fits { IfSome maximum.now (IsResource resources) }
{
    match maximum {
        Some(amounts) => {
            out.extend_reserved(&[1]);
            put_amounts(version, amounts, out);
        }
        None => {
            out.extend_reserved(&[0]);
            put_amounts(version, &Resource::zero(), out);
        }
    }
}

// What a QueueInfo gives, written.
#[tactic(auto, unfolding(crate::specs::Spelling::queue_report))]
pub(crate) fn put_queue_report(version: u8, report: &QueueReport<RESOURCES>, out: &mut Out)
    requires { 79 ≤ out.old.spare }
    ensures appends { out.new.items
        ≡ out.old.items ++ queue_report (amounts_in version) report.now }
    ensures spare { out.new.spare + length (queue_report (amounts_in version) report.now)
        ≡ out.old.spare }
    ensures len { length (queue_report (amounts_in version) report.now) ≤ 79 }
    ensures fits { FitsQueueReport report.now }
{
    out.extend_reserved(&[report.running as u8, report.leaf as u8]);
    put_amounts(version, &report.guaranteed, out);
    put_limit(version, &report.maximum, out);
    put_amounts(version, &report.used, out);
    out.extend_reserved(&report.apps.to_be_bytes());
}

// What a ClusterInfo gives, written.
#[tactic(auto, unfolding(crate::specs::Spelling::cluster_report))]
pub(crate) fn put_cluster_report(version: u8, report: &ClusterReport<RESOURCES>, out: &mut Out)
    requires { 60 ≤ out.old.spare }
    ensures appends { out.new.items
        ≡ out.old.items ++ cluster_report (amounts_in version) report.now }
    ensures spare { out.new.spare + length (cluster_report (amounts_in version) report.now)
        ≡ out.old.spare }
    ensures len { length (cluster_report (amounts_in version) report.now) ≤ 60 }
    ensures fits { FitsClusterReport report.now }
{
    out.extend_reserved(&report.nodes.to_be_bytes());
    out.extend_reserved(&report.apps.to_be_bytes());
    out.extend_reserved(&report.containers.to_be_bytes());
    put_amounts(version, &report.totals, out);
    put_amounts(version, &report.used, out);
}

// What a QueueInfo gives, read.
pub(crate) fn queue_shown(version: u8, bytes: &[u8]) -> Result<OwnedReply<RESOURCES>, MessageFault>
    ensures { IfOk result (λ reply. IsReadAs version 8 reply) }
{
    let (running, rest) = flag_of(bytes)?;
    let (leaf, rest) = flag_of(rest)?;
    let (guaranteed, rest) = numbers_in(version, rest)?;
    let (is_bounded, rest) = flag_of(rest)?;
    let (maximum, rest) = numbers_in(version, rest)?;
    let (used, rest) = numbers_in(version, rest)?;
    let (apps, _) = u32_of(rest)?;
    let maximum = vector_of(maximum)?;
    Ok(ReplyWith::QueueInfo {
        report: QueueReport {
            running,
            leaf,
            guaranteed: vector_of(guaranteed)?,
            maximum: if is_bounded { Some(maximum) } else { None },
            used: vector_of(used)?,
            apps,
        },
    })
}

// What a ClusterInfo gives, read.
pub(crate) fn cluster_shown(
    version: u8,
    bytes: &[u8],
) -> Result<OwnedReply<RESOURCES>, MessageFault>
    ensures { IfOk result (λ reply. IsReadAs version 10 reply) }
{
    let (nodes, rest) = u32_of(bytes)?;
    let (apps, rest) = u32_of(rest)?;
    let (containers, rest) = u32_of(rest)?;
    let (totals, rest) = numbers_in(version, rest)?;
    let (used, _) = numbers_in(version, rest)?;
    Ok(ReplyWith::ClusterInfo {
        report: ClusterReport {
            nodes,
            apps,
            containers,
            totals: vector_of(totals)?,
            used: vector_of(used)?,
        },
    })
}
