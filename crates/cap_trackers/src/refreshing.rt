//! Refresh: the settings of a cluster become those of property lines (`refresh`), which may have been read before (`refresh_with`).
ghost use Rattle.std.specs.Prelude.{◌≡◌, ◌<◌};
ghost use Rattle.cap_base.specs.Limits.{resources};
ghost use Rattle.cap_model.specs.declared.request.Request.TheVariants.{Refresh};
ghost use Rattle.cap_model.specs.Reporting.{HasNumbers, RepliesInFull};
ghost use Rattle.cap_trackers.specs.Refreshing.{fault_refusal};

use cap_base::properties::{ConfigFault, ConfigFaultKind};
use cap_base::{Config, RESOURCES};
use cap_commit::Cluster;
use cap_config::laws::{faults_are_of_the_text, settings_have_each_amount, text_has_one_answer};
use cap_config::read_config;
use cap_model::{Refusal, Reply, SettingsText};
use std::alloc::Global;
use std::marker::Model;

/// What property lines read as: the settings that they make, or their first fault, or that an allocation has failed. No cluster is needed
/// to read them. Contracts see the lines.
#[derive(Drop)]
pub struct ReadSettings<'a> {
    text: &'a SettingsText,
    read: Result<Config<RESOURCES>, ConfigFault>,
}

impl<'a> Model for ReadSettings<'a> {
    ghost use Rattle.std.specs.Prelude.{ℕ, List};
    ghost use Rattle.cap_trackers.specs.Refreshing.{IsReadOf};

    ghost Value = { List ℕ };

    ghost view = { λ s. s.text.now };

    ghost invariant = { λ s. IsReadOf s.text.now s.read };
}

impl<'a> ReadSettings<'a> {
    /// Reads property lines. Where they have a fault, or where an allocation fails, `refresh_with` refuses them for it.
    pub fn read(alloc: Global, text: &'a SettingsText) -> ReadSettings<'a>
        ensures { result ≡ text.now }
    {
        faults_are_of_the_text();
        let read = read_config(alloc, text.as_slice());
        ReadSettings { text, read }
    }
}

/// All settings become those of these property lines, in the manner of `yarn rmadmin -refreshQueues`: each queue's capacity,
/// maximum capacity, user limit factor and own state (RUNNING where the text gives none), the minimum and maximum allocation, and
/// the limit of active applications. Nothing ends and no reservation is dropped, also where a limit is lowered below what is used:
/// from then on nothing is granted or reserved over it. Asks stay as they were kept. Refused with `BadSettings` where the text has
/// a fault, the first, or with `OtherQueues` where its queues are not the cluster's, or with `NoMemory` if an allocation fails; a
/// refusal changes nothing.
pub fn refresh(
    alloc: Global,
    cluster: &mut Cluster<RESOURCES>,
    text: &SettingsText,
) -> Reply<RESOURCES>
    ensures replies { RepliesInFull cluster.old.flat (Refresh text.now) result cluster.new.flat }
    ensures numbers { HasNumbers cluster.new.flat result }
{
    refresh_with(cluster, &ReadSettings::read(alloc, text))
}

/// The same with property lines that were read before. Refused with `NoMemory` where an allocation failed then; it takes no memory itself.
pub fn refresh_with(
    cluster: &mut Cluster<RESOURCES>,
    settings: &ReadSettings<'_>,
) -> Reply<RESOURCES>
    ensures replies { RepliesInFull cluster.old.flat (Refresh settings.now)
        result cluster.new.flat }
    ensures numbers { HasNumbers cluster.new.flat result }
{
    settings_have_each_amount();
    text_has_one_answer();
    let config = match &settings.read {
        Ok(config) => config,
        Err(fault) => return Reply::Refused(refusal(*fault)),
    };
    if !cluster.tree().same_paths(config) {
        return Reply::Refused(Refusal::OtherQueues);
    }
    cluster.set_settings(config);
    Reply::Refresh
}

/// The refusal of property lines with this fault.
fn refusal(fault: ConfigFault) -> Refusal
    requires { fault.line < 4294967296 }
    ensures { result ≡ fault_refusal fault }
{
    match fault.kind {
        ConfigFaultKind::NoMemory => Refusal::NoMemory,
        kind => Refusal::BadSettings {
            line: fault.line as u32,
            number: kind.number(),
        },
    }
}
