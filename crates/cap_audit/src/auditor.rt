//! An audit under way: the settings, the cluster that they open, and where it stands (`Auditor`).
ghost use Rattle.std.specs.Prelude.{◌≡◌, OnOk, IfErr, IfOk, [], None, true, false, is_some};
ghost use Rattle.cap_base.specs.properties.First.{settings_in};
ghost use Rattle.cap_audit.specs.Audit.{Adds, Begins, Goes, IsOpenedBy, PlaysLine, StartsAnew};
ghost use Rattle.cap_audit.specs.Onward.{IfFalse, IsNoWayFrom, LeadsNowhere, LeadsOn, MayGoOn, OpensNone, Tells};

use crate::counts::Counts;
use crate::entries::follow;
use crate::place::Place;
use crate::stop::{Stop, Why};
use cap_base::RESOURCES;
use cap_commit::Cluster;
use cap_config::{ConfigFaultKind, read_config};
use cap_journal::Out;
use cap_model::NoMemory;
use std::alloc::Global;

/// An audit under way: the property lines, each with its end, the cluster that they opened at the first other line, and where it stands.
pub(crate) struct Auditor {
    alloc: Global,
    settings: Vec<u8>,
    cluster: Option<Cluster<RESOURCES>>,
    place: Place,
    counts: Counts,
    lines: u64,
    /// What messages are written into, with room for the longest once one was.
    message: Out,
}

impl Drop for Auditor {
    fn drop(self) {
        let Auditor {
            alloc: _,
            settings: _,
            cluster: _,
            place: _,
            counts: _,
            lines: _,
            message: _,
        } = self;
    }
}

impl Auditor {
    /// Before the first line.
    pub(crate) fn new(alloc: Global) -> Auditor
        ensures { StartsAnew result }
    {
        Auditor {
            alloc,
            settings: Vec::new(alloc),
            cluster: None,
            place: Place::start(),
            counts: Counts::new(),
            lines: 0,
            message: Out::new(alloc),
        }
    }

    /// Plays one line.
    pub(crate) fn play(&mut self, line: &[u8]) -> Result<(), Stop>
        ensures plays { OnOk result (PlaysLine line.now self.old self.new) }
        ensures only { Tells result
            (LeadsOn line.now self.old self.new) (LeadsNowhere line.now self.old) }
    {
        self.lines = self.lines.saturating_add(1);
        if let Some(property) = line.strip_prefix(b"conf ") {
            return self.add(property);
        }
        match self.begin() {
            Ok(()) => {}
            Err(stop) => return Err(stop),
        }
        match self.follow(line) {
            Ok(()) => {
                self.counts = self.counts.with(line);
                Ok(())
            }
            Err(stop) => Err(stop),
        }
    }

    /// One more property line, which may stand before all epochs alone.
    fn add(&mut self, property: &[u8]) -> Result<(), Stop>
        ensures adds { OnOk result (Adds property.now self.old self.new) }
        ensures late { IfErr result (λ stop. IfFalse stop (is_some self.old.cluster ≡ true)) }
    {
        if self.cluster.is_some() {
            return Err(Stop::False(Why::LateProperty));
        }
        self.settings.extend_from_slice(property)?;
        self.settings.extend_from_slice(b"\n")?;
        Ok(())
    }

    /// Reads the settings and opens the cluster by them, where that was not done before.
    fn begin(&mut self) -> Result<(), Stop>
        ensures begins { OnOk result (Begins self.old self.new) }
        ensures none { IfErr result (λ stop. IfFalse stop (OpensNone self.old)) }
    {
        if self.cluster.is_some() {
            return Ok(());
        }
        match open(self.alloc, &self.settings) {
            Ok(cluster) => {
                self.cluster = Some(cluster);
                Ok(())
            }
            Err(stop) => Err(stop),
        }
    }

    /// Plays one line on the cluster.
    fn follow(&mut self, line: &[u8]) -> Result<(), Stop>
        requires { is_some self.old.cluster ≡ true }
        ensures goes { OnOk result (Goes line.now self.old self.new) }
        ensures none { IfErr result (λ stop. IfFalse stop (IsNoWayFrom line.now self.old)) }
    {
        let Some(cluster) = &mut self.cluster else {
            unreachable!()
        };
        follow(
            self.alloc,
            &mut self.message,
            cluster,
            &mut self.place,
            line,
        )
    }

    /// What is known at the end of the file: it does not end in an epoch.
    pub(crate) fn end(&mut self) -> Result<(), Stop>
        ensures ends { OnOk result
            (Begins self.old self.new × (self.new.place.inside ≡ false)) }
        ensures none { IfErr result (λ stop. IfFalse stop (MayGoOn [] self.old → ⊥)) }
    {
        self.lines = self.lines.saturating_add(1);
        match self.begin() {
            Ok(()) => {}
            Err(stop) => return Err(stop),
        }
        if self.place.inside {
            return Err(Stop::False(Why::Unfinished));
        }
        Ok(())
    }

    /// The number of the line that was played last; at the end of the file one more.
    pub(crate) fn lines(&self) -> u64 {
        self.lines
    }

    /// The property lines, each with its end.
    pub(crate) fn settings(&self) -> &[u8] {
        &self.settings
    }

    /// How many epochs there were.
    pub(crate) fn epochs(&self) -> u64 {
        self.place.epochs
    }

    /// What was counted of all epochs.
    pub(crate) fn counts(&self) -> Counts {
        self.counts
    }
}

/// Opens a cluster by the settings.
fn open(alloc: Global, text: &[u8]) -> Result<Cluster<RESOURCES>, Stop>
    ensures opens { IfOk result (λ cluster. IsOpenedBy text.now cluster.flat) }
    ensures none { IfErr result (λ stop. IfFalse stop (settings_in text.now ≡ None)) }
{
    match read_config(alloc, text) {
        Ok(config) => match Cluster::from_config(alloc, &config) {
            Ok(cluster) => Ok(cluster),
            Err(NoMemory) => Err(Stop::NoMemory),
        },
        Err(fault) => match fault.kind {
            ConfigFaultKind::NoMemory => Err(Stop::NoMemory),
            _ => Err(Stop::Settings),
        },
    }
}
