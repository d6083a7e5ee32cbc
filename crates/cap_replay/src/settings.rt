//! The property lines of a script, joined, and the world that they open (`Settings`).
ghost use Rattle.std.specs.Prelude.{◌≡◌, ℕ, None, Some, Err, OnOk, IfOk, IfErr};
ghost use Rattle.cap_base.specs.declared.properties.fault.ConfigFault.{ConfigFault};
ghost use Rattle.cap_base.specs.properties.First.{first_fault};
ghost use Rattle.cap_replay.specs.declared.stop.Stop.TheVariants.{BadLine, Config as bad_config};
ghost use Rattle.cap_replay.specs.Progress.{IsStopOf};
ghost use Rattle.cap_replay.specs.Settings.{with_line, settings_text};
ghost use Rattle.cap_replay.specs.Streams.{IsOfScript};
ghost use Rattle.cap_replay.specs.World.{IsNewWorld};

use crate::stop::Stop;
use cap_config::{ConfigFault, ConfigFaultKind, read_config};
use cap_model::NoMemory;
use cap_world::World;
use std::alloc::{AllocError, Global};
use std::marker::Model;

/// The settings of a script without property lines.
const DEFAULT: &[u8] = b"yarn.scheduler.capacity.root.queues=default";

/// The property lines of a script so far, joined by line feeds. Contracts see their text, and none where there is no such line.
pub(crate) struct Settings {
    alloc: Global,
    text: Option<Vec<u8>>,
}

impl Drop for Settings {
    fn drop(self) {
        let Settings { alloc: _, text: _ } = self;
    }
}

impl Model for Settings {
    ghost use Rattle.std.specs.Prelude.{ℕ, List, Option};
    ghost use Rattle.std.specs.Option.{option_map};

    ghost Value = { Option (List ℕ) };

    ghost view = { λ s. option_map (λ text. text.items) s.text };
}

impl Settings {
    /// No property line yet.
    pub(crate) fn new(alloc: Global) -> Settings
        ensures { result ≡ None }
    {
        Settings { alloc, text: None }
    }

    /// One more property line. Where memory is refused a part of it may have been added.
    pub(crate) fn add(&mut self, property: &[u8]) -> Result<(), AllocError>
        ensures { OnOk result (self.new ≡ with_line self.old property.now) }
    {
        match &mut self.text {
            Some(text) => {
                text.extend_from_slice(b"\n")?;
                text.extend_from_slice(property)?;
            }
            None => self.text = Some(Vec::from_slice(self.alloc, property)?),
        }
        Ok(())
    }

    /// The text that is read.
    pub(crate) fn text(&self) -> &[u8]
        ensures { result.now ≡ settings_text self.now }
    {
        match &self.text {
            Some(text) => text,
            None => DEFAULT,
        }
    }

    /// Opens a world by the settings, or finds their first fault.
    pub(crate) fn open(&self) -> Result<World, Stop>
        ensures good { IfOk result (λ world. IsNewWorld (settings_text self.now) world) }
        ensures fault { (fault : ConfigFault) → result ≡ Err (bad_config fault)
            → first_fault (settings_text self.now) ≡ Some fault }
        ensures only { (n : ℕ) → result ≡ Err (BadLine n) → ⊥ }
        ensures script { IfErr result IsOfScript }
    {
        match read_config(self.alloc, self.text()) {
            Ok(config) => match World::from_config(self.alloc, &config) {
                Ok(world) => Ok(world),
                Err(NoMemory) => Err(Stop::NoMemory),
            },
            Err(fault) => Err(stop_of(fault)),
        }
    }
}

/// What a fault stops a script with.
fn stop_of(fault: ConfigFault) -> Stop
    ensures { IsStopOf fault result }
{
    match fault.kind {
        ConfigFaultKind::NoMemory => Stop::NoMemory,
        _ => Stop::Config(fault),
    }
}
