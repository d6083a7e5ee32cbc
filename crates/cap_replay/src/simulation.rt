//! The world of a script, opened by its settings at the first step (`Simulation`).
ghost use Rattle.std.specs.Prelude.{◌≡◌, ℕ, None, Err, OnOk, IfOk, IfErr, is_some};
ghost use Rattle.cap_base.specs.declared.properties.fault.ConfigFault.{ConfigFault};
ghost use Rattle.cap_replay.specs.declared.stop.Stop.TheVariants.{BadLine, Config as bad_config};
ghost use Rattle.cap_replay.specs.Settings.{with_line};
ghost use Rattle.cap_replay.specs.Streams.{IsOfScript};
ghost use Rattle.cap_replay.specs.World.{Begins, FailsToBegin, Advances, Brings};

use crate::settings::Settings;
use crate::stop::Stop;
use cap_base::RESOURCES;
use cap_model::{Event, NoMemory, Proposal, Verdict};
use cap_world::{Did, Step, World};
use std::alloc::{AllocError, Global};

/// The settings of a script, and the world of its steps once they were read.
pub(crate) struct Simulation {
    settings: Settings,
    world: Option<World>,
    // The events of one step, printed by nobody.
    events: Vec<Event<RESOURCES>>,
}

impl Drop for Simulation {
    fn drop(self) {
        let Simulation {
            settings: _,
            world: _,
            events: _,
        } = self;
    }
}

impl Simulation {
    pub(crate) fn new(alloc: Global) -> Simulation
        ensures settings { result.settings ≡ None }
        ensures world { result.world ≡ None }
    {
        Simulation {
            settings: Settings::new(alloc),
            world: None,
            events: Vec::new(alloc),
        }
    }

    /// Whether the settings were read.
    pub(crate) fn has_begun(&self) -> bool
        ensures { result ≡ is_some self.now.world }
    {
        self.world.is_some()
    }

    /// One more property line. Where memory is refused a part of it may have been added.
    pub(crate) fn add(&mut self, property: &[u8]) -> Result<(), AllocError>
        ensures settings { OnOk result
            (self.new.settings ≡ with_line self.old.settings property.now) }
        ensures world { self.new.world ≡ self.old.world }
    {
        self.settings.add(property)
    }

    /// Makes a step; before the first one the settings are read.
    pub(crate) fn step(&mut self, step: Step) -> Result<Did, Stop>
        ensures advances { IfOk result (λ did. Advances step.entry did self.old self.new) }
        ensures fault { (fault : ConfigFault) → result ≡ Err (bad_config fault)
            → FailsToBegin self.old fault }
        ensures only { (n : ℕ) → result ≡ Err (BadLine n) → ⊥ }
        ensures script { IfErr result IsOfScript }
    {
        match self.begin() {
            Ok(()) => {}
            Err(stop) => return Err(stop),
        }
        let Some(world) = &mut self.world else {
            unreachable!()
        };
        let did = world.step(step, &mut self.events);
        self.events.clear();
        match did {
            Ok(did) => Ok(did),
            Err(NoMemory) => Err(Stop::NoMemory),
        }
    }

    /// Makes the step of a piece that the connection of this number brings.
    pub(crate) fn bring(&mut self, number: u32, piece: &[u8]) -> Result<Did, Stop>
        ensures brings { OnOk result (Brings number piece.now self.old self.new) }
        ensures fault { (fault : ConfigFault) → result ≡ Err (bad_config fault)
            → FailsToBegin self.old fault }
        ensures only { (n : ℕ) → result ≡ Err (BadLine n) → ⊥ }
        ensures script { IfErr result IsOfScript }
    {
        self.step(Step::Bytes(number, piece))
    }

    /// Reads the settings and opens the world by them, where that was not done before.
    pub(crate) fn begin(&mut self) -> Result<(), Stop>
        ensures begins { OnOk result (Begins self.old self.new) }
        ensures fault { (fault : ConfigFault) → result ≡ Err (bad_config fault)
            → FailsToBegin self.old fault }
        ensures only { (n : ℕ) → result ≡ Err (BadLine n) → ⊥ }
        ensures script { IfErr result IsOfScript }
    {
        if self.world.is_some() {
            return Ok(());
        }
        self.open()
    }

    /// Reads the settings and opens the world by them.
    #[inline(never)]
    fn open(&mut self) -> Result<(), Stop>
        requires { self.old.world ≡ None }
        ensures begins { OnOk result (Begins self.old self.new) }
        ensures fault { (fault : ConfigFault) → result ≡ Err (bad_config fault)
            → FailsToBegin self.old fault }
        ensures only { (n : ℕ) → result ≡ Err (BadLine n) → ⊥ }
        ensures script { IfErr result IsOfScript }
    {
        match self.settings.open() {
            Ok(world) => self.world = Some(world),
            Err(stop) => return Err(stop),
        }
        Ok(())
    }

    /// The property lines that the settings are read from.
    pub(crate) fn settings_text(&self) -> &[u8] {
        self.settings.text()
    }

    /// All bytes that a connection was answered, none before the first step.
    pub(crate) fn output(&self, number: u32) -> &[u8] {
        match &self.world {
            Some(world) => world.output(number),
            None => &[],
        }
    }

    /// All bytes that a connection was answered, and whether it is open, which none is before the first step.
    pub(crate) fn answers(&self, number: u32) -> (&[u8], bool) {
        match &self.world {
            Some(world) => world.answers(number),
            None => (&[], false),
        }
    }

    /// The proposal of a worker that is not committed yet, if any.
    pub(crate) fn choice(&self, worker: u32) -> Option<Proposal<RESOURCES>> {
        match &self.world {
            Some(world) => world.choice(worker),
            None => None,
        }
    }

    /// The verdict of a worker's last commit, if any.
    pub(crate) fn verdict(&self, worker: u32) -> Option<&Verdict<RESOURCES>> {
        match &self.world {
            Some(world) => world.verdict(worker),
            None => None,
        }
    }
}
