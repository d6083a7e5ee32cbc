//! A script that is being played: a step a line, and what is printed of it (`Script`).
ghost use Rattle.std.specs.Prelude.{◌≡◌, ◌≢◌, ◌+◌, ◌<◌, ℕ, None, Some, Err, Ok, OnOk, IfOk, IfErr, true, false, is_some, is_err, if◌then◌else◌, vec_len, take, length, ◌≤◌, ◌/◌, IsOk};
ghost use Rattle.hex.specs.Hex.{decode_of};
ghost use Rattle.cap_base.specs.declared.properties.fault.ConfigFault.{ConfigFault};
ghost use Rattle.cap_replay.specs.declared.command.Command.{Command};
ghost use Rattle.cap_replay.specs.declared.stop.Stop.TheVariants.{BadLine, Config as bad_config, Output as write_failed};
ghost use Rattle.cap_replay.specs.Script.{IsPiece};
ghost use Rattle.cap_replay.specs.Settings.{with_line};
ghost use Rattle.cap_replay.specs.World.{Performs, Begins, FailsToBegin, MakesStep};
ghost use Rattle.cap_replay.specs.Progress.{PlaysLine, MayNotFollow, FailsAtStep};
ghost use Rattle.cap_session.specs.Counted.{state_of, CanCount, CountsWrite};
ghost use Rattle.cap_replay.specs.Streams.{IsOfScript};

use crate::command::{Command, command_of};
use crate::expected::Expected;
use crate::print::{print_choice, print_fault, print_frames, print_number, print_verdict};
use crate::simulation::Simulation;
use crate::stop::Stop;
use cap_config::ConfigFault;
use cap_session::{Counted, write_out};
use cap_world::{Did, Step};
use std::alloc::{AllocError, Global};
use std::io::Write;

/// A script that is being played: its settings and its world, and what was printed and is not written out yet.
pub(crate) struct Script {
    simulation: Simulation,
    lines: u64,
    // What is expected at the last line, if it is bad: words alone depend on it.
    expected: Expected,
    // Room for the bytes of a piece, kept from line to line.
    room: Vec<u8>,
    printed: Vec<u8>,
}

impl Drop for Script {
    fn drop(self) {
        let Script {
            simulation: _,
            lines: _,
            expected: _,
            room: _,
            printed: _,
        } = self;
    }
}

impl Script {
    pub(crate) fn new(alloc: Global) -> Script
        ensures settings { result.simulation.settings ≡ None }
        ensures world { result.simulation.world ≡ None }
    {
        Script {
            simulation: Simulation::new(alloc),
            lines: 0,
            expected: Expected::Command,
            room: Vec::new(alloc),
            printed: Vec::new(alloc),
        }
    }

    /// Plays one line.
    pub(crate) fn play(&mut self, line: &[u8]) -> Result<(), Stop>
        ensures good { OnOk result (PlaysLine line.now self.old.simulation self.new.simulation) }
        ensures bad { (n : ℕ) → result ≡ Err (BadLine n)
            → MayNotFollow line.now self.old.simulation }
        ensures fault { (fault : ConfigFault) → result ≡ Err (bad_config fault)
            → FailsAtStep line.now self.old.simulation fault }
        ensures script { IfErr result IsOfScript }
    {
        self.lines = self.lines.saturating_add(1);
        match command_of(line) {
            None => Err(self.bad_line(Expected::after(line))),
            Some(Command::Nothing) => Ok(()),
            Some(Command::Conf(property)) => self.add(property),
            Some(Command::Open(number)) => self.make(Step::Open(number)),
            Some(Command::Bytes(number, digits)) => self.bytes(number, digits),
            Some(Command::End(number)) => self.make(Step::End(number)),
            Some(Command::Copy(worker)) => self.make(Step::Copy(worker)),
            Some(Command::Propose(worker, start)) => self.make(Step::Propose(worker, start)),
            Some(Command::Commit(worker)) => self.make(Step::Commit(worker)),
        }
    }

    /// That the line which is played is bad, and what is expected there.
    fn bad_line(&mut self, expected: Expected) -> Stop
        ensures line { result ≡ BadLine self.old.lines }
        ensures same { self.new ≡ record self.old { expected = expected } }
    {
        self.expected = expected;
        Stop::BadLine(self.lines)
    }

    /// What is expected at the bad line that ended the script.
    pub(crate) fn expected(&self) -> Expected {
        self.expected
    }

    /// The property lines that the settings are read from.
    pub(crate) fn settings_text(&self) -> &[u8] {
        self.simulation.settings_text()
    }

    /// One more property line, which is allowed before the first step alone.
    fn add(&mut self, property: &[u8]) -> Result<(), Stop>
        ensures good { OnOk result (self.old.simulation.world ≡ None) }
        ensures world { self.new.simulation.world ≡ self.old.simulation.world }
        ensures added { OnOk result (self.new.simulation.settings
            ≡ with_line self.old.simulation.settings property.now) }
        ensures bad { (n : ℕ) → result ≡ Err (BadLine n) → self.old.simulation.world ≢ None }
        ensures only { (fault : ConfigFault) → result ≡ Err (bad_config fault) → ⊥ }
        ensures script { IfErr result IsOfScript }
    {
        let stepped = self.simulation.has_begun();
        if stepped {
            return Err(self.bad_line(Expected::Earlier));
        }
        self.simulation.add(property)?;
        Ok(())
    }

    /// Makes a step that brings no piece, and prints what became of it.
    fn make(&mut self, step: Step) -> Result<(), Stop>
        ensures makes { OnOk result
            (MakesStep step.entry self.old.simulation self.new.simulation) }
        ensures fault { (fault : ConfigFault) → result ≡ Err (bad_config fault)
            → FailsToBegin self.old.simulation fault }
        ensures only { (n : ℕ) → result ≡ Err (BadLine n) → ⊥ }
        ensures script { IfErr result IsOfScript }
    {
        match self.simulation.step(step) {
            Ok(Did::Done) => print_done(&mut self.printed, &self.simulation, step)?,
            Ok(Did::Idle) => self.printed.extend_from_slice(b"idle\n")?,
            Err(stop) => return Err(stop),
        }
        Ok(())
    }

    /// Brings the piece that the hexadecimal digits write on the connection of this number.
    fn bytes(&mut self, number: u32, digits: &[u8]) -> Result<(), Stop>
        ensures performs { OnOk result
            (Performs (Command.Bytes number digits.entry) self.old.simulation self.new.simulation) }
        ensures fault { (fault : ConfigFault) → result ≡ Err (bad_config fault)
            → IsPiece digits.now × FailsToBegin self.old.simulation fault }
        ensures bad { (n : ℕ) → result ≡ Err (BadLine n) → IsPiece digits.now → ⊥ }
        ensures script { IfErr result IsOfScript }
    {
        let count = match self.decode(digits) {
            Ok(count) => count,
            Err(stop) => return Err(stop),
        };
        let before = self.simulation.output(number).len();
        let brought = self.simulation.bring(number, &self.room[..count]);
        let (output, is_open) = self.simulation.answers(number);
        let more = output.get(before..).unwrap_or(&[]);
        print_frames(&mut self.printed, number, more)?;
        match brought {
            Ok(did) => print_brought(&mut self.printed, number, did, is_open)?,
            Err(stop) => return Err(stop),
        }
        Ok(())
    }

    /// Puts the bytes that an even number of hexadecimal digits write, at least two, first into the room, and gives their number.
    fn decode(&mut self, digits: &[u8]) -> Result<usize, Stop>
        ensures fits { IfOk result (λ n. n ≤ vec_len self.new.room) }
        ensures some { OnOk result (0 < length digits.now) }
        ensures bytes { IfOk result (λ n. decode_of digits.now ≡ Ok (take n self.new.room.items)) }
        ensures bad { (n : ℕ) → result ≡ Err (BadLine n) → IsPiece digits.now → ⊥ }
        ensures only { (fault : ConfigFault) → result ≡ Err (bad_config fault) → ⊥ }
        ensures script { IfErr result IsOfScript }
        ensures same { self.new.simulation ≡ self.old.simulation }
    {
        let count = digits.len() / 2;
        if count == 0 {
            return Err(self.bad_line(Expected::Piece));
        }
        make_room(&mut self.room, count)?;
        let decoded = decode_front(digits, self.room.as_mut_slice());
        if !decoded {
            return Err(self.bad_line(Expected::Piece));
        }
        Ok(count)
    }

    /// Reads the settings and opens the world by them, where that was not done before.
    pub(crate) fn begin(&mut self) -> Result<(), Stop>
        ensures begins { OnOk result (Begins self.old.simulation self.new.simulation) }
        ensures fault { (fault : ConfigFault) → result ≡ Err (bad_config fault)
            → FailsToBegin self.old.simulation fault }
        ensures only { (n : ℕ) → result ≡ Err (BadLine n) → ⊥ }
        ensures script { IfErr result IsOfScript }
    {
        self.simulation.begin()
    }

    /// Prints that a line is bad.
    pub(crate) fn print_bad_line(&mut self, line: u64) -> Result<(), Stop> {
        print_number(&mut self.printed, b"bad line ", line)?;
        Ok(())
    }

    /// Prints the fault of the settings.
    pub(crate) fn print_fault(&mut self, fault: ConfigFault) -> Result<(), Stop> {
        print_fault(&mut self.printed, fault.line, fault.kind.number())?;
        Ok(())
    }

    /// Writes out what was printed.
    pub(crate) fn write_out<W: Write>(&mut self, writer: &mut Counted<W>) -> Result<(), Stop>
        requires { CanCount (state_of writer.old) }
        ensures stop { IfErr result (λ stop. stop ≡ write_failed) }
        ensures counts { CountsWrite result (state_of writer.old) (state_of writer.new) }
        ensures same { self.new.simulation ≡ self.old.simulation }
    {
        if self.printed.is_empty() {
            return Ok(());
        }
        let written = write_out(writer, &self.printed);
        self.printed.clear();
        match written {
            Ok(()) => Ok(()),
            Err(_) => Err(Stop::Output),
        }
    }
}

/// Prints what a piece did, beside what was answered to it.
fn print_brought(
    printed: &mut Vec<u8>,
    number: u32,
    did: Did,
    is_open: bool,
) -> Result<(), AllocError> {
    match did {
        Did::Done if is_open => Ok(()),
        Did::Done => print_number(printed, b"ended ", number),
        Did::Idle => printed.extend_from_slice(b"idle\n"),
    }
}

/// Prints what a step did, other than a piece.
fn print_done(
    printed: &mut Vec<u8>,
    simulation: &Simulation,
    step: Step,
) -> Result<(), AllocError> {
    match step {
        Step::Open(number) => print_number(printed, b"opened ", number),
        Step::Bytes(_, _) => Ok(()),
        Step::End(number) => print_number(printed, b"closed ", number),
        Step::Copy(worker) => print_number(printed, b"copied ", worker),
        Step::Propose(worker, _) => print_choice(printed, worker, simulation.choice(worker)),
        Step::Commit(worker) => match simulation.verdict(worker) {
            Some(verdict) => print_verdict(printed, worker, verdict),
            None => Ok(()),
        },
    }
}

/// Makes room for so many bytes, where there is less.
fn make_room(room: &mut Vec<u8>, count: usize) -> Result<(), AllocError>
    ensures { OnOk result (count ≤ vec_len room.new) }
{
    if room.len() < count {
        room.resize(count, 0)?;
    }
    Ok(())
}

/// Puts the bytes that hexadecimal digits write first into the room; false where they write none.
fn decode_front(digits: &[u8], room: &mut [u8]) -> bool
    requires { length digits.now / 2 ≤ length room.old }
    ensures bytes { result ≡ true
        → decode_of digits.now ≡ Ok (take (length digits.now / 2) room.new) }
    ensures bad { result ≡ false → IsOk (decode_of digits.now) → ⊥ }
{
    let count = digits.len() / 2;
    match hex::decode_to_slice(digits, &mut room[..count]) {
        Ok(()) => true,
        Err(_) => false,
    }
}
