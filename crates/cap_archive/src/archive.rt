//! Property lines and closed epochs, written out to a file that `capsched audit` reads (`write_settings`, `write_epoch`).
ghost use Rattle.std.specs.Prelude.{◌≡◌, ◌++◌, IfOk, OnOk};
ghost use Rattle.std.specs.Io.KnownBytes.{Appends};
ghost use Rattle.std.specs.Str.Lines.{lines};
ghost use Rattle.cap_journal.specs.Lines.{closed_words, ended, epoch_text, epoch_words, event_words};
ghost use Rattle.cap_session.specs.Counted.{state_of, inner_of, CanCount};
ghost use Rattle.cap_shared.specs.Journal.{events_in};
ghost use Rattle.cap_archive.specs.Archive.{Passes, settings_lines};
ghost use Rattle.cap_archive.specs.declared.archive.ArchiveFault.TheVariants.{NoMemory as out_of_memory};

use cap_journal::{LineFault, Out, put_closed, put_epoch, put_event, put_property};
use cap_session::{Counted, write_out};
use cap_shared::Entry;
use cap_text::split_line;
use std::alloc::{AllocError, AllocFailed, Global};
use std::io::Write;

/// Why an epoch was not written.
#[derive(Clone, Copy, Debug, PartialEq, Eq)]
pub enum ArchiveFault {
    /// An allocation failed.
    NoMemory,
    /// An entry has no spelling, as no journal of a daemon has one.
    NoSpelling,
    /// A write failed.
    Output,
}

impl From<AllocError> for ArchiveFault {
    ghost from_gives = { λ _ e. e ≡ out_of_memory };

    fn from(_e: AllocError) -> ArchiveFault {
        ArchiveFault::NoMemory
    }
}

/// From how many bytes on what was put is written out.
const CHUNK: usize = 65536;

/// Writes a line `conf` for each line of the settings. Where it fails a beginning of the lines may have been written.
pub fn write_settings<W: Write>(
    alloc: Global,
    text: &[u8],
    writer: &mut Counted<W>,
) -> Result<(), ArchiveFault>
    requires { CanCount (state_of writer.old) }
    ensures bytes { OnOk result (Appends (W.contents (inner_of writer.old))
        (W.contents (inner_of writer.new)) (settings_lines (lines text.now))) }
    ensures counts { OnOk result (CanCount (state_of writer.new)) }
{
    let mut lines = Vec::new(alloc);
    let mut rest = text;
    while !rest.is_empty() {
        let (line, after) = split_line(rest);
        put_property(&mut lines, line)?;
        lines.extend_from_slice(b"\n")?;
        rest = after;
    }
    write_lines(&lines, writer)
}

/// Writes a closed epoch: a line `epoch` with its number, which is 1 for the first and one more for each other, a line for each
/// entry of its journal, and a line `closed` with how many they are. Where it fails a beginning of the lines may have been written.
pub fn write_epoch<W: Write>(
    alloc: Global,
    number: u64,
    journal: &[Entry],
    writer: &mut Counted<W>,
) -> Result<(), ArchiveFault>
    requires { CanCount (state_of writer.old) }
    ensures bytes { OnOk result (Appends (W.contents (inner_of writer.old))
        (W.contents (inner_of writer.new)) (epoch_text number (events_in journal.now))) }
    ensures counts { OnOk result (CanCount (state_of writer.new)) }
{
    let mut message = Out::new(alloc);
    let mut lines = first_line(alloc, number)?;
    for entry in journal {
        put_entry(alloc, &mut message, &mut lines, entry)?;
        pass_on(&mut lines, writer)?;
    }
    put_last(&mut lines, journal.len() as u64)?;
    write_lines(&lines, writer)
}

/// The line with which an epoch begins, with its end.
fn first_line(alloc: Global, number: u64) -> Result<Vec<u8>, ArchiveFault>
    ensures { IfOk result (λ lines. lines.items ≡ ended (epoch_words number)) }
{
    let mut lines = Vec::new(alloc);
    put_epoch(&mut lines, number)?;
    lines.extend_from_slice(b"\n")?;
    Ok(lines)
}

/// Puts the line with which an epoch ends, with its end.
fn put_last(lines: &mut Vec<u8>, entries: u64) -> Result<(), ArchiveFault>
    ensures { OnOk result (lines.new.items ≡ lines.old.items ++ ended (closed_words entries)) }
{
    put_closed(lines, entries)?;
    lines.extend_from_slice(b"\n")?;
    Ok(())
}

/// Puts the line of an entry, with its end.
fn put_entry(
    alloc: Global,
    message: &mut Out,
    lines: &mut Vec<u8>,
    entry: &Entry,
) -> Result<(), ArchiveFault>
    ensures { OnOk result (lines.new.items
        ≡ lines.old.items ++ ended (event_words entry.now.event)) }
{
    match put_event(alloc, message, lines, &entry.event) {
        Ok(()) => {}
        Err(LineFault::NoMemory) => return Err(ArchiveFault::NoMemory),
        Err(LineFault::NoSpelling) => return Err(ArchiveFault::NoSpelling),
    }
    lines.extend_from_slice(b"\n")?;
    Ok(())
}

/// Writes lines out where they are many.
fn pass_on<W: Write>(lines: &mut Vec<u8>, writer: &mut Counted<W>) -> Result<(), ArchiveFault>
    requires { CanCount (state_of writer.old) }
    ensures bytes { OnOk result (Passes (W.contents (inner_of writer.old))
        (W.contents (inner_of writer.new)) lines.old.items lines.new.items) }
    ensures counts { OnOk result (CanCount (state_of writer.new)) }
{
    if lines.len() < CHUNK {
        return Ok(());
    }
    match write_lines(lines, writer) {
        Ok(()) => {
            lines.clear();
            Ok(())
        }
        Err(fault) => Err(fault),
    }
}

/// Writes lines out.
fn write_lines<W: Write>(lines: &[u8], writer: &mut Counted<W>) -> Result<(), ArchiveFault>
    requires { CanCount (state_of writer.old) }
    ensures bytes { OnOk result (Appends (W.contents (inner_of writer.old))
        (W.contents (inner_of writer.new)) lines.now) }
    ensures counts { OnOk result (CanCount (state_of writer.new)) }
{
    match write_out(writer, lines) {
        Ok(()) => Ok(()),
        Err(_) => Err(ArchiveFault::Output),
    }
}
