//! A file of property lines and closed epochs, which grows by one epoch at a time (`AuditFile`).
ghost use Rattle.std.specs.Prelude.{◌≡◌, ◌+◌, IfOk};
ghost use Rattle.std.specs.Io.KnownBytes.{Appends};
ghost use Rattle.std.specs.Str.Lines.{lines};
ghost use Rattle.cap_archive.specs.Archive.{settings_lines};
ghost use Rattle.cap_journal.specs.Lines.{epoch_text};
ghost use Rattle.cap_shared.specs.Journal.{events_in};

use cap_archive::{ArchiveFault, write_epoch, write_settings};
use cap_session::Counted;
use cap_shared::Entry;
use std::alloc::Global;
use std::fs::OpenFile;
use std::io::{self, ErrorKind, Write};

/// A file with the property lines of settings and, after them, whole epochs.
#[derive(Drop)]
pub struct AuditFile<F> {
    file: F,
    /// How many epochs it has.
    epochs: u64,
    /// How many bytes it has.
    length: u64,
}

impl<F: Write + OpenFile + Drop> AuditFile<F> {
    /// Writes the property lines of settings to a file, which is empty. Where they can't be written it is cut back to that.
    pub fn begin(alloc: Global, file: F, settings: &[u8]) -> io::Result<AuditFile<F>>
        ensures bytes { IfOk result (λ begun. Appends (F.contents file)
            (F.contents begun.file) (settings_lines (lines settings.now))) }
        ensures epochs { IfOk result (λ begun. begun.epochs ≡ 0) }
    {
        let mut writer = Counted::new(file);
        match write_settings(alloc, settings, &mut writer) {
            Ok(()) => AuditFile::grown(writer.into_inner(), 0),
            Err(fault) => Err(cut_back(writer, 0, fault)),
        }
    }

    /// Writes one more epoch, which has this journal. Where it can't be written the file is cut back to those that it has, and closed.
    pub fn add(self, alloc: Global, journal: &[Entry]) -> io::Result<AuditFile<F>>
        ensures bytes { IfOk result (λ grown. Appends (F.contents self.file)
            (F.contents grown.file) (epoch_text grown.epochs (events_in journal.now))) }
        ensures epochs { IfOk result (λ grown. grown.epochs ≡ self.epochs + 1) }
    {
        let AuditFile {
            file,
            epochs,
            length,
        } = self;
        let Some(number) = epochs.checked_add(1) else {
            return Err(io::Error::from(ErrorKind::InvalidData));
        };
        let mut writer = Counted::new(file);
        match write_epoch(alloc, number, journal, &mut writer) {
            Ok(()) => AuditFile::grown(writer.into_inner(), number),
            Err(fault) => Err(cut_back(writer, length, fault)),
        }
    }

    /// A file that has so many epochs. An error means that the system doesn't say how long it is.
    fn grown(file: F, epochs: u64) -> io::Result<AuditFile<F>>
        ensures file { IfOk result (λ grown. grown.file ≡ file) }
        ensures epochs { IfOk result (λ grown. grown.epochs ≡ epochs) }
    {
        match file.metadata() {
            Ok(metadata) => Ok(AuditFile {
                file,
                epochs,
                length: metadata.len(),
            }),
            Err(error) => Err(error),
        }
    }
}

/// Cuts a file back to so many bytes, and closes it, since what was to follow them can't be written. What is said of that.
fn cut_back<F: Write + OpenFile + Drop>(
    writer: Counted<F>,
    length: u64,
    fault: ArchiveFault,
) -> io::Error {
    let error = match (fault, writer.error()) {
        (ArchiveFault::Output, Some(error)) => error,
        (ArchiveFault::Output, None) => io::Error::from(ErrorKind::WriteZero),
        (ArchiveFault::NoMemory, _) => io::Error::from(ErrorKind::OutOfMemory),
        (ArchiveFault::NoSpelling, _) => io::Error::from(ErrorKind::InvalidData),
    };
    let _cut = writer.into_inner().set_len(length);
    error
}
