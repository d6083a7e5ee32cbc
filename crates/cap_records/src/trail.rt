//! Where the closed epochs of a daemon go, one after the other (`AuditTrail`).
use crate::audit_file::AuditFile;
use cap_shared::Entry;
use std::alloc::Global;
use std::fs::OpenFile;
use std::io::{self, Write};
use std::sync::{Mutex, Wait};

/// The audit file of a daemon, if it has one, or why it could not be written.
#[derive(Drop)]
pub struct AuditTrail<F> {
    file: Mutex<Option<io::Result<AuditFile<F>>>>,
}

impl<F: Write + OpenFile + Drop> AuditTrail<F> {
    /// With this file, if there is one.
    pub fn new(file: Option<AuditFile<F>>) -> AuditTrail<F> {
        AuditTrail {
            file: Mutex::new(match file {
                Some(file) => Some(Ok(file)),
                None => None,
            }),
        }
    }

    /// Writes an epoch that was closed with this journal, after all others. Whether all could be written; where one could not, none is any more.
    pub fn write<H: Wait>(&self, rt: &H, alloc: Global, journal: &[Entry]) -> bool {
        let mut file = self.file.lock(rt);
        let (next, is_written) = match file.take() {
            Some(Ok(open)) => {
                let grown = open.add(alloc, journal);
                let is_written = grown.is_ok();
                (Some(grown), is_written)
            }
            Some(Err(error)) => (Some(Err(error)), false),
            None => (None, true),
        };
        *file = next;
        is_written
    }

    /// Why an epoch could not be written. `None` if all could.
    pub fn failure<H: Wait>(&self, rt: &H) -> Option<io::Error> {
        match &*self.file.lock(rt) {
            Some(Err(error)) => Some(*error),
            _ => None,
        }
    }
}
