//! What was handed over for a client (`Backlog`): what its stream has taken, and what is kept for it.
ghost use Rattle.std.specs.Prelude.{◌≡◌, ◌≤◌, ◌↔◌, ◌++◌, [], Some, length, IfOk, IfSome, IsTrue, is_ok, if◌then◌else◌};

use crate::sender::{Sender, SentBytes};
use std::alloc::Global;
use std::io::{self, ErrorKind, Write};
use std::time::Clock;

/// The bytes that were handed over for a client: those that its stream has taken, and after them those that are kept because the client has not
/// taken them yet, from one epoch to the next.
#[derive(Drop)]
pub struct Backlog {
    sent: SentBytes,
    bytes: Vec<u8>,
    /// How many of `bytes` were taken.
    taken: usize,
    ghost within: { taken ≤ length bytes.items },
}

impl Backlog {
    ghost use Rattle.cap_streams.specs.Sends.{Sends, IsLogged};
    ghost use Rattle.cap_streams.specs.Backlogs.{kept_bytes, sent_bytes, handed_bytes};

    /// Nothing was handed over.
    pub fn new(alloc: Global) -> Backlog
        ensures { handed_bytes result ≡ [] }
    {
        Backlog {
            sent: SentBytes::new(),
            bytes: Vec::new(alloc),
            taken: 0,
        }
    }

    /// Whether nothing is kept.
    pub fn is_empty(&self) -> bool
        ensures { IsTrue result ↔ (kept_bytes self.now ≡ []) }
    {
        self.taken >= self.bytes.len()
    }

    /// Keeps all of these bytes after those that are kept, and says how many they are. An error means that an allocation failed: none is kept then.
    pub fn keep(&mut self, bytes: &[u8]) -> io::Result<usize>
        ensures count { IfOk result (λ count. count ≡ length bytes.now) }
        ensures kept { kept_bytes self.new
            ≡ (if is_ok result then kept_bytes self.old ++ bytes.now else kept_bytes self.old) }
        ensures sent { sent_bytes self.new ≡ sent_bytes self.old }
    {
        match self.bytes.extend_from_slice(bytes) {
            Ok(()) => Ok(bytes.len()),
            Err(_) => Err(io::Error::from(ErrorKind::OutOfMemory)),
        }
    }

    /// Writes once, where nothing is kept, as `Sender::send` does.
    pub fn send<S: Write, H: Clock>(
        &mut self,
        sender: &mut Sender<'_, S, H>,
        bytes: &[u8],
    ) -> io::Result<Option<usize>>
        ensures count { IfOk result (λ sent. IfSome sent (λ count. count ≤ length bytes.now)) }
        ensures stream { Sends (S.contents sender.old.stream) (S.contents sender.new.stream)
            result bytes.now }
        ensures sent { Sends (Some (sent_bytes self.old)) (Some (sent_bytes self.new))
            result bytes.now }
        ensures kept { kept_bytes self.new ≡ kept_bytes self.old }
    {
        self.sent.send(sender, bytes)
    }

    /// Writes what is kept, until the client has taken all of it, or the epoch is ending. What was handed over stays the same: what the stream took is
    /// a beginning of what was kept, and the rest of it is kept still, also after an error.
    pub fn write_out<S: Write, H: Clock>(&mut self, sender: &mut Sender<'_, S, H>) -> io::Result<()>
        ensures handed { handed_bytes self.new ≡ handed_bytes self.old }
        ensures stream { IsLogged (S.contents sender.old.stream) (S.contents sender.new.stream)
            (sent_bytes self.old) (sent_bytes self.new) }
    {
        for _ in 0..u64::MAX {
            if self.is_empty() {
                self.forget_taken();
                return Ok(());
            }
            match self.send_kept(sender)? {
                Some(0) => return Err(io::Error::from(ErrorKind::WriteZero)),
                Some(_) => {}
                None => return Ok(()),
            }
        }
        Ok(())
    }

    /// Forgets the bytes that were taken, where none is kept. Their room stays.
    fn forget_taken(&mut self)
        requires { kept_bytes self.old ≡ [] }
        ensures handed { handed_bytes self.new ≡ handed_bytes self.old }
        ensures sent { sent_bytes self.new ≡ sent_bytes self.old }
    {
        self.taken = 0;
        self.bytes.clear();
    }

    /// Writes once of what is kept, as `Sender::send` does.
    fn send_kept<S: Write, H: Clock>(
        &mut self,
        sender: &mut Sender<'_, S, H>,
    ) -> io::Result<Option<usize>>
        ensures handed { handed_bytes self.new ≡ handed_bytes self.old }
        ensures stream { IsLogged (S.contents sender.old.stream) (S.contents sender.new.stream)
            (sent_bytes self.old) (sent_bytes self.new) }
    {
        let sent = self.sent.send(sender, &self.bytes[self.taken..]);
        if let Ok(Some(count)) = &sent {
            self.taken += *count;
        }
        sent
    }
}
