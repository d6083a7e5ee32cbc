//! What a call changes of one application (`Change`).
ghost use Rattle.std.specs.Prelude.{◌≡◌};
ghost use Rattle.cap_asks.specs.Changes.{puts_impossible};

use cap_model::{Ask, End, Grant, Key};

/// What a call changes of one application, with no memory.
#[derive(Clone, Copy)]
pub(crate) enum Change<'a, const K: usize> {
    /// Its master has reported.
    Register,
    /// An ask is put in place of the one of its key, or in order of key; a count of 0 takes the key away. It is impossible or may be possible.
    PutAsk(&'a Ask<K>, bool),
    /// One container less is wanted for a key; an ask that comes to 0 is taken out.
    TakeOne(&'a Key),
    /// One more container is live, whose grant waits, last.
    AddGrant(&'a Grant<K>),
    /// One container less is live, whose end waits, last.
    AddEnd(&'a End),
}

impl<'a, const K: usize> Change<'a, K> {
    /// Whether it puts an ask that is impossible.
    pub(crate) fn is_impossible(&self) -> bool
        ensures { result ≡ puts_impossible self.now }
    {
        match self {
            Change::PutAsk(_, impossible) => *impossible,
            _ => false,
        }
    }
}
