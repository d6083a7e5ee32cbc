//! What a proposal came to that was made: a grant or a reservation (`Made`).
ghost use Rattle.std.specs.Prelude.{◌≡◌};
ghost use Rattle.cap_commit.specs.Making.{event_of_made};

use cap_model::{Container, Event, Reservation};

/// What a proposal came to that was made.
#[derive(Clone, Copy, Drop)]
pub enum Made<const K: usize> {
    /// The container that was granted.
    Grant(Container<K>),
    /// The reservation that a node holds from now on.
    Reserve(Reservation<K>),
}

impl<const K: usize> Made<K> {
    /// Its event.
    pub fn event(&self) -> Event<K>
        ensures { result ≡ event_of_made self.now }
    {
        match self {
            Made::Grant(container) => Event::Grant {
                container: *container,
            },
            Made::Reserve(reservation) => Event::Reserve {
                reservation: *reservation,
            },
        }
    }
}
