//! Where a connection and its seat wait for their thread (`Place`), one for each seat of an epoch.
use crate::connection::ClientConnection;
use cap_model::NoMemory;
use cap_shared::{Naming, Seat};
use std::alloc::Global;
use std::sync::atomic::{AtomicU64, Ordering};
use std::sync::{Mutex, Wait};

/// A connection, and the seat that it is served with.
#[derive(Drop)]
pub struct Given<J: Naming> {
    pub connection: ClientConnection,
    pub seat: Seat<J>,
}

/// What is given to a connection's thread. Where no thread can be made it is taken back.
#[derive(Drop)]
pub struct Place<J: Naming> {
    given: Mutex<Option<Given<J>>>,
    /// Whether the connection has ended, and its thread is to be waited for.
    has_ended: AtomicU64,
}

impl<J: Naming> Place<J> {
    /// With nothing given.
    fn new() -> Place<J> {
        Place {
            given: Mutex::new(None),
            has_ended: AtomicU64::new(0),
        }
    }

    /// Gives a connection and its seat.
    pub fn give<H: Wait>(&self, rt: &H, connection: ClientConnection, seat: Seat<J>) {
        let mut given = self.given.lock(rt);
        *given = Some(Given { connection, seat });
    }

    /// Takes what was given.
    pub fn take<H: Wait>(&self, rt: &H) -> Option<Given<J>> {
        self.given.lock(rt).take()
    }

    /// Notes that the connection has ended.
    pub fn note_end(&self) {
        self.has_ended.store(1, Ordering::SeqCst);
    }

    /// Whether the connection has ended since this was last asked.
    fn has_ended(&self) -> bool {
        self.has_ended.swap(0, Ordering::SeqCst) == 1
    }
}

/// The places of an epoch, each for the seat of its number.
#[derive(Drop)]
pub struct Places<J: Naming> {
    places: Vec<Place<J>>,
}

impl<J: Naming> Places<J> {
    /// So many places. An error means that an allocation failed.
    pub fn new(alloc: Global, count: usize) -> Result<Places<J>, NoMemory> {
        let Ok(mut places) = Vec::with_capacity(alloc, count) else {
            return Err(NoMemory);
        };
        for _ in 0..count {
            if places.push(Place::new()).is_err() {
                return Err(NoMemory);
            }
        }
        Ok(Places { places })
    }

    /// The place for the seat of this number.
    pub fn of(&self, seat: u32) -> Option<&Place<J>> {
        self.places.get(seat as usize)
    }

    /// Whether the connection that was served with the seat of this number has ended since this was last asked.
    pub fn has_ended(&self, seat: u32) -> bool {
        self.of(seat).is_some_and(|place| place.has_ended())
    }
}
