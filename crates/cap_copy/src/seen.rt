//! What a snapshot keeps of an ask (`SeenAsk`) and of a node (`SeenNode`).
ghost use Rattle.std.specs.Prelude.{◌≡◌};
ghost use Rattle.cap_copy.specs.Entries.{beside_one};

use cap_model::{Ask, Reservation, ShortText};
use cap_vector::Resource;
use std::marker::Model;

/// An ask of a registered application.
#[derive(Drop)]
pub struct SeenAsk<const K: usize> {
    pub(crate) app: u64,
    pub(crate) index: u32,
    pub(crate) ask: Ask<K>,
    pub(crate) wanted: u32,
}

impl<const K: usize> Model for SeenAsk<K> {
    ghost use Rattle.cap_copy.specs.AskEntry.{AskEntry};

    ghost Value = { AskEntry };

    ghost view = { λ a. record { app = a.app; index = a.index; ask = a.ask; wanted = a.wanted } };
}

impl<const K: usize> SeenAsk<K> {
    /// What is asked for.
    pub fn ask(&self) -> &Ask<K>
        ensures { result.now ≡ self.now.ask }
    {
        &self.ask
    }

    /// How many containers it wants beyond those that nodes keep room for.
    pub fn wanted(&self) -> u32
        ensures { result ≡ self.now.wanted }
    {
        self.wanted
    }

    /// It wants one container less where a reservation is for it.
    pub(crate) fn take_reserved(&mut self, reservation: &Reservation<K>)
        ensures { self.new ≡ beside_one reservation.now self.old }
    {
        if reservation.app() == self.app && reservation.key().is_same(&self.ask.key()) {
            self.wanted = self.wanted.saturating_sub(1);
        }
    }
}

/// A node that is present, what it has left, and the reservation that it holds.
#[derive(Drop)]
pub struct SeenNode<const K: usize> {
    pub(crate) number: u64,
    pub(crate) host: ShortText,
    pub(crate) rack: ShortText,
    pub(crate) total: Resource<K>,
    pub(crate) free: Resource<K>,
    pub(crate) reservation: Option<Reservation<K>>,
}

impl<const K: usize> Model for SeenNode<K> {
    ghost use Rattle.cap_model.specs.Sight.{NodeSight};

    ghost Value = { NodeSight };

    ghost view = { λ n. record {
      number = n.number;
      host = n.host;
      rack = n.rack;
      total = n.total;
      free = n.free;
      reservation = n.reservation;
    } };
}

impl<const K: usize> SeenNode<K> {
    /// Its number.
    pub fn number(&self) -> u64
        ensures { result ≡ self.now.number }
    {
        self.number
    }

    /// Its host.
    pub fn host(&self) -> &ShortText
        ensures { result.now ≡ self.now.host }
    {
        &self.host
    }

    /// Its rack.
    pub fn rack(&self) -> &ShortText
        ensures { result.now ≡ self.now.rack }
    {
        &self.rack
    }

    /// What it has in all, in MiB, vcores and GPUs.
    pub fn total(&self) -> &Resource<K>
        ensures { result.now ≡ self.now.total }
    {
        &self.total
    }

    /// What it has left, in MiB, vcores and GPUs.
    pub fn free(&self) -> &Resource<K>
        ensures { result.now ≡ self.now.free }
    {
        &self.free
    }

    /// The reservation that it holds, if any.
    pub fn reservation(&self) -> Option<Reservation<K>>
        ensures { result ≡ self.now.reservation }
    {
        self.reservation
    }
}
