//! How reservations of an application, for an ask or on a node are dropped, and given back at each level of a queue.
ghost use Rattle.std.specs.Prelude.{◌≡◌, Some, find, filter, not, ◌==◌};
ghost use Rattle.cap_model.specs.Asking.{keep_first};
ghost use Rattle.cap_model.specs.Flat.{is_for, with_reserved};
ghost use Rattle.cap_laws.specs.Reservations.{without_reserved};

use crate::cluster::Cluster;
use cap_model::{Key, Reservation};

impl<const K: usize> Cluster<K> {
    /// Drops a reservation.
    fn unreserve(&mut self, reservation: &Reservation<K>)
        requires { find (λ r. r.node == reservation.now.node) self.old.flat.nodes.reserved
            ≡ Some reservation.now }
        ensures flat { self.new.flat ≡ without_reserved
            (λ r. r.node == reservation.now.node) self.old.flat }
        ensures accounts { self.new.accounts ≡ self.old.accounts }
    {
        let Some(app) = self.apps.app(reservation.app()) else {
            unreachable!()
        };
        let tree = &mut *self.tree;
        tree.give_back(app.position(), app.user(), &reservation.resource());
        self.nodes.unreserve(reservation.node());
    }

    /// Drops all reservations of an application.
    pub(crate) fn unreserve_app(&mut self, number: u64)
        ensures flat { self.new.flat ≡ without_reserved (λ r. r.app == number) self.old.flat }
        ensures accounts { self.new.accounts ≡ self.old.accounts }
    {
        while let Some(reservation) = self.nodes().reservation_of_app(number) {
            self.unreserve(&reservation);
        }
    }

    /// Drops the reservations for the ask of a key of an application but for the first so many, in order of making.
    pub(crate) fn keep_first(&mut self, number: u64, key: &Key, most: u32)
        ensures flat { self.new.flat ≡ with_reserved
            (keep_first (is_for number key.now) most self.old.flat.nodes.reserved) self.old.flat }
        ensures accounts { self.new.accounts ≡ self.old.accounts }
    {
        let mut next = self.nodes().reservation_for(number, key, most);
        while let Some(reservation) = next {
            next = self
                .nodes()
                .reservation_after(number, key, reservation.node());
            self.unreserve(&reservation);
        }
    }

    /// Drops the reservation that a node holds. Where it holds none, nothing changes.
    pub(crate) fn unreserve_node(&mut self, number: u64)
        ensures flat { self.new.flat ≡ without_reserved (λ r. r.node == number) self.old.flat }
        ensures accounts { self.new.accounts ≡ self.old.accounts }
    {
        if let Some(reservation) = self.nodes.reservation_on(number) {
            self.unreserve(&reservation);
        }
    }
}
