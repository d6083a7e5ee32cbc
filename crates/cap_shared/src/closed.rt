//! What is left of an epoch: the cluster, the journal (`Closed`), and the receipts of each seat (`SeatReport`).
ghost use Rattle.std.specs.Prelude.{◌≡◌};

use crate::entry::{Entry, Receipt};
use cap_base::RESOURCES;
use cap_commit::Cluster;
use std::marker::Model;

/// A seat of a closed epoch: its number, and its receipts in order.
pub struct SeatReport {
    number: u32,
    receipts: Vec<Receipt>,
}

impl Drop for SeatReport {
    fn drop(self) {
        let SeatReport {
            number: _,
            receipts: _,
        } = self;
    }
}

impl Model for SeatReport {
    ghost use Rattle.cap_shared.specs.Parts.{Report};

    ghost Value = { Report };

    ghost view = { λ r. record { number = r.number; receipts = r.receipts.items } };
}

impl SeatReport {
    /// The report of a seat of this number and these receipts.
    pub(crate) fn new(number: u32, receipts: Vec<Receipt>) -> SeatReport
        ensures { result ≡ record { number = number; receipts = receipts.items } }
    {
        SeatReport { number, receipts }
    }

    /// The number of the seat.
    pub fn number(&self) -> u32
        ensures { result ≡ self.now.number }
    {
        self.number
    }

    /// The receipts of the seat, in order.
    pub fn receipts(&self) -> &[Receipt]
        ensures { result.now ≡ self.now.receipts }
    {
        self.receipts.as_slice()
    }
}

/// A closed epoch: the cluster as it was left, the journal, and the receipts of each seat.
#[derive(Drop)]
pub struct Closed {
    pub cluster: Cluster<RESOURCES>,
    pub journal: Vec<Entry>,
    pub seats: Vec<SeatReport>,
}
