//! A seat, with which one thread calls (`Seat`), and what names an epoch (`Naming`).
ghost use Rattle.std.specs.Prelude.{◌≡◌, ◌<◌};
ghost use Rattle.cap_base.specs.Limits.{resources};
ghost use Rattle.cap_shared.specs.Journal.{receipts_in, Rises, NotesHold};
ghost use Rattle.cap_shared.specs.Parts.{IsSeat};
ghost use Rattle.cap_shared.specs.WordRule.{sitting_of};

use crate::entry::Receipt;
use crate::passes::Pass;
use std::marker::{Brand, Model, PhantomData};

/// Names one epoch: the word beside its lock, its opening cluster, the limit of its journal, and how many seats it has. A seat fits
/// only the `Shared` of its own name.
pub trait Naming {
    ghost use Rattle.std.specs.Prelude.{ℕ};
    ghost use Rattle.atomic_table.specs.Seated.{TableId};
    ghost use Rattle.cap_model.specs.Flat.{Flat};

    ghost table: { TableId };

    ghost opening: { Flat resources };

    ghost limit: { ℕ };

    ghost seats: { ℕ };
}

impl Naming for Brand {
    ghost use Rattle.cap_shared.specs.WordRule.{no_cluster, no_table};

    ghost table = { no_table };

    ghost opening = { no_cluster };

    ghost limit = { 0 };

    ghost seats = { 0 };
}

/// What one thread calls with. Contracts see its number, and all that it was answered, in order.
pub struct Seat<J: Naming> {
    pub(crate) number: u32,
    pub(crate) receipts: Vec<Receipt>,
    pub(crate) pass: Pass,
    pub(crate) of: PhantomData<J>,
}

impl<J: Naming> Drop for Seat<J> {
    fn drop(self) {
        let Seat {
            number: _,
            receipts: _,
            pass: _,
            of: _,
        } = self;
    }
}

impl<J: Naming> Model for Seat<J> {
    ghost use Rattle.cap_shared.specs.declared.history.Sitting.{Sitting};
    ghost use Rattle.cap_shared.specs.WordRule.{sitting_of};
    ghost use Rattle.cap_shared.specs.Parts.{IsSeat};

    ghost Value = { Sitting };

    ghost view = { λ s. sitting_of s.pass.me.0 };

    ghost invariant = { λ s. IsSeat J.table J.opening J.limit J.seats s.number s.receipts.items
        s.pass.table_id s.pass.me };
}

impl<J: Naming> Seat<J> {
    /// Its number: seats are numbered from 0.
    pub fn number(&self) -> u32
        ensures number { result ≡ self.now.seat }
        ensures below { result < J.seats }
    {
        self.number
    }

    /// The receipts of its calls that were answered and of its proposals that were made, in order.
    pub fn receipts(&self) -> &[Receipt]
        ensures items { result.now ≡ receipts_in self.now.past }
        ensures rises { Rises 0 self.now.past }
        ensures notes { NotesHold J.opening J.limit self.now.past }
    {
        self.receipts.as_slice()
    }

    /// Its number, its receipts and its pass.
    pub(crate) fn into_parts(self) -> (u32, Vec<Receipt>, Pass)
        ensures seat { IsSeat J.table J.opening J.limit J.seats result.0 result.1.items
            result.2.table_id result.2.me }
        ensures view { sitting_of result.2.me.0 ≡ self }
    {
        let Seat {
            number,
            receipts,
            pass,
            of: _,
        } = self;
        (number, receipts, pass)
    }
}
