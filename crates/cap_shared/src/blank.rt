//! The word beside the lock of an epoch that is not opened yet (`Blank`).
ghost use Rattle.std.specs.Prelude.{◌≡◌, IfOk};

use crate::history::{Mark, View};
use crate::passes::Pass;
use crate::word_rule::JournalRule;
use atomic_table::Table;
use cap_model::NoMemory;
use std::alloc::Global;
use std::marker::Model;

/// The word beside the lock of one epoch of so many seats, before it is opened. Contracts see which word it is, and how many seats.
#[derive(Drop)]
pub struct Blank {
    pub(crate) table: Table<Mark, View, u64, JournalRule, Global>,
    pub(crate) pass: Pass,
    pub(crate) seats: u32,
}

impl Model for Blank {
    ghost use Rattle.std.specs.Prelude.{◌≡◌, ◌<◌, ℕ, []};
    ghost use Rattle.atomic_table.specs.Seated.{TableId, table_id_coded};
    ghost use Rattle.std.specs.Coded.{coded×, coded_ℕ};
    ghost use Rattle.cap_shared.specs.WordRule.{first_view};

    ghost Value = { TableId × ℕ };

    ghost coded = { coded× table_id_coded coded_ℕ };

    ghost view = { λ b. (b.table.shared.table_id, b.seats) };

    ghost invariant = { λ b. (b.pass.table_id ≡ b.table.shared.table_id)
        × (0 < b.table.shared.table_id.words)
        × (b.pass.me ≡ (first_view b.seats, [])) };
}

impl Blank {
    /// The word of an epoch of so many seats. An error means that an allocation failed.
    pub fn new(alloc: Global, seats: u32) -> Result<Blank, NoMemory>
        ensures { IfOk result (λ blank. blank.1 ≡ seats) }
    {
        let count = seats as u64;
        let Ok((table, pass)) = Table::of_words(alloc, &[0], &count) else {
            return Err(NoMemory);
        };
        Ok(Blank { table, pass, seats })
    }
}
