//! What was entered in the journal since a replica looked last (`News`), and a piece of it (`Piece`).
ghost use Rattle.std.specs.Prelude.{◌≡◌, ◌+◌, ◌≤◌, ◌↔◌, ◌++◌, ◌∷◌, [], length, take, drop, IsTrue, IfOk, OnOk};
ghost use Rattle.cap_shared.specs.Following.{deeds_of, piece_max};

use crate::deed::Deed;
use crate::entry::Entry;
use cap_model::NoMemory;
use http_server::Log;
use std::alloc::Global;
use std::marker::Model;

/// How many entries one piece of news has at most: while it is taken nobody else has the cluster.
pub const PIECE_MAX: usize = 256;

const _: () = prove!(PIECE_MAX == 256);

/// Entries of the journal, one after the other, as a replica makes them again. Contracts see the entries.
pub struct News {
    deeds: Vec<Deed>,
    // This exists for contracts alone.
    entries: Log<Entry, ()>,
}

impl Drop for News {
    fn drop(self) {
        let News {
            deeds: _,
            entries: _,
        } = self;
    }
}

impl Model for News {
    ghost use Rattle.std.specs.Prelude.{◌≡◌, List};
    ghost use Rattle.cap_shared.specs.declared.entry.Entry.{Entry};
    ghost use Rattle.cap_shared.specs.Following.{entries_in, deeds_of};

    ghost Value = { List Entry };

    ghost view = { λ n. entries_in n.entries.items };

    ghost invariant = { λ n. n.deeds.items ≡ deeds_of (entries_in n.entries.items) };
}

impl News {
    /// The entries of the journal from this position on, but so many at most, in memory of their own. If an allocation fails there are none.
    pub(crate) fn after(
        alloc: Global,
        journal: &Vec<Entry>,
        position: usize,
        most: usize,
    ) -> Result<News, NoMemory>
        ensures { IfOk result (λ news. news ≡ take most (drop position journal.now.items)) }
    {
        let count = journal.len().saturating_sub(position).min(most);
        let Ok(deeds) = Vec::with_capacity(alloc, count) else {
            return Err(NoMemory);
        };
        let mut news = News {
            deeds,
            entries: Log::new(),
        };
        for index in 0..count {
            let Ok(()) = news.add(&journal[position + index]) else {
                return Err(NoMemory);
            };
        }
        Ok(news)
    }

    /// Adds an entry. If an allocation fails nothing is added.
    fn add(&mut self, entry: &Entry) -> Result<(), NoMemory>
        ensures { OnOk result (self.new ≡ self.old ++ entry.now ∷ []) }
    {
        let Ok(made) = Deed::of(&entry.event) else {
            return Err(NoMemory);
        };
        let Ok(()) = self.deeds.push(made) else {
            return Err(NoMemory);
        };
        self.entries = self.entries.and(entry, &());
        Ok(())
    }

    /// How many entries they are.
    pub fn count(&self) -> usize
        ensures { result ≡ length self.now }
    {
        self.deeds.len()
    }

    /// What each of them made.
    pub(crate) fn deeds(&self) -> &[Deed]
        ensures { result.now ≡ deeds_of self.now }
    {
        self.deeds.as_slice()
    }
}

/// What a replica is given of the news under one hold, and whether they are all.
#[derive(Drop)]
pub struct Piece {
    pub news: News,
    pub are_all: bool,
}

impl Piece {
    /// The entries of the journal from this position on, `PIECE_MAX` at most. If an allocation fails there are none.
    pub(crate) fn after(
        alloc: Global,
        journal: &Vec<Entry>,
        position: usize,
    ) -> Result<Piece, NoMemory>
        ensures news { IfOk result
            (λ piece. piece.news ≡ take piece_max (drop position journal.now.items)) }
        ensures all { IfOk result
            (λ piece. IsTrue piece.are_all ↔ (length journal.now.items ≤ position + piece_max)) }
    {
        let are_all = journal.len().saturating_sub(position) <= PIECE_MAX;
        let Ok(news) = News::after(alloc, journal, position, PIECE_MAX) else {
            return Err(NoMemory);
        };
        Ok(Piece { news, are_all })
    }
}
