//! What a snapshot keeps of an application that waits (`SeenApp`), and the asks of all, one after the other (`seen_apps`).
ghost use Rattle.std.specs.Prelude.{◌≡◌, ◌≤◌, ◌++◌, [], IfOk, OnOk, length, map};
ghost use Rattle.std.specs.List.{All};
ghost use Rattle.cap_base.specs.Limits.{applications_max, resources_max};
ghost use Rattle.cap_asks.specs.Accounts.{AreKept};
ghost use Rattle.cap_copy.specs.Sizes.{SourceFitsInMemory};
ghost use Rattle.cap_copy.specs.Entries.{asks_of, asks_of_all};
ghost use Rattle.cap_copy.specs.SeenApp.{AreSeen, range_in, user_used};
ghost use Rattle.cap_tree.specs.Spot.{IsPosition};

use crate::ranges::AskRange;
use crate::seen::SeenAsk;
use cap_asks::{App, Position, Waiting};
use cap_model::NoMemory;
use cap_tree::QueueTree;
use cap_vector::Sum;
use http_server::Log;
use smallvec::SmallVec;
use std::alloc::{Allocator, Global};
use std::marker::Model;

/// An application that waits: its number, where its leaf is in the tree, what its user uses there, and where its asks lie among those of
/// all.
#[derive(Drop)]
pub(crate) struct SeenApp<const K: usize> {
    number: u64,
    position: Position,
    used: Sum<K>,
    start: usize,
    end: usize,
    // This is for contracts alone, and takes no room.
    source: Log<App<K>, u8>,
}

impl<const K: usize> Model for SeenApp<K> {
    ghost use Rattle.std.specs.Prelude.{◌≡◌};
    ghost use Rattle.cap_copy.specs.SeenApp.{SeenApp as Seen, held_in};

    ghost Value = { Seen };

    ghost view = { λ a. record {
      held = held_in a.source.items;
      used = a.used;
      start = a.start;
      end = a.end;
    } };

    ghost invariant = { λ a. ((held_in a.source.items).app.number ≡ a.number)
        × ((held_in a.source.items).account.position ≡ a.position.items) };
}

impl<const K: usize> SeenApp<K> {
    /// Its number.
    pub(crate) fn number(&self) -> u64
        ensures { result ≡ self.now.held.app.number }
    {
        self.number
    }

    /// Where its leaf is in the tree.
    pub(crate) fn position(&self) -> &Position
        ensures { result.now.items ≡ self.now.held.account.position }
    {
        &self.position
    }

    /// What its user uses in its leaf, in MiB, vcores and GPUs.
    pub(crate) fn used(&self) -> &Sum<K>
        ensures { result.now ≡ self.now.used }
    {
        &self.used
    }

    /// Where its asks lie among those of all.
    pub(crate) fn range(&self) -> AskRange
        ensures { result ≡ range_in self.now }
    {
        AskRange {
            app: self.number,
            start: self.start,
            end: self.end,
        }
    }
}

/// The applications that wait, in their order, in one piece of memory, and the asks of all in another: of one application after the other,
/// those of each in order of key. No reservation counts yet. An error means that an allocation failed.
#[inline(never)]
pub(crate) fn seen_apps<const K: usize, B: Allocator + Copy>(
    alloc: B,
    tree: &QueueTree<K, Global>,
    waiting: &[Waiting<'_, K>],
) -> Result<(Vec<SeenApp<K>, B>, Vec<SeenAsk<K>, B>), NoMemory>
    requires source { SourceFitsInMemory K.row }
    requires resources { K ≤ resources_max }
    requires few { length waiting.now ≤ applications_max }
    requires placed { All (λ r. IsPosition tree.now r.account.position) waiting.now }
    ensures seen { IfOk result (λ copied.
        AreSeen K tree.now waiting.now copied.1.items copied.0.items) }
    ensures asks { IfOk result (λ copied.
        copied.1.items ≡ asks_of_all [] (map (λ r. r.app) waiting.now)) }
    ensures kept { All (λ r. AreKept r.app.asks) waiting.now }
{
    let Ok(mut asks) = Vec::with_capacity(alloc, count_asks(waiting)) else {
        return Err(NoMemory);
    };
    let Ok(mut seen) = Vec::with_capacity(alloc, waiting.len()) else {
        return Err(NoMemory);
    };
    for index in 0..waiting.len() as u32 {
        match seen_app(tree, index, waiting[index as usize].app(), &mut asks) {
            Ok(app) => seen.push_reserved(app),
            Err(NoMemory) => return Err(NoMemory),
        }
    }
    Ok((seen, asks))
}

/// An application that waits, the one of an index, whose asks go to the end of those of the others. An error means that an allocation
/// failed.
fn seen_app<const K: usize, B: Allocator + Copy>(
    tree: &QueueTree<K, Global>,
    index: u32,
    app: &App<K>,
    asks: &mut Vec<SeenAsk<K>, B>,
) -> Result<SeenApp<K>, NoMemory>
    requires source { SourceFitsInMemory K.row }
    requires resources { K ≤ resources_max }
    requires position { IsPosition tree.now app.now.account.position }
    ensures held { IfOk result (λ seen. seen.held ≡ app.now) }
    ensures used { IfOk result (λ seen. seen.used ≡ user_used K tree.now app.now) }
    ensures start { IfOk result (λ seen. seen.start ≡ length asks.old.items) }
    ensures end { IfOk result (λ seen. seen.end ≡ length asks.new.items) }
    ensures asks { OnOk result
        (asks.new.items ≡ asks.old.items ++ asks_of [] index app.now.app) }
{
    let start = asks.len();
    match add_asks(asks, index, app) {
        Ok(()) => {}
        Err(NoMemory) => return Err(NoMemory),
    }
    let mut position = SmallVec::new(*app.position().allocator());
    match position.extend_from_slice(app.position().as_slice()) {
        Ok(()) => {}
        Err(_) => return Err(NoMemory),
    }
    Ok(SeenApp {
        number: app.number(),
        position,
        used: tree.user_use(app.position(), app.user()),
        start,
        end: asks.len(),
        source: Log::new().and(app, &0),
    })
}

/// Adds the asks of the application of an index, in order of key. An error means that an allocation failed, and comes only where there is
/// too little room for all.
fn add_asks<const K: usize, B: Allocator + Copy>(
    asks: &mut Vec<SeenAsk<K>, B>,
    index: u32,
    app: &App<K>,
) -> Result<(), NoMemory>
    ensures { OnOk result
        (asks.new.items ≡ asks.old.items ++ asks_of [] index app.now.app) }
{
    let number = app.number();
    for ask in app.asks() {
        let seen = SeenAsk {
            app: number,
            index,
            ask: *ask,
            wanted: ask.count(),
        };
        match asks.push(seen) {
            Ok(()) => {}
            Err(_) => return Err(NoMemory),
        }
    }
    Ok(())
}

/// How many asks the applications have together. The asks of each are in order of key.
fn count_asks<const K: usize>(waiting: &[Waiting<'_, K>]) -> usize
    requires { K ≤ resources_max }
    ensures { All (λ r. AreKept r.app.asks) waiting.now }
{
    let mut count = 0usize;
    for seen in waiting {
        count = count.saturating_add(seen.app().asks().len());
    }
    count
}
