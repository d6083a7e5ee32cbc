//! Where the asks of each application lie among all asks of a snapshot (`AskRange`, `range_of`).
ghost use Rattle.std.specs.Prelude.{map};
ghost use Rattle.cap_copy.specs.AskRanges.{AreApart, IsIndexOf, IsRangeOf};
ghost use Rattle.cap_copy.specs.SeenApp.{range_in};

use crate::seen_app::SeenApp;

/// Where the asks of an application lie: from an index on, up to another, in order of key. Where it has none, both are 0.
#[derive(Clone, Copy, Drop)]
pub struct AskRange {
    pub app: u64,
    pub start: usize,
    pub end: usize,
}

/// Where the asks of an application lie. None where it is none of these, which are in order of number.
pub(crate) fn range_of<const K: usize>(apps: &[SeenApp<K>], app: u64) -> Option<AskRange>
    requires { AreApart (map range_in apps.now) }
    ensures { IsRangeOf app (map range_in apps.now) result }
{
    let index = index_of(apps, app)?;
    Some(apps[index].range())
}

/// The index of an application, by one binary search in applications in order of number. None where it is none of them.
pub(crate) fn index_of<const K: usize>(apps: &[SeenApp<K>], app: u64) -> Option<usize>
    requires { AreApart (map range_in apps.now) }
    ensures { IsIndexOf app (map range_in apps.now) result }
{
    let mut low = 0;
    let mut high = apps.len();
    while low < high {
        let middle = low + (high - low) / 2;
        if apps[middle].number() < app {
            low = middle + 1;
        } else {
            high = middle;
        }
    }
    if low < apps.len() && apps[low].number() == app {
        Some(low)
    } else {
        None
    }
}
