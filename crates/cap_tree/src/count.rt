//! What is counted of a queue and of a user in it, use and active applications, and how a part of it moves (`Count`).
ghost use Rattle.std.specs.Prelude.{◌≡◌};
ghost use Rattle.cap_tree.specs.Count.{IsPart, MayMove, count_moved, is_zero_count, zero_count, one_app, use_alone};

use cap_vector::{AMOUNT_MAX, Amounts, SUM_MAX, exchanged};
use std::marker::Model;

/// What is used, in MiB, vcores and GPUs, and how many applications are active.
#[derive(Clone, Copy, Debug)]
pub(crate) struct Count<const K: usize, const MAX: u64> {
    pub(crate) used: Amounts<K, MAX>,
    pub(crate) active: u64,
}

/// What is counted of a queue with all under it, or of a user.
pub(crate) type Total<const K: usize> = Count<K, SUM_MAX>;

/// What is taken away from a total, or added to it, at once.
pub(crate) type Part<const K: usize> = Count<K, AMOUNT_MAX>;

impl<const K: usize, const MAX: u64> Model for Count<K, MAX> {
    ghost use Rattle.cap_tree.specs.Count.{Count as Counted};

    ghost Value = { Counted };

    ghost view = { λ c. record { used = c.used; active = c.active } };

    ghost inverse = { λ c. record { used = c.used; active = c.active } };
}

impl<const K: usize, const MAX: u64> Count<K, MAX> {
    /// No use and no application.
    pub(crate) fn zero() -> Count<K, MAX>
        ensures { result ≡ zero_count K }
    {
        Count {
            used: Amounts::zero(),
            active: 0,
        }
    }

    /// One active application that uses nothing.
    pub(crate) fn app() -> Count<K, MAX>
        ensures { result ≡ one_app K }
    {
        Count {
            used: Amounts::zero(),
            active: 1,
        }
    }

    /// Use alone.
    pub(crate) fn use_alone(used: &Amounts<K, MAX>) -> Count<K, MAX>
        ensures { result ≡ use_alone used.now }
    {
        Count {
            used: *used,
            active: 0,
        }
    }

    /// Whether it is no use and no application.
    pub(crate) fn is_zero(&self) -> bool
        ensures { result ≡ is_zero_count self.now }
    {
        self.active == 0 && self.used.is_zero()
    }
}

/// A total with an old part taken away and a new one added.
pub(crate) fn moved<const K: usize>(total: &Total<K>, old: &Part<K>, new: &Part<K>) -> Total<K>
    requires fits { IsPart old.now total.now }
    requires within { MayMove old.now new.now total.now }
    ensures { result ≡ count_moved old.now new.now total.now }
{
    Count {
        used: exchanged(&total.used, &old.used, &new.used),
        active: total.active - old.active + new.active,
    }
}
