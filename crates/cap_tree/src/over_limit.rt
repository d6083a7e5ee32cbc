//! The limit that a change of use would pass (`OverLimit`), and whether a queue stays within its maximum.
ghost use Rattle.std.specs.Prelude.{◌≡◌};
ghost use Rattle.cap_vector.specs.Vector.{amounts_exchanged};
ghost use Rattle.cap_base.specs.LimitTests.{fits_maximum};

use crate::branch::Test;
use crate::queue::Queue;
use cap_vector::{Resource, Sum, fits_exchanged};
use std::alloc::Allocator;

/// The limit that a change of use would pass.
#[derive(Clone, Copy, Debug, PartialEq, Eq)]
pub enum OverLimit {
    /// The maximum capacity of a queue on the way to the leaf: the one of least level, where `root` is level 0.
    Maximum { level: usize },
    /// The user limit of the leaf: its user limit factor times its capacity.
    User,
}

/// Whether the use of a queue, with `old` taken away and `new` added, is within its maximum.
#[derive(Drop)]
pub struct InMaximum<'a, const K: usize> {
    /// What is taken away, in MiB, vcores and GPUs.
    pub old: &'a Resource<K>,
    /// What is added, in MiB, vcores and GPUs.
    pub new: &'a Resource<K>,
}

impl<'a, const K: usize, A: Allocator> Test<Queue<K, A>> for InMaximum<'a, K> {
    ghost use Rattle.cap_tree.specs.Queue.{stays_in_maximum};

    ghost passes = { λ t. stays_in_maximum t.old.now t.new.now };

    fn passes(&self, item: &Queue<K, A>) -> bool {
        item.stays_in_maximum(self.old, self.new)
    }
}

/// Whether a use stays within a maximum with `old` taken away and `new` added: always where nothing bounds it.
pub fn fits_in_maximum<const K: usize>(
    maximum: &Option<Resource<K>>,
    used: &Sum<K>,
    old: &Resource<K>,
    new: &Resource<K>,
) -> bool
    ensures { result ≡ fits_maximum maximum.now (amounts_exchanged old.now new.now used.now) }
{
    let Some(maximum) = maximum else {
        return true;
    };
    fits_exchanged(used, old, new, 1, maximum)
}
