//! Tests of amounts: their bounds, sums and differences, what fits, rounding, and the order of fullness.

use cap_base::RESOURCES;
use cap_vector::{
    Resource, Shares, Sum, checked_add, cmp_shares, exchanged, fits, fits_exchanged, minus,
    round_up,
};
use std::cmp::Ordering;

const MOST: u64 = 1_099_511_627_776;

/// The most that a sum may have.
const TWICE: u64 = 2_199_023_255_552;

/// An amount, and whether it is one of a resource and of a sum.
const BOUNDS: [(u64, bool, bool); 4] = [
    (MOST, true, true),
    (1_099_511_627_777, false, true),
    (TWICE, false, true),
    (2_199_023_255_553, false, false),
];

#[test]
fn amounts_are_bounded(rt: HostRuntime) {
    for &(memory, is_resource, is_sum) in &BOUNDS {
        let resource = Resource::new([0, memory, 0]).is_some();
        let sum = Sum::new([memory, 1, 0]).is_some();
        assert!(rt; resource == is_resource && sum == is_sum, "{memory}");
    }
}

/// Whether an amount of each of three resources is nothing, and the amounts.
fn three(amounts: [u64; 3]) -> Option<(bool, [u64; 3])> {
    let resource = Resource::new(amounts)?;
    Some((resource.is_zero(), resource.amounts()))
}

#[test]
fn nothing_is_zero_in_each_resource(rt: HostRuntime) {
    assert!(rt; three([0, 0, 0]) == Some((true, [0, 0, 0])));
    assert!(rt; three([0, 0, 1]) == Some((false, [0, 0, 1])));
    assert!(rt; Resource::<3>::zero().is_zero());
}

/// A sum of memory and vcores, of any two amounts up to the bound of sums.
fn sum(amounts: [u64; RESOURCES]) -> Sum<RESOURCES> {
    Sum::new(amounts).unwrap_or(Sum::zero())
}

fn resource(amounts: [u64; RESOURCES]) -> Resource<RESOURCES> {
    Resource::new(amounts).unwrap_or(Resource::zero())
}

/// A use, another, and whether the first fits in the other.
const FITTING: [([u64; RESOURCES], [u64; RESOURCES], bool); 6] = [
    ([3072, 1, 0], [8192, 8, 0], true),
    ([8192, 8, 0], [8192, 8, 0], true),
    ([8192, 8, 0], [3072, 1, 0], false),
    ([MOST, 0, 0], [8192, 8, 0], false),
    ([MOST, 6, 0], [MOST, 0, 0], false),
    ([MOST, 0, 0], [MOST, 6, 0], true),
];

#[test]
fn amounts_fit_in_each_resource(rt: HostRuntime) {
    for &(less, more, answer) in &FITTING {
        assert!(rt; fits(&sum(less), &sum(more)) == answer, "{less:?}");
    }
}

/// Two resources added.
fn added(a: [u64; RESOURCES], b: [u64; RESOURCES]) -> Option<[u64; RESOURCES]> {
    let sum = checked_add(&resource(a), &resource(b))?;
    Some(sum.amounts())
}

/// A resource added to a use.
fn used(a: [u64; RESOURCES], b: [u64; RESOURCES]) -> Option<[u64; RESOURCES]> {
    let sum = checked_add(&sum(a), &resource(b))?;
    Some(sum.amounts())
}

#[test]
fn amounts_add_up_to_their_bound(rt: HostRuntime) {
    for &(a, b, alone, more) in &[
        (
            [8192, 8, 0],
            [3072, 1, 0],
            Some([11264, 9, 0]),
            Some([11264, 9, 0]),
        ),
        (
            [MOST, 0, 0],
            [3072, 1, 0],
            None,
            Some([1_099_511_630_848, 1, 0]),
        ),
        ([MOST, 6, 0], [MOST, 0, 0], None, Some([TWICE, 6, 0])),
    ] {
        assert!(rt; added(a, b) == alone && used(a, b) == more, "{a:?}");
    }
}

/// What is left of an amount, where the other fits in it.
fn left(from: [u64; RESOURCES], less: [u64; RESOURCES]) -> Option<[u64; RESOURCES]> {
    let (from, less) = (sum(from), resource(less));
    if fits(&less, &from) {
        Some(minus(&from, &less).amounts())
    } else {
        None
    }
}

#[test]
fn what_fits_is_taken_away(rt: HostRuntime) {
    assert!(rt; left([8192, 8, 0], [3072, 1, 0]) == Some([5120, 7, 0]));
    assert!(rt; left([MOST, 6, 0], [3072, 1, 0]) == Some([1_099_511_624_704, 5, 0]));
    assert!(rt; left([3072, 1, 0], [8192, 1, 0]).is_none());
}

/// What a use is where a part of it falls to another.
fn changed(
    used: [u64; RESOURCES],
    old: [u64; RESOURCES],
    new: [u64; RESOURCES],
) -> Option<[u64; RESOURCES]> {
    let (used, old, new) = (sum(used), resource(old), resource(new));
    if fits(&old, &used) && fits(&new, &old) {
        Some(exchanged(&used, &old, &new).amounts())
    } else {
        None
    }
}

#[test]
fn amounts_are_exchanged(rt: HostRuntime) {
    for &(used, old, new, answer) in &[
        ([8192, 8, 0], [3072, 2, 0], [1024, 1, 0], Some([6144, 7, 0])),
        (
            [TWICE, 8, 0],
            [MOST, 8, 0],
            [MOST, 0, 0],
            Some([TWICE, 0, 0]),
        ),
        ([3072, 1, 0], [3072, 2, 0], [1024, 1, 0], None),
    ] {
        assert!(rt; changed(used, old, new) == answer, "{used:?}");
    }
}

/// Whether a use fits so many times a vector of amounts, with a part of it taken away and another added.
fn fits_times(
    used: [u64; RESOURCES],
    old: u64,
    new: u64,
    factor: u64,
    most: [u64; RESOURCES],
) -> bool {
    let (old, new) = (resource([old, 0, 0]), resource([new, 0, 0]));
    fits_exchanged(&sum(used), &old, &new, factor, &resource(most))
}

/// A use, the memory that is taken away and that is added, how often it is to fit in what, and whether it does.
const FITTING_TIMES: [([u64; RESOURCES], u64, u64, u64, [u64; RESOURCES], bool); 11] = [
    ([2048, 2, 0], 0, 1024, 1, [3072, 2, 0], true),
    ([2048, 2, 0], 0, 1025, 1, [3072, 2, 0], false),
    ([2048, 2, 0], 1024, 2048, 1, [3072, 2, 0], true),
    ([2048, 2, 0], 0, 0, 1, [3072, 1, 0], false),
    ([2048, 2, 0], 0, 1024, 2, [2048, 1, 0], true),
    ([2048, 2, 0], 0, 0, 0, [2048, 2, 0], false),
    ([2048, 2, 0], 4096, 1024, 1, [1024, 2, 0], true),
    ([TWICE, 0, 0], 0, MOST, 3, [MOST, 0, 0], true),
    ([TWICE, 0, 0], 0, MOST, 2, [MOST, 0, 0], false),
    ([TWICE, 0, 0], 0, MOST, u64::MAX, [1, 0, 0], true),
    ([TWICE, 0, 0], 0, MOST, u64::MAX, [MOST, 0, 0], true),
];

#[test]
fn amounts_fit_so_many_times_others(rt: HostRuntime) {
    for &(used, old, new, factor, most, answer) in &FITTING_TIMES {
        let given = fits_times(used, old, new, factor, most);
        assert!(rt; given == answer, "{used:?} {old} {new} {factor}");
    }
}

/// What is asked for, the step, the most, and what it is rounded up to.
const ROUNDED: [(
    [u64; RESOURCES],
    [u64; RESOURCES],
    [u64; RESOURCES],
    [u64; RESOURCES],
); 5] = [
    ([1500, 1, 0], [1024, 1, 0], [8192, 4, 0], [2048, 1, 0]),
    ([7900, 1, 0], [1024, 1, 0], [8000, 4, 0], [8000, 1, 0]),
    ([8192, 4, 0], [1024, 1, 0], [8192, 4, 0], [8192, 4, 0]),
    ([0, 0, 0], [1024, 1, 0], [8192, 4, 0], [1024, 1, 0]),
    ([1500, 1, 0], [0, 0, 0], [8192, 4, 0], [1500, 1, 0]),
];

#[test]
fn amounts_round_up(rt: HostRuntime) {
    for &(ask, step, most, rounded) in &ROUNDED {
        let given = round_up(&resource(ask), &resource(step), &resource(most));
        assert!(rt; given.amounts() == rounded, "{ask:?}");
    }
}

/// Which of two uses is less full, each of its own guarantee.
fn compared(
    a: [u64; RESOURCES],
    of_a: [u64; RESOURCES],
    b: [u64; RESOURCES],
    of_b: [u64; RESOURCES],
) -> Ordering {
    let a = Shares::of(&sum(a), &resource(of_a));
    let b = Shares::of(&sum(b), &resource(of_b));
    cmp_shares(&a, &b)
}

/// Two uses, each with its guarantee, and how they are ordered.
const COMPARED: [(
    [u64; RESOURCES],
    [u64; RESOURCES],
    [u64; RESOURCES],
    [u64; RESOURCES],
    Ordering,
); 9] = [
    // Shares of 1/2, 1/8 and 0, and of 1/2, 1/4 and 1/4.
    (
        [1024, 1, 0],
        [2048, 8, 0],
        [1024, 1, 1],
        [4096, 4, 2],
        Ordering::Less,
    ),
    (
        [1024, 1, 0],
        [2048, 8, 0],
        [1024, 2, 0],
        [4096, 4, 0],
        Ordering::Less,
    ),
    (
        [1024, 4, 0],
        [4096, 4, 0],
        [2048, 1, 0],
        [4096, 4, 0],
        Ordering::Greater,
    ),
    ([1, 0, 0], [3, 1, 0], [1, 0, 0], [2, 1, 0], Ordering::Less),
    (
        [1024, 1, 0],
        [2048, 2, 0],
        [2, 2048, 0],
        [4, 4096, 0],
        Ordering::Equal,
    ),
    (
        [0, 0, 0],
        [1024, 0, 0],
        [0, 1, 0],
        [1024, 0, 0],
        Ordering::Less,
    ),
    (
        [TWICE, 0, 0],
        [0, 0, 0],
        [TWICE, 0, 0],
        [1, 0, 0],
        Ordering::Equal,
    ),
    (
        [2_199_023_255_551, 0, 0],
        [MOST, 0, 0],
        [TWICE, 0, 0],
        [MOST, 0, 0],
        Ordering::Less,
    ),
    (
        [TWICE, 0, 0],
        [1_099_511_627_775, 0, 0],
        [TWICE, 0, 0],
        [MOST, 0, 0],
        Ordering::Greater,
    ),
];

// The greatest share decides first, whichever resource it is of; a guarantee of 0 counts as 1.
#[test]
fn shares_are_compared_greatest_first(rt: HostRuntime) {
    for &(a, of_a, b, of_b, order) in &COMPARED {
        let given = compared(a, of_a, b, of_b);
        assert!(rt; given == order, "{a:?} of {of_a:?}, {b:?} of {of_b:?}");
    }
}
