//! Exact arithmetic on amounts: `fits`, `checked_add`, `minus`, `exchanged`, `fits_exchanged`, `round_up`.
ghost use Rattle.std.specs.Prelude.{◌≡◌, ◌↔◌, ◌≤◌, IfSome, IsSome, IsTrue, length};
ghost use Rattle.cap_vector.specs.Vector.{Fits, FitsTimes, IsVector, StaysWithin, amounts_exchanged, plus, less, amount_max};
ghost use Rattle.cap_vector.specs.Rounding.{raised_amount, round_up};

use crate::vector::{Amounts, Resource};

/// Whether each amount of `a` is at most that of `b`.
pub fn fits<const K: usize, const A: u64, const B: u64>(
    a: &Amounts<K, A>,
    b: &Amounts<K, B>,
) -> bool
    ensures { IsTrue result ↔ Fits a.now b.now }
{
    for k in 0..K {
        if a.amounts[k] > b.amounts[k] {
            return false;
        }
    }
    true
}

/// Both together, amount by amount. None exactly where an amount would pass the bound of `a`.
pub fn checked_add<const K: usize, const A: u64, const B: u64>(
    a: &Amounts<K, A>,
    b: &Amounts<K, B>,
) -> Option<Amounts<K, A>>
    ensures some { IfSome result (λ v. v ≡ plus a.now b.now) }
    ensures variant { IsSome result ↔ IsVector K A (plus a.now b.now) }
    ensures count { length (plus a.now b.now) ≡ K }
{
    let mut amounts = [0; K];
    for k in 0..K {
        let Some(amount) = a.amounts[k].checked_add(b.amounts[k]) else {
            return None;
        };
        if amount > A {
            return None;
        }
        amounts[k] = amount;
    }
    Some(Amounts { amounts })
}

/// What is left of `a` without `b`, amount by amount.
pub fn minus<const K: usize, const A: u64, const B: u64>(
    a: &Amounts<K, A>,
    b: &Amounts<K, B>,
) -> Amounts<K, A>
    requires { Fits b.now a.now }
    ensures { result ≡ less a.now b.now }
{
    let mut amounts = [0; K];
    for k in 0..K {
        amounts[k] = a.amounts[k].saturating_sub(b.amounts[k]);
    }
    Amounts { amounts }
}

/// `a` with `old` taken away and `new` added, amount by amount. An amount either falls or stays within the bound of `a`.
pub fn exchanged<const K: usize, const A: u64, const B: u64>(
    a: &Amounts<K, A>,
    old: &Amounts<K, B>,
    new: &Amounts<K, B>,
) -> Amounts<K, A>
    requires fits { Fits old.now a.now }
    requires within { StaysWithin A old.now new.now a.now }
    ensures { result ≡ amounts_exchanged old.now new.now a.now }
{
    let mut amounts = [0; K];
    for k in 0..K {
        amounts[k] = a.amounts[k].saturating_sub(old.amounts[k]) + new.amounts[k];
    }
    Amounts { amounts }
}

/// Whether each amount of `used`, with `old` taken away and `new` added, is at most so many times that of `most`. No number is
/// rounded or cut.
pub fn fits_exchanged<const K: usize, const A: u64, const B: u64>(
    used: &Amounts<K, A>,
    old: &Amounts<K, B>,
    new: &Amounts<K, B>,
    factor: u64,
    most: &Amounts<K, B>,
) -> bool
    ensures { IsTrue result ↔
        FitsTimes (amounts_exchanged old.now new.now used.now) factor most.now }
{
    for k in 0..K {
        let left = used.amounts[k].saturating_sub(old.amounts[k]);
        let after = left as u128 + new.amounts[k] as u128;
        if after > factor as u128 * most.amounts[k] as u128 {
            return false;
        }
    }
    true
}

/// Each amount raised to the least multiple of `step` that is at least it and at least `step`, and then cut to `most`. A
/// step of 0 raises nothing.
pub fn round_up<const K: usize>(
    amounts: &Resource<K>,
    step: &Resource<K>,
    most: &Resource<K>,
) -> Resource<K>
    ensures { result ≡ round_up K amounts.now step.now most.now }
{
    let mut rounded = [0; K];
    for k in 0..K {
        rounded[k] = raised(amounts.amounts[k], step.amounts[k]).min(most.amounts[k]);
    }
    Amounts { amounts: rounded }
}

/// One amount, raised to a multiple of `step`.
fn raised(amount: u64, step: u64) -> u64
    requires amount { amount ≤ amount_max }
    requires step { step ≤ amount_max }
    ensures { result ≡ raised_amount amount step }
{
    if step == 0 {
        return amount;
    }
    (amount.max(1) + (step - 1)) / step * step
}
