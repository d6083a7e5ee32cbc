//! Fullness: the shares of a guarantee in use, the dominant share first (`Shares`), and their order (`cmp_shares`).
ghost use Rattle.std.specs.Prelude.{◌≡◌, ◌∷◌, ◌<◌};
ghost use Rattle.cap_vector.specs.Fullness.{share_cmp, shares, shares_cmp, greatest_first, put_share};

use crate::vector::{Resource, Sum};
use std::cmp::Ordering;
use std::marker::Model;

/// The fraction of one resource that is used: `used / max(1, guaranteed)`.
#[derive(Clone, Copy, Drop)]
pub struct Share {
    pub used: u64,
    pub guaranteed: u64,
}

/// The fractions of all resources, the dominant share first. Contracts see the list of them.
#[derive(Clone, Copy, Drop)]
pub struct Shares<const K: usize> {
    shares: [Share; K],
}

impl<const K: usize> Model for Shares<K> {
    ghost use Rattle.std.specs.Prelude.{List};
    ghost use Rattle.cap_vector.specs.declared.fullness.Share.{Share};

    ghost Value = { List Share };

    ghost view = { λ s. s.shares };

    ghost inverse = { λ v. record { shares = v } };
}

impl<const K: usize> Shares<K> {
    /// The shares of a use of a guarantee, the greatest first, as `DominantResourceCalculator` orders queues. A guarantee of 0 counts as 1.
    pub fn of(used: &Sum<K>, guaranteed: &Resource<K>) -> Shares<K>
        ensures { result ≡ shares used.now guaranteed.now }
    {
        let mut shares = [Share {
            used: 0,
            guaranteed: 0,
        }; K];
        for k in 0..K {
            shares[k] = Share {
                used: used.amounts[k],
                guaranteed: guaranteed.amounts[k],
            };
        }
        put_greatest_first(&mut shares);
        Shares { shares }
    }
}

/// Which of two uses is less full: the first shares that differ decide, by cross products.
pub fn cmp_shares<const K: usize>(a: &Shares<K>, b: &Shares<K>) -> Ordering
    ensures { result ≡ shares_cmp a.now b.now }
{
    for k in 0..K {
        let order = cmp_share(&a.shares[k], &b.shares[k]);
        if order.is_ne() {
            return order;
        }
    }
    Ordering::Equal
}

/// Which of two fractions is less. No number is rounded or cut.
fn cmp_share(a: &Share, b: &Share) -> Ordering
    ensures { result ≡ share_cmp a.now b.now }
{
    let left = a.used as u128 * b.guaranteed.max(1) as u128;
    let right = b.used as u128 * a.guaranteed.max(1) as u128;
    left.cmp(&right)
}

/// Orders shares, the greatest first.
fn put_greatest_first(shares: &mut [Share])
    ensures { shares.new ≡ greatest_first shares.old }
{
    if shares.is_empty() {
        return;
    }
    put_greatest_first(&mut shares[1..]);
    put_first(shares);
}

/// Moves the first share behind those that are greater.
fn put_first(shares: &mut [Share])
    ensures { (x : _) (xs : _) → shares.old ≡ x ∷ xs → shares.new ≡ put_share x xs }
{
    if shares.len() < 2 {
        return;
    }
    if cmp_share(&shares[0], &shares[1]).is_lt() {
        shares.swap(0, 1);
        put_first(&mut shares[1..]);
    }
}
