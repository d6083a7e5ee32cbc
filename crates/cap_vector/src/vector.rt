//! Amounts of K resources, each bounded (`Amounts`): `Resource` of a container, node or queue, `Sum` of what is used.
ghost use Rattle.std.specs.Prelude.{◌≡◌, ℕ, ◌↔◌, ◌≤◌, IfSome, IsSome};
ghost use Rattle.cap_vector.specs.Vector.{IsVector, zeros, is_zero};

use std::marker::Model;

/// The greatest amount of a resource vector: MiB of memory, or vcores.
pub const AMOUNT_MAX: u64 = 1 << 40;

/// The greatest amount of a sum of use, which reservations can take above `AMOUNT_MAX`.
pub const SUM_MAX: u64 = 1 << 41;

const _: () = prove!(AMOUNT_MAX == 1_099_511_627_776);

const _: () = prove!(SUM_MAX == 2_199_023_255_552);

/// K amounts, each at most `MAX`. Contracts see it as the list of its amounts.
#[derive(Clone, Copy, Debug, PartialEq, Eq)]
pub struct Amounts<const K: usize, const MAX: u64> {
    pub(crate) amounts: [u64; K],
}

/// A resource vector: K amounts, each at most `AMOUNT_MAX`.
pub type Resource<const K: usize> = Amounts<K, AMOUNT_MAX>;

/// A sum of use: K amounts, each at most `SUM_MAX`.
pub type Sum<const K: usize> = Amounts<K, SUM_MAX>;

impl<const K: usize, const MAX: u64> Model for Amounts<K, MAX> {
    ghost use Rattle.std.specs.Prelude.{List, ℕ};
    ghost use Rattle.cap_vector.specs.Vector.{IsVector};

    ghost Value = { List ℕ };

    ghost view = { λ v. v.amounts };

    ghost invariant = { λ v. IsVector K MAX v.amounts };

    ghost inverse = { λ amounts. record { amounts = amounts } };
}

impl<const K: usize, const MAX: u64> Amounts<K, MAX> {
    /// The vector of these amounts. None exactly where an amount is over `MAX`.
    pub fn new(amounts: [u64; K]) -> Option<Amounts<K, MAX>>
        ensures some { IfSome result (λ v. v ≡ amounts.entry) }
        ensures variant { IsSome result ↔ IsVector K MAX amounts.entry }
    {
        for amount in &amounts {
            if *amount > MAX {
                return None;
            }
        }
        Some(Amounts { amounts })
    }

    /// 0 of each resource.
    pub fn zero() -> Amounts<K, MAX>
        ensures { result ≡ zeros K }
    {
        Amounts { amounts: [0; K] }
    }

    /// Whether every amount is 0.
    pub fn is_zero(&self) -> bool
        ensures { result ≡ is_zero self.now }
    {
        self.amounts.iter().all(|amount| *amount == 0)
    }

    /// A copy of it.
    pub fn copied(&self) -> Amounts<K, MAX>
        ensures value { result ≡ self.now }
        ensures vector { IsVector K MAX self.now }
    {
        Amounts {
            amounts: self.amounts,
        }
    }

    /// The amounts, in the order of the resources.
    pub fn amounts(&self) -> [u64; K]
        ensures value { result ≡ self.now }
        ensures vector { IsVector K MAX self.now }
    {
        self.amounts
    }
}
