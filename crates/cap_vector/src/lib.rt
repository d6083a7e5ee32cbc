//! Vectors of resource amounts (memory in MiB, vcores, ..), and how they add, subtract, fit and round up.
#![tactic(auto)]

mod arithmetic;
mod fullness;
mod vector;

pub use arithmetic::{checked_add, exchanged, fits, fits_exchanged, minus, round_up};
pub use fullness::{Share, Shares, cmp_shares};
pub use vector::{AMOUNT_MAX, Amounts, Resource, SUM_MAX, Sum};
