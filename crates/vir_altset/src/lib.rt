//! Sets of alternatives, and splits of such sets.
//!
//! An alternative is a number from 1 to [`LIMIT`]. An [`AltSet`] is seen as a finite set of numbers,
//! and its contract is that each call is the set operation of its clause. It is kept as words of
//! bits, so a copy is cheap and no call allocates. A [`Split`] is the outcome of one step of a
//! count. The crate stands on std alone.
#![tactic(auto)]

mod alt_set;
mod laws;
mod split;

pub use alt_set::AltSet;
pub use laws::{split_join, split_sizes};
pub use split::Split;

/// The greatest alternative.
pub const LIMIT: u16 = 1_024;

#[cfg(test)]
mod tests;
