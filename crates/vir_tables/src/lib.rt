//! Elections: a profile to be counted, with a number for each ordered pair of its alternatives where a
//! rule asks about pairs.
//!
//! The contract of this layer: an `Election` is its file, a profile with names. Its table, where it has
//! one, holds for each pair how many voters put the first before the second, so that a pair is asked
//! about by one look into the table; without a table the same is told by going over the lines. It is a
//! `Tally` of its profile, restricted to any set of its alternatives. The table is one allocation, filled
//! by `Election::of` in blocks of lines, for which a second allocation notes the places of each alternative
//! in the lines of a block. Each pair is counted one way round by comparing places, which a processor does
//! for many lines at once; the other way round it has what is left of the voters. Nothing else takes
//! memory. First places among the members of a set stand in no table: they are added up line by line, by
//! marks of the members. Where two alternatives are asked about without a table, many places of a line are
//! looked at together. It stands on `vir_profile`, whose lines it goes over, and on `vir_mean`, whose
//! `Tally` it implements.
#![tactic(auto)]

mod election;
mod first_places;
mod pairs;
mod table;
#[cfg(test)]
mod tests;

pub use election::Election;
pub use first_places::{MARKS, mark};
