//! Ballots and profiles: who prefers what, and how many of them.
//!
//! A profile is a list of lines, and a line is a weight with an order of all alternatives, the most
//! preferred first. The contract of this layer: a `Profile` is its number of alternatives, from 1 to
//! `LIMIT`, and its list of lines, of which there are at most 1,000,000; each order lists each
//! alternative once, and the weights add up to at most 2^64 - 1. `add` is the way in, and it names the
//! first fault of a line that it refuses; `add_judged` takes a line whose order is known to have none.
//! A short order stands in its line, and takes no memory of its own. Here stand also the definitions
//! that all layers above share: restriction, the weights of pairs and of first places, and the
//! Condorcet winner (`specs/`). It stands on `vir_altset`, whose sets and splits it passes on.
#![tactic(auto)]

mod ballot;
mod few;
mod laws;
mod narrow;
mod profile;
mod refused;
mod soc_file;
#[cfg(test)]
mod tests;

pub use ballot::{Ballot, Entry, Room};
pub use few::{ALTERNATIVES_IN_PLACE, Few};
pub use laws::{
    accepted_orders, condorcet_winner_is_unique, condorcet_winner_stays, profiles_are_complete,
    restricted_orders, restricted_to_the_whole, restriction_keeps_pairs,
};
pub use narrow::NARROW;
pub use profile::{LINES_LIMIT, Profile};
pub use refused::{AddFault, Refused};
pub use soc_file::{Name, NameText, SocFile};
pub use vir_altset::{AltSet, LIMIT, Split};
