//! Scores: how many points each alternative has in an election, by plurality, Borda, Copeland, minimax or the
//! Condorcet winner; and elimination by a score that is handed in.
//!
//! Each function here speaks of a domain, a set of the election's alternatives, and of the election's
//! ballots restricted to it. The contract of this layer: the five functions and every `Scoring` give
//! exactly the score of their name, as `vir_mean` defines it on the ballots that are restricted
//! literally, and `eliminate` gives the split that the eliminator of that score gives there. So who
//! computes a score is free in how, and not in what. None of it takes memory. It stands on
//! `vir_tables`, whose elections it asks, on `vir_positional`, by which it finds Borda's scores where an
//! election has no table, and on `vir_mean`, whose definitions it meets.
#![tactic(auto)]

mod elimination;
mod functions;
mod kept_score;
mod scoring;
#[cfg(test)]
mod tests;

pub use elimination::eliminate;
pub use functions::{borda_score, condorcet_score, copeland_score, minimax_score, plurality_score};
pub use kept_score::KeptScore;
pub use scoring::Scoring;
pub use vir_mean::Elimination;
