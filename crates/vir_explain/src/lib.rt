//! Explanations: how a rule comes to its result on a profile, step by step, and the numbers of voters behind it.
//!
//! A rule is evaluated by visits of its subterms (`specs/Visits.antt`). The contract of this layer:
//! `push_explanation` appends the text of all visits in their order (`specs/VisitTexts.antt`), and the split that the
//! last of them tells, which is the rule's meaning; each visit tells the subterm's place, the set that it is handed,
//! the scores that it goes by, and how it splits the set, by the ballots restricted to that set. `push_pairs` tells
//! of each ordered pair of alternatives how many voters put the one before the other, and the Condorcet winner
//! (`specs/PairTexts.antt`). It stands on `vir_mean` for what is told, on `vir_tables` for the election, and on
//! `vir_report` for the lines of sets.
#![tactic(auto)]

mod ending;
mod laws;
mod modules;
mod pairs;
mod scores;
#[cfg(test)]
mod tests;
mod unexplained;
mod visit_text;
mod visiting;

pub use laws::{
    accounts_are_true, last_visit_is_of_the_whole, texts_determine_visits,
    visited_modules_are_called, visits_are_an_account, visits_are_legible, visits_are_true,
    winner_is_the_condorcet_winner,
};
pub use pairs::push_pairs;
pub use unexplained::{TEXT_LIMIT, Unexplained};
pub use visiting::push_explanation;
