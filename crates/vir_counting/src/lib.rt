//! The commands that count: what runs of a rule on a profile come to, and what weights of places do, as texts.
//!
//! Each of [`count`], [`report`] and [`drill`] is handed what was read and a bench, makes the runs of its
//! course on the bench, and gives the answer that the course leads to (`specs/Counting.antt`); [`position`],
//! [`explain`] and [`compare`] make no run, and see no bench. None sees a shelf. Who makes runs in a layer
//! above has the election of a file by [`election_for`]. It stands on `vir_course` for what an answer must say, on
//! `vir_machine` for runs,
//! on `vir_positional` for weights, on `vir_derive` for what a report says of properties, and on `vir_report`
//! for texts.
#![tactic(auto)]

mod counts;
mod drill_profile;
mod drill_terms;
mod drills;
mod explanations;
mod pairs;
mod positions;
mod reports;
mod run;
#[cfg(test)]
mod tests;

pub use counts::count;
pub use drills::drill;
pub use explanations::{compare, explain};
pub use positions::position;
pub use reports::report;
pub use run::election_for;
