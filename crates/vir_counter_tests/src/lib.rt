//! The tests of counters that cross crates, in a crate of their own: scores and rounds of small elections, worked out
//! by hand; rows of weights and positional scores; each module gives the same split by a counter, over the table of an
//! election, as by ballots that are restricted literally; an election may have 1,024 alternatives; and a counter of
//! one's own, and one by weights, work on a bench. There is no code but the tests, so the crate has no contract, and
//! what it tests is proved without them. It stands on `vir_machine`, on what that stands on, on `vir_positional`, and
//! on `vir_samples` for the profiles.
#![tactic(auto)]

#[cfg(test)]
mod by_hand;
#[cfg(test)]
mod elections;
#[cfg(test)]
mod many_alternatives;
#[cfg(test)]
mod on_a_bench;
#[cfg(test)]
mod own_counter;
#[cfg(test)]
mod rows;
#[cfg(test)]
mod same_splits;
