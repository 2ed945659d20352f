//! The tests of `vir_simplify`, in a crate of their own: the steps of small terms, and steps that are replayed.
//!
//! There is no code but the tests, so the crate has no contract, and `vir_simplify` is proved without them.
//! It stands on `vir_simplify`, on `vir_samples` and `vir_read` for reading the terms, and on `vir_term`.
#![tactic(auto)]

#[cfg(test)]
mod laws;
#[cfg(test)]
mod replays;
#[cfg(test)]
mod simple_terms;
#[cfg(test)]
mod terms;
