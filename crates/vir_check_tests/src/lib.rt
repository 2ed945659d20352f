//! The tests of `vir_check`, in a crate of their own: the verdicts on small derivations, and on larger ones
//! in which one node is bad.
//!
//! There is no code but the tests, so the crate has no contract, and `vir_check` is proved without them. It
//! stands on `vir_check`, on `vir_rules` for derivations, on `vir_book` for reading the terms, and on
//! `vir_sound` for its laws.
#![tactic(auto)]

#[cfg(test)]
mod laws;
#[cfg(test)]
mod trees;
#[cfg(test)]
mod verdicts;
