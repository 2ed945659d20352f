//! The tests of `vir_refute`, in a crate of their own: the verdicts on small cases, worked out by hand.
//!
//! There is no code but the tests, so the crate has no contract, and `vir_refute` is proved without them.
//! It stands on `vir_refute`, on `vir_samples` for the profiles, and on `vir_book` for reading the rules.
#![tactic(auto)]

#[cfg(test)]
mod names;
#[cfg(test)]
mod pairs;
#[cfg(test)]
mod profiles;
#[cfg(test)]
mod verdicts;
