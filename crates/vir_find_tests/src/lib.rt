//! The tests of `vir_find`, in a crate of their own: what searches through small cases find. What is wanted was worked
//! out by the independent model (`model/`).
//!
//! There is no code but the tests, so the crate has no contract, and `vir_find` is proved without them.
//! It stands on `vir_find`, on `vir_samples` for reading the rules, and on `vir_profile` for the lines of a case.
#![tactic(auto)]

#[cfg(test)]
mod searches;
#[cfg(test)]
mod wanted;
