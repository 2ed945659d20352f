//! The tests of `vir_batch` over a shelf in memory, in a crate of their own: manifests with what they come to, the
//! runs that are counted, each call of the shelf failing in turn, and the files that a rule and a manifest stand in.
//!
//! There is no code but the tests, so the crate has no contract, and `vir_batch` is proved without them. It stands on
//! `vir_batch`, on `vir_book` for rules, and on the shelf in memory of `vir_outside`.
#![tactic(auto)]

#[cfg(test)]
mod calls;
#[cfg(test)]
mod files;
#[cfg(test)]
mod stops;
#[cfg(test)]
mod texts;
