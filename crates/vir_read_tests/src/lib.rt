//! The tests of `vir_read`, in a crate of their own: tokens, trees and terms of small texts, and where
//! the faults of others are.
//!
//! There is no code but the tests, so the crate has no contract, and `vir_read` is proved without them.
//! It stands on `vir_read`, on `vir_book` for names, and on `vir_term` for the terms.
#![tactic(auto)]

#[cfg(test)]
mod laws;
#[cfg(test)]
mod names;
#[cfg(test)]
mod terms;
#[cfg(test)]
mod trees;
