//! The tests of `vir_cert`, in a crate of their own: certificates that are read and printed, and where the faults of
//! others are.
//!
//! There is no code but the tests, so the crate has no contract, and `vir_cert` is proved without them. It stands on
//! `vir_cert`, on `vir_read` for the faults, and on `vir_rules` and `vir_term` for what a certificate is of.
#![tactic(auto)]

#[cfg(test)]
mod faults;
#[cfg(test)]
mod laws;
#[cfg(test)]
mod printed;
#[cfg(test)]
mod texts;
