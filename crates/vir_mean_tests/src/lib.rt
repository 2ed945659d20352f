//! The tests of `vir_mean`, in a crate of their own: the splits of small profiles, worked out by hand.
//!
//! There is no code but the tests, so the crate has no contract, and `vir_mean` is proved without
//! them. It stands on `vir_mean`, on `vir_profile` for the profiles and on `vir_term` for the rules.
#![tactic(auto)]

#[cfg(test)]
mod laws;
#[cfg(test)]
mod properties;
#[cfg(test)]
mod rules;
#[cfg(test)]
mod splits;
#[cfg(test)]
mod votes;
