//! The tests of the whole call, in a crate of their own: rows of words and files with what they come to, and each
//! call of a device failing in turn.
//!
//! There is no code but the tests, so the crate has no contract, and `vir_top` is proved without them. It stands on
//! `vir_top`, and on the shelf and the sinks in memory of `vir_outside`.
#![tactic(auto)]

#[cfg(test)]
mod calls;
#[cfg(test)]
mod cases;
#[cfg(test)]
mod claims;
#[cfg(test)]
mod devices;
#[cfg(test)]
mod explanations;
#[cfg(test)]
mod positions;
#[cfg(test)]
mod refusals;
#[cfg(test)]
mod reports;
#[cfg(test)]
mod rows;
#[cfg(test)]
mod statuses;
