//! The tests of `vir_words`, in a crate of their own: words with the commands that they are, and lists of as many
//! words as there may be, and of one more.
//!
//! There is no code but the tests, so the crate has no contract, and `vir_words` is proved without them. It stands on
//! `vir_words`, and on `vir_report` and `vir_term` for the texts of what a command holds.
#![tactic(auto)]

#[cfg(test)]
mod commands;
#[cfg(test)]
mod laws;
#[cfg(test)]
mod long_lists;
#[cfg(test)]
mod refutations;
#[cfg(test)]
mod searches;
#[cfg(test)]
mod told;
