//! Samples for the crates of tests: small profiles from tables of votes, and rules and modules from their texts.
//!
//! Crates of tests alone stand on this layer. What it hands them is proved to be what stands in their tables: the
//! profile of these votes, and the rule or the modules that a rule file would define by these texts. It stands on
//! `vir_profile` for profiles, on `vir_term` for rules, and on `vir_read` and `vir_book` for reading them.
#![tactic(auto)]

mod texts;
mod votes;

pub use texts::{MODULES, modules_of, term_of};
pub use votes::{AFTER, BEFORE, CYCLE, DIVIDED, Votes, profile_of};
