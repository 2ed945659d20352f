//! The texts that the program prints: results, properties, judgements, derivations and reasons.
//!
//! The definitions are in `specs/ResultText.antt` and `specs/ClaimTexts.antt`; the texts of a property and of a
//! derivation are defined with the rules, in `vir_rules`. The one contract of this layer: each call gives the
//! text that is defined, or memory was wanting. A text of several parts is made in one buffer: the calls that
//! begin with `push` append to it, and what stood there stays, also where memory runs out. It stands on
//! `vir_altset` for sets, on `vir_term` for the texts of terms and numbers, and on `vir_rules`.
#![tactic(auto)]

mod derivation;
mod judgement;
mod prop;
mod result;
#[cfg(test)]
mod tests;
mod why;

pub use derivation::{derivation_text, push_derivation};
pub use judgement::judgement_text;
pub use prop::{prop_text, push_prop};
pub use result::{push_result, push_set, result_text};
pub use why::{push_why, why_text};
