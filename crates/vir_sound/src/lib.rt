//! Why the rules can be relied on: each rule of the table is sound, and what a valid derivation derives is
//! true.
//!
//! A judgement is true where what it says holds of the meaning of its terms on every finite set of alternatives
//! and every profile on it, of whatever size (`specs/Truth.antt`). The one contract of this layer is a law for
//! each rule, named after it: where the premises are true, so is the conclusion. The laws stand by what they
//! conclude in `electing.rt`, `sizes.rt`, `keeping.rt`, `lifts.rt`, `winners.rt`, `neutral.rt` and
//! `disjoint.rt`; from them follows that a judgement with a valid derivation is true (`soundness.rt`). Rules
//! that one might expect and that aren't sound are refuted in `wrong_rules.rt`. Terms are to name no number of
//! alternatives below 1, as terms within the limits do. It stands on `vir_mean` for meanings, properties and
//! the facts on scores, and on `vir_rules` for the table. There is no code here that does anything.
#![tactic(auto)]

pub mod disjoint;
pub mod electing;
pub mod keeping;
pub mod lifts;
pub mod neutral;
pub mod sizes;
mod soundness;
pub mod winners;
pub mod wrong_rules;

pub use soundness::{terms_within_limits_are_proper, valid_derivations_are_true};
