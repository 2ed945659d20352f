//! Suspected counterexamples: whether a profile, or two, show that a rule lacks a property.
//!
//! What holds of a rule, as a theorem, is derived in other layers; what doesn't hold is shown by a case.
//! A `Case` is a profile, or two and the alternative that is said to be lifted between them. It violates a
//! property where the property's premise is true of it and its conclusion false (`specs/Violations.antt`).
//! The definitions have a third kind of case, an election under new names, by which neutrality is violated.
//! The one contract of this layer: `judge_case` says *violated* of exactly the cases that violate the
//! property, and else gives the first reason why not; and what is violated is false of the rule, and has no
//! valid derivation. That premises and conclusions are the right ones is a law: a property holds of a rule
//! exactly where no case violates it (`properties_hold_unless_violated`). It stands on `vir_mean` for
//! meanings and properties, and on `vir_sound` for the truth of what is derived.
#![tactic(auto)]

mod about;
mod case;
mod judge;
mod laws;
mod lifts;
mod one;
mod pair;
mod sets;
mod split;
mod verdict;
mod winner;

pub use about::{is_about, is_on_lifts};
pub use case::Case;
pub use judge::judge_case;
pub use laws::properties_hold_unless_violated;
pub use sets::same_split;
pub use split::split_of;
pub use verdict::{CaseVerdict, Reason};
