//! Equations between voting rules: a shorter term of the same meaning, and the steps to it.
//!
//! The equations are data (`specs/Equations.antt`): for each its left side and its right side, where letters
//! stand for all terms and all numbers. The contract of this layer: the two sides of each equation give the
//! same split of every set by every profile on it, and all equations but the last two make a term smaller and
//! no deeper (`laws.rt`); a step puts the right side of an equation in place of its left side, at one place of
//! a term, and `next_step` gives the next one exactly; `simplify` takes the next step until there is none;
//! `replay` takes the steps of a list. What next steps, simplification and replay are is defined in
//! `specs/Steps.antt`, on places that are numbered in `specs/Places.antt`. What comes out has the same meaning
//! as what went in, and is within the limits where that was. Terms are compared as they stand: two terms of
//! one meaning that no equation relates are two. It stands on `vir_mean` for what terms mean, and on
//! `vir_term`.
#![tactic(auto)]

mod equation;
pub mod laws;
mod replaying;
mod rewriting;
mod right_side;
mod seeking;
mod simplified;
mod simplifying;
mod step;
mod trace;

pub use equation::Equation;
pub use replaying::replay;
pub use seeking::next_step;
pub use simplified::Simplified;
pub use simplifying::simplify;
pub use step::Step;
pub use trace::Trace;
