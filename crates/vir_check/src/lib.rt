//! The checker of derivations, whose word is a theorem.
//!
//! A derivation is data: a tree of rules that anyone may have made. `check` says of a judgement and a
//! derivation whether the derivation is valid by the table of rules, and of one that isn't it names the
//! first bad node. That is its one contract (`specs/Verdicts.antt`), with what makes it worth asking: a
//! judgement with an accepted derivation is true on every set of alternatives and every profile. It stands
//! on `vir_rules` for the table, and on `vir_sound` for the truth of what is derived.
#![tactic(auto)]

mod checker;
mod verdict;

pub use checker::check;
pub use verdict::Verdict;
pub use vir_rules::Unfit;
