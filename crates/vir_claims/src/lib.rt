//! The commands that say something of a rule, and run it on no bench: its counting code, what can be derived of
//! it, whether a case shows that it lacks a property, what it is simplified to, and which rule is the first of
//! which something can be derived.
//!
//! Each of [`listing`], [`prove`], [`check`], [`synth`], [`refute`] and [`simplify`] is handed what was read,
//! touches neither a shelf nor a bench, and gives the answer that its course leads to (`specs/Claims.antt`). Where
//! an answer says that a property holds, or that it is violated, this is so of what the rule means. It stands on
//! `vir_course` for what an answer must say, on `vir_compile` and `vir_code` for the code, on `vir_derive`,
//! `vir_cert`, `vir_check` and `vir_synth` for derivations, certificates and search, on `vir_refute` for cases, on
//! `vir_simplify` for equations, and on `vir_sound` for the truth of what is derived.
#![tactic(auto)]

mod checking;
mod listings;
mod proving;
mod refuting;
mod simplification;
mod synthesis;

pub use checking::check;
pub use listings::listing;
pub use proving::prove;
pub use refuting::refute;
pub use simplification::simplify;
pub use synthesis::synth;
