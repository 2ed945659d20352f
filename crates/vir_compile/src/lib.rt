//! From terms to counting code, and that the code does what the term means.
//!
//! This layer compiles a term, and says what a machine does that runs code: its steps and its runs are
//! definitions (`specs/Exec.antt`) that know the meaning of modules alone. Its one contract: `compile`
//! gives the code of a term, `depth` how large the stacks grow for it; and the laws
//! (`specs/Laws.antt`) say that this code executes to the meaning of the term and to nothing else, is
//! never stuck, stays within its stacks and jumps within itself, that its steps are counted down
//! (`specs/StepsLeft.antt`), and that it calls the modules that the meaning calls, in that order
//! (`specs/Calls.antt`). It stands on `vir_term` for terms, on `vir_code` for code, and on `vir_mean`,
//! `vir_profile` and `vir_altset` for what a term means.
#![tactic(auto)]

mod compiler;
mod laws;
#[cfg(test)]
mod tests;

pub use compiler::{compile, depth};
pub use laws::{
    calls_left_are_exact, code_executes_on_restricted_ballots, code_executes_to_the_meaning,
    code_is_safe, jumps_stay_within, steps_left_are_exact,
};
