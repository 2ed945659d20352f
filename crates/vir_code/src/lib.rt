//! Code: the instructions that a voting rule is compiled to, for a machine with two stacks and jumps.
//!
//! This layer knows the instructions, which lists of them are the code of a term, and how code is
//! written; what the machine does at each is the business of `vir_compile`. Its one contract: a `Code`
//! is a list of instructions that is the code (`specs/Code.antt`) of a term within the limits, and
//! `validate` makes one of each such list, and of no other (`specs/Valid.antt`). No two terms have the
//! same code; `depth` is how large the stacks grow (`specs/Depth.antt`), and `listing` gives the text
//! (`specs/Listing.antt`). It stands on `vir_term` for terms, their limits and
//! their texts.
#![tactic(auto)]

mod code;
mod instr;
mod laws;
#[cfg(test)]
mod tests;
mod text;
mod validation;

pub use code::{CODE_LIMIT, Code};
pub use instr::Instr;
pub use laws::no_two_terms_have_the_same_code;
pub use text::listing;
pub use validation::validate;
