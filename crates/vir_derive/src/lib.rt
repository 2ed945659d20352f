//! Deriving: the first derivation that the rules give of a judgement, or why they give none; and the signatures of
//! terms.
//!
//! The contract of this layer: `derive` gives the first derivation of a judgement just where the
//! judgement is derivable, and otherwise for each rule that fits its first premise that can't be derived
//! (`specs/Answers.antt`); which derivation is the first one and which reasons there are is defined where
//! the rules are, in `vir_rules`. Not everything that rules might lead to is tried. What is derivable of a
//! term ([`DerivableProps`]) follows from what is derivable of its parts and from their heads
//! (`specs/DerivableProps.antt`, `specs/Heads.antt`); so it is found once for each part, from the modules up
//! ([`PropsTree`], `specs/PropsTree.antt`), and then only what is derivable is built. A caller with many
//! questions about one term keeps them as [`Derivations`]. A [`Signature`] of a term holds just what decides
//! which of the properties with some numbers are derivable of what the term is composed into
//! (`specs/Signatures.antt`). The layer stands on `vir_rules` for the table, on `vir_term`, and on `either`.
#![tactic(auto)]

mod answer;
mod derivable_of_parts;
mod derivable_props;
mod derivations;
mod head;
mod kept_head;
pub mod laws;
mod props_tree;
mod sight;
mod signatures;
mod term_signature;

pub use derivable_props::DerivableProps;
pub use derivations::{Derivations, derive};
pub use head::are_opposed;
pub use props_tree::PropsTree;
pub use signatures::{loop_one_signature, par_signature, rev_signature, seq_signature, signature};
pub use term_signature::Signature;
