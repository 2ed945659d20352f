//! The tests of `vir_claims`, in a crate of their own: what `prove`, `check`, `synth`, `refute` and `simplify`
//! answer for small rules.
//!
//! There is no code but the tests, so the crate has no contract, and `vir_claims` is proved without them.
//! It stands on `vir_claims`, on `vir_course` for answers, on `vir_cert` for certificates, on `vir_refute` for
//! cases, on `vir_rules` for properties, and on `vir_samples` for profiles, rules and modules.
#![tactic(auto)]

#[cfg(test)]
mod answers;
#[cfg(test)]
mod cases;
#[cfg(test)]
mod expected;
#[cfg(test)]
mod simple_rules;
