//! The tests of the table of rules and of what searches it, in a crate of their own: names and numbers of rules, what
//! they fit and which premises they then have, and the texts of properties; first derivations of small rules, reasons
//! against others, and signatures; lists of terms, and the first terms with some properties. There is no code but the
//! tests, so the crate has no contract, and `vir_rules`, `vir_derive` and `vir_synth` are proved without them. It
//! stands on these three, on `vir_samples`, `vir_read` and `vir_term` for terms and modules, and on `either`.
#![tactic(auto)]

#[cfg(test)]
mod answers;
#[cfg(test)]
mod later_rules;
#[cfg(test)]
mod laws;
#[cfg(test)]
mod lists;
#[cfg(test)]
mod properties;
#[cfg(test)]
mod rules;
#[cfg(test)]
mod searches;
#[cfg(test)]
mod signatures;
