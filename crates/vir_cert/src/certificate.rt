// What a certificate is.
use vir_rules::{Derivation, Prop};
use vir_term::Term;

/// A term, a property, and a derivation, whatever it derives.
#[derive(Drop)]
pub struct Certificate {
    pub term: Term,
    pub prop: Prop,
    pub derivation: Derivation,
}
