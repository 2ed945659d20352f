// What is derived.
use vir_term::{Prop, Term};

/// What a derivation concludes.
#[derive(Clone, Copy)]
pub enum Judgement<'a> {
    /// A term has a property.
    Of { prop: Prop, term: &'a Term },
    /// Of each alternative one of two terms takes no notice, and rejects it.
    Disj { left: &'a Term, right: &'a Term },
}
