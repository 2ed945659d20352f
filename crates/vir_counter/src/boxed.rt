// A counter in a box is a counter: each call goes to the object inside.
use crate::counter::Counter;
use vir_profile::{AltSet, Split};
use vir_tables::Election;
use vir_term::Leaf;

impl Counter for Box<dyn Counter> {
    ghost kinds = { λ b. (Counter-box b).kinds b.value };

    ghost made = { λ b. (Counter-box b).made b.value };

    fn serves(&self, leaf: &Leaf) -> bool {
        (**self).serves(leaf)
    }

    fn split(&mut self, leaf: &Leaf, election: &Election, domain: &AltSet) -> Split {
        (**self).split(leaf, election, domain)
    }

    fn calls(&self) -> u64 {
        (**self).calls()
    }
}
