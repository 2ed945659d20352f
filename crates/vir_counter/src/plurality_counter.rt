// The counter of the module of first places.
ghost use Rattle.std.specs.Prelude.{◌≡◌};
ghost use Rattle.vir_counter.specs.Kinds.{plurality_kinds};

use crate::calls::one_more;
use crate::counter::Counter;
use crate::head_to_head::{split_of_two, two_of};
use std::marker::Model;
use vir_mean::elect_plurality_winners;
use vir_profile::{AltSet, Split};
use vir_tables::Election;
use vir_term::Leaf;

/// The counter of the module that elects those whom most voters put first. It is seen as its number of
/// calls, and each call goes over the ballots once.
#[derive(Debug, Drop)]
pub struct PluralityCounter {
    calls: u64,
}

impl Model for PluralityCounter {
    ghost use Rattle.std.specs.Prelude.{ℕ};

    ghost Value = { ℕ };

    ghost view = { λ counter. counter.calls };
}

impl PluralityCounter {
    /// A counter with no calls.
    pub fn new() -> PluralityCounter
        ensures { result ≡ 0 }
    {
        PluralityCounter { calls: 0 }
    }
}

impl Counter for PluralityCounter {
    ghost kinds = { λ _. plurality_kinds };

    ghost made = { λ calls. calls };

    fn serves(&self, leaf: &Leaf) -> bool {
        matches!(leaf, Leaf::Plurality)
    }

    fn split(&mut self, leaf: &Leaf, election: &Election, domain: &AltSet) -> Split {
        self.calls = one_more(self.calls);
        match two_of(domain) {
            Some((x, y)) => split_of_two(election, domain, x, y),
            None => elect_plurality_winners(election, domain),
        }
    }

    fn calls(&self) -> u64 {
        self.calls
    }
}
