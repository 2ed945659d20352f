// The counter of the modules that look at no ballot and no order.
ghost use Rattle.std.specs.Prelude.{◌≡◌};
ghost use Rattle.std.specs.FinSet as set;
ghost use Rattle.vir_counter.specs.Kinds.{fixed_kinds};

use crate::calls::one_more;
use crate::counter::Counter;
use std::marker::Model;
use vir_profile::{AltSet, Split};
use vir_tables::Election;
use vir_term::Leaf;

/// The counter of the modules that elect all and that defer all. It is seen as its number of calls.
#[derive(Debug, Drop)]
pub struct FixedCounter {
    calls: u64,
}

impl Model for FixedCounter {
    ghost use Rattle.std.specs.Prelude.{ℕ};

    ghost Value = { ℕ };

    ghost view = { λ counter. counter.calls };
}

impl FixedCounter {
    /// A counter with no calls.
    pub fn new() -> FixedCounter
        ensures { result ≡ 0 }
    {
        FixedCounter { calls: 0 }
    }
}

impl Counter for FixedCounter {
    ghost kinds = { λ _. fixed_kinds };

    ghost made = { λ calls. calls };

    fn serves(&self, leaf: &Leaf) -> bool {
        matches!(leaf, Leaf::Elect | Leaf::Defer)
    }

    fn split(&mut self, leaf: &Leaf, election: &Election, domain: &AltSet) -> Split {
        self.calls = one_more(self.calls);
        match leaf {
            Leaf::Elect => Split {
                elected: *domain,
                rejected: AltSet::empty(),
                deferred: AltSet::empty(),
            },
            Leaf::Defer => Split {
                elected: AltSet::empty(),
                rejected: AltSet::empty(),
                deferred: *domain,
            },
            _ => unreachable!(),
        }
    }

    fn calls(&self) -> u64 {
        self.calls
    }
}
