// The counter of the modules of fixed orders.
ghost use Rattle.std.specs.Prelude.{◌≡◌};
ghost use Rattle.std.specs.FinSet as set;
ghost use Rattle.vir_mean.specs.Modules.{first_passed, first_dropped};
ghost use Rattle.vir_counter.specs.Kinds.{order_kinds};

use crate::calls::one_more;
use crate::counter::Counter;
use std::marker::Model;
use vir_mean::first_members;
use vir_profile::{AltSet, Split};
use vir_tables::Election;
use vir_term::Leaf;

/// The counter of the modules that go by a fixed order. It is seen as its number of calls.
#[derive(Debug, Drop)]
pub struct OrderCounter {
    calls: u64,
}

impl Model for OrderCounter {
    ghost use Rattle.std.specs.Prelude.{ℕ};

    ghost Value = { ℕ };

    ghost view = { λ counter. counter.calls };
}

impl OrderCounter {
    /// A counter with no calls.
    pub fn new() -> OrderCounter
        ensures { result ≡ 0 }
    {
        OrderCounter { calls: 0 }
    }
}

// These are rejected, and those deferred.
fn none_elected(rejected: AltSet, deferred: AltSet) -> Split
    ensures { result ≡ record { elected = set.empty; rejected = rejected; deferred = deferred } }
{
    Split {
        elected: AltSet::empty(),
        rejected,
        deferred,
    }
}

impl Counter for OrderCounter {
    ghost kinds = { λ _. order_kinds };

    ghost made = { λ calls. calls };

    fn serves(&self, leaf: &Leaf) -> bool {
        matches!(leaf, Leaf::PassFirst { .. } | Leaf::DropFirst { .. })
    }

    fn split(&mut self, leaf: &Leaf, election: &Election, domain: &AltSet) -> Split {
        self.calls = one_more(self.calls);
        match leaf {
            Leaf::PassFirst { k, order } => {
                let first = first_members(*k, order, domain);
                none_elected(domain.minus(&first), first)
            }
            Leaf::DropFirst { k, order } => {
                let first = first_members(*k, order, domain);
                none_elected(first, domain.minus(&first))
            }
            _ => unreachable!(),
        }
    }

    fn calls(&self) -> u64 {
        self.calls
    }
}
