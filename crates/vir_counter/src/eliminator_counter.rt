// The counter of eliminators.
ghost use Rattle.std.specs.Prelude.{◌≡◌};
ghost use Rattle.vir_counter.specs.Kinds.{eliminator_kinds};

use crate::calls::one_more;
use crate::counter::Counter;
use std::marker::Model;
use vir_profile::{AltSet, Split};
use vir_score::{Elimination, Scoring, eliminate};
use vir_tables::Election;
use vir_term::Leaf;

/// The counter of the four eliminators of one score. It is seen as the score's name and its number of
/// calls.
#[derive(Drop)]
pub struct EliminatorCounter<S: Scoring> {
    scoring: S,
    calls: u64,
}

impl<S: Scoring> Model for EliminatorCounter<S> {
    ghost use Rattle.std.specs.Prelude.{ℕ};
    ghost use Rattle.vir_term.specs.declared.score.Score.{Score};

    ghost Value = { Score × ℕ };

    ghost view = { λ counter. (S.named counter.scoring, counter.calls) };
}

impl<S: Scoring> EliminatorCounter<S> {
    /// The counter of this object's score, with no calls.
    pub fn new(scoring: S) -> EliminatorCounter<S>
        ensures { result ≡ (S.named scoring, 0) }
    {
        EliminatorCounter { scoring, calls: 0 }
    }
}

impl<S: Scoring> Counter for EliminatorCounter<S> {
    ghost kinds = { λ counter. eliminator_kinds counter.0 };

    ghost made = { λ counter. counter.1 };

    fn serves(&self, leaf: &Leaf) -> bool {
        let own = self.scoring.score();
        match leaf {
            Leaf::Max(score) | Leaf::Min(score) | Leaf::Below(score) | Leaf::Upto(score) => *score
                == own,
            _ => false,
        }
    }

    fn split(&mut self, leaf: &Leaf, election: &Election, domain: &AltSet) -> Split {
        self.calls = one_more(self.calls);
        let scoring = &self.scoring;
        match leaf {
            Leaf::Max(_) => eliminate(Elimination::Max, scoring, election, domain),
            Leaf::Min(_) => eliminate(Elimination::Min, scoring, election, domain),
            Leaf::Below(_) => eliminate(Elimination::Below, scoring, election, domain),
            Leaf::Upto(_) => eliminate(Elimination::Upto, scoring, election, domain),
            _ => unreachable!(),
        }
    }

    fn calls(&self) -> u64 {
        self.calls
    }
}
