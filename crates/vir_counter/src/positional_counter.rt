// The counter of the eliminators of a score that is given by weights.
ghost use Rattle.std.specs.Prelude.{◌≡◌, true};
ghost use Rattle.vir_term.specs.declared.score.Score.{Score};
ghost use Rattle.vir_term.specs.Kinds.{kind_of};
ghost use Rattle.vir_mean.specs.Eliminators.{eliminator};
ghost use Rattle.vir_mean.specs.Modules.{leaf_mean};
ghost use Rattle.vir_counter.specs.Kinds.{eliminator_kinds, has_kind};
ghost use Rattle.vir_counter.specs.PositionalKinds.{served_kinds};

use crate::calls::one_more;
use crate::counter::Counter;
use std::marker::Model;
use vir_mean::Elimination;
use vir_positional::{Weighing, WeightForm, positional_split};
use vir_profile::{AltSet, Split};
use vir_tables::Election;
use vir_term::{Leaf, Score};

/// The counter of the four eliminators of the plurality or the Borda score, found by the weights of a
/// rule. With a rule whose form is a list it serves no module. It is seen as the rule's form and its
/// number of calls.
#[derive(Drop)]
pub struct PositionalCounter<W: Weighing> {
    rule: W,
    calls: u64,
}

impl<W: Weighing> Model for PositionalCounter<W> {
    ghost use Rattle.std.specs.Prelude.{ℕ};
    ghost use Rattle.vir_positional.specs.declared.weight_form.WeightForm.{WeightForm};

    ghost Value = { WeightForm × ℕ };

    ghost view = { λ counter. (W.kept counter.rule, counter.calls) };
}

impl<W: Weighing> PositionalCounter<W> {
    /// The counter of this rule's score, with no calls.
    pub fn new(rule: W) -> PositionalCounter<W>
        ensures { result ≡ (W.kept rule, 0) }
    {
        PositionalCounter { rule, calls: 0 }
    }
}

// Whether the module is an eliminator of this score.
fn eliminates_by(own: Score, leaf: &Leaf) -> bool
    ensures { result ≡ has_kind (eliminator_kinds own) (kind_of leaf.now) }
{
    match leaf {
        Leaf::Max(score) | Leaf::Min(score) | Leaf::Below(score) | Leaf::Upto(score) => *score
            == own,
        _ => false,
    }
}

// Which members go where this eliminator decides, whatever its score.
fn elimination_of(leaf: &Leaf) -> Elimination
    ensures { (score : Score) → has_kind (eliminator_kinds score) (kind_of leaf.now) ≡ true → leaf_mean leaf.now
        ≡ eliminator result score }
{
    match leaf {
        Leaf::Max(_) => Elimination::Max,
        Leaf::Min(_) => Elimination::Min,
        Leaf::Below(_) => Elimination::Below,
        _ => Elimination::Upto,
    }
}

impl<W: Weighing> Counter for PositionalCounter<W> {
    ghost kinds = { λ counter. served_kinds counter.0 };

    ghost made = { λ counter. counter.1 };

    fn serves(&self, leaf: &Leaf) -> bool {
        match self.rule.form() {
            WeightForm::Plurality => eliminates_by(Score::Plurality, leaf),
            WeightForm::Borda => eliminates_by(Score::Borda, leaf),
            WeightForm::List(_) => false,
        }
    }

    fn split(&mut self, leaf: &Leaf, election: &Election, domain: &AltSet) -> Split {
        // that its ballots list all alternatives makes the two scores the same
        let _alternatives = election.alternatives();
        self.calls = one_more(self.calls);
        positional_split(elimination_of(leaf), &self.rule, election, domain)
    }

    fn calls(&self) -> u64 {
        self.calls
    }
}
