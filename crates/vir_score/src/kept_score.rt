// A score that goes by its name.
ghost use Rattle.std.specs.Prelude.{◌≡◌, length};
ghost use Rattle.vir_altset.specs.Sets.{all, limit, IsPart};
ghost use Rattle.vir_profile.specs.Profiles.{restrict};
ghost use Rattle.vir_mean.specs.Members.{AreMembers};
ghost use Rattle.vir_mean.specs.Numbers.{AreScores};
ghost use Rattle.vir_mean.specs.Scores.{borda_score};

use crate::scoring::Scoring;
use std::marker::Model;
use vir_mean::{fill_scores, score_of};
use vir_positional::{WeightForm, WeightRule, fill_positional};
use vir_profile::AltSet;
use vir_tables::Election;
use vir_term::Score;

/// The score of a name. The first places of all members are added up in one pass over the ballots, and
/// so are their Borda scores where the election has no table. The other scores go by pairs.
#[derive(Debug, Drop)]
pub struct KeptScore {
    score: Score,
}

impl Model for KeptScore {
    ghost use Rattle.vir_term.specs.declared.score.Score.{Score};

    ghost Value = { Score };

    ghost view = { λ kept. kept.score };
}

impl KeptScore {
    /// The score of this name.
    pub fn new(score: Score) -> KeptScore
        ensures { result ≡ score }
    {
        KeptScore { score }
    }
}

// Fills in the Borda scores by the weights of places, in one pass over the ballots.
fn fill_borda(election: &Election, domain: &AltSet, members: &[u16], scores: &mut [i128])
    requires part { IsPart domain.now (all election.now.profile.alternatives) }
    requires members { AreMembers domain.now members.now }
    requires size { length scores.old ≡ limit }
    ensures { AreScores domain.now
        (borda_score domain.now (restrict domain.now election.now.profile.lines)) scores.new }
{
    // that its ballots list all alternatives makes the two scores the same
    let _alternatives = election.alternatives();
    let rule = WeightRule::new(WeightForm::Borda);
    fill_positional(&rule, election, domain, members, scores);
}

impl Scoring for KeptScore {
    ghost named = { λ score. score };

    fn score(&self) -> Score {
        self.score
    }

    fn value(&self, election: &Election, domain: &AltSet, x: u16) -> i128 {
        score_of(self.score, election, domain, x)
    }

    fn fill(&self, election: &Election, domain: &AltSet, members: &[u16], scores: &mut [i128]) {
        if self.score == Score::Borda && !election.has_table() {
            fill_borda(election, domain, members, scores);
        } else {
            fill_scores(self.score, election, domain, members, scores);
        }
    }
}
