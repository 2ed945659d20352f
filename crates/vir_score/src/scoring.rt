// What gives a score.
ghost use Rattle.std.specs.Prelude.{◌≡◌, true, length};
ghost use Rattle.std.specs.FinSet as set;
ghost use Rattle.vir_altset.specs.Sets.{all, limit, IsPart};
ghost use Rattle.vir_profile.specs.Profiles.{restrict};
ghost use Rattle.vir_mean.specs.Members.{AreMembers};
ghost use Rattle.vir_mean.specs.Numbers.{AreScores};
ghost use Rattle.vir_mean.specs.Scores.{score};

use vir_profile::AltSet;
use vir_tables::Election;
use vir_term::Score;

/// An object that gives a score. The name of the score is a promise: what the object gives is proved to
/// be that score, however it finds it.
pub trait Scoring: Drop {
    ghost use Rattle.vir_term.specs.declared.score.Score.{Score};

    /// The name of its score.
    ghost named: { Self → Score };

    /// The name of its score.
    fn score(&self) -> Score
        ensures { result ≡ named self.now };

    /// The score of one member of the domain.
    fn value(&self, election: &Election, domain: &AltSet, x: u16) -> i128
        requires part { IsPart domain.now (all election.now.profile.alternatives) }
        requires member { set.contains domain.now x ≡ true }
        ensures { result
            ≡ score (named self.now) domain.now (restrict domain.now election.now.profile.lines) x };

    /// The scores of all members of the domain, that of x at place x - 1. The other places may become
    /// anything.
    fn fill(&self, election: &Election, domain: &AltSet, members: &[u16], scores: &mut [i128])
        requires part { IsPart domain.now (all election.now.profile.alternatives) }
        requires members { AreMembers domain.now members.now }
        requires size { length scores.old ≡ limit }
        ensures { AreScores domain.now
            (score (named self.now) domain.now (restrict domain.now election.now.profile.lines)) scores.new };
}
