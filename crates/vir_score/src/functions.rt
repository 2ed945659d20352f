// The five scores of an alternative, one function each.
ghost use Rattle.std.specs.Prelude.{◌≡◌, true};
ghost use Rattle.std.specs.FinSet as set;
ghost use Rattle.vir_altset.specs.Sets.{all, IsPart};
ghost use Rattle.vir_profile.specs.Profiles.{restrict};
ghost use Rattle.vir_mean.specs.Scores.{plurality_score, borda_score, copeland_score, minimax_score, condorcet_score};

use vir_mean::score_of;
use vir_profile::AltSet;
use vir_tables::Election;
use vir_term::Score;

/// How many voters put x first among the members of the domain.
pub fn plurality_score(election: &Election, domain: &AltSet, x: u16) -> i128
    requires part { IsPart domain.now (all election.now.profile.alternatives) }
    requires member { set.contains domain.now x ≡ true }
    ensures { result ≡ plurality_score (restrict domain.now election.now.profile.lines) x }
{
    score_of(Score::Plurality, election, domain, x)
}

/// How many voters put x before another member, added up over the other members.
pub fn borda_score(election: &Election, domain: &AltSet, x: u16) -> i128
    requires part { IsPart domain.now (all election.now.profile.alternatives) }
    requires member { set.contains domain.now x ≡ true }
    ensures { result ≡ borda_score domain.now (restrict domain.now election.now.profile.lines) x }
{
    score_of(Score::Borda, election, domain, x)
}

/// How many members x beats, less how many beat x.
pub fn copeland_score(election: &Election, domain: &AltSet, x: u16) -> i128
    requires part { IsPart domain.now (all election.now.profile.alternatives) }
    requires member { set.contains domain.now x ≡ true }
    ensures { result ≡ copeland_score domain.now (restrict domain.now election.now.profile.lines) x }
{
    score_of(Score::Copeland, election, domain, x)
}

/// How many voters put x before another member, where these are fewest, and 0 where x is the only
/// member.
pub fn minimax_score(election: &Election, domain: &AltSet, x: u16) -> i128
    requires part { IsPart domain.now (all election.now.profile.alternatives) }
    requires member { set.contains domain.now x ≡ true }
    ensures { result ≡ minimax_score domain.now (restrict domain.now election.now.profile.lines) x }
{
    score_of(Score::Minimax, election, domain, x)
}

/// 1 where x is the Condorcet winner among the members of the domain, and else 0.
pub fn condorcet_score(election: &Election, domain: &AltSet, x: u16) -> i128
    requires part { IsPart domain.now (all election.now.profile.alternatives) }
    requires member { set.contains domain.now x ≡ true }
    ensures { result ≡ condorcet_score domain.now (restrict domain.now election.now.profile.lines) x }
{
    score_of(Score::Condorcet, election, domain, x)
}
