// The scores of the members of a set.
ghost use Rattle.std.specs.Prelude.{◌≡◌, ◌≢◌, ◌≤◌, true, length};
ghost use Rattle.std.specs.FinSet as set;
ghost use Rattle.vir_altset.specs.Sets.{limit};
ghost use Rattle.vir_profile.specs.Profiles.{first_weight};
ghost use Rattle.vir_mean.specs.Members.{AreMembers};
ghost use Rattle.vir_mean.specs.Numbers.{AreNumbers, AreScores, AreSmall};
ghost use Rattle.vir_mean.specs.Scores.{score, plurality_score};

use crate::by_pairs::{borda, condorcet, copeland, minimax};
use crate::members::list_members;
use crate::tally::{PLACES, Tally};
use vir_profile::AltSet;
use vir_term::Score;

// The score of one of the members that are listed.
fn score_among<T: Tally>(named: Score, tally: &T, domain: &AltSet, members: &[u16], x: u16) -> i128
    requires may { T.may tally.now domain.now }
    requires members { AreMembers domain.now members.now }
    requires member { set.contains domain.now x ≡ true }
    ensures { result ≡ score named domain.now (T.lines tally.now domain.now) x }
{
    match named {
        Score::Plurality => i128::from(tally.first_weight(domain, x)),
        Score::Borda => borda(tally, domain, members, x),
        Score::Copeland => copeland(tally, domain, members, x),
        Score::Minimax => minimax(tally, domain, members, x),
        Score::Condorcet => condorcet(tally, domain, members, x),
    }
}

/// The score of one member of a set. [`fill_scores`] gives those of all members sooner.
pub fn score_of<T: Tally>(named: Score, tally: &T, domain: &AltSet, x: u16) -> i128
    requires may { T.may tally.now domain.now }
    requires member { set.contains domain.now x ≡ true }
    ensures { result ≡ score named domain.now (T.lines tally.now domain.now) x }
{
    let mut list = [0u16; PLACES];
    let count = list_members(domain, &mut list);
    score_among(named, tally, domain, &list[..count], x)
}

// Fills in the scores, one member after another.
fn fill_each<T: Tally>(
    named: Score,
    tally: &T,
    domain: &AltSet,
    members: &[u16],
    scores: &mut [i128],
)
    requires may { T.may tally.now domain.now }
    requires members { AreMembers domain.now members.now }
    requires size { length scores.old ≡ limit }
    ensures { AreScores domain.now (score named domain.now (T.lines tally.now domain.now)) scores.new }
{
    for x in members {
        scores[usize::from(*x) - 1] = score_among(named, tally, domain, members, *x);
    }
}

// Fills in how many voters put each member first.
fn fill_by_first_places<T: Tally>(tally: &T, domain: &AltSet, members: &[u16], scores: &mut [i128])
    requires may { T.may tally.now domain.now }
    requires members { AreMembers domain.now members.now }
    requires size { length scores.old ≡ limit }
    ensures { AreScores domain.now (plurality_score (T.lines tally.now domain.now)) scores.new }
{
    let mut weights = [0u64; PLACES];
    tally.first_weights(domain, &mut weights);
    for x in members {
        let place = usize::from(*x) - 1;
        scores[place] = i128::from(weights[place]);
    }
}

/// Fills an array with the scores of the members of a set, that of x at place x - 1. The other places
/// may become anything. It goes over the ballots once for first places, and asks of pairs for the other
/// scores.
pub fn fill_scores<T: Tally>(
    named: Score,
    tally: &T,
    domain: &AltSet,
    members: &[u16],
    scores: &mut [i128],
)
    requires may { T.may tally.now domain.now }
    requires members { AreMembers domain.now members.now }
    requires size { length scores.old ≡ limit }
    ensures each { AreScores domain.now (score named domain.now (T.lines tally.now domain.now)) scores.new }
    ensures small { AreSmall domain.now scores.new }
{
    // that their number is a u64 bounds the scores
    let _voters = tally.voters(domain);
    match named {
        Score::Plurality => fill_by_first_places(tally, domain, members, scores),
        _ => fill_each(named, tally, domain, members, scores),
    }
}
