// Positional scores, and the eliminators that go by them.
ghost use Rattle.std.specs.Prelude.{◌≡◌, true, length};
ghost use Rattle.std.specs.FinSet as set;
ghost use Rattle.vir_altset.specs.Sets.{all, limit, IsPart};
ghost use Rattle.vir_altset.specs.Splits.{IsSplitOf};
ghost use Rattle.vir_mean.specs.Members.{AreMembers};
ghost use Rattle.vir_mean.specs.Numbers.{AreScores, AreSmall};
ghost use Rattle.vir_profile.specs.Profiles.{restrict};
ghost use Rattle.vir_positional.specs.Positional.{positional, positional_split};

use crate::sums::add_up;
use crate::weighing::Weighing;
use vir_mean::{Elimination, PLACES, eliminate_by_scores, list_members};
use vir_profile::{AltSet, Split};
use vir_tables::Election;

/// The score of one member of the domain, by the ballots restricted to it: what it gets from all voters,
/// from each the weight of the place at which it stands. [`positional_split`] finds the scores of all
/// members in the same time.
pub fn positional_score<W: Weighing>(rule: &W, election: &Election, domain: &AltSet, x: u16) -> i128
    requires part { IsPart domain.now (all election.now.profile.alternatives) }
    requires member { set.contains domain.now x ≡ true }
    ensures { result ≡ positional (W.kept rule.now) domain.now (restrict domain.now election.now.profile.lines) x }
{
    domain.bounded();
    let mut sums = [0u128; PLACES];
    add_up(rule, election, domain, &mut sums);
    sums[usize::from(x) - 1] as i128
}

/// Fills an array with the positional scores of the members of a set, that of x at place x - 1. The other
/// places stay as they are. It goes over the lines once.
pub fn fill<W: Weighing>(
    rule: &W,
    election: &Election,
    domain: &AltSet,
    members: &[u16],
    scores: &mut [i128],
)
    requires part { IsPart domain.now (all election.now.profile.alternatives) }
    requires members { AreMembers domain.now members.now }
    requires size { length scores.old ≡ limit }
    ensures each { AreScores domain.now (positional (W.kept rule.now) domain.now
        (restrict domain.now election.now.profile.lines)) scores.new }
    ensures small { AreSmall domain.now scores.new }
{
    let mut sums = [0u128; PLACES];
    add_up(rule, election, domain, &mut sums);
    for x in members {
        let place = usize::from(*x) - 1;
        scores[place] = sums[place] as i128;
    }
}

/// The split of the eliminator of this kind by the positional score: those that go by their scores are
/// rejected and the others deferred, or all are deferred where all would go. It goes over the lines
/// once, and takes no memory.
pub fn positional_split<W: Weighing>(
    kind: Elimination,
    rule: &W,
    election: &Election,
    domain: &AltSet,
) -> Split
    requires { IsPart domain.now (all election.now.profile.alternatives) }
    ensures exact { result ≡ positional_split kind (W.kept rule.now) domain.now
        (restrict domain.now election.now.profile.lines) }
    ensures split { IsSplitOf domain.now result }
{
    let mut list = [0u16; PLACES];
    let count = list_members(domain, &mut list);
    let members = &list[..count];
    let mut scores = [0i128; PLACES];
    fill(rule, election, domain, members, &mut scores);
    eliminate_by_scores(kind, domain, members, &scores)
}
