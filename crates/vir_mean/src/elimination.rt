// The modules that go by scores: the four eliminators, and the election of those most often put first.
ghost use Rattle.std.specs.Prelude.{◌≡◌, ◌≤◌, pos, ◌≤ℤ◌, length};
ghost use Rattle.std.specs.FinSet as set;
ghost use Rattle.vir_altset.specs.Sets.{limit};
ghost use Rattle.vir_mean.specs.Eliminators.{eliminator, eliminated, goes};
ghost use Rattle.vir_mean.specs.Members.{AreMembers};
ghost use Rattle.vir_mean.specs.Modules.{winners_elected};
ghost use Rattle.vir_mean.specs.Numbers.{score_of, score_bound, IsWithin, AreSmall};
ghost use Rattle.vir_mean.specs.Scores.{score};
ghost use Rattle.vir_mean.specs.Extremes.{goes_by};

use crate::bounds::bound_of;
use crate::members::list_members;
use crate::scores::fill_scores;
use crate::simple_splits::{defer_all, elect_none};
use crate::tally::{PLACES, Tally};
use vir_profile::{AltSet, Split};
use vir_term::Score;

/// Which members of a set go, by their scores.
#[derive(Clone, Copy, Debug, PartialEq, Eq)]
pub enum Elimination {
    /// Those below the greatest score.
    Max,
    /// Those with the least score.
    Min,
    /// Those below the average score.
    Below,
    /// Those at most at the average score.
    Upto,
}

// Whether a member goes by its score, where this is what scores are compared with. No average is
// rounded: the score is multiplied by the number of members instead.
fn goes_by(kind: Elimination, score: i128, bound: i128, size: i128) -> bool
    requires score { IsWithin score_bound score }
    requires some { pos 1 ≤ℤ size }
    requires few { size ≤ℤ pos limit }
    ensures { result ≡ goes_by kind score bound size }
{
    match kind {
        Elimination::Max => score < bound,
        Elimination::Min => score <= bound,
        Elimination::Below => score * size < bound,
        Elimination::Upto => score * size <= bound,
    }
}

// The members that go by these scores.
fn find_gone(kind: Elimination, domain: &AltSet, members: &[u16], scores: &[i128]) -> AltSet
    requires members { AreMembers domain.now members.now }
    requires size { length scores.now ≡ limit }
    requires small { AreSmall domain.now scores.now }
    ensures { result ≡ set.retain domain.now (goes kind (score_of scores.now) domain.now) }
{
    let size = i128::from(domain.count());
    let bound = bound_of(kind, domain, members, scores);
    let mut gone = AltSet::empty();
    for x in members {
        if goes_by(kind, scores[usize::from(*x) - 1], bound, size) {
            gone.put(*x);
        }
    }
    gone
}

// The members that go by their scores of this name.
fn find_gone_by_score<T: Tally>(
    kind: Elimination,
    named: Score,
    tally: &T,
    domain: &AltSet,
) -> AltSet
    requires { T.may tally.now domain.now }
    ensures { result
        ≡ set.retain domain.now (goes kind (score named domain.now (T.lines tally.now domain.now)) domain.now) }
{
    let mut list = [0u16; PLACES];
    let count = list_members(domain, &mut list);
    let members = &list[..count];
    let mut scores = [0i128; PLACES];
    fill_scores(named, tally, domain, members, &mut scores);
    find_gone(kind, domain, members, &scores)
}

// These are rejected, or nobody is where these are all.
fn split_of(domain: &AltSet, gone: AltSet) -> Split
    ensures { result ≡ eliminated domain.now gone }
{
    let left = domain.minus(&gone);
    if left.equals(&AltSet::empty()) {
        return defer_all(domain);
    }
    elect_none(&gone, &left)
}

/// The split of an eliminator by the scores that the members of a set have, that of x at place x - 1.
pub fn eliminate_by_scores(
    kind: Elimination,
    domain: &AltSet,
    members: &[u16],
    scores: &[i128],
) -> Split
    requires members { AreMembers domain.now members.now }
    requires size { length scores.now ≡ limit }
    requires small { AreSmall domain.now scores.now }
    ensures { result ≡ eliminated domain.now (set.retain domain.now (goes kind (score_of scores.now) domain.now)) }
{
    split_of(domain, find_gone(kind, domain, members, scores))
}

/// The split of an eliminator: those that go by their scores are rejected and the others deferred, or
/// all are deferred where all would go. It goes over the ballots at most once, and takes no memory.
pub fn eliminate<T: Tally>(kind: Elimination, named: Score, tally: &T, domain: &AltSet) -> Split
    requires { T.may tally.now domain.now }
    ensures { result ≡ eliminator kind named domain.now (T.lines tally.now domain.now) }
{
    split_of(domain, find_gone_by_score(kind, named, tally, domain))
}

/// The split that elects those that most voters put first, and rejects the others. It goes over the
/// ballots once, and takes no memory.
pub fn elect_plurality_winners<T: Tally>(tally: &T, domain: &AltSet) -> Split
    requires { T.may tally.now domain.now }
    ensures { result ≡ winners_elected domain.now (T.lines tally.now domain.now) }
{
    let passed = find_gone_by_score(Elimination::Max, Score::Plurality, tally, domain);
    Split {
        elected: domain.minus(&passed),
        rejected: passed,
        deferred: AltSet::empty(),
    }
}
