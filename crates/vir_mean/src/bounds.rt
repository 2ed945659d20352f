// What the scores of members are compared with: the greatest, the least or the sum of them.
ghost use Rattle.std.specs.Prelude.{◌≡◌, true, ℕ, pos, unwrap_or, length};
ghost use Rattle.std.specs.FinSet as set;
ghost use Rattle.vir_altset.specs.Sets.{limit};
ghost use Rattle.vir_mean.specs.Eliminators.{goes, sum_of};
ghost use Rattle.vir_mean.specs.Members.{AreMembers};
ghost use Rattle.vir_mean.specs.Numbers.{score_of, AreSmall};
ghost use Rattle.vir_mean.specs.Extremes.{greatest, smallest, raised, sunk, goes_by};

use crate::elimination::Elimination;
use vir_profile::AltSet;

// The greatest so far, with one score more.
fn greater_of(greatest: Option<i128>, score: i128) -> Option<i128>
    ensures { result ≡ raised greatest score }
{
    match greatest {
        Some(before) => Some(if before < score { score } else { before }),
        None => Some(score),
    }
}

// The least so far, with one score more.
fn lesser_of(least: Option<i128>, score: i128) -> Option<i128>
    ensures { result ≡ sunk least score }
{
    match least {
        Some(before) => Some(if score < before { score } else { before }),
        None => Some(score),
    }
}

// The greatest score of a member, and 0 where there is none.
fn greatest_score(domain: &AltSet, members: &[u16], scores: &[i128]) -> i128
    requires members { AreMembers domain.now members.now }
    requires size { length scores.now ≡ limit }
    ensures { result ≡ unwrap_or (greatest (score_of scores.now) members.now) (pos 0) }
{
    let mut greatest = None;
    for x in members {
        greatest = greater_of(greatest, scores[usize::from(*x) - 1]);
    }
    greatest.unwrap_or(0)
}

// The least score of a member, and 0 where there is none.
fn least_score(domain: &AltSet, members: &[u16], scores: &[i128]) -> i128
    requires members { AreMembers domain.now members.now }
    requires size { length scores.now ≡ limit }
    ensures { result ≡ unwrap_or (smallest (score_of scores.now) members.now) (pos 0) }
{
    let mut least = None;
    for x in members {
        least = lesser_of(least, scores[usize::from(*x) - 1]);
    }
    least.unwrap_or(0)
}

// The sum of the scores of all members.
fn sum_of_scores(domain: &AltSet, members: &[u16], scores: &[i128]) -> i128
    requires members { AreMembers domain.now members.now }
    requires size { length scores.now ≡ limit }
    requires small { AreSmall domain.now scores.now }
    ensures { result ≡ sum_of (score_of scores.now) domain.now }
{
    let mut sum: i128 = 0;
    for x in members {
        sum += scores[usize::from(*x) - 1];
    }
    sum
}

// What each score is compared with.
pub(crate) fn bound_of(kind: Elimination, domain: &AltSet, members: &[u16], scores: &[i128]) -> i128
    requires members { AreMembers domain.now members.now }
    requires size { length scores.now ≡ limit }
    requires small { AreSmall domain.now scores.now }
    ensures { (x : ℕ) → set.contains domain.now x ≡ true
        → goes_by kind (score_of scores.now x) result (pos (set.len domain.now))
        ≡ goes kind (score_of scores.now) domain.now x }
{
    match kind {
        Elimination::Max => greatest_score(domain, members, scores),
        Elimination::Min => least_score(domain, members, scores),
        Elimination::Below | Elimination::Upto => sum_of_scores(domain, members, scores),
    }
}
