// The scores of one member of a set that go by pairs: by how many voters put it before each other member.
ghost use Rattle.std.specs.Prelude.{◌≡◌, ◌≢◌, ◌≤◌, true};
ghost use Rattle.std.specs.FinSet as set;
ghost use Rattle.vir_mean.specs.Members.{AreMembers};
ghost use Rattle.vir_mean.specs.Scores.{borda_score, copeland_score, minimax_score, condorcet_score};
ghost use Rattle.vir_mean.specs.Extremes.{lowered};

use crate::tally::Tally;
use vir_profile::AltSet;

// How many voters put it before another member, added up over the other members.
pub(crate) fn borda<T: Tally>(tally: &T, domain: &AltSet, members: &[u16], x: u16) -> i128
    requires may { T.may tally.now domain.now }
    requires members { AreMembers domain.now members.now }
    requires member { set.contains domain.now x ≡ true }
    ensures { result ≡ borda_score domain.now (T.lines tally.now domain.now) x }
{
    let mut sum: u128 = 0;
    for y in members {
        if *y != x {
            sum += u128::from(tally.prefers(domain, x, *y));
        }
    }
    sum as i128
}

// How many members it beats, less how many beat it.
pub(crate) fn copeland<T: Tally>(tally: &T, domain: &AltSet, members: &[u16], x: u16) -> i128
    requires may { T.may tally.now domain.now }
    requires members { AreMembers domain.now members.now }
    requires member { set.contains domain.now x ≡ true }
    ensures { result ≡ copeland_score domain.now (T.lines tally.now domain.now) x }
{
    let mut won: u16 = 0;
    let mut lost: u16 = 0;
    for y in members {
        if *y != x {
            won += u16::from(tally.beats(domain, x, *y));
            lost += u16::from(tally.beats(domain, *y, x));
        }
    }
    i128::from(won) - i128::from(lost)
}

// The least so far, with one number more.
fn fewer_of(least: Option<u64>, number: u64) -> Option<u64>
    ensures { result ≡ lowered least number }
{
    match least {
        Some(before) => Some(number.min(before)),
        None => Some(number),
    }
}

// How many voters put it before another member, where these are fewest.
pub(crate) fn minimax<T: Tally>(tally: &T, domain: &AltSet, members: &[u16], x: u16) -> i128
    requires may { T.may tally.now domain.now }
    requires members { AreMembers domain.now members.now }
    requires member { set.contains domain.now x ≡ true }
    ensures { result ≡ minimax_score domain.now (T.lines tally.now domain.now) x }
{
    let mut least = None;
    for y in members {
        if *y != x {
            least = fewer_of(least, tally.prefers(domain, x, *y));
        }
    }
    i128::from(least.unwrap_or(0))
}

// 1 where it beats each other member, and 0 where it doesn't.
pub(crate) fn condorcet<T: Tally>(tally: &T, domain: &AltSet, members: &[u16], x: u16) -> i128
    requires may { T.may tally.now domain.now }
    requires members { AreMembers domain.now members.now }
    requires member { set.contains domain.now x ≡ true }
    ensures { result ≡ condorcet_score domain.now (T.lines tally.now domain.now) x }
{
    for y in members {
        if *y != x && !tally.beats(domain, x, *y) {
            return 0;
        }
    }
    1
}
