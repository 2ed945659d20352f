// Scores and rounds of small elections, worked out by hand.
ghost use Rattle.vir_altset.specs.Sets.{IsPart};

use crate::elections::election_of;
use std::alloc::Global;
use std::process::Abort;
use std::test::Fail;
use vir_counter::{Counter, EliminatorCounter, PluralityCounter};
use vir_profile::{AltSet, Ballot, Entry, Profile, SocFile};
use vir_samples::{CYCLE, DIVIDED, Votes};
use vir_score::{KeptScore, borda_score, plurality_score};
use vir_tables::Election;
use vir_term::{Leaf, Score};

// As many voters as there may be, of one opinion.
fn election_of_a_crowd(alloc: Global) -> Result<Election, Fail> {
    let mut profile = Profile::new(alloc, 2);
    let order = Ballot::from_slice(alloc, &[1, 2])?;
    let weight = 18_446_744_073_709_551_615;
    profile
        .add(Entry { weight, order })
        .map_err(|refused| refused.fault)?;
    Ok(Election::of(alloc, SocFile::of(profile, Vec::new(alloc)))?)
}

// The Borda score of an alternative.
fn expect_borda(rt: &impl Abort, election: &Election, x: u16, score: i128) {
    let domain = AltSet::all(election.alternatives());
    assert!(rt; x >= 1 && x <= 3 && domain.has(x));
    assert!(rt; borda_score(election, &domain, x) == score);
}

#[test]
fn borda_scores_of_a_cycle_and_of_a_crowd(rt: HostRuntime) -> Result<(), Fail> {
    let cycle = election_of(rt.alloc(), CYCLE)?;
    for x in 1..4 {
        expect_borda(&rt, &cycle, x, 3);
    }
    let crowd = election_of_a_crowd(rt.alloc())?;
    expect_borda(&rt, &crowd, 1, 18_446_744_073_709_551_615);
    expect_borda(&rt, &crowd, 2, 0);
    Ok(())
}

// The members of both sets.
fn part(whole: &AltSet, some: &AltSet) -> AltSet
    ensures { IsPart result whole.now }
{
    whole.inter(some)
}

// First places are 4, 3, 2, so 3 goes; then, of two, 4 and 5, so 1 goes. In a cycle nobody goes.
#[test]
fn rounds_go_by_the_ballots_that_are_left(rt: HostRuntime) -> Result<(), Fail> {
    let election = election_of(rt.alloc(), DIVIDED)?;
    let mut counter = EliminatorCounter::new(KeptScore::new(Score::Plurality));
    let round = Leaf::Min(Score::Plurality);
    let all = AltSet::all(election.alternatives());
    assert!(rt; counter.serves(&round));
    let first = counter.split(&round, &election, &all);
    assert!(rt; first.rejected.count() == 1 && first.rejected.first_after(0) == Some(3));
    let left = part(&all, &first.deferred);
    let second = counter.split(&round, &election, &left);
    assert!(rt; second.rejected.count() == 1 && second.rejected.first_after(0) == Some(1));
    assert!(rt; left.has(2) && plurality_score(&election, &left, 2) == 5);
    let cycle = election_of(rt.alloc(), CYCLE)?;
    let all = AltSet::all(cycle.alternatives());
    let third = counter.split(&round, &cycle, &all);
    assert!(rt; third.deferred.count() == 3 && counter.calls() == 3);
    Ok(())
}

// The numbers up to 3 of this list.
fn set_of(members: &[u16]) -> AltSet {
    let mut set = AltSet::empty();
    for x in members {
        if *x >= 1 && *x <= 3 {
            set.put(*x);
        }
    }
    set
}

// Of these members plurality elects those.
fn expect_elected(rt: &impl Abort, election: &Election, members: &[u16], elected: &[u16]) {
    let all = AltSet::all(election.alternatives());
    let asked = part(&all, &set_of(members));
    let mut counter = PluralityCounter::new();
    let split = counter.split(&Leaf::Plurality, election, &asked);
    assert!(rt; split.elected.equals(&set_of(elected)) && split.deferred.count() == 0);
    assert!(rt; split.rejected.equals(&asked.minus(&set_of(elected))) && counter.calls() == 1);
}

// Two parties of two voters each.
const EVEN: Votes<'static> = &[(2, [1, 2, 3]), (2, [2, 1, 3])];

// First places are 4, 3, 2; five prefer 2 to 1, five 3 to 1, and seven 2 to 3.
const ELECTED: &[(Votes<'static>, &[u16], &[u16])] = &[
    (DIVIDED, &[1, 2, 3], &[1]),
    (DIVIDED, &[1, 2], &[2]),
    (DIVIDED, &[1, 3], &[3]),
    (DIVIDED, &[2, 3], &[2]),
    (DIVIDED, &[3], &[3]),
    (DIVIDED, &[], &[]),
    (EVEN, &[1, 2], &[1, 2]),
    (EVEN, &[2, 3], &[2]),
];

#[test]
fn plurality_of_two_goes_by_who_is_preferred(rt: HostRuntime) -> Result<(), Fail> {
    for (votes, members, elected) in ELECTED {
        expect_elected(&rt, &election_of(rt.alloc(), *votes)?, members, elected);
    }
    Ok(())
}
