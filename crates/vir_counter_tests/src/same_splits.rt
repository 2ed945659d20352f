// The 27 modules that are shortest to write, on three small profiles.
use crate::elections::election_of;
use std::alloc::Global;
use std::process::Abort;
use std::test::Fail;
use vir_counter::{Counter, EliminatorCounter, FixedCounter, OrderCounter, PluralityCounter};
use vir_mean::plain_result;
use vir_profile::AltSet;
use vir_samples::{CYCLE, DIVIDED, Votes, profile_of};
use vir_score::KeptScore;
use vir_term::{FixedOrder, Leaf, Score, Term};

// One that beats both others, without most first places; a cycle; and a single ballot.
const PROFILES: &[Votes<'static>] = &[DIVIDED, CYCLE, &[(1, [3, 1, 2])]];

const SCORES: &[Score] = &[
    Score::Plurality,
    Score::Borda,
    Score::Copeland,
    Score::Minimax,
    Score::Condorcet,
];

// The counter and the literally restricted ballots give the same split of all alternatives.
fn expect_same<C: Counter>(
    rt: &impl Abort,
    alloc: Global,
    counter: &mut C,
    leaf: Leaf,
) -> Result<(), Fail> {
    for votes in PROFILES {
        let election = election_of(alloc, votes)?;
        let domain = AltSet::all(election.alternatives());
        assert!(rt; counter.serves(&leaf));
        let counted = counter.split(&leaf, &election, &domain);
        let term = Term::Leaf(leaf.copy(alloc)?);
        let meant = plain_result(alloc, &term, &profile_of(alloc, votes)?, &domain)?;
        assert!(rt; counted.elected.equals(&meant.elected));
        assert!(rt; counted.rejected.equals(&meant.rejected));
        assert!(rt; counted.deferred.equals(&meant.deferred));
    }
    Ok(())
}

#[test]
fn fixed_modules_are_counted_as_they_mean(rt: HostRuntime) -> Result<(), Fail> {
    let mut counter = FixedCounter::new();
    expect_same(&rt, rt.alloc(), &mut counter, Leaf::Elect)?;
    expect_same(&rt, rt.alloc(), &mut counter, Leaf::Defer)?;
    expect_same(
        &rt,
        rt.alloc(),
        &mut PluralityCounter::new(),
        Leaf::Plurality,
    )
}

#[test]
fn modules_of_an_order_are_counted_as_they_mean(rt: HostRuntime) -> Result<(), Fail> {
    let mut counter = OrderCounter::new();
    for k in 1..3 {
        let order = FixedOrder::of(Vec::new(rt.alloc()))?;
        expect_same(&rt, rt.alloc(), &mut counter, Leaf::PassFirst { k, order })?;
        let order = FixedOrder::of(Vec::new(rt.alloc()))?;
        expect_same(&rt, rt.alloc(), &mut counter, Leaf::DropFirst { k, order })?;
    }
    Ok(())
}

#[test]
fn eliminators_are_counted_as_they_mean(rt: HostRuntime) -> Result<(), Fail> {
    for score in SCORES {
        let mut counter = EliminatorCounter::new(KeptScore::new(*score));
        expect_same(&rt, rt.alloc(), &mut counter, Leaf::Max(*score))?;
        expect_same(&rt, rt.alloc(), &mut counter, Leaf::Min(*score))?;
        expect_same(&rt, rt.alloc(), &mut counter, Leaf::Below(*score))?;
        expect_same(&rt, rt.alloc(), &mut counter, Leaf::Upto(*score))?;
    }
    Ok(())
}
