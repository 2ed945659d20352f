// As many alternatives as there may be: one voter puts each before all lower ones.
use std::alloc::Global;
use std::test::Fail;
use vir_counter::{Counter, EliminatorCounter, PluralityCounter};
use vir_mean::plain_result;
use vir_profile::{AltSet, Ballot, Entry, Profile, SocFile};
use vir_score::{KeptScore, borda_score};
use vir_tables::Election;
use vir_term::{FixedOrder, Leaf, Score, Term};

const MANY: u16 = 1_024;

fn profile_of_one_voter(alloc: Global) -> Result<Profile, Fail> {
    let mut order = Vec::new(alloc);
    for lower in 0..MANY {
        order.push(MANY - lower)?;
    }
    let order = Ballot::of(alloc, order)?;
    let mut profile = Profile::new(alloc, MANY);
    profile
        .add(Entry { weight: 1, order })
        .map_err(|refused| refused.fault)?;
    Ok(profile)
}

fn is_just(set: &AltSet, x: u16) -> bool {
    set.count() == 1 && set.first_after(0) == Some(x)
}

#[test]
fn the_highest_wins_and_the_lowest_goes(rt: HostRuntime) -> Result<(), Fail> {
    let alloc = rt.alloc();
    let file = SocFile::of(profile_of_one_voter(alloc)?, Vec::new(alloc));
    let election = Election::of(alloc, file)?;
    let all = AltSet::all(election.alternatives());
    let mut plurality = PluralityCounter::new();
    assert!(rt; plurality.serves(&Leaf::Plurality));
    let winner = plurality.split(&Leaf::Plurality, &election, &all);
    assert!(rt; is_just(&winner.elected, 1_024) && winner.rejected.count() == 1_023);
    let mut borda = EliminatorCounter::new(KeptScore::new(Score::Borda));
    let lowest = Leaf::Min(Score::Borda);
    assert!(rt; borda.serves(&lowest));
    let left = borda.split(&lowest, &election, &all);
    assert!(rt; is_just(&left.rejected, 1) && left.deferred.count() == 1_023);
    assert!(rt; all.has(1) && borda_score(&election, &all, 1) == 0);
    Ok(())
}

// The highest is passed first in a fixed order, and elected.
fn elect_the_highest(alloc: Global) -> Result<Term, Fail> {
    let order = FixedOrder::of(Vec::from_slice(alloc, &[MANY])?)?;
    let pass = Term::Leaf(Leaf::PassFirst { k: 1, order });
    let elect = Term::Leaf(Leaf::Elect);
    Ok(Term::Seq(Box::new(alloc, pass)?, Box::new(alloc, elect)?))
}

#[test]
fn the_highest_is_passed_and_elected(rt: HostRuntime) -> Result<(), Fail> {
    let alloc = rt.alloc();
    let profile = profile_of_one_voter(alloc)?;
    let rule = elect_the_highest(alloc)?;
    let all = AltSet::all(profile.alternatives());
    let split = plain_result(alloc, &rule, &profile, &all)?;
    assert!(rt; is_just(&split.elected, 1_024) && split.rejected.count() == 1_023);
    assert!(rt; split.deferred.count() == 0);
    Ok(())
}
